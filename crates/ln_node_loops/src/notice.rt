//! What becomes of a channel's connections and of its end.

use ln_bytes::Fault;
use ln_refusals::Refusal;

/// What has become of a channel's connection, or of its end.
#[derive(Clone, Copy, PartialEq, Eq, Debug)]
pub enum Notice {
    /// A connection is over: at its end, or by this fault of a message (1 to 8), a failed read (63) or want of memory
    /// (60).
    Ended(Result<(), Fault>),
    /// A connection was over before the peer's init had come, or that asked for features that aren't known (9) or
    /// lacked those that are wanted.
    NoInit,
    /// The peer's init came, and its connection is open: `Node::peer_init` of ln_node tells it.
    Met,
    /// The end refused a message, a command of the book or the worker's own `Sign` by this, or not all was written for
    /// a message or an order: 7, 60 or 63.
    Refused(Refusal),
    /// The end refused the channel's order of this number by this: the first order has the number 0.
    OrderRefused(u64, Refusal),
    /// The end has halted: it answers nothing until it was loaded.
    Halted,
    /// It was loaded from its record.
    Loaded,
    /// A hook has held a payment: it waits until it is resumed by this number, that of the event that told of it. It
    /// can be resumed as soon as its channel has taken that, which may be a moment later.
    Held(u64),
}
