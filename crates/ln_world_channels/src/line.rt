//! What a step did, line by line.

use crate::step::{End, Node};
use ln_channel::Summary;
use ln_hooks::Verdict;
use ln_refusals::Refusal;

/// A message, by what a report tells of it.
#[derive(Clone, Copy, PartialEq, Eq)]
pub enum Word {
    /// `channel_ready`.
    ChannelReady,
    /// `update_add_htlc` with this id.
    Add(u64),
    /// `update_fulfill_htlc` of the HTLC with this id.
    Fulfil(u64),
    /// `update_fail_htlc` of the HTLC with this id.
    Fail(u64),
    /// `update_fail_malformed_htlc` of the HTLC with this id.
    Malformed(u64),
    /// `update_fee` to this feerate, in satoshis for 1000 units of weight.
    Fee(u32),
    /// `commitment_signed` of the receiver's commitment with this number.
    Sign(u64),
    /// `revoke_and_ack` of the sender's commitment with this number.
    Revoke(u64),
    /// `channel_reestablish` with these next numbers, of a commitment and of a revocation.
    Reestablish(u64, u64),
    /// `shutdown`.
    Shutdown,
    /// `closing_signed` with this fee, in satoshis.
    Closing(u64),
    /// `warning`.
    Warning,
    /// `error`.
    Error,
}

/// How an HTLC was removed.
#[derive(Clone, Copy, PartialEq, Eq)]
pub enum Ending {
    /// It was fulfilled.
    Fulfilled,
    /// It has failed.
    Failed,
    /// It has failed as its onion couldn't be read.
    Malformed,
}

/// What was decided about an event, by what a report tells of it.
#[derive(Clone, Copy, PartialEq, Eq)]
pub enum Choice {
    /// Nothing is done about it.
    None,
    /// It is forwarded by the channel with this number.
    Forward(u8),
    /// It is failed by this code.
    Fail(u16),
    /// It is failed as malformed, by this code.
    Malformed(u16),
    /// It is fulfilled.
    Fulfil,
    /// It is held.
    Held,
}

/// A line of a report: what a step did.
#[derive(Clone, Copy, PartialEq, Eq)]
pub enum Line {
    /// The channel with this number was opened.
    Open(u8),
    /// An end sent a message, also where the other end is down.
    Sends(End, Word),
    /// An HTLC became irrevocably committed for an end.
    Added {
        /// The end.
        end: End,
        /// The event's number.
        number: u64,
        /// Whether this end had offered the HTLC.
        own: bool,
        /// The HTLC's id.
        id: u64,
    },
    /// The removal of an HTLC became irrevocably committed for an end.
    Settled {
        /// The end.
        end: End,
        /// The event's number.
        number: u64,
        /// Whether this end had offered the HTLC.
        own: bool,
        /// The HTLC's id.
        id: u64,
        /// How it was removed.
        how: Ending,
    },
    /// The channel is closed for an end.
    Closed {
        /// The end.
        end: End,
        /// The event's number.
        number: u64,
        /// The fee, in satoshis.
        fee: u64,
    },
    /// A command or a message was refused by an end.
    Refused(End, Refusal),
    /// A node stopped, and restarts.
    Restarts(Node),
    /// A dispatcher served an end's event of this number, and its hooks said this of it. No step of channels alone
    /// tells of it.
    Dispatched(End, u64, Verdict),
    /// An end has taken the decision of its event of this number. No step of channels alone tells of it.
    Decided(End, u64, Choice),
    /// An end has taken what was decided about the HTLC that it held by its event of this number. No step of channels
    /// alone tells of it.
    Resumed(End, u64, Choice),
    /// The step couldn't be taken.
    Idle,
}

/// Where an end of a channel stands, as a report ends with.
#[derive(Clone, Copy, PartialEq, Eq)]
pub struct EndLine {
    /// The end.
    pub end: End,
    /// Where it stands.
    pub summary: Summary,
}
