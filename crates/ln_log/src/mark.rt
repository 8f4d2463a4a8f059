//! What an event of a channel end tells of, and what is done about it.

use crate::update::{ChannelId, Update};
use ln_bytes::Bytes;

/// What is done about an event.
#[derive(Clone, Drop)]
pub enum Mark {
    /// Nothing.
    None,
    /// The HTLC that was added is offered in this channel.
    Forward {
        /// The channel.
        channel: ChannelId,
        /// What the HTLC pays there, in millisatoshi.
        amount: u64,
        /// The block height at which it times out there.
        expiry: u32,
    },
    /// The HTLC that was added is failed for this reason.
    Fail(Bytes),
    /// The HTLC that was added is failed by this code, as its onion can't be read.
    Malformed(u16),
    /// The HTLC that was added is fulfilled by this preimage.
    Fulfil([u8; 32]),
    /// The HTLC that was added is held until it is resumed, by this number: that of the event that told of it.
    Held(u64),
}

impl Mark {
    ghost use Rattle.std.specs.Prelude.{◌≡◌};
    ghost use Rattle.ln_log.specs.Mark.{is_held, is_held_by};

    /// Whether it holds an HTLC.
    pub fn is_held(&self) -> bool
        ensures { result ≡ is_held self.now }
    {
        match self {
            Mark::Held(_) => true,
            _ => false,
        }
    }

    /// Whether it holds an HTLC that the event of this number told of.
    pub fn is_held_by(&self, event: u64) -> bool
        ensures { result ≡ is_held_by event self.now }
    {
        match self {
            Mark::Held(number) => event == *number,
            _ => false,
        }
    }
}

/// What an event tells of. Updates of a side count from 0.
#[derive(Clone, Copy, PartialEq, Eq)]
pub enum EventRef {
    /// The own update of this number.
    Own(u64),
    /// The peer's update of this number.
    Peer(u64),
    /// The close.
    Close,
}

/// What was decided about an HTLC of the peer's.
#[derive(Clone, Drop)]
pub struct Decision {
    /// The HTLC.
    pub id: u64,
    /// What is done about it; never `None`.
    pub mark: Mark,
}

/// What became of an own HTLC that forwards another one.
#[derive(Drop)]
pub struct Settlement {
    /// The own HTLC.
    pub id: u64,
    /// The HTLC that it forwards: the channel by which it came, and its id there.
    pub origin: (ChannelId, u64),
    /// The update that removed it.
    pub removal: Update,
}
