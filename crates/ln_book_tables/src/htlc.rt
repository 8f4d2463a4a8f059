//! An HTLC of a peer's that a node forwards, fails or takes, as its book knows it.

use ln_hooks::How;
use ln_log::{ChannelId, Mark};

/// An HTLC by the channel in which it was offered, and its id among those that its side has offered there.
#[derive(Clone, Copy, PartialEq, Eq, Hash)]
pub struct Key {
    /// The channel.
    pub channel: ChannelId,
    /// The id.
    pub id: u64,
}

/// What a peer offers by an HTLC (BOLT 2, "Adding an HTLC").
#[derive(Clone, Copy, PartialEq, Eq)]
pub struct Offer {
    /// Its id among those that the peer has offered in the channel.
    pub id: u64,
    /// In millisatoshi.
    pub amount: u64,
    /// The payment hash.
    pub hash: [u8; 32],
    /// The block height at which it times out.
    pub expiry: u32,
    /// What its receiver forwards by (BOLT 4).
    pub onion: [u8; 1366],
}

/// The outgoing HTLC of one that is forwarded.
#[derive(Clone, Drop)]
pub enum OutgoingLeg {
    /// There is none.
    Absent,
    /// The outgoing channel has refused it.
    Refused,
    /// It was offered so.
    Offered(Key),
    /// It was offered so, and what has become of it is irrevocably committed.
    Resolved(Key, How),
}

/// The removal of the incoming HTLC.
#[derive(Clone, Copy, PartialEq, Eq)]
pub enum IncomingLeg {
    /// There is none.
    Open,
    /// It was proposed.
    RemovalSent,
    /// It was refused, and isn't tried again.
    RemovalRefused,
    /// It is irrevocably committed.
    Settled,
}

/// An HTLC of a peer's. What searches ask for stands in front, so that they needn't read the onion.
#[derive(Drop)]
pub struct Htlc {
    /// The channel by which it came, and its id there.
    pub key: Key,
    /// The number of the event that told of it; 2^64 - 1 where the HTLC was read off the end of a channel.
    pub event: u64,
    /// What is done about it.
    pub mark: Mark,
    /// Whether the channel has taken the decision.
    pub decided: bool,
    /// Its removal.
    pub incoming: IncomingLeg,
    /// Its outgoing HTLC.
    pub outgoing: OutgoingLeg,
    /// What was offered.
    pub offer: Offer,
}
