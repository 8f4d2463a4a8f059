//! What is stored of one end of a channel.

use crate::list::Listed;
use crate::place::ChainPlace;
use ln_bytes::Bytes;
use ln_close::Fees;
use ln_dance::{Later, Numbers, Peer};
use ln_keys::Role;
use ln_log::{Add, ChannelId, Decision, EventRef, Settlement, Update};
use ln_refusals::Refusal;

/// What a side has sent and taken beside updates and signatures.
#[derive(Clone, Copy, PartialEq, Eq)]
pub struct Flags {
    /// Whether its `channel_ready` was sent.
    pub ready_sent: bool,
    /// Whether the peer's was taken.
    pub ready_received: bool,
    /// Whether its `shutdown` was sent.
    pub shut_sent: bool,
    /// Whether the peer's was taken.
    pub shut_received: bool,
    /// Which of its last signature and its last revocation it sent later.
    pub later: Later,
}

/// What both sides agreed on as they opened the channel and confirmed it.
#[derive(Drop)]
pub struct Agreement {
    /// The fields and records of `open_channel`: the message without its type.
    pub open_payload: Bytes,
    /// The fields and records of `accept_channel`.
    pub accept_payload: Bytes,
    /// Where the funding stands on the chain, once that was confirmed.
    pub place: Option<ChainPlace>,
    /// The closing fees that this side takes.
    pub fees: Fees,
    /// The script of this side's `shutdown`, at most 65,535 bytes.
    pub script: Bytes,
    /// That of the peer's, once it was taken.
    pub peer_script: Option<Bytes>,
}

/// A live HTLC.
#[derive(Clone, Copy, PartialEq, Eq)]
pub struct LiveHtlc {
    /// Who offers it.
    pub offerer: Role,
    /// The HTLC as it was offered.
    pub add: Add,
}

/// A number of either side.
#[derive(Clone, Copy, PartialEq, Eq)]
pub struct Sides {
    /// The funder's.
    pub funder: u64,
    /// The fundee's.
    pub fundee: u64,
}

/// What the first updates of either side have come to, in whose place it stands.
#[derive(Drop)]
pub struct Base {
    /// How many updates are in it.
    pub updates: Sides,
    /// The ids of the next HTLCs after these.
    pub next_ids: Sides,
    /// What the sides have, in millisatoshi.
    pub balances: Sides,
    /// In satoshi per 1000 weight.
    pub feerate: u32,
    /// The live HTLCs: those of the funder by id, then those of the fundee.
    pub live: Listed<LiveHtlc>,
}

/// The updates after the base, one by one.
#[derive(Drop)]
pub struct Window {
    /// The funder's.
    pub funder: Listed<Update>,
    /// The fundee's.
    pub fundee: Listed<Update>,
}

/// How many updates of either side, counted from the opening, a commitment covers.
#[derive(Clone, Copy, PartialEq, Eq)]
pub struct Covered {
    /// Of this side's.
    pub own: u64,
    /// Of the peer's.
    pub peer: u64,
}

/// What the three pairs of lists that a side goes by cover.
#[derive(Clone, Copy, PartialEq, Eq)]
pub struct Pairs {
    /// The own last signature.
    pub signed: Covered,
    /// The peer's commitment up to which it has revoked.
    pub acknowledged: Covered,
    /// The own commitment.
    pub current: Covered,
}

/// The events of a channel end: how many were decided, and those after them.
#[derive(Drop)]
pub struct Events {
    /// How many were decided.
    pub decided: u64,
    /// The undecided ones in their order.
    pub undecided: Listed<EventRef>,
}

/// What was decided about HTLCs, and what became of those that were forwarded.
#[derive(Drop)]
pub struct Forwards {
    /// In the order of deciding.
    pub decisions: Listed<Decision>,
    /// In the order in which they came.
    pub results: Listed<Settlement>,
}

/// The fees of a closing transaction, in satoshi, as far as it came.
#[derive(Clone, Copy, PartialEq, Eq)]
pub struct ClosingFees {
    /// The last that this side sent.
    pub own: Option<u64>,
    /// The last of the peer's that it took.
    pub peer: Option<u64>,
    /// At which the channel is closed.
    pub closed: Option<u64>,
}

/// Which channel and end it is, and how far it is.
#[derive(Clone, Copy, PartialEq, Eq)]
pub struct Header {
    /// The channel's id.
    pub channel: ChannelId,
    /// Which side this end is.
    pub role: Role,
    /// What it has sent and taken.
    pub flags: Flags,
    /// By what the channel has failed, if it has: 21 to 35 or 37.
    pub failure: Option<Refusal>,
}

/// The commitments of both sides.
#[derive(Clone, Copy, PartialEq, Eq)]
pub struct Commitments {
    /// Their numbers.
    pub numbers: Numbers,
    /// What the peer has told of its own.
    pub peer: Peer,
}

/// The updates of both sides.
#[derive(Drop)]
pub struct Updates {
    /// What the first ones came to.
    pub base: Base,
    /// Those after them.
    pub window: Window,
    /// How many of them signatures and commitments cover.
    pub pairs: Pairs,
}

/// What became of the updates.
#[derive(Drop)]
pub struct Progress {
    /// The events.
    pub events: Events,
    /// The HTLCs that are forwarded.
    pub forwards: Forwards,
    /// The closing fees that passed.
    pub fees: ClosingFees,
}

/// What is stored of one end of a channel.
#[derive(Drop)]
pub struct Items {
    /// Which channel and end it is, and how far it is.
    pub header: Header,
    /// What both sides agreed on.
    pub agreement: Agreement,
    /// The commitments of both sides.
    pub commitments: Commitments,
    /// The updates of both sides.
    pub updates: Updates,
    /// What became of the updates.
    pub progress: Progress,
}
