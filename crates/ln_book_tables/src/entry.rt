//! What is entered in a book.

use crate::htlc::{Key, Offer};
use ln_forward::{Expected, Policy};
use ln_hooks::How;
use ln_log::{ChannelId, Mark};
use std::marker::Model;

/// A channel that payments are forwarded by.
#[derive(Clone, Copy, PartialEq, Eq)]
pub struct OutgoingChannel {
    /// The channel.
    pub channel: ChannelId,
    /// What the node asks for it.
    pub policy: Policy,
    /// The least that the other end takes, in millisatoshi.
    pub minimum: u64,
}

/// A payment that the node waits for.
#[derive(Clone, Copy, PartialEq, Eq)]
pub struct Invoice {
    /// What the payment hash is the SHA-256 of.
    pub preimage: [u8; 32],
    /// Its secret and its amount.
    pub expected: Expected,
}

/// A decision that a channel is yet to take.
#[derive(Drop)]
pub struct Queued {
    /// The channel.
    pub channel: ChannelId,
    /// The number of the event.
    pub event: u64,
    /// What is done about it.
    pub mark: Mark,
    /// Whether it resumes what is held; else it decides what wasn't decided.
    pub resumes: bool,
}

/// What was decided about an event.
#[derive(Drop)]
pub struct Decided {
    /// The channel.
    pub channel: ChannelId,
    /// The number of the event.
    pub event: u64,
    /// What the peer has offered, where the event tells of that.
    pub offer: Option<Offer>,
    /// What is done about it.
    pub mark: Mark,
}

/// What was decided about an HTLC that is held.
#[derive(Drop)]
pub struct Resumed {
    /// The channel by which it came.
    pub channel: ChannelId,
    /// The number of the event that told of it.
    pub event: u64,
    /// What is done about it.
    pub mark: Mark,
}

/// What a command does that was handed out.
#[derive(Clone, Copy, PartialEq, Eq)]
pub enum Out {
    /// It decides the event of this number.
    Deciding(u64),
    /// It offers this incoming HTLC in the outgoing channel.
    Adding(Key),
    /// It removes this incoming HTLC.
    Removing(Key),
    /// It forgets what became of the outgoing HTLC of this incoming one.
    Forgetting(Key),
    /// It resumes what is held by the number of this event.
    Resuming(u64),
}

/// A command of a channel.
#[derive(Clone, Copy, PartialEq, Eq)]
pub enum PendingCommand {
    /// There is none.
    Idle,
    /// It was handed out, and not yet answered.
    InFlight(Out),
    /// Whether it was taken will be known from the channel's record.
    Unknown(Out),
}

/// Ids of HTLCs.
#[derive(Drop)]
pub struct Ids {
    items: Vec<u64>,
}

impl Model for Ids {
    ghost use Rattle.std.specs.Prelude.{ℕ, List};

    ghost Value = { List ℕ };

    ghost view = { λ i. i.items.items };
}

impl Ids {
    ghost use Rattle.std.specs.Prelude.{◌≡◌};

    /// The ids of a vector. Takes no memory.
    pub fn of(items: Vec<u64>) -> Ids
        ensures { result ≡ items.items }
    {
        Ids { items }
    }

    /// The ids in order.
    pub fn as_slice(&self) -> &[u64]
        ensures { result.now ≡ self.now }
    {
        self.items.as_slice()
    }
}

/// What a channel has kept after a lost connection or a load.
#[derive(Drop)]
pub struct KeptState {
    /// The id of its next own HTLC.
    pub next: u64,
    /// The peer's HTLCs in the book of which it has kept a removal.
    pub removes: Ids,
    /// Whether it has kept the decision that was out.
    pub decides: bool,
}

/// What is entered in a book.
#[derive(Drop)]
pub enum Entry {
    /// A short channel id, in its eight bytes, names this channel.
    Route([u8; 8], OutgoingChannel),
    /// Whether a channel takes payments.
    Use(ChannelId, bool),
    /// The block height.
    Height(u32),
    /// A payment is waited for.
    Expect(Invoice),
    /// An event was decided.
    Decided(Decided),
    /// What is held was decided.
    Resumed(Resumed),
    /// A command was handed out.
    Taken(ChannelId, Out),
    /// The channel has answered the command that is out: by the HTLC's id or the event's number, or by its refusal.
    Answered(ChannelId, Result<u64, u16>),
    /// What has become of an own HTLC is irrevocably committed.
    Resolved(Key, How),
    /// The removal of a peer's HTLC is irrevocably committed.
    Removed(Key),
    /// The channel's connection was lost, or it was loaded.
    Dropped(ChannelId, KeptState),
}
