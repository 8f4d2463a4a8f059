//! What a book takes from the end of a channel.

use ln_book_tables::{Htlc, Key, OutgoingLeg};
use std::marker::Model;

/// The number of no event: an end has 2^63 + 2 at most.
pub(crate) const NO_EVENT: u64 = u64::MAX;

/// An own HTLC that forwards another one.
#[derive(Drop)]
pub struct Leg {
    /// The HTLC that it forwards.
    pub origin: Key,
    /// The own one, and what has become of it where that is held.
    pub outgoing: OutgoingLeg,
}

/// What a book takes from the end of a channel as its node starts.
#[derive(Drop)]
pub struct ChannelSnapshot {
    pub(crate) offered: Vec<Leg>,
    pub(crate) results: Vec<Leg>,
    pub(crate) decided: Vec<Htlc>,
}

impl Model for ChannelSnapshot {
    ghost use Rattle.ln_book.specs.Rebuild as rebuild;

    ghost Value = { rebuild.ChannelSnapshot };

    ghost view = { λ r. record {
      offered = r.offered.items;
      results = r.results.items;
      decided = r.decided.items;
    } };
}

impl ChannelSnapshot {
    ghost use Rattle.std.specs.Prelude.{◌≡◌};

    // Its own adds that forward others.
    pub(crate) fn offered(&self) -> &[Leg]
        ensures { result.now ≡ self.now.offered }
    {
        self.offered.as_slice()
    }

    // What became of such adds.
    pub(crate) fn results(&self) -> &[Leg]
        ensures { result.now ≡ self.now.results }
    {
        self.results.as_slice()
    }

    // The peer's HTLCs that it has decided.
    pub(crate) fn decided(&self) -> &[Htlc]
        ensures { result.now ≡ self.now.decided }
    {
        self.decided.as_slice()
    }
}
