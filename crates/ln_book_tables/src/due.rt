//! The HTLCs of a book to which a command may be due in some channel.

ghost use Rattle.std.specs.Prelude.{◌≡◌};
ghost use Rattle.ln_book_tables.specs.Due.{is_forwarded};

use crate::htlc::{Htlc, IncomingLeg, OutgoingLeg};
use ln_log::Mark;

impl OutgoingLeg {
    ghost use Rattle.std.specs.Prelude.{◌≡◌};
    ghost use Rattle.ln_book_tables.specs.Replay.{has_nothing_offered};
    ghost use Rattle.ln_book_tables.specs.Due.{is_resolved, is_told_by};

    /// Whether nothing was offered, and nothing was refused.
    pub fn has_nothing_offered(&self) -> bool
        ensures { result ≡ has_nothing_offered self.now }
    {
        match self {
            OutgoingLeg::Absent => true,
            OutgoingLeg::Refused | OutgoingLeg::Offered(_) | OutgoingLeg::Resolved(_, _) => false,
        }
    }

    // Whether it is known what has become of it.
    fn is_resolved(&self) -> bool
        ensures { result ≡ is_resolved self.now }
    {
        match self {
            OutgoingLeg::Absent | OutgoingLeg::Refused | OutgoingLeg::Offered(_) => false,
            OutgoingLeg::Resolved(_, _) => true,
        }
    }

    // Whether its channel has told what becomes of it.
    fn is_told(&self) -> bool
        ensures { result ≡ is_told_by self.now }
    {
        match self {
            OutgoingLeg::Absent | OutgoingLeg::Offered(_) => false,
            OutgoingLeg::Refused | OutgoingLeg::Resolved(_, _) => true,
        }
    }
}

impl IncomingLeg {
    ghost use Rattle.std.specs.Prelude.{◌≡◌};
    ghost use Rattle.ln_book_tables.specs.Replay.{is_open};

    /// Whether its removal wasn't proposed.
    pub fn is_open(&self) -> bool
        ensures { result ≡ is_open self.now }
    {
        match self {
            IncomingLeg::Open => true,
            IncomingLeg::RemovalSent | IncomingLeg::RemovalRefused | IncomingLeg::Settled => false,
        }
    }
}

// Whether it goes on in another channel.
fn is_forwarded(mark: &Mark) -> bool
    ensures { result ≡ is_forwarded mark.now }
{
    match mark {
        Mark::Forward { .. } => true,
        Mark::None | Mark::Fail(_) | Mark::Malformed(_) | Mark::Fulfil(_) | Mark::Held(_) => false,
    }
}

impl Htlc {
    ghost use Rattle.std.specs.Prelude.{◌≡◌};
    ghost use Rattle.ln_book_tables.specs.Due.{has_removal, is_due};

    /// Whether it is known how it is to be removed.
    pub fn has_removal(&self) -> bool
        ensures { result ≡ has_removal self.now.mark self.now.outgoing }
    {
        match &self.mark {
            Mark::None | Mark::Held(_) => false,
            Mark::Forward { .. } => self.outgoing.is_told(),
            Mark::Fail(_) | Mark::Malformed(_) | Mark::Fulfil(_) => true,
        }
    }

    // Whether a command may be due to it in some channel.
    pub(crate) fn is_due(&self) -> bool
        ensures { result ≡ is_due self.now }
    {
        if !self.decided {
            false
        } else if self.incoming.is_settled() {
            self.outgoing.is_resolved()
        } else {
            self.outgoing.has_nothing_offered() && is_forwarded(&self.mark)
                || self.has_removal() && self.incoming.is_open()
        }
    }
}
