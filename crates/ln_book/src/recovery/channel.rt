//! A channel end answers what a book asks after a lost connection or a load.

ghost use Rattle.std.specs.Prelude.{◌≡◌};
ghost use Rattle.std.specs.List.{list_any};
ghost use Rattle.ln_channel.specs.Ledger.{is_held_at};
ghost use Rattle.ln_book.specs.Kept.{own_window, is_gone, has_own_removal};

use crate::recovery::kept::Kept;
use ln_channel::Channel;
use ln_log::{Decision, Mark, Outcome, Pair, Side, Update, UpdateLog, find_add, outcome_of};

// The own updates after the base.
pub(crate) fn own_window(log: &UpdateLog) -> &[Update]
    ensures { result.now ≡ own_window log.now }
{
    let first = log.first(Side::Own);
    log.between(Side::Own, first, log.counts(Pair::ToSign).own)
}

// Whether the peer's HTLC of this id was offered in the base, and isn't live there any more.
fn is_gone(id: u64, log: &UpdateLog) -> bool
    ensures { result ≡ is_gone id log.now }
{
    id < log.balances().next_peer && find_add(id, log.live(Side::Peer)).is_none()
}

// Whether an own update removes the peer's HTLC of this id.
pub(crate) fn has_own_removal(id: u64, log: &UpdateLog) -> bool
    ensures { result ≡ has_own_removal id log.now }
{
    outcome_of(id, own_window(log)) != Outcome::Live || is_gone(id, log)
}

// Whether a decision is held by the number of this event.
fn holds_at(decisions: &[Decision], event: u64) -> bool
    ensures { result ≡ list_any (is_held_at event) decisions.now }
{
    decisions
        .iter()
        .any(|decision| decision.mark.is_held_by(event))
}

/// The end of a channel that both sides have signed, once it has dropped what no signature covers.
impl Kept for Channel {
    ghost use Rattle.ln_book.specs.Kept.{next_own_id, has_own_removal, has_decided};

    ghost next = { λ c. next_own_id c };

    ghost removes = { λ c id. has_own_removal id c.dance.log };

    ghost decides = { λ c event mark. has_decided event mark c };

    fn next_own_id(&self) -> u64 {
        self.dance().log().next_id()
    }

    fn removal_kept(&self, id: u64) -> bool {
        has_own_removal(id, self.dance().log())
    }

    fn decision_kept(&self, event: u64, mark: &Mark) -> bool {
        event < self.ledger().decided()
            && mark.is_held() == holds_at(self.ledger().decisions(), event)
    }
}
