//! What a channel answers after a lost connection.

use ln_book::Kept;
use ln_log::Mark;

/// The next own id, the HTLCs of which a removal was kept, and how many events are decided.
#[derive(Drop)]
pub struct Answers {
    pub next: u64,
    pub removals: Vec<u64>,
    pub decided: u64,
}

impl Kept for Answers {
    ghost use Rattle.std.specs.Prelude.{nat_lt};
    ghost use Rattle.ln_book_tables.specs.Replay.{is_among};

    ghost next = { λ a. a.next };

    ghost removes = { λ a id. is_among id a.removals.items };

    ghost decides = { λ a event mark. nat_lt event a.decided };

    fn next_own_id(&self) -> u64 {
        self.next
    }

    fn removal_kept(&self, id: u64) -> bool {
        self.removals.iter().any(|other| id == *other)
    }

    fn decision_kept(&self, event: u64, _: &Mark) -> bool {
        event < self.decided
    }
}
