//! What of an end a book reads.

ghost use Rattle.std.specs.Prelude.{◌≡◌, ℕ};
ghost use Rattle.ln_channel.specs.End.{End};
ghost use Rattle.ln_log.specs.declared.mark.Mark.{Mark};
ghost use Rattle.ln_book.specs.Kept.{next_own_id, has_own_removal, has_decided};
ghost use Rattle.ln_book.specs.Rebuild.{channel_snapshot_of};
ghost use Rattle.ln_book.specs.Told.{AreToldAlike};

/// A law: what a book reads of the end of a channel, and what that answers it, lies in what a record tells of the end.
/// So it doesn't matter that one that was loaded doesn't know which updates its base stands for.
pub fn a_record_tells_what_is_read()
    ensures snapshots { (e x : End) → AreToldAlike e x → channel_snapshot_of e ≡ channel_snapshot_of x }
    ensures next_ids { (e x : End) → AreToldAlike e x → next_own_id e ≡ next_own_id x }
    ensures removals { (e x : End) → AreToldAlike e x
        → (id : ℕ) → has_own_removal id e.dance.log ≡ has_own_removal id x.dance.log }
    ensures decisions { (e x : End) → AreToldAlike e x → (n : ℕ) (m : Mark) → has_decided n m e ≡ has_decided n m x }
{}
