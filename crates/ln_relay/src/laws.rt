//! What the steps of a relay come to, in whatever order the threads take them.

ghost use Rattle.std.specs.Prelude.{◌≡◌, ◌≤◌, ◌++◌, ℕ, List, length};
ghost use Rattle.ln_relay.specs.History.{Seat, History, IsInOrder, own, Step, CanHappen, after, adds};
ghost use Rattle.ln_relay.specs.History.{nothing, CanRun, run, all_added};

/// Each step that can happen keeps what was taken and what is queued a merge of what was put, and changes the
/// list of no seat but its own.
pub fn each_step_keeps_order<T>()
    ensures keeps_order { (room : ℕ) (step : Step T) (h : History T) → CanHappen room step h → IsInOrder h
        → IsInOrder (after step h) }
    ensures keeps_within_the_room { (room : ℕ) (step : Step T) (h : History T) → CanHappen room step h
        → length h.queued ≤ room
        → length (after step h).queued ≤ room }
    ensures one_seat { (seat : Seat) (step : Step T) (h : History T) →
        own seat (after step h) ≡ own seat h ++ adds seat step }
{}

/// In every schedule: over any list of steps that can happen one after the other in a new relay, what was taken
/// and what is queued are a merge of what was put, the queue stays within its room, and each seat's list is what
/// its own steps put or took.
pub fn in_every_schedule<T>()
    ensures keeps_order { (room : ℕ) (steps : List (Step T)) → CanRun room steps nothing
        → IsInOrder (run steps nothing) }
    ensures keeps_within_the_room { (room : ℕ) (steps : List (Step T)) → CanRun room steps nothing
        → length (run steps nothing).queued ≤ room }
    ensures each_seat { (seat : Seat) (steps : List (Step T)) → own seat (run steps nothing) ≡ all_added seat steps }
{}
