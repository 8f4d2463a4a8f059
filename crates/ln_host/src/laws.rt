//! Laws of the line, over every list of calls.

ghost use Rattle.std.specs.Prelude.{◌≡◌, ◌++◌, List, true};
ghost use Rattle.ln_host.specs.Line.{Waiting, lost};
ghost use Rattle.ln_host.specs.Calls.{Call, run, begun, told_by, AreSaved, AreRising};
ghost use Rattle.ln_host.specs.Course.{HostCall, Runs, IsBegun, IsLineOf};
ghost use Rattle.ln_host.specs.Hosted.{Seat, waits};

/// A law: a message leaves a line only once its host has saved the last record that covers it; each leaves at most
/// once, and in the order in which they came; what is told is heard once, in order, and nothing of it is lost; a lost
/// connection takes no record.
pub fn saved_before_sent()
    ensures saved_first { (cs : List Call) → AreSaved (run cs begun).sent }
    ensures sent_once_in_order { (cs : List Call) → AreRising 0 (run cs begun).sent }
    ensures heard_once_in_order { (cs : List Call) → (run cs begun).heard ++ (run cs begun).line.told ≡ told_by cs }
    ensures loses_no_record { (w : Waiting) → (lost w).record_waits ≡ w.record_waits }
{}

/// A law: over every list of calls of a hosted link its line moves by the calls of a line, each by its own kind: what a
/// message, a command or a connection hands out is put, a `done` fills or takes off what stands first, a lost
/// connection loses. So `saved_before_sent` speaks of it. The record stands first wherever the host hasn't taken it:
/// anything else is shown only while the host has the link's record.
pub fn hosted_lines_are_lines()
    ensures moves_by_calls { (hs : List HostCall) (old new : Seat) → IsBegun old → Runs hs old new
        → IsLineOf hs new }
    ensures record_stands_first { (hs : List HostCall) (old new : Seat) → IsBegun old → Runs hs old new
        → waits new ≡ true → new.line.record_waits ≡ true }
{}
