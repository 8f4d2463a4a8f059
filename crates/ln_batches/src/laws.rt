//! Laws of what leaves, over every list of calls.

ghost use Rattle.std.specs.Prelude.{ℕ, List};
ghost use Rattle.ln_batches.specs.Calls.{Call, run, begun, AreSaved, AreRising, of_channel};

/// A law: over any calls, in any order and of any channels, each message that has left did so once the host had saved
/// every record that had changed before it came, of whatever channel; and the messages of a channel left once each, in
/// the order in which they came.
pub fn saved_before_sent<M>()
    ensures saved_first { (cs : List (Call M)) → AreSaved (run cs begun).gone }
    ensures sent_once_in_order { (cs : List (Call M)) (c : ℕ) → AreRising 0 (of_channel c (run cs begun).gone) }
{}
