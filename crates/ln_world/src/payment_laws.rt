//! What a node promises of the payments that pass through it (BOLT 2, "Forwarding HTLCs"): one goes out for each that
//! comes in, whatever is lost, restarted or stopped.

ghost use Rattle.std.specs.Prelude.{ℕ, List, ◌++◌};
ghost use Rattle.ln_hooks.specs.declared.verdict.Verdict.{Verdict};
ghost use Rattle.ln_world_channels.specs.declared.step.Node.{Node};
ghost use Rattle.ln_world.specs.declared.step.Step.{Step};
ghost use Rattle.ln_world.specs.World.{empty, run};
ghost use Rattle.ln_payment_circuits.specs.Snapshot.{Incoming};
ghost use Rattle.ln_world.specs.Circuit.{IsCovered, PaysOnce};
ghost use Rattle.ln_world.specs.Commands.{AreOfBook};

use ln_keys::ChannelKeys;

/// A law over every list of steps by which the ends of a node are asked by its book alone to remove HTLCs, and to offer
/// those that forward others: restarts and stops of the node, lost connections and ends without memory included. For
/// each HTLC that the node was offered, a signature covers one HTLC at most that forwards it, over all its channels;
/// and where it has a removal, even an unsigned one, that is what became of the one that went out, irrevocably
/// committed (BOLT 2, "Forwarding HTLCs"). A fulfilment carries its preimage. So a payment is forwarded once, and what
/// came in is failed only where nothing that went out for it may still be fulfilled.
pub fn one_payment_out<K: ChannelKeys + Copy>()
    ensures { (steps : List (Step K K.ChannelKeys × Verdict)) (hooks : ℕ) (node : Node)
        → AreOfBook K.ChannelKeys node steps
        → (h : Incoming) → PaysOnce node h (run K.ChannelKeys steps (empty hooks)) }
{}

/// A law: what a signature covers of what goes out stays covered, whatever happens next; so "at most one is covered" is
/// said of all times.
pub fn what_is_covered_stays<K: ChannelKeys + Copy>()
    ensures { (steps more : List (Step K K.ChannelKeys × Verdict)) (hooks c i : ℕ) (node : Node) (h : Incoming)
        → IsCovered node h c i (run K.ChannelKeys steps (empty hooks))
        → IsCovered node h c i (run K.ChannelKeys (steps ++ more) (empty hooks)) }
{}
