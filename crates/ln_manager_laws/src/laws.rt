//! What holds over every list of calls.

ghost use Rattle.std.specs.Prelude.{ℕ, List, IfSome};
ghost use Rattle.ln_channel.specs.declared.config.Config.{Config};
ghost use Rattle.ln_channel.specs.declared.config.OpenSpec.{OpenSpec};
ghost use Rattle.ln_channel.specs.declared.machine.Stage.TheVariants as stage;
ghost use Rattle.ln_payment_circuits.specs.Snapshot.{Incoming, IsFit};
ghost use Rattle.ln_payment_circuits.specs.Circuit.{PaysOnce, IsCovered};
ghost use Rattle.ln_payment_circuits.specs.Happens.{HasOwnIds};
ghost use Rattle.ln_manager_laws.specs.Calls.{Call, begun_seat, all_called};
ghost use Rattle.ln_manager_laws.specs.Manager.{Manager, AreNumbered, snapshot};
ghost use Rattle.ln_manager_laws.specs.Steps.{AreSteps, last_step};
ghost use Rattle.ln_manager_laws.specs.Runs.{Course, AreCourses, IsLoaded, beginning, last_of};

use ln_keys::ChannelKeys;

/// A law of one link over every list of its calls, whatever its peer sends and its keys answer, also where links halt
/// and come back from their records. Its counts stay in their order, each HTLC has the id that is due, the peer removes
/// an HTLC that this end's commitment has, once, and the base has no undecided event and removes nothing that it
/// doesn't offer (BOLT 2, "Normal Operation").
pub fn ends_stay_fit<K: ChannelKeys>()
    ensures of_a_funder { (calls : List (Call K)) (keys : K) (s : OpenSpec)
        → IfSome (all_called K.signer calls (begun_seat keys (stage.AwaitsAccept s))).end IsFit }
    ensures of_a_fundee { (calls : List (Call K)) (keys : K) (c : Config)
        → IfSome (all_called K.signer calls (begun_seat keys (stage.AwaitsOpen c))).end IsFit }
{}

/// A law of a manager of channels over every list of its steps, of batches of records that are saved, and of loads
/// from what was saved last. Its peers may send anything, its links lose connections and halt for want of memory, and
/// its users may command what removes no HTLC and forwards none. For each HTLC that came in, a signature covers one
/// HTLC at most that forwards it, over all channels; and where it has a removal, even an unsigned one, that is what
/// became of the one that went out, irrevocably committed (BOLT 2, "Forwarding HTLCs"). A fulfilment carries its
/// preimage. Numbers stand for the ids of channels: any that have one each.
pub fn one_payment_out<K: ChannelKeys>()
    ensures { (courses : List (Course K)) (id_of : ℕ → List ℕ) (h : Incoming)
        → AreCourses K.signer beginning courses → HasOwnIds id_of → AreNumbered id_of (last_of beginning courses).now
        → PaysOnce id_of h (snapshot id_of (last_of beginning courses).now) }
{}

/// A law: what a signature covers of what goes out stays covered over every list of steps; and what it covered as the
/// records were saved, it covers after they are loaded.
pub fn what_is_covered_stays<K: ChannelKeys>()
    ensures over_steps { (courses : List (Course K)) (steps : List (Manager K)) (id_of : ℕ → List ℕ) (h : Incoming)
        (c i : ℕ) → AreCourses K.signer beginning courses → AreSteps K.signer (last_of beginning courses).now steps
        → HasOwnIds id_of → AreNumbered id_of (last_step (last_of beginning courses).now steps)
        → IsCovered id_of h (snapshot id_of (last_of beginning courses).now) c i
        → IsCovered id_of h (snapshot id_of (last_step (last_of beginning courses).now steps)) c i }
    ensures over_loads { (courses : List (Course K)) (n : Manager K) (id_of : ℕ → List ℕ) (h : Incoming) (c i : ℕ)
        → AreCourses K.signer beginning courses → IsLoaded (last_of beginning courses).saved n → HasOwnIds id_of
        → AreNumbered id_of n → IsCovered id_of h (snapshot id_of (last_of beginning courses).saved) c i
        → IsCovered id_of h (snapshot id_of n) c i }
{}
