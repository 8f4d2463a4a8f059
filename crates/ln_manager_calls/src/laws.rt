//! What holds of a node's channels at each moment of their lives.

ghost use Rattle.std.specs.Prelude.{◌≡◌, ℕ, List};
ghost use Rattle.ln_payment_circuits.specs.Snapshot.{Incoming};
ghost use Rattle.ln_payment_circuits.specs.Circuit.{PaysOnce, IsCovered};
ghost use Rattle.ln_payment_circuits.specs.Happens.{HasOwnIds};
ghost use Rattle.ln_manager_laws.specs.Manager.{Manager, AreNumbered, snapshot};
ghost use Rattle.ln_manager_channels.specs.declared.saved.Saved.{Saved};
ghost use Rattle.ln_manager_channels.specs.Calls.{AreLoaded, Call, Parts, Makes, no_parts};
ghost use Rattle.ln_manager_calls.specs.Lives.{Moment, Goes, AreMoments, AreSaved, again, first_moment, last_moment};
ghost use Rattle.ln_manager_calls.specs.Lives.{loaded_of};

use ln_keys::ChannelKeys;
use ln_manager_channels::Channels;
use ln_store::one_record;

/// A law of a node's channels over every list of their calls, of batches that their host saves, and of loads from what
/// it has saved last, whatever peers send, keys answer and hosts decide, also where memory runs out. At each moment
/// they stand for a manager, whose steps and loads have led there. Any call leads to such a moment. So does any load of
/// what was saved: to links that have again what no record tells one by one, the updates in their bases.
pub fn lives_go_on<K: ChannelKeys + Drop>(channels: &Channels<K>)
    ensures over_calls { (moments : List (Moment K)) (k : Call K) (q : Parts K)
        → AreMoments K.signer first_moment moments → let s = last_moment first_moment moments in
        Makes K.signer k s.parts q
        → (n : Manager K) × Goes K.signer s (record { parts = q; loaded = s.loaded; stood = n }) }
    ensures over_loads { (moments : List (Moment K)) (saved : List (Saved K)) (q : Parts K)
        → AreMoments K.signer first_moment moments → let s = last_moment first_moment moments in
        AreSaved saved s → AreLoaded saved q → (n : Manager K)
        × Goes K.signer s (record { parts = again q n; loaded = loaded_of saved; stood = n }) }
    ensures of_these { channels.now.began ≡ no_parts → (moments : List (Moment K))
        × AreMoments K.signer first_moment moments
        × ((last_moment first_moment moments).parts ≡ channels.now.parts) }
{
    channels.calls_made();
    one_record();
}

/// A law: so at each moment a signature covers one HTLC at most that forwards an HTLC that came in, over all channels.
/// Where that one has a removal, it is what became of the one that went out (BOLT 2, "Forwarding HTLCs"). Numbers stand
/// for the ids of channels: any that have one each.
pub fn one_payment_out<K: ChannelKeys + Drop>(channels: &Channels<K>)
    ensures over_lives { (moments : List (Moment K)) (id_of : ℕ → List ℕ) (h : Incoming)
        → AreMoments K.signer first_moment moments → HasOwnIds id_of
        → AreNumbered id_of (last_moment first_moment moments).stood
        → PaysOnce id_of h (snapshot id_of (last_moment first_moment moments).stood) }
    ensures of_these { channels.now.began ≡ no_parts → (moments : List (Moment K))
        × AreMoments K.signer first_moment moments
        × ((last_moment first_moment moments).parts ≡ channels.now.parts)
        × ((id_of : ℕ → List ℕ) (h : Incoming) → HasOwnIds id_of
        → AreNumbered id_of (last_moment first_moment moments).stood
        → PaysOnce id_of h (snapshot id_of (last_moment first_moment moments).stood)) }
{
    channels.calls_made();
}

/// A law: what a signature covers of what goes out stays covered at each later moment, also after loads.
pub fn what_is_covered_stays<K: ChannelKeys + Drop>()
    ensures { (moments later : List (Moment K)) (id_of : ℕ → List ℕ) (h : Incoming) (c i : ℕ)
        → AreMoments K.signer first_moment moments → let s = last_moment first_moment moments in
        AreMoments K.signer s later → HasOwnIds id_of → AreNumbered id_of (last_moment s later).stood
        → IsCovered id_of h (snapshot id_of s.stood) c i
        → IsCovered id_of h (snapshot id_of (last_moment s later).stood) c i }
{}
