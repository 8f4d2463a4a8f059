//! What a record has of an end.

ghost use Rattle.std.specs.Prelude.{◌≡◌, ℕ, List, Option, Some, true, false};
ghost use Rattle.ln_refusals.specs.declared.refusal.Refusal.{Refusal};
ghost use Rattle.ln_keys.specs.Signer.{Signer};
ghost use Rattle.ln_log.specs.Log.{none};
ghost use Rattle.ln_channel.specs.End.{End, end_dropped};
ghost use Rattle.ln_channel.specs.State.{State, kept_channel};
ghost use Rattle.ln_link.specs.Record.{items_of};
ghost use Rattle.ln_link.specs.Loading.{IsLoadable, HasRecord, IsReadAgain, end_of};
ghost use Rattle.ln_store.specs.Store.{StoreView, FreshIfChanged};
ghost use Rattle.ln_link.specs.Calls.{Call, Lead, HasLink, HasChannel, HaltsWithRecord};

use ln_keys::ChannelKeys;

/// An end has the same record before and after a lost connection.
pub fn lost_connection_is_recorded()
    ensures { (failure : Option Refusal) (e : End) → items_of failure (end_dropped e) ≡ items_of failure e }
{}

/// A law: what is saved of an end is read as a lost connection leaves it, but that of the updates which aren't had one
/// by one any more it has ones of which a record tells the same; and a channel that has failed has failed as it had.
pub fn saved_is_loaded()
    ensures can_be_loaded { (failure : Option Refusal) (e : End) → HasRecord failure e
        → IsLoadable (items_of failure e) }
    ensures as_dropped { (failure : Option Refusal) (e : End) → HasRecord failure e
        → IsReadAgain (end_of (items_of failure e)) e }
    ensures with_all_updates { (failure : Option Refusal) (e : End) → HasRecord failure e → e.dance.log.first ≡ none
        → end_of (items_of failure e) ≡ end_dropped e }
    ensures failed_as_it_had { (failure : Option Refusal) (e : End) → (items_of failure e).header.failure ≡ failure }
{}

/// A law: over any calls of one link whose record its store has, as that of a new link, which needs none, and of one
/// that was loaded: a link that hasn't halted has its record in the store, as a lost connection leaves it and with its
/// failure, and it can be loaded; one that has halted, as it was told to or by 60, 61 or 70, has there the record of
/// what it was before the call by which it halted, or of what that call made of it; and whatever was answered, from the
/// saved opening on the store has a record of the channel that can be loaded.
pub fn store_has_the_record<K: ChannelKeys>()
    ensures of_the_link { (keys : Signer) (calls : List Call) (l l' : State K) (s s' : StoreView) → HasLink l s
        → Lead keys calls l s l' s' → l'.halted ≡ false → HasLink l' s' }
    ensures of_before_or_behind_the_halt { (keys : Signer) (calls : List Call) (l l' : State K) (s s' : StoreView)
        → HasLink l s → l.halted ≡ false → Lead keys calls l s l' s' → l'.halted ≡ true
        → HaltsWithRecord keys calls l s s' }
    ensures of_the_channel { (keys : Signer) (channel : List ℕ) (calls : List Call) (l l' : State K) (s s' : StoreView)
        → HasLink l s → kept_channel l.stage ≡ Some channel → Lead keys calls l s l' s' → HasChannel channel s' }
{}

/// A law: over any calls of one link, a store whose records they have changed is fresh.
pub fn changed_stores_are_fresh<K: ChannelKeys>()
    ensures { (keys : Signer) (calls : List Call) (l l' : State K) (s s' : StoreView) → Lead keys calls l s l' s'
        → FreshIfChanged s s' }
{}
