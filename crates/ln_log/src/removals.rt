//! The ids of the HTLCs that updates remove.

ghost use Rattle.std.specs.Prelude.{◌≡◌, ◌++◌, [], ◌∷◌, List, IfOk, OnOk};
ghost use Rattle.std.specs.Result.{IsOkUnless};
ghost use Rattle.ln_log.specs.declared.update.Update.{Update};
ghost use Rattle.ln_log.specs.Outcomes.{AreRemoved};

use crate::update::{Update, removal_of};
use ln_refusals::Refusal;
use std::alloc::Global;
use std::collections::BTreeSet;

// Notes what one more update removes.
fn note(ids: &mut BTreeSet<u64>, update: &Update) -> Result<(), Refusal>
    ensures notes_it { (us : List Update) → AreRemoved ids.old us
        → OnOk result (AreRemoved ids.new (us ++ update.now ∷ [])) }
    ensures fails_for_memory_alone { IsOkUnless result Refusal.Memory }
{
    if let Some(removal) = removal_of(update) {
        ids.insert(removal.id)?;
    }
    Ok(())
}

/// The ids of the HTLCs that these updates remove (BOLT 2, "Removing an HTLC"). 60 where there was no memory for them.
pub fn removed_ids(alloc: Global, updates: &[Update]) -> Result<BTreeSet<u64>, Refusal>
    ensures ids { IfOk result (λ s. AreRemoved s updates.now) }
    ensures fails_for_memory_alone { IsOkUnless result Refusal.Memory }
{
    let mut ids = BTreeSet::new(alloc);
    for update in updates {
        note(&mut ids, update)?;
    }
    Ok(ids)
}
