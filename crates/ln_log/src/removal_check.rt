//! What becomes of HTLCs, by their ids.

ghost use Rattle.std.specs.Prelude.{◌≡◌, ◌++◌, ◌↔◌, List, [], ◌∷◌, IsTrue, IfOk, OnOk, Some};
ghost use Rattle.std.specs.Result.{IsOkUnless};
ghost use Rattle.ln_log.specs.declared.outcome.Outcome.TheVariants as found;
ghost use Rattle.ln_log.specs.declared.update.Update.{Update};
ghost use Rattle.ln_log.specs.Updates.{removed};
ghost use Rattle.ln_log.specs.Log.{RemovesLive, AreRemovals};
ghost use Rattle.ln_log.specs.Outcomes.{fate, TellsAll};

use crate::outcome::Outcome;
use crate::plain::add_of;
use crate::update::{Update, removal_of};
use ln_refusals::Refusal;
use std::alloc::Global;
use std::collections::BTreeMap;

// The HTLCs that a side has offered, and what the other side's updates make of each.
#[derive(Drop)]
pub(crate) struct OfferedHtlcs {
    by_id: BTreeMap<u64, Outcome>,
}

impl OfferedHtlcs {
    // Of no HTLC. Takes no memory.
    fn none(alloc: Global) -> OfferedHtlcs
        ensures { TellsAll result [] [] }
    {
        OfferedHtlcs {
            by_id: BTreeMap::new(alloc),
        }
    }

    // What one more update offers is live.
    fn offer(&mut self, update: &Update) -> Result<(), Refusal>
        ensures offers { (adds : List Update) → TellsAll self.old adds []
            → OnOk result (TellsAll self.new (adds ++ update.now ∷ []) []) }
        ensures fails_for_memory_alone { IsOkUnless result Refusal.Memory }
    {
        match add_of(update) {
            None => Ok(()),
            Some(add) => {
                self.by_id.insert(add.id, Outcome::Live)?;
                Ok(())
            }
        }
    }

    // What these offer is live.
    fn offer_all(&mut self, updates: &[Update]) -> Result<(), Refusal>
        ensures offers { (adds : List Update) → TellsAll self.old adds []
            → OnOk result (TellsAll self.new (adds ++ updates.now) []) }
        ensures fails_for_memory_alone { IsOkUnless result Refusal.Memory }
    {
        for update in updates {
            self.offer(update)?;
        }
        Ok(())
    }

    // Whether the HTLC of this id was offered and is live.
    fn is_live(&self, id: u64) -> bool
        ensures { IsTrue result ↔ (fate self.now id ≡ Some found.Live) }
    {
        match self.by_id.get(&id) {
            None => false,
            Some(outcome) => *outcome == Outcome::Live,
        }
    }

    // Notes what one more update removes, where that is a live HTLC; answers whether it is.
    fn remove(&mut self, update: &Update) -> Result<bool, Refusal>
        ensures tells_it { (adds before : List Update) → TellsAll self.old adds before
            → IfOk result (λ b. IsTrue b ↔ RemovesLive adds before (removed update.now)) }
        ensures notes { (adds before : List Update) → TellsAll self.old adds before
            → IfOk result (λ b. IsTrue b → TellsAll self.new adds (before ++ update.now ∷ [])) }
        ensures fails_for_memory_alone { IsOkUnless result Refusal.Memory }
    {
        match removal_of(update) {
            None => Ok(true),
            Some(removal) => {
                if !self.is_live(removal.id) {
                    return Ok(false);
                }
                self.by_id.insert(removal.id, removal.outcome)?;
                Ok(true)
            }
        }
    }
}

// The HTLCs that these updates offer, all live: first the ones that are live in a base, then those after it.
fn offered(
    alloc: Global,
    live_htlcs: &[Update],
    updates: &[Update],
) -> Result<OfferedHtlcs, Refusal>
    ensures offers { IfOk result (λ f. TellsAll f (live_htlcs.now ++ updates.now) []) }
    ensures fails_for_memory_alone { IsOkUnless result Refusal.Memory }
{
    let mut offered_htlcs = OfferedHtlcs::none(alloc);
    offered_htlcs.offer_all(live_htlcs)?;
    offered_htlcs.offer_all(updates)?;
    Ok(offered_htlcs)
}

// Whether each of these that removes an HTLC removes one that is live in a base or offered after it, and that none
// before it removes.
pub(crate) fn are_removals(
    alloc: Global,
    live_htlcs: &[Update],
    adds: &[Update],
    updates: &[Update],
) -> Result<bool, Refusal>
    ensures tells_it { IfOk result (λ b. IsTrue b ↔ AreRemovals (live_htlcs.now ++ adds.now) [] updates.now) }
    ensures fails_for_memory_alone { IsOkUnless result Refusal.Memory }
{
    let mut offered_htlcs = offered(alloc, live_htlcs, adds)?;
    for update in updates {
        if !offered_htlcs.remove(update)? {
            return Ok(false);
        }
    }
    Ok(true)
}
