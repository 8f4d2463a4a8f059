//! What one side's updates make of the other side's HTLCs.

ghost use Rattle.std.specs.Prelude.{◌≡◌, ◌≤◌, ◌++◌, List, [], ◌∷◌, length, OnOk};
ghost use Rattle.std.specs.Result.{IsOkUnless};
ghost use Rattle.ln_log.specs.declared.update.Update.{Update};
ghost use Rattle.ln_log.specs.Updates.{outcome};
ghost use Rattle.ln_log.specs.Outcomes.{removals_in, Tells};

use crate::outcome::Outcome;
use crate::update::{Update, removal_of};
use ln_refusals::Refusal;
use std::alloc::Global;
use std::collections::BTreeMap;
use std::marker::Model;

/// What the other side's updates make of the HTLC of an id: what the first of them that removes it makes
/// (BOLT 2, "Removing an HTLC").
pub fn outcome_of(id: u64, removals: &[Update]) -> Outcome
    ensures { result ≡ outcome id removals.now }
{
    for update in removals {
        match removal_of(update) {
            None => {}
            Some(removal) => {
                if removal.id == id {
                    return removal.outcome;
                }
            }
        }
    }
    Outcome::Live
}

/// How many HTLCs these updates remove.
pub fn count_removals(updates: &[Update]) -> usize
    ensures count { result ≡ removals_in updates.now }
    ensures at_most_the_updates { result ≤ length updates.now }
{
    let mut count = 0usize;
    for update in updates {
        if removal_of(update).is_some() {
            count += 1;
        }
    }
    count
}

// Notes what one more update makes of the HTLC that it removes, where none before it removed that.
fn note_removal(by_id: &mut BTreeMap<u64, Outcome>, update: &Update) -> Result<(), Refusal>
    ensures notes { (before : List Update) → Tells by_id.old before
        → OnOk result (Tells by_id.new (before ++ update.now ∷ [])) }
    ensures fails_for_memory_alone { IsOkUnless result Refusal.Memory }
{
    match removal_of(update) {
        None => Ok(()),
        Some(removal) => {
            if !by_id.contains_key(&removal.id) {
                by_id.insert(removal.id, removal.outcome)?;
            }
            Ok(())
        }
    }
}

/// A side's updates, and what they make of the other side's HTLCs, by their ids, so that to ask for each of them takes
/// one pass over the updates.
#[derive(Drop)]
pub struct Outcomes<'a> {
    removals: &'a [Update],
    by_id: BTreeMap<u64, Outcome>,
}

impl<'a> Model for Outcomes<'a> {
    ghost use Rattle.std.specs.Prelude.{List};
    ghost use Rattle.ln_log.specs.declared.update.Update.{Update};
    ghost use Rattle.ln_log.specs.Outcomes.{Tells};

    ghost Value = { List Update };

    ghost view = { λ o. o.removals.now };

    ghost invariant = { λ o. Tells o.by_id o.removals.now };
}

impl<'a> Outcomes<'a> {
    ghost use Rattle.std.specs.Prelude.{◌≡◌, IfOk};
    ghost use Rattle.std.specs.Result.{IsOkUnless};
    ghost use Rattle.ln_log.specs.Updates.{outcome};

    /// Of these updates. Takes memory for the ids of the HTLCs that they remove; 60 where there was none.
    pub fn new(alloc: Global, removals: &'a [Update]) -> Result<Outcomes<'a>, Refusal>
        ensures keeps_the_removals { IfOk result (λ o. o ≡ removals.now) }
        ensures fails_for_memory_alone { IsOkUnless result Refusal.Memory }
    {
        let mut by_id = BTreeMap::new(alloc);
        for update in removals {
            note_removal(&mut by_id, update)?;
        }
        Ok(Outcomes { removals, by_id })
    }

    /// What becomes of the HTLC of an id.
    pub fn outcome(&self, id: u64) -> Outcome
        ensures { result ≡ outcome id self.now }
    {
        match self.by_id.get(&id) {
            None => Outcome::Live,
            Some(outcome) => *outcome,
        }
    }
}
