//! Whether a record may tell these removals.

ghost use Rattle.std.specs.Prelude.{◌≡◌, ◌++◌, [], ◌∷◌, List, true, IfOk, IfErr, OnOk};
ghost use Rattle.std.specs.List.{list_any};
ghost use Rattle.ln_keys.specs.Role.{other_role};
ghost use Rattle.ln_log.specs.declared.update.Update.{Update};
ghost use Rattle.ln_log.specs.Updates.{next_id, removed};
ghost use Rattle.ln_store.specs.Sides.{count_of, window_of};
ghost use Rattle.ln_store.specs.Window.{are_numbered, ids_fit, removals_fit};
ghost use Rattle.ln_store.specs.Removals.{are_one_side, is_htlc, is_there, removes_there, AreRemoved};

use crate::readable::is_in_window;
use crate::record::{LiveHtlc, Updates};
use crate::window::{count_of, window_of};
use ln_keys::Role;
use ln_log::{Update, count_adds, removal_of};
use ln_refusals::Refusal;
use std::alloc::Global;
use std::collections::BTreeSet;

pub(crate) fn are_one_side(one: Role, other: Role) -> bool
    ensures { result ≡ are_one_side one other }
{
    match one {
        Role::Funder => matches!(other, Role::Funder),
        Role::Fundee => matches!(other, Role::Fundee),
    }
}

fn is_htlc(side: Role, id: u64, htlc: &LiveHtlc) -> bool
    ensures { result ≡ is_htlc side id htlc.now }
{
    are_one_side(side, htlc.offerer) && htlc.add.id == id
}

// Whether a live HTLC of the base is this one.
fn is_in_base(side: Role, id: u64, live: &[LiveHtlc]) -> bool
    ensures { result ≡ list_any (is_htlc side id) live.now }
{
    live.iter().any(|htlc| is_htlc(side, id, htlc))
}

/// Whether a side that offers so many HTLCs from this id on, and has these beside them, has one of this id.
pub(crate) fn is_there(side: Role, live: &[LiveHtlc], first: u64, added: usize, id: u64) -> bool
    ensures { (adds : List Update) → are_numbered first adds ≡ true → added ≡ next_id adds
        → result ≡ is_there side live.now adds id }
{
    is_in_window(first, added, id) || is_in_base(side, id, live)
}

// Whether an update removes nothing, or an HTLC of this side that is there and isn't among those removed before.
fn removes_there(
    side: Role,
    updates: &Updates,
    added: usize,
    before: &BTreeSet<u64>,
    update: &Update,
) -> bool
    requires ids { ids_fit side updates.now ≡ true }
    requires adds { added ≡ next_id (window_of side updates.now.window) }
    ensures { (us : List Update) → AreRemoved before.now us → result ≡ removes_there
        (is_there side updates.now.base.live (window_of side updates.now.window)) us (removed update.now) }
{
    match removal_of(update) {
        None => true,
        Some(removal) => {
            let first = count_of(side, &updates.base.next_ids);
            let live = updates.base.live.as_slice();
            is_there(side, live, first, added, removal.id) && !before.contains(&removal.id)
        }
    }
}

// Notes what one more update removes.
fn note(before: &mut BTreeSet<u64>, update: &Update) -> Result<(), Refusal>
    ensures notes_it { (us : List Update) → AreRemoved before.old us
        → OnOk result (AreRemoved before.new (us ++ update.now ∷ [])) }
    ensures fails_for_memory_alone { IfErr result (λ e. e ≡ Refusal.Memory) }
{
    if let Some(removal) = removal_of(update) {
        before.insert(removal.id)?;
    }
    Ok(())
}

/// Whether each removal of this side's names an HTLC of the other side that is there, and no two name the same. Takes
/// memory for the ids of those, and time that grows with them as to sort them does.
pub(crate) fn removals_fit(alloc: Global, side: Role, updates: &Updates) -> Result<bool, Refusal>
    requires { ids_fit (other_role side) updates.now ≡ true }
    ensures tells_it { IfOk result (λ b. b ≡ removals_fit side updates.now) }
    ensures fails_for_memory_alone { IfErr result (λ e. e ≡ Refusal.Memory) }
{
    let other = side.other();
    let added = count_adds(window_of(other, &updates.window));
    let mut removed = BTreeSet::new(alloc);
    for update in window_of(side, &updates.window) {
        if !removes_there(other, updates, added, &removed, update) {
            return Ok(false);
        }
        note(&mut removed, update)?;
    }
    Ok(true)
}
