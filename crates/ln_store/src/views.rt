//! Whether the views that a record tells are lawful.

ghost use Rattle.std.specs.Prelude.{◌≡◌, ◌≤◌, ◌*◌, ◌^◌, ◌&&◌, List, true, length, IfOk, IfErr};
ghost use Rattle.ln_keys.specs.Role.{other_role};
ghost use Rattle.ln_log.specs.declared.update.Update.{Update};
ghost use Rattle.ln_log.specs.Updates.{next_id, removed, total, is_failed, is_fulfilled};
ghost use Rattle.ln_store.specs.Sides.{count_of};
ghost use Rattle.ln_store.specs.Removals.{is_there};
ghost use Rattle.ln_store.specs.Window.{are_numbered, ids_fit};
ghost use Rattle.ln_store.specs.Views.{live_htlcs_of, names_one, stand, pays, is_side_lawful};
ghost use Rattle.ln_store.specs.Views.{covered_of, is_lawful, views_fit};

use crate::record::{Base, Covered, LiveHtlc, Updates};
use crate::removals::{are_one_side, is_there};
use crate::window::{count_of, window_of};
use ln_keys::Role;
use ln_log::{Outcome, Outcomes, Update, count_adds, removal_of, sums_of};
use ln_refusals::Refusal;
use std::alloc::Global;

// Whether an update removes nothing, or an HTLC of this side, which offers so many from this id on, that is there.
fn names_one(side: Role, live: &[LiveHtlc], first: u64, added: usize, update: &Update) -> bool
    ensures { (adds : List Update) → are_numbered first adds ≡ true → added ≡ next_id adds
        → result ≡ names_one (is_there side live.now adds) (removed update.now) }
{
    match removal_of(update) {
        None => true,
        Some(removal) => is_there(side, live, first, added, removal.id),
    }
}

// Whether each removal of these is of an HTLC of this side that is there, which offers those.
fn stand(side: Role, base: &Base, adds: &[Update], updates: &[Update]) -> bool
    requires { are_numbered (count_of side base.now.next_ids) adds.now ≡ true }
    ensures { result ≡ stand (is_there side base.now.live adds.now) updates.now }
{
    let first = count_of(side, &base.next_ids);
    let added = count_adds(adds);
    let live = base.live.as_slice();
    for update in updates {
        if !names_one(side, live, first, added, update) {
            return false;
        }
    }
    true
}

// What of a side's live HTLCs came back, and what the other side got of them, in millisatoshi.
#[derive(Clone, Copy)]
struct Settled {
    failed: u128,
    fulfilled: u128,
}

fn settled_of(side: Role, live: &[LiveHtlc], outcomes: &Outcomes) -> Settled
    ensures failed { result.failed ≡ total is_failed (live_htlcs_of side live.now) outcomes.now }
    ensures fulfilled { result.fulfilled ≡ total is_fulfilled (live_htlcs_of side live.now) outcomes.now }
    ensures failed_fits { result.failed ≤ 2 ^ 64 * length live.now }
    ensures fulfilled_fits { result.fulfilled ≤ 2 ^ 64 * length live.now }
{
    let mut settled = Settled {
        failed: 0,
        fulfilled: 0,
    };
    for htlc in live {
        if are_one_side(side, htlc.offerer) {
            let amount = u128::from(htlc.add.amount);
            match outcomes.outcome(htlc.add.id) {
                Outcome::Live => {}
                Outcome::Failed => settled.failed += amount,
                Outcome::Fulfilled => settled.fulfilled += amount,
            }
        }
    }
    settled
}

// Whether a side can pay what it offers in a view.
fn pays(
    alloc: Global,
    side: Role,
    base: &Base,
    own: &[Update],
    peer: &[Update],
) -> Result<bool, Refusal>
    ensures tells_it { IfOk result (λ b. b ≡ pays (count_of side base.now.balances) (live_htlcs_of side base.now.live)
        own.now (live_htlcs_of (other_role side) base.now.live) peer.now) }
    ensures fails_for_memory_alone { IfErr result (λ e. e ≡ Refusal.Memory) }
{
    let live = base.live.as_slice();
    let of_own = Outcomes::new(alloc, peer)?;
    let of_peer = Outcomes::new(alloc, own)?;
    let before = settled_of(side, live, &of_own);
    let since = sums_of(own, &of_own);
    let paid_before = settled_of(side.other(), live, &of_peer);
    let paid_since = sums_of(peer, &of_peer);
    let back = before.failed + since.failed;
    let paid = paid_before.fulfilled + paid_since.fulfilled;
    Ok(since.offered <= u128::from(count_of(side, &base.balances)) + back + paid)
}

// Whether a side's updates of a view may stand beside the other side's.
fn is_side_lawful(
    alloc: Global,
    side: Role,
    base: &Base,
    own: &[Update],
    peer: &[Update],
) -> Result<bool, Refusal>
    requires { are_numbered (count_of (other_role side) base.now.next_ids) peer.now ≡ true }
    ensures tells_it { IfOk result (λ b. b ≡ is_side_lawful side base.now own.now peer.now) }
    ensures fails_for_memory_alone { IfErr result (λ e. e ≡ Refusal.Memory) }
{
    Ok(stand(side.other(), base, peer, own) && pays(alloc, side, base, own, peer)?)
}

// The updates of a side's window in a view that covers so many.
fn covered_of(side: Role, updates: &Updates, count: u64) -> &[Update]
    requires { ids_fit side updates.now ≡ true }
    ensures updates { result.now ≡ covered_of side updates.now count }
    ensures ids { are_numbered (count_of side updates.now.base.next_ids) result.now ≡ true }
{
    let window = window_of(side, &updates.window);
    let covered = count.saturating_sub(count_of(side, &updates.base.updates));
    if covered < window.len() as u64 {
        &window[..covered as usize]
    } else {
        window
    }
}

// Whether the view is lawful that covers so many updates of both sides.
fn is_lawful(alloc: Global, own: Role, updates: &Updates, covered: Covered) -> Result<bool, Refusal>
    requires own_ids { ids_fit own updates.now ≡ true }
    requires peer_ids { ids_fit (other_role own) updates.now ≡ true }
    ensures tells_it { IfOk result (λ b. b ≡ is_lawful own updates.now covered) }
    ensures fails_for_memory_alone { IfErr result (λ e. e ≡ Refusal.Memory) }
{
    let base = &updates.base;
    let of_own = covered_of(own, updates, covered.own);
    let of_peer = covered_of(own.other(), updates, covered.peer);
    Ok(
        is_side_lawful(alloc, own, base, of_own, of_peer)?
            && is_side_lawful(alloc, own.other(), base, of_peer, of_own)?,
    )
}

/// Whether in no view that a record of this end tells, nor in that of the next signature or of the next one taken, a
/// removal stands without its HTLC, or a side has spent more than it had. Takes memory for what became of HTLCs, and
/// time that grows with the updates.
pub(crate) fn views_fit(alloc: Global, own: Role, updates: &Updates) -> Result<bool, Refusal>
    requires own_ids { ids_fit own updates.now ≡ true }
    requires peer_ids { ids_fit (other_role own) updates.now ≡ true }
    ensures tells_it { IfOk result (λ b. b ≡ views_fit own updates.now) }
    ensures fails_for_memory_alone { IfErr result (λ e. e ≡ Refusal.Memory) }
{
    let pairs = updates.pairs;
    let to_sign = Covered {
        own: pairs.signed.own,
        peer: pairs.current.peer,
    };
    let to_accept = Covered {
        own: pairs.acknowledged.own,
        peer: pairs.current.peer,
    };
    Ok(
        is_lawful(alloc, own, updates, pairs.signed)?
            && is_lawful(alloc, own, updates, pairs.acknowledged)?
            && is_lawful(alloc, own, updates, pairs.current)?
            && is_lawful(alloc, own, updates, to_sign)?
            && is_lawful(alloc, own, updates, to_accept)?,
    )
}
