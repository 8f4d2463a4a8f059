//! What updates are worth after a base.

ghost use Rattle.std.specs.Prelude.{◌≡◌, ◌≤◌, ◌<◌, ◌-◌, ◌^◌, IfOk};
ghost use Rattle.std.specs.Result.{IsOkUnless};
ghost use Rattle.ln_log.specs.Window.{view_behind, FitsBehind};

use crate::outcomes::Outcomes;
use crate::plain::{last_feerate, push_live, sums_of};
use crate::update::Update;
use ln_keys::{Htlcs, Role, View};
use ln_refusals::Refusal;
use std::alloc::Global;

/// What beginnings of both lists of updates are worth beside their live HTLCs.
#[derive(Clone, Copy, PartialEq, Eq)]
pub struct Balances {
    /// The id of this side's next HTLC.
    pub next_own: u64,
    /// The id of the other side's next HTLC.
    pub next_peer: u64,
    /// This side's balance, in millisatoshi.
    pub own: u64,
    /// The other side's balance, in millisatoshi.
    pub peer: u64,
    /// In satoshi per 1000 weight.
    pub feerate: u32,
}

/// What a base is worth by roles: balances in millisatoshi, and the feerate.
#[derive(Clone, Copy, PartialEq, Eq)]
pub(crate) struct RoleBalances {
    /// The funder's.
    pub funder: u64,
    /// The fundee's.
    pub fundee: u64,
    /// In satoshi per 1000 weight.
    pub feerate: u32,
}

// What is left of this once that is spent. A number that would pass 64 bits, or fall below 0, stays at that bound.
fn left(got: u128, spent: u128) -> u64
    ensures exact_where_it_fits { spent ≤ got → got - spent < 2 ^ 64 → result ≡ got - spent }
{
    let rest = got.saturating_sub(spent);
    if rest > 18_446_744_073_709_551_615 {
        return 18_446_744_073_709_551_615;
    }
    rest as u64
}

// The view of two lists after a base: of each list all that is kept, the HTLCs that are live in the base before the
// updates after it, and these updates alone. 60 where there was no memory for the HTLCs.
pub(crate) fn view_behind(
    alloc: Global,
    base: &RoleBalances,
    funder: &[Update],
    funder_new: &[Update],
    fundee: &[Update],
    fundee_new: &[Update],
) -> Result<View, Refusal>
    ensures exact_where_it_fits { FitsBehind base.now funder.now funder_new.now fundee.now fundee_new.now
        → IfOk result (λ v. v ≡ view_behind base.now funder.now funder_new.now fundee.now fundee_new.now) }
    ensures fails_for_memory_alone { IsOkUnless result Refusal.Memory }
{
    let of_funder = Outcomes::new(alloc, fundee_new)?;
    let of_fundee = Outcomes::new(alloc, funder_new)?;
    let mut htlcs = Vec::new(alloc);
    push_live(&mut htlcs, Role::Funder, funder, &of_funder)?;
    push_live(&mut htlcs, Role::Fundee, fundee, &of_fundee)?;
    let out = sums_of(funder, &of_funder);
    let back = sums_of(fundee, &of_fundee);
    let funder_spent = sums_of(funder_new, &of_funder).offered;
    let fundee_spent = sums_of(fundee_new, &of_fundee).offered;
    Ok(View {
        funder: left(
            u128::from(base.funder) + out.failed + back.fulfilled,
            funder_spent,
        ),
        fundee: left(
            u128::from(base.fundee) + back.failed + out.fulfilled,
            fundee_spent,
        ),
        feerate: last_feerate(base.feerate, funder_new),
        htlcs: Htlcs::new(htlcs),
    })
}
