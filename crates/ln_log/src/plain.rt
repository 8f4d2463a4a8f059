//! Plain, slow programs for the definitions, and the law that a view adds up.

ghost use Rattle.std.specs.Prelude.{◌≡◌, ◌≤◌, ◌+◌, ◌*◌, ◌^◌, ◌++◌, ℕ, Bool, if◌then◌else◌, List, length, map, IfOk};
ghost use Rattle.std.specs.Prelude.{OnOk, Result, option_copied};
ghost use Rattle.std.specs.Result.{IsOkUnless};
ghost use Rattle.ln_log.specs.declared.opening.Opening.{Opening};
ghost use Rattle.ln_log.specs.declared.update.Update.{Update};
ghost use Rattle.ln_log.specs.declared.outcome.Outcome.{Outcome};
ghost use Rattle.ln_log.specs.Opening.{HasFunds};
ghost use Rattle.ln_log.specs.Updates.{offered, next_id, add_with, outcome, last_feerate, is_some, share, total};
ghost use Rattle.ln_log.specs.Updates.{is_any, is_failed, is_fulfilled};
ghost use Rattle.ln_log.specs.View.{live_of, live_adds, htlc_of, view_of, IsFunded, AddsUp};

use crate::opening::Opening;
use crate::outcome::Outcome;
use crate::outcomes::{Outcomes, outcome_of};
use crate::update::{Add, Update};
use ln_keys::{Htlc, Htlcs, Role, View};
use ln_refusals::Refusal;
use std::alloc::Global;

/// The HTLC of an id among those that a side has offered.
pub fn find_add(id: u64, updates: &[Update]) -> Option<&Add>
    ensures { option_copied result ≡ add_with id updates.now }
{
    for update in updates {
        match add_of(update) {
            None => {}
            Some(add) => {
                if add.id == id {
                    return Some(add);
                }
            }
        }
    }
    None
}

/// The last feerate that the funder proposed, else that of the opening (BOLT 2, "Updating Fees").
pub fn last_feerate(opening: u32, funder: &[Update]) -> u32
    ensures { result ≡ last_feerate opening funder.now }
{
    let mut rate = opening;
    for update in funder {
        rate = match update {
            Update::Add(_) => rate,
            Update::Fulfil(_) => rate,
            Update::Fail(_) => rate,
            Update::Malformed(_) => rate,
            Update::Fee(fee) => fee.feerate,
        };
    }
    rate
}

/// The HTLC that an update offers (BOLT 2, "Adding an HTLC").
pub fn add_of(update: &Update) -> Option<&Add>
    ensures { option_copied result ≡ offered update.now }
{
    match update {
        Update::Add(add) => Some(add),
        Update::Fulfil(_) => None,
        Update::Fail(_) => None,
        Update::Malformed(_) => None,
        Update::Fee(_) => None,
    }
}

/// How many HTLCs these updates offer.
pub fn count_adds(updates: &[Update]) -> usize
    ensures count { result ≡ next_id updates.now }
    ensures at_most_the_updates { result ≤ length updates.now }
{
    let mut count = 0usize;
    for update in updates {
        if add_of(update).is_some() {
            count += 1;
        }
    }
    count
}

// What an update offers, and what the other side makes of it; nothing where it offers no HTLC.
#[derive(Clone, Copy)]
struct Share {
    outcome: Outcome,
    amount: u64,
}

fn share_of(update: &Update, outcomes: &Outcomes) -> Share
    ensures { (test : Outcome → Bool) → share test outcomes.now update.now
        ≡ (if test result.outcome then result.amount else 0) }
{
    match add_of(update) {
        None => Share {
            outcome: Outcome::Live,
            amount: 0,
        },
        Some(add) => Share {
            outcome: outcomes.outcome(add.id),
            amount: add.amount,
        },
    }
}

/// The amounts of HTLCs of one side, in millisatoshi, by what the other side's updates made of them.
#[derive(Clone, Copy)]
pub struct Sums {
    /// Of all.
    pub offered: u128,
    /// Of those that failed, which came back.
    pub failed: u128,
    /// Of those that were fulfilled, which the other side got.
    pub fulfilled: u128,
}

/// The amounts of the HTLCs that these updates offer. Takes no memory.
pub fn sums_of(adds: &[Update], outcomes: &Outcomes) -> Sums
    ensures offered { result.offered ≡ total is_any adds.now outcomes.now }
    ensures failed { result.failed ≡ total is_failed adds.now outcomes.now }
    ensures fulfilled { result.fulfilled ≡ total is_fulfilled adds.now outcomes.now }
    ensures offered_fits { result.offered ≤ 2 ^ 64 * length adds.now }
    ensures failed_fits { result.failed ≤ 2 ^ 64 * length adds.now }
    ensures fulfilled_fits { result.fulfilled ≤ 2 ^ 64 * length adds.now }
{
    let mut sums = Sums {
        offered: 0,
        failed: 0,
        fulfilled: 0,
    };
    for update in adds {
        let share = share_of(update, outcomes);
        let amount = u128::from(share.amount);
        sums.offered += amount;
        match share.outcome {
            Outcome::Live => {}
            Outcome::Failed => sums.failed += amount,
            Outcome::Fulfilled => sums.fulfilled += amount,
        }
    }
    sums
}

// The HTLC that an update offers, where the other side hasn't removed it.
pub(crate) fn live_add<'a>(update: &'a Update, outcomes: &Outcomes) -> Option<&'a Add>
    ensures { option_copied result ≡ live_of (offered update.now) outcomes.now }
{
    match add_of(update) {
        None => None,
        Some(add) => match outcomes.outcome(add.id) {
            Outcome::Live => Some(add),
            Outcome::Failed => None,
            Outcome::Fulfilled => None,
        },
    }
}

pub(crate) fn push_live(
    htlcs: &mut Vec<Htlc>,
    owner: Role,
    adds: &[Update],
    outcomes: &Outcomes,
) -> Result<(), Refusal>
    ensures appends_them { OnOk result (htlcs.new.items ≡ htlcs.old.items
        ++ map (htlc_of owner) (live_adds adds.now outcomes.now)) }
    ensures fails_for_memory_alone { IsOkUnless result Refusal.Memory }
{
    for update in adds {
        match live_add(update, outcomes) {
            None => {}
            Some(add) => htlcs.push(Htlc {
                owner,
                id: add.id,
                amount: add.amount,
                hash: add.hash,
                expiry: add.expiry,
            })?,
        }
    }
    Ok(())
}

// Whether an update offers an HTLC that the other side hasn't removed.
fn is_live(update: &Update, removals: &[Update]) -> bool
    ensures { result ≡ is_some (live_of (offered update.now) removals.now) }
{
    match add_of(update) {
        None => false,
        Some(add) => outcome_of(add.id, removals) == Outcome::Live,
    }
}

/// How many HTLCs of one side the other hasn't removed.
pub fn live_count(adds: &[Update], removals: &[Update]) -> usize
    ensures count { result ≡ length (live_adds adds.now removals.now) }
    ensures at_most_the_updates { result ≤ length adds.now }
{
    let mut count = 0usize;
    for update in adds {
        if is_live(update, removals) {
            count += 1;
        }
    }
    count
}

/// The view of a pair of lists: balances in millisatoshi, feerate and live HTLCs, by going over all
/// updates. 60 where there was no memory for the HTLCs.
pub fn plain_view(
    alloc: Global,
    opening: &Opening,
    funder: &[Update],
    fundee: &[Update],
) -> Result<View, Refusal>
    requires funds { HasFunds opening.now }
    requires funded { IsFunded opening.now funder.now fundee.now }
    ensures view { IfOk result (λ v. v ≡ view_of opening.now funder.now fundee.now) }
    ensures adds_up { IfOk result (λ v. AddsUp opening.now v) }
    ensures fails_for_memory_alone { IsOkUnless result Refusal.Memory }
{
    let of_funder = Outcomes::new(alloc, fundee)?;
    let of_fundee = Outcomes::new(alloc, funder)?;
    let mut htlcs = Vec::new(alloc);
    push_live(&mut htlcs, Role::Funder, funder, &of_funder)?;
    push_live(&mut htlcs, Role::Fundee, fundee, &of_fundee)?;
    let out = sums_of(funder, &of_funder);
    let back = sums_of(fundee, &of_fundee);
    let had = u128::from(opening.first_balance(Role::Funder));
    let got = u128::from(opening.first_balance(Role::Fundee));
    Ok(View {
        funder: (had + out.failed + back.fulfilled - out.offered) as u64,
        fundee: (got + back.failed + out.fulfilled - back.offered) as u64,
        feerate: last_feerate(opening.feerate, funder),
        htlcs: Htlcs::new(htlcs),
    })
}

/// Where no side spent more than it had, the balances and the live HTLCs of a view add up to
/// 1000 * funding_satoshis.
pub fn conservation()
    ensures { (o : Opening) (funder fundee : List Update) → HasFunds o → IsFunded o funder fundee
        → AddsUp o (view_of o funder fundee) }
{}
