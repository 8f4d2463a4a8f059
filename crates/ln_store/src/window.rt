//! Whether a record may tell these updates.

ghost use Rattle.std.specs.Prelude.{◌≡◌, ◌≤◌, ◌*◌, ◌^◌, length, sum_by, IfOk, IfErr};
ghost use Rattle.ln_store.specs.Sides.{count_of, window_of};
ghost use Rattle.ln_store.specs.Window.{rise, own_counts_rise, peer_counts_rise, covers_all};
ghost use Rattle.ln_store.specs.Window.{counts_fit, are_numbered, ids_fit, live_amount, funds_in, updates_fit};

use crate::record::{Base, LiveHtlc, Sides, Updates, Window};
use crate::removals::removals_fit;
use crate::views::views_fit;
use ln_keys::Role;
use ln_log::{MOST_UPDATES, Update};
use ln_refusals::Refusal;
use std::alloc::Global;

pub(crate) fn count_of(side: Role, sides: &Sides) -> u64
    ensures { result ≡ count_of side sides.now }
{
    match side {
        Role::Funder => sides.funder,
        Role::Fundee => sides.fundee,
    }
}

pub(crate) fn window_of(side: Role, window: &Window) -> &[Update]
    ensures { result.now ≡ window_of side window.now }
{
    match side {
        Role::Funder => window.funder.as_slice(),
        Role::Fundee => window.fundee.as_slice(),
    }
}

// Whether no count is less than the one before it.
fn rise(first: u64, second: u64, third: u64, fourth: u64) -> bool
    ensures { result ≡ rise first second third fourth }
{
    first <= second && second <= third && third <= fourth
}

fn own_counts_rise(own: Role, updates: &Updates) -> bool
    ensures { result ≡ own_counts_rise own updates.now }
{
    let pairs = &updates.pairs;
    rise(
        count_of(own, &updates.base.updates),
        pairs.current.own,
        pairs.acknowledged.own,
        pairs.signed.own,
    )
}

fn peer_counts_rise(own: Role, updates: &Updates) -> bool
    ensures { result ≡ peer_counts_rise own updates.now }
{
    let pairs = &updates.pairs;
    rise(
        count_of(own.other(), &updates.base.updates),
        pairs.acknowledged.peer,
        pairs.signed.peer,
        pairs.current.peer,
    )
}

// Whether so many are a side's updates in the base and the window.
fn covers_all(side: Role, updates: &Updates, count: u64) -> bool
    ensures { result ≡ covers_all side updates.now count }
{
    let based = u128::from(count_of(side, &updates.base.updates));
    let windowed = window_of(side, &updates.window).len() as u128;
    u128::from(count) == based + windowed && count <= MOST_UPDATES
}

fn counts_fit(own: Role, updates: &Updates) -> bool
    ensures { result ≡ counts_fit own updates.now }
{
    own_counts_rise(own, updates)
        && peer_counts_rise(own, updates)
        && covers_all(own, updates, updates.pairs.signed.own)
        && covers_all(own.other(), updates, updates.pairs.current.peer)
}

// Whether the HTLCs that these offer have this id and those after it.
fn are_numbered(first: u64, updates: &[Update]) -> bool
    ensures { result ≡ are_numbered first updates.now }
{
    let mut next = u128::from(first);
    for update in updates {
        if let Update::Add(add) = update {
            if u128::from(add.id) != next {
                return false;
            }
            next += 1;
        }
    }
    true
}

fn ids_fit(side: Role, updates: &Updates) -> bool
    ensures { result ≡ ids_fit side updates.now }
{
    let next = count_of(side, &updates.base.next_ids);
    next <= count_of(side, &updates.base.updates)
        && are_numbered(next, window_of(side, &updates.window))
}

// What the live HTLCs are worth, in millisatoshi.
fn live_amounts(live: &[LiveHtlc]) -> u128
    ensures amount { result ≡ sum_by live_amount live.now }
    ensures amount_fits { result ≤ 2 ^ 64 * length live.now }
{
    let mut amount = 0u128;
    for htlc in live {
        amount += u128::from(htlc.add.amount);
    }
    amount
}

// What the balances and the live HTLCs of the base are worth, in millisatoshi.
fn funds_in(base: &Base) -> u128
    ensures { result ≡ funds_in base.now }
{
    u128::from(base.balances.funder)
        + u128::from(base.balances.fundee)
        + live_amounts(base.live.as_slice())
}

/// Whether a record of this end, in a channel of so many satoshi, may tell these updates. Takes memory where all but
/// removals fits, for these alone, and time that grows with the updates as to sort them does.
pub(crate) fn updates_fit(
    alloc: Global,
    own: Role,
    satoshis: u64,
    updates: &Updates,
) -> Result<bool, Refusal>
    ensures tells_it { IfOk result (λ b. b ≡ updates_fit own satoshis updates.now) }
    ensures fails_for_memory_alone { IfErr result (λ e. e ≡ Refusal.Memory) }
{
    Ok(
        counts_fit(own, updates)
            && ids_fit(Role::Funder, updates)
            && ids_fit(Role::Fundee, updates)
            && funds_in(&updates.base) == 1000 * u128::from(satoshis)
            && removals_fit(alloc, Role::Funder, updates)?
            && removals_fit(alloc, Role::Fundee, updates)?
            && views_fit(alloc, own, updates)?,
    )
}
