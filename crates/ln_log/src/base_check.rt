//! Whether updates may lead to a base: plain programs for the definitions.

ghost use Rattle.std.specs.Prelude.{◌≡◌, ◌≤◌, ◌+◌, ◌*◌, ◌^◌, ◌↔◌, length, IsTrue};
ghost use Rattle.ln_keys.specs.Role.{other_role};
ghost use Rattle.ln_log.specs.Opening.{HasFunds, first_balance};
ghost use Rattle.ln_log.specs.Explained.{AreBetween, in_flight, gone, lost, fewest, fee_changes, MayBeLedTo};

use crate::balances::Balances;
use crate::log::Counts;
use crate::opening::Opening;
use crate::update::Add;
use ln_keys::Role;

// Whether these HTLCs stand by rising id, each below the next one.
fn are_by_id(next: u64, live_htlcs: &[Add]) -> bool
    ensures { IsTrue result ↔ AreBetween 0 next live_htlcs.now }
{
    let mut from = 0u64;
    for add in live_htlcs {
        if add.id < from || add.id >= next {
            return false;
        }
        from = add.id + 1;
    }
    true
}

// What live HTLCs amount to, in millisatoshi.
fn in_flight(live_htlcs: &[Add]) -> u128
    ensures sum { result ≡ in_flight live_htlcs.now }
    ensures fits { result ≤ 2 ^ 64 * length live_htlcs.now }
{
    let mut sum = 0u128;
    for add in live_htlcs {
        sum += u128::from(add.amount);
    }
    sum
}

// What a side has lost for good, in millisatoshi.
fn lost(first: u64, live_htlcs: &[Add], left: u64) -> u128
    ensures { result ≡ lost first live_htlcs.now left }
{
    u128::from(first).saturating_sub(in_flight(live_htlcs) + u128::from(left))
}

// How many HTLCs of a side aren't live any more.
fn gone(next: u64, live_htlcs: &[Add]) -> u64
    ensures { result ≡ gone next live_htlcs.now }
{
    next.saturating_sub(live_htlcs.len() as u64)
}

// The fewest updates of a side.
fn fewest(next: u64, next_peer: u64, live_htlcs_peer: &[Add]) -> u128
    ensures { result ≡ fewest next next_peer live_htlcs_peer.now }
{
    u128::from(next) + u128::from(gone(next_peer, live_htlcs_peer))
}

// How many of the funder's updates are left for changes of the fee.
fn fee_changes(role: Role, count: &Counts, balances: &Balances, own: &[Add], peer: &[Add]) -> u128
    ensures { result ≡ fee_changes role count.now balances.now own.now peer.now }
{
    match role {
        Role::Funder => {
            let least = fewest(balances.next_own, balances.next_peer, peer);
            (count.own as u128).saturating_sub(least)
        }
        Role::Fundee => {
            let least = fewest(balances.next_peer, balances.next_own, own);
            (count.peer as u128).saturating_sub(least)
        }
    }
}

// Whether what a side has lost it has lost by an HTLC that isn't live.
fn loses_by_one(first: u64, next: u64, live_htlcs: &[Add], left: u64) -> bool
    ensures { IsTrue result ↔ (1 ≤ lost first live_htlcs.now left → 1 ≤ gone next live_htlcs.now) }
{
    gone(next, live_htlcs) >= 1 || lost(first, live_htlcs, left) == 0
}

// Whether there is an update for each HTLC that was offered, and for each that isn't live.
fn has_updates(count: usize, next: u64, next_peer: u64, live_htlcs_peer: &[Add]) -> bool
    ensures { IsTrue result ↔ (fewest next next_peer live_htlcs_peer.now ≤ count) }
{
    fewest(next, next_peer, live_htlcs_peer) <= count as u128
}

// Whether balances and live HTLCs are together all funds.
fn have_all_funds(opening: &Opening, balances: &Balances, own: &[Add], peer: &[Add]) -> bool
    requires { HasFunds opening.now }
    ensures { IsTrue result ↔ (balances.now.own + in_flight own.now + (balances.now.peer + in_flight peer.now)
        ≡ 1000 * opening.now.satoshis) }
{
    let ours = u128::from(balances.own) + in_flight(own);
    let theirs = u128::from(balances.peer) + in_flight(peer);
    ours + theirs == 1000 * u128::from(opening.satoshis)
}

/// Whether so many updates of either side can be worth this, with these HTLCs live. Takes time that grows linearly with
/// these, and no memory.
pub fn may_be_led_to(
    opening: &Opening,
    role: Role,
    count: &Counts,
    balances: &Balances,
    own: &[Add],
    peer: &[Add],
) -> bool
    requires { HasFunds opening.now }
    ensures { IsTrue result ↔ MayBeLedTo opening.now role count.now balances.now own.now peer.now }
{
    let same_fee = balances.feerate == opening.feerate;
    are_by_id(balances.next_own, own)
        && are_by_id(balances.next_peer, peer)
        && has_updates(count.own, balances.next_own, balances.next_peer, peer)
        && has_updates(count.peer, balances.next_peer, balances.next_own, own)
        && (same_fee || fee_changes(role, count, balances, own, peer) > 0)
        && have_all_funds(opening, balances, own, peer)
        && loses_by_one(
            opening.first_balance(role),
            balances.next_own,
            own,
            balances.own,
        )
        && loses_by_one(
            opening.first_balance(role.other()),
            balances.next_peer,
            peer,
            balances.peer,
        )
}
