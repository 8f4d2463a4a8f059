//! The base of a log moves on.

ghost use Rattle.std.specs.Prelude.{◌≡◌, ◌≤◌, ◌<◌, ◌+◌, ◌-◌, ◌^◌, ◌++◌, ℕ, IsTrue, true, IfOk, IfSome, OnOk};
ghost use Rattle.std.specs.Result.{IsOkUnless};
ghost use Rattle.ln_log.specs.declared.outcome.Outcome.TheVariants as found;
ghost use Rattle.ln_log.specs.Updates.{outcome, next_id, total, is_any, is_some};
ghost use Rattle.ln_log.specs.Window.{live_htlcs, feerate_of, got_behind, left_behind, IsLeft, AreBalancesBehind};
ghost use Rattle.ln_log.specs.Window.{HasBalances};

use crate::balances::Balances;
use crate::log::{Counts, Side, UpdateLog};
use crate::outcomes::Outcomes;
use crate::plain::{count_adds, last_feerate, live_add, sums_of};
use crate::record_form::Origin;
use crate::update::{Update, removal_of};
use crate::window::Window;
use ln_history::Past;
use ln_keys::Role;
use ln_refusals::Refusal;
use std::alloc::Global;

// Whether each HTLC that these remove has an id below this one.
fn remove_below(next: u64, updates: &[Update]) -> bool
    ensures they_do { IsTrue result → (id : ℕ) → next ≤ id → outcome id updates.now ≡ found.Live }
    ensures where_they_do { ((id : ℕ) → next ≤ id → outcome id updates.now ≡ found.Live) → IsTrue result }
{
    for update in updates {
        match removal_of(update) {
            None => {}
            Some(removal) => {
                if removal.id >= next {
                    return false;
                }
            }
        }
    }
    true
}

// The next id after these.
fn next_behind(next: u64, updates: &[Update]) -> Option<u64>
    ensures next { IfSome result (λ n. n ≡ next + next_id updates.now) }
    ensures given_where_it_fits { next + next_id updates.now < 2 ^ 64 → is_some result ≡ true }
{
    next.checked_add(count_adds(updates) as u64)
}

// What is left of this once that is spent; none where it isn't enough, or more than fits.
fn rest_of(got: u128, spent: u128) -> Option<u64>
    ensures left { IfSome result (λ b. b ≡ got - spent) }
    ensures paid { IfSome result (λ b. spent ≤ got) }
    ensures given_where_it_fits { spent ≤ got → got - spent < 2 ^ 64 → is_some result ≡ true }
{
    if got < spent {
        return None;
    }
    let rest = got - spent;
    if rest > 18_446_744_073_709_551_615 {
        return None;
    }
    Some(rest as u64)
}

// What a side has left of a balance after all that is kept of it, the HTLCs of a base before its new updates, and
// these alone; the same of the other side.
fn balance_left(
    alloc: Global,
    had: u64,
    all: &[Update],
    new: &[Update],
    peer_all: &[Update],
    peer_new: &[Update],
) -> Result<Option<u64>, Refusal>
    ensures left { IfOk result (λ o. IfSome o (λ b. b ≡ left_behind had all.now new.now peer_all.now peer_new.now)) }
    ensures paid { IfOk result (λ o. IfSome o (λ b. total is_any new.now peer_new.now
        ≤ got_behind had all.now new.now peer_all.now peer_new.now)) }
    ensures given_where_it_fits { IsLeft had all.now new.now peer_all.now peer_new.now
        → IfOk result (λ o. is_some o ≡ true) }
    ensures fails_for_memory_alone { IsOkUnless result Refusal.Memory }
{
    let of_own = Outcomes::new(alloc, peer_new)?;
    let of_peer = Outcomes::new(alloc, new)?;
    let out = sums_of(all, &of_own);
    let back = sums_of(peer_all, &of_peer);
    let spent = sums_of(new, &of_own);
    Ok(rest_of(u128::from(had) + out.failed + back.fulfilled, spent.offered))
}

// The feerate after these.
fn feerate_behind(feerate: u32, role: Role, own: &[Update], peer: &[Update]) -> u32
    ensures { result ≡ feerate_of feerate role own.now peer.now }
{
    match role {
        Role::Funder => last_feerate(feerate, own),
        Role::Fundee => last_feerate(feerate, peer),
    }
}

// What two lists are worth after a base: of each all that is kept, the HTLCs that are live in the base before its new
// updates, and these alone. None where they remove an HTLC that they don't offer, or a side spent more than it had.
fn balances_behind(
    alloc: Global,
    role: Role,
    base: &Balances,
    own: &[Update],
    own_new: &[Update],
    peer: &[Update],
    peer_new: &[Update],
) -> Result<Option<Balances>, Refusal>
    ensures balances { IfOk result (λ o. IfSome o (AreBalancesBehind role base.now own.now own_new.now peer.now
        peer_new.now)) }
    ensures given_where_there_is_one { HasBalances base.now own.now own_new.now peer.now peer_new.now
        → IfOk result (λ o. is_some o ≡ true) }
    ensures fails_for_memory_alone { IsOkUnless result Refusal.Memory }
{
    let Some(next_own) = next_behind(base.next_own, own_new) else {
        return Ok(None);
    };
    let Some(next_peer) = next_behind(base.next_peer, peer_new) else {
        return Ok(None);
    };
    if !remove_below(next_own, peer_new) || !remove_below(next_peer, own_new) {
        return Ok(None);
    }
    let Some(own_left) = balance_left(alloc, base.own, own, own_new, peer, peer_new)? else {
        return Ok(None);
    };
    let Some(peer_left) = balance_left(alloc, base.peer, peer, peer_new, own, own_new)? else {
        return Ok(None);
    };
    Ok(Some(Balances {
        next_own,
        next_peer,
        own: own_left,
        peer: peer_left,
        feerate: feerate_behind(base.feerate, role, own_new, peer_new),
    }))
}

// Puts the HTLCs that these offer and the other side hasn't removed after a list, as the updates that offered them.
fn keep_live(list: &mut Vec<Update>, updates: &[Update], outcomes: &Outcomes) -> Result<(), Refusal>
    ensures appends_them { OnOk result (list.new.items ≡ list.old.items ++ live_htlcs updates.now outcomes.now) }
    ensures fails_for_memory_alone { IsOkUnless result Refusal.Memory }
{
    for update in updates {
        match live_add(update, outcomes) {
            None => {}
            Some(add) => list.push(Update::Add(*add))?,
        }
    }
    Ok(())
}

// The HTLCs that these offer and those don't remove, as the updates that offered them.
fn live_part(alloc: Global, updates: &[Update], removals: &[Update]) -> Result<Vec<Update>, Refusal>
    ensures live { IfOk result (λ v. v.items ≡ live_htlcs updates.now removals.now) }
    ensures fails_for_memory_alone { IsOkUnless result Refusal.Memory }
{
    let outcomes = Outcomes::new(alloc, removals)?;
    let mut live = Vec::new(alloc);
    keep_live(&mut live, updates, &outcomes)?;
    Ok(live)
}

// Puts copies of these after a list.
fn append(list: &mut Vec<Update>, rest: &[Update]) -> Result<(), Refusal>
    ensures appends_them { OnOk result (list.new.items ≡ list.old.items ++ rest.now) }
    ensures fails_for_memory_alone { IsOkUnless result Refusal.Memory }
{
    list.extend_with_clones(rest)?;
    Ok(())
}

impl Window {
    ghost use Rattle.std.specs.Prelude.{◌≡◌, ◌≤◌, ◌↔◌, IsTrue, IfOk, OnErr, false};
    ghost use Rattle.std.specs.Result.{IsOkUnless};
    ghost use Rattle.ln_log.specs.Log.{Log};
    ghost use Rattle.ln_log.specs.Window.{MayBeBase};
    ghost use Rattle.ln_log.specs.Kept.{IsWindowOf, kept_opening};

    // Moves the base on to so many updates of both sides, where these can be in one, and answers whether it did. What
    // is kept is a window of the same lists. 60 where there was no memory; then nothing has changed.
    pub(crate) fn advance(&mut self, alloc: Global, to: Counts) -> Result<bool, Refusal>
        ensures stands_for_the_same { (l : Log) → IsWindowOf self.old l → IsWindowOf self.new l }
        ensures exactly { (l : Log) → IsWindowOf self.old l
            → IfOk result (λ b. IsTrue b ↔ MayBeBase (record l { first = self.old.first }) to) }
        ensures moves { IfOk result (λ b. IsTrue b → self.new.first ≡ to) }
        ensures changes_nothing_else { IfOk result (λ b. b ≡ false → self.new ≡ self.old) }
        ensures changes_nothing_if_refused { OnErr result (self.new ≡ self.old) }
        ensures same_opening { kept_opening self.new ≡ kept_opening self.old }
        ensures fails_for_memory_alone { IsOkUnless result Refusal.Memory }
    {
        if to.own < self.first.own || to.own > self.current.own {
            return Ok(false);
        }
        if to.peer < self.first.peer || to.peer > self.acknowledged.peer {
            return Ok(false);
        }
        let own = self.front(Side::Own, to.own);
        let peer = self.front(Side::Peer, to.peer);
        let own_new = self.between(Side::Own, self.first.own, to.own);
        let peer_new = self.between(Side::Peer, self.first.peer, to.peer);
        let found = balances_behind(
            alloc,
            self.role,
            &self.balances,
            own,
            own_new,
            peer,
            peer_new,
        )?;
        let Some(balances) = found else {
            return Ok(false);
        };
        let mut own_list = live_part(alloc, own, peer_new)?;
        let mut peer_list = live_part(alloc, peer, own_new)?;
        let live = Counts {
            own: own_list.len(),
            peer: peer_list.len(),
        };
        let own_rest = self.between(Side::Own, to.own, self.len(Side::Own));
        append(&mut own_list, own_rest)?;
        let peer_rest = self.between(Side::Peer, to.peer, self.len(Side::Peer));
        append(&mut peer_list, peer_rest)?;
        self.first = to;
        self.live = live;
        self.balances = balances;
        self.own = own_list;
        self.received = peer_list;
        Ok(true)
    }
}

// With these entered, one after the other.
fn with_all(past: &Past<Origin, Update>, updates: &[Update]) -> Past<Origin, Update>
    ensures same_start { result.told.start ≡ past.now.told.start }
    ensures enters_them { result.told.entries ≡ past.now.told.entries ++ updates.now }
{
    let mut grown = past.same();
    for update in updates {
        grown = grown.and(update);
    }
    grown
}

impl Window {
    ghost use Rattle.std.specs.Prelude.{◌≡◌, ◌≤◌};
    ghost use Rattle.ln_log.specs.Log.{Log, updates_of, between};
    ghost use Rattle.ln_log.specs.Kept.{IsWindowOf, kept_count, kept_first};

    // The updates of a side that leave the window as the base moves on to so many of them; none where it can't.
    fn leaving(&self, side: Side, to: usize) -> &[Update]
        ensures { (l : Log) → IsWindowOf self.now l → kept_first side self.now ≤ to → to ≤ kept_count side self.now
            → result.now ≡ between (kept_first side self.now) to (updates_of side l) }
    {
        let first = self.first(side);
        if to < first || to > self.len(side) {
            self.between(side, first, first)
        } else {
            self.between(side, first, to)
        }
    }
}

impl UpdateLog {
    ghost use Rattle.std.specs.Prelude.{◌≡◌, ◌↔◌, IsTrue, IfOk, OnOk, OnErr};
    ghost use Rattle.std.specs.Result.{IsOkUnless};
    ghost use Rattle.ln_log.specs.Window.{MayBeBase, may_be_base, after_advance};

    /// Moves `first` on to so many updates of both sides, where these stand in each commitment, remove no HTLC that
    /// they don't offer, and neither side has spent more than it had by them; answers whether it did. The updates
    /// before `first` aren't kept one by one any more; what they are worth is, and their HTLCs that are live. Takes
    /// time that grows linearly with what is kept, but for finding HTLCs by their ids in a map. 60 where there was no
    /// memory; then nothing has changed.
    pub fn advance(&mut self, alloc: Global, to: Counts) -> Result<bool, Refusal>
        ensures exactly { IfOk result (λ b. IsTrue b ↔ MayBeBase self.old to) }
        ensures by_its_test { IfOk result (λ b. b ≡ may_be_base self.old to) }
        ensures moves_where_it_may { OnOk result (self.new ≡ after_advance to self.old) }
        ensures changes_nothing_if_refused { OnErr result (self.new ≡ self.old) }
        ensures fails_for_memory_alone { IsOkUnless result Refusal.Memory }
    {
        let own_past = with_all(&self.own_past, self.window.leaving(Side::Own, to.own));
        let peer_past = with_all(&self.peer_past, self.window.leaving(Side::Peer, to.peer));
        if !self.window.advance(alloc, to)? {
            return Ok(false);
        }
        self.own_past = own_past;
        self.peer_past = peer_past;
        Ok(true)
    }
}
