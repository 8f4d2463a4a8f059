//! What a log keeps (its window): of the first updates of both sides (the base) what they are worth and the HTLCs that
//! are live there, and the updates after them one by one.

ghost use Rattle.std.specs.Prelude.{◌≡◌, ◌≤◌, ◌+◌, ◌*◌, List, length, Option, Some, None, option_copied};
ghost use Rattle.std.specs.Prelude.{if◌then◌else◌, nat_lt, ◌-◌, drop, ◌&&◌};
ghost use Rattle.ln_log.specs.Window.{role_balances_of};
ghost use Rattle.std.specs.List.{slice_get};
ghost use Rattle.ln_log.specs.declared.opening.Opening.{Opening};
ghost use Rattle.ln_log.specs.declared.update.Update.{Update};
ghost use Rattle.ln_log.specs.Updates.{next_id, offered, is_some, add_with, outcome, is_live};
ghost use Rattle.ln_log.specs.Limits.{id_fault};
ghost use Rattle.ln_log.specs.Log.{Log, IsWithin, between, sign_fault, length_fault, HasAmount};
ghost use Rattle.ln_log.specs.Kept.{IsWindowOf, kept_count, kept_first};

use crate::balances::{Balances, RoleBalances, view_behind};
use crate::log::{Counts, MOST_UPDATES, Pair, Side};
use crate::opening::{MOST_SATOSHIS, Opening};
use crate::outcome::Outcome;
use crate::outcomes::{count_removals, outcome_of};
use crate::plain::{count_adds, find_add};
use crate::standing::{Standing, update_refusal};
use crate::update::{Add, Update, removal_of};
use ln_keys::{Role, View};
use ln_refusals::{PeerRule, Refusal};
use std::alloc::Global;
use std::marker::Model;

/// `update_fail_htlc` has 44 bytes beside the reason, and a message 65,535 at most.
const LONGEST_REASON: usize = 65_491;

/// What a log keeps of the updates of both sides. The live HTLCs of the base stand first in both lists.
#[derive(Drop)]
pub(crate) struct Window {
    pub(crate) opening: Opening,
    pub(crate) role: Role,
    // how many updates of either side are in the base
    pub(crate) first: Counts,
    // how many HTLCs are live there: they stand first in both lists, as the updates that offered them
    pub(crate) live: Counts,
    // what the base is worth beside them
    pub(crate) balances: Balances,
    pub(crate) own: Vec<Update>,
    pub(crate) received: Vec<Update>,
    pub(crate) signed: Counts,
    pub(crate) acknowledged: Counts,
    pub(crate) current: Counts,
    // how this side stands by what it would sign, and what is left of that once the connection is lost
    pub(crate) own_standing: Standing,
    pub(crate) own_signed: Standing,
    // the same for the peer, by what this side would accept
    pub(crate) peer_standing: Standing,
    pub(crate) peer_current: Standing,
}

impl Model for Window {
    ghost use Rattle.ln_log.specs.Kept.{Kept, IsKeptInOrder};

    ghost Value = { Kept };

    ghost view = { λ l. record {
      opening = l.opening;
      role = l.role;
      first = l.first;
      live = l.live;
      balances = l.balances;
      own = l.own.items;
      received = l.received.items;
      signed = l.signed;
      acknowledged = l.acknowledged;
      current = l.current;
      own_standing = l.own_standing;
      own_signed = l.own_signed;
      peer_standing = l.peer_standing;
      peer_current = l.peer_current;
    } };

    ghost invariant = { λ l. IsKeptInOrder (record {
      opening = l.opening;
      role = l.role;
      first = l.first;
      live = l.live;
      balances = l.balances;
      own = l.own.items;
      received = l.received.items;
      signed = l.signed;
      acknowledged = l.acknowledged;
      current = l.current;
      own_standing = l.own_standing;
      own_signed = l.own_signed;
      peer_standing = l.peer_standing;
      peer_current = l.peer_current;
    }) };
}

impl Window {
    ghost use Rattle.std.specs.Prelude.{◌≡◌, ◌≤◌, ◌+◌, ◌*◌, ◌<◌, ◌^◌, length, IfSome, IfOk, OnOk, OnErr};
    ghost use Rattle.std.specs.Prelude.{option_copied, take};
    ghost use Rattle.std.specs.Result.{IsOkUnless};
    ghost use Rattle.ln_log.specs.Opening.{IsFit, most_satoshis};
    ghost use Rattle.ln_log.specs.Updates.{next_id, offered, removed, outcome, is_live};
    ghost use Rattle.ln_log.specs.View.{AddsUp};
    ghost use Rattle.ln_log.specs.Limits.{HasNextId, Answers, most_updates, is_at_update_limit, removable};
    ghost use Rattle.ln_log.specs.Log.{IsWithin, none, updates_of, update_at, unacknowledged};
    ghost use Rattle.ln_log.specs.Log.{AreWithin, opened, after_propose, after_receive, after_sign, after_accept};
    ghost use Rattle.ln_log.specs.Log.{after_learn, after_drop, sign_fault, removal_fault, proposal_fault, taken_fault};
    ghost use Rattle.ln_log.specs.Kept.{IsWindowOf, IsKeptInOrder, IsKeptInRange, kept_count, kept_first, kept_counts};
    ghost use Rattle.ln_log.specs.Kept.{kept_opening, pair_counts, front_of, peer_base, base_of, live_base};
    ghost use Rattle.ln_log.specs.Log.{AreNotGone};
    ghost use Rattle.ln_log.specs.Log.{covered, counts_of, live_in, view_for};

    // Of a channel end before any update.
    pub(crate) fn new(alloc: Global, role: Role, opening: Opening) -> Window
        requires { IsFit opening }
        ensures before_any_update { IsWindowOf result (opened opening role) }
        ensures counts { kept_counts result
            ≡ record { first = none; signed = none; acknowledged = none; current = none } }
        ensures opening { kept_opening result ≡ opened opening role }
    {
        let none = Counts { own: 0, peer: 0 };
        let own = Standing {
            next_id: 0,
            live: 0,
            in_flight: 0,
            balance: opening.first_balance(role),
        };
        let peer = Standing {
            next_id: 0,
            live: 0,
            in_flight: 0,
            balance: opening.first_balance(role.other()),
        };
        let balances = Balances {
            next_own: 0,
            next_peer: 0,
            own: opening.first_balance(role),
            peer: opening.first_balance(role.other()),
            feerate: opening.feerate,
        };
        Window {
            opening,
            role,
            first: none,
            live: none,
            balances,
            own: Vec::new(alloc),
            received: Vec::new(alloc),
            signed: none,
            acknowledged: none,
            current: none,
            own_standing: own,
            own_signed: own,
            peer_standing: peer,
            peer_current: peer,
        }
    }

    // The id of the next HTLC that this side offers.
    pub(crate) fn next_id(&self) -> u64
        ensures { (l : Log) → IsWindowOf self.now l → result ≡ next_id l.own }
    {
        self.own_standing.next_id
    }

    // As `UpdateLog::propose`.
    pub(crate) fn propose(&mut self, update: Update) -> Result<(), Refusal>
        requires { (l : Log) → IsWindowOf self.old l → HasNextId l.own update }
        ensures refuses_exactly { (l : Log) → IsWindowOf self.old l → Answers (proposal_fault l update) result }
        ensures moves_as_stated { (l : Log) → IsWindowOf self.old l
            → OnOk result (IsWindowOf self.new (after_propose update l)) }
        ensures changes_nothing_if_refused { OnErr result (self.new ≡ self.old) }
        ensures changes_no_count { kept_counts self.new ≡ kept_counts self.old }
        ensures same_opening { kept_opening self.new ≡ kept_opening self.old }
    {
        match self.proposal_refusal(&update) {
            Some(refusal) => Err(refusal),
            None => {
                let seen = self.front(Side::Peer, self.current.peer);
                let standing = self.own_standing.with_own(&update, seen);
                self.own.push(update)?;
                self.own_standing = standing;
                Ok(())
            }
        }
    }

    // Whether an HTLC that the peer has offered isn't removed.
    fn is_live(&self, id: u64) -> bool
        ensures { (l : Log) → IsWindowOf self.now l → id < next_id l.received → result ≡ is_live (outcome id l.own) }
    {
        find_live(id, self.received.as_slice(), self.own.as_slice())
    }

    // The id of the peer's next HTLC, by so many of its updates.
    fn next_of_peer(&self, count: usize) -> u128
        requires behind_the_base { self.now.first.peer ≤ count }
        requires within { count ≤ kept_count Side.Peer self.now }
        ensures { (l : Log) → IsWindowOf self.now l → result ≡ next_id (take count l.received) }
    {
        let updates = self.between(Side::Peer, self.first.peer, count);
        u128::from(self.balances.next_peer) + count_adds(updates) as u128
    }

    // What keeps this side from removing an HTLC of the peer's. An HTLC was offered where its id is below the next one,
    // and is held where it is below the next one by what is held.
    fn removal_refusal(&self, update: &Update) -> Option<Refusal>
        ensures { (l : Log) → IsWindowOf self.now l → result ≡ removal_fault l (removed update.now) }
    {
        match removal_of(update) {
            None => None,
            Some(removal) => {
                let next = self.next_of_peer(self.len(Side::Peer));
                let live = self.is_live(removal.id);
                let held = self.next_of_peer(self.acknowledged.peer);
                if u128::from(removal.id) >= next {
                    Some(Refusal::PeerLimit(PeerRule::NoSuchHtlc))
                } else if !live {
                    Some(Refusal::AlreadyRemoved)
                } else if u128::from(removal.id) >= held {
                    Some(Refusal::NotCommitted)
                } else {
                    None
                }
            }
        }
    }

    // What keeps this side from proposing an update.
    fn proposal_refusal(&self, update: &Update) -> Option<Refusal>
        ensures refuses_exactly { (l : Log) → IsWindowOf self.now l → result ≡ proposal_fault l update.now }
        ensures leaves_room { result ≡ None → kept_count Side.Own self.now < most_updates }
        ensures within_funds { result ≡ None → HasAmount (1000 * self.now.opening.satoshis) (offered update.now) }
    {
        if self.len(Side::Own) as u64 >= MOST_UPDATES {
            return Some(Refusal::NumbersSpent);
        }
        match self.removal_refusal(update) {
            Some(refusal) => return Some(refusal),
            None => {}
        }
        let limits = self.opening.limits_of(self.role);
        let held = self.front(Side::Peer, self.acknowledged.peer);
        match update_refusal(
            &limits,
            &self.own_standing,
            self.role,
            self.own.as_slice(),
            held,
            update,
        ) {
            Some(refusal) => return Some(Refusal::PeerLimit(refusal.peer_rule())),
            None => {}
        }
        match funds_refusal(&self.opening, update) {
            Some(refusal) => Some(Refusal::PeerLimit(refusal.peer_rule())),
            None => length_refusal(update),
        }
    }

    // As `UpdateLog::receive`.
    pub(crate) fn receive(&mut self, update: Update) -> Result<(), Refusal>
        ensures refuses_exactly { (l : Log) → IsWindowOf self.old l → Answers (taken_fault l update) result }
        ensures moves_as_stated { (l : Log) → IsWindowOf self.old l
            → OnOk result (IsWindowOf self.new (after_receive update l)) }
        ensures changes_nothing_if_refused { OnErr result (self.new ≡ self.old) }
        ensures changes_no_count { kept_counts self.new ≡ kept_counts self.old }
        ensures same_opening { kept_opening self.new ≡ kept_opening self.old }
    {
        match self.taken_refusal(&update) {
            Some(refusal) => Err(refusal),
            None => {
                let seen = self.front(Side::Own, self.acknowledged.own);
                let standing = self.peer_standing.with_own(&update, seen);
                self.received.push(update)?;
                self.peer_standing = standing;
                Ok(())
            }
        }
    }

    // What is wrong with an update of the peer.
    fn taken_refusal(&self, update: &Update) -> Option<Refusal>
        ensures refuses_exactly { (l : Log) → IsWindowOf self.now l → result ≡ taken_fault l update.now }
        ensures leaves_room { result ≡ None → kept_count Side.Peer self.now < most_updates }
        ensures within_funds { result ≡ None → HasAmount (1000 * self.now.opening.satoshis) (offered update.now) }
    {
        if self.len(Side::Peer) as u64 >= MOST_UPDATES {
            return Some(Refusal::OutOfPlace);
        }
        if !has_id(update, self.peer_standing.next_id) {
            return Some(Refusal::BadId);
        }
        let limits = self.opening.limits_of(self.role.other());
        let held = self.front(Side::Own, self.current.own);
        match update_refusal(
            &limits,
            &self.peer_standing,
            self.role.other(),
            self.received.as_slice(),
            held,
            update,
        ) {
            Some(refusal) => Some(refusal),
            None => funds_refusal(&self.opening, update),
        }
    }

    // As `UpdateLog::sign_refusal`.
    pub(crate) fn sign_refusal(&self) -> Option<Refusal>
        ensures { (l : Log) → IsWindowOf self.now l → result ≡ sign_fault l }
    {
        let next = self.counts(Pair::ToSign);
        if self.acknowledged != self.signed {
            Some(Refusal::SignatureOutstanding)
        } else if self.signed == next {
            Some(Refusal::NothingToSign)
        } else {
            None
        }
    }

    // This side has signed.
    pub(crate) fn sign(&mut self)
        ensures moves_as_stated { (l : Log) → IsWindowOf self.old l → IsWindowOf self.new (after_sign l) }
        ensures counts { kept_counts self.new
            ≡ record (kept_counts self.old) { signed = pair_counts Pair.ToSign self.old } }
        ensures same_opening { kept_opening self.new ≡ kept_opening self.old }
    {
        let next = self.counts(Pair::ToSign);
        self.signed = next;
        self.own_signed = self.own_standing;
    }

    // The peer's signature was taken.
    pub(crate) fn accept(&mut self)
        ensures moves_as_stated { (l : Log) → IsWindowOf self.old l → IsWindowOf self.new (after_accept l) }
        ensures counts { kept_counts self.new
            ≡ record (kept_counts self.old) { current = pair_counts Pair.ToAccept self.old } }
        ensures same_opening { kept_opening self.new ≡ kept_opening self.old }
    {
        let next = self.counts(Pair::ToAccept);
        let updates = self.between(Side::Peer, self.current.peer, self.len(Side::Peer));
        let htlcs = self.front(Side::Own, self.current.own);
        let own_standing = self.own_standing.with_all(updates, htlcs);
        let own_signed = self.own_signed.with_all(updates, htlcs);
        self.own_standing = own_standing;
        self.own_signed = own_signed;
        self.peer_current = self.peer_standing;
        self.current = next;
    }

    // The peer's revocation was taken.
    pub(crate) fn learn(&mut self)
        ensures moves_as_stated { (l : Log) → IsWindowOf self.old l → IsWindowOf self.new (after_learn l) }
        ensures counts { kept_counts self.new ≡ record (kept_counts self.old) { acknowledged = self.old.signed } }
        ensures same_opening { kept_opening self.new ≡ kept_opening self.old }
    {
        let updates = self.between(Side::Own, self.acknowledged.own, self.signed.own);
        let htlcs = self.front(Side::Peer, self.signed.peer);
        let peer_standing = self.peer_standing.with_all(updates, htlcs);
        let peer_current = self.peer_current.with_all(updates, htlcs);
        self.peer_standing = peer_standing;
        self.peer_current = peer_current;
        self.acknowledged = self.signed;
    }

    // The connection is lost.
    pub(crate) fn drop_unsigned(&mut self)
        ensures moves_as_stated { (l : Log) → IsWindowOf self.old l → IsWindowOf self.new (after_drop l) }
        ensures changes_no_count { kept_counts self.new ≡ kept_counts self.old }
        ensures same_opening { kept_opening self.new ≡ kept_opening self.old }
    {
        let own = self.live.own + (self.signed.own - self.first.own);
        let received = self.live.peer + (self.current.peer - self.first.peer);
        self.own.truncate(own);
        self.received.truncate(received);
        self.own_standing = self.own_signed;
        self.peer_standing = self.peer_current;
    }

    // The HTLCs that are live in the base, and the updates of a side after it up to so many.
    pub(crate) fn front(&self, side: Side, end: usize) -> &[Update]
        requires behind_the_base { kept_first side self.now ≤ end }
        requires within { end ≤ kept_count side self.now }
        ensures updates { (l : Log) → IsWindowOf self.now l → result.now ≡ front_of side self.now l end }
        ensures amounts { AreWithin (1000 * self.now.opening.satoshis) result.now }
    {
        match side {
            Side::Own => part(
                self.own.as_slice(),
                0,
                self.live.own + (end - self.first.own),
            ),
            Side::Peer => part(
                self.received.as_slice(),
                0,
                self.live.peer + (end - self.first.peer),
            ),
        }
    }

    // How many updates a side has proposed, as far as this side knows them.
    pub(crate) fn len(&self, side: Side) -> usize
        ensures length { (l : Log) → IsWindowOf self.now l → result ≡ length (updates_of side l) }
        ensures counted { result ≡ kept_count side self.now }
    {
        match side {
            Side::Own => self.first.own + (self.own.len() - self.live.own),
            Side::Peer => self.first.peer + (self.received.len() - self.live.peer),
        }
    }

    // The number of the first update of a side that is had one by one.
    pub(crate) fn first(&self, side: Side) -> usize
        ensures is_the_first { result ≡ kept_first side self.now }
        ensures committed { (self.now.first.own ≤ self.now.current.own)
            × (self.now.first.peer ≤ self.now.acknowledged.peer) }
    {
        // (what is kept bounds both)
        let _ = self.own.len();
        match side {
            Side::Own => self.first.own,
            Side::Peer => self.first.peer,
        }
    }

    // The update of this number, counted from 0: none before `first` and after the last one.
    pub(crate) fn update(&self, side: Side, number: usize) -> Option<&Update>
        ensures update { (l : Log) → IsWindowOf self.now l
            → option_copied result ≡ update_at (kept_first side self.now) (updates_of side l) number }
        ensures amount { IfSome (option_copied result)
            (λ u. HasAmount (1000 * self.now.opening.satoshis) (offered u)) }
        ensures funds { self.now.opening.satoshis ≤ most_satoshis }
    {
        match side {
            Side::Own => nth_behind(self.own.as_slice(), self.live.own, self.first.own, number),
            Side::Peer => nth_behind(
                self.received.as_slice(),
                self.live.peer,
                self.first.peer,
                number,
            ),
        }
    }

    // The HTLC of this id among those that this side has offered, but for one that an update of the peer's in the base
    // removes.
    pub(crate) fn own_htlc(&self, id: u64) -> Option<&Add>
        ensures { (l : Log) → IsWindowOf self.now l
            → option_copied result ≡ removable id (peer_base self.now l) l.own }
    {
        find_add(id, self.own.as_slice())
    }

    // What the base is worth beside its live HTLCs.
    pub(crate) fn balances(&self) -> Balances
        ensures { result ≡ self.now.balances }
    {
        self.balances
    }

    // The HTLCs of a side that are live in the base, as the updates that offered them.
    pub(crate) fn live(&self, side: Side) -> &[Update]
        ensures { (l : Log) → IsWindowOf self.now l → result.now ≡ live_base side self.now l }
    {
        match side {
            Side::Own => part(self.own.as_slice(), 0, self.live.own),
            Side::Peer => part(self.received.as_slice(), 0, self.live.peer),
        }
    }

    // The updates of a side from one number up to another, from `first` on: none removes an HTLC that one before
    // `first` removes.
    pub(crate) fn between(&self, side: Side, from: usize, to: usize) -> &[Update]
        requires not_before_the_first { kept_first side self.now ≤ from }
        requires ordered { from ≤ to }
        requires not_behind_the_last { to ≤ kept_count side self.now }
        ensures updates { (l : Log) → IsWindowOf self.now l → result.now ≡ between from to (updates_of side l) }
        ensures not_removed_before { (l : Log) → IsWindowOf self.now l
            → AreNotGone (base_of side self.now l) result.now }
        ensures count { from + length result.now ≡ to }
        ensures amounts { AreWithin (1000 * self.now.opening.satoshis) result.now }
        ensures funds { self.now.opening.satoshis ≤ most_satoshis }
    {
        match side {
            Side::Own => part(
                self.own.as_slice(),
                self.live.own + (from - self.first.own),
                self.live.own + (to - self.first.own),
            ),
            Side::Peer => part(
                self.received.as_slice(),
                self.live.peer + (from - self.first.peer),
                self.live.peer + (to - self.first.peer),
            ),
        }
    }

    // The own updates that the last signature covers and the peer hasn't acknowledged, in their order.
    pub(crate) fn unacknowledged(&self) -> &[Update]
        ensures { (l : Log) → IsWindowOf self.now l → result.now ≡ unacknowledged l }
    {
        self.between(Side::Own, self.acknowledged.own, self.signed.own)
    }

    // Whether a side may propose no further update: it has 2^62 of them.
    pub(crate) fn is_at_update_limit(&self, side: Side) -> bool
        ensures { (l : Log) → IsWindowOf self.now l → result ≡ is_at_update_limit (updates_of side l) }
    {
        self.len(side) as u64 >= MOST_UPDATES
    }

    // How many updates of either side a pair covers.
    pub(crate) fn counts(&self, pair: Pair) -> Counts
        ensures own { (l : Log) → IsWindowOf self.now l → result.own ≡ (counts_of pair l).own }
        ensures peer { (l : Log) → IsWindowOf self.now l → result.peer ≡ (counts_of pair l).peer }
        ensures own_within { (l : Log) → IsWindowOf self.now l → result.own ≤ length l.own }
        ensures peer_within { (l : Log) → IsWindowOf self.now l → result.peer ≤ length l.received }
        ensures ordered { (l : Log) → IsWindowOf self.now l → IsWithin l }
        ensures lengths_fit { (l : Log) → IsWindowOf self.now l → length l.own + length l.received + 1 < 2 ^ 64 }
        ensures counted { result ≡ pair_counts pair self.now }
        ensures in_range { IsKeptInRange self.now result }
        ensures in_order { IsKeptInOrder self.now }
        ensures counts_fit { kept_count Side.Own self.now + kept_count Side.Peer self.now + 1 < 2 ^ 64 }
    {
        match pair {
            Pair::Current(Side::Own) => self.current,
            Pair::Current(Side::Peer) => self.acknowledged,
            Pair::Signed => self.signed,
            Pair::ToSign => Counts {
                own: self.len(Side::Own),
                peer: self.current.peer,
            },
            Pair::ToAccept => Counts {
                own: self.acknowledged.own,
                peer: self.len(Side::Peer),
            },
        }
    }

    // What a commitment is worth. 60 where there was no memory for its HTLCs.
    pub(crate) fn view(&self, alloc: Global, pair: Pair) -> Result<View, Refusal>
        ensures view { (l : Log) → IsWindowOf self.now l
            → IfOk result (λ v. v ≡ view_for l.opening l.role (covered l (counts_of pair l))) }
        ensures adds_up { (l : Log) → IsWindowOf self.now l → IfOk result (λ v. AddsUp l.opening v) }
        ensures fails_for_memory_alone { IsOkUnless result Refusal.Memory }
    {
        let counts = self.counts(pair);
        let own = self.front(Side::Own, counts.own);
        let peer = self.front(Side::Peer, counts.peer);
        let own_new = self.between(Side::Own, self.first.own, counts.own);
        let peer_new = self.between(Side::Peer, self.first.peer, counts.peer);
        let base = role_balances_of(&self.balances, self.role);
        match self.role {
            Role::Funder => view_behind(alloc, &base, own, own_new, peer, peer_new),
            Role::Fundee => view_behind(alloc, &base, peer, peer_new, own, own_new),
        }
    }

    // How many HTLCs, of both sides together, are live in a side's commitment.
    pub(crate) fn live_htlc_count(&self, side: Side) -> usize
        ensures { (l : Log) → IsWindowOf self.now l → result ≡ live_in (covered l (counts_of (Pair.Current side) l)) }
    {
        let counts = self.counts(Pair::Current(side));
        let own = self.front(Side::Own, counts.own);
        let peer = self.front(Side::Peer, counts.peer);
        let offered = count_adds(own) + count_adds(peer);
        let removed = count_removals(own) + count_removals(peer);
        offered.saturating_sub(removed)
    }
}

fn part(updates: &[Update], from: usize, to: usize) -> &[Update]
    requires ordered { from ≤ to }
    requires within { to ≤ length updates.now }
    ensures gives_the_part { result.now ≡ between from to updates.now }
    ensures count { from + length result.now ≡ to }
{
    &updates[from..to]
}

// Whether these offer an HTLC of this id, and those don't remove it.
fn find_live(id: u64, adds: &[Update], removals: &[Update]) -> bool
    ensures { result ≡ (is_live (outcome id removals.now) && is_some (add_with id adds.now)) }
{
    match outcome_of(id, removals) {
        Outcome::Live => find_add(id, adds).is_some(),
        Outcome::Fulfilled => false,
        Outcome::Failed => false,
    }
}

// The update of this number in a list that begins with so many HTLCs of the base, after which the first update has
// that number.
fn nth_behind(updates: &[Update], live: usize, first: usize, number: usize) -> Option<&Update>
    ensures { option_copied result ≡ (if nat_lt number first then None else slice_get (drop live updates.now)
        (number - first)) }
{
    if number < first || live > updates.len() {
        return None;
    }
    part(updates, live, updates.len()).get(number - first)
}

// What a base is worth, by roles.
fn role_balances_of(balances: &Balances, role: Role) -> RoleBalances
    ensures { result ≡ role_balances_of balances.now role }
{
    match role {
        Role::Funder => RoleBalances {
            funder: balances.own,
            fundee: balances.peer,
            feerate: balances.feerate,
        },
        Role::Fundee => RoleBalances {
            funder: balances.peer,
            fundee: balances.own,
            feerate: balances.feerate,
        },
    }
}

// Whether an update offers no HTLC, or one of this id.
fn has_id(update: &Update, id: u64) -> bool
    ensures { (own : List Update) → id ≡ next_id own
        → id_fault own update.now ≡ (if result then None else Some Refusal.BadId) }
{
    match update {
        Update::Add(add) => add.id == id,
        Update::Fulfil(_) => true,
        Update::Fail(_) => true,
        Update::Malformed(_) => true,
        Update::Fee(_) => true,
    }
}

// No HTLC is of more than all funds. Where a log stands for the lists of a channel, the limits have refused it before:
// no side has more than all funds left.
fn funds_refusal(opening: &Opening, update: &Update) -> Option<Refusal>
    ensures within_funds { result ≡ None → HasAmount (1000 * opening.now.satoshis) (offered update.now) }
    ensures nothing_within_funds { HasAmount (1000 * opening.now.satoshis) (offered update.now) → result ≡ None }
{
    match update {
        Update::Add(add) => {
            if u128::from(add.amount) > 1000 * u128::from(opening.satoshis) {
                Some(Refusal::CannotAfford)
            } else {
                None
            }
        }
        Update::Fulfil(_) => None,
        Update::Fail(_) => None,
        Update::Malformed(_) => None,
        Update::Fee(_) => None,
    }
}

// A message has 65,535 bytes at most.
fn length_refusal(update: &Update) -> Option<Refusal>
    ensures { result ≡ length_fault update.now }
{
    match update {
        Update::Fail(fail) => {
            if fail.reason.len() > LONGEST_REASON {
                Some(Refusal::PeerLimit(PeerRule::TooLong))
            } else {
                None
            }
        }
        Update::Add(_) => None,
        Update::Fulfil(_) => None,
        Update::Malformed(_) => None,
        Update::Fee(_) => None,
    }
}
