//! The updates of a channel as one side has them.

use crate::balances::Balances;
use crate::opening::Opening;
use crate::record_form::{BaseState, Origin};
use crate::update::{Add, Update};
use crate::window::Window;
use ln_history::Past;
use ln_keys::{Role, View};
use ln_refusals::Refusal;
use std::alloc::Global;
use std::marker::Model;

/// A side proposes no more updates than these.
pub const MOST_UPDATES: u64 = 1 << 62;

/// Whose.
#[derive(Clone, Copy, PartialEq, Eq)]
pub enum Side {
    /// This side's.
    Own,
    /// The other side's.
    Peer,
}

/// Which pair of lists: what a commitment covers.
#[derive(Clone, Copy, PartialEq, Eq)]
pub enum Pair {
    /// A side's current commitment: the own one, or the peer's as far as it was acknowledged.
    Current(Side),
    /// What the last own signature covers.
    Signed,
    /// What a signature made now would cover.
    ToSign,
    /// What a signature taken now would cover.
    ToAccept,
}

/// How many updates of either side a commitment covers.
#[derive(Clone, Copy, PartialEq, Eq)]
pub struct Counts {
    /// Of this side's.
    pub own: usize,
    /// Of the other side's.
    pub peer: usize,
}

/// The updates of both sides as one side has them, and how many of them its last signature, its own
/// commitment and the peer's acknowledged commitment cover. Contracts see all updates. Those before `first` aren't kept
/// one by one any more: proofs alone read them.
#[derive(Drop)]
pub struct UpdateLog {
    pub(crate) window: Window,
    // the updates of either side that have left the window, and the base that it began with
    pub(crate) own_past: Past<Origin, Update>,
    pub(crate) peer_past: Past<Origin, Update>,
}

impl Model for UpdateLog {
    ghost use Rattle.ln_log.specs.Log.{Log};
    ghost use Rattle.ln_log.specs.Kept.{whole, IsWhole, own_before, peer_before};

    ghost Value = { Log };

    ghost view = { λ l. whole l.window (own_before l.own_past.told) (peer_before l.peer_past.told) };

    ghost invariant = { λ l. IsWhole l.window (own_before l.own_past.told) (peer_before l.peer_past.told) };
}

impl UpdateLog {
    ghost use Rattle.std.specs.Prelude.{◌≡◌, ◌≤◌, ◌+◌, ◌*◌, ◌<◌, ◌^◌, length, IfSome, IfOk, OnOk, OnErr};
    ghost use Rattle.std.specs.Prelude.{option_copied};
    ghost use Rattle.std.specs.Result.{IsOkUnless};
    ghost use Rattle.ln_log.specs.Opening.{IsFit, most_satoshis};
    ghost use Rattle.ln_log.specs.Updates.{next_id, offered};
    ghost use Rattle.ln_log.specs.View.{AddsUp};
    ghost use Rattle.ln_log.specs.Window.{first_balances, first_live_htlcs};
    ghost use Rattle.ln_log.specs.Limits.{HasNextId, Answers, is_at_update_limit, removable};
    ghost use Rattle.ln_log.specs.Log.{Log, StandsFor, IsWithin, IsInOrder, updates_of, count_of, first_of, update_at};
    ghost use Rattle.ln_log.specs.Log.{between, unacknowledged, all_counts, at_opening, IsInRange, before_first};
    ghost use Rattle.ln_log.specs.Log.{AreNotGone, HasAmount};
    ghost use Rattle.ln_log.specs.Log.{AreWithin, opened, after_propose, after_receive, after_sign, after_accept};
    ghost use Rattle.ln_log.specs.Log.{after_learn, after_drop, sign_fault, proposal_fault, taken_fault};
    ghost use Rattle.ln_log.specs.Log.{covered, counts_of, live_in, view_for};

    /// A channel end before any update. Takes no memory.
    pub fn new(alloc: Global, role: Role, opening: Opening) -> UpdateLog
        requires { IsFit opening }
        ensures before_any_update { StandsFor result (opened opening role) }
        ensures counts { all_counts result ≡ all_counts (opened opening role) }
        ensures opening { at_opening result ≡ opened opening role }
    {
        let origin = Origin {
            opening,
            role,
            base: BaseState::at_opening(alloc, &opening, role),
        };
        UpdateLog {
            window: Window::new(alloc, role, opening),
            own_past: Past::begun(&origin),
            peer_past: Past::begun(&origin),
        }
    }

    /// The id of the next HTLC that this side offers.
    pub fn next_id(&self) -> u64
        ensures { (l : Log) → StandsFor self.now l → result ≡ next_id l.own }
    {
        self.window.next_id()
    }

    /// Proposes an update (BOLT 2, "Adding an HTLC", "Removing an HTLC", "Updating Fees").
    ///
    /// 46 where this side has proposed 2^62 updates. For a removal 44 with 28 where the peer never offered
    /// the HTLC, 49 where it is removed already, 48 where it isn't held as irrevocably committed; 44 with
    /// the number by which the peer would refuse the update (23, 27, 24, 25, 26 for an add, in this order;
    /// 29 for a preimage that isn't the payment hash's; 21 for a malformed one without the BADONION bit;
    /// 30 for a fee of the fundee's); 44 with 7 for a reason of more than 65,491 bytes. 60 where there was
    /// no memory. At each of these nothing has changed.
    pub fn propose(&mut self, update: Update) -> Result<(), Refusal>
        requires { (l : Log) → StandsFor self.old l → HasNextId l.own update }
        ensures refuses_exactly { (l : Log) → StandsFor self.old l → Answers (proposal_fault l update) result }
        ensures moves_as_stated { (l : Log) → StandsFor self.old l
            → OnOk result (StandsFor self.new (after_propose update l)) }
        ensures changes_nothing_if_refused { OnErr result (self.new ≡ self.old) }
        ensures changes_no_count { all_counts self.new ≡ all_counts self.old }
        ensures same_opening { at_opening self.new ≡ at_opening self.old }
    {
        self.window.propose(update)
    }

    /// Takes an update of the peer (BOLT 2, "Adding an HTLC", "Removing an HTLC", "Updating Fees").
    ///
    /// 21 where the peer has proposed 2^62 updates. For an add 22 where its id isn't the next one, then
    /// 23, 27, 24, 25 or 26 in this order; for a removal 28 where it names no HTLC that the peer holds as
    /// irrevocably committed and hasn't removed, then 29 for a wrong preimage, 21 for a malformed one
    /// without the BADONION bit; for a fee of the fundee's 30. 60 where there was no memory. At each of
    /// these nothing has changed.
    pub fn receive(&mut self, update: Update) -> Result<(), Refusal>
        ensures refuses_exactly { (l : Log) → StandsFor self.old l → Answers (taken_fault l update) result }
        ensures moves_as_stated { (l : Log) → StandsFor self.old l
            → OnOk result (StandsFor self.new (after_receive update l)) }
        ensures changes_nothing_if_refused { OnErr result (self.new ≡ self.old) }
        ensures changes_no_count { all_counts self.new ≡ all_counts self.old }
        ensures same_opening { at_opening self.new ≡ at_opening self.old }
    {
        self.window.receive(update)
    }

    /// What keeps this side from signing: 41 where its last signature isn't revoked for yet, 42 where a
    /// signature would cover nothing new (BOLT 2, "Committing Updates So Far").
    pub fn sign_refusal(&self) -> Option<Refusal>
        ensures { (l : Log) → StandsFor self.now l → result ≡ sign_fault l }
    {
        self.window.sign_refusal()
    }

    /// This side has signed: all own updates, and those of the peer that stand in its own commitment.
    /// Takes no memory.
    pub fn sign(&mut self)
        ensures moves_as_stated { (l : Log) → StandsFor self.old l → StandsFor self.new (after_sign l) }
        ensures counts { all_counts self.new
            ≡ record (all_counts self.old) { signed = counts_of Pair.ToSign self.old } }
        ensures same_opening { at_opening self.new ≡ at_opening self.old }
    {
        self.window.sign();
    }

    /// The peer's signature was taken: this side's commitment covers what was taken of the peer's, and
    /// the own updates that the peer has acknowledged. Takes no memory.
    pub fn accept(&mut self)
        ensures moves_as_stated { (l : Log) → StandsFor self.old l → StandsFor self.new (after_accept l) }
        ensures counts { all_counts self.new
            ≡ record (all_counts self.old) { current = counts_of Pair.ToAccept self.old } }
        ensures same_opening { at_opening self.new ≡ at_opening self.old }
    {
        self.window.accept();
    }

    /// The peer's revocation was taken: the peer's commitment is the one that was signed last. Takes no
    /// memory.
    pub fn learn(&mut self)
        ensures moves_as_stated { (l : Log) → StandsFor self.old l → StandsFor self.new (after_learn l) }
        ensures counts { all_counts self.new ≡ record (all_counts self.old) { acknowledged = self.old.signed } }
        ensures same_opening { at_opening self.new ≡ at_opening self.old }
    {
        self.window.learn();
    }

    /// The connection is lost: received updates that no signature taken covers are gone, and own ones that
    /// no own signature covers; their ids are used again (BOLT 2, "Message Retransmission"). Takes no
    /// memory.
    pub fn drop_unsigned(&mut self)
        ensures moves_as_stated { (l : Log) → StandsFor self.old l → StandsFor self.new (after_drop l) }
        ensures changes_no_count { all_counts self.new ≡ all_counts self.old }
        ensures same_opening { at_opening self.new ≡ at_opening self.old }
    {
        self.window.drop_unsigned();
    }

    /// How many updates a side has proposed, as far as this side knows them.
    pub fn len(&self, side: Side) -> usize
        ensures length { (l : Log) → StandsFor self.now l → result ≡ length (updates_of side l) }
        ensures counted { result ≡ count_of side self.now }
    {
        self.window.len(side)
    }

    /// The number of the first update of a side that `update` still gives; updates count from 0. It is none
    /// that this side doesn't hold as irrevocably committed.
    pub fn first(&self, side: Side) -> usize
        ensures is_the_first { result ≡ first_of side self.now }
        ensures committed { (self.now.first.own ≤ self.now.current.own)
            × (self.now.first.peer ≤ self.now.acknowledged.peer) }
    {
        self.window.first(side)
    }

    /// The update of this number, counted from 0: none before `first` and after the last one. An HTLC that it
    /// offers is of no more than 1000 * funding_satoshis, in millisatoshi.
    pub fn update(&self, side: Side, number: usize) -> Option<&Update>
        ensures update { (l : Log) → StandsFor self.now l
            → option_copied result ≡ update_at (first_of side self.now) (updates_of side l) number }
        ensures amount { IfSome (option_copied result)
            (λ u. HasAmount (1000 * self.now.opening.satoshis) (offered u)) }
        ensures funds { self.now.opening.satoshis ≤ most_satoshis }
    {
        self.window.update(side, number)
    }

    /// The HTLC of this id among those that this side has offered, but for one that an update of the peer's before
    /// `first` removes: of that there is none any more. Takes no memory.
    pub fn own_htlc(&self, id: u64) -> Option<&Add>
        ensures { (l : Log) → StandsFor self.now l
            → option_copied result ≡ removable id (before_first Side.Peer l) l.own }
    {
        self.window.own_htlc(id)
    }

    /// What the updates of both sides before `first` are worth beside their live HTLCs.
    pub fn balances(&self) -> Balances
        ensures { (l : Log) → StandsFor self.now l → result ≡ first_balances l }
    {
        self.window.balances()
    }

    /// The HTLCs of a side that the updates before `first` offer and don't remove, by rising id, as the updates that
    /// offered them.
    pub fn live(&self, side: Side) -> &[Update]
        ensures { (l : Log) → StandsFor self.now l → result.now ≡ first_live_htlcs side l }
    {
        self.window.live(side)
    }

    /// The updates of a side from one number up to another, from `first` on. No HTLC that they offer is of more than
    /// 1000 * funding_satoshis, in millisatoshi; and none that they remove was removed by an update before `first`.
    pub fn between(&self, side: Side, from: usize, to: usize) -> &[Update]
        requires not_before_the_first { first_of side self.now ≤ from }
        requires ordered { from ≤ to }
        requires not_behind_the_last { to ≤ count_of side self.now }
        ensures updates { (l : Log) → StandsFor self.now l → result.now ≡ between from to (updates_of side l) }
        ensures not_removed_before { (l : Log) → StandsFor self.now l → AreNotGone (before_first side l) result.now }
        ensures count { from + length result.now ≡ to }
        ensures amounts { AreWithin (1000 * self.now.opening.satoshis) result.now }
        ensures funds { self.now.opening.satoshis ≤ most_satoshis }
    {
        self.window.between(side, from, to)
    }

    /// The own updates that the last signature covers and the peer hasn't acknowledged, in their order: what a
    /// lost connection may have kept from the peer (BOLT 2, "Message Retransmission").
    pub fn unacknowledged(&self) -> &[Update]
        ensures { (l : Log) → StandsFor self.now l → result.now ≡ unacknowledged l }
    {
        self.window.unacknowledged()
    }

    /// Whether a side may propose no further update: it has 2^62 of them.
    pub fn is_at_update_limit(&self, side: Side) -> bool
        ensures { (l : Log) → StandsFor self.now l → result ≡ is_at_update_limit (updates_of side l) }
    {
        self.window.is_at_update_limit(side)
    }

    /// How many updates of either side a pair covers.
    pub fn counts(&self, pair: Pair) -> Counts
        ensures own { (l : Log) → StandsFor self.now l → result.own ≡ (counts_of pair l).own }
        ensures peer { (l : Log) → StandsFor self.now l → result.peer ≡ (counts_of pair l).peer }
        ensures own_within { (l : Log) → StandsFor self.now l → result.own ≤ length l.own }
        ensures peer_within { (l : Log) → StandsFor self.now l → result.peer ≤ length l.received }
        ensures ordered { (l : Log) → StandsFor self.now l → IsWithin l }
        ensures lengths_fit { (l : Log) → StandsFor self.now l → length l.own + length l.received + 1 < 2 ^ 64 }
        ensures counted { result ≡ counts_of pair self.now }
        ensures in_range { IsInRange self.now result }
        ensures in_order { IsInOrder self.now }
        ensures counts_fit { count_of Side.Own self.now + count_of Side.Peer self.now + 1 < 2 ^ 64 }
    {
        self.window.counts(pair)
    }

    /// What a commitment is worth. It always adds up to 1000 * funding_satoshis. 60 where there was no
    /// memory for its HTLCs.
    pub fn view(&self, alloc: Global, pair: Pair) -> Result<View, Refusal>
        ensures view { (l : Log) → StandsFor self.now l
            → IfOk result (λ v. v ≡ view_for l.opening l.role (covered l (counts_of pair l))) }
        ensures adds_up { (l : Log) → StandsFor self.now l → IfOk result (λ v. AddsUp l.opening v) }
        ensures fails_for_memory_alone { IsOkUnless result Refusal.Memory }
    {
        self.window.view(alloc, pair)
    }

    /// How many HTLCs, of both sides together, are live in a side's commitment.
    pub fn live_htlc_count(&self, side: Side) -> usize
        ensures { (l : Log) → StandsFor self.now l → result ≡ live_in (covered l (counts_of (Pair.Current side) l)) }
    {
        self.window.live_htlc_count(side)
    }
}
