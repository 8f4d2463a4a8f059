//! A log from what the record of a channel tells of its updates.

ghost use Rattle.std.specs.Prelude.{◌≡◌, ◌≤◌, ◌<◌, ◌+◌, ◌-◌, ◌*◌, ◌^◌, ◌++◌, ◌↔◌, length, IsTrue, IfOk, take};
ghost use Rattle.std.specs.Result.{IsOkUnless};
ghost use Rattle.ln_log.specs.Opening.{HasFunds};
ghost use Rattle.ln_log.specs.Updates.{is_any, is_live, is_failed, is_fulfilled, total};
ghost use Rattle.ln_log.specs.View.{live_adds};
ghost use Rattle.ln_log.specs.Log.{AreNumbered, AreWithin};
ghost use Rattle.ln_log.specs.Window.{PaysBehind};
ghost use Rattle.ln_log.specs.RecordForm.{record_form, as_offered, standing_after, StandingFits, AreCounted};
ghost use Rattle.ln_log.specs.RecordForm.{AreInPlace};
ghost use Rattle.ln_log.specs.RecordForm.{AreLawfulBehind, IsLawfulUpTo};

use crate::balances::Balances;
use crate::base_check::may_be_led_to;
use crate::log::{Counts, MOST_UPDATES, Pair, UpdateLog};
use crate::opening::Opening;
use crate::outcomes::Outcomes;
use crate::plain::{add_of, count_adds, live_add, sums_of};
use crate::record_form::{BaseState, Origin};
use crate::removal_check::are_removals;
use crate::standing::Standing;
use crate::update::{Add, Update};
use crate::window::Window;
use ln_history::Past;
use ln_keys::Role;
use ln_refusals::Refusal;
use std::alloc::Global;

/// How many updates of either side the three commitments cover that a side knows of.
#[derive(Clone, Copy, PartialEq, Eq)]
pub struct Coverage {
    /// What the last own signature covers.
    pub signed: Counts,
    /// What the peer's commitment covers, up to which it has revoked.
    pub acknowledged: Counts,
    /// What the own commitment covers.
    pub current: Counts,
}

// ---- ids, amounts and counts

// Whether the HTLCs that these updates offer have this id, the next one and so on.
fn are_numbered(first: u64, updates: &[Update]) -> bool
    requires { first + length updates.now < 2 ^ 64 }
    ensures { IsTrue result ↔ AreNumbered first updates.now }
{
    let mut next = first;
    for update in updates {
        match add_of(update) {
            None => {}
            Some(add) => {
                if add.id != next {
                    return false;
                }
                next += 1;
            }
        }
    }
    true
}

// Whether no HTLC that these updates offer is of more than this, in millisatoshi.
fn are_within(most: u64, updates: &[Update]) -> bool
    ensures { IsTrue result ↔ AreWithin most updates.now }
{
    for update in updates {
        match add_of(update) {
            None => {}
            Some(add) => {
                if add.amount > most {
                    return false;
                }
            }
        }
    }
    true
}

// Whether a side may have offered these after a base.
fn are_offered(opening: &Opening, first: u64, updates: &[Update]) -> bool
    requires funds { HasFunds opening.now }
    requires few { first + length updates.now < 2 ^ 64 }
    ensures { IsTrue result ↔ (AreNumbered first updates.now × AreWithin (1000 * opening.now.satoshis) updates.now) }
{
    are_numbered(first, updates) && are_within(1000 * opening.satoshis, updates)
}

// Whether the base is held as irrevocably committed, the counts lie within one another, and the last signatures of both
// sides cover all updates: so many of either side after the base.
fn counts_fit(updates: &Counts, coverage: &Coverage, own: usize, received: usize) -> bool
    ensures { IsTrue result ↔ AreCounted updates.now coverage.now.signed coverage.now.acknowledged
        coverage.now.current own received }
{
    updates.own <= coverage.current.own
        && coverage.current.own <= coverage.acknowledged.own
        && coverage.acknowledged.own <= coverage.signed.own
        && coverage.signed.own as u128 == updates.own as u128 + own as u128
        && coverage.signed.own as u64 <= MOST_UPDATES
        && updates.peer <= coverage.acknowledged.peer
        && coverage.acknowledged.peer <= coverage.signed.peer
        && coverage.signed.peer <= coverage.current.peer
        && coverage.current.peer as u128 == updates.peer as u128 + received as u128
        && coverage.current.peer as u64 <= MOST_UPDATES
}

// Whether the base is one that updates lead to, and ids, amounts and counts are as a channel with these funds can have
// them after it.
fn are_in_place(
    opening: &Opening,
    role: Role,
    base: &BaseState,
    own: &[Update],
    received: &[Update],
    coverage: &Coverage,
) -> bool
    ensures { IsTrue result ↔ AreInPlace (record_form opening.now role base.now own.now received.now coverage.now) }
{
    if !opening.has_funds() {
        return false;
    }
    if !counts_fit(&base.updates, coverage, own.len(), received.len()) {
        return false;
    }
    let own_live_htlcs = base.own.as_slice();
    let peer_live_htlcs = base.peer.as_slice();
    if !may_be_led_to(
        opening,
        role,
        &base.updates,
        &base.balances,
        own_live_htlcs,
        peer_live_htlcs,
    ) {
        return false;
    }
    are_offered(opening, base.balances.next_own, own)
        && are_offered(opening, base.balances.next_peer, received)
}

// ---- views

// The HTLCs that are live in a base, as the updates that offered them.
#[derive(Drop)]
struct LiveHtlcs {
    own: Vec<Update>,
    peer: Vec<Update>,
}

fn as_offered(alloc: Global, adds: &[Add]) -> Result<Vec<Update>, Refusal>
    ensures offers_them { IfOk result (λ v. v.items ≡ as_offered adds.now) }
    ensures fails_for_memory_alone { IsOkUnless result Refusal.Memory }
{
    let mut updates = Vec::new(alloc);
    for add in adds {
        updates.push(Update::Add(*add))?;
    }
    Ok(updates)
}

fn live_htlcs_of(alloc: Global, base: &BaseState) -> Result<LiveHtlcs, Refusal>
    ensures own { IfOk result (λ l. l.own.items ≡ as_offered base.now.own.items) }
    ensures peer { IfOk result (λ l. l.peer.items ≡ as_offered base.now.peer.items) }
    ensures fails_for_memory_alone { IsOkUnless result Refusal.Memory }
{
    let own = as_offered(alloc, base.own.as_slice())?;
    let peer = as_offered(alloc, base.peer.as_slice())?;
    Ok(LiveHtlcs { own, peer })
}

// What a side had and got, what it offered, and what of that is in flight, all in millisatoshi.
#[derive(Clone, Copy)]
struct Account {
    got: u128,
    spent: u128,
    in_flight: u128,
}

// The account of a side that had so much and these live HTLCs in a base, and offered these after it, where the other
// side had those and offered those.
#[tactic(auto, using(crate::proofs::Totals::total_splits, crate::proofs::Restored::total_both))]
fn account_of(
    alloc: Global,
    had: u64,
    live_htlcs: &[Update],
    own: &[Update],
    live_htlcs_peer: &[Update],
    peer: &[Update],
) -> Result<Account, Refusal>
    ensures got { IfOk result (λ a. a.got ≡ had + total is_failed (live_htlcs.now ++ own.now) peer.now
        + total is_fulfilled (live_htlcs_peer.now ++ peer.now) own.now) }
    ensures spent { IfOk result (λ a. a.spent ≡ total is_any own.now peer.now) }
    ensures in_flight { IfOk result (λ a. a.in_flight ≡ total is_live (live_htlcs.now ++ own.now) peer.now) }
    ensures fails_for_memory_alone { IsOkUnless result Refusal.Memory }
{
    let of_own = Outcomes::new(alloc, peer)?;
    let of_peer = Outcomes::new(alloc, own)?;
    let out = sums_of(own, &of_own);
    let back = sums_of(peer, &of_peer);
    let base_out = sums_of(live_htlcs, &of_own);
    let base_back = sums_of(live_htlcs_peer, &of_peer);
    let flying = out.offered - out.failed - out.fulfilled;
    let base_flying = base_out.offered - base_out.failed - base_out.fulfilled;
    Ok(Account {
        got: u128::from(had) + base_out.failed + out.failed + base_back.fulfilled + back.fulfilled,
        spent: out.offered,
        in_flight: base_flying + flying,
    })
}

// Whether a side can pay what it offered after a base.
fn pays(
    alloc: Global,
    had: u64,
    live_htlcs: &[Update],
    own: &[Update],
    live_htlcs_peer: &[Update],
    peer: &[Update],
) -> Result<bool, Refusal>
    ensures tells_it { IfOk result (λ b. IsTrue b
        ↔ PaysBehind had live_htlcs.now own.now live_htlcs_peer.now peer.now) }
    ensures fails_for_memory_alone { IsOkUnless result Refusal.Memory }
{
    let account = account_of(alloc, had, live_htlcs, own, live_htlcs_peer, peer)?;
    Ok(account.spent <= account.got)
}

// Whether the view of these lists after a base is lawful.
fn is_lawful(
    alloc: Global,
    balances: &Balances,
    live_htlcs: &LiveHtlcs,
    own: &[Update],
    peer: &[Update],
) -> Result<bool, Refusal>
    ensures tells_it { IfOk result (λ b. IsTrue b ↔ AreLawfulBehind balances.now live_htlcs.now.own.items own.now
        live_htlcs.now.peer.items peer.now) }
    ensures fails_for_memory_alone { IsOkUnless result Refusal.Memory }
{
    let own_live_htlcs = live_htlcs.own.as_slice();
    let peer_live_htlcs = live_htlcs.peer.as_slice();
    if !are_removals(alloc, peer_live_htlcs, peer, own)?
        || !are_removals(alloc, own_live_htlcs, own, peer)?
    {
        return Ok(false);
    }
    if !pays(
        alloc,
        balances.own,
        own_live_htlcs,
        own,
        peer_live_htlcs,
        peer,
    )? {
        return Ok(false);
    }
    pays(
        alloc,
        balances.peer,
        peer_live_htlcs,
        peer,
        own_live_htlcs,
        own,
    )
}

// Whether the view of what so many updates of both sides cover is lawful.
fn covers_lawfully(
    alloc: Global,
    base: &BaseState,
    live_htlcs: &LiveHtlcs,
    own: &[Update],
    received: &[Update],
    counts: Counts,
) -> Result<bool, Refusal>
    requires own_behind { base.now.updates.own ≤ counts.own }
    requires own_within { counts.own ≤ base.now.updates.own + length own.now }
    requires peer_behind { base.now.updates.peer ≤ counts.peer }
    requires peer_within { counts.peer ≤ base.now.updates.peer + length received.now }
    ensures tells_it { IfOk result (λ b. IsTrue b ↔ AreLawfulBehind base.now.balances live_htlcs.now.own.items
        (take (counts.own - base.now.updates.own) own.now) live_htlcs.now.peer.items
        (take (counts.peer - base.now.updates.peer) received.now)) }
    ensures fails_for_memory_alone { IsOkUnless result Refusal.Memory }
{
    is_lawful(
        alloc,
        &base.balances,
        live_htlcs,
        &own[..counts.own - base.updates.own],
        &received[..counts.peer - base.updates.peer],
    )
}

// Whether the views of all three are lawful. Those of the next signature and of the next one taken are so with them.
fn views_are_lawful(
    alloc: Global,
    base: &BaseState,
    own: &[Update],
    received: &[Update],
    coverage: &Coverage,
) -> Result<bool, Refusal>
    requires { AreCounted base.now.updates coverage.now.signed coverage.now.acknowledged coverage.now.current
        (length own.now) (length received.now) }
    ensures tells_it { IfOk result (λ b. IsTrue b ↔ (IsLawfulUpTo base.now own.now received.now coverage.now.signed
        × IsLawfulUpTo base.now own.now received.now coverage.now.acknowledged
        × IsLawfulUpTo base.now own.now received.now coverage.now.current)) }
    ensures fails_for_memory_alone { IsOkUnless result Refusal.Memory }
{
    let live_htlcs = live_htlcs_of(alloc, base)?;
    if !covers_lawfully(alloc, base, &live_htlcs, own, received, coverage.signed)? {
        return Ok(false);
    }
    if !covers_lawfully(
        alloc,
        base,
        &live_htlcs,
        own,
        received,
        coverage.acknowledged,
    )? {
        return Ok(false);
    }
    covers_lawfully(alloc, base, &live_htlcs, own, received, coverage.current)
}

// ---- a log

// How many HTLCs these offer that the other side hasn't removed.
fn count_live(adds: &[Update], outcomes: &Outcomes) -> usize
    ensures count { result ≡ length (live_adds adds.now outcomes.now) }
    ensures at_most_the_updates { result ≤ length adds.now }
{
    let mut count = 0usize;
    for update in adds {
        if live_add(update, outcomes).is_some() {
            count += 1;
        }
    }
    count
}

// How a side stands that had this next id, so much and these live HTLCs in a base, and offered these after it.
fn standing_behind(
    alloc: Global,
    next: u64,
    had: u64,
    live_htlcs: &[Update],
    own: &[Update],
    live_htlcs_peer: &[Update],
    peer: &[Update],
) -> Result<Standing, Refusal>
    requires { StandingFits next had live_htlcs.now own.now live_htlcs_peer.now peer.now }
    ensures gives_the_standing { IfOk result (λ s. s
        ≡ standing_after next had live_htlcs.now own.now live_htlcs_peer.now peer.now) }
    ensures fails_for_memory_alone { IsOkUnless result Refusal.Memory }
{
    let account = account_of(alloc, had, live_htlcs, own, live_htlcs_peer, peer)?;
    let outcomes = Outcomes::new(alloc, peer)?;
    let live = count_live(live_htlcs, &outcomes) as u64 + count_live(own, &outcomes) as u64;
    Ok(Standing {
        next_id: next + count_adds(own) as u64,
        live,
        in_flight: account.in_flight as u64,
        balance: (account.got - account.spent) as u64,
    })
}

// The live HTLCs of a base, and the updates after it.
fn joined(live_htlcs: Vec<Update>, updates: Vec<Update>) -> Result<Vec<Update>, Refusal>
    ensures joins_them { IfOk result (λ v. v.items ≡ live_htlcs.items ++ updates.items) }
    ensures fails_for_memory_alone { IsOkUnless result Refusal.Memory }
{
    if live_htlcs.is_empty() {
        return Ok(updates);
    }
    let mut all = live_htlcs;
    all.extend_with_clones(updates.as_slice())?;
    Ok(all)
}

impl Window {
    ghost use Rattle.std.specs.Prelude.{◌≡◌, IfOk, take};
    ghost use Rattle.std.specs.Result.{IsOkUnless};
    ghost use Rattle.ln_log.specs.Log.{Log, none, after_drop};
    ghost use Rattle.ln_log.specs.Kept.{IsWindowOf};
    ghost use Rattle.ln_log.specs.Loading.{stored, IsReadable};
    ghost use Rattle.ln_log.specs.RecordForm.{record_form, record_form_of, kept_of, IsRestorable};

    // What the three commitments cover.
    pub(crate) fn coverage(&self) -> Coverage
        ensures counts { (l : Log) → IsWindowOf self.now l
            → stored l.opening l.role l.own l.received result ≡ record l { first = none } }
        ensures can_be_loaded { (l : Log) → IsWindowOf self.now l → IsReadable
            (stored l.opening l.role (take l.signed.own l.own) (take l.current.peer l.received) result) }
        ensures can_be_restored { (l : Log) → IsWindowOf self.now l
            → IsRestorable (record_form_of self.now.first (after_drop l)) }
    {
        // (a list that lies in memory has no more than 2^62 updates)
        let _ = self.own.as_slice().len();
        let _ = self.received.as_slice().len();
        Coverage {
            signed: self.signed,
            acknowledged: self.acknowledged,
            current: self.current,
        }
    }

    // Of a log of what a record tells. 60 where there was no memory.
    pub(crate) fn load(
        alloc: Global,
        opening: Opening,
        role: Role,
        base: &BaseState,
        own: Vec<Update>,
        received: Vec<Update>,
        coverage: Coverage,
    ) -> Result<Window, Refusal>
        requires { IsRestorable (record_form opening role base.now own.items received.items coverage) }
        ensures keeps_what_is_told { IfOk result (λ k. k
            ≡ kept_of (record_form opening role base.now own.items received.items coverage)) }
        ensures fails_for_memory_alone { IsOkUnless result Refusal.Memory }
    {
        let LiveHtlcs {
            own: own_live_htlcs,
            peer: peer_live_htlcs,
        } = live_htlcs_of(alloc, base)?;
        let acknowledged = &own[..coverage.acknowledged.own - base.updates.own];
        let balances = base.balances;
        let own_standing = standing_behind(
            alloc,
            balances.next_own,
            balances.own,
            &own_live_htlcs,
            &own,
            &peer_live_htlcs,
            &received,
        )?;
        let peer_standing = standing_behind(
            alloc,
            balances.next_peer,
            balances.peer,
            &peer_live_htlcs,
            &received,
            &own_live_htlcs,
            acknowledged,
        )?;
        let live = Counts {
            own: base.own.len(),
            peer: base.peer.len(),
        };
        let own = joined(own_live_htlcs, own)?;
        let received = joined(peer_live_htlcs, received)?;
        Ok(Window {
            opening,
            role,
            first: base.updates,
            live,
            balances,
            own,
            received,
            signed: coverage.signed,
            acknowledged: coverage.acknowledged,
            current: coverage.current,
            own_standing,
            own_signed: own_standing,
            peer_standing,
            peer_current: peer_standing,
        })
    }
}

impl UpdateLog {
    ghost use Rattle.std.specs.Prelude.{◌≡◌, ◌↔◌, IsTrue, IfOk, take};
    ghost use Rattle.std.specs.Result.{IsOkUnless};
    ghost use Rattle.ln_log.specs.Log.{Log, StandsFor, none, after_drop};
    ghost use Rattle.ln_log.specs.Loading.{stored, IsReadable};
    ghost use Rattle.ln_log.specs.RecordForm.{record_form, record_form_of, written, IsRestorable};

    /// Whether a log can be made of what the record of a channel tells of its updates: what both sides agreed on, this
    /// side's role, a base, the updates after it that this side has signed and those of the peer's that it has
    /// accepted, and what each commitment covers. The funds are 1 to 2,100,000,000,000,000 satoshi, and the push no
    /// more. Updates can lead to the base (`may_be_led_to`), whose live HTLCs stand by rising id, and it is held as
    /// irrevocably committed. The counts lie within one another, and signatures cover all updates, of each side 2^62 at
    /// most; ids rise by one from the base's next ones; no HTLC is of more than 1000 * funding_satoshis; and in no view
    /// of these commitments, nor in that of the next signature or the next one taken, a removal stands without its HTLC
    /// or a second time, or a balance falls below 0 (BOLT 2, "Normal Operation", "Message Retransmission"). 60 where
    /// there was no memory.
    pub fn can_be_loaded(
        alloc: Global,
        opening: &Opening,
        role: Role,
        base: &BaseState,
        own: &[Update],
        received: &[Update],
        coverage: &Coverage,
    ) -> Result<bool, Refusal>
        ensures tells_it { IfOk result (λ b. IsTrue b ↔ IsRestorable
            (record_form opening.now role base.now own.now received.now coverage.now)) }
        ensures fails_for_memory_alone { IsOkUnless result Refusal.Memory }
    {
        if !are_in_place(opening, role, base, own, received, coverage) {
            return Ok(false);
        }
        views_are_lawful(alloc, base, own, received, coverage)
    }

    /// What the three commitments cover: with the updates of both sides that signatures cover, from `first` on, what
    /// those before are worth (`balances`) and their live HTLCs (`live`), all that a record has to tell of them. Of
    /// what it tells a log can be made again, and so of whole lists.
    pub fn coverage(&self) -> Coverage
        ensures counts { (l : Log) → StandsFor self.now l
            → stored l.opening l.role l.own l.received result ≡ record l { first = none } }
        ensures can_be_loaded { (l : Log) → StandsFor self.now l → IsReadable
            (stored l.opening l.role (take l.signed.own l.own) (take l.current.peer l.received) result) }
        ensures can_be_restored { (l : Log) → StandsFor self.now l
            → IsRestorable (record_form_of l.first (after_drop l)) }
    {
        self.window.coverage()
    }

    /// The log of what a record tells, which `can_be_loaded` tests. Of the updates that the base leaves out nothing is
    /// known but what it tells: it has ones that lead to it, with HTLCs of no amount but for one. Takes time that grows
    /// linearly with the updates and the live HTLCs, but for finding HTLCs by their ids in a map. 60 where there was no
    /// memory.
    pub fn load(
        alloc: Global,
        opening: Opening,
        role: Role,
        base: BaseState,
        own: Vec<Update>,
        received: Vec<Update>,
        coverage: Coverage,
    ) -> Result<UpdateLog, Refusal>
        requires { IsRestorable (record_form opening role base own.items received.items coverage) }
        ensures has_what_is_told { IfOk result (λ l. l
            ≡ record (written (record_form opening role base own.items received.items coverage)) {
              first =
                  base.updates;
            }) }
        ensures fails_for_memory_alone { IsOkUnless result Refusal.Memory }
    {
        let window = Window::load(alloc, opening, role, &base, own, received, coverage)?;
        let origin = Origin {
            opening,
            role,
            base,
        };
        Ok(UpdateLog {
            window,
            own_past: Past::begun(&origin),
            peer_past: Past::begun(&origin),
        })
    }

    /// Takes the past of another log, of which a record tells what this one has: a log that was loaded knows of the
    /// updates before `first` what its base told, and the other one has them. Proofs alone read them: it does nothing
    /// at run time.
    pub fn take_past_of(&mut self, other: &UpdateLog)
        requires same_first { self.old.first ≡ other.now.first }
        requires same_record { record_form_of self.old.first self.old
            ≡ record_form_of self.old.first (after_drop other.now) }
        ensures { self.new ≡ after_drop other.now }
    {
        // (what a window keeps is in order)
        let _ = self.window.counts(Pair::Signed);
        let _ = other.window.counts(Pair::Signed);
        self.own_past = other.own_past.same();
        self.peer_past = other.peer_past.same();
    }
}
