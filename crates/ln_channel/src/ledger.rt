//! The events of a channel end by number, what was decided about HTLCs, and what became of those that were forwarded.

use crate::output::{Outbox, Output};
use ln_hooks::{ChannelEvent, event_of};
use ln_log::{ChannelId, Decision, EventRef, Mark, Settlement, Update, UpdateLog, removal_of};
use ln_refusals::Refusal;
use std::alloc::Global;
use std::collections::BTreeSet;
use std::marker::Model;

/// The most events that a channel end has: 2^62 updates of either side, and the close.
const MOST_DECIDED: u64 = (1 << 63) + 1;

/// The events of a channel end by number: how many were decided, and the undecided ones after them in their order;
/// what was decided about HTLCs of the peer's, and what became of own ones that forward others.
#[derive(Drop)]
pub struct EventLedger {
    decided: u64,
    undecided: Vec<EventRef>,
    decisions: Vec<Decision>,
    results: Vec<Settlement>,
}

impl Model for EventLedger {
    ghost use Rattle.std.specs.Prelude.{◌≤◌};
    ghost use Rattle.ln_channel.specs.Ledger.{Ledger, most_decided};

    ghost Value = { Ledger };

    ghost view = { λ l. record {
      decided = l.decided;
      undecided = l.undecided.items;
      decisions = l.decisions.items;
      results = l.results.items;
    } };

    ghost invariant = { λ l. l.decided ≤ most_decided };
}

ghost use Rattle.std.specs.Prelude.{◌≡◌, List, IfOk, IfErr, IsTrue, filter, position, false};
ghost use Rattle.std.specs.List.{list_any};
ghost use Rattle.ln_log.specs.declared.update.Update.{Update};
ghost use Rattle.ln_log.specs.Outcomes.{AreRemoved};
ghost use Rattle.ln_channel.specs.Base.{is_open};
ghost use Rattle.ln_log.specs.declared.log.Side.TheVariants as side;
ghost use Rattle.ln_log.specs.Updates.{removed};
ghost use Rattle.ln_log.specs.Limits.{removable};
ghost use Rattle.ln_log.specs.Log.{before_first, IsNotGone};
ghost use Rattle.ln_channel.specs.Ledger.{ref_of, origin_of, settlement_by, is_not_of, is_of_event, is_held_at};
ghost use Rattle.ln_channel.specs.Ledger.{with_mark, is_answer};

// The update of this number, of this side's own or of the peer's.
fn ref_of(own: bool, number: u64) -> EventRef
    ensures { result ≡ ref_of own number }
{
    if own {
        EventRef::Own(number)
    } else {
        EventRef::Peer(number)
    }
}

// The HTLC that the own one of this id forwards, but for one that an update of the peer's that has left the window
// removes.
fn origin_of(log: &UpdateLog, id: u64) -> Option<(ChannelId, u64)>
    ensures { result ≡ origin_of (removable id (before_first side.Peer log.now) log.now.own) }
{
    match log.own_htlc(id) {
        None => None,
        Some(add) => add.origin,
    }
}

// What became of the own HTLC that this update of the peer's removes, where it forwards another one, and no update
// that has left the window removes it.
fn settlement_by(log: &UpdateLog, update: &Update) -> Result<Option<Settlement>, Refusal>
    ensures settlement { IsNotGone (before_first side.Peer log.now) (removed update.now)
        → IfOk result (λ s. s ≡ settlement_by log.now.own update.now) }
    ensures fails_for_memory_alone { IfErr result (λ r. r ≡ Refusal.Memory) }
{
    let Some(removal) = removal_of(update) else {
        return Ok(None);
    };
    let Some(origin) = origin_of(log, removal.id) else {
        return Ok(None);
    };
    Ok(Some(Settlement {
        id: removal.id,
        origin,
        removal: update.clone()?,
    }))
}

// Whether a result is of another HTLC than this own one.
fn is_not_of(id: u64, settlement: &Settlement) -> bool
    ensures { result ≡ is_not_of id settlement.now }
{
    settlement.id != id
}

// Whether an HTLC of the peer's that a decision is about is none of these.
fn is_open(ids: &BTreeSet<u64>, decision: &Decision) -> bool
    ensures { (us : List Update) → AreRemoved ids.now us → result ≡ is_open us decision.now }
{
    !ids.contains(&decision.id)
}

impl EventLedger {
    ghost use Rattle.std.specs.Prelude.{◌≡◌, ◌+◌, ◌<◌, ◌^◌, ◌++◌, ◌∷◌, [], length, OnOk, IfErr};
    ghost use Rattle.ln_log.specs.declared.update.Update.{Update};
    ghost use Rattle.ln_hooks.specs.declared.event.ChannelEvent.TheVariants as event;
    ghost use Rattle.ln_log.specs.declared.mark.EventRef.TheVariants as ref;
    ghost use Rattle.ln_channel.specs.declared.output.Output.TheVariants as output;
    ghost use Rattle.ln_channel.specs.Ledger.{no_events, next_event, refs_of, entered};
    ghost use Rattle.ln_channel.specs.Outputs.{events_of, numbered};

    /// No events yet. Takes no memory.
    pub(crate) fn new(alloc: Global) -> EventLedger
        ensures { result ≡ no_events }
    {
        EventLedger {
            decided: 0,
            undecided: Vec::new(alloc),
            decisions: Vec::new(alloc),
            results: Vec::new(alloc),
        }
    }

    /// The number of the next event.
    pub(crate) fn next(&self) -> u64
        ensures { result ≡ next_event self.now }
    {
        self.decided + self.undecided.as_slice().len() as u64
    }

    // Enters an event, and tells it by its number.
    fn enter(
        &mut self,
        entry: EventRef,
        event: ChannelEvent,
        outbox: &mut Outbox,
    ) -> Result<(), Refusal>
        ensures entered { OnOk result (self.new ≡ entered (entry ∷ []) self.old) }
        ensures told { OnOk result (outbox.new ≡ record {
          sent = outbox.old.sent;
          told = outbox.old.told ++ output.Event (next_event self.old) event ∷ [];
        }) }
        ensures fails_for_memory_alone { IfErr result (λ r. r ≡ Refusal.Memory) }
    {
        outbox.report(Output::Event(self.next(), event))?;
        self.undecided.push(entry)?;
        Ok(())
    }

    /// Enters and tells the events of updates of one side, the first of which has this number.
    pub(crate) fn enter_all(
        &mut self,
        alloc: Global,
        own: bool,
        first: usize,
        updates: &[Update],
        outbox: &mut Outbox,
    ) -> Result<(), Refusal>
        requires { first + length updates.now < 2 ^ 64 }
        ensures entered { OnOk result (self.new ≡ entered (refs_of own first updates.now) self.old) }
        ensures told { OnOk result (outbox.new ≡ record {
          sent = outbox.old.sent;
          told = outbox.old.told ++ numbered (next_event self.old) (events_of own updates.now);
        }) }
        ensures fails_for_memory_alone { IfErr result (λ r. r ≡ Refusal.Memory) }
    {
        let mut number = first as u64;
        for update in updates {
            match event_of(alloc, own, update)? {
                None => {}
                Some(event) => self.enter(ref_of(own, number), event, outbox)?,
            }
            number += 1;
        }
        Ok(())
    }

    /// Enters the close at this fee, in satoshis, which is the last event, and tells it.
    pub(crate) fn enter_close(&mut self, fee: u64, outbox: &mut Outbox) -> Result<(), Refusal>
        ensures entered { OnOk result (self.new ≡ entered (ref.Close ∷ []) self.old) }
        ensures told { OnOk result (outbox.new ≡ record {
          sent = outbox.old.sent;
          told = (outbox.old.told ++ output.Event (next_event self.old) (event.Closed fee) ∷ [])
              ++ output.Closed fee ∷ [];
        }) }
        ensures fails_for_memory_alone { IfErr result (λ r. r ≡ Refusal.Memory) }
    {
        self.enter(EventRef::Close, ChannelEvent::Closed(fee), outbox)?;
        outbox.report(Output::Closed(fee))
    }
}

impl EventLedger {
    ghost use Rattle.std.specs.Prelude.{◌≡◌, ◌<◌, ◌∷◌, [], List, length, Ok, OnOk, IfErr};
    ghost use Rattle.ln_log.specs.declared.update.Update.{Update};
    ghost use Rattle.ln_log.specs.Outcomes.{AreRemoved};
    ghost use Rattle.ln_channel.specs.Base.{without_removed};
    ghost use Rattle.ln_log.specs.declared.log.Side.TheVariants as side;
    ghost use Rattle.ln_log.specs.Updates.{removed};
    ghost use Rattle.ln_log.specs.Log.{before_first, IsNotGone, AreNotGone};
    ghost use Rattle.ln_bytes.specs.Answers.{Leaves};
    ghost use Rattle.ln_channel.specs.Opening.{Lacks};
    ghost use Rattle.ln_channel.specs.Ledger.{most_decided, resulted, marked, decided_first, is_in_turn, decide_row};
    ghost use Rattle.ln_channel.specs.Ledger.{forgotten, resume_held_row};

    // Keeps what became of the own HTLC that this update removes, where none that has left the window does.
    fn keep_result(&mut self, log: &UpdateLog, update: &Update) -> Result<(), Refusal>
        ensures kept { IsNotGone (before_first side.Peer log.now) (removed update.now)
            → OnOk result (self.new ≡ resulted log.now.own (update.now ∷ []) self.old) }
        ensures fails_for_memory_alone { IfErr result (λ r. r ≡ Refusal.Memory) }
    {
        match settlement_by(log, update)? {
            None => {}
            Some(settlement) => self.results.push(settlement)?,
        }
        Ok(())
    }

    /// Keeps what became of the own HTLCs that these updates of the peer's remove, where none that has left the window
    /// does.
    pub(crate) fn keep_results(
        &mut self,
        log: &UpdateLog,
        updates: &[Update],
    ) -> Result<(), Refusal>
        ensures kept { AreNotGone (before_first side.Peer log.now) updates.now
            → OnOk result (self.new ≡ resulted log.now.own updates.now self.old) }
        ensures fails_for_memory_alone { IfErr result (λ r. r ≡ Refusal.Memory) }
    {
        for update in updates {
            self.keep_result(log, update)?;
        }
        Ok(())
    }

    // Whether this is the number of the first undecided event.
    fn is_in_turn(&self, event: u64) -> bool
        ensures { result ≡ is_in_turn event self.now }
    {
        event == self.decided && event < MOST_DECIDED && !self.undecided.as_slice().is_empty()
    }

    // Keeps a mark other than `None`, with its HTLC; 40 where it has none.
    fn keep_mark(&mut self, mark: Mark, htlc: Option<u64>) -> Result<(), Refusal>
        ensures marked { Leaves Lacks (λ x. self.new) (λ r. self.new ≡ self.old) (marked mark htlc self.old) result }
        ensures same_events { (self.new.decided ≡ self.old.decided) × (self.new.undecided ≡ self.old.undecided) }
    {
        match mark {
            Mark::None => Ok(()),
            mark => {
                let Some(id) = htlc else {
                    drop(mark);
                    return Err(Refusal::NotReady);
                };
                self.decisions.push(Decision { id, mark })?;
                Ok(())
            }
        }
    }

    // The first undecided event, of which there is one, is decided.
    fn decide_first(&mut self)
        requires count { self.old.decided < most_decided }
        requires some { 0 < length self.old.undecided }
        ensures { Ok self.new ≡ decided_first (Ok self.old) }
    {
        self.undecided.remove(0);
        self.decided += 1;
    }

    /// The event of this number, which tells of this HTLC of the peer's, if of one, is decided so. Errors: 40 where
    /// it isn't the first undecided event, or a mark other than `None` has no HTLC; 60. Where it refuses nothing has
    /// changed.
    pub(crate) fn decide(
        &mut self,
        event: u64,
        mark: Mark,
        htlc: Option<u64>,
    ) -> Result<(), Refusal>
        ensures { Leaves Lacks (λ x. self.new) (λ r. self.new ≡ self.old) (decide_row event mark htlc self.old)
            result }
    {
        if !self.is_in_turn(event) || !is_of_event(event, &mark) {
            drop(mark);
            return Err(Refusal::NotReady);
        }
        self.keep_mark(mark, htlc)?;
        self.decide_first();
        Ok(())
    }

    /// What is done about an HTLC that is held by the number of this event takes the place of that. Takes no memory.
    /// Error: 40 where none is held so, or it is to be held again, or nothing is to be done; then nothing has changed.
    pub(crate) fn resume(&mut self, event: u64, mark: Mark) -> Result<(), Refusal>
        ensures resumed { Leaves Lacks (λ x. self.new) (λ r. self.new ≡ self.old) (resume_held_row event mark self.old)
            result }
        ensures refused_by_40_alone { IfErr result (λ r. r ≡ Refusal.NotReady) }
    {
        if !is_answer(&mark) {
            drop(mark);
            return Err(Refusal::NotReady);
        }
        if put_mark(&mut self.decisions, event, mark) {
            Ok(())
        } else {
            Err(Refusal::NotReady)
        }
    }

    /// The decisions on HTLCs of the peer's with these ids are left out. Takes no memory, and time that grows linearly
    /// with the decisions, but for a look into the ids.
    pub(crate) fn leave_out_removed(&mut self, ids: &BTreeSet<u64>)
        ensures { (us : List Update) → AreRemoved ids.now us → self.new ≡ without_removed us self.old }
    {
        leave_out_removed(&mut self.decisions, ids);
    }

    /// The results of this own HTLC are left out. Takes no memory.
    pub(crate) fn forget(&mut self, id: u64)
        ensures { self.new ≡ forgotten id self.old }
    {
        leave_out(&mut self.results, id);
    }
}

impl EventLedger {
    ghost use Rattle.std.specs.Prelude.{◌≡◌, ◌≤◌};
    ghost use Rattle.ln_channel.specs.Ledger.{most_decided};

    /// So many decided events, 2^63 + 1 at most, and these undecided ones after them; these decisions and results.
    /// Takes no memory.
    pub fn from_parts(
        decided: u64,
        undecided: Vec<EventRef>,
        decisions: Vec<Decision>,
        results: Vec<Settlement>,
    ) -> EventLedger
        requires { decided ≤ most_decided }
        ensures { result ≡ record {
          decided = decided;
          undecided = undecided.items;
          decisions = decisions.items;
          results = results.items;
        } }
    {
        EventLedger {
            decided,
            undecided,
            decisions,
            results,
        }
    }

    /// How many were decided.
    pub fn decided(&self) -> u64
        ensures { result ≡ self.now.decided }
    {
        self.decided
    }

    /// The undecided ones in their order.
    pub fn undecided(&self) -> &[EventRef]
        ensures { result.now ≡ self.now.undecided }
    {
        self.undecided.as_slice()
    }

    /// What was decided about HTLCs of the peer's, in the order of deciding.
    pub fn decisions(&self) -> &[Decision]
        ensures { result.now ≡ self.now.decisions }
    {
        self.decisions.as_slice()
    }

    /// What became of own HTLCs that forward others, in the order in which it came.
    pub fn results(&self) -> &[Settlement]
        ensures { result.now ≡ self.now.results }
    {
        self.results.as_slice()
    }
}

// Whether a mark that holds an HTLC does so by the number of this event.
fn is_of_event(event: u64, mark: &Mark) -> bool
    ensures { result ≡ is_of_event event mark.now }
{
    !mark.is_held() || mark.is_held_by(event)
}

// Where the first decision stands that is held by the number of this event.
fn held_at(decisions: &[Decision], event: u64) -> Option<usize>
    ensures { result ≡ position (is_held_at event) decisions.now }
{
    decisions
        .iter()
        .position(|decision| decision.mark.is_held_by(event))
}

// Whether a mark says what becomes of an HTLC.
fn is_answer(mark: &Mark) -> bool
    ensures { result ≡ is_answer mark.now }
{
    match mark {
        Mark::None | Mark::Held(_) => false,
        Mark::Forward { .. } | Mark::Fail(_) | Mark::Malformed(_) | Mark::Fulfil(_) => true,
    }
}

// The first decision that is held by the number of this event gets the mark. Says whether there is one. Takes no
// memory.
fn put_mark(decisions: &mut Vec<Decision>, event: u64, mark: Mark) -> bool
    ensures tells_it { result ≡ list_any (is_held_at event) decisions.old.items }
    ensures put { IsTrue result → decisions.new.items ≡ with_mark event mark decisions.old.items }
    ensures changes_nothing { result ≡ false → decisions.new.items ≡ decisions.old.items }
{
    let Some(place) = held_at(decisions.as_slice(), event) else {
        drop(mark);
        return false;
    };
    let decision = &mut decisions[place];
    decision.mark = mark;
    true
}

// All decisions but those on HTLCs of these ids. Takes no memory.
fn leave_out_removed(decisions: &mut Vec<Decision>, ids: &BTreeSet<u64>)
    ensures { (us : List Update) → AreRemoved ids.now us
        → decisions.new.items ≡ filter (is_open us) decisions.old.items }
{
    decisions.retain(|decision| is_open(ids, decision));
}

// All results but those of this own HTLC. Takes no memory.
fn leave_out(results: &mut Vec<Settlement>, id: u64)
    ensures { results.new.items ≡ filter (is_not_of id) results.old.items }
{
    results.retain(|settlement| is_not_of(id, settlement));
}
