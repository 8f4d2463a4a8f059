//! The events of an end that its host hasn't decided.

ghost use Rattle.std.specs.Prelude.{◌≡◌, ℕ, true, false, Some, IfOk, IfErr, IfSome, option_copied};
ghost use Rattle.ln_refusals.specs.declared.refusal.Refusal.TheVariants as refusal;
ghost use Rattle.ln_log.specs.Log.{first_of, updates_of, update_at};
ghost use Rattle.ln_hooks.specs.Event.{event_of};
ghost use Rattle.ln_channel.specs.Pending.{event_in, named_by};
ghost use Rattle.ln_manager_channels.specs.Events.{event_count, first_named, entry_at, told_event};
ghost use Rattle.ln_manager_channels.specs.Events.{held_count, held_update, held_event};

use ln_channel::Channel;
use ln_hooks::{ChannelEvent, event_of};
use ln_log::{EventRef, Pair, Side, Update, UpdateLog};
use ln_refusals::Refusal;
use std::alloc::Global;

/// How many events an end has told; 2^64 - 1 for more. Takes no memory.
pub fn event_count(end: Option<&Channel>) -> u64
    ensures { result ≡ event_count (option_copied end.entry) }
{
    match end {
        None => 0,
        Some(end) => {
            let ledger = end.ledger();
            ledger
                .decided()
                .saturating_add(ledger.undecided().len() as u64)
        }
    }
}

// The event of an update, where there is one. Error: 60 alone.
fn event_in(
    alloc: Global,
    own: bool,
    update: Option<&Update>,
) -> Result<Option<ChannelEvent>, Refusal>
    ensures event { IfOk result (λ e. e ≡ event_in own (option_copied update.entry)) }
    ensures fails_for_memory_alone { IfErr result (λ r. r ≡ refusal.Memory) }
{
    match update {
        None => Ok(None),
        Some(update) => event_of(alloc, own, update),
    }
}

// The event of the update of this number of a side, where there is one. Error: 60 alone.
fn event_at(
    alloc: Global,
    log: &UpdateLog,
    side: Side,
    own: bool,
    number: u64,
) -> Result<Option<ChannelEvent>, Refusal>
    ensures event { IfOk result (λ e. e ≡ event_in own (update_at (first_of side log.now) (updates_of side log.now)
        number)) }
    ensures fails_for_memory_alone { IfErr result (λ r. r ≡ refusal.Memory) }
{
    event_in(alloc, own, log.update(side, number as usize))
}

// The event that an entry of the ledger names. Error: 60 alone.
fn event_named(
    alloc: Global,
    end: &Channel,
    entry: EventRef,
) -> Result<Option<ChannelEvent>, Refusal>
    ensures event { IfOk result (λ e. e ≡ named_by entry end.now) }
    ensures fails_for_memory_alone { IfErr result (λ r. r ≡ refusal.Memory) }
{
    match entry {
        EventRef::Own(number) => event_at(alloc, end.dance().log(), Side::Own, true, number),
        EventRef::Peer(number) => event_at(alloc, end.dance().log(), Side::Peer, false, number),
        EventRef::Close => match end.closing().closed {
            None => Ok(None),
            Some(fee) => Ok(Some(ChannelEvent::Closed(fee))),
        },
    }
}

/// The first event that an end hasn't decided. Takes memory for it. Error: 60 alone.
pub fn first_event(alloc: Global, end: &Channel) -> Result<Option<ChannelEvent>, Refusal>
    ensures event { IfOk result (λ e. e ≡ first_named end.now.ledger.undecided end.now) }
    ensures fails_for_memory_alone { IfErr result (λ r. r ≡ refusal.Memory) }
{
    match end.ledger().undecided() {
        [] => Ok(None),
        [entry, ..] => event_named(alloc, end, *entry),
    }
}

// The entry of this number among those that aren't decided.
fn entry_at(end: &Channel, number: u64) -> Option<EventRef>
    ensures { result ≡ entry_at number end.now.ledger }
{
    let before = end.ledger().decided();
    if number < before {
        return None;
    }
    end.ledger()
        .undecided()
        .get((number - before) as usize)
        .copied()
}

// How many updates of a side a log holds as irrevocably committed.
fn held_count(log: &UpdateLog, side: Side) -> usize
    ensures { result ≡ held_count side log.now }
{
    match side {
        Side::Own => log.counts(Pair::Current(Side::Own)).own,
        Side::Peer => log.counts(Pair::Current(Side::Peer)).peer,
    }
}

// The update of this number of a side that a log holds as irrevocably committed.
fn held_update(log: &UpdateLog, side: Side, number: u64) -> Option<&Update>
    ensures { option_copied result ≡ held_update side number log.now }
{
    if number >= held_count(log, side) as u64 {
        return None;
    }
    log.update(side, number as usize)
}

// The event of the update of this number of a side that a log holds as irrevocably committed. Error: 60 alone.
fn held_at(
    alloc: Global,
    log: &UpdateLog,
    side: Side,
    own: bool,
    number: u64,
) -> Result<Option<ChannelEvent>, Refusal>
    ensures event { IfOk result (λ e. e ≡ event_in own (held_update side number log.now)) }
    ensures fails_for_memory_alone { IfErr result (λ r. r ≡ refusal.Memory) }
{
    event_in(alloc, own, held_update(log, side, number))
}

// The event that an entry of the ledger names, where the end holds it as irrevocably committed. Error: 60 alone.
fn held_event(
    alloc: Global,
    end: &Channel,
    entry: EventRef,
) -> Result<Option<ChannelEvent>, Refusal>
    ensures event { IfOk result (λ e. e ≡ held_event entry end.now) }
    ensures fails_for_memory_alone { IfErr result (λ r. r ≡ refusal.Memory) }
{
    match entry {
        EventRef::Own(number) => held_at(alloc, end.dance().log(), Side::Own, true, number),
        EventRef::Peer(number) => held_at(alloc, end.dance().log(), Side::Peer, false, number),
        EventRef::Close => Ok(None),
    }
}

/// The event of this number, of those that an end hasn't decided, where it is an update that the end holds as
/// irrevocably committed. Takes memory for it. Error: 60 alone.
pub fn told_event(
    alloc: Global,
    end: &Channel,
    number: u64,
) -> Result<Option<ChannelEvent>, Refusal>
    ensures event { IfOk result (λ e. e ≡ told_event number end.now) }
    ensures fails_for_memory_alone { IfErr result (λ r. r ≡ refusal.Memory) }
{
    match entry_at(end, number) {
        None => Ok(None),
        Some(entry) => held_event(alloc, end, entry),
    }
}
