//! What a book is told of a channel's end.

ghost use Rattle.std.specs.Prelude.{◌≡◌, ◌++◌, ◌-◌, OnOk, IfOk, IfErr, option_copied};
ghost use Rattle.ln_refusals.specs.declared.refusal.Refusal.TheVariants as refusal;
ghost use Rattle.ln_world_dispatch.specs.World.{undecided};
ghost use Rattle.ln_world.specs.BookReports.{done_by, answer_by, byte_at, choice_of, noted_of, noted_line};
ghost use Rattle.ln_world.specs.BookReports.{decided_line};
ghost use Rattle.ln_world.specs.BookReports.{event_count, with_event, with_events, with_held};

use crate::follow_up::DecisionNote;
use ln_book::{Book, answer_to};
use ln_channel::{Channel as ChannelEnd, Command};
use ln_log::{ChannelId, Mark};
use ln_refusals::Refusal;
use ln_world_dispatch::{Choice, End, Line, undecided};
use std::alloc::Global;

// Whether an end has done what it was commanded, by what is told of that.
fn done_by(told: &[Line]) -> Result<(), Refusal>
    ensures { result ≡ done_by told.now }
{
    match told {
        [Line::Refused(_, refusal), ..] => Err(*refusal),
        [Line::Idle, ..] => Err(Refusal::NotReady),
        _ => Ok(()),
    }
}

/// What the book of an end is told of a command that was about this, by what is told of it.
pub(crate) fn answer_by(id: u64, told: &[Line]) -> Result<u64, u16>
    ensures { result ≡ answer_by id told.now }
{
    answer_to(id, done_by(told))
}

fn byte_at(place: usize, bytes: &[u8]) -> u8
    ensures { result ≡ byte_at place bytes.now }
{
    if place < bytes.len() { bytes[place] } else { 0 }
}

// A decision, by what a report tells of it.
fn choice_of(mark: &Mark) -> Choice
    ensures { result ≡ choice_of mark.now }
{
    match mark {
        Mark::None => Choice::None,
        Mark::Forward { channel, .. } => Choice::Forward(byte_at(31, channel)),
        Mark::Fail(reason) => {
            let first = byte_at(0, reason.as_slice()) as u16;
            let second = byte_at(1, reason.as_slice()) as u16;
            Choice::Fail(256 * first + second)
        }
        Mark::Malformed(code) => Choice::Malformed(*code),
        Mark::Fulfil(_) => Choice::Fulfil,
        Mark::Held(_) => Choice::Held,
    }
}

/// What is told of a decision, if a command is one: the event's number, and what is done about it.
pub(crate) fn noted_of(command: &Command) -> Option<DecisionNote>
    ensures { result ≡ noted_of command.now }
{
    match command {
        Command::Decide { event, mark } => Some(DecisionNote::Decided(*event, choice_of(mark))),
        Command::Resume { event, mark } => Some(DecisionNote::Resumed(*event, choice_of(mark))),
        _ => None,
    }
}

fn noted_line(end: End, noted: DecisionNote) -> Line
    ensures { result ≡ noted_line end noted }
{
    match noted {
        DecisionNote::Decided(event, choice) => Line::Decided(end, event, choice),
        DecisionNote::Resumed(event, choice) => Line::Resumed(end, event, choice),
    }
}

/// Tells of a decision that an end has taken. 60 where there is no memory.
pub(crate) fn report_decided(
    end: End,
    noted: Option<DecisionNote>,
    answer: Result<u64, u16>,
    lines: &mut Vec<Line>,
) -> Result<(), Refusal>
    ensures told { OnOk result (lines.new.items ≡ lines.old.items ++ decided_line end noted answer) }
    ensures fails_for_memory_alone { IfErr result (λ e. e ≡ refusal.Memory) }
{
    if let (Some(noted), Ok(_)) = (noted, answer) {
        lines.push(noted_line(end, noted))?;
    }
    Ok(())
}

/// How many events an end has told. 60 where there are 2^64 of them.
pub(crate) fn event_count(end: Option<&ChannelEnd>) -> Result<u64, Refusal>
    ensures count { IfOk result (λ n. n ≡ event_count (option_copied end.entry)) }
    ensures fails_for_memory_alone { IfErr result (λ e. e ≡ refusal.Memory) }
{
    match end {
        None => Ok(0),
        Some(end) => {
            let ledger = end.ledger();
            match ledger
                .decided()
                .checked_add(ledger.undecided().len() as u64)
            {
                Some(count) => Ok(count),
                None => Err(Refusal::Memory),
            }
        }
    }
}

// The book is told of the event of this number, where the end holds it. 60 where there is no memory.
fn on_event(
    alloc: Global,
    book: &mut Book,
    id: ChannelId,
    end: &ChannelEnd,
    number: u64,
) -> Result<(), Refusal>
    ensures reported { OnOk result (book.new ≡ with_event id (undecided number end.now) book.old) }
    ensures fails_for_memory_alone { IfErr result (λ e. e ≡ refusal.Memory) }
{
    match undecided(alloc, end, number)? {
        None => Ok(()),
        Some(event) => book.settled(alloc, id, &event),
    }
}

// The book is told of the events from this number on, up to this count.
fn on_events(
    alloc: Global,
    book: &mut Book,
    id: ChannelId,
    end: &ChannelEnd,
    before: u64,
    count: u64,
) -> Result<(), Refusal>
    ensures reported { OnOk result (book.new ≡ with_events id before (count - before) end.now book.old) }
    ensures fails_for_memory_alone { IfErr result (λ e. e ≡ refusal.Memory) }
{
    for number in before..count {
        on_event(alloc, book, id, end, number)?;
    }
    Ok(())
}

/// The book of a channel's node is told what the end has come to hold, which had told so many events before. 60 where
/// there is no memory.
pub(crate) fn report_held(
    alloc: Global,
    book: &mut Book,
    id: ChannelId,
    end: Option<&ChannelEnd>,
    before: u64,
) -> Result<(), Refusal>
    ensures reported { OnOk result (book.new ≡ with_held id before (option_copied end.entry) book.old) }
    ensures fails_for_memory_alone { IfErr result (λ e. e ≡ refusal.Memory) }
{
    match end {
        None => Ok(()),
        Some(end) => {
            let count = event_count(Some(end))?;
            on_events(alloc, book, id, end, before, count)
        }
    }
}
