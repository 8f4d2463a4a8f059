//! Lines of many channels, and the batches of records that stand before their messages.

ghost use Rattle.std.specs.Prelude.{◌≡◌, slice_get};
ghost use Rattle.ln_batches.specs.Queues.{row_closed, rows_closed, row_saved, rows_saved};

use crate::filled::FilledBy;
use crate::row::{Row, Waiting};
use ln_refusals::Refusal;
use std::alloc::{AllocError, Global};
use std::collections::VecDeque;
use std::marker::Model;
use std::mem;

/// Lines in which the messages of many channels wait to leave, each in its channel's order, and the batches of records
/// that stand before them. A record that changes belongs to the open batch, until that is closed for its host to save,
/// one batch at a time; a message leaves once all records are saved that had changed as it came, of whatever channel.
/// Channels are told by their numbers, 0, 1, .. in the order in which they came.
#[derive(Drop)]
pub struct Lines<M: Drop> {
    rows: Vec<Row<M>>,
    next_number: u64,
    records: u64,
    closed_records: u64,
    saved_records: u64,
    batches: u64,
    open_channels: Vec<usize>,
    closed_channels: Vec<usize>,
    // The channels that may have a message for the host; those whose first one waits for a batch.
    listed: VecDeque<usize>,
    delayed: Vec<usize>,
}

impl<M: Drop> Model for Lines<M> {
    ghost use Rattle.ln_batches.specs.Queues.{Queues};

    ghost Value = { Queues M };

    ghost view = { λ l. record {
      rows = l.rows.items;
      next_number = l.next_number;
      records = l.records;
      closed_records = l.closed_records;
      saved_records = l.saved_records;
      batches = l.batches;
      open_channels = l.open_channels.items;
      closed_channels = l.closed_channels.items;
    } };
}

impl<M: Drop> Lines<M> {
    ghost use Rattle.std.specs.Prelude.{◌≡◌, Some, None, true, false, OnOk, OnErr, IfOk, IfErr, IfSome, IsErrOf};
    ghost use Rattle.std.specs.Prelude.{option_copied, ◌↔◌, ◌⊎◌, ◌&&◌, IfNone};
    ghost use Rattle.ln_batches.specs.Queues.{no_queue, with_channel, changed, pushed, lost, first_at, may_leave};
    ghost use Rattle.ln_batches.specs.Queues.{is_out};
    ghost use Rattle.ln_batches.specs.Queues.{handed, is_with_host, sent, can_close, closed, saved, is_closed};
    ghost use Rattle.ln_batches.specs.Queues.{saved_events, last_number, IsSpent};

    /// Of no channel. Takes no memory.
    pub fn new(alloc: Global) -> Lines<M>
        ensures { result ≡ no_queue }
    {
        Lines {
            rows: Vec::new(alloc),
            next_number: 0,
            records: 0,
            closed_records: 0,
            saved_records: 0,
            batches: 0,
            open_channels: Vec::new(alloc),
            closed_channels: Vec::new(alloc),
            listed: VecDeque::new(alloc),
            delayed: Vec::new(alloc),
        }
    }

    /// A line for the next channel, whose saved record tells of so many events, and room for it in each batch. Error:
    /// 60 alone.
    pub fn add(&mut self, alloc: Global, events: u64) -> Result<(), Refusal>
        ensures added { OnOk result (self.new ≡ with_channel events self.old) }
        ensures changes_nothing_if_refused { OnErr result (self.new ≡ self.old) }
        ensures fails_for_memory_alone { IfErr result (λ r. r ≡ Refusal.Memory) }
    {
        make_room(&mut self.open_channels, self.rows.len())?;
        make_room(&mut self.closed_channels, self.rows.len())?;
        self.rows.push(Row {
            messages: VecDeque::new(alloc),
            is_out: false,
            is_changed: false,
            events,
            closed_events: events,
            saved_events: events,
            is_listed: false,
        })?;
        Ok(())
    }

    /// The record of a channel has changed, and tells of so many events: it belongs to the open batch. Nothing happens
    /// where there is no such channel.
    ///
    /// Errors: 46 where 2^64 - 1 records have changed; 60, for which no contract says that `add` has made room. Nothing
    /// has changed then.
    pub fn change(&mut self, channel: usize, events: u64) -> Result<(), Refusal>
        ensures changed { OnOk result (self.new ≡ changed channel events self.old) }
        ensures refuses_for_a_reason { IfErr result (IsSpent self.old.records) }
        ensures changes_nothing_if_refused { OnErr result (self.new ≡ self.old) }
    {
        let Some(row) = self.rows.get_mut(channel) else {
            return Ok(());
        };
        if self.records == u64::MAX {
            return Err(Refusal::NumbersSpent);
        }
        if !row.is_changed {
            self.open_channels.push(channel)?;
        }
        row.is_changed = true;
        row.events = events;
        self.records += 1;
        Ok(())
    }

    // A channel may have a message for the host.
    fn list(&mut self, channel: usize) -> Result<(), Refusal>
        ensures nothing_is_seen_of_it { self.new ≡ self.old }
        ensures fails_for_memory_alone { IfErr result (λ r. r ≡ Refusal.Memory) }
    {
        let Some(row) = self.rows.get_mut(channel) else {
            return Ok(());
        };
        if !row.is_listed {
            self.listed.push_back(channel)?;
            row.is_listed = true;
        }
        Ok(())
    }

    /// A message waits to leave, after all others of its channel. Nothing happens where there is no such channel.
    ///
    /// Errors: 60, and 46 where 2^64 - 1 messages have come; nothing has changed then.
    pub fn push(&mut self, channel: usize, message: M) -> Result<(), Refusal>
        ensures pushed { OnOk result (self.new ≡ pushed channel message self.old) }
        ensures refuses_for_a_reason { IfErr result (IsSpent self.old.next_number) }
        ensures changes_nothing_if_refused { OnErr result (self.new ≡ self.old) }
    {
        if let Err(refusal) = self.list(channel) {
            drop(message);
            return Err(refusal);
        }
        let Some(row) = self.rows.get_mut(channel) else {
            drop(message);
            return Ok(());
        };
        if self.next_number == u64::MAX {
            drop(message);
            return Err(Refusal::NumbersSpent);
        }
        row.messages.push_back(Waiting {
            number: self.next_number,
            records: self.records,
            message,
        })?;
        self.next_number += 1;
        Ok(())
    }

    /// The connection of a channel is lost, and with it the messages that wait. Takes no memory.
    pub fn lose(&mut self, channel: usize)
        ensures { self.new ≡ lost channel self.old }
    {
        if let Some(row) = self.rows.get_mut(channel) {
            row.messages.clear();
            row.is_out = false;
        }
    }

    /// The first message of a channel. Takes no memory.
    pub fn first(&self, channel: usize) -> Option<&Waiting<M>>
        ensures { option_copied result ≡ first_at channel self.now }
    {
        match self.rows.get(channel) {
            None => None,
            Some(row) => row.messages.front(),
        }
    }

    // Whether the first message of a channel may leave.
    fn may_leave(&self, channel: usize) -> bool
        ensures { result ≡ may_leave self.now (first_at channel self.now) }
    {
        match self.first(channel) {
            None => false,
            Some(waiting) => waiting.records <= self.saved_records,
        }
    }

    // Whether the first message of a channel is with the host.
    fn is_out(&self, channel: usize) -> bool
        ensures { result ≡ is_out channel self.now }
    {
        match self.rows.get(channel) {
            None => false,
            Some(row) => row.is_out,
        }
    }

    // The first message of a channel is with the host.
    fn hand_out(&mut self, channel: usize)
        ensures { self.new ≡ handed channel self.old }
    {
        if let Some(row) = self.rows.get_mut(channel) {
            row.is_out = true;
        }
    }

    // A channel isn't listed any more.
    fn unlist(&mut self, channel: usize)
        ensures { self.new ≡ self.old }
    {
        if let Some(row) = self.rows.get_mut(channel) {
            row.is_listed = false;
        }
    }

    // A channel whose first message waits for a batch is listed once that is saved.
    fn delay(&mut self, channel: usize) -> Result<(), Refusal>
        ensures nothing_is_seen_of_it { self.new ≡ self.old }
        ensures fails_for_memory_alone { IfErr result (λ r. r ≡ Refusal.Memory) }
    {
        if self.first(channel).is_some() && !self.is_out(channel) {
            self.delayed.push(channel)?;
            return Ok(());
        }
        self.unlist(channel);
        Ok(())
    }

    /// The channel whose first message is handed to the host next: one that may leave. None where there is none that
    /// isn't with it. Error: 60 alone, and nothing has changed.
    pub fn next(&mut self) -> Result<Option<usize>, Refusal>
        ensures hands_out_what_may_leave { IfOk result (λ o. IfSome o (λ c. (may_leave self.old (first_at c self.old)
            ≡ true) × (self.new ≡ handed c self.old))) }
        ensures hands_out_once { IfOk result (λ o. IfSome o (λ c. is_out c self.old ≡ false)) }
        ensures or_nothing { IfOk result (λ o. IfNone o (self.new ≡ self.old)) }
        ensures changes_nothing_if_refused { OnErr result (self.new ≡ self.old) }
        ensures fails_for_memory_alone { IfErr result (λ r. r ≡ Refusal.Memory) }
    {
        for _ in 0..u64::MAX {
            let Some(channel) = self.listed.front().copied() else {
                return Ok(None);
            };
            if self.may_leave(channel) && !self.is_out(channel) {
                drop(self.listed.pop_front());
                self.unlist(channel);
                self.hand_out(channel);
                return Ok(Some(channel));
            }
            self.delay(channel)?;
            drop(self.listed.pop_front());
        }
        Ok(None)
    }

    /// Whether the message of this number is the first of a channel, and with the host. Takes no memory.
    pub fn is_with_host(&self, channel: usize, number: u64) -> bool
        ensures { result ≡ is_with_host channel number self.now }
    {
        match self.rows.get(channel) {
            None => false,
            Some(row) => match row.messages.front() {
                None => false,
                Some(waiting) => row.is_out && waiting.number == number,
            },
        }
    }

    /// The message of this number, which is with the host, has left.
    ///
    /// Errors: 40 where it isn't the first of the channel, isn't with the host, or may not leave; 60. Nothing has
    /// changed then.
    pub fn send(&mut self, channel: usize, number: u64) -> Result<(), Refusal>
        ensures has_left { OnOk result (self.new ≡ sent channel self.old) }
        ensures only_what_may { OnOk result ((is_with_host channel number self.old ≡ true)
            × (may_leave self.old (first_at channel self.old) ≡ true)) }
        ensures refuses_for_a_reason { IfErr result (λ e. (e ≡ Refusal.Memory) ⊎ ((e ≡ Refusal.NotReady)
            × ((is_with_host channel number self.old && may_leave self.old (first_at channel self.old)) ≡ false))) }
        ensures changes_nothing_if_refused { OnErr result (self.new ≡ self.old) }
    {
        if !self.is_with_host(channel, number) || !self.may_leave(channel) {
            return Err(Refusal::NotReady);
        }
        self.list(channel)?;
        if let Some(row) = self.rows.get_mut(channel) {
            drop(row.messages.pop_front());
            row.is_out = false;
        }
        Ok(())
    }

    /// Whether a batch can be closed: the one before it is saved, and a record has changed since. Takes no memory.
    pub fn can_close(&self) -> bool
        ensures { result ≡ can_close self.now }
    {
        self.closed_records == self.saved_records && !self.open_channels.is_empty()
    }

    /// The channels whose records stand in the open batch. Takes no memory.
    pub fn open_channels(&self) -> &[usize]
        ensures { result.now ≡ self.now.open_channels }
    {
        self.open_channels.as_slice()
    }

    /// Those in the closed one, while it isn't saved. Takes no memory.
    pub fn closed_channels(&self) -> &[usize]
        ensures { result.now ≡ self.now.closed_channels }
    {
        self.closed_channels.as_slice()
    }

    /// The open batch is closed: its number, from 1. Takes no memory.
    ///
    /// Errors: 40 where it can't be, 46 where 2^64 - 1 were; nothing has changed then.
    pub fn close(&mut self) -> Result<u64, Refusal>
        ensures closed { IfOk result (λ b. (self.new ≡ closed self.old) × (b ≡ self.new.batches)) }
        ensures refuses_if_it_cannot { IsErrOf result Refusal.NotReady ↔ (can_close self.old ≡ false) }
        ensures else_only_where_numbers_are_spent { IfErr result (λ e. (e ≡ Refusal.NotReady)
            ⊎ ((e ≡ Refusal.NumbersSpent) × (self.old.batches ≡ last_number))) }
        ensures changes_nothing_if_refused { OnErr result (self.new ≡ self.old) }
    {
        if !self.can_close() {
            return Err(Refusal::NotReady);
        }
        if self.batches == u64::MAX {
            return Err(Refusal::NumbersSpent);
        }
        close_rows(&mut self.rows, self.open_channels.as_slice());
        self.closed_channels.clear();
        mem::swap(&mut self.closed_channels, &mut self.open_channels);
        self.closed_records = self.records;
        self.batches += 1;
        Ok(self.batches)
    }

    // One of the channels that waited for a batch is listed.
    fn list_last(&mut self) -> Result<(), Refusal>
        ensures nothing_is_seen_of_it { self.new ≡ self.old }
        ensures fails_for_memory_alone { IfErr result (λ r. r ≡ Refusal.Memory) }
    {
        let Some(channel) = self.delayed.as_slice().last() else {
            return Ok(());
        };
        self.listed.push_back(*channel)?;
        drop(self.delayed.pop());
        Ok(())
    }

    // What waited for a batch is listed.
    fn list_delayed(&mut self) -> Result<(), Refusal>
        ensures nothing_is_seen_of_it { self.new ≡ self.old }
        ensures fails_for_memory_alone { IfErr result (λ r. r ≡ Refusal.Memory) }
    {
        for _ in 0..self.delayed.len() {
            self.list_last()?;
        }
        Ok(())
    }

    /// The closed batch is saved: what waited for it may leave.
    ///
    /// Errors: 40 where it isn't the one of this number, 60; nothing has changed then.
    pub fn save(&mut self, batch: u64) -> Result<(), Refusal>
        ensures saved { OnOk result (self.new ≡ saved self.old) }
        ensures only_the_closed_one { OnOk result (is_closed batch self.old ≡ true) }
        ensures refuses_for_a_reason { IfErr result (λ e. (e ≡ Refusal.Memory)
            ⊎ ((e ≡ Refusal.NotReady) × (is_closed batch self.old ≡ false))) }
        ensures changes_nothing_if_refused { OnErr result (self.new ≡ self.old) }
    {
        if self.closed_records == self.saved_records || batch != self.batches {
            return Err(Refusal::NotReady);
        }
        self.list_delayed()?;
        save_rows(&mut self.rows, self.closed_channels.as_slice());
        self.closed_channels.clear();
        self.saved_records = self.closed_records;
        Ok(())
    }

    /// How many events the saved record of a channel tells of. Takes no memory.
    pub fn saved_events(&self, channel: usize) -> u64
        ensures { result ≡ saved_events channel self.now }
    {
        match self.rows.get(channel) {
            None => 0,
            Some(row) => row.saved_events,
        }
    }
}

impl<M: Drop> Lines<M> {
    ghost use Rattle.std.specs.Prelude.{◌≡◌, OnOk, OnErr, IfErr};
    ghost use Rattle.ln_batches.specs.Queues.{filled};

    /// The first message of a channel is filled, and comes again. Error: 60 alone, and nothing has changed.
    pub fn fill<F: Drop>(&mut self, channel: usize, filling: F) -> Result<(), Refusal>
    where
        M: FilledBy<F>,
        ensures filled { OnOk result (self.new ≡ filled channel (M.filled filling) self.old) }
        ensures changes_nothing_if_refused { OnErr result (self.new ≡ self.old) }
        ensures fails_for_memory_alone { IfErr result (λ r. r ≡ Refusal.Memory) }
    {
        if let Err(refusal) = self.list(channel) {
            drop(filling);
            return Err(refusal);
        }
        let Some(row) = self.rows.get_mut(channel) else {
            drop(filling);
            return Ok(());
        };
        match row.messages.front_mut() {
            None => drop(filling),
            Some(waiting) => waiting.message.fill(filling),
        }
        row.is_out = false;
        Ok(())
    }
}

// Room for each of so many channels, and one more.
fn make_room(channels: &mut Vec<usize>, count: usize) -> Result<(), AllocError>
    ensures channels_stay { channels.new.items ≡ channels.old.items }
{
    let missing = count.saturating_sub(channels.len());
    channels.reserve(missing.saturating_add(1))
}

// The record of a channel stands in the closed batch.
fn close_row<M: Drop>(rows: &mut Vec<Row<M>>, channel: usize)
    ensures { rows.new.items ≡ row_closed (slice_get rows.old.items channel) channel rows.old.items }
{
    if let Some(row) = rows.get_mut(channel) {
        row.is_changed = false;
        row.closed_events = row.events;
    }
}

fn close_rows<M: Drop>(rows: &mut Vec<Row<M>>, channels: &[usize])
    ensures { rows.new.items ≡ rows_closed channels.now rows.old.items }
{
    for channel in channels {
        close_row(rows, *channel);
    }
}

// The record of a channel is saved.
fn save_row<M: Drop>(rows: &mut Vec<Row<M>>, channel: usize)
    ensures { rows.new.items ≡ row_saved (slice_get rows.old.items channel) channel rows.old.items }
{
    if let Some(row) = rows.get_mut(channel) {
        row.saved_events = row.closed_events;
    }
}

fn save_rows<M: Drop>(rows: &mut Vec<Row<M>>, channels: &[usize])
    ensures { rows.new.items ≡ rows_saved channels.now rows.old.items }
{
    for channel in channels {
        save_row(rows, *channel);
    }
}
