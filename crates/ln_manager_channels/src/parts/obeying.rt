//! What the book commands, and what is decided.

use crate::commands::{Due, is_decision, is_due, origin_of};
use crate::events::first_event;
use crate::given::{Given, done_of, given_of};
use crate::moves::halt_at;
use crate::parts::ChannelParts;
use ln_book::{answer_to, waits};
use ln_channel::Command;
use ln_hooks::{ChannelEvent, Verdict};
use ln_keys::{ChannelKeys, Onion};
use ln_log::{ChannelId, Mark};
use ln_refusals::Refusal;
use std::alloc::Global;

impl<K: ChannelKeys + Drop> ChannelParts<K> {
    ghost use Rattle.std.specs.Prelude.{◌≡◌, ◌⊎◌, None, slice_get, IfOk, IfErr, OnOk, OnErr};
    ghost use Rattle.ln_channel.specs.State.{halts};
    ghost use Rattle.ln_history.specs.History.{with_entry};
    ghost use Rattle.ln_book_tables.specs.declared.entry.Entry.TheVariants as entry;
    ghost use Rattle.ln_book_tables.specs.Replay.{table_of};
    ghost use Rattle.ln_book.specs.Marks.{offer_of, mark_of, decision};
    ghost use Rattle.ln_manager_channels.specs.declared.given.Given.TheVariants as given;
    ghost use Rattle.ln_manager_channels.specs.Commands as commands;
    ghost use Rattle.ln_manager_channels.specs.Events as events;
    ghost use Rattle.ln_manager_channels.specs.Links.{working_id, working_end};
    ghost use Rattle.ln_manager_channels.specs.Obeying as obeying;
    ghost use Rattle.ln_manager_channels.specs.Obeying.{Gives, Concludes, ConcludesDue, ObeysBook, Decides, Resumes};
    ghost use Rattle.ln_manager_channels.specs.Obeying.{HoldsNone};
    ghost use Rattle.ln_manager_channels.specs.Places.{changed_at};

    // ---- what the book commands

    // A link is given a command that was taken of the book, and the book is told what it answers, unless it has halted.
    fn give(&mut self, alloc: Global, channel: usize, id: ChannelId, command: Command) -> Given
        ensures gives { Gives K.signer channel id command result
            (record { links = self.old.links.items; records = self.old.records.items; book = self.old.book })
            (record { links = self.new.links.items; records = self.new.records.items; book = self.new.book }) }
        ensures numbers_stay { self.new.numbers ≡ self.old.numbers }
    {
        let subject = self.subject(channel, &command);
        let origin = origin_of(&command);
        let given = self.obey(alloc, channel, command);
        if self.has_halted(channel) {
            drop(given);
            return Given::Halted;
        }
        let answer = answer_to(subject, done_of(&given));
        self.book.answered(id, answer);
        given_of(given, waits(answer), origin)
    }

    // The link of a channel halts, as a command isn't the one that was to come, or has to wait.
    fn stop(&mut self, channel: usize) -> Given
        ensures answer { result ≡ given.Halted }
        ensures halts { self.new.links.items ≡ changed_at channel halts self.old.links.items }
        ensures records_stay { self.new.records.items ≡ self.old.records.items }
        ensures numbers_stay { self.new.numbers ≡ self.old.numbers }
        ensures book_stays { self.new.book ≡ self.old.book }
    {
        halt_at(&mut self.links, channel);
        Given::Halted
    }

    // The first command of the book, that isn't a decision.
    fn obey_command(
        &mut self,
        alloc: Global,
        channel: usize,
        id: ChannelId,
        command: Command,
    ) -> Given
        ensures obeys { obeying.ObeysCommand K.signer channel id command (commands.is_decision command) result
            (record { links = self.old.links.items; records = self.old.records.items; book = self.old.book })
            (record { links = self.new.links.items; records = self.new.records.items; book = self.new.book }) }
        ensures numbers_stay { self.new.numbers ≡ self.old.numbers }
    {
        if is_decision(&command) {
            drop(command);
            return self.stop(channel);
        }
        self.give(alloc, channel, id, command)
    }

    /// A link that works is given the first command of the book, where that is about an HTLC, and the book is told what
    /// it answers. Error: 60 alone, and nothing has changed.
    pub(crate) fn obey_book<O: Onion>(
        &mut self,
        alloc: Global,
        onion: &O,
        channel: usize,
    ) -> Result<Given, Refusal>
        ensures obeys { IfOk result (λ g. ObeysBook K.signer (O.services onion.now) channel
            (working_id (slice_get self.old.links.items channel)) g
            (record { links = self.old.links.items; records = self.old.records.items; book = self.old.book })
            (record { links = self.new.links.items; records = self.new.records.items; book = self.new.book })) }
        ensures fails_for_memory_alone { IfErr result (λ r. r ≡ Refusal.Memory) }
        ensures links_stay_if_refused { OnErr result (self.new.links.items ≡ self.old.links.items) }
        ensures records_stay_if_refused { OnErr result (self.new.records.items ≡ self.old.records.items) }
        ensures book_stays_if_refused { OnErr result (self.new.book ≡ self.old.book) }
        ensures numbers_stay { self.new.numbers ≡ self.old.numbers }
    {
        let Some(id) = self.working_id(channel) else {
            return Ok(Given::Nothing);
        };
        match self.book.take_commands(alloc, onion, id) {
            Err(refusal) => Err(refusal),
            Ok(None) => Ok(Given::Nothing),
            Ok(Some(command)) => Ok(self.obey_command(alloc, channel, id, command)),
        }
    }

    // A link is given its decision; one that can't take it now halts.
    fn conclude(&mut self, alloc: Global, channel: usize, id: ChannelId, command: Command) -> Given
        ensures concludes { Concludes K.signer channel id command result
            (record { links = self.old.links.items; records = self.old.records.items; book = self.old.book })
            (record { links = self.new.links.items; records = self.new.records.items; book = self.new.book }) }
        ensures numbers_stay { self.new.numbers ≡ self.old.numbers }
    {
        match self.give(alloc, channel, id, command) {
            Given::Waits => self.stop(channel),
            given => given,
        }
    }

    // The link of a channel is given what the book has just entered for it; it halts where it can't.
    fn obey_due<O: Onion>(
        &mut self,
        alloc: Global,
        onion: &O,
        channel: usize,
        id: ChannelId,
        due: Due,
    ) -> Given
        ensures concludes { ConcludesDue K.signer (O.services onion.now) channel id (obeying.is_due due) result
            (record { links = self.old.links.items; records = self.old.records.items; book = self.old.book })
            (record { links = self.new.links.items; records = self.new.records.items; book = self.new.book }) }
        ensures numbers_stay { self.new.numbers ≡ self.old.numbers }
    {
        match self.book.take_commands(alloc, onion, id) {
            Ok(Some(command)) => {
                if is_due(due, &command) {
                    return self.conclude(alloc, channel, id, command);
                }
                drop(command);
                self.stop(channel)
            }
            Ok(None) => self.stop(channel),
            Err(_) => self.stop(channel),
        }
    }

    // The first undecided event of a link that works, with the id of its channel and its number. Error: 60 alone.
    fn next_event(
        &self,
        alloc: Global,
        channel: usize,
    ) -> Result<Option<(ChannelId, u64, ChannelEvent)>, Refusal>
        ensures event { IfOk result (λ e. e
            ≡ events.next_event (working_end (slice_get self.now.links.items channel))) }
        ensures fails_for_memory_alone { IfErr result (λ r. r ≡ Refusal.Memory) }
    {
        let Some(machine) = self.machine(channel) else {
            return Ok(None);
        };
        if machine.is_halted() {
            return Ok(None);
        }
        let Some(end) = machine.saved() else {
            return Ok(None);
        };
        match first_event(alloc, end) {
            Err(refusal) => Err(refusal),
            Ok(None) => Ok(None),
            Ok(Some(event)) => {
                let id = end.id();
                Ok(Some((id, end.ledger().decided(), event)))
            }
        }
    }

    // The book decides an event by what is said of it. Error: 60 alone, and nothing has changed.
    fn decide_in_book<O: Onion>(
        &mut self,
        alloc: Global,
        onion: &O,
        id: ChannelId,
        number: u64,
        event: ChannelEvent,
        verdict: Verdict,
    ) -> Result<Mark, Refusal>
        ensures answers_the_mark { IfOk result (λ m. m ≡ mark_of (O.services onion.now) (table_of self.old.book) number
            (offer_of event) verdict) }
        ensures decides { OnOk result (self.new.book ≡ with_entry (entry.Decided (decision (O.services onion.now)
            (table_of self.old.book) id number (offer_of event) verdict)) self.old.book) }
        ensures changes_nothing_if_refused { OnErr result (self.new.book ≡ self.old.book) }
        ensures fails_for_memory_alone { IfErr result (λ r. r ≡ Refusal.Memory) }
        ensures links_stay { self.new.links.items ≡ self.old.links.items }
        ensures records_stay { self.new.records.items ≡ self.old.records.items }
        ensures numbers_stay { self.new.numbers ≡ self.old.numbers }
    {
        let decided = self.book.decide(alloc, onion, id, number, &event, verdict);
        drop(event);
        decided
    }

    /// The first undecided event of a channel is decided by what its host says of it: what is done about it, and what
    /// became of that in its link.
    ///
    /// Errors: 40 where there is no such event, or the link has halted; 60; nothing has changed then.
    pub(crate) fn decide<O: Onion>(
        &mut self,
        alloc: Global,
        onion: &O,
        channel: usize,
        verdict: Verdict,
    ) -> Result<(Mark, Given), Refusal>
        ensures decides { IfOk result (λ r. Decides K.signer (O.services onion.now) channel
            (events.next_event (working_end (slice_get self.old.links.items channel))) verdict r
            (record { links = self.old.links.items; records = self.old.records.items; book = self.old.book })
            (record { links = self.new.links.items; records = self.new.records.items; book = self.new.book })) }
        ensures fails { IfErr result (λ r. (r ≡ Refusal.Memory) ⊎ ((r ≡ Refusal.NotReady)
            × (events.next_event (working_end (slice_get self.old.links.items channel)) ≡ None))) }
        ensures links_stay_if_refused { OnErr result (self.new.links.items ≡ self.old.links.items) }
        ensures records_stay_if_refused { OnErr result (self.new.records.items ≡ self.old.records.items) }
        ensures book_stays_if_refused { OnErr result (self.new.book ≡ self.old.book) }
        ensures numbers_stay { self.new.numbers ≡ self.old.numbers }
    {
        match self.next_event(alloc, channel) {
            Err(refusal) => Err(refusal),
            Ok(None) => Err(Refusal::NotReady),
            Ok(Some(next)) => {
                let (id, number, event) = next;
                match self.decide_in_book(alloc, onion, id, number, event, verdict) {
                    Err(refusal) => Err(refusal),
                    Ok(mark) => {
                        let due = Due::Decision(number);
                        let given = self.obey_due(alloc, onion, channel, id, due);
                        Ok((mark, given))
                    }
                }
            }
        }
    }

    /// What is held by the number of this event is decided by what its host says of it now.
    ///
    /// Errors: 40 where nothing is held so, or the link has halted; 60; nothing has changed then.
    pub(crate) fn resume<O: Onion>(
        &mut self,
        alloc: Global,
        onion: &O,
        channel: usize,
        event: u64,
        verdict: Verdict,
    ) -> Result<(Mark, Given), Refusal>
        ensures resumes { IfOk result (λ r. Resumes K.signer (O.services onion.now) channel
            (working_id (slice_get self.old.links.items channel)) event verdict r
            (record { links = self.old.links.items; records = self.old.records.items; book = self.old.book })
            (record { links = self.new.links.items; records = self.new.records.items; book = self.new.book })) }
        ensures fails { IfErr result (λ r. (r ≡ Refusal.Memory) ⊎ ((r ≡ Refusal.NotReady)
            × HoldsNone (O.services onion.now) (working_id (slice_get self.old.links.items channel)) event verdict
            self.old.book)) }
        ensures links_stay_if_refused { OnErr result (self.new.links.items ≡ self.old.links.items) }
        ensures records_stay_if_refused { OnErr result (self.new.records.items ≡ self.old.records.items) }
        ensures book_stays_if_refused { OnErr result (self.new.book ≡ self.old.book) }
        ensures numbers_stay { self.new.numbers ≡ self.old.numbers }
    {
        let Some(id) = self.working_id(channel) else {
            return Err(Refusal::NotReady);
        };
        match self.book.resume(alloc, onion, id, event, verdict) {
            Err(refusal) => Err(refusal),
            Ok(mark) => {
                let due = Due::Resumption(event);
                let given = self.obey_due(alloc, onion, channel, id, due);
                Ok((mark, given))
            }
        }
    }
}
