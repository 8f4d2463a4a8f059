//! The links of a node's channels, their records and numbers, and its book of payments: what one move makes of them.

ghost use Rattle.std.specs.Prelude.{◌≡◌, List, option_copied};
ghost use Rattle.ln_channel.specs.End.{End};
ghost use Rattle.ln_manager_channels.specs.Links.{id_by_end, has_id};

mod calls;
mod hearing;
mod loading;
mod obeying;

use crate::moves::machine_at;
use crate::newest::Newest;
use crate::numbers::Numbers;
use ln_book::{Book, command_subject, next_id};
use ln_channel::{Channel, ChannelMachine, Command};
use ln_keys::ChannelKeys;
use ln_link::Link;
use ln_log::ChannelId;
use ln_refusals::Refusal;
use std::alloc::Global;

/// The links of a node's channels, their records and numbers, and its book of payments. A move of them may be a part of
/// a call of `Channels`.
pub(crate) struct ChannelParts<K: ChannelKeys + Drop> {
    pub(crate) links: Vec<Link<K>>,
    pub(crate) records: Vec<Newest>,
    pub(crate) numbers: Numbers,
    pub(crate) book: Book,
}

// By hand: who drops them doesn't prove again how each is dropped.
impl<K: ChannelKeys + Drop> Drop for ChannelParts<K> {
    fn drop(self) {
        let ChannelParts {
            links,
            records,
            numbers,
            book,
        } = self;
        drop(links);
        drop(records);
        drop(numbers);
        drop(book);
    }
}

fn id_of(end: Option<&Channel>) -> Option<ChannelId>
    ensures { result ≡ id_by_end (option_copied end.entry) }
{
    match end {
        None => None,
        Some(end) => Some(end.id()),
    }
}

// Whether an end, or one that is agreed on, has this id.
fn has_id(id: &ChannelId, end: Option<&Channel>) -> bool
    ensures { result ≡ has_id id.now (option_copied end.entry) }
{
    match end {
        None => false,
        Some(end) => *id == end.id(),
    }
}

impl<K: ChannelKeys + Drop> ChannelParts<K> {
    ghost use Rattle.std.specs.Prelude.{◌≡◌, ◌⊎◌, ◌++◌, ◌∷◌, [], length, slice_get, option_copied, IfErr, OnOk, OnErr};
    ghost use Rattle.ln_history.specs.History.{begun_with};
    ghost use Rattle.ln_book_tables.specs.Replay.{no_table};
    ghost use Rattle.ln_book.specs.Answers as answers;
    ghost use Rattle.ln_manager_channels.specs.Links.{end_in, halted_in, working_id, is_of, number_in};
    ghost use Rattle.ln_manager_channels.specs.Moves.{with_place};

    /// No channels, and a book in which nothing stands. Takes no memory.
    pub(crate) fn new(alloc: Global) -> ChannelParts<K>
        ensures no_links { result.links.items ≡ [] }
        ensures no_records { result.records.items ≡ [] }
        ensures no_numbers { result.numbers ≡ [] }
        ensures nothing_stands { result.book ≡ begun_with no_table }
    {
        ChannelParts {
            links: Vec::new(alloc),
            records: Vec::new(alloc),
            numbers: Numbers::new(alloc),
            book: Book::new(alloc),
        }
    }

    // ---- looked at

    /// What the link of a channel is, to be looked at. Takes no memory.
    pub(crate) fn machine(&self, channel: usize) -> Option<&ChannelMachine<K>>
        ensures { option_copied result ≡ slice_get self.now.links.items channel }
    {
        machine_at(self.links.as_slice(), channel)
    }

    /// The end of a channel, once both sides have signed its opening. Takes no memory.
    pub(crate) fn end(&self, channel: usize) -> Option<&Channel>
        ensures { option_copied result ≡ end_in (slice_get self.now.links.items channel) }
    {
        match self.machine(channel) {
            None => None,
            Some(machine) => machine.saved(),
        }
    }

    /// Whether the link of a channel has halted. Takes no memory.
    pub(crate) fn has_halted(&self, channel: usize) -> bool
        ensures { result ≡ halted_in (slice_get self.now.links.items channel) }
    {
        match self.machine(channel) {
            None => false,
            Some(machine) => machine.is_halted(),
        }
    }

    /// The id of the end of a link that works. Takes no memory.
    pub(crate) fn working_id(&self, channel: usize) -> Option<ChannelId>
        ensures { result ≡ working_id (slice_get self.now.links.items channel) }
    {
        match self.machine(channel) {
            None => None,
            Some(machine) => {
                if machine.is_halted() {
                    None
                } else {
                    id_of(machine.saved())
                }
            }
        }
    }

    // Whether a channel has this id: its end has it, or its link works and both sides have agreed on it.
    fn is_of(&self, channel: usize, id: &ChannelId) -> bool
        ensures { result ≡ is_of id.now (slice_get self.now.links.items channel) }
    {
        match self.machine(channel) {
            None => false,
            Some(machine) => {
                has_id(id, machine.saved())
                    || (!machine.is_halted() && has_id(id, machine.agreed()))
            }
        }
    }

    /// The number of the channel that has this id, or awaits it. Takes no memory.
    pub(crate) fn number_of(&self, id: &ChannelId) -> Option<usize>
        ensures { result ≡ number_in self.now.numbers self.now.links.items id.now }
    {
        match self.numbers.get(id) {
            None => None,
            Some(number) => {
                if self.is_of(number, id) {
                    Some(number)
                } else {
                    None
                }
            }
        }
    }

    /// What a command to a channel is about: the id of its next HTLC where it offers one. Takes no memory.
    pub(crate) fn subject(&self, channel: usize, command: &Command) -> u64
        ensures { result ≡ answers.command_subject (answers.next_id (end_in (slice_get self.now.links.items channel)))
            command.now }
    {
        command_subject(next_id(self.end(channel)), command)
    }

    // ---- channels are added

    // A place for the record of a further channel. Error: 60 alone, which changes nothing.
    fn make_record(&mut self, alloc: Global) -> Result<(), Refusal>
        ensures makes { OnOk result (self.new.records.items
            ≡ with_place (length self.old.links.items) self.old.records.items) }
        ensures changes_nothing_if_refused { OnErr result (self.new.records.items ≡ self.old.records.items) }
        ensures fails_for_memory_alone { IfErr result (λ r. r ≡ Refusal.Memory) }
        ensures links_stay { self.new.links.items ≡ self.old.links.items }
        ensures numbers_stay { self.new.numbers ≡ self.old.numbers }
        ensures book_stays { self.new.book ≡ self.old.book }
    {
        if self.records.len() <= self.links.len() {
            self.records.push(Newest::new(alloc))?;
        }
        Ok(())
    }

    // A further link. Error: 60 alone, which adds none.
    pub(crate) fn add(&mut self, alloc: Global, link: Link<K>) -> Result<(), Refusal>
        ensures adds { OnOk result (self.new.links.items ≡ self.old.links.items ++ link ∷ []) }
        ensures makes_place { OnOk result (self.new.records.items
            ≡ with_place (length self.old.links.items) self.old.records.items) }
        ensures adds_none_if_refused { OnErr result (self.new.links.items ≡ self.old.links.items) }
        ensures makes_place_at_most { OnErr result ((self.new.records.items ≡ self.old.records.items)
            ⊎ (self.new.records.items ≡ with_place (length self.old.links.items) self.old.records.items)) }
        ensures fails_for_memory_alone { IfErr result (λ r. r ≡ Refusal.Memory) }
        ensures numbers_stay { self.new.numbers ≡ self.old.numbers }
        ensures book_stays { self.new.book ≡ self.old.book }
    {
        if let Err(refusal) = self.make_record(alloc) {
            drop(link);
            return Err(refusal);
        }
        self.links.push(link)?;
        Ok(())
    }
}
