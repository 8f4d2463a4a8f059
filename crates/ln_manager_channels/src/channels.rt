//! The channels of a node, by their calls.

mod hosts;
mod peers;

use crate::events::{event_count, first_event};
use crate::moves::{batch_at, is_fresh_at};
use crate::newest::Newest;
use crate::parts::ChannelParts;
use crate::saved::Saved;
use ln_batches::Lines;
use ln_book::{Use, use_of};
use ln_book_tables::HeldHtlc;
use ln_channel::{Channel, ChannelMachine, Command, FitConfig, FitSpec};
use ln_history::Past;
use ln_hooks::ChannelEvent;
use ln_keys::ChannelKeys;
use ln_link::Link;
use ln_log::ChannelId;
use ln_refusals::Refusal;
use std::alloc::Global;
use std::marker::Model;

/// The links of a node's channels, told by their numbers 0, 1, .. in the order in which they were added, and its book
/// of payments. Each call moves one link, or the book, or both together. Contracts see what the channels began with and
/// what they have: calls have led from the one to the other.
pub struct Channels<K: ChannelKeys + Drop> {
    // For proofs alone.
    began: Past<ChannelParts<K>, ()>,
    parts: ChannelParts<K>,
}

impl<K: ChannelKeys + Drop> Model for Channels<K> {
    ghost use Rattle.std.specs.Coded.{codes};
    ghost use Rattle.ln_store.specs.contracts.memory_store.MemoryStore as store;
    ghost use Rattle.ln_manager_channels.specs.Calls.{Running, IsOutcome};
    ghost use Rattle.ln_manager_channels.specs.Kept.{parts_of};

    ghost Value = { Running K };

    ghost coded = { Prim.hlevel (codes, store.the_row.coded) };

    ghost view = { λ c. record { began = parts_of c.began.told.start; parts = parts_of c.parts } };

    ghost invariant = { λ c.
        IsOutcome K.signer (record { began = parts_of c.began.told.start; parts = parts_of c.parts }) };
}

// By hand: crates above don't prove again how its parts are dropped.
impl<K: ChannelKeys + Drop> Drop for Channels<K> {
    fn drop(self) {
        let Channels { began, parts } = self;
        drop(began);
        drop(parts);
    }
}

impl<K: ChannelKeys + Drop> Channels<K> {
    ghost use Rattle.std.specs.Prelude.{◌≡◌, ◌⊎◌, ◌++◌, ◌∷◌, [], length, slice_get, option_copied, IfOk, IfErr, OnOk};
    ghost use Rattle.std.specs.Prelude.{OnErr, if◌then◌else◌};
    ghost use Rattle.ln_batches.specs.Queues.{IsSpent, changed};
    ghost use Rattle.ln_channel.specs.declared.machine.Stage.TheVariants as stage;
    ghost use Rattle.ln_channel.specs.State.{begun};
    ghost use Rattle.ln_history.specs.History.{begun_with};
    ghost use Rattle.ln_book_tables.specs.Held.{all_held};
    ghost use Rattle.ln_book_tables.specs.Replay.{no_table, table_of};
    ghost use Rattle.ln_book.specs.Answers as answers;
    ghost use Rattle.ln_book.specs.Rebuild.{rebuilt};
    ghost use Rattle.ln_manager_channels.specs.Books.{snapshots_of};
    ghost use Rattle.ln_manager_channels.specs.Calls as call;
    ghost use Rattle.ln_manager_channels.specs.Calls.{Begins, IsOutcome, Makes, no_parts, seats};
    ghost use Rattle.ln_manager_channels.specs.Events as events;
    ghost use Rattle.ln_manager_channels.specs.Events.{event_count};
    ghost use Rattle.ln_manager_channels.specs.Kept.{parts_of};
    ghost use Rattle.ln_manager_channels.specs.Links.{end_in, halted_in, working_id, number_in, use_in};
    ghost use Rattle.ln_manager_channels.specs.Loading.{SeatsAll, LacksSome, no_seats};
    ghost use Rattle.ln_manager_channels.specs.Moves.{with_place, batched, is_fresh_at};
    ghost use Rattle.ln_manager_channels.specs.Places.{changed_at};

    // ---- what they begin with

    // They begin with these.
    fn begun(parts: ChannelParts<K>) -> Channels<K>
        requires { Begins (parts_of parts) }
        ensures begins_here { result.began ≡ parts_of parts }
        ensures has_these { result.parts ≡ parts_of parts }
    {
        let began = Past::begun(&parts);
        Channels { began, parts }
    }

    /// No channels, and a book in which nothing stands. Takes no memory.
    pub fn new(alloc: Global) -> Channels<K>
        ensures no_links { result.parts.links ≡ [] }
        ensures no_records { result.parts.records ≡ [] }
        ensures no_numbers { result.parts.numbers ≡ [] }
        ensures nothing_stands { result.parts.book ≡ begun_with no_table }
        ensures begins_with_none { result.began ≡ no_parts }
    {
        Channels::begun(ChannelParts::new(alloc))
    }

    /// What comes back from the records of all channels, at once: numbers are places in this list, none has a
    /// connection, and the book begins with what the ends have.
    ///
    /// Errors: those of `Link::from_record` (70, 71), 70 where two records have one id, and 60.
    pub fn load(alloc: Global, saved: Vec<Saved<K>>) -> Result<Channels<K>, Refusal>
        ensures seats { IfOk result (λ c. SeatsAll saved.items no_seats (seats c.parts)) }
        ensures fails { IfErr result (λ r. (r ≡ Refusal.Memory) ⊎ LacksSome saved.items no_seats r) }
        ensures begins_with_the_ends { IfOk result (λ c. c.parts.book
            ≡ begun_with (rebuilt no_table (snapshots_of c.parts.links))) }
        ensures begins_here { IfOk result (λ c. c.began ≡ c.parts) }
    {
        let mut parts = ChannelParts::new(alloc);
        match parts.load_all(alloc, saved) {
            Ok(()) => Ok(Channels::begun(parts)),
            Err(refusal) => {
                drop(parts);
                Err(refusal)
            }
        }
    }

    /// The channels have what calls have led to from what they began with: nothing is done, and proofs alone call it.
    pub fn calls_made(&self)
        ensures { IsOutcome K.signer self.now }
    {
        let _opened = &self.began;
    }

    // ---- looked at

    /// How many channels there are. Takes no memory.
    pub fn len(&self) -> usize
        ensures { result ≡ length self.now.parts.links }
    {
        self.parts.links.len()
    }

    /// What the link of a channel is, to be looked at. Takes no memory.
    pub fn machine(&self, channel: usize) -> Option<&ChannelMachine<K>>
        ensures { option_copied result ≡ slice_get self.now.parts.links channel }
    {
        self.parts.machine(channel)
    }

    /// The end of a channel, once both sides have signed its opening. Takes no memory.
    pub fn end(&self, channel: usize) -> Option<&Channel>
        ensures { option_copied result ≡ end_in (slice_get self.now.parts.links channel) }
    {
        self.parts.end(channel)
    }

    /// Whether the link of a channel has halted. Takes no memory.
    pub fn has_halted(&self, channel: usize) -> bool
        ensures { result ≡ halted_in (slice_get self.now.parts.links channel) }
    {
        self.parts.has_halted(channel)
    }

    /// The id of the end of a link that works. Takes no memory.
    pub fn working_id(&self, channel: usize) -> Option<ChannelId>
        ensures { result ≡ working_id (slice_get self.now.parts.links channel) }
    {
        self.parts.working_id(channel)
    }

    /// The number of the channel that has this id, or awaits it. Takes no memory.
    pub fn number_of(&self, id: &ChannelId) -> Option<usize>
        ensures { result ≡ number_in self.now.parts.numbers self.now.parts.links id.now }
    {
        self.parts.number_of(id)
    }

    /// The HTLCs that are held, of all channels. Error: 60 alone.
    pub fn held(&self, alloc: Global) -> Result<Vec<HeldHtlc>, Refusal>
        ensures lists_what_is_held { IfOk result (λ v. v.items ≡ all_held (table_of self.now.parts.book)) }
        ensures fails_for_memory_alone { IfErr result (λ r. r ≡ Refusal.Memory) }
    {
        self.parts.book.held(alloc)
    }

    /// The newest record of a channel. Takes no memory.
    pub fn record(&self, channel: usize) -> Option<&Newest>
        ensures { option_copied result ≡ slice_get self.now.parts.records channel }
    {
        self.parts.records.get(channel)
    }

    /// The first event of a channel that isn't decided. Takes memory for it. Error: 60 alone.
    pub fn first_event(
        &self,
        alloc: Global,
        channel: usize,
    ) -> Result<Option<ChannelEvent>, Refusal>
        ensures event { IfOk result (λ e. e ≡ events.first_event (end_in (slice_get self.now.parts.links channel))) }
        ensures fails_for_memory_alone { IfErr result (λ r. r ≡ Refusal.Memory) }
    {
        match self.parts.end(channel) {
            None => Ok(None),
            Some(end) => first_event(alloc, end),
        }
    }

    /// What a command to a channel is about: the id of its next HTLC where it offers one. Takes no memory.
    pub fn subject(&self, channel: usize, command: &Command) -> u64
        ensures { result ≡ answers.command_subject (answers.next_id (end_in (slice_get self.now.parts.links channel)))
            command.now }
    {
        self.parts.subject(channel, command)
    }

    /// What the book is told of the end of a channel. Takes no memory.
    pub fn use_of(&self, channel: usize) -> Option<Use>
        ensures { result ≡ use_in (slice_get self.now.parts.links channel) }
    {
        match self.parts.machine(channel) {
            None => None,
            Some(machine) => match machine.saved() {
                None => None,
                Some(end) => Some(use_of(machine, end)),
            },
        }
    }

    // ---- channels are added

    /// A channel that this side asks for by this spec. Error: 60 alone, which adds none.
    pub fn add_funder(&mut self, alloc: Global, keys: K, spec: FitSpec) -> Result<(), Refusal>
        ensures adds { OnOk result (self.new.parts.links
            ≡ self.old.parts.links ++ begun keys (stage.AwaitsAccept spec) ∷ []) }
        ensures makes_place { OnOk result (self.new.parts.records
            ≡ with_place (length self.old.parts.links) self.old.parts.records) }
        ensures adds_none_if_refused { OnErr result (self.new.parts.links ≡ self.old.parts.links) }
        ensures makes_place_at_most { OnErr result ((self.new.parts.records ≡ self.old.parts.records)
            ⊎ (self.new.parts.records ≡ with_place (length self.old.parts.links) self.old.parts.records)) }
        ensures fails_for_memory_alone { IfErr result (λ r. r ≡ Refusal.Memory) }
        ensures numbers_stay { self.new.parts.numbers ≡ self.old.parts.numbers }
        ensures book_stays { self.new.parts.book ≡ self.old.parts.book }
        ensures enters_this_call { Makes K.signer (call.AddFunder keys spec) self.old.parts self.new.parts }
        ensures beginning_stays { self.new.began ≡ self.old.began }
    {
        self.parts.add(alloc, Link::funder(keys, spec))
    }

    /// A channel that a peer may ask for, which is taken with this config. Error: 60 alone, which adds none.
    pub fn add_fundee(&mut self, alloc: Global, keys: K, config: FitConfig) -> Result<(), Refusal>
        ensures adds { OnOk result (self.new.parts.links
            ≡ self.old.parts.links ++ begun keys (stage.AwaitsOpen config) ∷ []) }
        ensures makes_place { OnOk result (self.new.parts.records
            ≡ with_place (length self.old.parts.links) self.old.parts.records) }
        ensures adds_none_if_refused { OnErr result (self.new.parts.links ≡ self.old.parts.links) }
        ensures makes_place_at_most { OnErr result ((self.new.parts.records ≡ self.old.parts.records)
            ⊎ (self.new.parts.records ≡ with_place (length self.old.parts.links) self.old.parts.records)) }
        ensures fails_for_memory_alone { IfErr result (λ r. r ≡ Refusal.Memory) }
        ensures numbers_stay { self.new.parts.numbers ≡ self.old.parts.numbers }
        ensures book_stays { self.new.parts.book ≡ self.old.parts.book }
        ensures enters_this_call { Makes K.signer (call.AddFundee keys config) self.old.parts self.new.parts }
        ensures beginning_stays { self.new.began ≡ self.old.began }
    {
        self.parts.add(alloc, Link::fundee(keys, config))
    }

    /// The record of a channel belongs to the open batch of these lines, where it has changed. Errors: those of
    /// `Lines::change`, 46 and 60; nothing has changed then.
    pub fn batch<M: Drop>(&mut self, lines: &mut Lines<M>, channel: usize) -> Result<(), Refusal>
        ensures stands_in_the_batch { OnOk result (lines.new ≡ (if is_fresh_at channel self.old.parts.records
            then changed channel (event_count (end_in (slice_get self.old.parts.links channel))) lines.old
            else lines.old)) }
        ensures batched { OnOk result (self.new.parts.records ≡ changed_at channel batched self.old.parts.records) }
        ensures refuses_for_a_reason { IfErr result (IsSpent lines.old.records) }
        ensures lines_stay_if_refused { OnErr result (lines.new ≡ lines.old) }
        ensures records_stay_if_refused { OnErr result (self.new.parts.records ≡ self.old.parts.records) }
        ensures links_stay { self.new.parts.links ≡ self.old.parts.links }
        ensures numbers_stay { self.new.parts.numbers ≡ self.old.parts.numbers }
        ensures book_stays { self.new.parts.book ≡ self.old.parts.book }
        ensures enters_this_call { OnOk result
            (Makes K.signer (call.Batch channel) self.old.parts self.new.parts) }
        ensures beginning_stays { self.new.began ≡ self.old.began }
    {
        if is_fresh_at(&self.parts.records, channel) {
            lines.change(channel, event_count(self.parts.end(channel)))?;
        }
        batch_at(&mut self.parts.records, channel);
        Ok(())
    }
}
