//! A routing node without threads.

ghost use Rattle.std.specs.Prelude.{◌≡◌, ◌||◌, true, List, IfOk, IfErr, OnOk, OnErr};
ghost use Rattle.ln_batches.specs.Queues.{IsSpent};
ghost use Rattle.ln_manager.specs.Leads.{Leads};
ghost use Rattle.ln_manager.specs.Managed.{ChangesOneAt, given_if, if_batched};
ghost use Rattle.ln_manager_channels.specs.Calls as call;
ghost use Rattle.ln_manager_channels.specs.Calls.{Makes};
ghost use Rattle.ln_manager_channels.specs.Moves.{none_fresh};

use crate::batch::{Batch, SavedRecord};
use crate::posted::Posted;
use crate::turns::Turns;
use ln_batches::{Lines, Waiting};
use ln_book::Use;
use ln_book_tables::HeldHtlc;
use ln_bytes::Bytes;
use ln_channel::{ChannelMachine, Command, FitConfig, FitSpec, Output};
use ln_forward::Policy;
use ln_hooks::{ChannelEvent, Verdict};
use ln_host::{Filling, blank_of, channel_of};
use ln_keys::{ChannelKeys, Onion};
use ln_log::{ChannelId, Mark};
use ln_manager_channels::{Channels, Given, Newest, Saved, event_count};
use ln_msgs::Message;
use ln_refusals::Refusal;
use std::alloc::Global;
use std::marker::Model;

/// A routing node without threads: many channels, told by their numbers 0, 1, .. in the order in which they were added,
/// and one book of payments. A call does all that is due, of its channel and of those that it makes due. What it hands
/// out waits: messages in a line for each channel, events, and records in batches over all channels; a message leaves
/// once all records are saved that had changed as it came. A record that has changed stands in the open batch.
pub struct Manager<K: ChannelKeys + Drop, O: Onion + Drop> {
    channels: Channels<K>,
    onion: O,
    policy: Policy,
    lines: Lines<Posted>,
    line_count: usize,
    // What the book was told last of the end of each channel.
    told_uses: Vec<Option<Use>>,
    // Whether the first undecided event of each channel is with the host.
    is_out: Vec<bool>,
    // What the book commands is due in these.
    due: Turns,
    // These may owe a signature.
    unsigned: Turns,
    // These may have an event for the host.
    untold: Turns,
    // A record has changed that no batch could take: no message waits from now on, and no batch is closed.
    is_spent: bool,
}

impl<K: ChannelKeys + Drop, O: Onion + Drop> Model for Manager<K, O> {
    ghost use Rattle.std.specs.Coded.{codes};
    ghost use Rattle.std.specs.Prelude.{◌≡◌, ◌||◌, true};
    ghost use Rattle.ln_store.specs.contracts.memory_store.MemoryStore as store;
    ghost use Rattle.ln_manager.specs.Managed.{Managed};
    ghost use Rattle.ln_manager_channels.specs.Moves.{none_fresh};

    ghost Value = { Managed K O };

    ghost coded = { Prim.hlevel (codes, store.the_row.coded) };

    ghost view = { λ m. record {
      channels = m.channels;
      onion = m.onion;
      lines = m.lines;
      is_out = m.is_out.items;
    } };

    ghost invariant = { λ m. (m.is_spent || none_fresh m.channels.parts.records) ≡ true };
}

// By hand: crates above don't prove again how its parts are dropped.
impl<K: ChannelKeys + Drop, O: Onion + Drop> Drop for Manager<K, O> {
    fn drop(self) {
        let Manager {
            channels,
            onion,
            policy: _,
            lines,
            line_count: _,
            told_uses,
            is_out,
            due,
            unsigned,
            untold,
            is_spent: _,
        } = self;
        drop(channels);
        drop(onion);
        drop(lines);
        drop(told_uses);
        drop(is_out);
        drop(due);
        drop(unsigned);
        drop(untold);
    }
}

// The channel whose HTLC a command forwards, or to which a mark forwards one.
fn target_of(mark: &Mark) -> Option<ChannelId> {
    match mark {
        Mark::Forward { channel, .. } => Some(*channel),
        _ => None,
    }
}

// The record of a channel, of which alone this call has changed any, stands in the open batch where it has changed; or
// else its link halts, and nothing leaves any more. Errors: 46, 60.
fn batch<K: ChannelKeys + Drop>(
    channels: &mut Channels<K>,
    lines: &mut Lines<Posted>,
    is_spent: &mut bool,
    channel: usize,
) -> Result<(), Refusal>
    ensures leaves_none_out { (rs : List Newest) → ChangesOneAt channel rs channels.old.parts.records
        → (is_spent.old || none_fresh rs) ≡ true
        → (is_spent.new || none_fresh channels.new.parts.records) ≡ true }
    ensures leads_on { Leads K.signer channels.old channels.new }
    ensures batches { OnOk result ((is_spent.new ≡ is_spent.old)
        × Makes K.signer (call.Batch channel) channels.old.parts channels.new.parts) }
    ensures or_halts { OnErr result ((is_spent.new ≡ true)
        × Makes K.signer (call.Halt channel) channels.old.parts channels.new.parts) }
    ensures refuses_for_a_reason { IfErr result (IsSpent lines.old.records) }
{
    match channels.batch(lines, channel) {
        Ok(()) => Ok(()),
        Err(refusal) => {
            channels.halt(channel);
            *is_spent = true;
            Err(refusal)
        }
    }
}

// What a link has answered, unless its record stands in no batch.
fn if_batched<T: Drop>(
    batched: Result<(), Refusal>,
    answer: Result<T, Refusal>,
) -> Result<T, Refusal>
    ensures { result ≡ if_batched batched answer }
{
    match batched {
        Ok(()) => answer,
        Err(refusal) => {
            drop(answer);
            Err(refusal)
        }
    }
}

// What became of a command, unless the record stands in no batch: the link has halted then.
fn given_if(batched: Result<(), Refusal>, given: Given) -> Given
    ensures { result ≡ given_if batched given }
{
    match batched {
        Ok(()) => given,
        Err(_) => {
            drop(given);
            Given::Halted
        }
    }
}

// A place for the channel of this number, unless it has one. Error: 60 alone.
fn make_place<T: Drop>(places: &mut Vec<T>, channel: usize, value: T) -> Result<(), Refusal>
    ensures fails_for_memory_alone { IfErr result (λ r. r ≡ Refusal.Memory) }
{
    if places.len() <= channel {
        places.push(value)?;
    } else {
        drop(value);
    }
    Ok(())
}

#[tactic(auto, using(crate::proofs::Leading::stays, crate::proofs::Leading::then, crate::proofs::Leading::led))]
impl<K: ChannelKeys + Drop, O: Onion + Drop> Manager<K, O> {
    ghost use Rattle.std.specs.Prelude.{◌≡◌, true, false, Some, None, slice_get, Ok, Err, IfOk, IfErr, IfSome, IfNone};
    ghost use Rattle.std.specs.Prelude.{OnOk, OnErr, IsOk, is_ok, ◌⊎◌, ◌++◌, ◌∷◌, [], ◌&&◌, length, option_copied};
    ghost use Rattle.ln_batches.specs.Queues as lines;
    ghost use Rattle.ln_batches.specs.Queues.{no_queue, first_at, may_leave, handed, is_out, sent, closed, saved};
    ghost use Rattle.ln_batches.specs.Queues.{saved_events, is_closed, can_close};
    ghost use Rattle.ln_channel.specs.declared.machine.Stage.TheVariants as stage;
    ghost use Rattle.ln_channel.specs.State.{begun};
    ghost use Rattle.ln_history.specs.History.{with_entry};
    ghost use Rattle.ln_book_tables.specs.declared.entry.Entry.TheVariants as entry;
    ghost use Rattle.ln_book_tables.specs.Held.{all_held};
    ghost use Rattle.ln_book_tables.specs.Replay.{table_of};
    ghost use Rattle.ln_book.specs.Answers as answers;
    ghost use Rattle.ln_manager.specs.Events.{decided_in, event_for_host, is_for_host, is_with_host, marked_at};
    ghost use Rattle.ln_manager.specs.Events.{may_decide};
    ghost use Rattle.ln_manager.specs.Batches.{listed, record_of, records_of};
    ghost use Rattle.ln_manager.specs.Leads.{Leads, LeadsBy};
    ghost use Rattle.ln_manager_channels.specs.Books.{height_answer, with_height};
    ghost use Rattle.ln_manager_channels.specs.Calls as call;
    ghost use Rattle.ln_manager_channels.specs.Calls.{AreLoaded, Parts, no_parts};
    ghost use Rattle.ln_manager_channels.specs.Events as events;
    ghost use Rattle.ln_manager_channels.specs.Links.{end_in, halted_in, number_in, working_end, working_id};
    ghost use Rattle.ln_manager_channels.specs.Loading.{LacksSome, no_seats};
    ghost use Rattle.ln_manager_channels.specs.Moves.{none_fresh, naming_in, with_funding};
    ghost use Rattle.ln_manager_channels.specs.Obeying.{HoldsNone};
    ghost use Rattle.ln_manager_channels.specs.Places.{changed_at};

    // Over these channels, whose records stand in batches.
    fn over(alloc: Global, onion: O, policy: Policy, channels: Channels<K>) -> Manager<K, O>
        requires { none_fresh channels.parts.records ≡ true }
        ensures { result ≡ record { channels = channels; onion = onion; lines = no_queue; is_out = [] } }
    {
        Manager {
            channels,
            onion,
            policy,
            lines: Lines::new(alloc),
            line_count: 0,
            told_uses: Vec::new(alloc),
            is_out: Vec::new(alloc),
            due: Turns::new(alloc),
            unsigned: Turns::new(alloc),
            untold: Turns::new(alloc),
            is_spent: false,
        }
    }

    /// Of no channel. It opens onions by this service, and asks for what it forwards what this policy says. Takes no
    /// memory.
    pub fn new(alloc: Global, onion: O, policy: Policy) -> Manager<K, O>
        ensures begins_with_none { result.channels.began ≡ no_parts }
        ensures has_none { result.channels.parts ≡ no_parts }
        ensures opens_by_this_service { result.onion ≡ onion }
        ensures nothing_waits { result.lines ≡ no_queue }
        ensures nothing_is_with_the_host { result.is_out ≡ [] }
    {
        Manager::over(alloc, onion, policy, Channels::new(alloc))
    }

    // ---- looked at

    /// How many channels there are. Takes no memory.
    pub fn channel_count(&self) -> usize
        ensures { result ≡ length self.now.channels.parts.links }
    {
        self.channels.len()
    }

    /// What the link of a channel is, to be looked at. Takes no memory.
    pub fn machine(&self, channel: usize) -> Option<&ChannelMachine<K>>
        ensures { option_copied result ≡ slice_get self.now.channels.parts.links channel }
    {
        self.channels.machine(channel)
    }

    /// Whether the link of a channel has halted: it answers 62 until all channels are loaded anew. Takes no memory.
    pub fn has_halted(&self, channel: usize) -> bool
        ensures { result ≡ halted_in (slice_get self.now.channels.parts.links channel) }
    {
        self.channels.has_halted(channel)
    }

    /// The number of the channel that has this id, or awaits it. Takes no memory.
    pub fn number_of(&self, id: &ChannelId) -> Option<usize>
        ensures { result ≡ number_in self.now.channels.parts.numbers self.now.channels.parts.links id.now }
    {
        self.channels.number_of(id)
    }

    /// The service that opens onions, for its host to tell it what it has opened. Takes no memory.
    pub fn onion_mut(&mut self) -> &mut O {
        &mut self.onion
    }

    /// The HTLCs that are held, of all channels. Error: 60 alone.
    pub fn held(&self, alloc: Global) -> Result<Vec<HeldHtlc>, Refusal>
        ensures lists_what_is_held { IfOk result (λ v. v.items ≡ all_held (table_of self.now.channels.parts.book)) }
        ensures fails_for_memory_alone { IfErr result (λ r. r ≡ Refusal.Memory) }
    {
        self.channels.held(alloc)
    }

    // ---- channels are added

    // A line for the channel of this number, unless it has one. Error: 60 alone.
    fn make_line(&mut self, alloc: Global, channel: usize, events: u64) -> Result<(), Refusal>
        ensures channels_stay { self.new.channels ≡ self.old.channels }
        ensures fails_for_memory_alone { IfErr result (λ r. r ≡ Refusal.Memory) }
    {
        if self.line_count <= channel {
            self.lines.add(alloc, events)?;
            self.line_count = self.line_count.saturating_add(1);
        }
        Ok(())
    }

    // Places for the channel of this number, whose saved record tells of so many events. What lacks memory is made by
    // the next call. Error: 60 alone.
    fn make_places(&mut self, alloc: Global, channel: usize, events: u64) -> Result<(), Refusal>
        ensures channels_stay { self.new.channels ≡ self.old.channels }
        ensures fails_for_memory_alone { IfErr result (λ r. r ≡ Refusal.Memory) }
    {
        self.due.make_place(channel)?;
        self.unsigned.make_place(channel)?;
        self.untold.make_place(channel)?;
        make_place(&mut self.told_uses, channel, None)?;
        make_place(&mut self.is_out, channel, false)?;
        self.make_line(alloc, channel, events)
    }

    /// A channel that this side asks for by this spec: its number. Error: 60 alone, which adds none.
    pub fn add_funder(&mut self, alloc: Global, keys: K, spec: FitSpec) -> Result<usize, Refusal>
        ensures adds { OnOk result (self.new.channels.parts.links
            ≡ self.old.channels.parts.links ++ begun keys (stage.AwaitsAccept spec) ∷ []) }
        ensures is_the_next { IfOk result (λ c. c ≡ length self.old.channels.parts.links) }
        ensures adds_none_if_refused { OnErr result (self.new.channels.parts.links ≡ self.old.channels.parts.links) }
        ensures fails_for_memory_alone { IfErr result (λ r. r ≡ Refusal.Memory) }
        ensures book_stays { self.new.channels.parts.book ≡ self.old.channels.parts.book }
        ensures leads_on { Leads K.signer self.old.channels self.new.channels }
    {
        let channel = self.channels.len();
        if let Err(refusal) = self.make_places(alloc, channel, 0) {
            drop(keys);
            drop(spec);
            return Err(refusal);
        }
        self.channels.add_funder(alloc, keys, spec)?;
        Ok(channel)
    }

    /// A channel that a peer may ask for, which is taken with this config: its number. Error: 60 alone, which adds
    /// none.
    pub fn add_fundee(
        &mut self,
        alloc: Global,
        keys: K,
        config: FitConfig,
    ) -> Result<usize, Refusal>
        ensures adds { OnOk result (self.new.channels.parts.links
            ≡ self.old.channels.parts.links ++ begun keys (stage.AwaitsOpen config) ∷ []) }
        ensures is_the_next { IfOk result (λ c. c ≡ length self.old.channels.parts.links) }
        ensures adds_none_if_refused { OnErr result (self.new.channels.parts.links ≡ self.old.channels.parts.links) }
        ensures fails_for_memory_alone { IfErr result (λ r. r ≡ Refusal.Memory) }
        ensures book_stays { self.new.channels.parts.book ≡ self.old.channels.parts.book }
        ensures leads_on { Leads K.signer self.old.channels self.new.channels }
    {
        let channel = self.channels.len();
        if let Err(refusal) = self.make_places(alloc, channel, 0) {
            drop(keys);
            drop(config);
            return Err(refusal);
        }
        self.channels.add_fundee(alloc, keys, config)?;
        Ok(channel)
    }

    /// Names the funding of a channel, until `accept_channel` is taken: `Link::name_funding`. Errors: 40 where there
    /// is no such channel, and those of that call.
    pub fn name_funding(
        &mut self,
        channel: usize,
        txid: [u8; 32],
        output: u16,
    ) -> Result<(), Refusal>
        ensures answer { result ≡ naming_in (slice_get self.old.channels.parts.links channel) }
        ensures names_it { self.new ≡ record self.old {
          channels = record self.old.channels {
            parts = record self.old.channels.parts {
              links = changed_at channel (with_funding txid output) self.old.channels.parts.links;
            };
          };
        } }
        ensures leads_on { Leads K.signer self.old.channels self.new.channels }
    {
        self.channels.name_funding(channel, txid, output)
    }

    // ---- what a link hands out

    // What the book commands may be due in the channel of this id.
    fn list_due(&mut self, id: Option<ChannelId>)
        ensures marks_stay { self.new.is_out ≡ self.old.is_out }
        ensures leads_on { Leads K.signer self.old.channels self.new.channels }
    {
        let Some(id) = id else {
            return;
        };
        if let Some(channel) = self.channels.number_of(&id) {
            self.due.list(channel);
        }
    }

    // What the book was told last of the end of a channel.
    fn told_use(&self, channel: usize) -> Option<Use> {
        match self.told_uses.get(channel) {
            None => None,
            Some(used) => *used,
        }
    }

    fn note_use(&mut self, channel: usize, used: Use)
        ensures marks_stay { self.new.is_out ≡ self.old.is_out }
        ensures leads_on { Leads K.signer self.old.channels self.new.channels }
    {
        if let Some(told) = self.told_uses.get_mut(channel) {
            *told = Some(used);
        }
    }

    // The book hears which payments an end takes, where that is news. Error: 60 alone.
    fn follow(&mut self, channel: usize) -> Result<(), Refusal>
        ensures marks_stay { self.new.is_out ≡ self.old.is_out }
        ensures leads_on { Leads K.signer self.old.channels self.new.channels }
        ensures fails_for_memory_alone { IfErr result (λ r. r ≡ Refusal.Memory) }
    {
        let Some(used) = self.channels.use_of(channel) else {
            return Ok(());
        };
        if self.told_use(channel) == Some(used) {
            return Ok(());
        }
        self.channels.follow(self.policy, used)?;
        self.note_use(channel, used);
        Ok(())
    }

    // A link halts, and what waits for its connection is lost. The book hears, where there is memory for it, that it
    // takes no payments.
    fn halt(&mut self, channel: usize)
        ensures marks_stay { self.new.is_out ≡ self.old.is_out }
        ensures leads_on { Leads K.signer self.old.channels self.new.channels }
        ensures halts { LeadsBy K.signer (call.Halt channel) true self.old.channels self.new.channels }
    {
        self.channels.halt(channel);
        self.lines.lose(channel);
        drop(self.follow(channel));
    }

    // Whether each record that has changed stands in a batch. Error: 46 where one doesn't.
    fn leaves_none_out(&self) -> Result<(), Refusal>
        ensures { OnOk result (none_fresh self.now.channels.parts.records ≡ true) }
    {
        if self.is_spent {
            return Err(Refusal::NumbersSpent);
        }
        Ok(())
    }

    // A message waits in the line of its channel, after all records that have changed. Errors: 60, 46.
    fn push(&mut self, channel: usize, posted: Posted) -> Result<(), Refusal>
        ensures marks_stay { self.new.is_out ≡ self.old.is_out }
        ensures after_each_change { OnOk result (none_fresh self.old.channels.parts.records ≡ true) }
        ensures leads_on { Leads K.signer self.old.channels self.new.channels }
    {
        if let Err(refusal) = self.leaves_none_out() {
            drop(posted);
            return Err(refusal);
        }
        self.lines.push(channel, posted)
    }

    // A message waits in the line of its channel, with what is blank in it as the link is now. Errors: 60, 46.
    fn post(&mut self, alloc: Global, channel: usize, message: Message) -> Result<(), Refusal>
        ensures marks_stay { self.new.is_out ≡ self.old.is_out }
        ensures leads_on { Leads K.signer self.old.channels self.new.channels }
    {
        let blank = match self.channels.machine(channel) {
            None => Ok(None),
            Some(machine) => blank_of(alloc, machine, &message),
        };
        match blank {
            Ok(blank) => self.push(channel, Posted { message, blank }),
            Err(refusal) => {
                drop(message);
                Err(refusal)
            }
        }
    }

    // The book hears an event of a channel, by which another one may be due. Error: 60 alone.
    fn hear(&mut self, alloc: Global, channel: usize, number: u64) -> Result<(), Refusal>
        ensures marks_stay { self.new.is_out ≡ self.old.is_out }
        ensures leads_on { Leads K.signer self.old.channels self.new.channels }
    {
        let other = self.channels.hear(alloc, channel, number)?;
        self.list_due(other);
        Ok(())
    }

    fn hand_on_one(&mut self, alloc: Global, channel: usize, output: Output) -> Result<(), Refusal>
        ensures marks_stay { self.new.is_out ≡ self.old.is_out }
        ensures leads_on { Leads K.signer self.old.channels self.new.channels }
    {
        match output {
            Output::Send(message) => self.post(alloc, channel, message),
            Output::Event(number, event) => {
                drop(event);
                self.hear(alloc, channel, number)
            }
            Output::Signed(_) => Ok(()),
            Output::Committed { .. } => Ok(()),
            Output::Closed(_) => Ok(()),
        }
    }

    fn hand_on_all(
        &mut self,
        alloc: Global,
        channel: usize,
        outputs: Vec<Output>,
    ) -> Result<(), Refusal>
        ensures marks_stay { self.new.is_out ≡ self.old.is_out }
        ensures leads_on { Leads K.signer self.old.channels self.new.channels }
    {
        for output in outputs {
            self.hand_on_one(alloc, channel, output)?;
        }
        Ok(())
    }

    // What a link has handed out is handed on. Errors: 60, 46.
    fn hand_on(
        &mut self,
        alloc: Global,
        channel: usize,
        outputs: Vec<Output>,
    ) -> Result<(), Refusal>
        ensures marks_stay { self.new.is_out ≡ self.old.is_out }
        ensures leads_on { Leads K.signer self.old.channels self.new.channels }
    {
        self.hand_on_all(alloc, channel, outputs)?;
        self.follow(channel)?;
        self.due.list(channel);
        self.unsigned.list(channel);
        Ok(())
    }

    // After a call that a link has done: what it hands out is handed on, or else it halts.
    fn after(&mut self, alloc: Global, channel: usize, outputs: Vec<Output>) -> Result<(), Refusal>
        ensures marks_stay { self.new.is_out ≡ self.old.is_out }
        ensures leads_on { Leads K.signer self.old.channels self.new.channels }
    {
        match self.hand_on(alloc, channel, outputs) {
            Ok(()) => Ok(()),
            Err(refusal) => {
                self.halt(channel);
                Err(refusal)
            }
        }
    }

    // Whether a channel has a connection.
    fn is_up(&self, channel: usize) -> bool {
        match self.channels.machine(channel) {
            None => false,
            Some(machine) => !machine.connection().is_down(),
        }
    }

    // How the peer is told that its message was refused (BOLT 1, "The `error` and `warning` Messages"). Errors: 60, 46.
    fn reply(
        &mut self,
        alloc: Global,
        channel: usize,
        named: Option<ChannelId>,
        refusal: Refusal,
    ) -> Result<(), Refusal>
        ensures marks_stay { self.new.is_out ≡ self.old.is_out }
        ensures leads_on { Leads K.signer self.old.channels self.new.channels }
    {
        let Some(id) = named else {
            return Ok(());
        };
        if !self.is_up(channel) {
            return Ok(());
        }
        match Message::reply_to(alloc, refusal, &id)? {
            None => Ok(()),
            Some(message) => {
                let blank = None;
                self.push(channel, Posted { message, blank })
            }
        }
    }

    fn tell_refusal(
        &mut self,
        alloc: Global,
        channel: usize,
        named: Option<ChannelId>,
        refusal: Refusal,
    ) -> Result<(), Refusal>
        ensures marks_stay { self.new.is_out ≡ self.old.is_out }
        ensures leads_on { Leads K.signer self.old.channels self.new.channels }
    {
        self.reply(alloc, channel, named, refusal)?;
        self.follow(channel)?;
        self.due.list(channel);
        Ok(())
    }

    // After a call that a link has refused, or by which it has halted: what is answered.
    fn refused(
        &mut self,
        alloc: Global,
        channel: usize,
        named: Option<ChannelId>,
        refusal: Refusal,
    ) -> Refusal
        ensures marks_stay { self.new.is_out ≡ self.old.is_out }
        ensures leads_on { Leads K.signer self.old.channels self.new.channels }
    {
        if self.channels.has_halted(channel) {
            self.halt(channel);
            return refusal;
        }
        match self.tell_refusal(alloc, channel, named, refusal) {
            Ok(()) => refusal,
            Err(memory) => {
                self.halt(channel);
                memory
            }
        }
    }

    // ---- what the book commands

    // What became of a command of the book: true where a further one may be taken.
    fn conclude(&mut self, alloc: Global, channel: usize, given: Given) -> bool
        ensures marks_stay { self.new.is_out ≡ self.old.is_out }
        ensures leads_on { Leads K.signer self.old.channels self.new.channels }
    {
        match given {
            Given::Nothing => false,
            Given::Waits => false,
            Given::Refused(origin) => {
                self.list_due(origin);
                true
            }
            Given::Halted => {
                self.halt(channel);
                false
            }
            Given::Done(outputs) => self.after(alloc, channel, outputs).is_ok(),
        }
    }

    // A link is given the first command of the book, and its record stands in the open batch. Error: 60 alone.
    fn obey_book(&mut self, alloc: Global, channel: usize) -> Result<Given, Refusal>
        ensures marks_stay { self.new.is_out ≡ self.old.is_out }
        ensures leads_on { Leads K.signer self.old.channels self.new.channels }
        ensures fails_for_memory_alone { IfErr result (λ r. r ≡ Refusal.Memory) }
    {
        let given = self.channels.obey_book(alloc, &self.onion, channel);
        let batched = batch(
            &mut self.channels,
            &mut self.lines,
            &mut self.is_spent,
            channel,
        );
        Ok(given_if(batched, given?))
    }

    /// What the book commands is done, until nothing is due; what lacks memory is left, and due in the next call.
    pub fn go_on(&mut self, alloc: Global)
        ensures marks_stay { self.new.is_out ≡ self.old.is_out }
        ensures leads_on { Leads K.signer self.old.channels self.new.channels }
    {
        for _ in 0..u64::MAX {
            let Some(channel) = self.due.first() else {
                return;
            };
            let Ok(given) = self.obey_book(alloc, channel) else {
                return;
            };
            if self.conclude(alloc, channel, given) {
                continue;
            }
            self.due.leave();
        }
    }

    /// Each channel has its turn again: after a load, what its book commands may have waited for onions. What lacks
    /// memory is left, and due in the next call.
    pub fn turn_all(&mut self, alloc: Global)
        ensures marks_stay { self.new.is_out ≡ self.old.is_out }
        ensures leads_on { Leads K.signer self.old.channels self.new.channels }
    {
        for channel in 0..self.channels.len() {
            self.due.list(channel);
        }
        self.go_on(alloc);
    }

    // ---- calls for peers and users

    // What a link has answered is handed on, and what is due is done.
    fn finish(
        &mut self,
        alloc: Global,
        channel: usize,
        named: Option<ChannelId>,
        answer: Result<Vec<Output>, Refusal>,
    ) -> Result<(), Refusal>
        ensures marks_stay { self.new.is_out ≡ self.old.is_out }
        ensures leads_on { Leads K.signer self.old.channels self.new.channels }
        ensures only_what_was_answered { OnOk result (IsOk answer) }
    {
        let done = match answer {
            Ok(outputs) => self.after(alloc, channel, outputs),
            Err(refusal) => Err(self.refused(alloc, channel, named, refusal)),
        };
        self.go_on(alloc);
        done
    }

    /// There is a connection to the peer of a channel: `Link::connect`. Errors: 40 where there is no such channel;
    /// those of that call.
    pub fn connect(&mut self, alloc: Global, channel: usize) -> Result<(), Refusal>
        ensures marks_stay { self.new.is_out ≡ self.old.is_out }
        ensures connects { LeadsBy K.signer (call.Connect channel) (is_ok result) self.old.channels
            self.new.channels }
    {
        let answer = self.channels.connect(alloc, channel);
        self.finish(alloc, channel, None, answer)
    }

    /// The connection of a channel is lost, and with it the messages that wait. Nothing happens where there is none.
    /// Error: 60, by which the link halts.
    pub fn disconnect(&mut self, alloc: Global, channel: usize) -> Result<(), Refusal>
        ensures marks_stay { self.new.is_out ≡ self.old.is_out }
        ensures disconnects { LeadsBy K.signer (call.Disconnect channel) (is_ok result) self.old.channels
            self.new.channels }
    {
        self.lines.lose(channel);
        match self.channels.disconnect(alloc, channel) {
            Ok(()) => self.finish(alloc, channel, None, Ok(Vec::new(alloc))),
            Err(refusal) => self.finish(alloc, channel, None, Err(refusal)),
        }
    }

    /// The link of a channel takes a message of its peer's with these keys, which answer for it: `Link::handle`, over a
    /// store that knows the channels that others have or await. A refusal is told to the peer. Whether the link has
    /// taken it, with its record in the open batch, also where it has halted then; and what is answered.
    ///
    /// Errors: 40 where there is no such channel; those of that call.
    pub fn message(
        &mut self,
        alloc: Global,
        channel: usize,
        keys: K,
        message: Message,
    ) -> (bool, Result<(), Refusal>)
        ensures marks_stay { self.new.is_out ≡ self.old.is_out }
        ensures takes { LeadsBy K.signer (call.Message channel keys message) result.0 self.old.channels
            self.new.channels }
        ensures only_what_is_taken { OnOk result.1 (result.0 ≡ true) }
    {
        let named = channel_of(&message);
        let answer = self.channels.message(alloc, channel, keys, message);
        let batched = batch(
            &mut self.channels,
            &mut self.lines,
            &mut self.is_spent,
            channel,
        );
        let answer = if_batched(batched, answer);
        let is_taken = answer.is_ok();
        (is_taken, self.finish(alloc, channel, named, answer))
    }

    /// The link of a channel does what its user says: the id of the HTLC that it offers, or 0.
    ///
    /// Errors: 40 where there is no such channel, or what the book alone commands: a removal, a decision, or an HTLC
    /// that forwards another; else those of `Link::command`.
    pub fn command(
        &mut self,
        alloc: Global,
        channel: usize,
        command: Command,
    ) -> Result<u64, Refusal>
        ensures marks_stay { self.new.is_out ≡ self.old.is_out }
        ensures obeys { LeadsBy K.signer (call.Command channel command) (is_ok result) self.old.channels
            self.new.channels }
        ensures subject { IfOk result (λ n. n ≡ answers.command_subject
            (answers.next_id (end_in (slice_get self.old.channels.parts.links channel))) command) }
    {
        let subject = self.channels.subject(channel, &command);
        let answer = self.channels.command(alloc, channel, command);
        let batched = batch(
            &mut self.channels,
            &mut self.lines,
            &mut self.is_spent,
            channel,
        );
        match self.finish(alloc, channel, None, if_batched(batched, answer)) {
            Ok(()) => Ok(subject),
            Err(refusal) => Err(refusal),
        }
    }

    /// Each channel signs that owes a signature. What a channel refuses is left; one that lacks memory halts.
    pub fn sign(&mut self, alloc: Global)
        ensures marks_stay { self.new.is_out ≡ self.old.is_out }
        ensures leads_on { Leads K.signer self.old.channels self.new.channels }
    {
        for _ in 0..u64::MAX {
            let Some(channel) = self.unsigned.first() else {
                return;
            };
            self.unsigned.leave();
            drop(self.command(alloc, channel, Command::Sign));
        }
    }

    // ---- events

    // Whether the first undecided event of a channel is with the host.
    fn is_out(&self, channel: usize) -> bool
        ensures { result ≡ is_with_host channel self.now.is_out }
    {
        match self.is_out.get(channel) {
            None => false,
            Some(is_out) => *is_out,
        }
    }

    fn set_out(&mut self, channel: usize, out: bool)
        ensures marks { self.new.is_out ≡ marked_at channel out self.old.is_out }
        ensures channels_stay { self.new.channels ≡ self.old.channels }
        ensures lines_stay { self.new.lines ≡ self.old.lines }
    {
        if let Some(is_out) = self.is_out.get_mut(channel) {
            *is_out = out;
        }
    }

    // The number of the first event that a channel hasn't decided.
    fn decided(&self, channel: usize) -> u64
        ensures { result ≡ decided_in (end_in (slice_get self.now.channels.parts.links channel)) }
    {
        match self.channels.end(channel) {
            None => 0,
            Some(end) => end.ledger().decided(),
        }
    }

    // Whether the first undecided event of a channel, where it has one, is for the host: it is saved, and isn't with it
    // yet.
    fn is_untold(&self, channel: usize) -> bool
        ensures { result ≡ is_for_host (slice_get self.now.channels.parts.links channel)
            (is_with_host channel self.now.is_out) (saved_events channel self.now.lines) }
    {
        !self.channels.has_halted(channel)
            && !self.is_out(channel)
            && self.decided(channel) < self.lines.saved_events(channel)
    }

    // The first undecided event of a channel, where it is for the host. Error: 60 alone.
    fn event_for_host(&self, alloc: Global, channel: usize) -> Result<Option<ChannelEvent>, Refusal>
        ensures event { IfOk result (λ e. e ≡ event_for_host (slice_get self.now.channels.parts.links channel)
            (is_with_host channel self.now.is_out) (saved_events channel self.now.lines)) }
        ensures fails_for_memory_alone { IfErr result (λ r. r ≡ Refusal.Memory) }
    {
        if self.is_untold(channel) {
            self.channels.first_event(alloc, channel)
        } else {
            Ok(None)
        }
    }

    /// The next event for the host, with its channel and its number among the channel's events: its record is saved,
    /// and it comes again after a load alone. `verdict` says what is to be done about it. Takes memory for the event.
    /// Error: 60 alone, and nothing has changed.
    pub fn next_event(
        &mut self,
        alloc: Global,
    ) -> Result<Option<(usize, u64, ChannelEvent)>, Refusal>
        ensures gives_what_is_for_the_host { IfOk result (λ o. IfSome o (λ r. Some r.2
            ≡ event_for_host (slice_get self.old.channels.parts.links r.0)
            (is_with_host r.0 self.old.is_out) (saved_events r.0 self.old.lines))) }
        ensures by_its_number { IfOk result (λ o. IfSome o (λ r. r.1
            ≡ decided_in (end_in (slice_get self.old.channels.parts.links r.0)))) }
        ensures marks_it { IfOk result (λ o. IfSome o (λ r. self.new.is_out
            ≡ marked_at r.0 true self.old.is_out)) }
        ensures or_nothing { IfOk result (λ o. IfNone o (self.new.is_out ≡ self.old.is_out)) }
        ensures changes_nothing_if_refused { OnErr result (self.new.is_out ≡ self.old.is_out) }
        ensures fails_for_memory_alone { IfErr result (λ r. r ≡ Refusal.Memory) }
        ensures channels_stay { self.new.channels ≡ self.old.channels }
        ensures lines_stay { self.new.lines ≡ self.old.lines }
    {
        for _ in 0..u64::MAX {
            let Some(channel) = self.untold.first() else {
                return Ok(None);
            };
            let found = self.event_for_host(alloc, channel)?;
            self.untold.leave();
            if let Some(event) = found {
                self.set_out(channel, true);
                return Ok(Some((channel, self.decided(channel), event)));
            }
        }
        Ok(None)
    }

    // What a decision has made of its channel: what is handed out is handed on, and what is due is done, here and in
    // the channel that the mark forwards to.
    fn decided_by(
        &mut self,
        alloc: Global,
        channel: usize,
        target: Option<ChannelId>,
        given: Given,
    ) -> Result<(), Refusal>
        ensures marks_stay { self.new.is_out ≡ self.old.is_out }
        ensures leads_on { Leads K.signer self.old.channels self.new.channels }
        ensures fails_for_memory_alone { IfErr result (λ r. r ≡ Refusal.Memory) }
    {
        let done = self.conclude(alloc, channel, given);
        self.list_due(target);
        self.due.list(channel);
        self.go_on(alloc);
        if done { Ok(()) } else { Err(Refusal::Memory) }
    }

    // Whether the event of this number of a channel is with the host. Errors: 62, 40.
    fn may_decide(&self, channel: usize, event: u64) -> Result<(), Refusal>
        ensures { result ≡ may_decide (slice_get self.now.channels.parts.links channel)
            (is_with_host channel self.now.is_out) event }
    {
        if self.channels.has_halted(channel) {
            return Err(Refusal::Halted);
        }
        if self.is_out(channel) && self.decided(channel) == event {
            Ok(())
        } else {
            Err(Refusal::NotReady)
        }
    }

    /// What the host says of the event of a channel that is with it, by its number: an HTLC that came in is forwarded,
    /// taken or failed by its onion, failed, or held; of any other event nothing is to be done, but it is over.
    ///
    /// Errors: 40 where there is no such channel, or its event of this number isn't with the host; 62; 60, where the
    /// event stays with the host unless the link halts.
    pub fn verdict(
        &mut self,
        alloc: Global,
        channel: usize,
        event: u64,
        verdict: Verdict,
    ) -> Result<(), Refusal>
        ensures only_what_is_with_the_host { OnOk result (may_decide (slice_get self.old.channels.parts.links channel)
            (is_with_host channel self.old.is_out) event ≡ Ok tt) }
        ensures refuses_others { IfErr (may_decide (slice_get self.old.channels.parts.links channel)
            (is_with_host channel self.old.is_out) event) (λ r. (result ≡ Err r)
            × (self.new.channels ≡ self.old.channels) × (self.new.is_out ≡ self.old.is_out)) }
        ensures is_over { OnOk result (self.new.is_out ≡ marked_at channel false self.old.is_out) }
        ensures decides { may_decide (slice_get self.old.channels.parts.links channel)
            (is_with_host channel self.old.is_out) event ≡ Ok tt
            → LeadsBy K.signer (call.Decide (O.services self.old.onion) channel verdict) (is_ok result)
            self.old.channels self.new.channels }
        ensures refuses_for_a_reason { may_decide (slice_get self.old.channels.parts.links channel)
            (is_with_host channel self.old.is_out) event ≡ Ok tt
            → IfErr result (λ r. (r ≡ Refusal.Memory) ⊎ ((r ≡ Refusal.NotReady)
            × (events.next_event (working_end (slice_get self.old.channels.parts.links channel)) ≡ None))) }
    {
        self.may_decide(channel, event)?;
        let decided = self.channels.decide(alloc, &self.onion, channel, verdict);
        let batched = batch(
            &mut self.channels,
            &mut self.lines,
            &mut self.is_spent,
            channel,
        );
        let (mark, given) = decided?;
        let target = target_of(&mark);
        drop(mark);
        self.set_out(channel, false);
        self.untold.list(channel);
        self.decided_by(alloc, channel, target, given_if(batched, given))
    }

    /// What the host says of an HTLC that is held by the number of this event.
    ///
    /// Errors: 40 where there is no such channel, or it holds none by this number; 62; 60.
    pub fn resume(
        &mut self,
        alloc: Global,
        channel: usize,
        event: u64,
        verdict: Verdict,
    ) -> Result<(), Refusal>
        ensures refuses_a_halted_link { halted_in (slice_get self.old.channels.parts.links channel) ≡ true
            → (result ≡ Err Refusal.Halted) × (self.new ≡ self.old) }
        ensures only_of_a_link_that_works { OnOk result
            (halted_in (slice_get self.old.channels.parts.links channel) ≡ false) }
        ensures marks_stay { self.new.is_out ≡ self.old.is_out }
        ensures resumes { halted_in (slice_get self.old.channels.parts.links channel) ≡ false
            → LeadsBy K.signer (call.Resume (O.services self.old.onion) channel event verdict) (is_ok result)
            self.old.channels self.new.channels }
        ensures refuses_for_a_reason { halted_in (slice_get self.old.channels.parts.links channel) ≡ false
            → IfErr result (λ r. (r ≡ Refusal.Memory) ⊎ ((r ≡ Refusal.NotReady)
            × HoldsNone (O.services self.old.onion) (working_id (slice_get self.old.channels.parts.links channel)) event
            verdict self.old.channels.parts.book)) }
    {
        if self.channels.has_halted(channel) {
            return Err(Refusal::Halted);
        }
        let decided = self
            .channels
            .resume(alloc, &self.onion, channel, event, verdict);
        let batched = batch(
            &mut self.channels,
            &mut self.lines,
            &mut self.is_spent,
            channel,
        );
        let (mark, given) = decided?;
        let target = target_of(&mark);
        drop(mark);
        self.decided_by(alloc, channel, target, given_if(batched, given))
    }

    // ---- settings

    /// The block height from now on. Error: 40 above 400,000,000.
    pub fn set_height(&mut self, height: u32) -> Result<(), Refusal>
        ensures answer { result ≡ height_answer height }
        ensures enters_the_height { self.new ≡ record self.old {
          channels = record self.old.channels {
            parts = record self.old.channels.parts { book = with_height height self.old.channels.parts.book };
          };
        } }
        ensures leads_on { Leads K.signer self.old.channels self.new.channels }
    {
        self.channels.set_height(height)
    }

    /// A payment is waited for: `Book::expect`. Error: 60 alone.
    pub fn expect(
        &mut self,
        preimage: [u8; 32],
        secret: [u8; 32],
        amount: u64,
    ) -> Result<(), Refusal>
        ensures enters_the_invoice { OnOk result (self.new ≡ record self.old {
          channels = record self.old.channels {
            parts = record self.old.channels.parts {
              book = with_entry (entry.Expect (record {
                preimage = preimage;
                expected = record { secret = secret; amount = amount };
              })) self.old.channels.parts.book;
            };
          };
        }) }
        ensures changes_nothing_if_refused { OnErr result (self.new ≡ self.old) }
        ensures fails_for_memory_alone { IfErr result (λ r. r ≡ Refusal.Memory) }
        ensures leads_on { Leads K.signer self.old.channels self.new.channels }
    {
        self.channels.expect(preimage, secret, amount)
    }

    // ---- batches and messages

    // The record of a channel, to be saved. Error: 60 alone.
    fn saved_record(&self, alloc: Global, channel: usize) -> Result<Option<SavedRecord>, Refusal>
        ensures newest { IfOk result (λ o. listed o ≡ record_of self.now.channels.parts channel) }
        ensures fails_for_memory_alone { IfErr result (λ r. r ≡ Refusal.Memory) }
    {
        let Some(end) = self.channels.end(channel) else {
            return Ok(None);
        };
        let id = end.id();
        let Some(newest) = self.channels.record(channel) else {
            return Ok(None);
        };
        match newest.find(&id) {
            None => Ok(None),
            Some(record) => {
                let bytes = Bytes::from_slice(alloc, record.as_slice())?;
                Ok(Some(SavedRecord { channel, id, bytes }))
            }
        }
    }

    // Those of the open batch. Error: 60 alone.
    fn open_records(&self, alloc: Global) -> Result<Vec<SavedRecord>, Refusal>
        ensures newest { IfOk result (λ v. v.items
            ≡ records_of self.now.channels.parts self.now.lines.open_channels) }
        ensures fails_for_memory_alone { IfErr result (λ r. r ≡ Refusal.Memory) }
    {
        let mut records = Vec::new(alloc);
        for channel in self.lines.open_channels() {
            if let Some(record) = self.saved_record(alloc, *channel)? {
                records.push(record)?;
            }
        }
        Ok(records)
    }

    /// The open batch is closed: its host saves it in one transaction, and says so by `saved`. None where nothing has
    /// changed, or the batch before isn't saved. Errors: 60; 46, also where the batch would leave out a record that has
    /// changed; nothing has changed then.
    pub fn close_batch(&mut self, alloc: Global) -> Result<Option<Batch>, Refusal>
        ensures has_the_newest_records { IfOk result (λ o. IfSome o (λ b. b.records.items
            ≡ records_of self.old.channels.parts self.old.lines.open_channels)) }
        ensures leaves_none_out { IfOk result (λ o. IfSome o
            (λ b. none_fresh self.old.channels.parts.records ≡ true)) }
        ensures channels_stay { self.new.channels ≡ self.old.channels }
        ensures marks_stay { self.new.is_out ≡ self.old.is_out }
        ensures closes { IfOk result (λ o. IfSome o (λ b. (self.new.lines ≡ closed self.old.lines)
            × (b.number ≡ self.new.lines.batches))) }
        ensures or_nothing { IfOk result (λ o. IfNone o (self.new.lines ≡ self.old.lines)) }
        ensures where_there_is_none { IfOk result (λ o. IfNone o (can_close self.old.lines ≡ false)) }
        ensures changes_nothing_if_refused { OnErr result (self.new.lines ≡ self.old.lines) }
    {
        if !self.lines.can_close() {
            return Ok(None);
        }
        self.leaves_none_out()?;
        let records = self.open_records(alloc)?;
        match self.lines.close() {
            Ok(number) => Ok(Some(Batch { number, records })),
            Err(refusal) => {
                drop(records);
                Err(refusal)
            }
        }
    }

    // The channels of the closed batch may have events for the host.
    fn list_untold(&mut self)
        ensures nothing_is_seen_of_it { self.new ≡ self.old }
    {
        for channel in self.lines.closed_channels() {
            self.untold.list(*channel);
        }
    }

    /// The closed batch is saved: what waited for it may leave. Errors: 40 where it isn't the one of this number, 60;
    /// nothing has changed then.
    pub fn saved(&mut self, batch: u64) -> Result<(), Refusal>
        ensures marks_stay { self.new.is_out ≡ self.old.is_out }
        ensures saved { OnOk result (self.new.lines ≡ saved self.old.lines) }
        ensures only_the_closed_one { OnOk result (is_closed batch self.old.lines ≡ true) }
        ensures refuses_for_a_reason { IfErr result (λ e. (e ≡ Refusal.Memory)
            ⊎ ((e ≡ Refusal.NotReady) × (is_closed batch self.old.lines ≡ false))) }
        ensures channels_stay { self.new.channels ≡ self.old.channels }
        ensures changes_nothing_if_refused { OnErr result (self.new.lines ≡ self.old.lines) }
    {
        self.list_untold();
        self.lines.save(batch)
    }

    /// The channel whose first message is handed to the host next: its batch is saved. Error: 60 alone, and nothing has
    /// changed.
    pub fn next_message(&mut self) -> Result<Option<usize>, Refusal>
        ensures marks_stay { self.new.is_out ≡ self.old.is_out }
        ensures hands_out_what_may_leave { IfOk result (λ o. IfSome o (λ c. (may_leave self.old.lines
            (first_at c self.old.lines) ≡ true) × (self.new.lines ≡ handed c self.old.lines))) }
        ensures hands_out_once { IfOk result (λ o. IfSome o (λ c. is_out c self.old.lines ≡ false)) }
        ensures or_nothing { IfOk result (λ o. IfNone o (self.new.lines ≡ self.old.lines)) }
        ensures changes_nothing_if_refused { OnErr result (self.new.lines ≡ self.old.lines) }
        ensures fails_for_memory_alone { IfErr result (λ r. r ≡ Refusal.Memory) }
        ensures channels_stay { self.new.channels ≡ self.old.channels }
    {
        self.lines.next()
    }

    /// The first message of a channel. Takes no memory.
    pub fn first_message(&self, channel: usize) -> Option<&Waiting<Posted>>
        ensures { option_copied result ≡ first_at channel self.now.lines }
    {
        self.lines.first(channel)
    }

    /// What is blank in the first message of a channel is filled, and the message comes again. Error: 60 alone.
    pub fn fill(&mut self, channel: usize, filling: Filling) -> Result<(), Refusal>
        ensures fails_for_memory_alone { IfErr result (λ r. r ≡ Refusal.Memory) }
        ensures changes_nothing_if_refused { OnErr result (self.new ≡ self.old) }
        ensures channels_stay { self.new.channels ≡ self.old.channels }
        ensures marks_stay { self.new.is_out ≡ self.old.is_out }
    {
        self.lines.fill(channel, filling)
    }

    /// The message of this number, which is with the host, has left. Errors: `Lines::send`.
    pub fn sent(&mut self, channel: usize, number: u64) -> Result<(), Refusal>
        ensures marks_stay { self.new.is_out ≡ self.old.is_out }
        ensures has_left { OnOk result (self.new.lines ≡ sent channel self.old.lines) }
        ensures only_what_may { OnOk result ((lines.is_with_host channel number self.old.lines ≡ true)
            × (may_leave self.old.lines (first_at channel self.old.lines) ≡ true)) }
        ensures refuses_for_a_reason { IfErr result (λ e. (e ≡ Refusal.Memory) ⊎ ((e ≡ Refusal.NotReady)
            × ((lines.is_with_host channel number self.old.lines
            && may_leave self.old.lines (first_at channel self.old.lines)) ≡ false))) }
        ensures changes_nothing_if_refused { OnErr result (self.new.lines ≡ self.old.lines) }
        ensures channels_stay { self.new.channels ≡ self.old.channels }
    {
        self.lines.send(channel, number)
    }

    // ---- a load

    // The book hears which payments the end of a channel takes, and its events are for the host again. Error: 60.
    fn begin_one(&mut self, alloc: Global, channel: usize) -> Result<(), Refusal>
        ensures leads_on { Leads K.signer self.old.channels self.new.channels }
        ensures fails_for_memory_alone { IfErr result (λ r. r ≡ Refusal.Memory) }
    {
        let events = event_count(self.channels.end(channel));
        self.make_places(alloc, channel, events)?;
        self.follow(channel)?;
        self.untold.list(channel);
        self.due.list(channel);
        Ok(())
    }

    fn begin(&mut self, alloc: Global) -> Result<(), Refusal>
        ensures leads_on { Leads K.signer self.old.channels self.new.channels }
        ensures fails_for_memory_alone { IfErr result (λ r. r ≡ Refusal.Memory) }
    {
        for channel in 0..self.channels.len() {
            self.begin_one(alloc, channel)?;
        }
        self.go_on(alloc);
        Ok(())
    }

    /// The manager of what its host saved last: all channels at once, each from its record. None has a connection. The
    /// events that aren't decided come again.
    ///
    /// Errors: those of `Link::from_record` (70, 71), 70 where two records have one id, and 60.
    pub fn load(
        alloc: Global,
        onion: O,
        policy: Policy,
        saved: Vec<Saved<K>>,
    ) -> Result<Manager<K, O>, Refusal>
        ensures loads { IfOk result (λ m. (p : Parts K) × AreLoaded saved.items p
            × Leads K.signer (record { began = p; parts = p }) m.channels) }
        ensures fails { IfErr result (λ r. (r ≡ Refusal.Memory) ⊎ LacksSome saved.items no_seats r) }
    {
        match Channels::load(alloc, saved) {
            Ok(channels) => begun(alloc, Manager::over(alloc, onion, policy, channels)),
            Err(refusal) => {
                drop(onion);
                Err(refusal)
            }
        }
    }
}

// A manager whose channels are loaded begins. Error: 60.
fn begun<K: ChannelKeys + Drop, O: Onion + Drop>(
    alloc: Global,
    manager: Manager<K, O>,
) -> Result<Manager<K, O>, Refusal>
    ensures leads_on { IfOk result (λ m. Leads K.signer manager.channels m.channels) }
    ensures fails_for_memory_alone { IfErr result (λ r. r ≡ Refusal.Memory) }
{
    let mut manager = manager;
    match manager.begin(alloc) {
        Ok(()) => Ok(manager),
        Err(refusal) => {
            drop(manager);
            Err(refusal)
        }
    }
}
