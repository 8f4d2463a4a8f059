//! What a book says, as it is kept.

use crate::entry::{
    Decided, Invoice, KeptState, Out, OutgoingChannel, PendingCommand, Queued, Resumed,
};
use crate::held::HeldHtlc;
use crate::htlc::{Htlc, IncomingLeg, Key, OutgoingLeg};
use crate::indexed::IndexedHtlcs;
use crate::lists::{Change, Which, is_any_resumed, unqueue, unresume};
use indexmap::IndexMap;
use ln_hooks::How;
use ln_keys::sha256_32;
use ln_log::{ChannelId, Mark};
use ln_refusals::Refusal;
use std::alloc::Global;
use std::marker::Model;
use std::mem;

/// What a book says. Contracts see it as a `Table` of specs/Replay.antt.
#[derive(Drop)]
pub struct Tables {
    routes: IndexMap<[u8; 8], OutgoingChannel>,
    used: IndexMap<ChannelId, bool>,
    height: u32,
    expected: IndexMap<[u8; 32], Invoice>,
    queue: Vec<Queued>,
    htlcs: IndexedHtlcs,
    pending_commands: IndexMap<ChannelId, PendingCommand>,
}

impl Model for Tables {
    ghost use Rattle.ln_book_tables.specs.Replay.{Table};

    ghost Value = { Table };

    ghost view = { λ t. record {
      routes = t.routes.entries;
      used = t.used.entries;
      height = t.height;
      expected = t.expected.entries;
      queue = t.queue.items;
      htlcs = t.htlcs;
      pending_commands = t.pending_commands.entries;
    } };
}

impl Tables {
    ghost use Rattle.std.specs.Prelude.{◌≡◌, OnOk, OnErr, IfErr, IfOk, option_copied};
    ghost use Rattle.std.specs.Map.{lookup};
    ghost use Rattle.ln_book_tables.specs.Replay.{no_table, same, with_route, with_use, with_height, with_invoice};
    ghost use Rattle.std.specs.List.{find};
    ghost use Rattle.ln_book_tables.specs.Replay.{is_usable, pending_command_at, held_by, is_htlc, is_offered};
    ghost use Rattle.ln_book_tables.specs.Held.{all_held};
    ghost use Rattle.ln_book_tables.specs.Ids.{ids_in};
    ghost use Rattle.std.specs.Prelude.{◌<◌, length, slice_index_or};
    ghost use Rattle.ln_book_tables.specs.Due.{due_htlcs};

    /// Nothing is said. Takes no memory.
    pub fn new(alloc: Global) -> Tables
        ensures { result ≡ no_table }
    {
        Tables {
            routes: IndexMap::new(alloc),
            used: IndexMap::new(alloc),
            height: 0,
            expected: IndexMap::new(alloc),
            queue: Vec::new(alloc),
            htlcs: IndexedHtlcs::new(alloc),
            pending_commands: IndexMap::new(alloc),
        }
    }

    /// A short channel id names a channel. Error: 60, which changes nothing.
    pub fn set_route(&mut self, id: [u8; 8], outgoing: OutgoingChannel) -> Result<(), Refusal>
        ensures done { OnOk result (self.new ≡ with_route id outgoing self.old) }
        ensures changes_nothing_if_refused { OnErr result (self.new ≡ self.old) }
        ensures fails_for_memory_alone { IfErr result (λ r. r ≡ Refusal.Memory) }
    {
        match self.routes.insert(id, outgoing) {
            Ok(_) => Ok(()),
            Err(_) => Err(Refusal::Memory),
        }
    }

    /// Whether a channel takes payments. Error: 60, which changes nothing.
    pub fn set_usable(&mut self, channel: ChannelId, usable: bool) -> Result<(), Refusal>
        ensures done { OnOk result (self.new ≡ with_use channel usable self.old) }
        ensures changes_nothing_if_refused { OnErr result (self.new ≡ self.old) }
        ensures fails_for_memory_alone { IfErr result (λ r. r ≡ Refusal.Memory) }
    {
        match self.used.insert(channel, usable) {
            Ok(_) => Ok(()),
            Err(_) => Err(Refusal::Memory),
        }
    }

    /// The block height. Takes no memory.
    pub fn set_height(&mut self, height: u32)
        ensures { self.new ≡ with_height height self.old }
    {
        self.height = height;
    }

    /// A payment is waited for. Error: 60, which changes nothing.
    pub fn expect(&mut self, invoice: Invoice) -> Result<(), Refusal>
        ensures done { OnOk result (self.new ≡ with_invoice invoice self.old) }
        ensures changes_nothing_if_refused { OnErr result (self.new ≡ self.old) }
        ensures fails_for_memory_alone { IfErr result (λ r. r ≡ Refusal.Memory) }
    {
        match self.expected.insert(sha256_32(&invoice.preimage), invoice) {
            Ok(_) => Ok(()),
            Err(_) => Err(Refusal::Memory),
        }
    }

    /// Whether a channel takes payments.
    pub fn usable(&self, channel: &ChannelId) -> bool
        ensures { result ≡ is_usable channel.now self.now }
    {
        match self.used.get(channel) {
            Some(usable) => *usable,
            None => false,
        }
    }

    /// The block height.
    pub fn height(&self) -> u32
        ensures { result ≡ self.now.height }
    {
        self.height
    }

    /// The channel that a short channel id names.
    pub fn route(&self, id: &[u8; 8]) -> Option<&OutgoingChannel>
        ensures { option_copied result ≡ lookup (same id.now) self.now.routes }
    {
        self.routes.get(id)
    }

    /// What is waited for under a payment hash.
    pub fn invoice(&self, hash: &[u8; 32]) -> Option<&Invoice>
        ensures { option_copied result ≡ lookup (same hash.now) self.now.expected }
    {
        self.expected.get(hash)
    }

    /// The decisions that channels are yet to take.
    pub fn queue(&self) -> &[Queued]
        ensures { result.now ≡ self.now.queue }
    {
        self.queue.as_slice()
    }

    /// The first HTLC of this key. Found without a walk over all.
    pub fn htlc(&self, key: &Key) -> Option<&Htlc>
        ensures { option_copied result ≡ find (is_htlc key.now) self.now.htlcs }
    {
        self.htlcs.find(&Which::Htlc(*key))
    }

    /// The first HTLC whose outgoing HTLC this is. Found without a walk over all.
    pub fn offered(&self, key: &Key) -> Option<&Htlc>
        ensures { option_copied result ≡ find (is_offered key.now) self.now.htlcs }
    {
        self.htlcs.find(&Which::Offered(*key))
    }

    /// The ids of the channel's HTLCs, in order of deciding: by a walk over all. Error: 60 alone.
    pub fn ids_in(&self, alloc: Global, channel: &ChannelId) -> Result<Vec<u64>, Refusal>
        ensures ids { IfOk result (λ v. v.items ≡ ids_in channel.now self.now.htlcs) }
        ensures fails_for_memory_alone { IfErr result (λ r. r ≡ Refusal.Memory) }
    {
        self.htlcs.ids_in(alloc, channel)
    }

    /// How many HTLCs a command may be due to. The others needn't be looked at for one.
    pub fn due_count(&self) -> usize
        ensures { result ≡ length (due_htlcs self.now.htlcs) }
    {
        self.htlcs.due_count()
    }

    /// One of those, by its place among them in order of deciding.
    pub fn due_at(&self, index: usize) -> &Htlc
        requires { index < length (due_htlcs self.now.htlcs) }
        ensures { result.now ≡ slice_index_or (due_htlcs self.now.htlcs) index result.now }
    {
        self.htlcs.due_at(index)
    }

    /// The HTLC that is held by the number of this event of the channel, unless it is being resumed.
    pub fn held(&self, channel: &ChannelId, event: u64) -> Option<&Htlc>
        ensures { option_copied result ≡ held_by channel.now event self.now }
    {
        if is_any_resumed(self.queue.as_slice(), channel, event) {
            return None;
        }
        self.htlcs.find(&Which::Held(*channel, event))
    }

    /// What is held and not being resumed, in order of deciding. Error: 60 alone.
    pub fn all_held(&self, alloc: Global) -> Result<Vec<HeldHtlc>, Refusal>
        ensures held { IfOk result (λ v. v.items ≡ all_held self.now) }
        ensures fails_for_memory_alone { IfErr result (λ r. r ≡ Refusal.Memory) }
    {
        self.htlcs.all_held(alloc, self.queue.as_slice())
    }

    /// The command of a channel.
    pub fn pending_command(&self, channel: &ChannelId) -> PendingCommand
        ensures { result ≡ pending_command_at channel.now self.now }
    {
        match self.pending_commands.get(channel) {
            Some(pending_command) => *pending_command,
            None => PendingCommand::Idle,
        }
    }
}

impl Tables {
    ghost use Rattle.std.specs.Prelude.{◌≡◌, OnOk, OnErr, IfErr, IsSome};
    ghost use Rattle.std.specs.Map.{lookup};
    ghost use Rattle.ln_book_tables.specs.declared.entry.PendingCommand.TheVariants as pending_command;
    ghost use Rattle.ln_book_tables.specs.Replay.{same, with_decided, with_resumed, with_pending_command, done};
    ghost use Rattle.ln_book_tables.specs.Replay.{refused, with_answer};
    ghost use Rattle.ln_book_tables.specs.Replay.{with_resolved};
    ghost use Rattle.ln_book_tables.specs.Replay.{pending_command_at, answered_out};
    ghost use Rattle.ln_book_tables.specs.Replay.{with_removed};

    /// An event was decided; the second mark is a copy of its mark. Error: 60, which changes nothing.
    pub fn decide(&mut self, decided: Decided, copy: Mark) -> Result<(), Refusal>
        requires { copy ≡ decided.mark }
        ensures done { OnOk result (self.new ≡ with_decided decided self.old) }
        ensures changes_nothing_if_refused { OnErr result (self.new ≡ self.old) }
        ensures fails_for_memory_alone { IfErr result (λ r. r ≡ Refusal.Memory) }
    {
        self.queue.reserve(1)?;
        self.htlcs.join(&decided, copy)?;
        enqueue(&mut self.queue, decided);
        Ok(())
    }

    /// What is held was decided. Error: 60, which changes nothing.
    pub fn resume(&mut self, resumed: Resumed) -> Result<(), Refusal>
        ensures done { OnOk result (self.new ≡ with_resumed resumed self.old) }
        ensures changes_nothing_if_refused { OnErr result (self.new ≡ self.old) }
        ensures fails_for_memory_alone { IfErr result (λ r. r ≡ Refusal.Memory) }
    {
        let channel = resumed.channel;
        let queued = Queued {
            channel,
            event: resumed.event,
            mark: resumed.mark,
            resumes: true,
        };
        self.queue.push(queued)?;
        Ok(())
    }

    /// A command was handed out. Error: 60, which changes nothing.
    pub fn take(&mut self, channel: ChannelId, out: Out) -> Result<(), Refusal>
        ensures done { OnOk result (self.new ≡ with_pending_command channel (pending_command.InFlight out) self.old) }
        ensures changes_nothing_if_refused { OnErr result (self.new ≡ self.old) }
        ensures fails_for_memory_alone { IfErr result (λ r. r ≡ Refusal.Memory) }
    {
        match self
            .pending_commands
            .insert(channel, PendingCommand::InFlight(out))
        {
            Ok(_) => Ok(()),
            Err(_) => Err(Refusal::Memory),
        }
    }

    // A command that is there. Takes no memory.
    fn set_pending_command(&mut self, channel: &ChannelId, pending_command: PendingCommand)
        requires { IsSome (lookup (same channel.now) self.old.pending_commands) }
        ensures { self.new ≡ with_pending_command channel.now pending_command self.old }
    {
        match self.pending_commands.insert(*channel, pending_command) {
            Ok(_) => {}
            Err(_) => unreachable!(),
        }
    }

    // A command was taken.
    fn done(&mut self, channel: &ChannelId, id: u64, out: Out)
        ensures { self.new ≡ done channel.now id out self.old }
    {
        match out {
            Out::Deciding(event) => {
                unqueue(&mut self.queue, channel, event);
                let which = Which::OfEvent(*channel, event);
                self.htlcs.change_first(&which, Change::Decide);
            }
            Out::Adding(key) => {
                let channel = *channel;
                let outgoing = OutgoingLeg::Offered(Key { channel, id });
                self.htlcs
                    .change_first(&Which::Htlc(key), Change::Outgoing(outgoing));
            }
            Out::Removing(key) => {
                self.htlcs.change_first(
                    &Which::Htlc(key),
                    Change::Incoming(IncomingLeg::RemovalSent),
                );
            }
            Out::Forgetting(key) => self.htlcs.leave_out(&Which::Htlc(key)),
            Out::Resuming(event) => {
                if let Some(queued) = unresume(&mut self.queue, channel, event) {
                    self.htlcs.put_mark(channel, event, queued.mark);
                }
            }
        }
    }

    // A command was refused by this number.
    fn refuse(&mut self, channel: &ChannelId, number: u16, out: Out)
        ensures { self.new ≡ refused channel.now number out self.old }
    {
        match out {
            Out::Deciding(event) => {
                unqueue(&mut self.queue, channel, event);
                self.htlcs.leave_out(&Which::Undecided(*channel, event));
            }
            Out::Adding(key) if number < 47 => {
                self.htlcs
                    .change_first(&Which::Htlc(key), Change::Outgoing(OutgoingLeg::Refused));
            }
            Out::Removing(key) => {
                self.htlcs.change_first(
                    &Which::Htlc(key),
                    Change::Incoming(IncomingLeg::RemovalRefused),
                );
            }
            Out::Adding(key) | Out::Forgetting(key) => {
                self.htlcs.leave_out(&Which::Htlc(key));
            }
            Out::Resuming(event) => drop(unresume(&mut self.queue, channel, event)),
        }
    }

    /// A channel has answered the command that is out. Says what its command was before. Takes no memory.
    pub fn answered(&mut self, channel: &ChannelId, answer: Result<u64, u16>) -> PendingCommand
        ensures before { result ≡ pending_command_at channel.now self.old }
        ensures done { self.new ≡ with_answer channel.now answer self.old }
    {
        let pending_command = self.pending_command(channel);
        if let PendingCommand::InFlight(out) = pending_command {
            self.answer_out(channel, answer, out);
        }
        pending_command
    }

    // A channel has answered this command, which is out.
    fn answer_out(&mut self, channel: &ChannelId, answer: Result<u64, u16>, out: Out)
        requires { pending_command_at channel.now self.old ≡ pending_command.InFlight out }
        ensures { self.new ≡ answered_out channel.now answer out self.old }
    {
        match answer {
            Err(60 | 61) => self.set_pending_command(channel, PendingCommand::Unknown(out)),
            Err(number) => {
                self.set_pending_command(channel, PendingCommand::Idle);
                if !is_later(number) {
                    self.refuse(channel, number, out);
                }
            }
            Ok(id) => {
                self.set_pending_command(channel, PendingCommand::Idle);
                self.done(channel, id, out);
            }
        }
    }

    /// What has become of an outgoing HTLC. Takes no memory.
    pub fn over(&mut self, key: Key, how: How)
        ensures { self.new ≡ with_resolved key how self.old }
    {
        let outgoing = OutgoingLeg::Resolved(key, how);
        self.htlcs
            .change_first(&Which::Offered(key), Change::Outgoing(outgoing));
    }

    /// The removal of an incoming HTLC is irrevocably committed. Takes no memory.
    pub fn removed(&mut self, key: Key)
        ensures { self.new ≡ with_removed key self.old }
    {
        self.htlcs
            .change_first(&Which::Htlc(key), Change::Incoming(IncomingLeg::Settled));
        self.htlcs.leave_out(&Which::Finished(key));
    }
}

impl Tables {
    ghost use Rattle.std.specs.Prelude.{◌≡◌};
    ghost use Rattle.ln_book_tables.specs.Replay.{pending_command_at, kept_out, kept_at, with_dropped};

    // What was out in a channel, which has kept the decision that was or hasn't.
    fn keep_out(&mut self, channel: &ChannelId, decides: bool, out: Out)
        ensures { self.new ≡ kept_out channel.now decides out self.old }
    {
        match out {
            Out::Deciding(_) | Out::Resuming(_) => {
                if decides {
                    self.done(channel, 0, out);
                }
            }
            Out::Removing(key) => {
                self.htlcs.change_first(
                    &Which::Htlc(key),
                    Change::Incoming(IncomingLeg::RemovalSent),
                );
            }
            Out::Adding(_) | Out::Forgetting(_) => {}
        }
    }

    // Nothing is out in a channel any more.
    fn close_pending_command(&mut self, channel: &ChannelId, decides: bool)
        ensures { self.new ≡ kept_at channel.now decides (pending_command_at channel.now self.old) self.old }
    {
        match self.pending_command(channel) {
            PendingCommand::Idle => {}
            PendingCommand::InFlight(out) | PendingCommand::Unknown(out) => {
                self.set_pending_command(channel, PendingCommand::Idle);
                self.keep_out(channel, decides, out);
            }
        }
    }

    /// A channel's connection was lost, or it was loaded, and it has told this. Takes no memory.
    pub fn dropped(&mut self, channel: &ChannelId, told: &KeptState)
        ensures { self.new ≡ with_dropped channel.now told.now self.old }
    {
        self.close_pending_command(channel, told.decides);
        self.htlcs.put_back_all(channel, told);
    }
}

impl Tables {
    ghost use Rattle.std.specs.Prelude.{◌≡◌, [], OnOk, OnErr, IfErr};

    /// These are the HTLCs; nothing is queued, and nothing is out. Error: 60, which changes nothing.
    pub fn begin(&mut self, alloc: Global, htlcs: Vec<Htlc>) -> Result<(), Refusal>
        ensures begins { OnOk result
            (self.new ≡ record self.old { queue = []; htlcs = htlcs.items; pending_commands = [] }) }
        ensures changes_nothing_if_refused { OnErr result (self.new ≡ self.old) }
        ensures fails_for_memory_alone { IfErr result (λ r. r ≡ Refusal.Memory) }
    {
        let htlcs = IndexedHtlcs::of(alloc, htlcs)?;
        drop(mem::replace(&mut self.htlcs, htlcs));
        drop(mem::replace(&mut self.queue, Vec::new(alloc)));
        drop(mem::replace(&mut self.pending_commands, IndexMap::new(alloc)));
        Ok(())
    }
}

ghost use Rattle.std.specs.Prelude.{◌≡◌, ◌<◌};
ghost use Rattle.std.specs.Vec.{vec_capacity, vec_len};
ghost use Rattle.ln_book_tables.specs.Replay.{is_later, with_queued};

// A decision is the last that its channel is yet to take.
fn enqueue(queue: &mut Vec<Queued>, decided: Decided)
    requires { vec_len queue.old < vec_capacity queue.old }
    ensures { queue.new.items ≡ with_queued decided queue.old.items }
{
    unqueue(queue, &decided.channel, decided.event);
    queue.push_reserved(Queued {
        channel: decided.channel,
        event: decided.event,
        mark: decided.mark,
        resumes: false,
    });
}

/// Whether a channel takes a command another time that it has refused by this number: 47, it isn't connected, and 62,
/// it has halted.
pub fn is_later(number: u16) -> bool
    ensures { result ≡ is_later number }
{
    number == 47 || number == 62
}
