//! The dispatchers of channel ends.

use crate::hook_slot::HookSlot;
use crate::served::Served;
use ln_history::Past;
use ln_hooks::{ChannelEvent, Verdict};
use ln_keys::Role;
use ln_refusals::Refusal;
use ln_world_channels::{End, Node};
use std::alloc::Global;
use std::collections::VecDeque;
use std::marker::Model;

/// What is written down of a dispatcher in one epoch, from one restart of its node to the next. Contracts see all
/// events that were served in it. Those before `first` aren't kept: proofs alone read them.
#[derive(Drop)]
pub struct Epoch {
    first: u64,
    kept: VecDeque<Served>,
    // where the epoch starts, and the events that aren't kept
    before: Past<u64, Served>,
    slots: Vec<HookSlot>,
}

impl Model for Epoch {
    ghost use Rattle.std.specs.Prelude.{◌≡◌, ◌+◌, ◌++◌, length};
    ghost use Rattle.ln_world_dispatch.specs.Kept.{KeptEpoch, epoch_of};

    ghost Value = { KeptEpoch };

    ghost view = { λ l. record {
      epoch = epoch_of l.before.told.start (l.before.told.entries ++ l.kept.items) l.slots.items;
      first = l.first;
    } };

    ghost invariant = { λ l. l.first ≡ l.before.told.start + length l.before.told.entries };
}

impl Epoch {
    ghost use Rattle.std.specs.Prelude.{◌≡◌, ◌≤◌, ◌+◌, ◌&&◌, if◌then◌else◌, OnOk, OnErr, IfOk, IfErr};
    ghost use Rattle.std.specs.Prelude.{nat_lt, max, option_map};
    ghost use Rattle.ln_world_dispatch.specs.Dispatcher.{begun, next, with_one, with_slot};
    ghost use Rattle.ln_world_dispatch.specs.World.{served_in};

    /// One that starts where so many events were decided. Takes no memory.
    fn new(alloc: Global, decided: u64) -> Epoch
        ensures { result ≡ record { epoch = begun decided; first = decided } }
    {
        Epoch {
            first: decided,
            kept: VecDeque::new(alloc),
            before: Past::begun(&decided),
            slots: Vec::new(alloc),
        }
    }

    // The number of the next event: there is no memory for 2^64 of them.
    fn next(&self) -> Result<u64, Refusal>
        ensures number { IfOk result (λ n. n ≡ next self.now.epoch) }
        ensures fails_for_memory_alone { IfErr result (λ e. e ≡ Refusal.Memory) }
    {
        match self.first.checked_add(self.kept.len() as u64) {
            Some(number) => Ok(number),
            None => Err(Refusal::Memory),
        }
    }

    // Whether the number is below that of the next event.
    fn is_below_next(&self, number: u64) -> bool
        ensures { result ≡ nat_lt number (next self.now.epoch) }
    {
        number < self.first || number - self.first < self.kept.len() as u64
    }

    // The event of this number as it was served, and what the hooks said of it, from the first that is kept on.
    fn served(&self, number: u64) -> Option<(&ChannelEvent, Verdict)>
        ensures { self.now.first ≤ max self.now.epoch.start number
            → option_map (λ p. (p.0.now, p.1)) result ≡ served_in number self.now.epoch }
    {
        if number < self.first {
            return None;
        }
        match self.kept.get((number - self.first) as usize) {
            None => None,
            Some(served) => Some((&served.event, served.verdict)),
        }
    }

    // The event was served, and the hooks said this.
    fn write(&mut self, event: ChannelEvent, verdict: Verdict) -> Result<(), Refusal>
        ensures written { OnOk result (self.new.epoch ≡ with_one event verdict self.old.epoch) }
        ensures same_first { self.new.first ≡ self.old.first }
        ensures same_start { self.new.epoch.start ≡ self.old.epoch.start }
        ensures fails_for_memory_alone { IfErr result (λ e. e ≡ Refusal.Memory) }
    {
        self.kept.push_back(Served { event, verdict })?;
        Ok(())
    }

    // The hook at this place of the list serves from the next event on.
    fn slot(&mut self, hook: usize) -> Result<(), Refusal>
        ensures slotted { OnOk result (self.new.epoch ≡ with_slot hook self.old.epoch) }
        ensures same_first { self.new.first ≡ self.old.first }
        ensures same_start { self.new.epoch.start ≡ self.old.epoch.start }
        ensures fails_for_memory_alone { IfErr result (λ e. e ≡ Refusal.Memory) }
    {
        let place = self.next()?;
        self.slots.push(HookSlot { hook, place })?;
        Ok(())
    }

    // The end has decided so many events: the first event that is kept goes, where it is one of them. Takes no memory,
    // and gives back what the events took where none is kept any more.
    fn let_go(&mut self, alloc: Global, decided: u64)
        ensures same_epoch { self.new.epoch ≡ self.old.epoch }
        ensures lets_go_of_one { self.new.first ≡ (if nat_lt self.old.first decided
            && nat_lt self.old.first (next self.old.epoch) then self.old.first + 1 else self.old.first) }
    {
        if self.first >= decided {
            return;
        }
        let Some(served) = self.kept.pop_front() else {
            return;
        };
        self.before = self.before.and(&served);
        self.first += 1;
        drop(served);
        if self.kept.is_empty() {
            self.kept = VecDeque::new(alloc);
        }
    }

    // What isn't kept is forgotten in proofs too: the epoch starts at the first event that is kept.
    fn forget(&mut self)
        ensures starts_at_the_first { self.new.epoch.start ≡ self.new.first }
    {
        self.before = Past::begun(&self.first);
    }
}

/// A dispatcher of a channel end: the epoch that it is in, and those that were set aside. Contracts see all events that
/// were served; those before `first` of its epoch, and the epochs that were set aside, aren't kept: proofs alone read
/// them.
#[derive(Drop)]
pub struct Dispatcher {
    end: End,
    side: Role,
    reach: u64,
    epoch: Epoch,
    past: Past<End, Epoch>,
}

impl Model for Dispatcher {
    ghost use Rattle.ln_world_dispatch.specs.Kept.{KeptDispatcher, epochs_of};

    ghost Value = { KeptDispatcher };

    ghost view = { λ d. record {
      dispatcher = record {
        end = d.end;
        side = d.side;
        reach = d.reach;
        epoch = d.epoch.epoch;
        past = epochs_of d.past.told.entries;
      };
      first = d.epoch.first;
    } };
}

impl Dispatcher {
    ghost use Rattle.std.specs.Prelude.{◌≡◌, ◌≤◌, ◌+◌, ◌&&◌, ℕ, max, nat_lt, if◌then◌else◌, Some, option_map};
    ghost use Rattle.std.specs.Prelude.{OnOk, IfOk, IfErr};
    ghost use Rattle.ln_keys.specs.declared.role.Role.{Role};
    ghost use Rattle.ln_world_channels.specs.declared.step.End.{End};
    ghost use Rattle.ln_world_channels.specs.WorldChannel.{is_node};
    ghost use Rattle.ln_world_dispatch.specs.Dispatcher.{fresh, next, serving, registered, restarted, is_at};
    ghost use Rattle.ln_world_dispatch.specs.World.{is_below_next, served_in};
    ghost use Rattle.ln_world_dispatch.specs.Kept.{Keeps};

    /// The dispatcher of an end of a new channel. Takes no memory.
    pub(crate) fn new(alloc: Global, end: End, side: Role) -> Dispatcher
        ensures { result ≡ record { dispatcher = fresh end side; first = 0 } }
    {
        Dispatcher {
            end,
            side,
            reach: 0,
            epoch: Epoch::new(alloc, 0),
            past: Past::begun(&end),
        }
    }

    /// Its end.
    pub fn end(&self) -> End
        ensures { result ≡ self.now.dispatcher.end }
    {
        self.end
    }

    /// Its end's side of the channel.
    pub fn side(&self) -> Role
        ensures { result ≡ self.now.dispatcher.side }
    {
        self.side
    }

    /// Whether it is that of this end.
    pub(crate) fn is_at(&self, end: End) -> bool
        ensures { result ≡ is_at end self.now.dispatcher }
    {
        self.end.node.letter == end.node.letter && self.end.channel == end.channel
    }

    /// Whether it is at this node.
    pub(crate) fn is_of(&self, node: Node) -> bool
        ensures { result ≡ is_node self.now.dispatcher.end.node node }
    {
        self.end.node.letter == node.letter
    }

    /// The number of the event that it serves next. 60 where there is no memory for so many.
    pub(crate) fn next(&self) -> Result<u64, Refusal>
        ensures number { IfOk result (λ n. n ≡ next self.now.dispatcher.epoch) }
        ensures fails_for_memory_alone { IfErr result (λ e. e ≡ Refusal.Memory) }
    {
        self.epoch.next()
    }

    // How far its events were dispatched, with this one.
    fn reach_with(&self) -> Result<u64, Refusal>
        ensures reach { IfOk result (λ n. n ≡ max self.now.dispatcher.reach (next self.now.dispatcher.epoch + 1)) }
        ensures fails_for_memory_alone { IfErr result (λ e. e ≡ Refusal.Memory) }
    {
        match self.epoch.next()?.checked_add(1) {
            Some(number) => Ok(self.reach.max(number)),
            None => Err(Refusal::Memory),
        }
    }

    /// Whether the number is below that of the event that it serves next.
    pub(crate) fn is_below_next(&self, number: u64) -> bool
        ensures { result ≡ is_below_next number (Some self.now.dispatcher) }
    {
        self.epoch.is_below_next(number)
    }

    /// The event of this number as it was served in this epoch, and what the hooks said of it; none where it wasn't. Of
    /// the events that are kept: those from `first` on.
    pub fn served(&self, number: u64) -> Option<(&ChannelEvent, Verdict)>
        ensures { self.now.first ≤ max self.now.dispatcher.epoch.start number
            → option_map (λ p. (p.0.now, p.1)) result ≡ served_in number self.now.dispatcher.epoch }
    {
        self.epoch.served(number)
    }

    /// The event was served, and the hooks said this. 60 where there is no memory.
    pub(crate) fn write(&mut self, event: ChannelEvent, verdict: Verdict) -> Result<(), Refusal>
        ensures written { OnOk result (self.new.dispatcher ≡ serving event verdict self.old.dispatcher) }
        ensures keeps { (decided : End → Role → ℕ) → Keeps decided self.old → Keeps decided self.new }
        ensures fails_for_memory_alone { IfErr result (λ e. e ≡ Refusal.Memory) }
    {
        let reach = match self.reach_with() {
            Ok(reach) => reach,
            Err(refusal) => {
                drop(event);
                return Err(refusal);
            }
        };
        self.epoch.write(event, verdict)?;
        self.reach = reach;
        Ok(())
    }

    /// The hook at this place of the list serves from the next event on. 60 where there is no memory.
    pub(crate) fn slot(&mut self, hook: usize) -> Result<(), Refusal>
        ensures slotted { OnOk result (self.new.dispatcher ≡ registered hook self.old.dispatcher) }
        ensures keeps { (decided : End → Role → ℕ) → Keeps decided self.old → Keeps decided self.new }
        ensures fails_for_memory_alone { IfErr result (λ e. e ≡ Refusal.Memory) }
    {
        self.epoch.slot(hook)
    }

    /// Its epoch is set aside, and one begins where so many events are decided. Takes no memory.
    pub(crate) fn restart(&mut self, alloc: Global, decided: u64)
        ensures { self.new ≡ record { dispatcher = restarted decided self.old.dispatcher; first = decided } }
    {
        self.past = self.past.and(&self.epoch);
        self.epoch = Epoch::new(alloc, decided);
    }

    /// Its end has decided so many events: it lets go of the first event that it keeps, where that is one of them.
    /// Takes no memory.
    pub(crate) fn let_go(&mut self, alloc: Global, decided: u64)
        ensures same_dispatcher { self.new.dispatcher ≡ self.old.dispatcher }
        ensures lets_go_of_one { self.new.first ≡ (if nat_lt self.old.first decided
            && nat_lt self.old.first (next self.old.dispatcher.epoch) then self.old.first + 1 else self.old.first) }
    {
        self.epoch.let_go(alloc, decided);
    }

    /// What it doesn't keep is forgotten in proofs too.
    pub(crate) fn forget(&mut self)
        ensures keeps { (decided : End → Role → ℕ) → Keeps decided self.new }
    {
        self.epoch.forget();
    }
}
