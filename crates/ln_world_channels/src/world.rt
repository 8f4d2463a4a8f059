//! Nodes with what was set for them, and the channels between them.

ghost use Rattle.std.specs.Prelude.{◌≡◌, IsTrue, IsFalse};

use crate::channel::WorldChannel;
use crate::channels::Channels;
use crate::line::{EndLine, Line};
use crate::settings::{Setting, Settings, may_bring, set_for, settings_of};
use crate::step::{Act, End, Node, Open, RecordLeft, Step};
use ln_bytes::Bytes;
use ln_close::Fees;
use ln_keys::ChannelKeys;
use ln_log::Limits;
use ln_refusals::Refusal;
use std::alloc::Global;
use std::marker::Model;

/// Nodes with what was set for them, and the channels between them.
#[derive(Drop)]
pub struct World<K: ChannelKeys + Copy> {
    settings: Vec<Setting>,
    channels: Channels<K>,
}

impl<K: ChannelKeys + Copy> Model for World<K> {
    ghost use Rattle.ln_world_channels.specs.World.{World as WorldState};

    ghost Value = { WorldState K };

    ghost view = { λ w. record { settings = w.settings.items; channels = w.channels } };
}

impl<K: ChannelKeys + Copy> World<K> {
    ghost use Rattle.std.specs.Prelude.{◌≡◌, ◌++◌, IsTrue, None, OnOk, IfOk, IfErr, option_copied};
    ghost use Rattle.ln_world_channels.specs.Settings.{CanBring};
    ghost use Rattle.ln_world_channels.specs.declared.step.Step.TheVariants as step;
    ghost use Rattle.ln_world_channels.specs.World.{empty, channel, settings_of, may_open, happens, step_lines};
    ghost use Rattle.ln_world_channels.specs.World.{run, run_lines, end_lines, may_be_done};
    ghost use Rattle.ln_world_channels.specs.Failing.{MayFail, SomeMayFail};
    ghost use Rattle.ln_world_channels.specs.Stored.{record_at};

    /// No channel, and nothing was set. Takes no memory.
    pub fn new(alloc: Global) -> World<K>
        ensures { result ≡ empty }
    {
        World {
            settings: Vec::new(alloc),
            channels: Channels::new(alloc),
        }
    }

    fn settings_of(&self, node: Node) -> Settings
        ensures { result ≡ settings_of node self.now.settings }
    {
        settings_of(&self.settings, node)
    }

    fn set_fees(&mut self, node: Node, fees: Fees) -> Result<(), Refusal>
        ensures world { OnOk result (self.new ≡ happens K.ChannelKeys (step.Fees node fees) self.old) }
        ensures fails_for_memory_alone { IfErr result (λ e. e ≡ Refusal.Memory) }
    {
        let limits = self.settings_of(node).limits;
        set_for(&mut self.settings, node, Settings { fees, limits })
    }

    fn set_limits(&mut self, node: Node, limits: Limits) -> Result<(), Refusal>
        ensures world { OnOk result (self.new ≡ happens K.ChannelKeys (step.Limits node limits) self.old) }
        ensures fails_for_memory_alone { IfErr result (λ e. e ≡ Refusal.Memory) }
    {
        let fees = self.settings_of(node).fees;
        set_for(&mut self.settings, node, Settings { fees, limits })
    }

    /// Whether a channel may be opened so: no channel has its number, its ends are at two nodes, and what both bring
    /// fits. Takes no memory.
    pub fn may_open(&self, wish: &Open<K>) -> bool
        ensures test { result ≡ may_open wish.now self.now }
        ensures number { IsTrue result → channel wish.now.channel self.now.channels ≡ None }
        ensures fits { IsTrue result → CanBring wish.now.satoshis wish.now.push
            (settings_of wish.now.funder self.now.settings) (settings_of wish.now.fundee self.now.settings) }
    {
        let funder = self.settings_of(wish.funder);
        let fundee = self.settings_of(wish.fundee);
        wish.funder.letter != wish.fundee.letter
            && self.channels.is_free(wish.channel)
            && may_bring(wish.satoshis, wish.push, &funder, &fundee)
    }

    fn open(&mut self, alloc: Global, wish: &Open<K>, lines: &mut Vec<Line>) -> Result<(), Refusal>
        ensures world { OnOk result (self.new ≡ happens K.ChannelKeys (step.Open wish.now) self.old) }
        ensures told { OnOk result (lines.new.items
            ≡ lines.old.items ++ step_lines K.ChannelKeys (step.Open wish.now) self.old) }
        ensures fails { IfErr result (λ e. MayFail K.ChannelKeys (step.Open wish.now) e self.old) }
    {
        if !self.may_open(wish) {
            lines.push(Line::Idle)?;
            return Ok(());
        }
        let funder = self.settings_of(wish.funder);
        let fundee = self.settings_of(wish.fundee);
        self.channels.open(alloc, wish, &funder, &fundee)?;
        lines.push(Line::Open(wish.channel))?;
        Ok(())
    }

    /// The channel of this number, where there is one. Takes no memory.
    pub fn channel(&self, number: u8) -> Option<&WorldChannel<K>>
        ensures { option_copied result ≡ channel number self.now.channels }
    {
        self.channels.channel(number)
    }

    /// Whether an end can act so: its channel is there, and a message is in flight to it where it is to take one. Takes
    /// no memory.
    pub fn may_act(&self, end: End, what: &Act) -> bool
        ensures { result ≡ may_be_done end what.now self.now.channels }
    {
        self.channels.may_act(end, what)
    }

    /// The end has no memory for the act, where it can act so, and halts. 60 where there is no memory.
    fn lack_memory(&mut self, end: End, what: Act, lines: &mut Vec<Line>) -> Result<(), Refusal>
        ensures world { OnOk result (self.new ≡ happens K.ChannelKeys (step.NoMemory end what) self.old) }
        ensures told { OnOk result (lines.new.items
            ≡ lines.old.items ++ step_lines K.ChannelKeys (step.NoMemory end what) self.old) }
        ensures fails_for_memory_alone { IfErr result (λ e. e ≡ Refusal.Memory) }
    {
        let may_act = self.channels.may_act(end, &what);
        drop(what);
        if !may_act {
            lines.push(Line::Idle)?;
            return Ok(());
        }
        self.channels.halt(end);
        lines.push(Line::Refused(end, Refusal::Memory))?;
        Ok(())
    }

    /// The save of what the end comes to by the act fails, where it can act so, and it halts. 60 where there is no
    /// memory, 70 where its store is to have the record as the act leaves it, and there is none.
    fn fail_save(
        &mut self,
        alloc: Global,
        end: End,
        what: Act,
        left: RecordLeft,
        lines: &mut Vec<Line>,
    ) -> Result<(), Refusal>
        ensures world { OnOk result (self.new ≡ happens K.ChannelKeys (step.SaveFails end what left) self.old) }
        ensures told { OnOk result (lines.new.items
            ≡ lines.old.items ++ step_lines K.ChannelKeys (step.SaveFails end what left) self.old) }
        ensures fails { IfErr result (λ e. MayFail K.ChannelKeys (step.SaveFails end what left) e self.old) }
    {
        if !self.channels.may_act(end, &what) {
            drop(what);
            lines.push(Line::Idle)?;
            return Ok(());
        }
        self.channels.fail_save(alloc, end, what, left)?;
        lines.push(Line::Refused(end, Refusal::Store))?;
        Ok(())
    }

    /// The end comes back from its record, where it has halted. 60 where there is no memory.
    fn reload(&mut self, alloc: Global, end: End, lines: &mut Vec<Line>) -> Result<(), Refusal>
        ensures world { OnOk result (self.new ≡ happens K.ChannelKeys (step.Reload end) self.old) }
        ensures told { OnOk result (lines.new.items
            ≡ lines.old.items ++ step_lines K.ChannelKeys (step.Reload end) self.old) }
        ensures fails_for_memory_alone { IfErr result (λ e. e ≡ Refusal.Memory) }
    {
        if !self.channels.has_halted(end) {
            lines.push(Line::Idle)?;
            return Ok(());
        }
        self.channels.reload(alloc, end)
    }

    /// The end's node stops before that acts, where it can act. 60 where there is no memory.
    fn stop_before(
        &mut self,
        alloc: Global,
        end: End,
        what: Act,
        lines: &mut Vec<Line>,
    ) -> Result<(), Refusal>
        ensures world { OnOk result (self.new ≡ happens K.ChannelKeys (step.StopBefore end what) self.old) }
        ensures told { OnOk result (lines.new.items
            ≡ lines.old.items ++ step_lines K.ChannelKeys (step.StopBefore end what) self.old) }
        ensures fails_for_memory_alone { IfErr result (λ e. e ≡ Refusal.Memory) }
    {
        let may_act = self.channels.may_act(end, &what);
        drop(what);
        if !may_act {
            lines.push(Line::Idle)?;
            return Ok(());
        }
        self.channels.restart(alloc, end.node)?;
        lines.push(Line::Restarts(end.node))?;
        Ok(())
    }

    /// The end's node stops after the act's save, where it can act. 60 where there is no memory, 70 where the end has
    /// no record as the act leaves it.
    fn stop_after(
        &mut self,
        alloc: Global,
        end: End,
        what: Act,
        lines: &mut Vec<Line>,
    ) -> Result<(), Refusal>
        ensures world { OnOk result (self.new ≡ happens K.ChannelKeys (step.StopAfter end what) self.old) }
        ensures told { OnOk result (lines.new.items
            ≡ lines.old.items ++ step_lines K.ChannelKeys (step.StopAfter end what) self.old) }
        ensures fails { IfErr result (λ e. MayFail K.ChannelKeys (step.StopAfter end what) e self.old) }
    {
        if !self.channels.may_act(end, &what) {
            drop(what);
            lines.push(Line::Idle)?;
            return Ok(());
        }
        self.channels.stop(alloc, end, what)?;
        lines.push(Line::Restarts(end.node))?;
        Ok(())
    }

    /// The bytes of the record that an end's store has, which is of the end as it is now (`ln_link::to_record`), and
    /// what a restart of its node finds; none where there is no such end. Takes memory for them; 60 where there is
    /// none.
    pub fn record(&mut self, alloc: Global, end: End) -> Result<Option<Bytes>, Refusal>
        ensures record { IfOk result (λ found. found ≡ record_at end self.old) }
        ensures changes_nothing { self.new ≡ self.old }
        ensures fails_for_memory_alone { IfErr result (λ e. e ≡ Refusal.Memory) }
    {
        self.channels.record(alloc, end)
    }

    /// What happens in a step, and what is told of it, which joins the lines.
    ///
    /// What was set for a node counts in the channels that are opened from then on. A channel opens (BOLT 2, "Channel
    /// Establishment v1") where no other has its number, its ends are at two nodes, and `may_bring` takes what both
    /// bring; an end acts or loses its connection where its channel is there and the node has an end of it, and takes a
    /// message where one is in flight to it; both ends of a channel get a connection where both are down and neither
    /// has halted; an end reloads where it has halted. Else nothing changes, and `Line::Idle` is told. Where a node
    /// restarts, each of its ends is loaded from its record and comes back so; nothing is told of that, nor where the
    /// node has no end, nor of an end that reloads. Where a node stops before or after an act of one of its ends, which
    /// has to be one that can act, `Line::Restarts` is told, and nothing of the act. Where an end has no memory for an
    /// act, which has to be one that it can do, 60 is told of it and nothing else, whatever the act would have come to.
    /// Where the act's save fails, 61 is told of it and nothing else: the end has halted as it was before the act, or
    /// as the act leaves it, by the record that its store has.
    ///
    /// Errors: 60 where there is no memory; 70 where an end has no record as an act or the opening leaves it, which is
    /// never so of steps that are as wide as in code (`every_end_has_a_record`). After an error that end has halted,
    /// and its record is gone.
    pub fn step(
        &mut self,
        alloc: Global,
        step: Step<K>,
        lines: &mut Vec<Line>,
    ) -> Result<(), Refusal>
        ensures world { OnOk result (self.new ≡ happens K.ChannelKeys step self.old) }
        ensures told { OnOk result (lines.new.items ≡ lines.old.items ++ step_lines K.ChannelKeys step self.old) }
        ensures fails { IfErr result (λ e. MayFail K.ChannelKeys step e self.old) }
    {
        match step {
            Step::Fees(node, fees) => self.set_fees(node, fees),
            Step::Limits(node, limits) => self.set_limits(node, limits),
            Step::Open(wish) => self.open(alloc, &wish, lines),
            Step::Do(end, what) => self.channels.act(alloc, end, what, lines),
            Step::Down(end) => self.channels.disconnect(end, lines),
            Step::NoMemory(end, what) => self.lack_memory(end, what, lines),
            Step::SaveFails(end, what, left) => self.fail_save(alloc, end, what, left, lines),
            Step::Restart(node) => self.channels.restart(alloc, node),
            Step::Reload(end) => self.reload(alloc, end, lines),
            Step::StopBefore(end, what) => self.stop_before(alloc, end, what, lines),
            Step::StopAfter(end, what) => self.stop_after(alloc, end, what, lines),
            Step::Up(number) => self.channels.come_up(alloc, number, lines),
        }
    }

    /// One step after the other. Errors: those of `step`.
    pub fn run(
        &mut self,
        alloc: Global,
        steps: Vec<Step<K>>,
        lines: &mut Vec<Line>,
    ) -> Result<(), Refusal>
        ensures world { OnOk result (self.new ≡ run K.ChannelKeys steps.items self.old) }
        ensures told { OnOk result (lines.new.items ≡ lines.old.items ++ run_lines K.ChannelKeys steps.items self.old) }
        ensures fails { IfErr result (λ e. SomeMayFail K.ChannelKeys steps.items e self.old) }
    {
        for step in steps {
            self.step(alloc, step, lines)?;
        }
        Ok(())
    }

    /// Where the ends of all channels stand, in the order of their numbers; the funder's before the fundee's. 60 where
    /// there is no memory.
    pub fn end_lines(&self, alloc: Global) -> Result<Vec<EndLine>, Refusal>
        ensures lines { IfOk result (λ ls. ls.items ≡ end_lines self.now) }
        ensures fails_for_memory_alone { IfErr result (λ e. e ≡ Refusal.Memory) }
    {
        let mut lines = Vec::new(alloc);
        for number in 0..=255u8 {
            self.channels.report_ends(alloc, number, &mut lines)?;
        }
        Ok(lines)
    }
}
