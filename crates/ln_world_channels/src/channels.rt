//! The channels of a world, each with a number of its own.

ghost use Rattle.std.specs.Prelude.{◌≡◌, ◌==◌, position};

use crate::channel::{WorldChannel, open_channel};
use crate::line::{EndLine, Line};
use crate::settings::Settings;
use crate::step::{Act, End, Node, Open, RecordLeft};
use ln_bytes::Bytes;
use ln_keys::{ChannelKeys, Role};
use ln_refusals::Refusal;
use std::alloc::Global;
use std::marker::Model;

/// Where the channel of this number stands. The methods of `Channels` that look for a channel share it.
fn place_of<K: ChannelKeys + Copy>(channels: &[WorldChannel<K>], number: u8) -> Option<usize>
    ensures { result ≡ position (λ c. c.number == number) channels.now }
{
    channels
        .iter()
        .position(|channel| channel.number() == number)
}

/// The channels of a world, in the order of opening, each with a number of its own.
#[derive(Drop)]
pub(crate) struct Channels<K: ChannelKeys + Copy> {
    items: Vec<WorldChannel<K>>,
}

impl<K: ChannelKeys + Copy> Model for Channels<K> {
    ghost use Rattle.std.specs.Prelude.{List};
    ghost use Rattle.ln_world_channels.specs.WorldChannel.{WorldChannel as ChannelState};
    ghost use Rattle.ln_world_channels.specs.World.{AreOnce};

    ghost Value = { List (ChannelState K) };

    ghost view = { λ cs. cs.items.items };

    ghost invariant = { λ cs. AreOnce cs.items.items };
}

impl<K: ChannelKeys + Copy> Channels<K> {
    ghost use Rattle.std.specs.Prelude.{◌≡◌, ◌++◌, ◌∷◌, [], is_none, None, OnOk, IfOk, IfErr, option_copied};
    ghost use Rattle.ln_world_channels.specs.Settings.{CanBring};
    ghost use Rattle.ln_world_channels.specs.WorldChannel.{side_of, acted_lines, fallen_lines, met_lines, opened_by};
    ghost use Rattle.ln_world_channels.specs.WorldChannel.{act_moves, disconnect_moves, restart_moves, up_moves};
    ghost use Rattle.ln_world_channels.specs.WorldChannel.{halt_moves, halt_after_moves, failed_save_moves, stop_moves};
    ghost use Rattle.ln_world_channels.specs.World.{channel, moved_at, all_moved, if_there, lines_of_ends};
    ghost use Rattle.ln_world_channels.specs.World.{may_be_done, may_reload, unheard_at};
    ghost use Rattle.ln_world_channels.specs.Failing.{ByRecord, ActLacksAt, FailedSaveLacks, OpeningLacks};
    ghost use Rattle.ln_world_channels.specs.Stored.{record_there};

    /// No channel. Takes no memory.
    pub(crate) fn new(alloc: Global) -> Channels<K>
        ensures { result ≡ [] }
    {
        Channels {
            items: Vec::new(alloc),
        }
    }

    /// The channel of this number, where there is one.
    pub(crate) fn channel(&self, number: u8) -> Option<&WorldChannel<K>>
        ensures { option_copied result ≡ channel number self.now }
    {
        match place_of(&self.items, number) {
            None => None,
            Some(i) => Some(&self.items[i]),
        }
    }

    /// Whether no channel has this number.
    pub(crate) fn is_free(&self, number: u8) -> bool
        ensures { result ≡ is_none (channel number self.now) }
    {
        place_of(&self.items, number).is_none()
    }

    /// A channel is opened and joins. 60 where there is no memory, 70 where an end has no record as an act of the
    /// opening leaves it.
    pub(crate) fn open(
        &mut self,
        alloc: Global,
        wish: &Open<K>,
        funder: &Settings,
        fundee: &Settings,
    ) -> Result<(), Refusal>
        requires opening { CanBring wish.now.satoshis wish.now.push funder.now fundee.now }
        requires number { channel wish.now.channel self.old ≡ None }
        ensures joined { OnOk result (self.new
            ≡ self.old ++ opened_by K.ChannelKeys wish.now funder.now fundee.now ∷ []) }
        ensures fails { IfErr result (λ e. ByRecord e
            (OpeningLacks K.ChannelKeys wish.now funder.now fundee.now)) }
    {
        let channel = open_channel(alloc, wish, funder, fundee)?;
        self.items.push(channel)?;
        Ok(())
    }

    /// An end acts, where its channel is there. 60 where there is no memory, 70 where the end has no record after
    /// that.
    pub(crate) fn act(
        &mut self,
        alloc: Global,
        end: End,
        what: Act,
        lines: &mut Vec<Line>,
    ) -> Result<(), Refusal>
        ensures moved { OnOk result (self.new ≡ moved_at K.signer end.channel (act_moves end.node what) self.old) }
        ensures told { OnOk result (lines.new.items ≡ lines.old.items
            ++ if_there (λ c. acted_lines K.signer what c (side_of end.node c)) (channel end.channel self.old)) }
        ensures fails { IfErr result (λ e. ByRecord e (ActLacksAt K.signer end what self.old)) }
    {
        match place_of(&self.items, end.channel) {
            None => {
                drop(what);
                lines.push(Line::Idle)?;
                Ok(())
            }
            Some(i) => self.items[i].act(alloc, end.node, what, lines),
        }
    }

    /// An end loses its connection, where its channel is there. 60 where there is no memory.
    pub(crate) fn disconnect(&mut self, end: End, lines: &mut Vec<Line>) -> Result<(), Refusal>
        ensures moved { OnOk result (self.new ≡ moved_at K.signer end.channel (disconnect_moves end.node) self.old) }
        ensures told { OnOk result (lines.new.items ≡ lines.old.items
            ++ if_there (λ c. fallen_lines (side_of end.node c)) (channel end.channel self.old)) }
        ensures fails_for_memory_alone { IfErr result (λ e. e ≡ Refusal.Memory) }
    {
        match place_of(&self.items, end.channel) {
            None => {
                lines.push(Line::Idle)?;
                Ok(())
            }
            Some(i) => self.items[i].disconnect(end.node, lines),
        }
    }

    /// An end halts, where its channel is there. Takes no memory.
    pub(crate) fn halt(&mut self, end: End)
        ensures { self.new ≡ moved_at K.signer end.channel (halt_moves end.node) self.old }
    {
        match place_of(&self.items, end.channel) {
            None => {}
            Some(i) => self.items[i].halt(end.node),
        }
    }

    /// Whether an end has halted.
    pub(crate) fn has_halted(&self, end: End) -> bool
        ensures { result ≡ may_reload end self.now }
    {
        match place_of(&self.items, end.channel) {
            None => false,
            Some(i) => self.items[i].has_halted(end.node),
        }
    }

    /// An end comes back from its record, where its channel is there. 60 where there is no memory.
    pub(crate) fn reload(&mut self, alloc: Global, end: End) -> Result<(), Refusal>
        ensures moved { OnOk result (self.new ≡ moved_at K.signer end.channel (restart_moves end.node) self.old) }
        ensures fails_for_memory_alone { IfErr result (λ e. e ≡ Refusal.Memory) }
    {
        let Some(i) = place_of(&self.items, end.channel) else {
            return Ok(());
        };
        self.items[i].restart(alloc, end.node)
    }

    /// Each end of a node comes back from its record. 60 where there is no memory.
    pub(crate) fn restart(&mut self, alloc: Global, node: Node) -> Result<(), Refusal>
        ensures moved { OnOk result (self.new ≡ all_moved K.signer (restart_moves node) self.old) }
        ensures fails_for_memory_alone { IfErr result (λ e. e ≡ Refusal.Memory) }
    {
        for i in 0..self.items.len() {
            self.items[i].restart(alloc, node)?;
        }
        Ok(())
    }

    /// Whether an end can act so.
    pub(crate) fn may_act(&self, end: End, what: &Act) -> bool
        ensures { result ≡ may_be_done end what.now self.now }
    {
        match place_of(&self.items, end.channel) {
            None => false,
            Some(i) => self.items[i].may_act(end.node, what),
        }
    }

    /// An end acts, where its channel is there; what it hands out is lost. 60 where there is no memory, 70 where the
    /// end has no record after that.
    fn act_unheard(&mut self, alloc: Global, end: End, what: Act) -> Result<(), Refusal>
        ensures acted { OnOk result (self.new ≡ unheard_at K.signer end what self.old) }
        ensures fails { IfErr result (λ e. ByRecord e (ActLacksAt K.signer end what self.old)) }
    {
        match place_of(&self.items, end.channel) {
            None => {
                drop(what);
                Ok(())
            }
            Some(i) => self.items[i].act_unheard(alloc, end.node, what),
        }
    }

    /// An end acts, and then it halts: what the act hands out is lost. 60 where there is no memory, 70 where the end
    /// has no record after the act.
    fn halt_after(&mut self, alloc: Global, end: End, what: Act) -> Result<(), Refusal>
        ensures moved { OnOk result (self.new
            ≡ moved_at K.signer end.channel (halt_after_moves end.node what) self.old) }
        ensures fails { IfErr result (λ e. ByRecord e (ActLacksAt K.signer end what self.old)) }
    {
        self.act_unheard(alloc, end, what)?;
        self.halt(end);
        Ok(())
    }

    /// The save of what an end comes to by an act fails, and it halts, with this record in its store. 60 where there is
    /// no memory, 70 where the store is to have the record as the act leaves it, and there is none.
    pub(crate) fn fail_save(
        &mut self,
        alloc: Global,
        end: End,
        what: Act,
        left: RecordLeft,
    ) -> Result<(), Refusal>
        ensures moved { OnOk result (self.new
            ≡ moved_at K.signer end.channel (failed_save_moves left end.node what) self.old) }
        ensures fails { IfErr result (λ e. ByRecord e (FailedSaveLacks K.signer left end what self.old)) }
    {
        match left {
            RecordLeft::Old => {
                drop(what);
                self.halt(end);
                Ok(())
            }
            RecordLeft::New => self.halt_after(alloc, end, what),
        }
    }

    /// An end acts, and then its node stops: what the act hands out is lost, and each end of the node comes back from
    /// its record. 60 where there is no memory, 70 where the end has no record after the act.
    pub(crate) fn stop(&mut self, alloc: Global, end: End, what: Act) -> Result<(), Refusal>
        ensures moved { OnOk result (self.new ≡ all_moved K.signer (stop_moves end what) self.old) }
        ensures fails { IfErr result (λ e. ByRecord e (ActLacksAt K.signer end what self.old)) }
    {
        self.act_unheard(alloc, end, what)?;
        self.restart(alloc, end.node)
    }

    /// The bytes of an end's record, where its channel is there. 60 where there is no memory.
    pub(crate) fn record(&mut self, alloc: Global, end: End) -> Result<Option<Bytes>, Refusal>
        ensures record { IfOk result (λ found. found ≡ record_there end.node (channel end.channel self.old)) }
        ensures changes_nothing { self.new ≡ self.old }
        ensures fails_for_memory_alone { IfErr result (λ e. e ≡ Refusal.Memory) }
    {
        match place_of(&self.items, end.channel) {
            None => Ok(None),
            Some(i) => self.items[i].record(alloc, end.node),
        }
    }

    /// Both ends of a channel get a connection, where it is there and they may. 60 where there is no memory.
    pub(crate) fn come_up(
        &mut self,
        alloc: Global,
        number: u8,
        lines: &mut Vec<Line>,
    ) -> Result<(), Refusal>
        ensures moved { OnOk result (self.new ≡ moved_at K.signer number up_moves self.old) }
        ensures told { OnOk result (lines.new.items
            ≡ lines.old.items ++ if_there (met_lines K.signer) (channel number self.old)) }
        ensures fails_for_memory_alone { IfErr result (λ e. e ≡ Refusal.Memory) }
    {
        match place_of(&self.items, number) {
            None => {
                lines.push(Line::Idle)?;
                Ok(())
            }
            Some(i) => self.items[i].come_up(alloc, lines),
        }
    }

    /// Where the two ends of a channel stand, where it is there. 60 where there is no memory.
    pub(crate) fn report_ends(
        &self,
        alloc: Global,
        number: u8,
        lines: &mut Vec<EndLine>,
    ) -> Result<(), Refusal>
        ensures told { OnOk result (lines.new.items ≡ lines.old.items ++ lines_of_ends (channel number self.now)) }
        ensures fails_for_memory_alone { IfErr result (λ e. e ≡ Refusal.Memory) }
    {
        match place_of(&self.items, number) {
            None => Ok(()),
            Some(i) => self.items[i].report_ends(alloc, lines),
        }
    }
}
