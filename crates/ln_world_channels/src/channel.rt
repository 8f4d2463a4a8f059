//! A channel between two nodes.

ghost use Rattle.std.specs.Prelude.{◌≡◌, ◌++◌, IfOk, IfErr, OnOk};
ghost use Rattle.ln_refusals.specs.declared.refusal.Refusal.TheVariants as refusal;
ghost use Rattle.ln_world_channels.specs.Settings.{CanBring};
ghost use Rattle.ln_world_channels.specs.WorldChannel.{opened_by, begun_by};
ghost use Rattle.ln_world_channels.specs.Failing.{ByRecord, OpeningLacks};

use crate::both::{SimEnd, act, act_unheard, meet};
use crate::line::{EndLine, Line};
use crate::saved_link::SavedLink;
use crate::settings::{Settings, fit_config, fit_spec};
use crate::step::{Act, End, Node, Open};
use ln_bytes::Bytes;
use ln_keys::{ChannelKeys, Role};
use ln_refusals::Refusal;
use std::alloc::Global;
use std::marker::Model;

/// A channel between two nodes: its two ends, and what is in flight to each.
#[derive(Drop)]
pub struct WorldChannel<K: ChannelKeys + Copy> {
    number: u8,
    funder_node: Node,
    fundee_node: Node,
    funder: SimEnd<K>,
    fundee: SimEnd<K>,
}

impl<K: ChannelKeys + Copy> Model for WorldChannel<K> {
    ghost use Rattle.ln_world_channels.specs.WorldChannel.{WorldChannel as ChannelState};

    ghost Value = { ChannelState K };

    ghost view = { λ c. record {
      number = c.number;
      funder = c.funder_node;
      fundee = c.fundee_node;
      both = record { x = c.funder; y = c.fundee };
    } };
}

impl<K: ChannelKeys + Copy> WorldChannel<K> {
    ghost use Rattle.std.specs.Prelude.{◌≡◌, ◌++◌, ◌∷◌, [], Some, OnOk, IfOk, IfErr, if◌then◌else◌};
    ghost use Rattle.ln_keys.specs.declared.role.Role.TheVariants.{Funder, Fundee};
    ghost use Rattle.ln_world_channels.specs.Settings.{channel_id_of};
    ghost use Rattle.ln_world_channels.specs.Both.{By, Disconnects, Restarts, Meet, act_lines, first_message_lines};
    ghost use Rattle.ln_world_channels.specs.Both.{first_message};
    ghost use Rattle.ln_world_channels.specs.WorldChannel.{side_of, moved, act_moves, disconnect_moves, up_moves};
    ghost use Rattle.ln_world_channels.specs.WorldChannel.{acted_lines};
    ghost use Rattle.ln_world_channels.specs.WorldChannel.{restart_moves, fallen_lines, place_of, end_of};
    ghost use Rattle.ln_world_channels.specs.WorldChannel.{opening_moves};
    ghost use Rattle.ln_world_channels.specs.WorldChannel.{met_lines};
    ghost use Rattle.ln_world_channels.specs.WorldChannel.{may_act, has_halted, acted_unheard, halt_moves};
    ghost use Rattle.ln_channel.specs.Summary.{summary};
    ghost use Rattle.ln_world_channels.specs.World.{lines_of_ends};
    ghost use Rattle.ln_world_channels.specs.Both.{unheard};
    ghost use Rattle.ln_world_channels.specs.Failing.{ByRecord, LinkLacks, MovesLack, ActLacks};
    ghost use Rattle.ln_world_channels.specs.Stored.{side_record};

    /// Its number.
    pub fn number(&self) -> u8
        ensures { result ≡ self.now.number }
    {
        self.number
    }

    /// Which side of it a node is.
    pub fn side_of(&self, node: Node) -> Option<Role>
        ensures { result ≡ side_of node self.now }
    {
        if self.funder_node.letter == node.letter {
            Some(Role::Funder)
        } else if self.fundee_node.letter == node.letter {
            Some(Role::Fundee)
        } else {
            None
        }
    }

    /// One of its ends.
    pub fn place(&self, side: Role) -> &SimEnd<K>
        ensures { result.now ≡ place_of side self.now.both }
    {
        match side {
            Role::Funder => &self.funder,
            Role::Fundee => &self.fundee,
        }
    }

    /// The end of one of its sides.
    pub fn end(&self, side: Role) -> End
        ensures { result ≡ end_of side self.now }
    {
        let node = match side {
            Role::Funder => self.funder_node,
            Role::Fundee => self.fundee_node,
        };
        End {
            node,
            channel: self.number,
        }
    }

    /// One of its ends acts. 60 where there is no memory, 70 where the end has no record as the act leaves it.
    #[tactic(auto, unfolding(crate::specs::Both::moves))]
    fn act_by(
        &mut self,
        alloc: Global,
        side: Role,
        what: Act,
        lines: &mut Vec<Line>,
    ) -> Result<(), Refusal>
        ensures moved { OnOk result (self.new ≡ moved K.signer (λ c. By side what ∷ []) self.old) }
        ensures told { OnOk result (lines.new.items ≡ lines.old.items ++ act_lines K.signer (end_of side self.old)
            (channel_id_of self.old.number) what (place_of side self.old.both)) }
        ensures number { self.new.number ≡ self.old.number }
        ensures fails { IfErr result (λ e. ByRecord e
            (LinkLacks (unheard K.signer what (place_of side self.old.both)).link)) }
    {
        let end = self.end(side);
        match side {
            Role::Funder => act(alloc, end, &mut self.funder, &mut self.fundee, what, lines),
            Role::Fundee => act(alloc, end, &mut self.fundee, &mut self.funder, what, lines),
        }
    }

    /// The node's end acts, where it has one. 60 where there is no memory, 70 where the end has no record as the act
    /// leaves it.
    #[tactic(auto, unfolding(crate::specs::WorldChannel::acted_lines))]
    pub fn act(
        &mut self,
        alloc: Global,
        node: Node,
        what: Act,
        lines: &mut Vec<Line>,
    ) -> Result<(), Refusal>
        ensures moved { OnOk result (self.new ≡ moved K.signer (act_moves node what) self.old) }
        ensures told { OnOk result (lines.new.items
            ≡ lines.old.items ++ acted_lines K.signer what self.old (side_of node self.old)) }
        ensures number { self.new.number ≡ self.old.number }
        ensures fails { IfErr result (λ e. ByRecord e (ActLacks K.signer node what self.old)) }
    {
        match self.side_of(node) {
            None => {
                drop(what);
                lines.push(Line::Idle)?;
                Ok(())
            }
            Some(side) => self.act_by(alloc, side, what, lines),
        }
    }

    /// Whether the node's end can act so: it has one, and a message is there where one is to be taken.
    pub(crate) fn may_act(&self, node: Node, what: &Act) -> bool
        ensures { result ≡ may_act node what.now self.now }
    {
        match self.side_of(node) {
            None => false,
            Some(side) => self.place(side).may_do(what),
        }
    }

    /// Whether the node's end has halted: it has one, and its link has.
    pub(crate) fn has_halted(&self, node: Node) -> bool
        ensures { result ≡ has_halted node self.now }
    {
        match self.side_of(node) {
            None => false,
            Some(side) => self.place(side).has_halted(),
        }
    }

    /// The node's end acts, where it has one; what it hands out is lost. 60 where there is no memory, 70 where the end
    /// has no record as the act leaves it.
    pub(crate) fn act_unheard(
        &mut self,
        alloc: Global,
        node: Node,
        what: Act,
    ) -> Result<(), Refusal>
        ensures acted { OnOk result (self.new ≡ acted_unheard K.signer node what self.old) }
        ensures number { self.new.number ≡ self.old.number }
        ensures fails { IfErr result (λ e. ByRecord e (ActLacks K.signer node what self.old)) }
    {
        match self.side_of(node) {
            None => {
                drop(what);
                Ok(())
            }
            Some(Role::Funder) => act_unheard(alloc, &mut self.funder, what),
            Some(Role::Fundee) => act_unheard(alloc, &mut self.fundee, what),
        }
    }

    /// The node's end loses its connection, where it has one. 60 where there is no memory.
    #[tactic(auto, unfolding(crate::specs::Both::moves))]
    pub fn disconnect(&mut self, node: Node, lines: &mut Vec<Line>) -> Result<(), Refusal>
        ensures moved { OnOk result (self.new ≡ moved K.signer (disconnect_moves node) self.old) }
        ensures told { OnOk result (lines.new.items ≡ lines.old.items ++ fallen_lines (side_of node self.old)) }
        ensures number { self.new.number ≡ self.old.number }
        ensures fails_for_memory_alone { IfErr result (λ e. e ≡ Refusal.Memory) }
    {
        match self.side_of(node) {
            None => lines.push(Line::Idle)?,
            Some(Role::Funder) => self.funder.disconnect(),
            Some(Role::Fundee) => self.fundee.disconnect(),
        }
        Ok(())
    }

    /// The node's end halts, where it has one. Takes no memory.
    #[tactic(auto, unfolding(crate::specs::Both::moves))]
    pub(crate) fn halt(&mut self, node: Node)
        ensures moved { self.new ≡ moved K.signer (halt_moves node) self.old }
        ensures number { self.new.number ≡ self.old.number }
    {
        match self.side_of(node) {
            None => {}
            Some(Role::Funder) => self.funder.halt(),
            Some(Role::Fundee) => self.fundee.halt(),
        }
    }

    /// The node's end comes back from its record, where it has one. 60 where there is no memory.
    #[tactic(auto, unfolding(crate::specs::Both::moves))]
    pub fn restart(&mut self, alloc: Global, node: Node) -> Result<(), Refusal>
        ensures moved { OnOk result (self.new ≡ moved K.signer (restart_moves node) self.old) }
        ensures number { self.new.number ≡ self.old.number }
        ensures fails_for_memory_alone { IfErr result (λ e. e ≡ Refusal.Memory) }
    {
        match self.side_of(node) {
            None => Ok(()),
            Some(Role::Funder) => self.funder.restart(alloc),
            Some(Role::Fundee) => self.fundee.restart(alloc),
        }
    }

    /// The bytes of the record of the node's end, where it has one; none before both have signed the opening. 60 where
    /// there is no memory.
    pub(crate) fn record(&mut self, alloc: Global, node: Node) -> Result<Option<Bytes>, Refusal>
        ensures record { IfOk result (λ found. found ≡ side_record (side_of node self.old) self.old.both) }
        ensures changes_nothing { self.new ≡ self.old }
        ensures fails_for_memory_alone { IfErr result (λ e. e ≡ Refusal.Memory) }
    {
        match self.side_of(node) {
            None => Ok(None),
            Some(Role::Funder) => self.funder.record(alloc),
            Some(Role::Fundee) => self.fundee.record(alloc),
        }
    }

    /// Its ends connect, and each of the four messages of the opening is taken by the other end. Nothing is told of it.
    /// 60 where there is no memory, 70 where an end has no record as one of these acts leaves it.
    fn open(&mut self, alloc: Global) -> Result<(), Refusal>
        ensures moved { OnOk result (self.new ≡ moved K.signer (λ c. opening_moves) self.old) }
        ensures fails { IfErr result (λ e. ByRecord e
            (MovesLack K.signer (channel_id_of self.old.number) opening_moves self.old.both)) }
    {
        let mut lines = Vec::new(alloc);
        self.meet(alloc, &mut lines)?;
        self.act_by(alloc, Role::Fundee, Act::Deliver, &mut lines)?;
        self.act_by(alloc, Role::Funder, Act::Deliver, &mut lines)?;
        self.act_by(alloc, Role::Fundee, Act::Deliver, &mut lines)?;
        self.act_by(alloc, Role::Funder, Act::Deliver, &mut lines)
    }

    /// Both ends get a connection. 60 where there is no memory.
    #[tactic(auto, unfolding(crate::specs::Both::moves))]
    fn meet(&mut self, alloc: Global, lines: &mut Vec<Line>) -> Result<(), Refusal>
        ensures moved { OnOk result (self.new ≡ moved K.signer (λ c. Meet ∷ []) self.old) }
        ensures told { OnOk result (lines.new.items ≡ lines.old.items
            ++ (first_message_lines (end_of Funder self.old) (first_message K.signer self.old.both.x.link)
            ++ first_message_lines (end_of Fundee self.old) (first_message K.signer self.old.both.y.link))) }
        ensures number { self.new.number ≡ self.old.number }
        ensures fails_for_memory_alone { IfErr result (λ e. e ≡ Refusal.Memory) }
    {
        let ends = (self.end(Role::Funder), self.end(Role::Fundee));
        meet(alloc, ends, &mut self.funder, &mut self.fundee, lines)
    }

    /// Both ends get a connection, where they may. 60 where there is no memory.
    #[tactic(auto, unfolding(crate::specs::WorldChannel::met_lines))]
    pub fn come_up(&mut self, alloc: Global, lines: &mut Vec<Line>) -> Result<(), Refusal>
        ensures moved { OnOk result (self.new
            ≡ moved K.signer up_moves self.old) }
        ensures told { OnOk result (lines.new.items ≡ lines.old.items ++ met_lines K.signer self.old) }
        ensures number { self.new.number ≡ self.old.number }
        ensures fails_for_memory_alone { IfErr result (λ e. e ≡ Refusal.Memory) }
    {
        if !(self.funder.may_come_up() && self.fundee.may_come_up()) {
            lines.push(Line::Idle)?;
            return Ok(());
        }
        self.meet(alloc, lines)
    }

    /// Where one of its ends stands. 60 where there is no memory.
    fn end_line(&self, alloc: Global, side: Role) -> Result<EndLine, Refusal>
        ensures line { IfOk result (λ l. l ≡ record {
          end = end_of side self.now;
          summary = summary (place_of side self.now.both).link;
        }) }
        ensures fails_for_memory_alone { IfErr result (λ e. e ≡ Refusal.Memory) }
    {
        Ok(EndLine {
            end: self.end(side),
            summary: self.place(side).link().summary(alloc)?,
        })
    }

    /// Where its two ends stand, the funder's first. 60 where there is no memory.
    pub(crate) fn report_ends(&self, alloc: Global, lines: &mut Vec<EndLine>) -> Result<(), Refusal>
        ensures told { OnOk result (lines.new.items ≡ lines.old.items ++ lines_of_ends (Some self.now)) }
        ensures fails_for_memory_alone { IfErr result (λ e. e ≡ Refusal.Memory) }
    {
        lines.push(self.end_line(alloc, Role::Funder)?)?;
        lines.push(self.end_line(alloc, Role::Fundee)?)?;
        Ok(())
    }
}

/// A channel of two new links, which have no connection yet.
fn begin<K: ChannelKeys + Copy>(
    alloc: Global,
    wish: &Open<K>,
    funder: &Settings,
    fundee: &Settings,
) -> Result<WorldChannel<K>, Refusal>
    requires { CanBring wish.now.satoshis wish.now.push funder.now fundee.now }
    ensures begun { IfOk result (λ c. c ≡ begun_by K.ChannelKeys wish.now funder.now fundee.now) }
    ensures fails_for_memory_alone { IfErr result (λ e. e ≡ refusal.Memory) }
{
    let spec = fit_spec(
        alloc,
        wish.channel,
        wish.funder,
        funder,
        wish.satoshis,
        wish.push,
    )?;
    let config = match fit_config(alloc, wish.fundee, fundee) {
        Ok(config) => config,
        Err(refusal) => {
            drop(spec);
            return Err(refusal);
        }
    };
    Ok(WorldChannel {
        number: wish.channel,
        funder_node: wish.funder,
        fundee_node: wish.fundee,
        funder: SimEnd::new(
            alloc,
            wish.keys.funder,
            SavedLink::funder(alloc, wish.keys.funder, spec),
        ),
        fundee: SimEnd::new(
            alloc,
            wish.keys.fundee,
            SavedLink::fundee(alloc, wish.keys.fundee, config),
        ),
    })
}

/// A channel is opened: each of the four messages is taken by the other end. 60 where there is no memory, 70 where an
/// end has no record as one of these acts leaves it.
pub fn open_channel<K: ChannelKeys + Copy>(
    alloc: Global,
    wish: &Open<K>,
    funder: &Settings,
    fundee: &Settings,
) -> Result<WorldChannel<K>, Refusal>
    requires { CanBring wish.now.satoshis wish.now.push funder.now fundee.now }
    ensures opened { IfOk result (λ c. c ≡ opened_by K.ChannelKeys wish.now funder.now fundee.now) }
    ensures fails { IfErr result (λ e. ByRecord e (OpeningLacks K.ChannelKeys wish.now funder.now fundee.now)) }
{
    let mut channel = begin(alloc, wish, funder, fundee)?;
    match channel.open(alloc) {
        Ok(()) => Ok(channel),
        Err(refusal) => {
            drop(channel);
            Err(refusal)
        }
    }
}
