//! The two ends of one channel, each a link of its own, and what is in flight to each (BOLT 2).

ghost use Rattle.std.specs.Prelude.{◌≡◌, ◌++◌, option_copied, IfOk, IfErr, OnOk};
ghost use Rattle.ln_refusals.specs.declared.refusal.Refusal.TheVariants as refusal;
ghost use Rattle.ln_world_channels.specs.declared.step.Act.TheVariants as act;
ghost use Rattle.ln_world_channels.specs.Settings.{channel_id_of};
ghost use Rattle.ln_channel_laws.specs.Ends.{messages_in};
ghost use Rattle.ln_world_channels.specs.Lines.{lines_of, replies, refused_lines};
ghost use Rattle.ln_channel.specs.Record.{saved_end};
ghost use Rattle.ln_channel.specs.State.{numbers_of};
ghost use Rattle.ln_world_channels.specs.Both.{reaches, sent_by, answer_lines, said_by, delivers, delivered_lines};
ghost use Rattle.ln_world_channels.specs.Both.{acts};
ghost use Rattle.ln_world_channels.specs.Both.{act_lines, delivered_unheard, unheard};
ghost use Rattle.ln_world_channels.specs.Both.{first_message, greets, first_message_lines, meet};
ghost use Rattle.ln_world_channels.specs.Failing.{ByRecord, LinkLacks};

use crate::answer::Answer;
use crate::line::Line;
use crate::report::{reply_of, report_outputs, report_refusal};
use crate::saved_link::SavedLink;
use crate::settings::channel_id_of;
use crate::step::{Act, End};
use ln_bytes::Bytes;
use ln_channel::{ChannelMachine, Command, Output};
use ln_keys::ChannelKeys;
use ln_msgs::Message;
use ln_refusals::Refusal;
use std::alloc::Global;
use std::collections::VecDeque;
use std::marker::Model;

/// An end of a channel: its keys, its link with the record that a restart finds, and the messages in flight to it.
#[derive(Drop)]
pub struct SimEnd<K: ChannelKeys + Copy> {
    keys: K,
    link: SavedLink<K>,
    inbox: VecDeque<Message>,
}

impl<K: ChannelKeys + Copy> Model for SimEnd<K> {
    ghost use Rattle.ln_world_channels.specs.Both.{SimEnd as SimEndState};

    ghost Value = { SimEndState K };

    ghost view = { λ p. record { keys = p.keys; link = p.link; inbox = p.inbox.items } };
}

/// The messages among what is handed out join those in flight.
fn send_all(outputs: Vec<Output>, inbox: &mut VecDeque<Message>) -> Result<(), Refusal>
    ensures sent { OnOk result (inbox.new.items ≡ inbox.old.items ++ messages_in outputs.items) }
    ensures fails_for_memory_alone { IfErr result (λ e. e ≡ refusal.Memory) }
{
    for output in outputs {
        match output {
            Output::Send(message) => inbox.push_back(message)?,
            other => drop(other),
        }
    }
    Ok(())
}

impl<K: ChannelKeys + Copy> SimEnd<K> {
    ghost use Rattle.std.specs.Prelude.{◌≡◌, [], IfErr, OnOk};
    ghost use Rattle.ln_channel_laws.specs.Ends.{messages_in};
    ghost use Rattle.ln_world_channels.specs.Lines.{one_or_none};
    ghost use Rattle.ln_world_channels.specs.Both.{reaches, disconnected, halted, restarted, may_come_up};
    ghost use Rattle.ln_world_channels.specs.WorldChannel.{may_do};
    ghost use Rattle.ln_world_channels.specs.Stored.{link_record};

    /// An end without a connection, and nothing in flight to it. Takes no memory.
    pub(crate) fn new(alloc: Global, keys: K, link: SavedLink<K>) -> SimEnd<K>
        ensures { result ≡ record { keys = keys; link = link; inbox = [] } }
    {
        SimEnd {
            keys,
            link,
            inbox: VecDeque::new(alloc),
        }
    }

    /// The link.
    pub fn link(&self) -> &ChannelMachine<K>
        ensures { result.now ≡ self.now.link }
    {
        self.link.channel_machine()
    }

    /// What is sent to it is in flight, or lost where it has no connection. 60 where there is no memory.
    fn take_in(&mut self, outputs: Vec<Output>) -> Result<(), Refusal>
        ensures sent { OnOk result (self.new ≡ reaches (messages_in outputs.items) self.old) }
        ensures fails_for_memory_alone { IfErr result (λ e. e ≡ Refusal.Memory) }
    {
        if self.link().connection().is_down() {
            drop(outputs);
            return Ok(());
        }
        send_all(outputs, &mut self.inbox)
    }

    fn take_reply(&mut self, reply: Option<Message>) -> Result<(), Refusal>
        ensures sent { OnOk result (self.new ≡ reaches (one_or_none reply) self.old) }
        ensures fails_for_memory_alone { IfErr result (λ e. e ≡ Refusal.Memory) }
    {
        if self.link().connection().is_down() {
            drop(reply);
            return Ok(());
        }
        match reply {
            Some(message) => self.inbox.push_back(message)?,
            None => {}
        }
        Ok(())
    }

    /// Whether it may get a connection: it has none, and hasn't halted.
    pub(crate) fn may_come_up(&self) -> bool
        ensures { result ≡ may_come_up self.now.link }
    {
        self.link().connection().is_down() && !self.link().is_halted()
    }

    /// Whether its link has halted.
    pub(crate) fn has_halted(&self) -> bool
        ensures { result ≡ self.now.link.halted }
    {
        self.link().is_halted()
    }

    /// Whether it can act so: a message is in flight to it, or it is given a command.
    pub(crate) fn may_do(&self, what: &Act) -> bool
        ensures { result ≡ may_do what.now self.now }
    {
        match what {
            Act::Deliver => !self.inbox.is_empty(),
            Act::Send(_) => true,
        }
    }

    /// It loses its connection, and what is in flight to it.
    pub(crate) fn disconnect(&mut self)
        ensures { self.new ≡ disconnected self.old }
    {
        self.link.drop_connection();
        self.inbox.clear();
    }

    /// It has no memory for what it was to do, or a save of it failed: it loses its connection, and what is in flight
    /// to it, and answers nothing until it comes back from its record. Takes no memory.
    pub(crate) fn halt(&mut self)
        ensures { self.new ≡ halted self.old }
    {
        self.link.halt();
        self.inbox.clear();
    }

    /// Its node restarts, or it reloads alone: it comes back from its record, and what is in flight to it is lost.
    /// Takes memory for the record and for the end; 60 where there is none.
    pub(crate) fn restart(&mut self, alloc: Global) -> Result<(), Refusal>
        ensures restarted { OnOk result (self.new ≡ restarted self.old) }
        ensures fails_for_memory_alone { IfErr result (λ e. e ≡ Refusal.Memory) }
    {
        self.link.restart(alloc, self.keys)?;
        self.inbox.clear();
        Ok(())
    }

    /// The bytes of its record; none before both have signed the opening. 60 where there is no memory for them.
    pub(crate) fn record(&mut self, alloc: Global) -> Result<Option<Bytes>, Refusal>
        ensures record { IfOk result (λ found. found ≡ link_record self.old.link) }
        ensures changes_nothing { self.new ≡ self.old }
        ensures fails_for_memory_alone { IfErr result (λ e. e ≡ Refusal.Memory) }
    {
        self.link.record(alloc)
    }
}

/// What a link hands out is told, and joins what is in flight to the other end. 60 where there is no memory.
fn hand_out<K: ChannelKeys + Copy>(
    end: End,
    link: &ChannelMachine<K>,
    outputs: Vec<Output>,
    other: &mut SimEnd<K>,
    lines: &mut Vec<Line>,
) -> Result<(), Refusal>
    ensures sent { OnOk result (other.new ≡ reaches (messages_in outputs.items) other.old) }
    ensures told { OnOk result (lines.new.items
        ≡ lines.old.items ++ lines_of end (numbers_of link.now.stage) outputs.items) }
    ensures fails_for_memory_alone { IfErr result (λ e. e ≡ refusal.Memory) }
{
    let numbers = link.numbers();
    match report_outputs(end, numbers, &outputs, lines) {
        Ok(()) => {}
        Err(refusal) => {
            drop(outputs);
            return Err(refusal);
        }
    }
    other.take_in(outputs)
}

/// That a link refuses is told, and the other end is sent the reply. 60 where there is no memory.
fn refuse<K: ChannelKeys + Copy>(
    alloc: Global,
    end: End,
    why: Refusal,
    other: &mut SimEnd<K>,
    lines: &mut Vec<Line>,
) -> Result<(), Refusal>
    ensures sent { OnOk result (other.new ≡ reaches (replies (channel_id_of end.channel) why) other.old) }
    ensures told { OnOk result (lines.new.items
        ≡ lines.old.items ++ refused_lines end (channel_id_of end.channel) why) }
    ensures fails_for_memory_alone { IfErr result (λ e. e ≡ refusal.Memory) }
{
    let reply = reply_of(alloc, &channel_id_of(end.channel), why)?;
    match report_refusal(end, why, &reply, lines) {
        Ok(()) => {}
        Err(refusal) => {
            drop(reply);
            return Err(refusal);
        }
    }
    other.take_reply(reply)
}

/// What a link answered is told, and what it sends is in flight to the other end. 60 where there is no memory.
fn pass_on<K: ChannelKeys + Copy>(
    alloc: Global,
    end: End,
    link: &ChannelMachine<K>,
    answer: Answer,
    other: &mut SimEnd<K>,
    lines: &mut Vec<Line>,
) -> Result<(), Refusal>
    ensures sent { OnOk result (other.new
        ≡ reaches (sent_by (channel_id_of end.channel) (said_by answer link.now)) other.old) }
    ensures told { OnOk result (lines.new.items
        ≡ lines.old.items ++ answer_lines end (channel_id_of end.channel) (said_by answer link.now)) }
    ensures fails_for_memory_alone { IfErr result (λ e. e ≡ refusal.Memory) }
{
    match answer {
        Answer::Done(outputs) => hand_out(end, link, outputs, other, lines),
        Answer::Refused(why) => refuse(alloc, end, why, other, lines),
    }
}

/// The end takes the oldest message in flight to it. 60 where there is no memory, 70 where it has no record after
/// that.
fn deliver<K: ChannelKeys + Copy>(
    alloc: Global,
    end: End,
    x: &mut SimEnd<K>,
    y: &mut SimEnd<K>,
    lines: &mut Vec<Line>,
) -> Result<(), Refusal>
    ensures both { OnOk result (record { x = x.new; y = y.new }
        ≡ delivers K.signer (channel_id_of end.channel) x.old.inbox (record { x = x.old; y = y.old })) }
    ensures told { OnOk result (lines.new.items ≡ lines.old.items
        ++ delivered_lines K.signer end (channel_id_of end.channel) x.old.inbox x.old.link) }
    ensures fails { IfErr result (λ e. ByRecord e (LinkLacks (delivered_unheard K.signer x.old.inbox x.old).link)) }
{
    match x.inbox.pop_front() {
        None => {
            lines.push(Line::Idle)?;
            Ok(())
        }
        Some(message) => {
            let answer = x.link.handle(alloc, x.keys, message)?;
            pass_on(alloc, end, x.link(), answer, y, lines)
        }
    }
}

/// The end is given a command. 60 where there is no memory, 70 where it has no record after that.
fn give<K: ChannelKeys + Copy>(
    alloc: Global,
    end: End,
    x: &mut SimEnd<K>,
    y: &mut SimEnd<K>,
    command: Command,
    lines: &mut Vec<Line>,
) -> Result<(), Refusal>
    ensures both { OnOk result (record { x = x.new; y = y.new }
        ≡ acts K.signer (channel_id_of end.channel) (act.Send command) (record { x = x.old; y = y.old })) }
    ensures told { OnOk result (lines.new.items ≡ lines.old.items
        ++ act_lines K.signer end (channel_id_of end.channel) (act.Send command) x.old) }
    ensures fails { IfErr result (λ e. ByRecord e (LinkLacks (unheard K.signer (act.Send command) x.old).link)) }
{
    let answer = x.link.command(alloc, x.keys, command)?;
    pass_on(alloc, end, x.link(), answer, y, lines)
}

/// The end acts. 60 where there is no memory, 70 where it has no record after that.
pub(crate) fn act<K: ChannelKeys + Copy>(
    alloc: Global,
    end: End,
    x: &mut SimEnd<K>,
    y: &mut SimEnd<K>,
    act: Act,
    lines: &mut Vec<Line>,
) -> Result<(), Refusal>
    ensures both { OnOk result (record { x = x.new; y = y.new }
        ≡ acts K.signer (channel_id_of end.channel) act (record { x = x.old; y = y.old })) }
    ensures told { OnOk result (lines.new.items ≡ lines.old.items
        ++ act_lines K.signer end (channel_id_of end.channel) act x.old) }
    ensures fails { IfErr result (λ e. ByRecord e (LinkLacks (unheard K.signer act x.old).link)) }
{
    match act {
        Act::Deliver => deliver(alloc, end, x, y, lines),
        Act::Send(command) => give(alloc, end, x, y, command, lines),
    }
}

/// The end takes the oldest message in flight to it; what it hands out is lost. 60 where there is no memory, 70 where
/// it has no record after that.
fn deliver_unheard<K: ChannelKeys + Copy>(alloc: Global, x: &mut SimEnd<K>) -> Result<(), Refusal>
    ensures acted { OnOk result (x.new ≡ delivered_unheard K.signer x.old.inbox x.old) }
    ensures fails { IfErr result (λ e. ByRecord e (LinkLacks (delivered_unheard K.signer x.old.inbox x.old).link)) }
{
    let Some(message) = x.inbox.pop_front() else {
        return Ok(());
    };
    drop(x.link.handle(alloc, x.keys, message)?);
    Ok(())
}

/// The end is given a command; what it hands out is lost. 60 where there is no memory, 70 where it has no record after
/// that.
fn give_unheard<K: ChannelKeys + Copy>(
    alloc: Global,
    x: &mut SimEnd<K>,
    command: Command,
) -> Result<(), Refusal>
    ensures acted { OnOk result (x.new ≡ unheard K.signer (act.Send command) x.old) }
    ensures fails { IfErr result (λ e. ByRecord e (LinkLacks (unheard K.signer (act.Send command) x.old).link)) }
{
    drop(x.link.command(alloc, x.keys, command)?);
    Ok(())
}

/// The end acts; what it hands out is lost. 60 where there is no memory, 70 where it has no record after that.
pub(crate) fn act_unheard<K: ChannelKeys + Copy>(
    alloc: Global,
    x: &mut SimEnd<K>,
    act: Act,
) -> Result<(), Refusal>
    ensures acted { OnOk result (x.new ≡ unheard K.signer act x.old) }
    ensures fails { IfErr result (λ e. ByRecord e (LinkLacks (unheard K.signer act x.old).link)) }
{
    match act {
        Act::Deliver => deliver_unheard(alloc, x),
        Act::Send(command) => give_unheard(alloc, x, command),
    }
}

/// What a link sends over its new connection is told, and in flight to the other end. 60 where there is no memory.
fn greet<K: ChannelKeys + Copy>(
    end: End,
    link: &ChannelMachine<K>,
    answer: Answer,
    other: &mut SimEnd<K>,
    lines: &mut Vec<Line>,
) -> Result<(), Refusal>
    ensures sent { OnOk result (other.new ≡ reaches (greets (said_by answer link.now)) other.old) }
    ensures told { OnOk result (lines.new.items
        ≡ lines.old.items ++ first_message_lines end (said_by answer link.now)) }
    ensures fails_for_memory_alone { IfErr result (λ e. e ≡ refusal.Memory) }
{
    match answer {
        Answer::Done(outputs) => hand_out(end, link, outputs, other, lines),
        Answer::Refused(_) => Ok(()),
    }
}

/// Both ends get a connection before either sends, the end x first. 60 where there is no memory.
pub(crate) fn meet<K: ChannelKeys + Copy>(
    alloc: Global,
    ends: (End, End),
    x: &mut SimEnd<K>,
    y: &mut SimEnd<K>,
    lines: &mut Vec<Line>,
) -> Result<(), Refusal>
    ensures both { OnOk result (record { x = x.new; y = y.new } ≡ meet K.signer (record { x = x.old; y = y.old })) }
    ensures told { OnOk result (lines.new.items ≡ lines.old.items
        ++ (first_message_lines ends.0 (first_message K.signer x.old.link)
        ++ first_message_lines ends.1 (first_message K.signer y.old.link))) }
    ensures fails_for_memory_alone { IfErr result (λ e. e ≡ refusal.Memory) }
{
    let from_x = x.link.connect(alloc, x.keys)?;
    let from_y = match y.link.connect(alloc, y.keys) {
        Ok(answer) => answer,
        Err(refusal) => {
            drop(from_x);
            return Err(refusal);
        }
    };
    match greet(ends.0, x.link(), from_x, y, lines) {
        Ok(()) => {}
        Err(refusal) => {
            drop(from_y);
            return Err(refusal);
        }
    }
    greet(ends.1, y.link(), from_y, x, lines)
}
