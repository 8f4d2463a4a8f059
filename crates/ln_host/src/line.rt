//! The line in which what a link hands out waits for its host.

ghost use Rattle.std.specs.Prelude.{◌≡◌, None};
ghost use Rattle.ln_host.specs.Blank.{filled};
ghost use Rattle.ln_host.specs.Line.{IsMessageHead};

use crate::blank::Blank;
use crate::filling::{Filling, fill, put};
use ln_hooks::ChannelEvent;
use ln_msgs::Message;
use ln_refusals::Refusal;
use std::alloc::Global;
use std::collections::VecDeque;
use std::marker::Model;

/// A message that goes out, and what is blank in it.
#[derive(Drop)]
pub struct Outgoing {
    /// The message.
    pub message: Message,
    /// What its host has to fill in before it is sent.
    pub blank: Option<Blank>,
}

/// What a link tells its host.
#[derive(Drop)]
pub enum Told {
    /// An event with its number.
    Event(u64, ChannelEvent),
    /// The channel is closed at this fee, in satoshi.
    Closed(u64),
}

/// What stands first in a line.
#[derive(Clone, Copy)]
pub enum Head<'a> {
    /// The record isn't saved yet.
    Record,
    /// A blank of the message after it.
    Blank(&'a Blank),
    /// A message to be sent.
    Send(&'a Message),
    /// What is told.
    Told(&'a Told),
}

/// The line in which what a link hands out waits for its host: a record before all that it covers, then messages, then
/// what is told. A host saves the record, fills the blanks, sends the messages, and acts on what is told, one after the
/// other; what is after a record leaves only after it.
#[derive(Drop)]
pub struct Line {
    record_waits: bool,
    messages: VecDeque<Outgoing>,
    told: VecDeque<Told>,
}

impl Model for Line {
    ghost use Rattle.ln_host.specs.Line.{Waiting};

    ghost Value = { Waiting };

    ghost view = { λ l. record { record_waits = l.record_waits; messages = l.messages.items; told = l.told.items } };
}

// What stands first of a message.
fn head_of(outgoing: &Outgoing) -> Head<'_>
    ensures { IsMessageHead outgoing.now outgoing.now.blank result }
{
    match &outgoing.blank {
        Some(blank) => Head::Blank(blank),
        None => Head::Send(&outgoing.message),
    }
}

// A message is filled, and has no blank any more.
fn fill_outgoing(outgoing: &mut Outgoing, filling: Filling)
    ensures { outgoing.new ≡ record { message = filled filling outgoing.old.message; blank = None } }
{
    fill(&mut outgoing.message, filling);
    put(&mut outgoing.blank, None);
}

impl Line {
    ghost use Rattle.std.specs.Prelude.{◌≡◌, OnOk, OnErr, IfErr};
    ghost use Rattle.ln_refusals.specs.declared.refusal.Refusal.TheVariants as refusal;
    ghost use Rattle.ln_host.specs.Line.{empty, with_record, with_message, with_told, without_head, lost, IsHead};
    ghost use Rattle.ln_host.specs.Line.{first_filled, is_blank_first};

    /// Nothing waits. Takes no memory.
    pub fn new(alloc: Global) -> Line
        ensures { result ≡ empty }
    {
        Line {
            record_waits: false,
            messages: VecDeque::new(alloc),
            told: VecDeque::new(alloc),
        }
    }

    /// Where a call has saved a record, it stands before all else; the newest stands for those before it. Takes no
    /// memory.
    pub fn put_record(&mut self, saved: bool)
        ensures { self.new ≡ with_record saved self.old }
    {
        if saved {
            self.record_waits = true;
        }
    }

    /// Whether a record waits. Takes no memory.
    pub fn has_record(&self) -> bool
        ensures { result ≡ self.now.record_waits }
    {
        self.record_waits
    }

    /// A message that goes out, after all others. 60 where there is no memory, and nothing has changed.
    pub fn put_message(&mut self, outgoing: Outgoing) -> Result<(), Refusal>
        ensures put { OnOk result (self.new ≡ with_message outgoing self.old) }
        ensures changes_nothing_if_refused { OnErr result (self.new ≡ self.old) }
        ensures fails_for_memory_alone { IfErr result (λ r. r ≡ refusal.Memory) }
    {
        self.messages.push_back(outgoing)?;
        Ok(())
    }

    /// What is told, after all else that is. 60 where there is no memory, and nothing has changed.
    pub fn put_told(&mut self, told: Told) -> Result<(), Refusal>
        ensures put { OnOk result (self.new ≡ with_told told self.old) }
        ensures changes_nothing_if_refused { OnErr result (self.new ≡ self.old) }
        ensures fails_for_memory_alone { IfErr result (λ r. r ≡ refusal.Memory) }
    {
        self.told.push_back(told)?;
        Ok(())
    }

    /// What stands first; none where nothing waits. Takes no memory.
    pub fn head(&self) -> Option<Head<'_>>
        ensures { IsHead self.now result }
    {
        if self.record_waits {
            return Some(Head::Record);
        }
        match self.messages.front() {
            Some(outgoing) => Some(head_of(outgoing)),
            None => match self.told.front() {
                Some(told) => Some(Head::Told(told)),
                None => None,
            },
        }
    }

    /// The first message is filled; nothing changes where there is none. Takes no memory.
    pub fn fill_first(&mut self, filling: Filling)
        ensures { self.new ≡ record self.old { messages = first_filled filling self.old.messages } }
    {
        match self.messages.front_mut() {
            Some(outgoing) => fill_outgoing(outgoing, filling),
            None => drop(filling),
        }
    }

    // Whether the first message has a blank.
    fn is_blank_first(&self) -> bool
        ensures { result ≡ is_blank_first self.now.messages }
    {
        match self.messages.front() {
            Some(outgoing) => outgoing.blank.is_some(),
            None => false,
        }
    }

    /// What stands first leaves: the record, which is saved; the first message, unless it has a blank; or what is told
    /// first. Takes no memory.
    pub fn take_head(&mut self)
        ensures { self.new ≡ without_head self.old }
    {
        if self.record_waits {
            self.record_waits = false;
            return;
        }
        if self.is_blank_first() {
            return;
        }
        match self.messages.pop_front() {
            Some(outgoing) => drop(outgoing),
            None => drop(self.told.pop_front()),
        }
        self.give_back();
    }

    // An idle line keeps no room: what is empty gives its memory back.
    fn give_back(&mut self)
        ensures { self.new ≡ self.old }
    {
        if self.messages.is_empty() {
            self.messages.shrink_to_fit();
        }
        if self.told.is_empty() {
            self.told.shrink_to_fit();
        }
    }

    /// The connection is lost: its messages leave, and no record and nothing that is told. Takes no memory.
    pub fn lose(&mut self)
        ensures { self.new ≡ lost self.old }
    {
        self.messages.clear();
        self.give_back();
    }
}
