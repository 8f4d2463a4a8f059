//! What peers and users make of one channel.

use crate::commands::is_users;
use crate::moves::{drop_at, halt_at, obey_at, take_at};
use crate::parts::ChannelParts;
use ln_channel::{Command, Output};
use ln_keys::ChannelKeys;
use ln_log::ChannelId;
use ln_msgs::Message;
use ln_refusals::Refusal;
use std::alloc::Global;

impl<K: ChannelKeys + Drop> ChannelParts<K> {
    ghost use Rattle.std.specs.Prelude.{◌≡◌, ◌⊎◌, slice_get, IfErr, OnOk, OnErr, if◌then◌else◌};
    ghost use Rattle.ln_channel.specs.State.{drops, halts};
    ghost use Rattle.ln_manager_channels.specs.Books.{with_kept};
    ghost use Rattle.ln_manager_channels.specs.Commands as commands;
    ghost use Rattle.ln_manager_channels.specs.Links.{end_in, is_up, number_in};
    ghost use Rattle.ln_manager_channels.specs.Moves.{TakesOver, opened_in, known_before, numbered_before, knowing};
    ghost use Rattle.ln_manager_channels.specs.Moves.{TakesMessage, ObeysOver, ObeysUser};
    ghost use Rattle.ln_manager_channels.specs.Moves as moves;
    ghost use Rattle.ln_manager_channels.specs.Places.{changed_at};

    // ---- a lost connection

    // The book hears what the end of a channel has kept. Error: 60 alone, which changes nothing.
    fn tell_kept(&mut self, alloc: Global, channel: usize) -> Result<(), Refusal>
        ensures tells { OnOk result (self.new.book
            ≡ with_kept (end_in (slice_get self.old.links.items channel)) self.old.book) }
        ensures changes_nothing_if_refused { OnErr result (self.new.book ≡ self.old.book) }
        ensures fails_for_memory_alone { IfErr result (λ r. r ≡ Refusal.Memory) }
        ensures links_stay { self.new.links.items ≡ self.old.links.items }
        ensures records_stay { self.new.records.items ≡ self.old.records.items }
        ensures numbers_stay { self.new.numbers ≡ self.old.numbers }
    {
        match self.links.get(channel) {
            None => Ok(()),
            Some(link) => match link.channel_machine().saved() {
                None => Ok(()),
                Some(end) => self.book.dropped(alloc, end.id(), end),
            },
        }
    }

    // Whether a link works and has a connection.
    fn is_up(&self, channel: usize) -> bool
        ensures { result ≡ is_up (slice_get self.now.links.items channel) }
    {
        match self.machine(channel) {
            None => false,
            Some(machine) => !machine.is_halted() && !machine.connection().is_down(),
        }
    }

    /// The connection of a channel is lost, and the book hears what its end has kept. Nothing happens where it has
    /// none, or its link has halted. Error: 60, by which the link halts.
    pub(crate) fn disconnect(&mut self, alloc: Global, channel: usize) -> Result<(), Refusal>
        ensures loses { OnOk result (self.new.links.items ≡ (if is_up (slice_get self.old.links.items channel)
            then changed_at channel drops self.old.links.items else self.old.links.items)) }
        ensures tells_what_is_kept { OnOk result (self.new.book ≡ (if is_up (slice_get self.old.links.items channel)
            then with_kept (end_in (slice_get self.new.links.items channel)) self.old.book else self.old.book)) }
        ensures halts_if_refused { OnErr result (self.new.links.items
            ≡ changed_at channel halts (changed_at channel drops self.old.links.items)) }
        ensures tells_nothing_if_refused { OnErr result (self.new.book ≡ self.old.book) }
        ensures fails_for_memory_alone { IfErr result (λ r. r ≡ Refusal.Memory) }
        ensures records_stay { self.new.records.items ≡ self.old.records.items }
        ensures numbers_stay { self.new.numbers ≡ self.old.numbers }
    {
        if !self.is_up(channel) {
            return Ok(());
        }
        drop_at(&mut self.links, channel);
        match self.tell_kept(alloc, channel) {
            Ok(()) => Ok(()),
            Err(refusal) => {
                halt_at(&mut self.links, channel);
                Err(refusal)
            }
        }
    }

    // ---- a message

    // The id that a message opens at the link of a channel.
    fn opened_by(&self, channel: usize, message: &Message) -> Option<ChannelId>
        ensures { result ≡ opened_in (slice_get self.now.links.items channel) message.now }
    {
        match self.machine(channel) {
            None => None,
            Some(machine) => machine.opens(message),
        }
    }

    // The store of a channel knows that another one has this id. Error: 60 alone, which changes nothing.
    fn know(&mut self, alloc: Global, channel: usize, id: &ChannelId) -> Result<(), Refusal>
        ensures knows { OnOk result (self.new.records.items
            ≡ changed_at channel (knowing id.now) self.old.records.items) }
        ensures changes_nothing_if_refused { OnErr result (self.new.records.items ≡ self.old.records.items) }
        ensures fails_for_memory_alone { IfErr result (λ r. r ≡ Refusal.Memory) }
        ensures links_stay { self.new.links.items ≡ self.old.links.items }
        ensures numbers_stay { self.new.numbers ≡ self.old.numbers }
        ensures book_stays { self.new.book ≡ self.old.book }
    {
        match self.records.get_mut(channel) {
            None => Ok(()),
            Some(newest) => newest.know(alloc, id),
        }
    }

    // The id that a message opens is known to the store of the channel where another one has it; else it has this
    // channel's number. Error: 60 alone, which changes nothing.
    fn prepare(
        &mut self,
        alloc: Global,
        channel: usize,
        opened: Option<ChannelId>,
    ) -> Result<(), Refusal>
        ensures known { OnOk result (self.new.records.items ≡ known_before channel
            (number_in self.old.numbers self.old.links.items) opened self.old.records.items) }
        ensures numbered { OnOk result (self.new.numbers ≡ numbered_before channel
            (number_in self.old.numbers self.old.links.items) opened self.old.numbers) }
        ensures records_stay_if_refused { OnErr result (self.new.records.items ≡ self.old.records.items) }
        ensures numbers_stay_if_refused { OnErr result (self.new.numbers ≡ self.old.numbers) }
        ensures fails_for_memory_alone { IfErr result (λ r. r ≡ Refusal.Memory) }
        ensures links_stay { self.new.links.items ≡ self.old.links.items }
        ensures book_stays { self.new.book ≡ self.old.book }
    {
        let Some(id) = opened else {
            return Ok(());
        };
        if self.is_others(channel, &id) {
            return self.know(alloc, channel, &id);
        }
        self.numbers.put(id, channel)
    }

    // Whether another channel has this id, or awaits it.
    fn is_others(&self, channel: usize, id: &ChannelId) -> bool
        ensures { result ≡ moves.is_others channel (number_in self.now.numbers self.now.links.items id.now) }
    {
        match self.number_of(id) {
            None => false,
            Some(number) => number != channel,
        }
    }

    fn take(
        &mut self,
        alloc: Global,
        channel: usize,
        keys: K,
        message: Message,
    ) -> Result<Vec<Output>, Refusal>
        ensures takes { TakesOver K.signer channel keys message result self.old.links.items self.new.links.items
            self.old.records.items self.new.records.items }
        ensures numbers_stay { self.new.numbers ≡ self.old.numbers }
        ensures book_stays { self.new.book ≡ self.old.book }
    {
        match self.records.get_mut(channel) {
            Some(newest) => take_at(alloc, &mut self.links, newest, channel, keys, message),
            None => {
                drop(keys);
                drop(message);
                Err(Refusal::NotReady)
            }
        }
    }

    /// The link of a channel takes a message of its peer's with these keys, which answer for it: `Link::handle`, over a
    /// store that knows the channels that others have or await.
    ///
    /// Errors: 40 where there is no such channel; 60, and nothing has changed or the link has halted; those of that
    /// call.
    pub(crate) fn message(
        &mut self,
        alloc: Global,
        channel: usize,
        keys: K,
        message: Message,
    ) -> Result<Vec<Output>, Refusal>
        ensures takes { TakesMessage K.signer channel keys message result
            (record { links = self.old.links.items; records = self.old.records.items; numbers = self.old.numbers })
            (record { links = self.new.links.items; records = self.new.records.items; numbers = self.new.numbers }) }
        ensures book_stays { self.new.book ≡ self.old.book }
    {
        let opened = self.opened_by(channel, &message);
        match self.prepare(alloc, channel, opened) {
            Ok(()) => self.take(alloc, channel, keys, message),
            Err(refusal) => {
                drop(keys);
                drop(message);
                Err(refusal)
            }
        }
    }

    // ---- a command

    // A link is given a command; one that has no place for its record halts.
    pub(crate) fn obey(
        &mut self,
        alloc: Global,
        channel: usize,
        command: Command,
    ) -> Result<Vec<Output>, Refusal>
        ensures obeys { ObeysOver K.signer channel command result self.old.links.items self.new.links.items
            self.old.records.items self.new.records.items }
        ensures numbers_stay { self.new.numbers ≡ self.old.numbers }
        ensures book_stays { self.new.book ≡ self.old.book }
    {
        match self.records.get_mut(channel) {
            Some(newest) => obey_at(alloc, &mut self.links, newest, channel, command),
            None => {
                drop(command);
                halt_at(&mut self.links, channel);
                Err(Refusal::NotReady)
            }
        }
    }

    /// The link of a channel does what its user says.
    ///
    /// Errors: 40 where there is no such channel, or what the book alone commands: a removal, a decision, or an HTLC
    /// that forwards another; else those of `Link::command`.
    pub(crate) fn command(
        &mut self,
        alloc: Global,
        channel: usize,
        command: Command,
    ) -> Result<Vec<Output>, Refusal>
        ensures obeys { ObeysUser K.signer (commands.is_users command) channel command result self.old.links.items
            self.new.links.items self.old.records.items self.new.records.items }
        ensures numbers_stay { self.new.numbers ≡ self.old.numbers }
        ensures book_stays { self.new.book ≡ self.old.book }
    {
        if !is_users(&command) {
            drop(command);
            return Err(Refusal::NotReady);
        }
        self.obey(alloc, channel, command)
    }
}
