//! What peers and users make of one channel.

use crate::channels::Channels;
use crate::moves::{connect_at, halt_at, name_at};
use ln_channel::{Command, Output};
use ln_keys::ChannelKeys;
use ln_msgs::Message;
use ln_refusals::Refusal;
use std::alloc::Global;

impl<K: ChannelKeys + Drop> Channels<K> {
    ghost use Rattle.std.specs.Prelude.{◌≡◌, slice_get, IfErr, OnOk, OnErr, if◌then◌else◌};
    ghost use Rattle.ln_channel.specs.State.{drops, halts};
    ghost use Rattle.ln_manager_channels.specs.Books.{with_kept};
    ghost use Rattle.ln_manager_channels.specs.Calls as call;
    ghost use Rattle.ln_manager_channels.specs.Calls.{Makes, known};
    ghost use Rattle.ln_manager_channels.specs.Commands.{is_users};
    ghost use Rattle.ln_manager_channels.specs.Links.{end_in, is_up};
    ghost use Rattle.ln_manager_channels.specs.Moves.{naming_in, with_funding, Connects, TakesMessage, ObeysUser};
    ghost use Rattle.ln_manager_channels.specs.Places.{changed_at, AnswersAt};

    /// Names the funding of a channel: `Link::name_funding`. Errors: 40 where there is no such channel, and those of
    /// that call.
    pub fn name_funding(
        &mut self,
        channel: usize,
        txid: [u8; 32],
        output: u16,
    ) -> Result<(), Refusal>
        ensures answer { result ≡ naming_in (slice_get self.old.parts.links channel) }
        ensures names { self.new.parts.links ≡ changed_at channel (with_funding txid output) self.old.parts.links }
        ensures records_stay { self.new.parts.records ≡ self.old.parts.records }
        ensures numbers_stay { self.new.parts.numbers ≡ self.old.parts.numbers }
        ensures book_stays { self.new.parts.book ≡ self.old.parts.book }
        ensures enters_this_call { Makes K.signer (call.NameFunding channel txid output) self.old.parts
            self.new.parts }
        ensures beginning_stays { self.new.began ≡ self.old.began }
    {
        name_at(&mut self.parts.links, channel, txid, output)
    }

    /// There is a connection to the peer of a channel: `Link::connect`. Errors: 40 where there is no such channel;
    /// those of that call.
    pub fn connect(&mut self, alloc: Global, channel: usize) -> Result<Vec<Output>, Refusal>
        ensures connects { AnswersAt channel (Connects K.signer) result self.old.parts.links self.new.parts.links }
        ensures records_stay { self.new.parts.records ≡ self.old.parts.records }
        ensures numbers_stay { self.new.parts.numbers ≡ self.old.parts.numbers }
        ensures book_stays { self.new.parts.book ≡ self.old.parts.book }
        ensures enters_this_call { Makes K.signer (call.Connect channel) self.old.parts self.new.parts }
        ensures beginning_stays { self.new.began ≡ self.old.began }
    {
        connect_at(alloc, &mut self.parts.links, channel)
    }

    /// The link of a channel halts. Takes no memory.
    pub fn halt(&mut self, channel: usize)
        ensures halts { self.new.parts.links ≡ changed_at channel halts self.old.parts.links }
        ensures records_stay { self.new.parts.records ≡ self.old.parts.records }
        ensures numbers_stay { self.new.parts.numbers ≡ self.old.parts.numbers }
        ensures book_stays { self.new.parts.book ≡ self.old.parts.book }
        ensures enters_this_call { Makes K.signer (call.Halt channel) self.old.parts self.new.parts }
        ensures beginning_stays { self.new.began ≡ self.old.began }
    {
        halt_at(&mut self.parts.links, channel);
    }

    /// The connection of a channel is lost, and the book hears what its end has kept. Nothing happens where it has
    /// none, or its link has halted. Error: 60, by which the link halts.
    pub fn disconnect(&mut self, alloc: Global, channel: usize) -> Result<(), Refusal>
        ensures loses { OnOk result (self.new.parts.links ≡ (if is_up (slice_get self.old.parts.links channel)
            then changed_at channel drops self.old.parts.links else self.old.parts.links)) }
        ensures tells_what_is_kept { OnOk result (self.new.parts.book
            ≡ (if is_up (slice_get self.old.parts.links channel)
            then with_kept (end_in (slice_get self.new.parts.links channel)) self.old.parts.book
            else self.old.parts.book)) }
        ensures halts_if_refused { OnErr result (self.new.parts.links
            ≡ changed_at channel halts (changed_at channel drops self.old.parts.links)) }
        ensures tells_nothing_if_refused { OnErr result (self.new.parts.book ≡ self.old.parts.book) }
        ensures fails_for_memory_alone { IfErr result (λ r. r ≡ Refusal.Memory) }
        ensures records_stay { self.new.parts.records ≡ self.old.parts.records }
        ensures numbers_stay { self.new.parts.numbers ≡ self.old.parts.numbers }
        ensures enters_this_call { Makes K.signer (call.Disconnect channel) self.old.parts self.new.parts }
        ensures beginning_stays { self.new.began ≡ self.old.began }
    {
        self.parts.disconnect(alloc, channel)
    }

    /// The link of a channel takes a message of its peer's with these keys, which answer for it: `Link::handle`, over a
    /// store that knows the channels that others have or await.
    ///
    /// Errors: 40 where there is no such channel; 60, and nothing has changed or the link has halted; those of that
    /// call.
    pub fn message(
        &mut self,
        alloc: Global,
        channel: usize,
        keys: K,
        message: Message,
    ) -> Result<Vec<Output>, Refusal>
        ensures takes { TakesMessage K.signer channel keys message result (known self.old.parts)
            (known self.new.parts) }
        ensures book_stays { self.new.parts.book ≡ self.old.parts.book }
        ensures enters_this_call { Makes K.signer (call.Message channel keys message) self.old.parts self.new.parts }
        ensures beginning_stays { self.new.began ≡ self.old.began }
    {
        self.parts.message(alloc, channel, keys, message)
    }

    /// The link of a channel does what its user says.
    ///
    /// Errors: 40 where there is no such channel, or what the book alone commands: a removal, a decision, or an HTLC
    /// that forwards another; else those of `Link::command`.
    pub fn command(
        &mut self,
        alloc: Global,
        channel: usize,
        command: Command,
    ) -> Result<Vec<Output>, Refusal>
        ensures obeys { ObeysUser K.signer (is_users command) channel command result self.old.parts.links
            self.new.parts.links self.old.parts.records self.new.parts.records }
        ensures numbers_stay { self.new.parts.numbers ≡ self.old.parts.numbers }
        ensures book_stays { self.new.parts.book ≡ self.old.parts.book }
        ensures enters_this_call { Makes K.signer (call.Command channel command) self.old.parts self.new.parts }
        ensures beginning_stays { self.new.began ≡ self.old.began }
    {
        self.parts.command(alloc, channel, command)
    }
}
