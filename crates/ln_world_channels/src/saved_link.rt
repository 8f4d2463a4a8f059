//! A link that saves what each call makes of it, with a store of its own that has the record of its end.

ghost use Rattle.std.specs.Prelude.{◌≡◌};

use crate::answer::Answer;
use crate::settings::nameless_config;
use ln_bytes::Bytes;
use ln_channel::{ChannelMachine, Command, FitConfig, FitSpec};
use ln_keys::ChannelKeys;
use ln_link::Link;
use ln_msgs::Message;
use ln_refusals::Refusal;
use ln_store::{MemoryStore, RecordStore};
use std::alloc::Global;
use std::marker::Model;

/// A link with the store that it saves in, which nobody else sees. Once both have signed the opening, the store has the
/// record of the end as it is, and nothing before.
#[derive(Drop)]
pub(crate) struct SavedLink<K: ChannelKeys + Copy> {
    link: Link<K>,
    store: MemoryStore,
}

impl<K: ChannelKeys + Copy> Model for SavedLink<K> {
    ghost use Rattle.ln_channel.specs.State.{State};
    ghost use Rattle.ln_world_channels.specs.Stored.{IsKept};

    ghost Value = { State K };

    ghost view = { λ k. k.link };

    ghost invariant = { λ k. IsKept k.link k.store };
}

/// A value takes another's place, whatever its depth.
fn put<T: Drop>(place: &mut T, value: T)
    ensures { place.new ≡ value }
{
    *place = value;
}

/// Whether a link has halted.
fn has_halted<K: ChannelKeys + Copy>(link: &Link<K>) -> bool
    ensures { result ≡ link.now.halted }
{
    link.channel_machine().is_halted()
}

/// In the place of a link whose store may lack its record, and of that store, come a link that has halted before any
/// opening, and a store without a record. Takes no memory.
fn give_up<K: ChannelKeys + Copy>(
    alloc: Global,
    keys: K,
    link: &mut Link<K>,
    store: &mut MemoryStore,
)
    ensures { IsKept link.new store.new }
{
    put(link, Link::fundee(keys, nameless_config(alloc)));
    link.halt();
    put(store, MemoryStore::new(alloc));
}

ghost use Rattle.ln_world_channels.specs.Stored.{IsKept};

impl<K: ChannelKeys + Copy> SavedLink<K> {
    ghost use Rattle.std.specs.Prelude.{◌≡◌, IfOk, IfErr, OnOk};
    ghost use Rattle.ln_channel.specs.declared.machine.Stage.TheVariants as stage;
    ghost use Rattle.ln_channel.specs.Record.{saved_end};
    ghost use Rattle.ln_channel.specs.State.{begun, drops, halts, refused};
    ghost use Rattle.ln_channel.specs.Step.{handled, commanded};
    ghost use Rattle.ln_world_channels.specs.Both.{said_by, as_saved, left, unchanged, first_message, greeted, back};
    ghost use Rattle.ln_world_channels.specs.Failing.{ByRecord, LinkLacks};
    ghost use Rattle.ln_world_channels.specs.Stored.{link_record};

    /// A new link of a funder. Takes no memory.
    pub(crate) fn funder(alloc: Global, keys: K, spec: FitSpec) -> SavedLink<K>
        ensures { result ≡ begun keys (stage.AwaitsAccept spec) }
    {
        SavedLink {
            link: Link::funder(keys, spec),
            store: MemoryStore::new(alloc),
        }
    }

    /// A new link of a fundee. Takes no memory.
    pub(crate) fn fundee(alloc: Global, keys: K, config: FitConfig) -> SavedLink<K>
        ensures { result ≡ begun keys (stage.AwaitsOpen config) }
    {
        SavedLink {
            link: Link::fundee(keys, config),
            store: MemoryStore::new(alloc),
        }
    }

    /// What the link is.
    pub(crate) fn channel_machine(&self) -> &ChannelMachine<K>
        ensures { result.now ≡ self.now }
    {
        self.link.channel_machine()
    }

    /// It takes a message, and what that made of it is saved.
    ///
    /// Errors: 60 where there is no memory, 70 where the end has no record as the message leaves it; the link is given
    /// up then.
    pub(crate) fn handle(
        &mut self,
        alloc: Global,
        keys: K,
        message: Message,
    ) -> Result<Answer, Refusal>
        ensures said { IfOk result (λ a. as_saved (handled (K.signer self.old.keys) self.old message)
            ≡ said_by a self.new) }
        ensures link { OnOk result (self.new
            ≡ left refused (handled (K.signer self.old.keys) self.old message) self.old) }
        ensures fails { IfErr result (λ e. ByRecord e
            (LinkLacks (left refused (handled (K.signer self.old.keys) self.old message) self.old))) }
    {
        if has_halted(&self.link) {
            drop(message);
            return Ok(Answer::Refused(Refusal::Halted));
        }
        match self.link.handle(alloc, &mut self.store, message) {
            Ok(outputs) => Ok(Answer::Done(outputs)),
            Err(why) => {
                if has_halted(&self.link) {
                    give_up(alloc, keys, &mut self.link, &mut self.store);
                    return Err(why);
                }
                Ok(Answer::Refused(why))
            }
        }
    }

    /// It is given a command, and what that made of it is saved.
    ///
    /// Errors: 60 where there is no memory, 70 where the end has no record as the command leaves it; the link is given
    /// up then.
    pub(crate) fn command(
        &mut self,
        alloc: Global,
        keys: K,
        command: Command,
    ) -> Result<Answer, Refusal>
        ensures said { IfOk result (λ a. as_saved (commanded (K.signer self.old.keys) self.old command)
            ≡ said_by a self.new) }
        ensures link { OnOk result (self.new
            ≡ left unchanged (commanded (K.signer self.old.keys) self.old command) self.old) }
        ensures fails { IfErr result (λ e. ByRecord e
            (LinkLacks (left unchanged (commanded (K.signer self.old.keys) self.old command) self.old))) }
    {
        if has_halted(&self.link) {
            drop(command);
            return Ok(Answer::Refused(Refusal::Halted));
        }
        match self.link.command(alloc, &mut self.store, command) {
            Ok(outputs) => Ok(Answer::Done(outputs)),
            Err(why) => {
                if has_halted(&self.link) {
                    give_up(alloc, keys, &mut self.link, &mut self.store);
                    return Err(why);
                }
                Ok(Answer::Refused(why))
            }
        }
    }

    /// It gets a connection, by which nothing of its record changes. 60 where there is no memory; it is given up then.
    pub(crate) fn connect(&mut self, alloc: Global, keys: K) -> Result<Answer, Refusal>
        ensures said { IfOk result (λ a. first_message K.signer self.old ≡ said_by a self.new) }
        ensures link { OnOk result (self.new ≡ greeted (first_message K.signer self.old) self.old) }
        ensures fails_for_memory_alone { IfErr result (λ e. e ≡ Refusal.Memory) }
    {
        if has_halted(&self.link) {
            return Ok(Answer::Refused(Refusal::Halted));
        }
        match self.link.connect(alloc) {
            Ok(outputs) => Ok(Answer::Done(outputs)),
            Err(why) => {
                if has_halted(&self.link) {
                    give_up(alloc, keys, &mut self.link, &mut self.store);
                    return Err(why);
                }
                Ok(Answer::Refused(why))
            }
        }
    }

    /// It loses its connection, by which nothing of its record changes. Takes no memory.
    pub(crate) fn drop_connection(&mut self)
        ensures { self.new ≡ drops self.old }
    {
        self.link.drop_connection();
    }

    /// It loses its connection, and answers nothing from now on. Takes no memory.
    pub(crate) fn halt(&mut self)
        ensures { self.new ≡ halts self.old }
    {
        self.link.halt();
    }

    /// The bytes of its record, as the store has them; none before both have signed the opening. Takes memory for them;
    /// 60 where there is none.
    pub(crate) fn record(&mut self, alloc: Global) -> Result<Option<Bytes>, Refusal>
        ensures record { IfOk result (λ found. found ≡ link_record self.old) }
        ensures changes_nothing { self.new ≡ self.old }
        ensures fails_for_memory_alone { IfErr result (λ e. e ≡ Refusal.Memory) }
    {
        match self.link.channel_machine().saved() {
            None => Ok(None),
            Some(channel) => {
                let id = channel.id();
                self.store.load(alloc, &id)
            }
        }
    }

    /// It comes back from what its store has of it, as its node restarts or it reloads alone, and of the updates that
    /// the store hasn't one by one any more they stay what they were (`Link::take_past_of`); where that is nothing, it
    /// loses its connection alone.
    /// Takes memory for the record and for the end; 60 where there is none, and nothing has changed.
    pub(crate) fn restart(&mut self, alloc: Global, keys: K) -> Result<(), Refusal>
        ensures back { OnOk result (self.new ≡ back keys self.old (saved_end self.old.stage)) }
        ensures fails_for_memory_alone { IfErr result (λ e. e ≡ Refusal.Memory) }
    {
        match self.record(alloc)? {
            None => self.link.drop_connection(),
            Some(bytes) => {
                let mut link = Link::from_record(alloc, keys, bytes.as_slice())?;
                link.take_past_of(&self.link);
                put(&mut self.link, link);
            }
        }
        Ok(())
    }
}
