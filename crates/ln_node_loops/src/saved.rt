//! A link with its store, as an end of a channel.

ghost use Rattle.std.specs.Prelude.{◌≡◌, IfOk, IfErr, OnOk};
ghost use Rattle.ln_channel.specs.State.{kept_channel};
ghost use Rattle.ln_link.specs.Saving.{CannotTell};
ghost use Rattle.ln_node_loops.specs.Saved.{record_in, ComesBack};
ghost use Rattle.ln_node_loops.specs.Sent.{loaded};

use crate::end::End;
use crate::signing::owes_signature;
use ln_book::next_id;
use ln_bytes::Bytes;
use ln_channel::{Command, Output};
use ln_hooks::ChannelEvent;
use ln_keys::ChannelKeys;
use ln_link::Link;
use ln_log::ChannelId;
use ln_msgs::Message;
use ln_refusals::Refusal;
use ln_store::RecordStore;
use std::alloc::Global;

/// A link with the store that it saves in.
#[derive(Drop)]
pub struct SavedLink<K: ChannelKeys + Drop, S: Drop> {
    /// The link.
    pub link: Link<K>,
    /// The store.
    pub store: S,
}

// The record of a channel in a store.
fn record_in<S: RecordStore>(
    alloc: Global,
    store: &mut S,
    channel: Option<ChannelId>,
) -> Result<Option<Bytes>, Refusal>
    ensures finds { IfOk result (λ found. found ≡ record_in (S.store_view store.old).records channel) }
    ensures changes_no_record { (S.store_view store.new).records ≡ (S.store_view store.old).records }
    ensures counts_no_failure { OnOk result ((S.store_view store.new).failed ≡ (S.store_view store.old).failed) }
    ensures stays_fresh { (S.store_view store.new).is_fresh ≡ (S.store_view store.old).is_fresh }
    ensures fails_by_the_store { IfErr result (λ e.
        CannotTell e channel (S.store_view store.old).failed (S.store_view store.new).failed) }
{
    match channel {
        None => Ok(None),
        Some(channel) => store.load(alloc, &channel),
    }
}

// The link that this record tells, in the place of one.
fn come_back<K: ChannelKeys + Drop>(
    alloc: Global,
    found: Option<Bytes>,
    link: &mut Link<K>,
) -> Result<(), Refusal>
    ensures { ComesBack found (loaded result) link.old link.new }
{
    match found {
        None => Err(Refusal::NotReady),
        Some(bytes) => link.reload(alloc, bytes.as_slice()),
    }
}

impl<K: ChannelKeys + Drop, S: RecordStore + Drop> SavedLink<K, S> {
    // The channel of its saved opening.
    fn id(&self) -> Option<ChannelId>
        ensures { result ≡ kept_channel self.now.link.stage }
    {
        match self.link.channel_machine().saved() {
            None => None,
            Some(channel) => Some(channel.id()),
        }
    }
}

impl<K: ChannelKeys + Drop, S: RecordStore + Drop> End for SavedLink<K, S> {
    ghost use Rattle.ln_channel.specs.Pending.{pending_at};
    ghost use Rattle.ln_book.specs.Seen.{seen_of};
    ghost use Rattle.ln_node_loops.specs.Saved.{Saved, acts};
    ghost use Rattle.ln_node_loops.specs.Signing as signing;

    ghost State = { Saved K };

    ghost state = { λ s. record {
      link = s.link;
      store_view = S.store_view s.store;
    } };

    ghost acts = { acts K.signer };

    ghost halted = { λ s. s.link.halted };

    ghost pending = { λ s. pending_at s.link.stage };

    ghost seen = { λ s. seen_of s.link };

    ghost owes = { λ s. signing.owes_signature s.link };

    fn handle(&mut self, alloc: Global, message: Message) -> Result<Vec<Output>, Refusal> {
        self.link.handle(alloc, &mut self.store, message)
    }

    fn command(&mut self, alloc: Global, command: Command) -> Result<Vec<Output>, Refusal> {
        self.link.command(alloc, &mut self.store, command)
    }

    fn connect(&mut self, alloc: Global) -> Result<Vec<Output>, Refusal> {
        self.link.connect(alloc)
    }

    fn drop_connection(&mut self) {
        self.link.drop_connection();
    }

    fn load(&mut self, alloc: Global) -> Result<(), Refusal> {
        let id = self.id();
        match record_in(alloc, &mut self.store, id) {
            Ok(found) => come_back(alloc, found, &mut self.link),
            Err(refusal) => Err(refusal),
        }
    }

    fn pending_events(&self, alloc: Global) -> Result<Vec<(u64, ChannelEvent)>, Refusal> {
        self.link.pending_events(alloc)
    }

    fn is_halted(&self) -> bool {
        self.link.channel_machine().is_halted()
    }

    fn owes_signature(&self) -> bool {
        owes_signature(self.link.channel_machine())
    }

    fn channel(&self) -> Option<ChannelId> {
        self.id()
    }

    fn next_id(&self) -> u64 {
        next_id(self.link.channel_machine().saved())
    }
}
