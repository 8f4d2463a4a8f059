//! One link: one end of a channel that saves before it hands out.

ghost use Rattle.std.specs.Prelude.{◌≡◌, ◌&&◌, Some, is_none, IfOk, IfErr, OnOk};
ghost use Rattle.ln_log.specs.Log as logs;
ghost use Rattle.ln_log.specs.Log.{Log, same_counts};
ghost use Rattle.ln_channel.specs.End as end;
ghost use Rattle.ln_channel.specs.End.{End};
ghost use Rattle.ln_channel.specs.Record.{saved_end};
ghost use Rattle.ln_channel.specs.State.{State, StandsFor};
ghost use Rattle.ln_link.specs.Saving.{Saves, is_update, sends_update, taken_alone, sent_alone, is_uncovered};
ghost use Rattle.ln_link.specs.Saving.{is_forgotten, base_in, is_known, CannotTell};

use crate::loading::{kept_in, loaded};
use crate::record::to_record;
use ln_channel::{Channel, ChannelMachine, Command, FitConfig, FitSpec, Output};
use ln_hooks::ChannelEvent;
use ln_keys::ChannelKeys;
use ln_log::{Counts, Pair, Side, UpdateLog};
use ln_msgs::Message;
use ln_refusals::Refusal;
use ln_store::{RecordStore, encode_record};
use std::alloc::Global;
use std::marker::Model;

/// One link: one end of a channel from its opening to its close, with the connection that it has. It begins as a
/// funder's, as a fundee's, or from its record.
///
/// What a call made of the channel is in the store before any message that tells it leaves this side: a restart finds
/// what the peer may know of. After each call that is answered, what it needn't keep one by one any more is left out
/// (`ChannelMachine::compact`). An update that no signature covers is in no record, as a lost connection forgets it: a
/// call that brings one, and nothing else, saves nothing, unless more is left out after it. Where a save fails, by 60
/// for want of memory, by 61 where the store failed, by 70 where no record has these items, the link halts and answers
/// 62 from then on; the store then has the record that it had, or, by 61, perhaps the one that was to be saved.
#[derive(Drop)]
pub struct Link<K: ChannelKeys + Drop> {
    channel_machine: ChannelMachine<K>,
}

impl<K: ChannelKeys + Drop> Model for Link<K> {
    ghost use Rattle.ln_channel.specs.State.{State};

    ghost Value = { State K };

    ghost view = { λ l. l.channel_machine };
}

// Saves the record of an end.
fn save_end<S: RecordStore>(
    alloc: Global,
    store: &mut S,
    failure: Option<Refusal>,
    channel: &Channel,
) -> Result<(), Refusal>
    ensures { (e : End) → end.StandsFor channel.now e → Saves failure (Some e) result
        (S.store_view store.old) (S.store_view store.new) }
{
    let record = to_record(alloc, failure, channel)?;
    let bytes = match encode_record(alloc, &record) {
        Ok(bytes) => bytes,
        Err(refusal) => {
            drop(record);
            return Err(refusal);
        }
    };
    drop(record);
    store.save(alloc, &channel.id(), &bytes)
}

// Whether its channel hasn't failed.
fn is_healthy<K: ChannelKeys + Drop>(link: &ChannelMachine<K>) -> bool
    ensures { (l : State K) → StandsFor link.now l → result ≡ is_none l.failure }
{
    link.failure().is_none()
}

// Saves the record of a link whose opening both have signed.
fn save_link<K: ChannelKeys + Drop, S: RecordStore>(
    alloc: Global,
    store: &mut S,
    link: &ChannelMachine<K>,
) -> Result<(), Refusal>
    ensures { (l : State K) → StandsFor link.now l → Saves l.failure (saved_end l.stage) result
        (S.store_view store.old) (S.store_view store.new) }
{
    let failure = link.failure();
    match link.saved() {
        None => Ok(()),
        Some(channel) => save_end(alloc, store, failure, channel),
    }
}

// Whether a message brings an update.
fn is_update(message: &Message) -> bool
    ensures { result ≡ is_update message.now }
{
    match message {
        Message::UpdateAddHtlc(_) => true,
        Message::UpdateFulfillHtlc(_) => true,
        Message::UpdateFailHtlc(_) => true,
        Message::UpdateFailMalformedHtlc(_) => true,
        Message::UpdateFee(_) => true,
        _ => false,
    }
}

// Whether a command sends one.
fn sends_update(command: &Command) -> bool
    ensures { result ≡ sends_update command.now }
{
    match command {
        Command::Add { .. } => true,
        Command::Fulfil { .. } => true,
        Command::Fail { .. } => true,
        Command::Malformed { .. } => true,
        Command::Fee(_) => true,
        _ => false,
    }
}

// An update that was taken, where it did nothing else.
fn taken_alone(update: bool, outputs: &[Output]) -> Option<Side>
    ensures { result ≡ taken_alone update outputs.now }
{
    if update && outputs.is_empty() {
        Some(Side::Peer)
    } else {
        None
    }
}

// One that was sent.
fn sent_alone(update: bool) -> Option<Side>
    ensures { result ≡ sent_alone update }
{
    if update { Some(Side::Own) } else { None }
}

// Whether no signature covers the last update of a side.
fn is_uncovered(log: &UpdateLog, side: Side) -> bool
    ensures { (l : Log) → logs.StandsFor log.now l → result ≡ is_uncovered side l }
{
    match side {
        Side::Own => log.counts(Pair::Signed).own < log.len(Side::Own),
        Side::Peer => log.counts(Pair::Current(Side::Own)).peer < log.len(Side::Peer),
    }
}

// Of the side that brought one.
fn is_forgotten<K: ChannelKeys + Drop>(link: &ChannelMachine<K>, brought: Option<Side>) -> bool
    ensures { (l : State K) → StandsFor link.now l → result ≡ is_forgotten brought (saved_end l.stage) }
{
    match brought {
        None => false,
        Some(side) => match link.saved() {
            None => false,
            Some(channel) => is_uncovered(channel.dance().log(), side),
        },
    }
}

// How many updates of both sides are in the base of its end.
fn base_in<K: ChannelKeys + Drop>(link: &ChannelMachine<K>) -> Counts
    ensures { (l : State K) → StandsFor link.now l → result ≡ base_in (saved_end l.stage) }
{
    match link.saved() {
        None => Counts { own: 0, peer: 0 },
        Some(channel) => {
            let log = channel.dance().log();
            Counts {
                own: log.first(Side::Own),
                peer: log.first(Side::Peer),
            }
        }
    }
}

// Whether the record is what it was, by such an update and by the base before and now.
fn has_same_record(forgotten: bool, before: Counts, now: Counts) -> bool
    ensures { result ≡ (forgotten && same_counts now before) }
{
    forgotten && now.own == before.own && now.peer == before.peer
}

// Whether a store has a record of this channel.
fn is_known<S: RecordStore>(
    alloc: Global,
    store: &mut S,
    channel: Option<[u8; 32]>,
) -> Result<bool, Refusal>
    ensures known { IfOk result (λ b. b ≡ is_known channel (S.store_view store.old).records) }
    ensures changes_no_record { (S.store_view store.new).records ≡ (S.store_view store.old).records }
    ensures stays_fresh { (S.store_view store.new).is_fresh ≡ (S.store_view store.old).is_fresh }
    ensures counts_no_failure { OnOk result ((S.store_view store.new).failed ≡ (S.store_view store.old).failed) }
    ensures fails_by_the_store { IfErr result (λ e.
        CannotTell e channel (S.store_view store.old).failed (S.store_view store.new).failed) }
{
    match channel {
        None => Ok(false),
        Some(channel) => {
            let found = store.load(alloc, &channel)?;
            Ok(found.is_some())
        }
    }
}

impl<K: ChannelKeys + Drop> Link<K> {
    ghost use Rattle.std.specs.Prelude.{◌&&◌, IsErrOf, Ok, true};
    ghost use Rattle.ln_channel.specs.Pending.{pending_at};
    ghost use Rattle.ln_channel.specs.Asking.{with_named, naming_answer};
    ghost use Rattle.ln_channel.specs.declared.machine.Stage.TheVariants as stage;
    ghost use Rattle.ln_channel.specs.State.{State, StandsFor, KeepsChannel, begun, drops, halts};
    ghost use Rattle.ln_channel.specs.Step.{Answered, connected, handled, commanded};
    ghost use Rattle.ln_store.specs.Readable.{is_readable};
    ghost use Rattle.ln_store.specs.Record.{record_at, IsSpelledBy, is_sealed, version_of, is_known_version};
    ghost use Rattle.ln_store.specs.declared.record.Items.{Items};
    ghost use Rattle.ln_link.specs.Loading.{Loads, Reloads, ComesBackOf, IsCameBack};
    ghost use Rattle.ln_link.specs.Saving.{Keeps, Settles, Refuses, is_failing, AnswersMessage, AnswersOver};
    ghost use Rattle.ln_link.specs.Saving.{AnswersCommand};

    /// A new link of a funder, which opens a channel by this spec. Takes no memory.
    pub fn funder(keys: K, spec: FitSpec) -> Link<K>
        ensures { StandsFor result (begun keys (stage.AwaitsAccept spec)) }
    {
        Link {
            channel_machine: ChannelMachine::funder(keys, spec),
        }
    }

    /// A new link of a fundee, which takes a channel with this config. Takes no memory.
    pub fn fundee(keys: K, config: FitConfig) -> Link<K>
        ensures { StandsFor result (begun keys (stage.AwaitsOpen config)) }
    {
        Link {
            channel_machine: ChannelMachine::fundee(keys, config),
        }
    }

    /// A link begins anew in its place, with the keys that it has, as a funder that opens a channel by this spec. Takes
    /// no memory.
    pub fn begin_as_funder(&mut self, spec: FitSpec)
        ensures { StandsFor self.new (begun self.old.keys (stage.AwaitsAccept spec)) }
    {
        self.channel_machine.begin_as_funder(spec);
    }

    /// A link begins anew in its place, with the keys that it has, as a fundee that takes a channel with this config.
    /// Takes no memory.
    pub fn begin_as_fundee(&mut self, config: FitConfig)
        ensures { StandsFor self.new (begun self.old.keys (stage.AwaitsOpen config)) }
    {
        self.channel_machine.begin_as_fundee(config);
    }

    /// The link that comes back from the bytes of its record, without a connection: what a lost connection leaves of
    /// its end, and by what its channel has failed. Of the updates in the base it knows what the record tells, until
    /// `take_past_of`. Takes memory for the end, and time that grows linearly with the updates that the record has one
    /// by one, and with the square of its live HTLCs.
    ///
    /// Errors: those of `decode_record` (70, 71); 70 where the items can't be loaded: no log has this base, these
    /// updates and counts (`UpdateLog::can_be_loaded`), the closing fees aren't in order, or the peer's script isn't
    /// there exactly where the peer has shut down. 60 where there is no memory for the body of a record of this version
    /// with its length and digest: what is told before takes none.
    pub fn from_record(alloc: Global, keys: K, bytes: &[u8]) -> Result<Link<K>, Refusal>
        // The link, or the first fault.
        ensures loads_as_defined { Loads keys (record_at bytes.now) result }

        // What spells readable items is loaded as they tell.
        ensures loads_each_record { (i : Items) → is_readable i ≡ true → IsSpelledBy bytes.now i
            → Loads keys (Ok i) result }

        // What is told before a body of this version is looked at takes no memory.
        ensures takes_memory_for_the_body { IsErrOf result Refusal.Memory
            → (is_sealed bytes.now ≡ true) × (is_known_version (version_of bytes.now) ≡ true) }
    {
        let channel_machine = loaded(alloc, keys, bytes)?;
        Ok(Link { channel_machine })
    }

    /// The link comes back in its place from the bytes of its record, with the keys that it has: `from_record`, and its
    /// errors. Refused, it is as it was.
    pub fn reload(&mut self, alloc: Global, bytes: &[u8]) -> Result<(), Refusal>
        ensures { Reloads self.old (record_at bytes.now) result self.new }
    {
        let (failure, channel) = kept_in(alloc, bytes)?;
        self.channel_machine.reload(failure, channel);
        Ok(())
    }

    /// A link that was loaded of another one's record takes over the updates that aren't had one by one any more, which
    /// proofs alone read: it is then what a lost connection leaves of the other one. It does nothing at run time.
    pub fn take_past_of(&mut self, other: &Link<K>)
        requires { ComesBackOf self.old other.now }
        ensures { IsCameBack self.old.keys other.now self.new }
    {
        self.channel_machine.take_past_of(&other.channel_machine);
    }

    /// Other keys from now on: `ChannelMachine::set_keys`. No record has keys, so nothing is saved.
    pub fn set_keys(&mut self, keys: K)
        ensures state { (l : State K) → StandsFor self.old l → StandsFor self.new (record l { keys = keys }) }
        ensures same_channel { KeepsChannel self.old.stage self.new.stage }
    {
        self.channel_machine.set_keys(keys);
    }

    /// Names the funding, until `accept_channel` is taken: `ChannelMachine::name_funding`. Nothing is saved, as no
    /// opening is until both have signed it.
    pub fn name_funding(&mut self, txid: [u8; 32], output: u16) -> Result<(), Refusal>
        ensures answer { (l : State K) → StandsFor self.old l → result ≡ naming_answer l.stage }
        ensures state { (l : State K) → StandsFor self.old l
            → StandsFor self.new (record l { stage = with_named txid output l.stage }) }
        ensures same_channel { KeepsChannel self.old.stage self.new.stage }
    {
        self.channel_machine.name_funding(txid, output)
    }

    /// What the link is; it saves nothing, so only to be looked at. Takes no memory.
    pub fn channel_machine(&self) -> &ChannelMachine<K>
        ensures { result.now ≡ self.now }
    {
        &self.channel_machine
    }

    /// The events that its end hasn't decided, each with its number, in their order: `ChannelMachine::pending_events`.
    /// They are what a dispatcher begins with, also after a restart. Takes memory for them; 60 where there is none,
    /// and nothing has changed.
    pub fn pending_events(&self, alloc: Global) -> Result<Vec<(u64, ChannelEvent)>, Refusal>
        ensures events { (l : State K) → StandsFor self.now l → IfOk result (λ v. v.items ≡ pending_at l.stage) }
        ensures fails_for_memory_alone { IfErr result (λ r. r ≡ Refusal.Memory) }
    {
        self.channel_machine.pending_events(alloc)
    }

    // Saves the link, or halts it.
    fn save<S: RecordStore>(&mut self, alloc: Global, store: &mut S) -> Result<(), Refusal>
        ensures keeps { (l : State K) → StandsFor self.old l → Keeps result l self.new
            (S.store_view store.old) (S.store_view store.new) }
        ensures same_channel { KeepsChannel self.old.stage self.new.stage }
    {
        match save_link(alloc, store, &self.channel_machine) {
            Ok(()) => Ok(()),
            Err(refusal) => {
                self.halt();
                Err(refusal)
            }
        }
    }

    // After a call that is answered its base moves on, and it is saved, unless its record is what it was; or it halts.
    fn finish<S: RecordStore>(
        &mut self,
        alloc: Global,
        store: &mut S,
        brought: Option<Side>,
    ) -> Result<(), Refusal>
        ensures settles { (l : State K) → StandsFor self.old l → Settles brought result l self.new
            (S.store_view store.old) (S.store_view store.new) }
        ensures same_channel { KeepsChannel self.old.stage self.new.stage }
    {
        let forgotten = is_forgotten(&self.channel_machine, brought);
        let before = base_in(&self.channel_machine);
        match self.channel_machine.compact(alloc) {
            Ok(()) => {
                if has_same_record(forgotten, before, base_in(&self.channel_machine)) {
                    return Ok(());
                }
                self.save(alloc, store)
            }
            Err(refusal) => {
                self.halt();
                Err(refusal)
            }
        }
    }

    /// Takes a message, and saves what it made of the channel before anything is handed out: nothing by an update alone
    /// that no signature covers. A refusal by which the channel fails is saved too. Where the message opens a channel
    /// that the store has a record of, it is refused.
    ///
    /// Errors: those of `ChannelMachine::handle`, and 21 for a channel that the store has a record of; 60, 61 and 70
    /// where it can't be saved, or the store can't tell whether it has that channel, by which the link halts.
    pub fn handle<S: RecordStore>(
        &mut self,
        alloc: Global,
        store: &mut S,
        message: Message,
    ) -> Result<Vec<Output>, Refusal>
        ensures answers { (l : State K) → StandsFor self.old l
            → AnswersOver (λ v. v.items) (K.signer l.keys) l message result self.new
            (S.store_view store.old) (S.store_view store.new) }
        ensures same_channel { KeepsChannel self.old.stage self.new.stage }
    {
        match is_known(alloc, store, self.channel_machine.opens(&message)) {
            Ok(false) => self.take(alloc, store, message),
            Ok(true) => {
                drop(message);
                Err(self.channel_machine.fail_by(Refusal::OutOfPlace))
            }
            Err(refusal) => {
                drop(message);
                self.halt();
                Err(refusal)
            }
        }
    }

    // Takes a message that opens no channel that the store knows.
    fn take<S: RecordStore>(
        &mut self,
        alloc: Global,
        store: &mut S,
        message: Message,
    ) -> Result<Vec<Output>, Refusal>
        ensures answers { (l : State K) → StandsFor self.old l
            → AnswersMessage (λ v. v.items) (handled (K.signer l.keys) l message) l message result self.new
            (S.store_view store.old) (S.store_view store.new) }
        ensures same_channel { KeepsChannel self.old.stage self.new.stage }
    {
        let healthy = is_healthy(&self.channel_machine);
        let update = is_update(&message);
        match self.channel_machine.handle(alloc, message) {
            Ok(outputs) => {
                let brought = taken_alone(update, outputs.as_slice());
                match self.finish(alloc, store, brought) {
                    Ok(()) => Ok(outputs),
                    Err(refusal) => {
                        drop(outputs);
                        Err(refusal)
                    }
                }
            }
            Err(refusal) => Err(self.refuse(alloc, store, healthy, refusal)),
        }
    }

    // A failure that is new is saved.
    fn refuse<S: RecordStore>(
        &mut self,
        alloc: Global,
        store: &mut S,
        healthy: bool,
        refusal: Refusal,
    ) -> Refusal
        ensures refuses { (l : State K) → StandsFor self.old l
            → Refuses (is_failing l && healthy) refusal result l self.new
            (S.store_view store.old) (S.store_view store.new) }
        ensures same_channel { KeepsChannel self.old.stage self.new.stage }
    {
        if !healthy
            || self.channel_machine.is_halted()
            || self.channel_machine.failure().is_none()
        {
            return refusal;
        }
        match self.save(alloc, store) {
            Ok(()) => refusal,
            Err(unsaved) => unsaved,
        }
    }

    /// Does what it is told, as `ChannelMachine::command` does, and saves what that made of the channel before anything
    /// is handed out: nothing by an update, which no signature covers yet. Nothing is saved where it is refused.
    ///
    /// Errors: those of `ChannelMachine::command`; 60, 61 and 70 where it can't be saved, by which the link halts.
    pub fn command<S: RecordStore>(
        &mut self,
        alloc: Global,
        store: &mut S,
        command: Command,
    ) -> Result<Vec<Output>, Refusal>
        ensures answers { (l : State K) → StandsFor self.old l
            → AnswersCommand (λ v. v.items) (commanded (K.signer l.keys) l command) l command result self.new
            (S.store_view store.old) (S.store_view store.new) }
        ensures same_channel { KeepsChannel self.old.stage self.new.stage }
    {
        let brought = sent_alone(sends_update(&command));
        match self.channel_machine.command(alloc, command) {
            Ok(outputs) => match self.finish(alloc, store, brought) {
                Ok(()) => Ok(outputs),
                Err(refusal) => {
                    drop(outputs);
                    Err(refusal)
                }
            },
            Err(refusal) => Err(refusal),
        }
    }

    /// There is a connection to the peer: `ChannelMachine::connect`. Nothing is saved.
    pub fn connect(&mut self, alloc: Global) -> Result<Vec<Output>, Refusal>
        ensures answers { (l : State K) → StandsFor self.old l
            → Answered (λ v. v.items) (connected (K.signer l.keys) l) l result self.new }
        ensures same_channel { KeepsChannel self.old.stage self.new.stage }
    {
        self.channel_machine.connect(alloc)
    }

    /// The connection is lost: `ChannelMachine::drop_connection`. Nothing is saved, as a record has what a lost
    /// connection leaves.
    pub fn drop_connection(&mut self)
        ensures state { (l : State K) → StandsFor self.old l → StandsFor self.new (drops l) }
        ensures same_channel { KeepsChannel self.old.stage self.new.stage }
    {
        self.channel_machine.drop_connection();
    }

    /// The connection is lost, and the link answers 62 from now on: `ChannelMachine::halt`. Nothing is saved.
    pub fn halt(&mut self)
        ensures state { (l : State K) → StandsFor self.old l → StandsFor self.new (halts l) }
        ensures same_channel { KeepsChannel self.old.stage self.new.stage }
    {
        self.channel_machine.halt();
    }
}
