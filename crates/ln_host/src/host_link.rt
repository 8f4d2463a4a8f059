//! A link whose host brings keys, disk and sockets.

ghost use Rattle.std.specs.Prelude.{◌≡◌, ◌⊎◌, ◌↔◌, ◌++◌, [], true, IsTrue, Some, None, IfOk, IfErr, OnOk, OnErr};
ghost use Rattle.ln_refusals.specs.declared.refusal.Refusal.TheVariants as refusal;
ghost use Rattle.ln_channel.specs.declared.machine.Stage.TheVariants as stage;
ghost use Rattle.ln_channel.specs.Asking.{naming_answer};
ghost use Rattle.ln_channel.specs.State.{State, StandsFor, kept_channel};
ghost use Rattle.ln_msgs.specs.Messages.Reply.{reply_to};
ghost use Rattle.ln_host.specs.declared.answer.HostRefusal.TheVariants as host;
ghost use Rattle.ln_host.specs.Answer.{keys_told};
ghost use Rattle.ln_host.specs.Blank.{filling_at};
ghost use Rattle.ln_host.specs.Doing.{taken_off, record_saved, filled_first, unanswered, done_by, IsDone};
ghost use Rattle.ln_host.specs.Greeting.{channel_of};
ghost use Rattle.ln_host.specs.Hearing.{known, told, kept, reply_due, Replies, IsTaken};
ghost use Rattle.ln_host.specs.Hearing.{TakesUnlessMemory, IsHeard};
ghost use Rattle.ln_host.specs.Hosted.{keys_with, hosted, new_hosted, waits, host_record, with_output, with_outputs};
ghost use Rattle.ln_host.specs.Hosted.{WaitInPart, handed, halted, Hands, IsConnected, IsObeyed, disconnected, funded};
ghost use Rattle.ln_host.specs.Hosted.{record_of, kept_while, shown, with_events, with_link, with_pending};
ghost use Rattle.ln_host.specs.Line.{IsHead};
ghost use Rattle.ln_host.specs.Seats.{seat, ComesBack, IsRefusedRecord};
ghost use Rattle.ln_host.specs.Seen.{secret_of};

use crate::answer::{Answer, HostRefusal, answer_of};
use crate::blank::{Blank, blank_of};
use crate::filling::{Filling, filling_at, put};
use crate::greeting::channel_of;
use crate::keys::HostKeys;
use crate::line::{Head, Line, Outgoing, Told};
use crate::question::question_about;
use crate::record::{HeldSignatures, HostRecord, PeerSecret};
use crate::seen::{Seen, copied, seen_in};
use ln_bytes::Bytes;
use ln_channel::{ChannelMachine, Command, FitConfig, FitSpec, Output};
use ln_hooks::ChannelEvent;
use ln_link::Link;
use ln_msgs::Message;
use ln_refusals::Refusal;
use ln_store::{Listed, MemoryStore, RecordStore};
use std::alloc::Global;

/// A link whose host brings keys, disk and sockets: what it hands out waits in a line. Where no record waits it keeps
/// the one that its host has, to tell a new one by.
pub struct HostLink {
    link: Link<HostKeys>,
    first_point: [u8; 33],
    store: MemoryStore,
    taken: Option<Bytes>,
    signatures: Option<HeldSignatures>,
    secrets: Vec<PeerSecret>,
    line: Line,
    is_shown: bool,
}

// By hand: crates above don't prove again how its parts are dropped.
impl Drop for HostLink {
    fn drop(self) {
        let HostLink {
            link,
            first_point: _,
            store,
            taken,
            signatures,
            secrets,
            line,
            is_shown: _,
        } = self;
        drop(link);
        drop(store);
        drop(taken);
        drop(signatures);
        drop(secrets);
        drop(line);
    }
}

// The peer's secrets with the one that a message tells, made before the message is taken: none is lost for want of
// memory.
fn secrets_with(
    alloc: Global,
    secrets: &[PeerSecret],
    seen: &Seen,
) -> Result<Vec<PeerSecret>, Refusal>
    ensures all { IfOk result (λ v. v.items ≡ secrets.now ++ secret_of seen.now) }
    ensures fails_for_memory_alone { IfErr result (λ r. r ≡ refusal.Memory) }
{
    let mut all = Vec::from_slice(alloc, secrets)?;
    if let Seen::Secret(secret) = seen {
        all.push(*secret)?;
    }
    Ok(all)
}

// Keys of a host that has told nothing yet.
fn keys_with(first_point: [u8; 33]) -> HostKeys
    ensures { result ≡ keys_with first_point }
{
    HostKeys {
        first_point,
        is_right: false,
        secret: [0; 32],
    }
}

// Keys of a host that has told this.
fn keys_told(first_point: [u8; 33], answer: Answer) -> HostKeys
    ensures { result ≡ keys_told first_point answer }
{
    let secret = answer.secret;
    HostKeys {
        first_point,
        is_right: answer.is_right,
        secret,
    }
}

fn hosted(alloc: Global, link: Link<HostKeys>, first_point: [u8; 33]) -> HostLink
    ensures { seat result ≡ hosted first_point link }
{
    HostLink {
        link,
        first_point,
        store: MemoryStore::new(alloc),
        taken: None,
        signatures: None,
        secrets: Vec::new(alloc),
        line: Line::new(alloc),
        is_shown: false,
    }
}

// What is told of an output, or the message that goes out.
fn queue_output(
    alloc: Global,
    machine: &ChannelMachine<HostKeys>,
    line: &mut Line,
    output: Output,
) -> Result<(), Refusal>
    ensures put { (l : State HostKeys) → StandsFor machine.now l
        → OnOk result (line.new ≡ with_output l.stage output line.old) }
    ensures changes_nothing_if_refused { OnErr result (line.new ≡ line.old) }
    ensures fails_for_memory_alone { IfErr result (λ r. r ≡ refusal.Memory) }
{
    match output {
        Output::Send(message) => {
            let blank = blank_of(alloc, machine, &message)?;
            line.put_message(Outgoing { message, blank })
        }
        Output::Event(number, event) => line.put_told(Told::Event(number, event)),
        Output::Closed(fee) => line.put_told(Told::Closed(fee)),
        Output::Signed(_) => Ok(()),
        Output::Committed { .. } => Ok(()),
    }
}

fn queue_outputs(
    alloc: Global,
    machine: &ChannelMachine<HostKeys>,
    line: &mut Line,
    outputs: Vec<Output>,
) -> Result<(), Refusal>
    ensures put { (l : State HostKeys) → StandsFor machine.now l
        → OnOk result (line.new ≡ with_outputs l.stage outputs.items line.old) }
    ensures put_in_part { (l : State HostKeys) → StandsFor machine.now l
        → OnErr result (WaitInPart l.stage outputs.items line.old line.new) }
    ensures fails_for_memory_alone { IfErr result (λ r. r ≡ refusal.Memory) }
{
    for output in outputs {
        queue_output(alloc, machine, line, output)?;
    }
    Ok(())
}

// Events wait after what is told.
fn put_events(line: &mut Line, events: Vec<(u64, ChannelEvent)>) -> Result<(), Refusal>
    ensures told { OnOk result (line.new ≡ with_events events.items line.old) }
    ensures fails_for_memory_alone { IfErr result (λ r. r ≡ refusal.Memory) }
{
    for pair in events {
        let (number, event) = pair;
        line.put_told(Told::Event(number, event))?;
    }
    Ok(())
}

// What a host gives for a blank. Errors: 81 where it is none of it, 60.
fn filling_of(alloc: Global, blank: &Blank, bytes: &[u8]) -> Result<Filling, HostRefusal>
    ensures filling { IfOk result (λ f. filling_at blank.now bytes.now ≡ Some f) }
    ensures refused { IfErr result (λ e. (e ≡ host.Refused refusal.Memory)
        ⊎ ((e ≡ host.Answer) × (filling_at blank.now bytes.now ≡ None))) }
{
    match filling_at(alloc, blank, bytes) {
        Ok(filling) => Ok(filling),
        Err(Refusal::Memory) => Err(HostRefusal::Refused(Refusal::Memory)),
        Err(_) => Err(HostRefusal::Answer),
    }
}

impl HostLink {
    /// A new link of a funder, which opens a channel by this spec; its funding may be named later. `first_point` is the
    /// own per commitment point of commitment 0. Takes no memory.
    pub fn funder(alloc: Global, spec: FitSpec, first_point: [u8; 33]) -> HostLink
        ensures { seat result ≡ new_hosted first_point (stage.AwaitsAccept spec) }
    {
        hosted(
            alloc,
            Link::funder(keys_with(first_point), spec),
            first_point,
        )
    }

    /// A new link of a fundee, which takes a channel with this config. Takes no memory.
    pub fn fundee(alloc: Global, config: FitConfig, first_point: [u8; 33]) -> HostLink
        ensures { seat result ≡ new_hosted first_point (stage.AwaitsOpen config) }
    {
        hosted(
            alloc,
            Link::fundee(keys_with(first_point), config),
            first_point,
        )
    }

    /// The link that comes back from what its host saved. The events that it hasn't decided are told again.
    ///
    /// Errors: those of `Link::from_record` (70, 71), 70 where the record is another channel's, and 60.
    pub fn load(alloc: Global, saved: HostRecord) -> Result<HostLink, Refusal>
        ensures comes_back { IfOk result (λ h. ComesBack saved (seat h)) }
        ensures refuses { IfErr result (λ e. IsRefusedRecord saved e) }
    {
        let HostRecord {
            channel,
            signatures,
            secrets,
            record_bytes,
        } = saved;
        drop(secrets);
        let link = Link::from_record(alloc, keys_with([0; 33]), record_bytes.as_slice())?;
        let mut host = hosted(alloc, link, [0; 33]);
        put(&mut host.signatures, signatures);
        if !host.is_of(&channel) {
            return Err(Refusal::Damaged);
        }
        host.tell_pending(alloc)?;
        Ok(host)
    }

    // Whether it is an end of this channel.
    fn is_of(&self, channel: &[u8; 32]) -> bool
        ensures { IsTrue result ↔ (kept_channel self.now.link.stage ≡ Some channel.now) }
    {
        match self.machine().saved() {
            None => false,
            Some(end) => end.id() == *channel,
        }
    }

    // The events that aren't decided wait after what is told.
    fn tell_pending(&mut self, alloc: Global) -> Result<(), Refusal>
        ensures told { OnOk result (seat self.new ≡ with_pending (seat self.old)) }
        ensures fails_for_memory_alone { IfErr result (λ r. r ≡ refusal.Memory) }
    {
        let pending = self.link.pending_events(alloc)?;
        put_events(&mut self.line, pending)
    }

    /// What the link is, to be looked at. Takes no memory.
    pub fn machine(&self) -> &ChannelMachine<HostKeys>
        ensures { result.now ≡ self.now.link }
    {
        self.link.channel_machine()
    }

    /// Names the funding, until `accept_channel` is taken: `Link::name_funding`. Takes no memory.
    pub fn name_funding(&mut self, txid: [u8; 32], output: u16) -> Result<(), Refusal>
        ensures answer { result ≡ naming_answer self.old.link.stage }
        ensures names { seat self.new ≡ funded txid output (seat self.old) }
    {
        self.link.name_funding(txid, output)
    }

    // Whether there is a record that isn't what the host has taken.
    fn is_unsaved(&self) -> bool
        ensures { result ≡ waits (seat self.now) }
    {
        match self.machine().saved() {
            None => false,
            Some(channel) => match self.store.find(&channel.id()) {
                None => false,
                Some(record) => match &self.taken {
                    None => true,
                    Some(taken) => taken.as_slice() != record.as_slice(),
                },
            },
        }
    }

    // The record waits where the host hasn't taken it; where none waits, none is kept beside the one that it has. What
    // stands first has to be shown anew.
    fn put_record(&mut self, alloc: Global)
        ensures { seat self.new ≡ handed [] (seat self.old) }
    {
        let unsaved = self.is_unsaved();
        self.line.put_record(unsaved);
        let waits = self.line.has_record();
        self.keep_while(alloc, waits);
        self.is_shown = false;
    }

    // What was saved is kept while a record waits.
    fn keep_while(&mut self, alloc: Global, waits: bool)
        ensures { seat self.new ≡ record (seat self.old) { records = kept_while waits self.old.store } }
    {
        if !waits {
            put(&mut self.store, MemoryStore::new(alloc));
        }
    }

    // What a call hands out waits after the record; the link halts where there is no memory for it.
    fn queue(&mut self, alloc: Global, outputs: Vec<Output>) -> Result<(), Refusal>
        ensures hands { Hands outputs.items (seat self.old) result (seat self.new) }
    {
        self.put_record(alloc);
        match queue_outputs(alloc, self.link.channel_machine(), &mut self.line, outputs) {
            Ok(()) => Ok(()),
            Err(refusal) => {
                self.link.halt();
                Err(refusal)
            }
        }
    }

    /// There is a connection: `Link::connect`.
    pub fn connect(&mut self, alloc: Global) -> Result<(), Refusal>
        ensures connects { IsConnected result (seat self.old) (seat self.new) }
    {
        match self.link.connect(alloc) {
            Ok(outputs) => self.queue(alloc, outputs),
            Err(refusal) => {
                self.put_record(alloc);
                Err(refusal)
            }
        }
    }

    /// The connection is lost, and the messages that wait for it. Takes no memory.
    pub fn disconnect(&mut self)
        ensures { seat self.new ≡ disconnected (seat self.old) }
    {
        self.link.drop_connection();
        self.line.lose();
        self.is_shown = false;
    }

    /// A command: `Link::command`.
    pub fn command(&mut self, alloc: Global, command: Command) -> Result<(), Refusal>
        ensures obeys { IsObeyed command result (seat self.old) (seat self.new) }
    {
        match self.link.command(alloc, &mut self.store, command) {
            Ok(outputs) => self.queue(alloc, outputs),
            Err(refusal) => {
                self.put_record(alloc);
                Err(refusal)
            }
        }
    }

    /// A message, with the answer to the question about it: `Link::handle`.
    ///
    /// Errors: 80 where there is a question and no answer, 81 where the answer is none of it, and nothing has changed;
    /// else those of `Link::handle`.
    pub fn message(
        &mut self,
        alloc: Global,
        message: Message,
        answer: &[u8],
    ) -> Result<(), HostRefusal>
        ensures hears { IsHeard message answer.now result (seat self.old) (seat self.new) }
    {
        let asked = question_about(alloc, self.link.channel_machine(), &message)?;
        let answer = answer_of(&asked, answer)?;
        let seen = seen_in(alloc, &asked, &message)?;
        drop(asked);
        match self.take(alloc, message, answer, seen) {
            Ok(()) => Ok(()),
            Err(refusal) => Err(HostRefusal::Refused(refusal)),
        }
    }

    // The link takes a message, or there is no memory for what has to be there before.
    fn take(
        &mut self,
        alloc: Global,
        message: Message,
        answer: Answer,
        seen: Seen,
    ) -> Result<(), Refusal>
        ensures takes { TakesUnlessMemory message seen answer result (seat self.old) (seat self.new) }
    {
        let secrets = secrets_with(alloc, self.secrets.as_slice(), &seen)?;
        self.tell(alloc, answer)?;
        self.hear(alloc, message, seen, secrets)
    }

    // The link has keys that were told this, and knows the channel that the host knows.
    fn tell(&mut self, alloc: Global, answer: Answer) -> Result<(), Refusal>
        ensures told { OnOk result (seat self.new ≡ told answer (seat self.old)) }
        ensures changes_nothing_if_refused { OnErr result (seat self.new ≡ seat self.old) }
        ensures fails_for_memory_alone { IfErr result (λ r. r ≡ refusal.Memory) }
    {
        self.know(alloc, answer.known)?;
        self.link.set_keys(keys_told(self.first_point, answer));
        Ok(())
    }

    // A channel that the host has a record of has one here, too, which says nothing.
    fn know(&mut self, alloc: Global, channel: Option<[u8; 32]>) -> Result<(), Refusal>
        ensures known { OnOk result
            (seat self.new ≡ with_link self.old.link (known channel self.old.store) (seat self.old)) }
        ensures changes_nothing_if_refused { OnErr result (seat self.new ≡ seat self.old) }
        ensures fails_for_memory_alone { IfErr result (λ r. r ≡ refusal.Memory) }
    {
        match channel {
            Some(channel) => self.store.save(alloc, &channel, &[]),
            None => Ok(()),
        }
    }

    // The link takes a message, of which this is kept.
    fn hear(
        &mut self,
        alloc: Global,
        message: Message,
        seen: Seen,
        secrets: Vec<PeerSecret>,
    ) -> Result<(), Refusal>
        requires { secrets.items ≡ self.old.secrets.items ++ secret_of seen }
        ensures takes { IsTaken message seen result (seat self.old) (seat self.new) }
    {
        let channel = channel_of(&message);
        match self.link.handle(alloc, &mut self.store, message) {
            Ok(outputs) => {
                self.keep(seen, secrets);
                self.queue(alloc, outputs)
            }
            Err(refusal) => {
                drop(seen);
                drop(secrets);
                self.put_record(alloc);
                Err(self.reply(alloc, refusal, channel))
            }
        }
    }

    // What a taken message had that the chain may need.
    fn keep(&mut self, seen: Seen, secrets: Vec<PeerSecret>)
        requires { secrets.items ≡ self.old.secrets.items ++ secret_of seen }
        ensures { seat self.new ≡ kept seen (seat self.old) }
    {
        put(&mut self.secrets, secrets);
        match seen {
            Seen::Nothing => {}
            Seen::Signatures(signatures) => put(&mut self.signatures, Some(signatures)),
            Seen::Secret(_) => {}
        }
    }

    // How the peer is told that its message was refused (BOLT 1, "The `error` and `warning` Messages").
    fn reply(&mut self, alloc: Global, refusal: Refusal, channel: Option<[u8; 32]>) -> Refusal
        ensures { Replies (reply_due refusal channel self.old.link.connection) refusal result (seat self.old)
            (seat self.new) }
    {
        let Some(channel) = channel else {
            return refusal;
        };
        if self.machine().connection().is_down() {
            return refusal;
        }
        self.put_reply(alloc, refusal, &channel)
    }

    fn put_reply(&mut self, alloc: Global, refusal: Refusal, channel: &[u8; 32]) -> Refusal
        ensures { Replies (reply_to refusal channel.now) refusal result (seat self.old) (seat self.new) }
    {
        match Message::reply_to(alloc, refusal, channel) {
            Ok(None) => refusal,
            Ok(Some(message)) => {
                let reply = Outgoing {
                    message,
                    blank: None,
                };
                match self.line.put_message(reply) {
                    Ok(()) => refusal,
                    Err(memory) => self.halted(memory),
                }
            }
            Err(memory) => self.halted(memory),
        }
    }

    // The link halts, as there is no memory.
    fn halted(&mut self, memory: Refusal) -> Refusal
        ensures answer { result ≡ memory }
        ensures halts { seat self.new ≡ halted (seat self.old) }
    {
        self.link.halt();
        memory
    }

    /// What stands first in the line. Takes no memory.
    pub fn head(&self) -> Option<Head<'_>>
        ensures { IsHead self.now.line result }
    {
        self.line.head()
    }

    /// The host is shown what stands first; `done` stands for this alone. Takes no memory.
    pub fn show(&mut self)
        ensures { seat self.new ≡ shown (seat self.old) }
    {
        self.is_shown = true;
    }

    /// What the host saves, whole: the record, the peer's signatures, and its secrets since the record that the host
    /// has. None where no record waits; 60 where there is no memory.
    pub fn unsaved(&self, alloc: Global) -> Result<Option<HostRecord>, Refusal>
        ensures record { IfOk result (λ r. r ≡ host_record (seat self.now)) }
        ensures fails_for_memory_alone { IfErr result (λ r. r ≡ refusal.Memory) }
    {
        let Some(channel) = self.machine().saved() else {
            return Ok(None);
        };
        let channel = channel.id();
        let Some(record) = self.store.find(&channel) else {
            return Ok(None);
        };
        Ok(Some(HostRecord {
            channel,
            signatures: copied_held(alloc, &self.signatures)?,
            secrets: Listed::new(Vec::from_slice(alloc, self.secrets.as_slice())?),
            record_bytes: Bytes::from_slice(alloc, record.as_slice())?,
        }))
    }

    /// What stands first in the line is dealt with: a record is saved, a blank filled by this answer, a message sent,
    /// or what was told acted on.
    ///
    /// Errors: 40 where nothing waits, or what stands first wasn't shown since the last call; 81 where a blank is
    /// filled by too few or too many bytes, or anything else comes with an answer; 60. Nothing has changed then.
    pub fn done(&mut self, alloc: Global, answer: &[u8]) -> Result<(), HostRefusal>
        ensures does { IsDone (done_by answer.now (seat self.old)) result (seat self.old) (seat self.new) }
    {
        if !self.is_shown {
            return Err(HostRefusal::Refused(Refusal::NotReady));
        }
        match self.line.head() {
            None => Err(HostRefusal::Refused(Refusal::NotReady)),
            Some(Head::Record) => self.save_done(alloc, answer),
            Some(Head::Blank(blank)) => {
                let filling = filling_of(alloc, blank, answer)?;
                self.fill_first(filling);
                Ok(())
            }
            Some(Head::Send(_)) => self.take_off(answer),
            Some(Head::Told(_)) => self.take_off(answer),
        }
    }

    // The host has saved the record. Errors: 81 where it comes with an answer, 60.
    fn save_done(&mut self, alloc: Global, answer: &[u8]) -> Result<(), HostRefusal>
        requires { self.old.line.record_waits ≡ true }
        ensures { IsDone (unanswered answer.now (record_saved (seat self.old))) result (seat self.old)
            (seat self.new) }
    {
        if !answer.is_empty() {
            return Err(HostRefusal::Answer);
        }
        match self.copied_record(alloc) {
            Ok(record) => {
                put(&mut self.taken, record);
                put(&mut self.store, MemoryStore::new(alloc));
                self.secrets.clear();
                self.line.take_head();
                self.is_shown = false;
                Ok(())
            }
            Err(memory) => Err(HostRefusal::Refused(memory)),
        }
    }

    // The first message is filled.
    fn fill_first(&mut self, filling: Filling)
        ensures { seat self.new ≡ filled_first filling (seat self.old) }
    {
        self.line.fill_first(filling);
        self.is_shown = false;
    }

    // What stands first leaves. Error: 81 where it comes with an answer.
    fn take_off(&mut self, answer: &[u8]) -> Result<(), HostRefusal>
        ensures { IsDone (unanswered answer.now (taken_off (seat self.old))) result (seat self.old) (seat self.new) }
    {
        if !answer.is_empty() {
            return Err(HostRefusal::Answer);
        }
        self.line.take_head();
        self.is_shown = false;
        Ok(())
    }

    // The bytes of the record, where the link has one.
    fn copied_record(&self, alloc: Global) -> Result<Option<Bytes>, Refusal>
        ensures record { IfOk result (λ r. r ≡ record_of (seat self.now)) }
        ensures fails_for_memory_alone { IfErr result (λ r. r ≡ refusal.Memory) }
    {
        match self.machine().saved() {
            None => Ok(None),
            Some(channel) => match self.store.find(&channel.id()) {
                None => Ok(None),
                Some(record) => Ok(Some(Bytes::from_slice(alloc, record.as_slice())?)),
            },
        }
    }
}

fn copied_held(
    alloc: Global,
    held: &Option<HeldSignatures>,
) -> Result<Option<HeldSignatures>, Refusal>
    ensures same { IfOk result (λ h. h ≡ held.now) }
    ensures fails_for_memory_alone { IfErr result (λ r. r ≡ refusal.Memory) }
{
    match held {
        None => Ok(None),
        Some(held) => Ok(Some(HeldSignatures {
            number: held.number,
            signature: held.signature,
            htlc_signatures: copied(alloc, &held.htlc_signatures)?,
        })),
    }
}
