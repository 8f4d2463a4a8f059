//! The book of a node, as the threads of its channels reach it.

ghost use Rattle.std.specs.Prelude.{◌≡◌, ◌++◌, ◌∷◌, [], IfOk};
ghost use Rattle.ln_node_loops.specs.declared.noted.Noted.TheVariants.{Tells};
ghost use Rattle.ln_book.specs.Handles.{policy_of};
ghost use Rattle.ln_node.specs.Waking.{outgoing_channel, incoming_channel, other_channel, latest_other};

use crate::channel::Access;
use crate::greeting::Greeting;
use crate::node_book::NodeBook;
use crate::notices::Notices;
use crate::observer::{Monitor, Observer};
use crate::opening::NodeLink;
use crate::peer::Peer;
use crate::wakeups::{ChannelWakeup, Wakeups};
use ln_book::{BookHandle, Use, use_of, waits};
use ln_channel::Command;
use ln_forward::Policy;
use ln_history::Past;
use ln_hooks::{ChannelEvent, Verdict};
use ln_keys::{ChannelKeys, Onion};
use ln_log::{ChannelId, Mark};
use ln_msgs::Message;
use ln_node_loops::{Books, Noted, Notice, ReadsEnds};
use ln_refusals::Refusal;
use ln_store::RecordStore;
use ln_watch::Watch;
use std::alloc::{AllocError, Global};
use std::sync::{Arc, Wait};

/// The book of a node, as one thread of a channel reaches it: its lock is held for one call of the book.
#[derive(Drop)]
pub struct SharedBook<O: Drop> {
    book: Arc<NodeBook>,
    handle: BookHandle<O>,
    // The channel's wake-up, and those of the node's other channels.
    own: Arc<ChannelWakeup>,
    wakeups: Arc<Wakeups>,
    // The other channel of the payment that the latest command was about.
    other: Option<ChannelId>,
    notices: Arc<Notices>,
    // What watches the channel.
    observer: Arc<Observer>,
    // The channel's summary, for who watches the node, and what its peer tells of itself.
    watch: Arc<Watch>,
    peer: Arc<Peer>,
    // All that was noted, for proofs alone.
    noted: Past<(), Noted>,
    // The channel's number.
    number: usize,
    // For summaries.
    alloc: Global,
}

/// What all channels of a node share.
#[derive(Drop)]
pub(crate) struct Common<O: Drop> {
    /// The node's book.
    pub(crate) book: Arc<NodeBook>,
    /// How it opens onions.
    pub(crate) onion: O,
    /// What it asks for forwarding.
    pub(crate) policy: Policy,
    /// How it greets its peers.
    pub(crate) greeting: Arc<Greeting>,
    /// What wakes the workers of its channels.
    pub(crate) wakeups: Arc<Wakeups>,
    /// What has become of its channels, and what it has done.
    pub(crate) notices: Arc<Notices>,
}

impl<O: Drop> Common<O> {
    ghost use Rattle.std.specs.Arc.{arc_value};
    ghost use Rattle.ln_node.specs.Books.{begun_in};

    /// That of a node without channels, whose book is this one, and which is watched here. Takes memory.
    pub(crate) fn new(
        alloc: Global,
        onion: O,
        policy: Policy,
        greeting: Greeting,
        book: NodeBook,
        monitor: Arc<Monitor>,
    ) -> Result<Common<O>, AllocError>
        ensures asks_by_the_policy { IfOk result (λ c. c.policy ≡ policy) }
        ensures greets_so { IfOk result (λ c. arc_value c.greeting ≡ greeting) }
        ensures begins_with_the_book { IfOk result (λ c. begun_in c ≡ book.begun.value) }
    {
        let book = Arc::new(alloc, book)?;
        let greeting = Arc::new(alloc, greeting)?;
        let notices = Arc::new(alloc, Notices::new(alloc, monitor)?)?;
        let wakeups = Arc::new(alloc, Wakeups::new(alloc))?;
        Ok(Common {
            book,
            onion,
            policy,
            greeting,
            wakeups,
            notices,
        })
    }
}

// The channel in which a payment goes on that is decided so.
fn outgoing_channel(mark: &Mark) -> Option<ChannelId>
    ensures { result ≡ outgoing_channel mark.now }
{
    match mark {
        Mark::Forward { channel, .. } => {
            let channel = *channel;
            Some(channel)
        }
        _ => None,
    }
}

// The channel by which a payment came.
fn incoming_channel(origin: Option<(ChannelId, u64)>) -> Option<ChannelId>
    ensures { result ≡ incoming_channel origin }
{
    let (channel, _) = origin?;
    Some(channel)
}

// The other channel of the payment that a command is about, where its answer may make a command due there.
fn other_channel(command: &Command) -> Option<ChannelId>
    ensures { result ≡ other_channel command.now }
{
    match command {
        Command::Decide { mark, .. } => outgoing_channel(mark),
        Command::Resume { mark, .. } => outgoing_channel(mark),
        Command::Add { origin, .. } => incoming_channel(*origin),
        _ => None,
    }
}

// The same of the latest command, where there is another one.
fn latest_other(before: Option<ChannelId>, command: &Option<Command>) -> Option<ChannelId>
    ensures { result ≡ latest_other before command.now }
{
    match command {
        None => before,
        Some(command) => other_channel(command),
    }
}

// Wakes a channel's worker, and that of another channel where there is one.
fn wake<R: Wait>(rt: &R, own: &ChannelWakeup, wakeups: &Wakeups, other: Option<ChannelId>) {
    own.wakeup.ring();
    if let Some(other) = other {
        wakeups.ring(rt, &other);
    }
}

// A notice of a channel, which is noted.
fn note<R: Wait>(
    rt: &R,
    notices: &Notices,
    channel: usize,
    noted: &mut Past<(), Noted>,
    notice: Notice,
)
    ensures tells_it { noted.new.told.entries ≡ noted.old.told.entries ++ Tells notice ∷ [] }
{
    notices.add(rt, channel, notice);
    *noted = noted.and(&Noted::Tells(notice));
}

impl<O: Onion + Copy + Drop> SharedBook<O> {
    ghost use Rattle.ln_book.specs.Handles.{said};
    ghost use Rattle.ln_node.specs.Books.{begun_at, begun_in};

    // The book, for a thread of the channel of the node that callers reach so; this watches it.
    fn beside<W: Drop>(
        alloc: Global,
        common: &Common<O>,
        access: &Access<W>,
        observer: &Arc<Observer>,
        number: usize,
    ) -> Result<SharedBook<O>, AllocError>
        ensures reaches_the_book { IfOk result (λ b. begun_at b ≡ begun_in common.now) }
        ensures asks_by_the_policy { IfOk result (λ b. policy_of b.handle ≡ common.now.policy) }
        ensures nothing_was_said { IfOk result (λ b. said b.handle ≡ []) }
    {
        let book = Arc::try_clone(&common.book)?;
        let wakeups = Arc::try_clone(&common.wakeups)?;
        let notices = Arc::try_clone(&common.notices)?;
        let own = Arc::try_clone(&access.wakeup)?;
        let watch = Arc::try_clone(&access.watch)?;
        let peer = Arc::try_clone(&access.peer)?;
        let observer = Arc::try_clone(observer)?;
        Ok(SharedBook {
            book,
            handle: BookHandle::new(common.onion, common.policy),
            own,
            wakeups,
            other: None,
            notices,
            observer,
            watch,
            peer,
            noted: Past::begun(&()),
            number,
            alloc,
        })
    }

    /// The book, for the worker and the dispatcher of the channel of the node that callers reach so; this watches it.
    pub(crate) fn pair<W: Drop>(
        alloc: Global,
        common: &Common<O>,
        access: &Access<W>,
        observer: &Arc<Observer>,
        number: usize,
    ) -> Result<(SharedBook<O>, SharedBook<O>), AllocError>
        ensures reach_the_book { IfOk result (λ b. (begun_at b.0 ≡ begun_in common.now)
            × (begun_at b.1 ≡ begun_in common.now)) }
        ensures asks_by_the_policy { IfOk result (λ b. (policy_of b.0.handle ≡ common.now.policy)
            × (policy_of b.1.handle ≡ common.now.policy)) }
        ensures nothing_was_said { IfOk result (λ b. (said b.0.handle ≡ []) × (said b.1.handle ≡ [])) }
    {
        let first = SharedBook::beside(alloc, common, access, observer, number)?;
        let second = SharedBook::beside(alloc, common, access, observer, number)?;
        Ok((first, second))
    }

    /// The node knows the channel from now on.
    pub(crate) fn publish<R: Wait>(&self, rt: &R, channel: ChannelId) {
        if self.own.id.get().is_some() {
            return;
        }
        let _ = self.own.id.set(rt, channel);
        if let Ok(own) = Arc::try_clone(&self.own) {
            self.wakeups.add(rt, channel, own);
        }
    }
}

impl<O: Onion + Copy + Drop> Books for SharedBook<O> {
    ghost use Rattle.ln_book.specs.Handles as handles;

    ghost said = { λ b. handles.said b.handle };

    ghost noted = { λ b. b.noted.told.entries };

    fn take<R: Wait>(&mut self, rt: &R, alloc: Global, channel: ChannelId) -> Option<Command> {
        let mut book = self.book.kept.lock(rt);
        match self.handle.take(alloc, &mut book, channel) {
            Ok(command) => {
                self.other = latest_other(self.other, &command);
                command
            }
            Err(_) => None,
        }
    }

    fn answered<R: Wait>(&mut self, rt: &R, channel: ChannelId, answer: Result<u64, u16>) {
        let mut book = self.book.kept.lock(rt);
        self.handle.answered(&mut book, channel, answer);
        if !waits(answer) {
            wake(rt, &self.own, &self.wakeups, self.other);
        }
    }

    fn settled<R: Wait>(
        &mut self,
        rt: &R,
        alloc: Global,
        channel: ChannelId,
        told: &ChannelEvent,
    ) -> Result<(), Refusal> {
        let mut book = self.book.kept.lock(rt);
        let other = book.other_leg(&channel, told);
        let done = self.handle.settled(alloc, &mut book, channel, told);
        wake(rt, &self.own, &self.wakeups, other);
        done
    }

    fn decide<R: Wait>(
        &mut self,
        rt: &R,
        alloc: Global,
        channel: ChannelId,
        number: u64,
        event: &ChannelEvent,
        verdict: Verdict,
    ) -> Result<(), Refusal> {
        let mut book = self.book.kept.lock(rt);
        let decided = self
            .handle
            .decide(alloc, &mut book, channel, number, event, verdict);
        match decided {
            Ok(mark) => {
                self.observer.decide(&mark);
                if let Mark::Held(_) = mark {
                    note(
                        rt,
                        &self.notices,
                        self.number,
                        &mut self.noted,
                        Notice::Held(number),
                    );
                }
                self.own.wakeup.ring();
                Ok(())
            }
            Err(refusal) => Err(refusal),
        }
    }
}

impl<O: Onion + Copy + Drop> SharedBook<O> {
    ghost use Rattle.std.specs.Prelude.{◌++◌, ◌∷◌, OnOk, OnErr};
    ghost use Rattle.ln_book.specs.Handles.{said};
    ghost use Rattle.ln_book.specs.Saying.{uses};

    // Tells the book which payments the channel's end takes, unless it was told last.
    fn notify_use<R: Wait>(&mut self, rt: &R, used: Use) -> Result<(), Refusal>
        ensures says_the_use { OnOk result (said self.new.handle ≡ said self.old.handle ++ uses used ∷ []) }
        ensures says_nothing_if_refused { OnErr result (said self.new.handle ≡ said self.old.handle) }
        ensures notes_nothing { self.new.noted ≡ self.old.noted }
    {
        if !self.handle.is_news(used) {
            self.handle.still(used);
            return Ok(());
        }
        let mut book = self.book.kept.lock(rt);
        let done = self.handle.follow(&mut book, used);
        self.own.wakeup.ring();
        done
    }
}

impl<K, S, O> ReadsEnds<NodeLink<K, S>> for SharedBook<O>
where
    K: ChannelKeys + Drop,
    S: RecordStore + Drop,
    O: Onion + Copy + Drop,
{
    fn dropped<R: Wait>(
        &mut self,
        rt: &R,
        alloc: Global,
        end: &NodeLink<K, S>,
    ) -> Result<(), Refusal> {
        match end.saved.link.channel_machine().saved() {
            None => Ok(()),
            Some(channel) => {
                let mut book = self.book.kept.lock(rt);
                let done = self.handle.dropped(alloc, &mut book, channel);
                wake(rt, &self.own, &self.wakeups, self.other);
                done
            }
        }
    }

    fn follow<R: Wait>(&mut self, rt: &R, end: &NodeLink<K, S>) -> Result<(), Refusal> {
        let channel_machine = end.saved.link.channel_machine();
        self.watch.put(rt, self.alloc, channel_machine);
        self.observer.flush(rt, self.alloc);
        match channel_machine.saved() {
            None => Ok(()),
            Some(channel) => {
                // An opening whose first save failed may be lost yet.
                if !channel_machine.is_halted() {
                    self.publish(rt, channel.id());
                }
                self.notify_use(rt, use_of(channel_machine, channel))
            }
        }
    }

    fn notice<R: Wait>(&mut self, rt: &R, notice: Notice) {
        self.observer.flush(rt, self.alloc);
        note(rt, &self.notices, self.number, &mut self.noted, notice);
    }

    fn met<R: Wait>(&mut self, rt: &R, init: Message) {
        let noted = Noted::Meets(init);
        self.noted = self.noted.and(&noted);
        self.peer.meet(rt, noted.into_init());
        self.notices.add(rt, self.number, Notice::Met);
    }

    fn wait<R: Wait>(&self, rt: &R, refused: u64) {
        self.own.wakeup.wait(rt, refused);
    }
}
