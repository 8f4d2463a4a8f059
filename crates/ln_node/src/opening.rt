//! The end of a channel in a node: a link with its store, which begins anew while its opening isn't signed.

ghost use Rattle.std.specs.Prelude.{◌≡◌, Ok, IfOk, IfErr};
ghost use Rattle.ln_refusals.specs.declared.refusal.Refusal.TheVariants as refusal;
ghost use Rattle.ln_channel.specs.State.{State, StandsFor};
ghost use Rattle.ln_node_loops.specs.Sent.{loaded};
ghost use Rattle.ln_node.specs.declared.opening.Beginning.TheVariants.{Fundee, Funder, Over};
ghost use Rattle.ln_node.specs.Opening.{Begins, BeginsAnew, is_unopened, asks_to_sign, lacks_record};

use crate::observed::ObservedStore;
use crate::observer::Observer;
use crate::start::Stores;
use ln_channel::{ChannelMachine, Command, FitConfig, FitSpec, Output};
use ln_hooks::ChannelEvent;
use ln_keys::ChannelKeys;
use ln_link::Link;
use ln_log::ChannelId;
use ln_msgs::Message;
use ln_node_loops::{End, SavedLink};
use ln_refusals::Refusal;
use ln_store::RecordStore;
use std::alloc::Global;

/// What a new link in the place of an end's begins with.
#[derive(Drop)]
pub(crate) enum Beginning {
    /// A fundee's config.
    Fundee(FitConfig),
    /// A funder's spec.
    Funder(FitSpec),
    /// There is no new one: a signature of the opening has left it, or it came from a record.
    Over,
}

/// A link with its store, and what a new link in its place begins with: an opening that is lost before it is signed
/// begins anew with the next connection. Both lie in boxes, so that who owns it knows nothing of their parts.
#[derive(Drop)]
pub(crate) struct NodeLink<K: ChannelKeys + Drop, S: Drop> {
    /// The link with its store.
    pub(crate) saved: Box<SavedLink<K, ObservedStore<S>>>,
    /// What a new one begins with.
    pub(crate) beginning: Box<Beginning>,
}

// ---- a new link

// The link that begins so. 40 where there is none; 60 where there is no memory.
fn new_link<K: ChannelKeys + Drop>(keys: K, beginning: &Beginning) -> Result<Link<K>, Refusal>
    ensures { Begins keys beginning.now result }
{
    match beginning {
        Beginning::Fundee(config) => match config.clone() {
            Ok(config) => Ok(Link::fundee(keys, config)),
            Err(_) => Err(Refusal::Memory),
        },
        Beginning::Funder(spec) => match spec.clone() {
            Ok(spec) => Ok(Link::funder(keys, spec)),
            Err(_) => Err(Refusal::Memory),
        },
        Beginning::Over => Err(Refusal::NotReady),
    }
}

// A value in the place of another.
fn replace<T: Drop>(place: &mut T, value: T)
    ensures { place.new ≡ value }
{
    *place = value;
}

// A new link in the place of one, with its keys. 40 where there is none; 60 where there is no memory.
fn begin_anew<K: ChannelKeys + Drop>(
    beginning: &Beginning,
    link: &mut Link<K>,
) -> Result<(), Refusal>
    ensures { BeginsAnew beginning.now (loaded result) link.old link.new }
{
    match beginning {
        Beginning::Fundee(config) => match config.clone() {
            Ok(config) => {
                link.begin_as_fundee(config);
                Ok(())
            }
            Err(_) => Err(Refusal::Memory),
        },
        Beginning::Funder(spec) => match spec.clone() {
            Ok(spec) => {
                link.begin_as_funder(spec);
                Ok(())
            }
            Err(_) => Err(Refusal::Memory),
        },
        Beginning::Over => Err(Refusal::NotReady),
    }
}

// Whether a link has no connection, and no opening that both have signed.
fn is_unopened<K: ChannelKeys + Drop>(link: &ChannelMachine<K>) -> bool
    ensures { (l : State K) → StandsFor link.now l → result ≡ is_unopened l }
{
    link.connection().is_down() && !link.is_halted() && link.saved().is_none()
}

// Whether what answers a message has a signature of the opening.
fn asks_to_sign(message: &Message) -> bool
    ensures { result ≡ asks_to_sign message.now }
{
    matches!(
        message,
        Message::AcceptChannel(_) | Message::FundingCreated(_)
    )
}

// Whether a load found no record.
fn lacks_record(answer: Result<(), Refusal>) -> bool
    ensures { result ≡ lacks_record answer }
{
    matches!(answer, Err(Refusal::NotReady))
}

// A value in a box. 60 where there is no memory for it.
fn boxed<T: Drop>(alloc: Global, value: T) -> Result<Box<T>, Refusal>
    ensures holds { IfOk result (λ b. b.value ≡ value) }
    ensures fails_for_memory_alone { IfErr result (λ r. r ≡ refusal.Memory) }
{
    match Box::new(alloc, value) {
        Ok(boxed) => Ok(boxed),
        Err(_) => Err(Refusal::Memory),
    }
}

// A new link with its store. 40 where none begins so; 60 where there is no memory.
fn new_saved<K: ChannelKeys + Drop, S: Drop>(
    alloc: Global,
    keys: K,
    beginning: &Beginning,
    store: S,
) -> Result<Box<SavedLink<K, S>>, Refusal>
    ensures begins { IfOk result (λ s. Begins keys beginning.now (Ok s.value.link)) }
    ensures keeps_store { IfOk result (λ s. s.value.store ≡ store) }
{
    match new_link(keys, beginning) {
        Ok(link) => boxed(alloc, SavedLink { link, store }),
        Err(refusal) => Err(refusal),
    }
}

impl<K: ChannelKeys + Drop, S: Drop> NodeLink<K, S> {
    // One that begins so.
    fn begun(
        alloc: Global,
        keys: K,
        beginning: Box<Beginning>,
        store: ObservedStore<S>,
    ) -> Result<NodeLink<K, S>, Refusal>
        ensures begins { IfOk result (λ n. Begins keys beginning.value (Ok n.saved.value.link)) }
        ensures begins_anew_alike { IfOk result (λ n. n.beginning.value ≡ beginning.value) }
        ensures keeps_store { IfOk result (λ n. n.saved.value.store ≡ store) }
    {
        let saved = new_saved(alloc, keys, &beginning, store)?;
        Ok(NodeLink { saved, beginning })
    }

    /// A fundee's end, which takes a channel with this config. 60 where there is no memory.
    pub(crate) fn fundee(
        alloc: Global,
        keys: K,
        config: FitConfig,
        store: ObservedStore<S>,
    ) -> Result<NodeLink<K, S>, Refusal>
        ensures begins { IfOk result (λ n. Begins keys (Fundee config) (Ok n.saved.value.link)) }
        ensures begins_anew_alike { IfOk result (λ n. n.beginning.value ≡ Fundee config) }
        ensures keeps_store { IfOk result (λ n. n.saved.value.store ≡ store) }
    {
        let beginning = boxed(alloc, Beginning::Fundee(config))?;
        NodeLink::begun(alloc, keys, beginning, store)
    }

    /// A funder's end, which opens a channel by this spec. 60 where there is no memory.
    pub(crate) fn funder(
        alloc: Global,
        keys: K,
        spec: FitSpec,
        store: ObservedStore<S>,
    ) -> Result<NodeLink<K, S>, Refusal>
        ensures begins { IfOk result (λ n. Begins keys (Funder spec) (Ok n.saved.value.link)) }
        ensures begins_anew_alike { IfOk result (λ n. n.beginning.value ≡ Funder spec) }
        ensures keeps_store { IfOk result (λ n. n.saved.value.store ≡ store) }
    {
        let beginning = boxed(alloc, Beginning::Funder(spec))?;
        NodeLink::begun(alloc, keys, beginning, store)
    }

    /// One that came from its record. 60 where there is no memory.
    pub(crate) fn loaded(
        alloc: Global,
        saved: SavedLink<K, ObservedStore<S>>,
    ) -> Result<NodeLink<K, S>, Refusal>
        ensures keeps { IfOk result (λ n. n.saved.value ≡ saved) }
        ensures begins_nothing_anew { IfOk result (λ n. n.beginning.value ≡ Over) }
    {
        let saved = boxed(alloc, saved)?;
        let beginning = boxed(alloc, Beginning::Over)?;
        Ok(NodeLink { saved, beginning })
    }
}

impl<K: ChannelKeys + Drop, S: RecordStore + Drop> Stores for NodeLink<K, S> {
    type Store = S;

    ghost store = { λ e. e.saved.value.store.inner };

    fn into_store(self) -> S {
        let SavedLink { link, store } = Box::into_inner(self.saved);
        drop(link);
        store.inner
    }
}

// The outputs of an end are watched, where there are some.
fn observed(
    alloc: Global,
    observer: &Observer,
    said: Result<Vec<Output>, Refusal>,
) -> Result<Vec<Output>, Refusal>
    ensures { result ≡ said }
{
    match said {
        Ok(outputs) => {
            observer.send(alloc, outputs.as_slice());
            Ok(outputs)
        }
        Err(refusal) => Err(refusal),
    }
}

impl<K: ChannelKeys + Drop, S: RecordStore + Drop> End for NodeLink<K, S> {
    ghost use Rattle.ln_channel.specs.Pending.{pending_at};
    ghost use Rattle.ln_book.specs.Seen.{seen_of};
    ghost use Rattle.ln_node_loops.specs.Signing as signing;
    ghost use Rattle.ln_node.specs.Opening.{Held, acts};

    ghost State = { Held K };

    ghost state = { λ e. record {
      saved = record {
        link = e.saved.value.link;
        store_view = S.store_view e.saved.value.store.inner;
      };
      beginning = e.beginning.value;
    } };

    ghost acts = { acts K.signer };

    ghost halted = { λ h. h.saved.link.halted };

    ghost pending = { λ h. pending_at h.saved.link.stage };

    ghost seen = { λ h. seen_of h.saved.link };

    ghost owes = { λ h. signing.owes_signature h.saved.link };

    fn handle(&mut self, alloc: Global, message: Message) -> Result<Vec<Output>, Refusal> {
        let signs = asks_to_sign(&message);
        self.saved.store.observer.take(alloc, &message);
        match self.saved.handle(alloc, message) {
            Ok(outputs) => {
                self.saved.store.observer.send(alloc, outputs.as_slice());
                if signs {
                    replace(&mut *self.beginning, Beginning::Over);
                }
                Ok(outputs)
            }
            Err(refusal) => Err(refusal),
        }
    }

    fn command(&mut self, alloc: Global, command: Command) -> Result<Vec<Output>, Refusal> {
        let said = self.saved.command(alloc, command);
        observed(alloc, &self.saved.store.observer, said)
    }

    fn connect(&mut self, alloc: Global) -> Result<Vec<Output>, Refusal> {
        if is_unopened(self.saved.link.channel_machine()) {
            match begin_anew(&self.beginning, &mut self.saved.link) {
                Ok(()) => {
                    let said = self.saved.connect(alloc);
                    return observed(alloc, &self.saved.store.observer, said);
                }
                Err(refusal) => return Err(refusal),
            }
        }
        let said = self.saved.connect(alloc);
        observed(alloc, &self.saved.store.observer, said)
    }

    fn drop_connection(&mut self) {
        self.saved.drop_connection();
    }

    fn load(&mut self, alloc: Global) -> Result<(), Refusal> {
        let answer = self.saved.load(alloc);
        if lacks_record(answer) {
            return begin_anew(&self.beginning, &mut self.saved.link);
        }
        answer
    }

    fn pending_events(&self, alloc: Global) -> Result<Vec<(u64, ChannelEvent)>, Refusal> {
        self.saved.pending_events(alloc)
    }

    fn is_halted(&self) -> bool {
        self.saved.is_halted()
    }

    fn owes_signature(&self) -> bool {
        self.saved.owes_signature()
    }

    fn channel(&self) -> Option<ChannelId> {
        self.saved.channel()
    }

    fn next_id(&self) -> u64 {
        self.saved.next_id()
    }
}
