//! A node: its channels, each with its threads, and the book of its payments.

ghost use Rattle.std.specs.Prelude.{◌≡◌, ◌++◌, ◌∷◌, [], true, false, if◌then◌else◌, Ok, Err, OnOk, OnErr, IfOk, IfErr};
ghost use Rattle.std.specs.Prelude.{length};
ghost use Rattle.ln_refusals.specs.declared.refusal.Refusal.TheVariants as refusal;
ghost use Rattle.ln_node.specs.Node.{HasOneMore};

use crate::asking::OrderReplies;
use crate::book::{Common, SharedBook};
use crate::channel::{Access, ChannelThreads, Parts, Shares, start};
use crate::greeting::Greeting;
use crate::held::numbered;
use crate::node_book::NodeBook;
use crate::observed::ObservedStore;
use crate::observer::Monitor;
use crate::opening::NodeLink;
use crate::reader::Connections;
use crate::signing::Signing;
use crate::start::Stores;
use crate::stored::{Loaded, Stored, book_of, load_all};
use ln_book::Book;
use ln_book_tables::HeldHtlc;
use ln_bytes::Bytes;
use ln_channel::{Command, FitConfig, FitSpec};
use ln_forward::Policy;
use ln_hooks::Verdict;
use ln_keys::{ChannelKeys, Onion};
use ln_log::{ChannelId, Mark};
use ln_node_loops::{Notice, ReadsEnds, Table};
use ln_refusals::Refusal;
use ln_store::RecordStore;
use std::alloc::{AllocError, Global};
use std::io::{Read, Write};
use std::marker::PhantomData;
use std::net::{Net, OpenListener, OpenStream, SocketAddr, TcpListener, TcpStream};
use std::sync::atomic::{AtomicU64, Ordering};
use std::sync::{Arc, Mutex, Wait};
use std::thread::Threads;

/// A node of a payment channel network: channels by number, from 0, each with a reader of its connections, a worker
/// that has its link and its store, and a dispatcher of its hooks, in threads of their own; and the book of the
/// payments that it forwards. It runs until `stop`.
pub struct Node<K: ChannelKeys + Drop, S: Drop, O: Drop, H: Drop, T: Drop, W: Drop = TcpStream> {
    stopping: Arc<AtomicU64>,
    pub(crate) common: Common<O>,
    pub(crate) channels: Vec<ChannelThreads<S, H, W>>,
    // When new channels sign.
    pub(crate) signing: Signing,
    // Which keys and tables of hooks its channels have: these are in their threads alone.
    of: PhantomData<(K, T)>,
}

impl<K: ChannelKeys + Drop, S: Drop, O: Drop, H: Drop, T: Drop, W: Drop> Node<K, S, O, H, T, W> {
    ghost use Rattle.std.specs.Prelude.{◌≡◌};

    // Its channels; what else it has is dropped.
    fn into_channels(self) -> Vec<ChannelThreads<S, H, W>>
        ensures { result ≡ self.channels }
    {
        let Node {
            stopping,
            common,
            channels,
            signing: _,
            of: _,
        } = self;
        drop(stopping);
        drop(common);
        channels
    }
}

// By hand: crates above don't prove again how its parts are dropped.
impl<K: ChannelKeys + Drop, S: Drop, O: Drop, H: Drop, T: Drop, W: Drop> Drop
    for Node<K, S, O, H, T, W> {
    fn drop(self) {
        drop(self.into_channels());
    }
}

// Appends a value. False where there is no memory.
fn keep<T: Drop>(kept: &mut Vec<T>, value: T) -> bool
    ensures appends { result ≡ true → kept.new.items ≡ kept.old.items ++ value ∷ [] }
    ensures changes_nothing { result ≡ false → kept.new.items ≡ kept.old.items }
{
    kept.push(value).is_ok()
}

// What was kept, where it is all. Else 60.
fn all_kept<T: Drop>(kept: Vec<T>, is_all: bool) -> Result<Vec<T>, Refusal>
    ensures { result ≡ (if is_all then Ok kept else Err refusal.Memory) }
{
    if is_all {
        Ok(kept)
    } else {
        Err(Refusal::Memory)
    }
}

// Listens at an address, and answers the one that is bound. 63 where it can't be.
fn bind<L, R>(rt: &R, address: SocketAddr) -> Result<(L, SocketAddr), Refusal>
where
    L: OpenListener + Drop,
    R: Net<Listener = L>,
{
    let Ok(listener) = TcpListener::bind(rt, address) else {
        return Err(Refusal::Io);
    };
    match listener.local_addr() {
        Ok(bound) => Ok((listener, bound)),
        Err(_) => Err(Refusal::Io),
    }
}

// Listens at an address, where there is one, and answers the one that is bound. 63 where it can't be.
fn bind_if<L, R>(
    rt: &R,
    address: Option<SocketAddr>,
) -> Result<(Option<L>, Option<SocketAddr>), Refusal>
where
    L: OpenListener + Drop,
    R: Net<Listener = L>,
{
    let Some(address) = address else {
        return Ok((None, None));
    };
    let (listener, bound) = bind(rt, address)?;
    Ok((Some(listener), Some(bound)))
}

// Starts a channel, as the last one. Generic in the end and the book: its ways out let them go, and then it doesn't
// matter how deep they are.
fn add<E, B, H, T, W, L, R>(
    rt: R,
    alloc: Global,
    channels: &mut Vec<ChannelThreads<E::Store, H, W>>,
    parts: Parts<E, B, T, W, L>,
) -> Result<(), Refusal>
where
    E: Stores + Drop + Send + 'static,
    E::Store: Drop + Send + 'static,
    B: ReadsEnds<E> + Drop + Send + 'static,
    H: Drop + Send + 'static,
    T: Table<H> + Drop + Send + 'static,
    W: Read + Write + OpenStream + Drop + Send + 'static,
    L: OpenListener<Stream = W> + Drop + Send + 'static,
    R: Threads + Wait + Copy + Send + 'static,
    ensures adds_one { OnOk result (HasOneMore parts.bound channels.old.items channels.new.items) }
    ensures adds_none_if_refused { OnErr result (channels.new.items ≡ channels.old.items) }
{
    channels.reserve(1)?;
    let channel = start(rt, alloc, parts)?;
    channels.push_reserved(channel);
    Ok(())
}

// Ends channels, and gives their stores, in their order. 60 where there is no memory for these; all have ended then,
// too.
fn end_all<S, H, W, R>(
    rt: &R,
    alloc: Global,
    channels: Vec<ChannelThreads<S, H, W>>,
) -> Result<Vec<S>, Refusal>
where
    S: Drop,
    H: Drop,
    W: Read + Write + OpenStream + Drop,
    R: Threads + Wait,
    ensures gives_all { IfOk result (λ stores. length stores.items ≡ length channels.items) }
    ensures fails_for_memory_alone { IfErr result (λ e. e ≡ refusal.Memory) }
{
    let mut stores = Vec::new(alloc);
    let mut are_kept = true;
    for channel in channels {
        if !keep(&mut stores, channel.end(rt)) {
            are_kept = false;
        }
    }
    all_kept(stores, are_kept)
}

impl<K, S, O, H, T, W> Node<K, S, O, H, T, W>
where
    K: ChannelKeys + Drop + Send + 'static,
    S: RecordStore + Drop + Send + 'static,
    O: Onion + Copy + Drop + Send + 'static,
    H: Drop + Send + 'static,
    T: Table<H> + Drop + Send + 'static,
    W: Read + Write + OpenStream + Drop + Send + 'static,
{
    ghost use Rattle.std.specs.Prelude.{◌≡◌, ◌≤◌, ◌+◌, [], length, Some, None, Err, IfOk, IfErr, OnOk, OnErr};
    ghost use Rattle.std.specs.declared.net.socket_addr.SocketAddr.{SocketAddr};
    ghost use Rattle.ln_refusals.specs.declared.refusal.Refusal.TheVariants as refusal;
    ghost use Rattle.ln_channel.specs.declared.command.Command.TheVariants as command;
    ghost use Rattle.ln_book.specs.Handles as handles;
    ghost use Rattle.ln_node.specs.Books.{begun_at};
    ghost use Rattle.ln_node.specs.Node.{policy_of, greeting_of, begun_of, channel_count, address_of, HasOneMore};
    ghost use Rattle.std.specs.Arc.{arc_value};
    ghost use Rattle.ln_node.specs.Stored.{BeginsWithAll};
    ghost use Rattle.ln_history.specs.History.{begun_with};
    ghost use Rattle.ln_book_tables.specs.Replay.{no_table};

    /// A node without channels: it opens onions by this service, forwards by this policy, and greets its peers so.
    /// Takes memory.
    ///
    /// Error: 60 where there is no memory.
    pub fn new(
        alloc: Global,
        onion: O,
        policy: Policy,
        greeting: Greeting,
    ) -> Result<Node<K, S, O, H, T, W>, Refusal>
        ensures asks_by_the_policy { IfOk result (λ n. policy_of n ≡ policy) }
        ensures greets_so { IfOk result (λ n. greeting_of n ≡ greeting) }
        ensures begins_with_an_empty_book { IfOk result (λ n. begun_of n ≡ begun_with no_table) }
        ensures has_no_channel { IfOk result (λ n. channel_count n ≡ 0) }
    {
        let monitor = Monitor::new(alloc)?;
        let book = NodeBook::new(alloc, &[])?;
        Node::with_book(alloc, onion, policy, greeting, book, monitor)
    }

    // A node without channels, whose book is this one, and which is watched here. 60 where there is no memory.
    fn with_book(
        alloc: Global,
        onion: O,
        policy: Policy,
        greeting: Greeting,
        book: NodeBook,
        monitor: Arc<Monitor>,
    ) -> Result<Node<K, S, O, H, T, W>, Refusal>
        ensures asks_by_the_policy { IfOk result (λ n. policy_of n ≡ policy) }
        ensures greets_so { IfOk result (λ n. greeting_of n ≡ greeting) }
        ensures begins_with_the_book { IfOk result (λ n. begun_of n ≡ book.begun.value) }
        ensures has_no_channel { IfOk result (λ n. channel_count n ≡ 0) }
    {
        let common = Common::new(alloc, onion, policy, greeting, book, monitor)?;
        let stopping = Arc::new(alloc, AtomicU64::new(0))?;
        Ok(Node {
            stopping,
            common,
            channels: Vec::new(alloc),
            signing: Signing::WhenOrdered,
            of: PhantomData,
        })
    }

    /// The book of its payments. A lock on it holds up all channels.
    pub fn book(&self) -> &Mutex<Book> {
        &self.common.book.kept
    }

    /// What has become of its channels since this was called last, each notice with its channel's number: the latest
    /// 256 at most. Takes memory; where there is none it answers none, and a later call does.
    pub fn notices<R: Wait>(&self, rt: &R, alloc: Global) -> Vec<(usize, Notice)> {
        self.common.notices.take(rt, alloc)
    }

    // What a new channel with this end has of the node, and which connection is read next, where there is one.
    fn shares<R: Wait>(
        &self,
        rt: &R,
        alloc: Global,
        end: &NodeLink<K, S>,
        next: Option<W>,
    ) -> Result<Shares<SharedBook<O>, W>, Refusal>
        ensures reach_the_book { IfOk result (λ s. (begun_at s.book ≡ begun_of self.now)
            × (begun_at s.decisions ≡ begun_of self.now)) }
        ensures asks_by_the_policy { IfOk result (λ s. (handles.policy_of s.book.handle ≡ policy_of self.now)
            × (handles.policy_of s.decisions.handle ≡ policy_of self.now)) }
        ensures nothing_was_said { IfOk result (λ s. (handles.said s.book.handle ≡ [])
            × (handles.said s.decisions.handle ≡ [])) }
        ensures greets_so { IfOk result (λ s. arc_value s.greeting ≡ greeting_of self.now) }
    {
        let number = self.channels.len();
        let notices = &self.common.notices;
        let connections = Connections::new(&self.stopping, notices, number, next)?;
        self.common.wakeups.reserve(rt, number)?;
        let link = end.saved.link.channel_machine();
        let access = Access::new(alloc, connections, link, self.signing)?;
        let replies = OrderReplies::new(&access.answers, notices, number)?;
        let greeting = Arc::try_clone(&self.common.greeting)?;
        let observer = &end.saved.store.observer;
        let (book, decisions) = SharedBook::pair(alloc, &self.common, &access, observer, number)?;
        Ok(Shares {
            greeting,
            book,
            decisions,
            replies,
            access,
        })
    }

    // Starts a channel: it listens where it is told to, or reads the next connection, where there is one.
    fn start<L, R>(
        &mut self,
        rt: R,
        alloc: Global,
        end: NodeLink<K, S>,
        table: T,
        listener: Option<L>,
        bound: Option<SocketAddr>,
        next: Option<W>,
    ) -> Result<(), Refusal>
    where
        L: OpenListener<Stream = W> + Drop + Send + 'static,
        R: Threads + Wait + Copy + Send + 'static,
        ensures settings_stay { self.new.common ≡ self.old.common }
        ensures adds_one { OnOk result (HasOneMore bound self.old.channels.items self.new.channels.items) }
        ensures adds_none_if_refused { OnErr result (self.new.channels.items ≡ self.old.channels.items) }
    {
        let shares = self.shares(&rt, alloc, &end, next)?;
        if let Some(channel) = end.saved.link.channel_machine().saved() {
            shares.book.publish(&rt, channel.id());
        }
        let parts = Parts {
            end,
            shares,
            table,
            listener,
            bound,
        };
        add(rt, alloc, &mut self.channels, parts)
    }

    /// Listens for the connections of a new channel, one after the other, as the fundee with this config, and answers
    /// the address bound. Its records are saved in this store, its hooks go into this table: a hook that may miss no
    /// event stands in it already. An opening that is lost or refused before a signature of it has left is forgotten,
    /// and the next connection begins a new one; it is closed where there is no memory for that (60). Takes memory, and
    /// three threads.
    ///
    /// Errors: 63 where the address can't be bound; 60 where there is no memory or no thread.
    pub fn listen<R>(
        &mut self,
        rt: R,
        alloc: Global,
        keys: K,
        config: FitConfig,
        store: S,
        table: T,
        address: SocketAddr,
    ) -> Result<SocketAddr, Refusal>
    where
        R: Net<Stream = W> + Threads + Wait + Copy + Send + 'static,
        R::Listener: Send + 'static,
        ensures adds_one { OnOk result (channel_count self.new ≡ channel_count self.old + 1) }
        ensures adds_none_if_refused { OnErr result (channel_count self.new ≡ channel_count self.old) }
        ensures listens_there { IfOk result (λ bound. address_of self.new (channel_count self.old) ≡ Some bound) }
    {
        let monitor = &self.common.notices.monitor;
        let store = ObservedStore::new(alloc, monitor, self.channels.len(), store)?;
        let end = NodeLink::fundee(alloc, keys, config, store)?;
        let (listener, bound) = bind(&rt, address)?;
        self.start(rt, alloc, end, table, Some(listener), Some(bound), None)?;
        Ok(bound)
    }

    /// Connects a new channel, as the funder by this spec. Its records are saved in this store, its hooks go into this
    /// table: a hook that may miss no event stands in it already. An opening that is lost or refused before a signature
    /// of it has left is forgotten, and `reconnect` begins a new one; after its signature it is lost for good, and each
    /// later connection is closed (40). Takes memory, and three threads.
    ///
    /// Errors: 63 where nobody listens at the address; 60 where there is no memory or no thread.
    pub fn connect<R>(
        &mut self,
        rt: R,
        alloc: Global,
        keys: K,
        spec: FitSpec,
        store: S,
        table: T,
        address: SocketAddr,
    ) -> Result<(), Refusal>
    where
        R: Net<Stream = W> + Threads + Wait + Copy + Send + 'static,
        R::Listener: Send + 'static,
        ensures adds_one { OnOk result (channel_count self.new ≡ channel_count self.old + 1) }
        ensures adds_none_if_refused { OnErr result (channel_count self.new ≡ channel_count self.old) }
    {
        let monitor = &self.common.notices.monitor;
        let store = ObservedStore::new(alloc, monitor, self.channels.len(), store)?;
        let end = NodeLink::funder(alloc, keys, spec, store)?;
        let Ok(stream) = TcpStream::connect(&rt, address) else {
            return Err(Refusal::Io);
        };
        self.start::<R::Listener, R>(rt, alloc, end, table, None, None, Some(stream))
    }

    /// Connects a channel with its peer again, which is listening at the address: a channel that `connect` has made, or
    /// `restore` without an address. What was its connection is shut first. Takes no memory.
    ///
    /// Errors: 40 where there is no such channel; 63 where nobody listens at the address.
    pub fn reconnect<R>(&self, rt: &R, channel: usize, address: SocketAddr) -> Result<(), Refusal>
    where
        R: Net<Stream = W> + Wait,
        ensures refuses_where_there_is_none { channel_count self.now ≤ channel → result ≡ Err refusal.NotReady }
        ensures refuses_one_that_listens { (address : SocketAddr) → address_of self.now channel ≡ Some address
            → result ≡ Err refusal.NotReady }
    {
        let Some(channel) = self.channels.get(channel) else {
            return Err(Refusal::NotReady);
        };
        if channel.bound.is_some() {
            return Err(Refusal::NotReady);
        }
        let Ok(stream) = TcpStream::connect(rt, address) else {
            return Err(Refusal::Io);
        };
        channel.access.connections.follow(rt, stream);
        Ok(())
    }

    /// Shuts the connection of a channel, where it has one. A channel that listens goes on with the next connection.
    pub fn hang_up<R: Wait>(&self, rt: &R, channel: usize) {
        if let Some(channel) = self.channels.get(channel) {
            channel.access.connections.hang_up(rt);
        }
    }

    /// Where a channel listens; none where it makes its connections itself, or there is none of this number.
    pub fn address(&self, channel: usize) -> Option<SocketAddr>
        ensures { result ≡ address_of self.now channel }
    {
        match self.channels.get(channel) {
            None => None,
            Some(channel) => channel.bound,
        }
    }

    // Starts a channel whose end was loaded.
    fn start_loaded<R>(
        &mut self,
        rt: R,
        alloc: Global,
        end: NodeLink<K, S>,
        table: T,
        address: Option<SocketAddr>,
    ) -> Result<(), Refusal>
    where
        R: Net<Stream = W> + Threads + Wait + Copy + Send + 'static,
        R::Listener: Send + 'static,
        ensures settings_stay { self.new.common ≡ self.old.common }
        ensures adds_one { OnOk result (channel_count self.new ≡ channel_count self.old + 1) }
    {
        let (listener, bound) = bind_if::<R::Listener, R>(&rt, address)?;
        self.start(rt, alloc, end, table, listener, bound, None)
    }

    // Starts channels whose ends were loaded.
    fn start_all<R>(
        &mut self,
        rt: R,
        alloc: Global,
        loaded: Vec<Loaded<K, S, T>>,
    ) -> Result<(), Refusal>
    where
        R: Net<Stream = W> + Threads + Wait + Copy + Send + 'static,
        R::Listener: Send + 'static,
        ensures settings_stay { self.new.common ≡ self.old.common }
        ensures adds_all { OnOk result (channel_count self.new ≡ channel_count self.old + length loaded.items) }
    {
        for one in loaded {
            let Loaded {
                end,
                table,
                address,
            } = one;
            self.start_loaded(rt, alloc, end, table, address)?;
        }
        Ok(())
    }

    /// A node that starts again with the channels that these stores have a record of, in this order: each link comes
    /// back from its record without a connection, the book is rebuilt from all of them, and each channel listens where
    /// it is told to, or waits for `reconnect`. The block height and the payments that are waited for have to be told
    /// to the book again. Takes memory, and three threads a channel.
    ///
    /// Errors: 40 where a store has no record; those of the stores, and 70 or 71 where a record can't be loaded; 63
    /// where an address can't be bound; 60 where there is no memory or no thread. After each no thread runs.
    pub fn restore<R>(
        rt: R,
        alloc: Global,
        onion: O,
        policy: Policy,
        greeting: Greeting,
        stored: Vec<Stored<K, S, T>>,
    ) -> Result<Node<K, S, O, H, T, W>, Refusal>
    where
        R: Net<Stream = W> + Threads + Wait + Copy + Send + 'static,
        R::Listener: Send + 'static,
        ensures asks_by_the_policy { IfOk result (λ n. policy_of n ≡ policy) }
        ensures greets_so { IfOk result (λ n. greeting_of n ≡ greeting) }
        ensures begins_with_all_channels { IfOk result (λ n. BeginsWithAll S.store_view stored.items (begun_of n)) }
        ensures has_all_channels { IfOk result (λ n. channel_count n ≡ length stored.items) }
    {
        let monitor = Monitor::new(alloc)?;
        let loaded = load_all(alloc, &monitor, stored)?;
        let book = book_of(alloc, loaded.as_slice())?;
        let mut node: Node<K, S, O, H, T, W> = Node::with_book(
            alloc, onion, policy, greeting, book, monitor,
        )?;
        match node.start_all(rt, alloc, loaded) {
            Ok(()) => Ok(node),
            Err(refusal) => {
                node.stop(rt);
                Err(refusal)
            }
        }
    }

    /// Orders a channel's link to do this, as `ask` does, without a ticket. A notice tells where the link refuses it.
    /// Takes no memory.
    pub fn order<R: Wait>(&self, rt: &R, channel: usize, command: Command) -> Result<(), Command>
        ensures hands_back { IfErr result (λ back. back ≡ command) }
        ensures refuses_where_there_is_none { channel_count self.now ≤ channel → result ≡ Err command }
    {
        match self.ask(rt, channel, command) {
            Ok(_) => Ok(()),
            Err(back) => Err(back),
        }
    }

    /// Decides the HTLC that a hook of this channel has held by its event of this number, by what is said of it now,
    /// and answers what is done about it: as the book would decide it now, had the hooks said so. The channel's link
    /// takes that like any decision of the book. Takes memory.
    ///
    /// Errors: 40 where there is no such channel, or its opening isn't signed; where no HTLC is held by this number, or
    /// the channel hasn't taken the hold yet; where it is being resumed, or is to be held again; 60. Either changes
    /// nothing.
    pub fn resume<R: Wait>(
        &self,
        rt: &R,
        alloc: Global,
        channel: usize,
        number: u64,
        verdict: Verdict,
    ) -> Result<Mark, Refusal>
        ensures refuses_where_there_is_none { channel_count self.now ≤ channel → result ≡ Err refusal.NotReady }
    {
        let Some(held) = self.channels.get(channel) else {
            return Err(Refusal::NotReady);
        };
        let Some(id) = held.access.wakeup.id.get() else {
            return Err(Refusal::NotReady);
        };
        let answer = self
            .common
            .book
            .kept
            .lock(rt)
            .resume(alloc, &self.common.onion, *id, number, verdict);
        if let Ok(mark) = &answer {
            self.common.notices.monitor.tally.decide(mark);
        }
        held.access.wakeup.wakeup.ring();
        answer
    }

    /// What the node's channels hold, in the order of `Book::held`, each with its channel's number. A program looks at
    /// it after `restore`, and resumes each, at the latest before it times out: the node itself lets it wait. Takes
    /// memory.
    ///
    /// Error: 60 where there is none.
    pub fn held<R: Wait>(&self, rt: &R, alloc: Global) -> Result<Vec<(usize, HeldHtlc)>, Refusal> {
        let ids = self.ids(alloc)?;
        let held = self.common.book.kept.lock(rt).held(alloc)?;
        Ok(numbered(alloc, ids.as_slice(), held)?)
    }

    // Which channels they are, each once both have signed its opening, in their order.
    fn ids(&self, alloc: Global) -> Result<Vec<Option<ChannelId>>, AllocError>
        ensures are_of_all { IfOk result (λ ids. length ids.items ≡ channel_count self.now) }
    {
        let mut ids = Vec::new(alloc);
        for channel in &self.channels {
            ids.push(channel.access.wakeup.id.get().copied())?;
        }
        Ok(ids)
    }

    /// Registers a hook, which is called on each of a channel's events from then on. A full relay, or a channel that
    /// there isn't, hands it back. Takes no memory.
    pub fn register_hook<R: Wait>(&self, rt: &R, channel: usize, hook: H) -> Result<(), H>
        ensures hands_back { IfErr result (λ back. back ≡ hook) }
        ensures refuses_where_there_is_none { channel_count self.now ≤ channel → result ≡ Err hook }
    {
        match self.channels.get(channel) {
            None => Err(hook),
            Some(channel) => channel.register_hook(rt, hook),
        }
    }

    /// Orders a channel's link to shut down by this script of at most 65,499 bytes (BOLT 2, "Closing Initiation:
    /// `shutdown`"). A full relay, or a channel that there isn't, hands the command back.
    pub fn close_channel<R: Wait>(
        &self,
        rt: &R,
        channel: usize,
        script: Bytes,
    ) -> Result<(), Command>
        ensures hands_back { IfErr result (λ back. back ≡ command.Shutdown script) }
    {
        self.order(rt, channel, Command::Shutdown(script))
    }

    // Says that the node stops, and shuts its connections.
    fn halt<R>(&self, rt: &R)
    where
        R: Net<Stream = W> + Wait,
    {
        self.stopping.store(1, Ordering::SeqCst);
        for channel in &self.channels {
            channel.stop(rt);
        }
    }

    /// Stops the node: shuts the connections, and joins the readers, then each channel's worker and its dispatcher,
    /// once these have served what was put before.
    pub fn stop<R>(self, rt: R)
    where
        R: Net<Stream = W> + Threads + Wait + Copy + Send + 'static,
    {
        self.halt(&rt);
        for channel in self.into_channels() {
            drop(channel.end(&rt));
        }
    }

    /// Stops the node, and gives the stores of its channels back, in their order. Takes memory. Error: 60 where there
    /// is none; the node has stopped then, too.
    pub fn into_stores<R>(self, rt: R, alloc: Global) -> Result<Vec<S>, Refusal>
    where
        R: Net<Stream = W> + Threads + Wait + Copy + Send + 'static,
        ensures gives_all { IfOk result (λ stores. length stores.items ≡ channel_count self) }
        ensures fails_for_memory_alone { IfErr result (λ e. e ≡ refusal.Memory) }
    {
        self.halt(&rt);
        end_all(&rt, alloc, self.into_channels())
    }
}
