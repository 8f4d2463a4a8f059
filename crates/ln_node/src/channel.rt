//! What a node has of a channel: its threads, and the seats that callers use.

ghost use Rattle.std.specs.Prelude.{◌≡◌, ◌++◌, ◌∷◌, [], IfOk, IfErr, OnOk, OnErr};
ghost use Rattle.ln_relay.specs.Position.{AreSeatsOfOne};
ghost use Rattle.ln_relay.specs.Seats as seats;
ghost use Rattle.ln_relay.specs.WaitSeats as waiting;
ghost use Rattle.ln_node_loops.specs.declared.item.Item.TheVariants as item;
ghost use Rattle.ln_node_loops.specs.declared.task.Task.TheVariants as task;

use crate::asking::{OrderAnswers, OrderReplies};
use crate::greeting::Greeting;
use crate::peer::Peer;
use crate::reader::Connections;
use crate::seat::{PatientSeat, WakingSeat};
use crate::signing::Signing;
use crate::socket::Socket;
use crate::start::{Reading, Stores, start_dispatcher, start_reader, start_worker};
use crate::wakeups::ChannelWakeup;
use ln_channel::{ChannelMachine, Command};
use ln_keys::ChannelKeys;
use ln_node_loops::{Item, Orders, ReadsEnds, Table, Task, Worker, WorkerLoop, put};
use ln_relay::{Receives, RecvSeat, SendSeat, Sends, WaitRecv, WaitSend, relay, waiting_relay};
use ln_watch::Watch;
use std::alloc::{AllocError, Global};
use std::io::{Read, Write};
use std::net::{Net, OpenListener, OpenStream, SocketAddr, TcpStream};
use std::sync::{Arc, Mutex, Wait};
use std::thread::{JoinHandle, Parker, Threads};

/// How many items the relay of a worker holds.
const ITEMS: usize = 256;

/// How many tasks the relay of a dispatcher holds.
const TASKS: usize = 1024;

/// A sender's seat of a worker's relay.
pub(crate) type ItemSeat<W> = WakingSeat<SendSeat<Item<Socket<W>>>>;

/// That of a reader.
pub(crate) type ReadSeat<W> = PatientSeat<ItemSeat<W>>;

/// A channel of a node, whose records are in an `S`. What its threads have is no part of it.
#[derive(Drop)]
pub(crate) struct ChannelThreads<S: Drop, H: Drop, W: Drop> {
    /// What its callers reach.
    pub(crate) access: Access<W>,
    orders: Mutex<ItemSeat<W>>,
    hooks: Mutex<WaitSend<Task<H>>>,
    /// Where it listens.
    pub(crate) bound: Option<SocketAddr>,
    reader: JoinHandle<()>,
    worker: JoinHandle<S>,
    dispatcher: JoinHandle<()>,
}

/// What a channel's callers reach beside its seats.
#[derive(Drop)]
pub(crate) struct Access<W: Drop> {
    /// Its wake-up.
    pub(crate) wakeup: Arc<ChannelWakeup>,
    /// Where its orders are answered.
    pub(crate) answers: Arc<OrderAnswers>,
    /// Its connections.
    pub(crate) connections: Arc<Connections<W>>,
    /// Its summary.
    pub(crate) watch: Arc<Watch>,
    /// What its peer tells of itself.
    pub(crate) peer: Arc<Peer>,
}

impl<W: Drop> Access<W> {
    /// Of a new channel with this link and these connections, which signs so. Takes memory.
    pub(crate) fn new<K: ChannelKeys + Drop>(
        alloc: Global,
        connections: Connections<W>,
        link: &ChannelMachine<K>,
        signing: Signing,
    ) -> Result<Access<W>, AllocError> {
        Ok(Access {
            connections: Arc::new(alloc, connections)?,
            wakeup: Arc::new(alloc, ChannelWakeup::new())?,
            answers: Arc::new(alloc, OrderAnswers::new(signing))?,
            watch: Arc::new(alloc, Watch::new(alloc, link))?,
            peer: Arc::new(alloc, Peer::new())?,
        })
    }

    /// It signs so from now on.
    pub(crate) fn set_signing(&self, signing: Signing) {
        self.answers.set_signing(signing);
        self.wakeup.wakeup.ring();
    }
}

/// What a new channel has of its node.
#[derive(Drop)]
pub(crate) struct Shares<B: Drop, W: Drop> {
    /// How its peer is greeted.
    pub(crate) greeting: Arc<Greeting>,
    /// The node's book, as its worker reaches it.
    pub(crate) book: B,
    /// And as its dispatcher does.
    pub(crate) decisions: B,
    /// Where its worker answers orders.
    pub(crate) replies: OrderReplies,
    /// What its callers reach.
    pub(crate) access: Access<W>,
}

/// What a new channel is made of.
#[derive(Drop)]
pub(crate) struct Parts<E: Drop, B: Drop, T: Drop, W: Drop, L: Drop> {
    /// The end that its worker has.
    pub(crate) end: E,
    /// What it has of its node.
    pub(crate) shares: Shares<B, W>,
    /// The table of its hooks.
    pub(crate) table: T,
    /// Where its connections come to, where they don't go out.
    pub(crate) listener: Option<L>,
    pub(crate) bound: Option<SocketAddr>,
}

// Hands a command on, unless the relay is full.
fn order<J: Drop, S: Sends<Item<J>>, R: Wait>(
    rt: &R,
    seat: &mut S,
    command: Command,
) -> Result<(), Command>
    ensures appends { OnOk result (S.put seat.new ≡ S.put seat.old ++ item.Order command ∷ []) }
    ensures hands_back { IfErr result (λ back. back ≡ command) }
    ensures changes_nothing_if_refused { OnErr result (S.put seat.new ≡ S.put seat.old) }
{
    match seat.send(rt, Item::Order(command)) {
        Ok(()) => Ok(()),
        Err(Item::Order(back)) => Err(back),
        Err(_) => unreachable!(),
    }
}

// Hands a hook on, unless the relay is full.
fn register<H: Drop, S: Sends<Task<H>>, R: Wait>(rt: &R, seat: &mut S, hook: H) -> Result<(), H>
    ensures appends { OnOk result (S.put seat.new ≡ S.put seat.old ++ task.Register hook ∷ []) }
    ensures hands_back { IfErr result (λ back. back ≡ hook) }
    ensures changes_nothing_if_refused { OnErr result (S.put seat.new ≡ S.put seat.old) }
{
    match seat.send(rt, Task::Register(hook)) {
        Ok(()) => Ok(()),
        Err(Task::Register(back)) => Err(back),
        Err(_) => unreachable!(),
    }
}

// Stops a dispatcher by this seat, and joins it.
fn stop_dispatcher<H: Drop, S: Sends<Task<H>> + Drop, R: Threads + Wait>(
    rt: &R,
    seat: S,
    dispatcher: JoinHandle<()>,
) {
    let mut seat = seat;
    put(rt, &mut seat, Task::Stop);
    dispatcher.join(rt);
}

// Stops a worker by this seat, and joins it. Gives its store back.
fn stop_worker<J: Drop, S: Sends<Item<J>> + Drop, E: Drop, R: Threads + Wait>(
    rt: &R,
    seat: S,
    worker: JoinHandle<E>,
) -> E {
    let mut seat = seat;
    put(rt, &mut seat, Item::Stop);
    worker.join(rt)
}

impl<S, H, W> ChannelThreads<S, H, W>
where
    S: Drop,
    H: Drop,
    W: Read + Write + OpenStream + Drop,
{
    ghost use Rattle.std.specs.Prelude.{◌≡◌, IfErr};

    /// Hands a command to its worker, and gives the order's number; a full relay hands it back.
    pub(crate) fn order<R: Wait>(&self, rt: &R, command: Command) -> Result<u64, Command>
        ensures hands_back { IfErr result (λ back. back ≡ command) }
    {
        let mut seat = self.orders.lock(rt);
        let put = order(rt, &mut *seat, command);
        // The seat is held until the order is counted, so orders have their numbers in the relay's order.
        self.access.answers.count(rt, put)
    }

    /// Hands a hook to its dispatcher; a full relay hands it back.
    pub(crate) fn register_hook<R: Wait>(&self, rt: &R, hook: H) -> Result<(), H>
        ensures hands_back { IfErr result (λ back. back ≡ hook) }
    {
        let mut seat = self.hooks.lock(rt);
        register(rt, &mut *seat, hook)
    }

    /// Shuts its connection, and ends an accept that waits by a connection of the node's own.
    pub(crate) fn stop<R>(&self, rt: &R)
    where
        R: Net<Stream = W> + Wait,
    {
        self.access.connections.hang_up(rt);
        if let Some(bound) = self.bound {
            let _ = TcpStream::connect(rt, bound);
        }
    }

    /// Joins its threads, the reader first: it is shut. Gives its store back.
    pub(crate) fn end<R: Threads + Wait>(self, rt: &R) -> S {
        let ChannelThreads {
            access: _,
            orders,
            hooks,
            bound: _,
            reader,
            worker,
            dispatcher,
        } = self;
        reader.join(rt);
        let store = stop_worker(rt, orders.into_inner(), worker);
        stop_dispatcher(rt, hooks.into_inner(), dispatcher);
        store
    }
}

// A value beside another one, where there is that; else it is let go. Generic in both: it doesn't matter how deep they
// are.
fn with<T: Drop, U: Drop>(kept: T, made: Option<U>) -> Option<(T, U)> {
    match made {
        Some(made) => Some((kept, made)),
        None => {
            drop(kept);
            None
        }
    }
}

// The seats of a new channel's relays.
#[derive(Drop)]
struct Seats<H: Drop, W: Drop> {
    first: ReadSeat<W>,
    orders: ItemSeat<W>,
    items: RecvSeat<Item<Socket<W>>>,
    events: WaitSend<Task<H>>,
    hooks: WaitSend<Task<H>>,
    tasks: WaitRecv<Task<H>>,
}

// New relays, whose senders wake the channel's worker. Nothing where there is no memory.
fn new_seats<H: Drop, W: Drop>(
    alloc: Global,
    wakeup: &Arc<ChannelWakeup>,
) -> Result<Seats<H, W>, AllocError>
    ensures of_one_worker { IfOk result (λ s. AreSeatsOfOne (seats.sender_position s.first.seat.seat)
        (seats.sender_position s.orders.seat) (seats.receiver_position s.items)) }
    ensures of_one_dispatcher { IfOk result (λ s. AreSeatsOfOne (waiting.sender_position s.events)
        (waiting.sender_position s.hooks) (waiting.receiver_position s.tasks)) }
    ensures nothing_was_put { IfOk result (λ s. (seats.put s.first.seat.seat ≡ []) × (seats.put s.orders.seat ≡ [])
        × (waiting.put s.events ≡ []) × (waiting.put s.hooks ≡ [])) }
    ensures nothing_was_taken { IfOk result (λ s. (seats.taken s.items ≡ []) × (waiting.taken s.tasks ≡ [])) }
{
    let (readers, ours) = (Arc::try_clone(wakeup)?, Arc::try_clone(wakeup)?);
    let (events, hooks, tasks) = waiting_relay::<Task<H>>(alloc, TASKS)?;
    let (first, orders, items) = relay::<Item<Socket<W>>>(alloc, ITEMS)?;
    Ok(Seats {
        first: PatientSeat {
            seat: WakingSeat {
                seat: first,
                channel: readers,
            },
            parker: Parker::new(),
        },
        orders: WakingSeat {
            seat: orders,
            channel: ours,
        },
        items,
        events,
        hooks,
        tasks,
    })
}

// Starts the threads of an end and of its connections. Where there is none for these the other one is stopped, by this
// seat. Generic in all that they have: it doesn't matter how deep it is.
fn start_ends<E, W, I, H, V, B, A, S, L, O, R>(
    rt: R,
    alloc: Global,
    greeting: Arc<Greeting>,
    work: WorkerLoop<E, Socket<W>, I, V, B, A>,
    reading: Reading<S, L, W>,
    orders: O,
) -> Option<(O, JoinHandle<E::Store>, JoinHandle<()>)>
where
    E: Stores + Drop + Send + 'static,
    E::Store: Drop + Send + 'static,
    W: Read + Write + OpenStream + Drop + Send + 'static,
    I: Receives<Item<Socket<W>>> + Drop + Send + 'static,
    H: Drop + Send + 'static,
    V: Sends<Task<H>> + Drop + Send + 'static,
    B: ReadsEnds<E> + Drop + Send + 'static,
    A: Orders + Drop + Send + 'static,
    S: Sends<Item<Socket<W>>> + Drop + Send + 'static,
    L: OpenListener<Stream = W> + Drop + Send + 'static,
    O: Sends<Item<Socket<W>>> + Drop,
    R: Threads + Wait + Copy + Send + 'static,
{
    let worker = start_worker::<E, Socket<W>, I, H, V, B, A, R>(rt, alloc, greeting, work)?;
    let Some(reader) = start_reader::<S, L, W, R>(rt, alloc, reading) else {
        drop(stop_worker::<Socket<W>, O, E::Store, R>(&rt, orders, worker));
        return None;
    };
    Some((orders, worker, reader))
}

/// Starts the threads of a channel: its dispatcher, its worker, its reader. Takes memory for its relays. Nothing where
/// there is no memory, or no thread can be made.
pub(crate) fn start<E, B, H, T, W, L, R>(
    rt: R,
    alloc: Global,
    parts: Parts<E, B, T, W, L>,
) -> Result<ChannelThreads<E::Store, H, W>, AllocError>
where
    E: Stores + Drop + Send + 'static,
    E::Store: Drop + Send + 'static,
    B: ReadsEnds<E> + Drop + Send + 'static,
    H: Drop + Send + 'static,
    T: Table<H> + Drop + Send + 'static,
    W: Read + Write + OpenStream + Drop + Send + 'static,
    L: OpenListener<Stream = W> + Drop + Send + 'static,
    R: Threads + Wait + Copy + Send + 'static,
    ensures listens_there { IfOk result (λ c. c.bound ≡ parts.bound) }
{
    let connections = Arc::try_clone(&parts.shares.access.connections)?;
    let Seats {
        first,
        orders,
        items,
        events,
        hooks,
        tasks,
    } = new_seats::<H, W>(alloc, &parts.shares.access.wakeup)?;
    let Parts {
        end,
        shares,
        table,
        listener,
        bound,
    } = parts;
    let Shares {
        greeting,
        book,
        decisions,
        replies,
        access,
    } = shares;
    let reading = Reading {
        listener,
        seat: first,
        connections,
    };
    let work = WorkerLoop {
        worker: Worker::new(end),
        items,
        tasks: events,
        book,
        orders: replies,
    };
    let made = start_dispatcher::<H, WaitRecv<Task<H>>, T, B, R>(
        rt, alloc, tasks, table, decisions,
    );
    let Some((work, dispatcher)) = with(work, made) else {
        return Err(AllocError);
    };
    let ends = start_ends::<
        E,
        W,
        RecvSeat<Item<Socket<W>>>,
        H,
        WaitSend<Task<H>>,
        B,
        OrderReplies,
        ReadSeat<W>,
        L,
        ItemSeat<W>,
        R,
    >(rt, alloc, greeting, work, reading, orders);
    let Some((orders, worker, reader)) = ends else {
        stop_dispatcher(&rt, hooks, dispatcher);
        return Err(AllocError);
    };
    Ok(ChannelThreads {
        access,
        orders: Mutex::new(orders),
        hooks: Mutex::new(hooks),
        bound,
        reader,
        worker,
        dispatcher,
    })
}
