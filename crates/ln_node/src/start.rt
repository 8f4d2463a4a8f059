//! The threads of a channel, each started by a function of its own that is generic over what it carries. What a thread
//! has is let go as it ends: who joins it knows nothing of its parts.

ghost use Rattle.std.specs.Prelude.{◌≡◌};

use crate::greeting::Greeting;
use crate::reader::Connections;
use crate::socket::Socket;
use ln_node_loops::{
    Books, Closes, End, Item, Orders, ReadsEnds, Table, Task, WorkerLoop, dispatch_loop,
    worker_loop,
};
use ln_relay::{Receives, Sends, Waits};
use std::alloc::Global;
use std::io::{Read, Write};
use std::net::{OpenListener, OpenStream};
use std::sync::{Arc, Wait};
use std::thread;
use std::thread::{JoinHandle, Threads};

/// An end whose store outlasts it.
pub(crate) trait Stores: End {
    /// The kind of store.
    type Store;

    /// Its store.
    ghost store: { Self → Self.Store };

    /// Gives its store back.
    fn into_store(self) -> Self::Store
        ensures { result ≡ store self };
}

// The store of a worker that has ended: its end's.
fn store_of<E, W, I, T, B, A>(work: WorkerLoop<E, W, I, T, B, A>) -> E::Store
where
    E: Stores + Drop,
    W: Closes + Drop,
    I: Drop,
    T: Drop,
    B: Drop,
    A: Drop,
    ensures { result ≡ E.store work.worker.end }
{
    let WorkerLoop {
        worker,
        items: _,
        tasks: _,
        book: _,
        orders: _,
    } = work;
    worker.end.into_store()
}

/// What the thread of a channel's connections has.
#[derive(Drop)]
pub(crate) struct Reading<S: Drop, L: Drop, W: Drop> {
    /// Where connections come to, where they don't go out.
    pub(crate) listener: Option<L>,
    /// Where it hands on what it reads.
    pub(crate) seat: S,
    /// What it reads.
    pub(crate) connections: Arc<Connections<W>>,
}

/// Starts the thread of a channel's connections.
pub(crate) fn start_reader<S, L, W, R>(
    rt: R,
    alloc: Global,
    reading: Reading<S, L, W>,
) -> Option<JoinHandle<()>>
where
    S: Sends<Item<Socket<W>>> + Drop + Send + 'static,
    L: OpenListener<Stream = W> + Drop + Send + 'static,
    W: Read + Write + OpenStream + Drop + Send + 'static,
    R: Threads + Wait + Copy + Send + 'static,
{
    let Reading {
        listener,
        seat,
        connections,
    } = reading;
    thread::spawn(
        &rt,
        move || drop(connections.read_all(&rt, alloc, listener, seat)),
    )
    .ok()
}

/// Starts the thread of a channel's end, which gives the end's store back.
pub(crate) fn start_worker<E, W, I, H, T, B, A, R>(
    rt: R,
    alloc: Global,
    greeting: Arc<Greeting>,
    work: WorkerLoop<E, W, I, T, B, A>,
) -> Option<JoinHandle<E::Store>>
where
    E: Stores + Drop + Send + 'static,
    E::Store: Drop + Send + 'static,
    W: Closes + Drop + Send + 'static,
    W::Closed: Send + 'static,
    I: Receives<Item<W>> + Drop + Send + 'static,
    H: Drop + Send + 'static,
    T: Sends<Task<H>> + Drop + Send + 'static,
    B: ReadsEnds<E> + Drop + Send + 'static,
    A: Orders + Drop + Send + 'static,
    R: Threads + Wait + Copy + Send + 'static,
{
    thread::spawn(&rt, move || {
        let done = worker_loop::<E, W, I, H, T, B, A, R>(
            &rt,
            alloc,
            &greeting.own,
            &greeting.peer,
            work,
        );
        store_of(done)
    })
    .ok()
}

/// Starts the thread of a channel's hooks.
pub(crate) fn start_dispatcher<H, S, T, B, R>(
    rt: R,
    alloc: Global,
    seat: S,
    table: T,
    book: B,
) -> Option<JoinHandle<()>>
where
    H: Drop + Send + 'static,
    S: Waits<Task<H>> + Drop + Send + 'static,
    T: Table<H> + Drop + Send + 'static,
    B: Books + Drop + Send + 'static,
    R: Threads + Wait + Copy + Send + 'static,
{
    thread::spawn(
        &rt,
        move || drop(dispatch_loop::<H, S, T, B, R>(&rt, alloc, seat, table, book)),
    )
    .ok()
}
