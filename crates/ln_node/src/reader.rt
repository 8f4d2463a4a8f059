//! The thread of a channel's connections.

use crate::notices::Notices;
use crate::socket::Socket;
use crate::wakeup::Wakeup;
use ln_msgs::Counted;
use ln_node_loops::{Item, Notice, reader_loop};
use ln_relay::Sends;
use std::alloc::{AllocError, Global};
use std::io;
use std::io::{Read, Write};
use std::net::{OpenListener, OpenStream, Shutdown};
use std::sync::atomic::{AtomicU64, Ordering};
use std::sync::{Arc, Mutex, Wait};

/// A channel's connections, as its reader and the node share them.
#[derive(Drop)]
pub(crate) struct Connections<W: Drop> {
    // The one that is open, so that it can be shut from outside.
    open: Mutex<Option<W>>,
    // The one that is read next.
    next: Mutex<Option<W>>,
    // Sounds where there is a next one, or the node stops.
    wakeup: Wakeup,
    // 1 once the node stops.
    stopping: Arc<AtomicU64>,
    notices: Arc<Notices>,
    channel: usize,
}

impl<W: Read + Write + OpenStream + Drop> Connections<W> {
    /// Those of this channel of a node: none yet, and which is read next. Takes no memory of its own.
    pub(crate) fn new(
        stopping: &Arc<AtomicU64>,
        notices: &Arc<Notices>,
        channel: usize,
        next: Option<W>,
    ) -> Result<Connections<W>, AllocError> {
        Ok(Connections {
            next: Mutex::new(next),
            stopping: Arc::try_clone(stopping)?,
            notices: Arc::try_clone(notices)?,
            open: Mutex::new(None),
            wakeup: Wakeup::new(),
            channel,
        })
    }

    fn stops(&self) -> bool {
        self.stopping.load(Ordering::SeqCst) != 0
    }

    // Shuts the one that is open.
    fn shut<R: Wait>(&self, rt: &R) {
        let open = self.open.lock(rt).take();
        if let Some(stream) = open {
            let _ = stream.shutdown(Shutdown::Both);
        }
    }

    /// Shuts the one that is open. A reader that waits for the next one looks again.
    pub(crate) fn hang_up<R: Wait>(&self, rt: &R) {
        self.shut(rt);
        self.wakeup.ring();
    }

    /// Shuts the one that is open, and has this one read next.
    pub(crate) fn follow<R: Wait>(&self, rt: &R, stream: W) {
        self.shut(rt);
        *self.next.lock(rt) = Some(stream);
        self.wakeup.ring();
    }

    // The next one.
    fn next<R: Wait>(&self, rt: &R) -> Option<W> {
        self.next.lock(rt).take()
    }

    // Keeps a connection where a stop finds it. False where the node stops already.
    //
    // A stop says first that the node stops, and then looks for the connection: so one of the two shuts it.
    fn keep<R: Wait>(&self, rt: &R, stream: &W) -> io::Result<bool> {
        let kept = stream.try_clone()?;
        *self.open.lock(rt) = Some(kept);
        if self.stops() {
            stream.shutdown(Shutdown::Both)?;
            return Ok(false);
        }
        Ok(true)
    }

    // Reads a connection to its end.
    fn read<S: Sends<Item<Socket<W>>> + Drop, R: Wait>(
        &self,
        rt: &R,
        alloc: Global,
        stream: W,
        seat: S,
    ) -> S {
        let _ = stream.set_nodelay(true);
        let Ok(writer) = stream.try_clone() else {
            return seat;
        };
        let mut socket = Counted::new(Socket::new(stream));
        let (seat, end) = reader_loop(rt, alloc, &mut socket, Socket::new(writer), seat);
        self.notices.add(rt, self.channel, Notice::Ended(end));
        seat
    }

    // Reads a connection, where the node goes on.
    fn read_one<S: Sends<Item<Socket<W>>> + Drop, R: Wait>(
        &self,
        rt: &R,
        alloc: Global,
        stream: W,
        seat: S,
    ) -> S {
        match self.keep(rt, &stream) {
            Ok(true) => self.read(rt, alloc, stream, seat),
            _ => seat,
        }
    }

    // Accepts a connection and reads it, or waits a while where none can be accepted.
    fn accept_one<S, L, R>(&self, rt: &R, alloc: Global, listener: &L, seat: S) -> S
    where
        S: Sends<Item<Socket<W>>> + Drop,
        L: OpenListener<Stream = W>,
        R: Wait,
    {
        match listener.accept() {
            Ok((stream, _)) => self.read_one(rt, alloc, stream, seat),
            Err(_) => {
                self.wakeup.wait(rt, 0);
                seat
            }
        }
    }

    // Reads the next connection, or waits a while where there is none.
    fn take_one<S: Sends<Item<Socket<W>>> + Drop, R: Wait>(
        &self,
        rt: &R,
        alloc: Global,
        seat: S,
    ) -> S {
        match self.next(rt) {
            Some(stream) => self.read_one(rt, alloc, stream, seat),
            None => {
                if !self.stops() {
                    self.wakeup.wait(rt, 0);
                }
                seat
            }
        }
    }

    /// Reads one connection after the other, until the node stops: those that come to the listener, where there is
    /// one, else those that the node has made. Gives the seat back.
    pub(crate) fn read_all<S, L, R>(&self, rt: &R, alloc: Global, listener: Option<L>, seat: S) -> S
    where
        S: Sends<Item<Socket<W>>> + Drop,
        L: OpenListener<Stream = W> + Drop,
        R: Wait,
    {
        let mut seat = seat;
        for _ in rt.forever() {
            if self.stops() {
                return seat;
            }
            seat = match &listener {
                Some(listener) => self.accept_one(rt, alloc, listener, seat),
                None => self.take_one(rt, alloc, seat),
            };
        }
        unreachable!()
    }
}
