//! The proxy between two nodes: a thread that hands on what each sends, message by message, and may lose one.

use crate::gauge::is_due;
use ln_refusals::Refusal;
use std::alloc::Global;
use std::io::{Read, Write};
use std::net::{Net, OpenListener, OpenStream, Shutdown, SocketAddr, TcpListener, TcpStream};
use std::sync::atomic::{AtomicU64, Ordering};
use std::sync::{Arc, Mutex, Wait};
use std::thread::{JoinHandle, Threads};
use std::{io, thread};

/// A proxy between two nodes, as its thread and others share it.
#[derive(Drop)]
pub struct Proxy {
    /// Where its connections go.
    pub target: Mutex<SocketAddr>,
    // The message of this number from now on is lost with its connection, to the side that listens, and to the one
    // that connects; 0 where none is.
    forth: AtomicU64,
    back: AtomicU64,
    // How many signatures were handed on to the side that listens, and to the one that connects.
    signed_forth: AtomicU64,
    signed_back: AtomicU64,
    /// How many of its connections were made.
    pub made: AtomicU64,
    /// How many are over.
    pub over: AtomicU64,
    /// 1 where none is to be made.
    pub parted: AtomicU64,
    stopping: AtomicU64,
    // Held by who does what no loss may come between.
    gate: Arc<Mutex<()>>,
}

/// A proxy with its thread, and where it begins.
#[derive(Drop)]
pub struct OpenProxy {
    pub proxy: Arc<Proxy>,
    pub begin: SocketAddr,
    thread: JoinHandle<()>,
}

/// An address of this machine whose port the system chooses.
pub fn loopback() -> SocketAddr {
    SocketAddr::from(([127, 0, 0, 1], 0))
}

// The next message with its length (BOLT 8 has it encrypted, these nodes don't).
fn read_frame(alloc: Global, from: &mut TcpStream) -> io::Result<Vec<u8>> {
    let mut length = [0u8; 2];
    from.read_exact(&mut length)?;
    let mut frame = vec![in alloc; 0u8; usize::from(u16::from_be_bytes(length)) + 2]?;
    frame[..2].copy_from_slice(&length);
    from.read_exact(&mut frame[2..])?;
    Ok(frame)
}

// Whether a message with its length is `commitment_signed`.
fn is_signature(frame: &[u8]) -> bool {
    matches!(frame, [_, _, 0, 132, ..])
}

impl Proxy {
    /// The messages of one direction that are left until one is lost.
    pub fn left(&self, forth: bool) -> &AtomicU64 {
        if forth { &self.forth } else { &self.back }
    }

    /// How many signatures of one direction were handed on.
    pub fn signed(&self, forth: bool) -> &AtomicU64 {
        if forth {
            &self.signed_forth
        } else {
            &self.signed_back
        }
    }

    // Whether a message is lost now.
    fn loses<R: Wait>(&self, rt: &R, forth: bool) -> bool {
        let _held = self.gate.lock(rt);
        is_due(self.left(forth))
    }

    // Hands on messages, until one can't be read or written, or is lost.
    fn hand_on<R: Wait>(
        &self,
        rt: &R,
        alloc: Global,
        from: &mut TcpStream,
        to: &mut TcpStream,
        forth: bool,
    ) {
        for _ in rt.forever() {
            let Ok(frame) = read_frame(alloc, from) else {
                return;
            };
            if self.loses(rt, forth) || to.write_all(frame.as_slice()).is_err() {
                return;
            }
            if is_signature(frame.as_slice()) {
                self.signed(forth).fetch_add(1, Ordering::SeqCst);
            }
        }
        unreachable!()
    }

    // The same, and then nothing is handed on in either direction.
    fn serve<R: Wait>(&self, rt: &R, alloc: Global, from: TcpStream, to: TcpStream, forth: bool) {
        let (mut from, mut to) = (from, to);
        self.hand_on(rt, alloc, &mut from, &mut to, forth);
        let _ = from.shutdown(Shutdown::Both);
        let _ = to.shutdown(Shutdown::Both);
    }

    /// Whether a connection is to be made: all that were made are over.
    pub fn is_cut(&self) -> bool {
        self.parted.load(Ordering::SeqCst) == 0
            && self.over.load(Ordering::SeqCst) == self.made.load(Ordering::SeqCst)
    }
}

// Hands on what comes and goes by a connection, to its end.
fn carry<R>(rt: R, alloc: Global, proxy: &Arc<Proxy>, near: TcpStream) -> io::Result<()>
where
    R: Net<Listener = TcpListener, Stream = TcpStream> + Threads + Wait + Copy + Send + 'static,
{
    let target = *proxy.target.lock(&rt);
    let far = TcpStream::connect(&rt, target)?;
    near.set_nodelay(true)?;
    far.set_nodelay(true)?;
    let (from, to) = (far.try_clone()?, near.try_clone()?);
    let theirs = Arc::try_clone(proxy)?;
    let back = thread::spawn(&rt, move || theirs.serve(&rt, alloc, from, to, false))?;
    proxy.serve(&rt, alloc, near, far, true);
    back.join(&rt);
    Ok(())
}

// Carries one connection after the other, until it stops.
fn carry_all<R>(rt: R, alloc: Global, proxy: &Arc<Proxy>, listener: &TcpListener)
where
    R: Net<Listener = TcpListener, Stream = TcpStream> + Threads + Wait + Copy + Send + 'static,
{
    for _ in rt.forever() {
        let accepted = listener.accept();
        if proxy.stopping.load(Ordering::SeqCst) != 0 {
            return;
        }
        if let Ok((near, _)) = accepted {
            let _ = carry(rt, alloc, proxy, near);
            proxy.over.fetch_add(1, Ordering::SeqCst);
        }
    }
    unreachable!()
}

impl OpenProxy {
    /// A proxy that leads there, and loses nothing as long as this gate is held. 63 where it can't listen, 60 where
    /// there is no memory or no thread.
    pub fn new<R>(
        rt: R,
        alloc: Global,
        target: SocketAddr,
        gate: &Arc<Mutex<()>>,
    ) -> Result<OpenProxy, Refusal>
    where
        R: Net<Listener = TcpListener, Stream = TcpStream> + Threads + Wait + Copy + Send + 'static,
    {
        let Ok(listener) = TcpListener::bind(&rt, loopback()) else {
            return Err(Refusal::Io);
        };
        let Ok(begin) = listener.local_addr() else {
            return Err(Refusal::Io);
        };
        let proxy = Proxy {
            target: Mutex::new(target),
            forth: AtomicU64::new(0),
            back: AtomicU64::new(0),
            signed_forth: AtomicU64::new(0),
            signed_back: AtomicU64::new(0),
            made: AtomicU64::new(0),
            over: AtomicU64::new(0),
            parted: AtomicU64::new(0),
            stopping: AtomicU64::new(0),
            gate: Arc::try_clone(gate)?,
        };
        let proxy = Arc::new(alloc, proxy)?;
        let theirs = Arc::try_clone(&proxy)?;
        match thread::spawn(&rt, move || carry_all(rt, alloc, &theirs, &listener)) {
            Ok(thread) => Ok(OpenProxy {
                proxy,
                begin,
                thread,
            }),
            Err(_) => Err(Refusal::Memory),
        }
    }

    /// Ends its thread, once the nodes that it connects have stopped.
    pub fn stop<R>(self, rt: &R)
    where
        R: Net<Listener = TcpListener, Stream = TcpStream> + Threads + Wait,
    {
        let OpenProxy {
            proxy,
            begin,
            thread,
        } = self;
        proxy.stopping.store(1, Ordering::SeqCst);
        let _ = TcpStream::connect(rt, begin);
        thread.join(rt);
    }
}
