//! A peer of a node, driven step by step by a test.

use crate::frames::init_frame;
use ln_bytes::Bytes;
use ln_channel::{Command, FitSpec};
use ln_keys::ToyKeys;
use ln_link::Link;
use ln_msgs::{Counted, Incoming, Init, Message, Records, decode};
use ln_node::{Item, SavedLink, Socket, worker_turn};
use ln_refusals::Refusal;
use ln_store::MemoryStore;
use ln_toy_channels::fit_spec;
use std::alloc::Global;
use std::io;
use std::io::{Read, Write};
use std::net::{Net, Shutdown, SocketAddr, TcpListener, TcpStream};
use std::time::Duration;

/// A funder's end on a connection.
#[derive(Drop)]
pub(crate) struct Client {
    end: Box<SavedLink<ToyKeys, MemoryStore>>,
    line: Counted<Socket>,
    stream: TcpStream,
}

/// What a test that can't go on ends with.
pub(crate) fn failed() -> io::Error {
    io::Error::from(io::ErrorKind::Other)
}

fn boxed<T: Drop>(alloc: Global, value: T) -> io::Result<Box<T>> {
    Ok(Box::new(alloc, value)?)
}

fn spec_of(alloc: Global, txid: [u8; 32]) -> io::Result<FitSpec> {
    match fit_spec(alloc, txid) {
        Ok(spec) => Ok(spec),
        Err(_) => Err(failed()),
    }
}

fn new_end(
    alloc: Global,
    keys: ToyKeys,
    txid: [u8; 32],
) -> io::Result<Box<SavedLink<ToyKeys, MemoryStore>>> {
    let spec = spec_of(alloc, txid)?;
    boxed(
        alloc,
        SavedLink {
            link: Link::funder(keys, spec),
            store: MemoryStore::new(alloc),
        },
    )
}

// A connection whose reads wait for twenty seconds.
fn connected<R>(rt: &R, address: SocketAddr) -> io::Result<TcpStream>
where
    R: Net<Listener = TcpListener, Stream = TcpStream>,
{
    let stream = TcpStream::connect(rt, address)?;
    stream.set_read_timeout(Some(Duration::from_secs(20)))?;
    Ok(stream)
}

fn init(alloc: Global) -> Message {
    Message::Init(Init {
        global_features: Bytes::empty(alloc),
        features: Bytes::empty(alloc),
        records: Records::empty(alloc),
    })
}

impl Client {
    /// Connects with a node, and begins to open a channel. In a box: what owns it across `?` doesn't pay for its depth.
    pub(crate) fn connect<R>(
        rt: &R,
        alloc: Global,
        keys: ToyKeys,
        txid: [u8; 32],
        address: SocketAddr,
    ) -> io::Result<Box<Client>>
    where
        R: Net<Listener = TcpListener, Stream = TcpStream>,
    {
        let stream = connected(rt, address)?;
        let line = Counted::new(Socket::new(stream.try_clone()?));
        let end = new_end(alloc, keys, txid)?;
        let mut client = boxed(alloc, Client { end, line, stream })?;
        client.greet(alloc)?;
        Ok(client)
    }

    // Has the end take a turn, and sends what comes of it.
    fn turn(&mut self, alloc: Global, item: Item<&Message>) -> io::Result<()> {
        let (outputs, answer) = worker_turn(alloc, &mut *self.end, item, &mut self.line);
        drop(outputs);
        match answer {
            Ok(()) => Ok(()),
            Err(_) => Err(failed()),
        }
    }

    fn greet(&mut self, alloc: Global) -> io::Result<()> {
        let own_init = boxed(alloc, init(alloc))?;
        self.turn(alloc, Item::Joined(&*own_init))
    }

    // The bytes of the next message.
    fn read(&mut self, alloc: Global) -> io::Result<Vec<u8>> {
        let mut length = [0u8; 2];
        self.stream.read_exact(&mut length)?;
        let mut bytes = vec![in alloc; 0u8; usize::from(u16::from_be_bytes(length))]?;
        self.stream.read_exact(&mut bytes)?;
        Ok(bytes)
    }

    /// The type of the next message, which the end isn't told of.
    pub(crate) fn receive(&mut self, alloc: Global) -> io::Result<u16> {
        let bytes = self.read(alloc)?;
        match bytes.as_slice() {
            [high, low, ..] => Ok(u16::from_be_bytes([*high, *low])),
            _ => Err(failed()),
        }
    }

    /// Takes so many messages, and sends what the end answers to each.
    pub(crate) fn take(&mut self, alloc: Global, count: u8) -> io::Result<()> {
        for _ in 0..count {
            let bytes = self.read(alloc)?;
            let done = match decode(alloc, bytes.as_slice()) {
                Ok(Incoming::Known(message)) => self.turn(alloc, Item::Read(message)),
                other => {
                    drop(other);
                    Err(failed())
                }
            };
            done?;
        }
        Ok(())
    }

    /// Has the end do this, and sends what comes of it.
    pub(crate) fn order(&mut self, alloc: Global, command: Command) -> io::Result<()> {
        self.turn(alloc, Item::Order(command))
    }

    /// Leaves the connection, makes another, and greets there. The end isn't told.
    pub(crate) fn connect_again<R>(&mut self, rt: &R, address: SocketAddr) -> io::Result<()>
    where
        R: Net<Listener = TcpListener, Stream = TcpStream>,
    {
        self.stream.shutdown(Shutdown::Both)?;
        self.stream = connected(rt, address)?;
        self.send(&init_frame())
    }

    /// Sends these bytes.
    pub(crate) fn send(&mut self, bytes: &[u8]) -> io::Result<()> {
        self.stream.write_all(bytes)
    }
}
