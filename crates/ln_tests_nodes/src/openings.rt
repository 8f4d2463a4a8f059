//! An opening whose connection is lost before it is signed, over loopback (each wait is bounded).

use crate::client::Client;
use crate::pair::{ToyNode, fundee, funder, stopped, wait_for_use};
use ln_refusals::Refusal;
use ln_toy_channels::{KEYS, TXIDS};
use std::alloc::Global;
use std::io;
use std::net::{Net, SocketAddr, TcpListener, TcpStream};
use std::sync::Wait;
use std::thread::Threads;

// One leaves at once; another begins to open a channel, and leaves: the type of what it is answered.
fn strangers<R>(rt: &R, alloc: Global, address: SocketAddr) -> io::Result<u16>
where
    R: Net<Listener = TcpListener, Stream = TcpStream>,
{
    let [_, _, keys, _] = KEYS;
    drop(TcpStream::connect(rt, address)?);
    let mut client = Client::connect(rt, alloc, keys, TXIDS[1], address)?;
    client.take(alloc, 1)?;
    client.receive(alloc)
}

// Whether a node opens a channel with the one at this address.
fn is_opened<R>(rt: R, alloc: Global, b: &ToyNode, address: SocketAddr) -> Result<bool, Refusal>
where
    R: Net<Listener = TcpListener, Stream = TcpStream> + Threads + Wait + Copy + Send + 'static,
{
    let a = funder(rt, alloc, address)?;
    let is_usable = wait_for_use(&rt, &a, b, true);
    stopped(rt, a);
    Ok(is_usable)
}

#[test]
fn listens_behind_strangers(rt: HostRuntime) -> Result<(), Refusal> {
    let alloc = rt.alloc();
    let (b, address) = fundee(rt, alloc)?;
    let accepted = strangers(&rt, alloc, address);
    let opened = is_opened(rt, alloc, &b, address);
    stopped(rt, b);
    assert!(rt; accepted.ok() == Some(33));
    assert!(rt; opened?);
    Ok(())
}
