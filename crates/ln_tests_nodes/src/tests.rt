//! Hooks and workers beside each other, over loopback (each wait is bounded).

use crate::client::{Client, failed};
use crate::frames::ping_frame;
use crate::pair::{Driven, KeyedNode, listen, register, stopped};
use ln_channel::Command;
use ln_hooks::{Call, ChannelEvent, Hook, Verdict};
use ln_keys::{ChannelKeys, Signed, ToyKeys, ToyOnion, View};
use ln_node::{Greeting, Node, Notice};
use ln_refusals::Refusal;
use ln_toy_channels::{KEYS, POLICY, SHORT_IDS, TXIDS};
use std::alloc::Global;
use std::net::{Net, SocketAddr, TcpListener, TcpStream};
use std::sync::atomic::{AtomicU64, Ordering};
use std::sync::{Arc, Wait};
use std::thread::Threads;
use std::time::Duration;
use std::{io, thread};

/// How often a thread tries again, until it gives up.
const TURNS: u64 = 1_000_000;

/// By which two threads meet, and how many of them have seen the other.
#[derive(Drop)]
struct Flags {
    first: AtomicU64,
    second: AtomicU64,
    seen: AtomicU64,
}

// Waits until a count is so high. False where that doesn't come about.
fn wait_until(count: &AtomicU64, wanted: u64) -> bool {
    for _ in 0..TURNS {
        if count.load(Ordering::SeqCst) >= wanted {
            return true;
        }
        thread::yield_now();
    }
    false
}

impl Flags {
    fn new() -> Flags {
        Flags {
            first: AtomicU64::new(0),
            second: AtomicU64::new(0),
            seen: AtomicU64::new(0),
        }
    }

    // One of both sets its flag, waits for the other's, and tells that it saw it.
    fn meet(&self, is_first: bool) {
        let (own, other) = if is_first {
            (&self.first, &self.second)
        } else {
            (&self.second, &self.first)
        };
        own.store(1, Ordering::SeqCst);
        if wait_until(other, 1) {
            self.seen.fetch_add(1, Ordering::SeqCst);
        }
    }
}

// A hook that meets another thread.
fn meeter(alloc: Global, flags: &Arc<Flags>, is_first: bool) -> io::Result<Hook> {
    let flags = Arc::try_clone(flags)?;
    let call: Call = Box::new(alloc, move |_event: &ChannelEvent| -> Verdict {
        flags.meet(is_first);
        Verdict::Continue
    })?;
    Ok(Hook::new(call))
}

// A node beside where it listens for two channels. Generic in the node, however deep that is.
fn both<T: Drop>(
    node: T,
    one: Result<SocketAddr, Refusal>,
    two: Result<SocketAddr, Refusal>,
) -> io::Result<(T, [SocketAddr; 2])> {
    match (one, two) {
        (Ok(one), Ok(two)) => Ok((node, [one, two])),
        _ => Err(failed()),
    }
}

// A node that listens twice, and where.
fn listens<K, R>(rt: R, alloc: Global, keys: [K; 2]) -> io::Result<(KeyedNode<K>, [SocketAddr; 2])>
where
    K: ChannelKeys + Drop + Send + 'static,
    R: Net<Listener = TcpListener, Stream = TcpStream> + Threads + Wait + Copy + Send + 'static,
{
    let Ok(greeting) = Greeting::usual(alloc) else {
        return Err(failed());
    };
    let Ok(mut node) = Node::new(alloc, ToyOnion, POLICY, greeting) else {
        return Err(failed());
    };
    let [first, second] = keys;
    let one = listen(rt, alloc, &mut node, first);
    let two = listen(rt, alloc, &mut node, second);
    both(node, one, two)
}

/// A node that listens twice, as a test drives it.
#[derive(Drop)]
struct Trial<'a, N: Driven, R> {
    rt: &'a R,
    alloc: Global,
    node: &'a N,
    at: [SocketAddr; 2],
}

impl<N, R> Trial<'_, N, R>
where
    N: Driven,
    R: Net<Listener = TcpListener, Stream = TcpStream> + Wait,
{
    // A client of one of its channels, which begins to open that.
    fn client(&self, txid: [u8; 32], address: SocketAddr) -> io::Result<Box<Client>> {
        let [keys, _, _, _] = KEYS;
        Client::connect(self.rt, self.alloc, keys, txid, address)
    }

    // An end of the node does this.
    fn order(&self, channel: usize, command: Command) -> io::Result<()> {
        match self.node.order(self.rt, channel, command) {
            Ok(()) => Ok(()),
            Err(command) => {
                drop(command);
                Err(failed())
            }
        }
    }

    // Opens a channel of the node with a client, up to both being ready; then the client offers an HTLC and signs, and
    // has what the node's end revokes by.
    fn offer(&self, channel: usize, client: &mut Client) -> io::Result<()> {
        let [id, _] = SHORT_IDS;
        let alloc = self.alloc;
        // init and accept_channel; then funding_signed; then channel_ready; then revoke_and_ack
        client.take(alloc, 2)?;
        client.take(alloc, 1)?;
        self.order(channel, Command::Confirm(id))?;
        client.order(alloc, Command::Confirm(id))?;
        client.take(alloc, 1)?;
        let add = Command::Add {
            amount: 5000,
            hash: [7; 32],
            expiry: 400,
            onion: [0; 1366],
            origin: None,
        };
        client.order(alloc, add)?;
        client.order(alloc, Command::Sign)?;
        client.take(alloc, 1)
    }

    // The same, and the node's end signs it too.
    fn commit(&self, channel: usize, client: &mut Client) -> io::Result<()> {
        self.offer(channel, client)?;
        self.order(channel, Command::Sign)?;
        client.take(self.alloc, 1)
    }

    // A ping comes while channel 0's hook waits: the type of what answers it, what the hook had seen by then, and
    // whether it sees the flag that is set after that.
    fn pings(&self, flags: &Flags) -> io::Result<(u16, u64, bool)> {
        let mut client = self.client(TXIDS[0], self.at[0])?;
        self.commit(0, &mut client)?;
        client.send(&ping_frame())?;
        let typ = client.receive(self.alloc)?;
        let seen = flags.seen.load(Ordering::SeqCst);
        flags.second.store(1, Ordering::SeqCst);
        Ok((typ, seen, wait_until(&flags.seen, 1)))
    }

    // The hooks of both channels are called: whether they meet.
    fn hooks_meet(&self, flags: &Flags) -> io::Result<bool> {
        let mut first = self.client(TXIDS[0], self.at[0])?;
        self.commit(0, &mut first)?;
        let mut second = self.client(TXIDS[1], self.at[1])?;
        self.commit(1, &mut second)?;
        Ok(wait_until(&flags.seen, 2))
    }

    // Both ends of the node sign: how many of them have met the other.
    fn workers_meet(&self, flags: &Flags) -> io::Result<u64> {
        let mut first = self.client(TXIDS[0], self.at[0])?;
        self.offer(0, &mut first)?;
        let mut second = self.client(TXIDS[1], self.at[1])?;
        self.offer(1, &mut second)?;
        self.order(0, Command::Sign)?;
        self.order(1, Command::Sign)?;
        first.take(self.alloc, 1)?;
        second.take(self.alloc, 1)?;
        Ok(flags.seen.load(Ordering::SeqCst))
    }

    // The failure of an HTLC is lost with its connection, and over the next one the client only greets: the types of
    // what it is told, and whether a command was refused as there is no connection.
    fn falls_silent(&self) -> io::Result<([u16; 3], bool)> {
        let mut client = self.client(TXIDS[0], self.at[0])?;
        self.commit(0, &mut client)?;
        let failure = client.receive(self.alloc)?;
        client.connect_again(self.rt, self.at[0])?;
        let greeting = client.receive(self.alloc)?;
        let next = client.receive(self.alloc)?;
        AtomicU64::new(0).park_timeout(self.rt, 0, Duration::from_millis(200));
        let notices = self.node.notices(self.rt, self.alloc);
        Ok((
            [failure, greeting, next],
            is_any_disconnected(notices.as_slice()),
        ))
    }
}

// Whether a command was refused as there is no connection.
fn is_any_disconnected(notices: &[(usize, Notice)]) -> bool {
    for (_, notice) in notices {
        if let Notice::Refused(Refusal::Disconnected) = notice {
            return true;
        }
    }
    false
}

#[test]
fn ping_beside_hook(rt: HostRuntime) -> io::Result<()> {
    let alloc = rt.alloc();
    let [_, keys, _, _] = KEYS;
    let flags = Arc::new(alloc, Flags::new())?;
    let hook = meeter(alloc, &flags, true)?;
    let (node, at) = listens(rt, alloc, [keys, keys])?;
    let registered = register(&rt, &node, 0, hook).is_ok();
    let told = Trial {
        rt: &rt,
        alloc,
        node: &node,
        at,
    }
    .pings(&flags);
    stopped(rt, node);
    assert!(rt; registered);
    assert_eq!(rt; told?, (19, 0, true));
    Ok(())
}

#[test]
fn hooks_run_beside(rt: HostRuntime) -> io::Result<()> {
    let alloc = rt.alloc();
    let [_, keys, _, _] = KEYS;
    let flags = Arc::new(alloc, Flags::new())?;
    let one = meeter(alloc, &flags, true)?;
    let two = meeter(alloc, &flags, false)?;
    let (node, at) = listens(rt, alloc, [keys, keys])?;
    let registered = register(&rt, &node, 0, one).is_ok() && register(&rt, &node, 1, two).is_ok();
    let told = Trial {
        rt: &rt,
        alloc,
        node: &node,
        at,
    }
    .hooks_meet(&flags);
    stopped(rt, node);
    assert!(rt; registered);
    assert!(rt; told?);
    Ok(())
}

/// Keys that wait, as they sign commitment 1, for the other channel's to do so. They aren't `Copy`.
#[derive(Drop)]
struct WaitingKeys {
    toy: ToyKeys,
    flags: Arc<Flags>,
    is_first: bool,
}

fn waiting(toy: ToyKeys, flags: &Arc<Flags>, is_first: bool) -> io::Result<WaitingKeys> {
    let flags = Arc::try_clone(flags)?;
    Ok(WaitingKeys {
        toy,
        flags,
        is_first,
    })
}

impl ChannelKeys for WaitingKeys {
    ghost use Rattle.ln_keys.specs.Toy.{toy_signer};

    ghost signer = { λ k. toy_signer k.toy };

    fn secret(&self, number: u64) -> [u8; 32] {
        self.toy.secret(number)
    }

    fn point(&self, number: u64) -> [u8; 33] {
        self.toy.point(number)
    }

    fn sign(
        &self,
        alloc: Global,
        number: u64,
        peer_point: &[u8; 33],
        view: &View,
    ) -> Result<Signed, Refusal> {
        if number == 1 {
            self.flags.meet(self.is_first);
        }
        self.toy.sign(alloc, number, peer_point, view)
    }

    fn verify(
        &self,
        number: u64,
        own_point: &[u8; 33],
        view: &View,
        sig: &[u8; 64],
        htlcs: &[[u8; 64]],
    ) -> bool {
        self.toy.verify(number, own_point, view, sig, htlcs)
    }

    fn secret_fits(&self, number: u64, secret: &[u8; 32], point: &[u8; 33]) -> bool {
        self.toy.secret_fits(number, secret, point)
    }

    fn sign_close(&self, fee: u64) -> [u8; 64] {
        self.toy.sign_close(fee)
    }

    fn verify_close(&self, fee: u64, sig: &[u8; 64]) -> bool {
        self.toy.verify_close(fee, sig)
    }
}

impl Driven for KeyedNode<WaitingKeys> {
    fn order<R: Wait>(&self, rt: &R, channel: usize, command: Command) -> Result<(), Command> {
        self.order(rt, channel, command)
    }

    fn notices<R: Wait>(&self, rt: &R, alloc: Global) -> Vec<(usize, Notice)> {
        self.notices(rt, alloc)
    }

    fn is_usable<R: Wait>(&self, rt: &R, id: &[u8; 32]) -> bool {
        self.book().lock(rt).usable(id)
    }
}

#[test]
fn workers_run_beside(rt: HostRuntime) -> io::Result<()> {
    let alloc = rt.alloc();
    let [_, toy, _, _] = KEYS;
    let flags = Arc::new(alloc, Flags::new())?;
    let keys = [waiting(toy, &flags, true)?, waiting(toy, &flags, false)?];
    let (node, at) = listens(rt, alloc, keys)?;
    let told = Trial {
        rt: &rt,
        alloc,
        node: &node,
        at,
    }
    .workers_meet(&flags);
    stopped(rt, node);
    assert_eq!(rt; told?, 2);
    Ok(())
}

// The book's failure of an HTLC waits for a peer that has greeted and says no more: nobody is told of it.
#[test]
fn waits_for_a_silent_peer(rt: HostRuntime) -> io::Result<()> {
    let alloc = rt.alloc();
    let [_, keys, _, _] = KEYS;
    let (node, at) = listens(rt, alloc, [keys, keys])?;
    let told = Trial {
        rt: &rt,
        alloc,
        node: &node,
        at,
    }
    .falls_silent();
    stopped(rt, node);
    // update_fail_malformed_htlc, which isn't signed: it is lost with the connection; init and channel_reestablish
    assert_eq!(rt; told?, ([135, 16, 136], false));
    Ok(())
}
