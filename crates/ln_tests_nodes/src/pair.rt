//! Nodes that listen and connect, and what tests wait for.

use ln_channel::Command;
use ln_hooks::{Hook, HookTable};
use ln_keys::{ChannelKeys, ToyKeys, ToyOnion};
use ln_msgs::channel_id;
use ln_node::{Greeting, Node, Notice};
use ln_refusals::Refusal;
use ln_store::MemoryStore;
use ln_toy_channels::{KEYS, POLICY, SHORT_IDS, TXIDS, fit_config, fit_spec};
use std::alloc::Global;
use std::net::{Net, SocketAddr, TcpListener, TcpStream};
use std::sync::Wait;
use std::thread;
use std::thread::Threads;

/// A node whose channels have such keys.
pub(crate) type KeyedNode<K> = Node<K, MemoryStore, ToyOnion, Hook, HookTable>;

pub(crate) type ToyNode = KeyedNode<ToyKeys>;

/// What any test has a running node do: calls of `Node`. What is generic in it pays nothing for the types that a node
/// reaches.
pub(crate) trait Driven {
    fn order<R: Wait>(&self, rt: &R, channel: usize, command: Command) -> Result<(), Command>;

    fn notices<R: Wait>(&self, rt: &R, alloc: Global) -> Vec<(usize, Notice)>;

    /// Whether the channel of this id takes payments.
    fn is_usable<R: Wait>(&self, rt: &R, id: &[u8; 32]) -> bool;
}

impl Driven for ToyNode {
    fn order<R: Wait>(&self, rt: &R, channel: usize, command: Command) -> Result<(), Command> {
        self.order(rt, channel, command)
    }

    fn notices<R: Wait>(&self, rt: &R, alloc: Global) -> Vec<(usize, Notice)> {
        self.notices(rt, alloc)
    }

    fn is_usable<R: Wait>(&self, rt: &R, id: &[u8; 32]) -> bool {
        self.book().lock(rt).usable(id)
    }
}

/// How often a test looks, until it gives up.
const TURNS: u64 = 1_000_000;

fn let_go<T: Drop>(_value: T) {}

/// An address of this machine whose port the system chooses.
pub(crate) fn loopback() -> SocketAddr {
    SocketAddr::from(([127, 0, 0, 1], 0))
}

/// A value beside what else was made, or why that wasn't. What is generic pays nothing for the depth of what it drops.
pub(crate) fn with<T: Drop, U: Drop>(kept: T, made: Result<U, Refusal>) -> Result<(T, U), Refusal> {
    let made = made?;
    Ok((kept, made))
}

// A value once this is done.
fn after<T: Drop>(kept: T, done: Result<(), Refusal>) -> Result<T, Refusal> {
    done?;
    Ok(kept)
}

/// A node listens for one more channel.
pub(crate) fn listen<K, R>(
    rt: R,
    alloc: Global,
    node: &mut KeyedNode<K>,
    keys: K,
) -> Result<SocketAddr, Refusal>
where
    K: ChannelKeys + Drop + Send + 'static,
    R: Net<Listener = TcpListener, Stream = TcpStream> + Threads + Wait + Copy + Send + 'static,
{
    let config = fit_config(alloc)?;
    let store = MemoryStore::new(alloc);
    let table = HookTable::new(alloc);
    node.listen(rt, alloc, keys, config, store, table, loopback())
}

// A node opens a channel with the one at this address.
fn connect<R>(
    rt: R,
    alloc: Global,
    node: &mut ToyNode,
    keys: ToyKeys,
    address: SocketAddr,
) -> Result<(), Refusal>
where
    R: Net<Listener = TcpListener, Stream = TcpStream> + Threads + Wait + Copy + Send + 'static,
{
    let spec = fit_spec(alloc, TXIDS[0])?;
    let store = MemoryStore::new(alloc);
    let table = HookTable::new(alloc);
    node.connect(rt, alloc, keys, spec, store, table, address)
}

/// A node that listens for a channel.
pub(crate) fn fundee<R>(rt: R, alloc: Global) -> Result<(ToyNode, SocketAddr), Refusal>
where
    R: Net<Listener = TcpListener, Stream = TcpStream> + Threads + Wait + Copy + Send + 'static,
{
    let [_, keys, _, _] = KEYS;
    let mut node: ToyNode = Node::new(alloc, ToyOnion, POLICY, Greeting::usual(alloc)?)?;
    let address = listen(rt, alloc, &mut node, keys);
    with(node, address)
}

/// A node that opens a channel with the one at this address.
pub(crate) fn funder<R>(rt: R, alloc: Global, address: SocketAddr) -> Result<ToyNode, Refusal>
where
    R: Net<Listener = TcpListener, Stream = TcpStream> + Threads + Wait + Copy + Send + 'static,
{
    let [keys, _, _, _] = KEYS;
    let mut node: ToyNode = Node::new(alloc, ToyOnion, POLICY, Greeting::usual(alloc)?)?;
    let done = connect(rt, alloc, &mut node, keys, address);
    after(node, done)
}

/// A channel of a node has this hook. What holds a closure can't be asked for by a trait.
pub(crate) fn register<K, R>(
    rt: &R,
    node: &KeyedNode<K>,
    channel: usize,
    hook: Hook,
) -> Result<(), Refusal>
where
    K: ChannelKeys + Drop + Send + 'static,
    R: Wait,
{
    match node.register_hook(rt, channel, hook) {
        Ok(()) => Ok(()),
        Err(hook) => {
            drop(hook);
            Err(Refusal::NotReady)
        }
    }
}

/// Stops a node. The checker shows here that hooks and tables may go to other threads: in a long function it gives up.
pub(crate) fn stopped<K, R>(rt: R, node: KeyedNode<K>)
where
    K: ChannelKeys + Drop + Send + 'static,
    R: Net<Listener = TcpListener, Stream = TcpStream> + Threads + Wait + Copy + Send + 'static,
{
    node.stop(rt);
}

/// Waits until the channel takes payments at both nodes, or at neither. False where that doesn't come about.
pub(crate) fn wait_for_use<N: Driven, R: Wait>(rt: &R, a: &N, b: &N, usable: bool) -> bool {
    let id = channel_id(&TXIDS[0], 0);
    let [short_id, _] = SHORT_IDS;
    for turn in 0..TURNS {
        if a.is_usable(rt, &id) == usable && b.is_usable(rt, &id) == usable {
            return true;
        }
        if usable && turn % 64 == 0 {
            let_go(a.order(rt, 0, Command::Confirm(short_id)));
            let_go(b.order(rt, 0, Command::Confirm(short_id)));
        }
        thread::yield_now();
    }
    false
}
