//! Three nodes in a row, with a channel between each and the next.

use crate::payment::{AMOUNT, EXPIRY, OFFERED, PREIMAGE, SECRET, onion};
use ln_bytes::{Bytes, ShortId};
use ln_channel::Command;
use ln_keys::{ToyKeys, ToyOnion, sha256_32};
use ln_msgs::channel_id;
use ln_node::{Greeting, Node, Table};
use ln_refusals::Refusal;
use ln_store::MemoryStore;
use ln_toy_channels::{KEYS, POLICY, SHORT_IDS, TXIDS, fit_config, fit_spec};
use std::alloc::Global;
use std::io::{Read, Write};
use std::net::{Net, OpenStream, SocketAddr};
use std::sync::Wait;
use std::thread::Threads;

/// A node with toy keys and a toy onion, whose records are in memory.
type ToyNode<H, T, C> = Node<ToyKeys, MemoryStore, ToyOnion, H, T, C>;

/// Three nodes: the payer, the one in the middle, the payee.
#[derive(Drop)]
pub(crate) struct Three<H: Drop, T: Drop, C: Drop> {
    a: ToyNode<H, T, C>,
    b: ToyNode<H, T, C>,
    c: ToyNode<H, T, C>,
}

/// The empty tables of hooks of four ends: the payer's, the middle node's two, the payee's.
pub(crate) type Tables<T> = (T, T, T, T);

fn let_go<T: Drop>(_value: T) {}

impl<H, T, C> Three<H, T, C>
where
    H: Drop + Send + 'static,
    T: Table<H> + Drop + Send + 'static,
    C: Read + Write + OpenStream + Drop + Send + 'static,
{
    /// Three nodes without channels.
    pub(crate) fn new(alloc: Global) -> Result<Three<H, T, C>, Refusal> {
        Ok(Three {
            a: Node::new(alloc, ToyOnion, POLICY, Greeting::usual(alloc)?)?,
            b: Node::new(alloc, ToyOnion, POLICY, Greeting::usual(alloc)?)?,
            c: Node::new(alloc, ToyOnion, POLICY, Greeting::usual(alloc)?)?,
        })
    }

    // A node listens for a channel.
    fn listen<R>(
        rt: R,
        alloc: Global,
        node: &mut ToyNode<H, T, C>,
        keys: ToyKeys,
        table: T,
    ) -> Result<SocketAddr, Refusal>
    where
        R: Net<Stream = C> + Threads + Wait + Copy + Send + 'static,
        R::Listener: Send + 'static,
    {
        let loopback = SocketAddr::from(([127, 0, 0, 1], 0));
        let config = fit_config(alloc)?;
        node.listen(
            rt,
            alloc,
            keys,
            config,
            MemoryStore::new(alloc),
            table,
            loopback,
        )
    }

    // A node opens the channel of this funding transaction.
    fn connect<R>(
        rt: R,
        alloc: Global,
        node: &mut ToyNode<H, T, C>,
        keys: ToyKeys,
        txid: [u8; 32],
        table: T,
        address: SocketAddr,
    ) -> Result<(), Refusal>
    where
        R: Net<Stream = C> + Threads + Wait + Copy + Send + 'static,
        R::Listener: Send + 'static,
    {
        let spec = fit_spec(alloc, txid)?;
        node.connect(
            rt,
            alloc,
            keys,
            spec,
            MemoryStore::new(alloc),
            table,
            address,
        )
    }

    /// Opens both channels: the middle node listens for the payer, the payee for the middle node.
    pub(crate) fn open<R>(&mut self, rt: R, alloc: Global, tables: Tables<T>) -> Result<(), Refusal>
    where
        R: Net<Stream = C> + Threads + Wait + Copy + Send + 'static,
        R::Listener: Send + 'static,
    {
        let [payer, left, right, payee] = KEYS;
        let [first, second] = TXIDS;
        let at_b = Three::listen(rt, alloc, &mut self.b, left, tables.1)?;
        let at_c = Three::listen(rt, alloc, &mut self.c, payee, tables.3)?;
        Three::connect(rt, alloc, &mut self.a, payer, first, tables.0, at_b)?;
        Three::connect(rt, alloc, &mut self.b, right, second, tables.2, at_c)
    }

    /// The height, the payment that the payee waits for, and hooks at the payer's end and at the payee's.
    pub(crate) fn prepare<R: Wait>(&self, rt: &R, hooks: (H, H)) -> Result<(), Refusal> {
        self.b.book().lock(rt).set_height(100);
        self.c.book().lock(rt).set_height(100);
        self.c.book().lock(rt).expect(PREIMAGE, SECRET, AMOUNT)?;
        let (payer, payee) = hooks;
        let_go(self.a.register_hook(rt, 0, payer));
        let_go(self.c.register_hook(rt, 0, payee));
        Ok(())
    }

    /// Whether all four ends take payments.
    pub(crate) fn is_usable<R: Wait>(&self, rt: &R) -> bool {
        let first = channel_id(&TXIDS[0], 0);
        let second = channel_id(&TXIDS[1], 0);
        self.a.book().lock(rt).usable(&first)
            && self.b.book().lock(rt).usable(&first)
            && self.b.book().lock(rt).usable(&second)
            && self.c.book().lock(rt).usable(&second)
    }

    /// Tells all four ends that their channel is confirmed.
    pub(crate) fn confirm<R: Wait>(&self, rt: &R) {
        let [first, second] = SHORT_IDS;
        let_go(self.a.order(rt, 0, Command::Confirm(first)));
        let_go(self.b.order(rt, 0, Command::Confirm(first)));
        let_go(self.b.order(rt, 1, Command::Confirm(second)));
        let_go(self.c.order(rt, 0, Command::Confirm(second)));
    }

    /// Offers the payment. False where it has to be offered again.
    pub(crate) fn offer<R: Wait>(&self, rt: &R, alloc: Global) -> Result<bool, Refusal> {
        let hash = sha256_32(&PREIMAGE);
        let onion = onion(alloc, &hash)?;
        let add = Command::Add {
            amount: OFFERED,
            hash,
            expiry: EXPIRY,
            onion,
            origin: None,
        };
        Ok(self.a.order(rt, 0, add).is_ok())
    }

    /// Has all four ends sign what isn't signed.
    pub(crate) fn sign<R: Wait>(&self, rt: &R) {
        let_go(self.a.order(rt, 0, Command::Sign));
        let_go(self.b.order(rt, 0, Command::Sign));
        let_go(self.b.order(rt, 1, Command::Sign));
        let_go(self.c.order(rt, 0, Command::Sign));
    }

    /// Has both channels shut down.
    pub(crate) fn shut<R: Wait>(&self, rt: &R, alloc: Global) {
        let_go(self.a.close_channel(rt, 0, Bytes::empty(alloc)));
        let_go(self.b.close_channel(rt, 0, Bytes::empty(alloc)));
        let_go(self.b.close_channel(rt, 1, Bytes::empty(alloc)));
        let_go(self.c.close_channel(rt, 0, Bytes::empty(alloc)));
    }

    /// Stops the nodes, and joins their threads.
    pub(crate) fn stop<R>(self, rt: R)
    where
        R: Net<Stream = C> + Threads + Wait + Copy + Send + 'static,
    {
        let Three { a, b, c } = self;
        a.stop(rt);
        b.stop(rt);
        c.stop(rt);
    }
}
