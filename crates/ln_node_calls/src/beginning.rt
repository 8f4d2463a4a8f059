//! Nodes of the row begin, stop, and start again from their stores.

use crate::ends::{ALL, B2, F0, end_of, keys_of, txid_of};
use crate::faults::{Probe, RowRecords, RowTable, row_records, row_table};
use crate::node::ToyNode;
use crate::row::{Row, of_end};
use ln_channel::{FitConfig, FitSpec};
use ln_keys::{ToyKeys, ToyOnion};
use ln_node::{Greeting, Node, Stored};
use ln_refusals::Refusal;
use ln_tests_ends::{A0, B0, B1, C0, End, Gauge, OpenProxy, loopback, row_config};
use ln_toy_channels::{POLICY, fit_spec};
use std::alloc::Global;
use std::mem;
use std::net::{Net, TcpListener, TcpStream};
use std::sync::atomic::Ordering;
use std::sync::{Arc, Mutex, Wait};
use std::thread::Threads;

// What a channel is made with by the end that listens.
fn listening(
    alloc: Global,
    gauge: &Arc<Gauge>,
    probe: &Arc<Probe>,
    accepted: u16,
) -> Result<(FitConfig, RowRecords, RowTable), Refusal> {
    let table = row_table(alloc, gauge, probe)?;
    let store = row_records(alloc, gauge, probe)?;
    let config = row_config(alloc, accepted)?;
    Ok((config, store, table))
}

// The same by the end that connects.
fn connecting(
    alloc: Global,
    gauge: &Arc<Gauge>,
    probe: &Arc<Probe>,
    end: End,
) -> Result<(FitSpec, RowRecords, RowTable), Refusal> {
    let table = row_table(alloc, gauge, probe)?;
    let store = row_records(alloc, gauge, probe)?;
    let spec = fit_spec(alloc, txid_of(end))?;
    Ok((spec, store, table))
}

// A channel of a node that starts again.
fn stored(
    alloc: Global,
    end: End,
    gauges: &[Arc<Gauge>],
    probes: &[Arc<Probe>],
    store: RowRecords,
) -> Result<Stored<ToyKeys, RowRecords, RowTable>, Refusal> {
    let table = row_table(alloc, of_end(gauges, end)?, of_end(probes, end)?)?;
    Ok(Stored {
        keys: keys_of(end),
        store,
        table,
        address: (!end.connects).then_some(loopback()),
    })
}

// All of them.
fn all_stored(
    alloc: Global,
    node: usize,
    gauges: &[Arc<Gauge>],
    probes: &[Arc<Probe>],
    stores: Vec<RowRecords>,
) -> Result<Vec<Stored<ToyKeys, RowRecords, RowTable>>, Refusal> {
    let mut all = Vec::new(alloc);
    for (channel, store) in stores.into_iter().enumerate() {
        if let Some(end) = end_of(node, channel) {
            all.push(stored(alloc, end, gauges, probes, store)?)?;
        }
    }
    Ok(all)
}

impl<R> Row<ToyNode, R>
where
    R: Net<Listener = TcpListener, Stream = TcpStream> + Threads + Wait + Copy + Send + 'static,
{
    // Each node of the row signs alike, and is at this block.
    fn set(&self, node: &mut ToyNode) {
        node.set_signing(self.signing);
        node.book().lock(&self.rt).set_height(100);
    }

    // How nodes greet: as usual, and their peers have to offer what a line has named.
    fn greeting(&self) -> Result<Greeting, Refusal> {
        let mut greeting = Greeting::usual(self.alloc)?;
        if self.wanted != 0 {
            greeting.want(self.wanted)?;
        }
        Ok(greeting)
    }

    // A new node.
    fn begin(&mut self) -> Result<(), Refusal> {
        let mut node: ToyNode = Node::new(self.alloc, ToyOnion, POLICY, self.greeting()?)?;
        self.set(&mut node);
        self.nodes.push(node)?;
        Ok(())
    }

    // The channel of an end that listens begins, and a proxy that leads there.
    fn begin_at(&mut self, end: End, accepted: u16) -> Result<(), Refusal> {
        let gauge = of_end(self.gauges.as_slice(), end)?;
        let probe = of_end(self.probes.as_slice(), end)?;
        let Some(node) = self.nodes.get_mut(end.node) else {
            return Err(Refusal::NotReady);
        };
        let (config, store, table) = listening(self.alloc, gauge, probe, accepted)?;
        let keys = keys_of(end);
        let at = node.listen(self.rt, self.alloc, keys, config, store, table, loopback())?;
        let proxy = OpenProxy::new(self.rt, self.alloc, at, &self.gate)?;
        self.proxies.push(proxy)?;
        Ok(())
    }

    // The channel of an end that connects begins.
    fn connect(&mut self, end: End) -> Result<(), Refusal> {
        let gauge = of_end(self.gauges.as_slice(), end)?;
        let probe = of_end(self.probes.as_slice(), end)?;
        let (Some(proxy), Some(node)) = (self.proxies.get(end.proxy), self.nodes.get_mut(end.node))
        else {
            return Err(Refusal::NotReady);
        };
        let (spec, store, table) = connecting(self.alloc, gauge, probe, end)?;
        let keys = keys_of(end);
        node.connect(self.rt, self.alloc, keys, spec, store, table, proxy.begin)?;
        proxy.proxy.made.fetch_add(1, Ordering::SeqCst);
        Ok(())
    }

    /// New nodes in the place of those that there are: B and C listen, and C takes so many HTLCs at once.
    pub fn listen(&mut self, accepted: u16) -> Result<(), Refusal> {
        self.stop();
        self.gauges = Vec::new(self.alloc);
        self.probes = Vec::new(self.alloc);
        self.news = Mutex::new(Vec::new(self.alloc));
        self.taken = Mutex::new(Vec::new(self.alloc));
        for _ in ALL {
            self.gauges.push(Gauge::new(self.alloc)?)?;
            self.probes.push(Probe::new(self.alloc)?)?;
        }
        for _ in 0..3 {
            self.begin()?;
        }
        self.begin_at(B0, 30)?;
        self.begin_at(C0, accepted)
    }

    /// A opens a channel with B, and B one with C.
    pub fn meet(&mut self) -> Result<(), Refusal> {
        self.connect(A0)?;
        self.connect(B1)
    }

    /// A fourth node listens, F: B opens a third channel with it, and it is confirmed.
    pub fn fourth(&mut self) -> Result<(), Refusal> {
        self.begin()?;
        self.begin_at(F0, 30)?;
        self.connect(B2)?;
        self.confirm()
    }

    /// Stops the nodes that there are. What was counted stays.
    pub fn stop(&mut self) {
        for node in mem::replace(&mut self.nodes, Vec::new(self.alloc)) {
            node.stop(self.rt);
        }
        for proxy in mem::replace(&mut self.proxies, Vec::new(self.alloc)) {
            proxy.stop(&self.rt);
        }
    }

    /// A node stops, and starts again from its stores.
    pub fn restart(&mut self, node: usize) -> Result<(), Refusal> {
        if node >= self.nodes.len() {
            return Err(Refusal::NotReady);
        }
        let greeting = self.greeting()?;
        let old = self.nodes.remove(node);
        let stores = old.into_stores(self.rt, self.alloc)?;
        let (gauges, probes) = (self.gauges.as_slice(), self.probes.as_slice());
        let stored = all_stored(self.alloc, node, gauges, probes, stores)?;
        let mut new: ToyNode = Node::restore(
            self.rt, self.alloc, ToyOnion, POLICY, greeting, stored,
        )?;
        self.set(&mut new);
        self.put(node, new)?;
        self.lead(node);
        Ok(())
    }

    // A node takes its place among the others.
    fn put(&mut self, node: usize, new: ToyNode) -> Result<(), Refusal> {
        if node > self.nodes.len() {
            new.stop(self.rt);
            return Err(Refusal::NotReady);
        }
        self.nodes.insert(node, new)?;
        Ok(())
    }
}
