//! Three nodes in a row: A has a channel with B, and B one with C. A fourth one, F, may come: B has its third channel
//! with it.

use crate::ends::{ALL, B2, NODES, end_of, short_id_of, txid_of};
use crate::faults::Probe;
use crate::news::{News, Taken, count_notice, count_step, keep_shutdown};
use crate::node::Driven;
use crate::words::BAD;
use ln_bytes::Bytes;
use ln_channel::Command;
use ln_hooks::Verdict;
use ln_msgs::channel_id;
use ln_node::{Notice, Signing, Step, Ticket, Trace};
use ln_refusals::Refusal;
use ln_tests_ends::{
    A0, B1, End, Gauge, OpenProxy, counted, is_refused, order, state_word, value_of,
};
use std::alloc::{AllocError, Global};
use std::net::{Net, TcpListener, TcpStream};
use std::sync::atomic::{AtomicU64, Ordering};
use std::sync::{Arc, Mutex, Wait};
use std::thread::Threads;
use std::time::Duration;

/// How often is looked whether what is waited for has come, until that is given up.
pub const LOOKS: u64 = 40_000;

/// Nodes in a row, the proxies between them, and the gauges and probes of all ends. Nothing of each before `listen`.
#[derive(Drop)]
pub struct Row<N: Drop, R: Drop> {
    pub rt: R,
    pub alloc: Global,
    pub nodes: Vec<N>,
    pub proxies: Vec<OpenProxy>,
    pub gauges: Vec<Arc<Gauge>>,
    pub probes: Vec<Arc<Probe>>,
    /// What ends have noted, and which `shutdown` they were handed, as it was traced.
    pub news: Mutex<News>,
    pub taken: Mutex<Vec<Taken>>,
    /// The number of the last order that a line gave.
    pub order: AtomicU64,
    /// No connection is lost as long as it is held.
    pub gate: Arc<Mutex<()>>,
    /// When all nodes sign.
    pub signing: Signing,
    /// Which feature new nodes want of their peers, or 0.
    pub wanted: u16,
}

fn let_go<T: Drop>(_value: T) {}

/// What is kept for an end among what is kept for all.
pub fn of_end<T>(all: &[T], end: End) -> Result<&T, Refusal> {
    match all.get(end.number) {
        Some(its) => Ok(its),
        None => Err(Refusal::NotReady),
    }
}

impl<N, R> Row<N, R>
where
    N: Driven + Drop,
    R: Net<Listener = TcpListener, Stream = TcpStream> + Threads + Wait + Copy + Send + 'static,
{
    /// Nothing yet.
    pub fn new(rt: R, alloc: Global) -> Result<Row<N, R>, AllocError> {
        Ok(Row {
            rt,
            alloc,
            nodes: Vec::new(alloc),
            proxies: Vec::new(alloc),
            gauges: Vec::new(alloc),
            probes: Vec::new(alloc),
            news: Mutex::new(Vec::new(alloc)),
            taken: Mutex::new(Vec::new(alloc)),
            order: AtomicU64::new(0),
            gate: Arc::new(alloc, Mutex::new(()))?,
            signing: Signing::WhenOrdered,
            wanted: 0,
        })
    }

    /// The gauge of an end. 40 where no nodes run.
    pub fn gauge(&self, end: End) -> Result<&Gauge, Refusal> {
        let gauge = of_end(self.gauges.as_slice(), end)?;
        Ok(gauge)
    }

    /// The proxy of an end's channel. 40 where no nodes run.
    pub fn proxy(&self, end: End) -> Result<&OpenProxy, Refusal> {
        match self.proxies.get(end.proxy) {
            Some(proxy) => Ok(proxy),
            None => Err(Refusal::NotReady),
        }
    }

    /// The node of an end. 40 where none runs.
    pub fn node(&self, end: End) -> Result<&N, Refusal> {
        match self.nodes.get(end.node) {
            Some(node) => Ok(node),
            None => Err(Refusal::NotReady),
        }
    }

    // Orders an end this. A full relay passes it over.
    fn send_order(&self, end: End, command: Command) {
        match self.node(end) {
            Ok(node) => let_go(node.order(&self.rt, end.channel, command)),
            Err(_) => let_go(command),
        }
    }

    /// The channels are confirmed, up to all ends taking payments. 65 where that doesn't come about.
    pub fn confirm(&self) -> Result<(), Refusal> {
        for look in 0..LOOKS {
            if self.are_all_usable() {
                return Ok(());
            }
            if look % 16 == 0 {
                for end in ALL {
                    self.send_order(end, Command::Confirm(short_id_of(end)));
                }
            }
            self.look();
        }
        Err(Refusal::GaveUp)
    }

    // ---- what goes on while something is waited for

    // Connects a channel whose connections are all over.
    fn mend(&self, end: End) {
        if let (Ok(node), Ok(proxy)) = (self.node(end), self.proxy(end)) {
            if proxy.proxy.is_cut() && node.reconnect(&self.rt, end.channel, proxy.begin).is_ok() {
                proxy.proxy.made.fetch_add(1, Ordering::SeqCst);
            }
        }
    }

    // Counts what has become of a node's channels.
    fn read_notices(&self, node: usize) {
        let Some(it) = self.nodes.get(node) else {
            return;
        };
        for (channel, notice) in it.notices(&self.rt, self.alloc) {
            if let Some(end) = end_of(node, channel) {
                self.note(end, notice);
            }
        }
    }

    fn note(&self, end: End, notice: Notice) {
        if let Ok(gauge) = self.gauge(end) {
            count_notice(gauge, notice);
        }
        let _ = self.news.lock(&self.rt).push((end.number, notice));
    }

    // The same of all nodes.
    pub fn read_all_notices(&self) {
        for node in 0..NODES {
            self.read_notices(node);
        }
    }

    // Counts what was traced of a node's channels.
    fn follow(&self, node: usize) {
        let Some(it) = self.nodes.get(node) else {
            return;
        };
        let Trace { steps, lost } = it.traced(&self.rt, self.alloc);
        for (channel, step) in steps {
            self.follow_step(node, channel, step);
        }
        if lost > 0 {
            if let Some(end) = end_of(node, 0) {
                if let Ok(gauge) = self.gauge(end) {
                    gauge.at_loss();
                }
            }
        }
    }

    fn follow_step(&self, node: usize, channel: usize, step: Step) {
        let Some(end) = end_of(node, channel) else {
            return;
        };
        if let Ok(gauge) = self.gauge(end) {
            count_step(gauge, &step);
        }
        let _ = keep_shutdown(&mut *self.taken.lock(&self.rt), end.number, step);
    }

    /// So many steps of a node are kept from now on.
    pub fn trace(&self, node: usize, most: u64) -> Result<(), Refusal> {
        match self.nodes.get(node) {
            Some(node) => {
                node.trace(most);
                Ok(())
            }
            None => Err(Refusal::NotReady),
        }
    }

    // Has an end sign what isn't signed, unless it does so by itself, and shut down where it is to: after each save, so
    // that orders don't keep its messages waiting.
    fn urge(&self, end: End) {
        let Ok(gauge) = self.gauge(end) else {
            return;
        };
        if gauge.is_idle() {
            return;
        }
        if gauge.shuts.load(Ordering::SeqCst) != 0 {
            self.send_order(end, Command::Shutdown(Bytes::empty(self.alloc)));
        }
        if self.signing == Signing::WhenOrdered {
            self.send_order(end, Command::Sign);
        }
    }

    /// What is done at each look: lost connections are made again, all sign, and some time passes.
    pub fn look(&self) {
        self.mend(A0);
        self.mend(B1);
        self.mend(B2);
        for node in 0..NODES {
            self.read_notices(node);
            self.follow(node);
        }
        for end in ALL {
            self.urge(end);
        }
        self.pause();
    }

    pub fn pause(&self) {
        let never = AtomicU64::new(0);
        never.park_timeout(&self.rt, 0, Duration::from_micros(500));
    }

    fn are_all_usable(&self) -> bool {
        for end in ALL {
            if self.proxy(end).is_ok() && !self.is_usable(end) {
                return false;
            }
        }
        true
    }

    /// Whether an end takes payments.
    pub fn is_usable(&self, end: End) -> bool {
        let id = channel_id(&txid_of(end), 0);
        match self.node(end) {
            Ok(node) => node.is_usable(&self.rt, &id),
            Err(_) => false,
        }
    }

    /// How many payments an end holds.
    pub fn held(&self, end: End) -> Result<u64, Refusal> {
        let mut count = 0u64;
        for (channel, _) in self.node(end)?.held(&self.rt, self.alloc)? {
            if channel == end.channel {
                count = count.wrapping_add(1);
            }
        }
        Ok(count)
    }

    // What an end's summary tells under this word, or its node's counters; 64 where nothing is told.
    fn summary_value(&self, end: End, word: &str) -> Result<u64, Refusal> {
        let node = self.node(end)?;
        let summary = node.summary(&self.rt, end.channel)?;
        match value_of(&summary, word) {
            Some(told) => Ok(told),
            None => match counted(node.counters(), word) {
                Some(counted) => Ok(counted),
                None => Err(BAD),
            },
        }
    }

    // The word for how far an end is.
    fn state(&self, end: End) -> Result<&'static str, Refusal> {
        let summary = self.node(end)?.summary(&self.rt, end.channel)?;
        Ok(state_word(summary.state))
    }

    /// Waits until an end is so far. 65 where that doesn't come about.
    pub fn wait_for(&self, end: End, word: &str) -> Result<(), Refusal> {
        for _ in 0..LOOKS {
            if self.state(end)? == word {
                return Ok(());
            }
            self.look();
        }
        Err(Refusal::GaveUp)
    }

    /// A summary of a channel of a node is refused by this number; of all of them none is.
    pub fn refuses(&self, node: usize, channel: usize, wanted: u16) -> Result<(), Refusal> {
        let Some(node) = self.nodes.get(node) else {
            return Err(Refusal::NotReady);
        };
        let all = node.channels(&self.rt, self.alloc)?;
        if channel >= all && is_refused(&node.summary(&self.rt, channel), wanted) {
            return Ok(());
        }
        Err(Refusal::GaveUp)
    }

    /// What is counted of an end under this name; 64 where nothing is.
    pub fn count(&self, end: End, name: &str) -> Result<u64, Refusal> {
        match name {
            "usable" => Ok(u64::from(self.is_usable(end))),
            "held" => self.held(end),
            "hooks" => Ok(
                of_end(self.probes.as_slice(), end)?
                    .hooks
                    .load(Ordering::SeqCst),
            ),
            "denied" => Ok(
                of_end(self.probes.as_slice(), end)?
                    .denied
                    .load(Ordering::SeqCst),
            ),
            "lost" => Ok(self.proxy(end)?.proxy.over.load(Ordering::SeqCst)),
            "signed" => Ok(
                self.proxy(end)?
                    .proxy
                    .signed(end.connects)
                    .load(Ordering::SeqCst),
            ),
            name => match self.gauge(end)?.count(name) {
                Some(count) => Ok(count),
                None => self.summary_value(end, name),
            },
        }
    }

    /// Waits until a count of an end is this. 65 where that doesn't come about.
    pub fn wait(&self, end: End, name: &str, wanted: u64) -> Result<(), Refusal> {
        for _ in 0..LOOKS {
            if self.count(end, name)? == wanted {
                return Ok(());
            }
            self.look();
        }
        Err(Refusal::GaveUp)
    }

    /// The same, while no connection is made again and nobody is asked to sign: it comes about by itself.
    pub fn comes(&self, end: End, name: &str, wanted: u64) -> Result<(), Refusal> {
        for _ in 0..LOOKS {
            if self.count(end, name)? == wanted {
                return Ok(());
            }
            self.read_all_notices();
            self.pause();
        }
        Err(Refusal::GaveUp)
    }

    // ---- what a line has them do

    /// The peer of an end has greeted by an init that offers this feature. 65 where it hasn't.
    pub fn offers(&self, end: End, feature: u16) -> Result<(), Refusal> {
        let node = self.node(end)?;
        if node.peer_offers(&self.rt, self.alloc, end.channel, feature) {
            Ok(())
        } else {
            Err(Refusal::GaveUp)
        }
    }

    /// The payee waits for a payment.
    pub fn expect(&self, payee: End, number: u64) -> Result<(), Refusal> {
        self.node(payee)?.expect(&self.rt, number)
    }

    /// Orders an end this, as soon as its relay has room.
    pub fn insist(&self, end: End, command: Command) -> Result<(), Refusal> {
        self.ask(end, command)?;
        Ok(())
    }

    /// The same, and gives the order's ticket.
    pub fn ask(&self, end: End, command: Command) -> Result<Ticket, Refusal> {
        let node = self.node(end)?;
        let mut command = command;
        for _ in 0..LOOKS {
            match node.ask(&self.rt, end.channel, command) {
                Ok(ticket) => {
                    self.order.store(ticket.number, Ordering::SeqCst);
                    return Ok(ticket);
                }
                Err(back) => command = back,
            }
            self.pause();
        }
        let_go(command);
        Err(Refusal::GaveUp)
    }

    /// An end offers a payment over the channel in this block, for this fee, and signs it: no connection is lost in
    /// between.
    pub fn pay(&self, payer: End, number: u64, block: u8, fee: u64) -> Result<(), Refusal> {
        self.wait(payer, "usable", 1)?;
        let offer = order(self.alloc, number, block, fee)?;
        let _held = self.gate.lock(&self.rt);
        self.insist(payer, offer)?;
        self.sign(payer)?;
        self.begin_saves();
        Ok(())
    }

    /// An end is ordered to sign, where it doesn't by itself.
    pub fn sign(&self, end: End) -> Result<(), Refusal> {
        match self.signing {
            Signing::WhenOrdered => self.insist(end, Command::Sign),
            Signing::WhenIdle => Ok(()),
        }
    }

    /// All nodes sign so from now on.
    pub fn set_signing(&mut self, signing: Signing) {
        self.signing = signing;
        for node in &mut self.nodes {
            node.set_signing(signing);
        }
    }

    // The saves that are to fail are counted from now on.
    fn begin_saves(&self) {
        for end in ALL {
            if let Ok(gauge) = self.gauge(end) {
                gauge.begin();
            }
        }
    }

    /// So many payments that an end holds go on, or fail where its hook has payments fail now. The book has decided so
    /// before a save fails.
    pub fn resume(&self, end: End, wanted: u64) -> Result<(), Refusal> {
        self.wait(end, "held", wanted)?;
        let node = self.node(end)?;
        let verdict = match self.gauge(end)?.verdict() {
            Verdict::Fail(code) => Verdict::Fail(code),
            _ => Verdict::Continue,
        };
        let _held = self.gate.lock(&self.rt);
        for (channel, htlc) in node.held(&self.rt, self.alloc)? {
            if channel == end.channel {
                node.resume(&self.rt, self.alloc, channel, htlc.number, verdict)?;
            }
        }
        self.begin_saves();
        Ok(())
    }

    /// Connects a channel of a node, which is to be refused by this number.
    pub fn reconnect(&self, node: usize, channel: usize, wanted: u16) -> Result<(), Refusal> {
        let begin = self.proxy(A0)?.begin;
        let Some(node) = self.nodes.get(node) else {
            return Err(Refusal::NotReady);
        };
        match node.reconnect(&self.rt, channel, begin) {
            Err(refusal) if refusal.number() == wanted => Ok(()),
            _ => Err(Refusal::GaveUp),
        }
    }

    /// Shuts the connection of an end.
    pub fn cut(&self, end: End) -> Result<(), Refusal> {
        self.node(end)?.hang_up(&self.rt, end.channel);
        Ok(())
    }

    /// The proxy of a node's first channel leads to where it listens now.
    pub fn lead(&self, node: usize) {
        let Some(end) = end_of(node, 0) else {
            return;
        };
        if let (Ok(it), Ok(proxy)) = (self.node(end), self.proxy(end)) {
            if let Some(address) = it.address(0) {
                *proxy.proxy.target.lock(&self.rt) = address;
            }
        }
    }
}
