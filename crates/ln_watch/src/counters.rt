//! What a node has done, in numbers.

use ln_log::Mark;
use ln_msgs::Message;
use std::alloc::{AllocError, Global};
use std::sync::atomic::{AtomicU64, Ordering};

/// The types of messages are below this.
const TYPES: usize = 137;

/// What a book has decided about a payment.
#[derive(Clone, Copy, Debug, PartialEq, Eq)]
pub enum Decided {
    /// To offer it on.
    Forward,
    /// To fail it.
    Fail,
    /// To take it.
    Fulfil,
    /// To let it wait.
    Hold,
}

/// How often a node has done what, from its start on. Each count goes on at 0 after 2^64 - 1.
#[derive(Drop)]
pub struct Counters {
    taken: Vec<AtomicU64>,
    sent: Vec<AtomicU64>,
    forwarded: AtomicU64,
    failed: AtomicU64,
    fulfilled: AtomicU64,
    held: AtomicU64,
    saves: AtomicU64,
    loads: AtomicU64,
}

/// What counts for a node. Who watches the node has its counters alone.
#[derive(Drop)]
pub struct Tally {
    counters: Counters,
}

// As many as there are types.
fn zeros(alloc: Global) -> Result<Vec<AtomicU64>, AllocError> {
    let mut counts = Vec::new(alloc);
    for _ in 0..TYPES {
        counts.push(AtomicU64::new(0))?;
    }
    Ok(counts)
}

fn rise(count: &AtomicU64) {
    count.fetch_add(1, Ordering::SeqCst);
}

// The count of this type rises.
fn rise_at(counts: &[AtomicU64], typ: u16) {
    if let Some(count) = counts.get(usize::from(typ)) {
        rise(count);
    }
}

// The count of this type; 0 where there is no such type.
fn count_at(counts: &[AtomicU64], typ: u16) -> u64 {
    match counts.get(usize::from(typ)) {
        Some(count) => count.load(Ordering::SeqCst),
        None => 0,
    }
}

impl Counters {
    // Nothing yet.
    fn new(alloc: Global) -> Result<Counters, AllocError> {
        Ok(Counters {
            taken: zeros(alloc)?,
            sent: zeros(alloc)?,
            forwarded: AtomicU64::new(0),
            failed: AtomicU64::new(0),
            fulfilled: AtomicU64::new(0),
            held: AtomicU64::new(0),
            saves: AtomicU64::new(0),
            loads: AtomicU64::new(0),
        })
    }

    /// How many messages of this type links have taken (BOLT 1, "Lightning Message Format"). What a connection has
    /// beside its channel isn't counted: `init`, `ping`, `pong`. Takes no memory.
    pub fn taken(&self, typ: u16) -> u64 {
        count_at(self.taken.as_slice(), typ)
    }

    /// How many messages of this type links have handed out to be sent. The errors and warnings that tell of a refusal
    /// aren't counted. Takes no memory.
    pub fn sent(&self, typ: u16) -> u64 {
        count_at(self.sent.as_slice(), typ)
    }

    /// How many payments the book has decided about so. One that was held counts again as it goes on. Takes no memory.
    pub fn decided(&self, decided: Decided) -> u64 {
        let count = match decided {
            Decided::Forward => &self.forwarded,
            Decided::Fail => &self.failed,
            Decided::Fulfil => &self.fulfilled,
            Decided::Hold => &self.held,
        };
        count.load(Ordering::SeqCst)
    }

    /// How often stores were asked to save a record. Takes no memory.
    pub fn saves(&self) -> u64 {
        self.saves.load(Ordering::SeqCst)
    }

    /// How often they were asked for one. Takes no memory.
    pub fn loads(&self) -> u64 {
        self.loads.load(Ordering::SeqCst)
    }
}

impl Tally {
    /// Nothing yet. Takes memory.
    pub fn new(alloc: Global) -> Result<Tally, AllocError> {
        let counters = Counters::new(alloc)?;
        Ok(Tally { counters })
    }

    /// How often it has counted what.
    pub fn counters(&self) -> &Counters {
        &self.counters
    }

    /// A link takes a message.
    pub fn take(&self, message: &Message) {
        rise_at(self.counters.taken.as_slice(), message.typ());
    }

    /// A link hands a message out.
    pub fn send(&self, message: &Message) {
        rise_at(self.counters.sent.as_slice(), message.typ());
    }

    /// A book has decided so about a payment; about what isn't one nothing is counted.
    pub fn decide(&self, mark: &Mark) {
        match mark {
            Mark::None => {}
            Mark::Forward { .. } => rise(&self.counters.forwarded),
            Mark::Fail(_) | Mark::Malformed(_) => rise(&self.counters.failed),
            Mark::Fulfil(_) => rise(&self.counters.fulfilled),
            Mark::Held(_) => rise(&self.counters.held),
        }
    }

    /// A store is to save a record.
    pub fn save(&self) {
        rise(&self.counters.saves);
    }

    /// A store is to give a record.
    pub fn load(&self) {
        rise(&self.counters.loads);
    }
}
