//! What is counted of an end of a channel, what its hooks say, and what its store is to fail.

use ln_hooks::{ChannelEvent, FailureCode, How, Table, Verdict};
use std::alloc::{AllocError, Global};
use std::sync::Arc;
use std::sync::atomic::{AtomicU64, Ordering};

/// What a hook says of a payment that comes in: nothing against it, or to hold it; else the code by which it fails.
pub const CONTINUE: u64 = 0;

/// It is to wait.
pub const HOLD: u64 = 1;

/// In how many looks an end is asked again that has saved nothing since.
const PATIENCE: u64 = 20;

/// What is known of an end of a channel, and told to it, by any thread.
#[derive(Drop)]
pub struct Gauge {
    // How many own HTLCs are irrevocably committed, how many of the peer's, and what these pay, in millisatoshi; how
    // many own ones were fulfilled or failed; the code of the last failure; how often it has closed, and how many
    // events came after that.
    added: AtomicU64,
    came: AtomicU64,
    paid: AtomicU64,
    fulfilled: AtomicU64,
    failed: AtomicU64,
    code: AtomicU64,
    closed: AtomicU64,
    behind: AtomicU64,
    // How often it was loaded after it had halted, and has refused a command by its peer's limits.
    loaded: AtomicU64,
    limited: AtomicU64,
    // Of its traced steps: how many adds it was handed, and has handed out; 1 where there were saves, and notices; 1
    // where steps of its node were lost.
    took: AtomicU64,
    sent: AtomicU64,
    saved: AtomicU64,
    noticed: AtomicU64,
    missed: AtomicU64,
    // In how many looks it is asked again.
    idle: AtomicU64,
    /// What its hook says.
    pub says: AtomicU64,
    /// 1 where it is to shut down.
    pub shuts: AtomicU64,
    /// The save of this number from the next payment on fails, and 0 where none does; the same from now on.
    pub next_save: AtomicU64,
    pub save: AtomicU64,
    /// 1 where that save leaves the new record.
    pub leaves_new: AtomicU64,
}

fn zero() -> AtomicU64 {
    AtomicU64::new(0)
}

fn rises(count: &AtomicU64) {
    count.fetch_add(1, Ordering::SeqCst);
}

/// Counts down to 0 from a number that isn't 0, and says whether it has got there.
pub fn is_due(left: &AtomicU64) -> bool {
    let before = left.load(Ordering::SeqCst);
    if before > 0 {
        left.store(before - 1, Ordering::SeqCst);
    }
    before == 1
}

// The code of a failure (BOLT 4, "Failure Messages").
fn code_of(how: &How) -> u64 {
    match how {
        How::Failed(reason) => match reason.as_slice() {
            [high, low, ..] => u64::from(u16::from_be_bytes([*high, *low])),
            _ => 0,
        },
        _ => 0,
    }
}

impl Gauge {
    /// Nothing yet.
    pub fn new(alloc: Global) -> Result<Arc<Gauge>, AllocError> {
        let gauge = Gauge {
            added: zero(),
            came: zero(),
            paid: zero(),
            fulfilled: zero(),
            failed: zero(),
            code: zero(),
            closed: zero(),
            behind: zero(),
            loaded: zero(),
            limited: zero(),
            took: zero(),
            sent: zero(),
            saved: zero(),
            noticed: zero(),
            missed: zero(),
            idle: zero(),
            says: zero(),
            shuts: zero(),
            next_save: zero(),
            save: zero(),
            leaves_new: zero(),
        };
        Ok(Arc::new(alloc, gauge)?)
    }

    /// What its hook says.
    pub fn verdict(&self) -> Verdict {
        match self.says.load(Ordering::SeqCst) {
            CONTINUE => Verdict::Continue,
            HOLD => Verdict::Hold,
            code => match FailureCode::new((code % 0x1_0000) as u16) {
                Some(code) => Verdict::Fail(code),
                None => Verdict::Continue,
            },
        }
    }

    fn at_settled(&self, how: &How) {
        match how {
            How::Fulfilled(_) => rises(&self.fulfilled),
            _ => {
                self.code.store(code_of(how), Ordering::SeqCst);
                rises(&self.failed);
            }
        }
    }

    // An event.
    fn at_event(&self, event: &ChannelEvent) -> Verdict {
        if self.closed.load(Ordering::SeqCst) > 0 {
            rises(&self.behind);
        }
        match event {
            ChannelEvent::Added {
                own: false,
                amount,
                ..
            } => {
                rises(&self.came);
                self.paid.fetch_add(amount.value(), Ordering::SeqCst);
                return self.verdict();
            }
            ChannelEvent::Added { .. } => rises(&self.added),
            ChannelEvent::Settled { own: true, how, .. } => self.at_settled(how),
            ChannelEvent::Settled { .. } => {}
            ChannelEvent::Closed(_) => rises(&self.closed),
        }
        Verdict::Continue
    }

    /// The save that is to fail is counted from now on.
    pub fn begin(&self) {
        let next = self.next_save.load(Ordering::SeqCst);
        if next > 0 {
            self.next_save.store(0, Ordering::SeqCst);
            self.save.store(next, Ordering::SeqCst);
        }
    }

    /// It saves, so it may have something to sign.
    pub fn stirs(&self) {
        self.idle.store(0, Ordering::SeqCst);
    }

    /// Whether it isn't to be asked now, as it was asked and has saved nothing since.
    pub fn is_idle(&self) -> bool {
        let idle = self.idle.load(Ordering::SeqCst);
        if idle > 0 {
            self.idle.store(idle - 1, Ordering::SeqCst);
            return true;
        }
        self.idle.store(PATIENCE, Ordering::SeqCst);
        false
    }

    /// It was loaded after it had halted.
    pub fn at_load(&self) {
        rises(&self.loaded);
    }

    /// It has refused a command by its peer's limits.
    pub fn at_limit(&self) {
        rises(&self.limited);
    }

    /// A traced step: it was handed an add.
    pub fn at_add_taken(&self) {
        rises(&self.took);
    }

    /// It has handed one out.
    pub fn at_add_sent(&self) {
        rises(&self.sent);
    }

    /// There was a save.
    pub fn at_save(&self) {
        self.saved.store(1, Ordering::SeqCst);
    }

    /// There was a notice.
    pub fn at_notice(&self) {
        self.noticed.store(1, Ordering::SeqCst);
    }

    /// Steps of its node were lost.
    pub fn at_loss(&self) {
        self.missed.store(1, Ordering::SeqCst);
    }

    /// The count of this name; none where there is no such count.
    pub fn count(&self, name: &str) -> Option<u64> {
        let count = match name {
            "added" => &self.added,
            "came" => &self.came,
            "paid" => &self.paid,
            "fulfilled" => &self.fulfilled,
            "failed" => &self.failed,
            "code" => &self.code,
            "closed" => &self.closed,
            "behind" => &self.behind,
            "loaded" => &self.loaded,
            "limited" => &self.limited,
            "took-adds" => &self.took,
            "sent-adds" => &self.sent,
            "saved-some" => &self.saved,
            "noticed-some" => &self.noticed,
            "lost-some" => &self.missed,
            _ => return None,
        };
        Some(count.load(Ordering::SeqCst))
    }
}

/// What is made anew for an end each time that its node starts.
pub trait Gauged {
    /// One that this gauge tells, or is told by.
    fn gauged(alloc: Global, gauge: &Arc<Gauge>) -> Result<Self, AllocError>;
}

/// No hook is registered: the one of each end stands in its table from the start.
#[derive(Drop)]
pub struct NoHook;

/// The table of the one hook of an end.
#[derive(Drop)]
pub struct Watch {
    gauge: Arc<Gauge>,
}

impl Gauged for Watch {
    fn gauged(alloc: Global, gauge: &Arc<Gauge>) -> Result<Watch, AllocError> {
        Ok(Watch {
            gauge: Arc::try_clone(gauge)?,
        })
    }
}

impl Table<NoHook> for Watch {
    ghost registers = { λ _ _ _. Unit {0} };

    ghost says = { λ _ _ _ _. Unit {0} };

    fn register(&mut self, hook: NoHook) -> Result<(), NoHook> {
        Ok(())
    }

    fn call(&mut self, event: &ChannelEvent) -> Verdict {
        self.gauge.at_event(event)
    }
}
