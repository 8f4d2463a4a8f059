//! The steps of a node's channels, for a program that traces them.

ghost use Rattle.std.specs.Prelude.{◌≡◌, ◌<◌, ◌++◌, ◌∷◌, [], true, false, length};

use ln_node_loops::Notice;
use ln_refusals::Refusal;
use std::alloc::Global;
use std::mem;
use std::sync::atomic::{AtomicU64, Ordering};
use std::sync::{Mutex, Wait};

/// A step of a channel.
#[derive(Drop)]
pub enum Step {
    /// Its link was handed this message of the peer's; its text (ln_text).
    Took(String),
    /// Its link has handed out this message, to be sent; its text.
    Sent(String),
    /// Its store was to save a record of so many bytes, and has answered so.
    Saved(usize, Result<(), Refusal>),
    /// What has become of it.
    Noticed(Notice),
}

/// What was traced.
#[derive(Drop)]
pub struct Trace {
    /// Steps, each with its channel's number. What a channel's worker did stands in its order.
    pub steps: Vec<(usize, Step)>,
    /// How many steps were lost, where there was no room or no memory.
    pub lost: u64,
}

/// The steps of all channels of a node, until its program fetches them.
#[derive(Drop)]
pub(crate) struct Traces {
    // How many are kept; where that is 0 none is traced.
    most: AtomicU64,
    lost: AtomicU64,
    kept: Mutex<Vec<(usize, Step)>>,
}

// Adds a step, where there is room and memory. False where there is none.
fn add(kept: &mut Vec<(usize, Step)>, most: u64, channel: usize, step: Step) -> bool
    ensures appends { result ≡ true → kept.new.items ≡ kept.old.items ++ (channel, step) ∷ [] }
    ensures changes_nothing { result ≡ false → kept.new.items ≡ kept.old.items }
    ensures has_room { result ≡ true → length kept.old.items < most }
{
    if kept.len() as u64 >= most {
        drop(step);
        return false;
    }
    kept.push((channel, step)).is_ok()
}

impl Traces {
    /// None is traced.
    pub(crate) fn new(alloc: Global) -> Traces {
        Traces {
            most: AtomicU64::new(0),
            lost: AtomicU64::new(0),
            kept: Mutex::new(Vec::new(alloc)),
        }
    }

    /// So many are kept from now on; where that is 0 none is traced.
    pub(crate) fn keep(&self, most: u64) {
        self.most.store(most, Ordering::SeqCst);
    }

    /// Whether steps are traced.
    pub(crate) fn is_on(&self) -> bool {
        self.most.load(Ordering::SeqCst) > 0
    }

    /// A step is lost.
    pub(crate) fn lose(&self) {
        self.lost.fetch_add(1, Ordering::SeqCst);
    }

    /// Adds a step of a channel, or loses it.
    pub(crate) fn add<R: Wait>(&self, rt: &R, channel: usize, step: Step) {
        let most = self.most.load(Ordering::SeqCst);
        let mut kept = self.kept.lock(rt);
        if !add(&mut kept, most, channel, step) {
            self.lose();
        }
    }

    /// What was traced since this was called last.
    pub(crate) fn take<R: Wait>(&self, rt: &R, alloc: Global) -> Trace {
        let mut kept = self.kept.lock(rt);
        let steps = mem::replace(&mut *kept, Vec::new(alloc));
        let lost = self.lost.swap(0, Ordering::SeqCst);
        Trace { steps, lost }
    }
}
