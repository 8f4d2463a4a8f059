//! What has become of the channels of a node, for its user to look at.

ghost use Rattle.std.specs.Prelude.{◌≡◌};

use crate::observer::Monitor;
use crate::trace::Step;
use circular_buffer::HeapCircularBuffer;
use ln_node_loops::Notice;
use std::alloc::{AllocError, Global};
use std::sync::{Arc, Mutex, Wait};

/// How many notices are kept: the latest.
const KEPT: usize = 256;

/// The latest notices, each with its channel's number: at most 256.
#[derive(Drop)]
pub(crate) struct NoticeRing {
    kept: HeapCircularBuffer<(usize, Notice)>,
    ghost room: { kept.capacity ≡ 256 },
}

impl NoticeRing {
    ghost use Rattle.std.specs.Prelude.{◌≡◌, ◌++◌, ◌∷◌, [], ◌⊎◌, IfOk};
    ghost use Rattle.circular_buffer.specs.Buffer.{keep_last};

    // None yet. Takes memory for all that are kept.
    fn new(alloc: Global) -> Result<NoticeRing, AllocError>
        ensures is_empty { IfOk result (λ r. r.kept.items ≡ []) }
    {
        let kept = HeapCircularBuffer::with_capacity(alloc, KEPT)?;
        Ok(NoticeRing { kept })
    }

    // A notice of a channel.
    fn add(&mut self, channel: usize, notice: Notice)
        ensures keeps_the_latest { self.new.kept.items
            ≡ keep_last 256 (self.old.kept.items ++ (channel, notice) ∷ []) }
    {
        self.kept.push_back((channel, notice));
    }

    // Those that are kept, which are forgotten here; none where there is no memory for them, and then they stay.
    fn take(&mut self, alloc: Global) -> Vec<(usize, Notice)>
        ensures gives_all_or_keeps_them { ((result.items ≡ self.old.kept.items) × (self.new.kept.items ≡ []))
            ⊎ ((result.items ≡ []) × (self.new.kept.items ≡ self.old.kept.items)) }
    {
        match self.kept.to_vec(alloc) {
            Ok(notices) => {
                self.kept.clear();
                notices
            }
            Err(_) => Vec::new(alloc),
        }
    }
}

/// The latest notices of a node's channels. They are traced, too.
#[derive(Drop)]
pub(crate) struct Notices {
    kept: Mutex<NoticeRing>,
    /// What the node has done.
    pub(crate) monitor: Arc<Monitor>,
}

impl Notices {
    /// None yet. Takes memory for all that are kept.
    pub(crate) fn new(alloc: Global, monitor: Arc<Monitor>) -> Result<Notices, AllocError> {
        Ok(Notices {
            kept: Mutex::new(NoticeRing::new(alloc)?),
            monitor,
        })
    }

    /// A notice of a channel. Takes no memory for it.
    pub(crate) fn add<R: Wait>(&self, rt: &R, channel: usize, notice: Notice) {
        if self.monitor.traces.is_on() {
            let step = Step::Noticed(notice);
            self.monitor.traces.add(rt, channel, step);
        }
        self.kept.lock(rt).add(channel, notice);
    }

    /// Those that are kept, which are forgotten here; none where there is no memory for them, and then they stay.
    pub(crate) fn take<R: Wait>(&self, rt: &R, alloc: Global) -> Vec<(usize, Notice)> {
        self.kept.lock(rt).take(alloc)
    }
}
