//! What watches a channel: it counts for its node, and traces.

ghost use Rattle.std.specs.Prelude.{◌≡◌, ◌++◌, ◌∷◌, [], true, false};

use crate::trace::{Step, Traces};
use ln_channel::Output;
use ln_log::Mark;
use ln_msgs::Message;
use ln_refusals::Refusal;
use ln_text::text_of_known;
use ln_watch::Tally;
use std::alloc::{AllocError, Global};
use std::mem;
use std::sync::{Arc, Mutex, Wait};

/// What a node has done, for who watches it.
#[derive(Drop)]
pub(crate) struct Monitor {
    /// How often.
    pub(crate) tally: Tally,
    /// Step by step.
    pub(crate) traces: Traces,
}

impl Monitor {
    /// Nothing yet. Takes memory.
    pub(crate) fn new(alloc: Global) -> Result<Arc<Monitor>, AllocError> {
        let monitor = Monitor {
            tally: Tally::new(alloc)?,
            traces: Traces::new(alloc),
        };
        Ok(Arc::new(alloc, monitor)?)
    }
}

/// What watches a channel of a node. Steps of a turn are kept here until its worker hands them on: no other thread adds
/// or takes one.
#[derive(Drop)]
pub(crate) struct Observer {
    monitor: Arc<Monitor>,
    channel: usize,
    steps: Mutex<Vec<Step>>,
}

// Adds a step. False where there is no memory.
fn push(steps: &mut Vec<Step>, step: Step) -> bool
    ensures appends { result ≡ true → steps.new.items ≡ steps.old.items ++ step ∷ [] }
    ensures changes_nothing { result ≡ false → steps.new.items ≡ steps.old.items }
{
    steps.push(step).is_ok()
}

impl Observer {
    /// That of the channel of this number. Takes memory.
    pub(crate) fn new(
        alloc: Global,
        monitor: &Arc<Monitor>,
        channel: usize,
    ) -> Result<Arc<Observer>, AllocError> {
        let observer = Observer {
            monitor: Arc::try_clone(monitor)?,
            channel,
            steps: Mutex::new(Vec::new(alloc)),
        };
        Ok(Arc::new(alloc, observer)?)
    }

    // A step of a turn, which is lost where there is no memory.
    fn step(&self, step: Step) {
        match self.steps.try_lock() {
            Some(mut steps) => {
                if !push(&mut steps, step) {
                    self.monitor.traces.lose();
                }
            }
            None => {
                drop(step);
                self.monitor.traces.lose();
            }
        }
    }

    // A step with the text of a message.
    fn text(&self, alloc: Global, message: &Message, sends: bool) {
        match text_of_known(alloc, message) {
            Ok(text) if sends => self.step(Step::Sent(text)),
            Ok(text) => self.step(Step::Took(text)),
            Err(_) => self.monitor.traces.lose(),
        }
    }

    /// The link is handed a message.
    pub(crate) fn take(&self, alloc: Global, message: &Message) {
        self.monitor.tally.take(message);
        if self.monitor.traces.is_on() {
            self.text(alloc, message, false);
        }
    }

    /// The link has handed these out.
    pub(crate) fn send(&self, alloc: Global, outputs: &[Output]) {
        let traces = self.monitor.traces.is_on();
        for output in outputs {
            if let Output::Send(message) = output {
                self.monitor.tally.send(message);
                if traces {
                    self.text(alloc, message, true);
                }
            }
        }
    }

    /// The store was to save a record of so many bytes, and has answered so.
    pub(crate) fn save(&self, bytes: usize, answer: Result<(), Refusal>) {
        self.monitor.tally.save();
        if self.monitor.traces.is_on() {
            self.step(Step::Saved(bytes, answer));
        }
    }

    /// The store is to give a record.
    pub(crate) fn load(&self) {
        self.monitor.tally.load();
    }

    /// The book has decided so.
    pub(crate) fn decide(&self, mark: &Mark) {
        self.monitor.tally.decide(mark);
    }

    /// Hands the steps of a turn on.
    pub(crate) fn flush<R: Wait>(&self, rt: &R, alloc: Global) {
        if !self.monitor.traces.is_on() {
            return;
        }
        let steps = mem::replace(&mut *self.steps.lock(rt), Vec::new(alloc));
        for step in steps {
            self.monitor.traces.add(rt, self.channel, step);
        }
    }
}
