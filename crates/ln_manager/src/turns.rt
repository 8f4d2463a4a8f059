//! Channels that wait for their turn, each once.

use ln_refusals::Refusal;
use std::alloc::Global;
use std::collections::VecDeque;

/// Channels that wait for their turn, each once, in the order in which they were listed.
#[derive(Drop)]
pub struct Turns {
    waiting: VecDeque<usize>,
    is_waiting: Vec<bool>,
}

impl Turns {
    ghost use Rattle.std.specs.Prelude.{◌≡◌, IfErr};

    /// Of no channel. Takes no memory.
    pub fn new(alloc: Global) -> Turns {
        Turns {
            waiting: VecDeque::new(alloc),
            is_waiting: Vec::new(alloc),
        }
    }

    /// A place for the channel of this number, unless it has one, so that none lacks memory as it is listed. Error: 60
    /// alone.
    pub fn make_place(&mut self, channel: usize) -> Result<(), Refusal>
        ensures fails_for_memory_alone { IfErr result (λ r. r ≡ Refusal.Memory) }
    {
        if self.is_waiting.len() <= channel {
            self.waiting
                .reserve(self.is_waiting.len().saturating_add(1))?;
            self.is_waiting.push(false)?;
        }
        Ok(())
    }

    /// A channel waits for its turn, after all others. It has its place, so this lacks no memory.
    pub fn list(&mut self, channel: usize) {
        let Some(is_waiting) = self.is_waiting.get_mut(channel) else {
            return;
        };
        if *is_waiting {
            return;
        }
        if self.waiting.push_back(channel).is_ok() {
            *is_waiting = true;
        }
    }

    /// The channel whose turn it is. Takes no memory.
    pub fn first(&self) -> Option<usize> {
        self.waiting.front().copied()
    }

    /// Its turn is over. Takes no memory.
    pub fn leave(&mut self) {
        let Some(channel) = self.waiting.pop_front() else {
            return;
        };
        if let Some(is_waiting) = self.is_waiting.get_mut(channel) {
            *is_waiting = false;
        }
    }
}
