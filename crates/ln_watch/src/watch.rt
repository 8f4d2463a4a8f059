//! Where a channel's summary is kept for who reads it.

ghost use Rattle.std.specs.Prelude.{◌≡◌, IfOk, IfErr};
ghost use Rattle.ln_refusals.specs.declared.refusal.Refusal.TheVariants as refusal;
ghost use Rattle.ln_watch.specs.Summary.{IsSummary, IsKept, IsKept-prop};

use crate::summary::{ChannelSummary, summary_of};
use ln_channel::ChannelMachine;
use ln_keys::ChannelKeys;
use ln_refusals::Refusal;
use std::alloc::Global;
use std::sync::{Mutex, Wait};

// A summary beside the fact that it is one of a link; none where there was no memory for it.
#[derive(Drop)]
struct Kept {
    told: Option<ChannelSummary>,
    ghost is_of_a_link: { IsKept told } by { IsKept-prop told },
}

/// The latest summary of a channel: who makes it and who reads it hold the lock for as long as it is put or copied.
#[derive(Drop)]
pub struct Watch {
    kept: Mutex<Kept>,
}

// What is told of a link; none where there is no memory for it.
fn made<K: ChannelKeys + Drop>(alloc: Global, machine: &ChannelMachine<K>) -> Option<ChannelSummary>
    ensures { IsKept result }
{
    match summary_of(alloc, machine) {
        Ok(summary) => Some(summary),
        Err(_) => None,
    }
}

impl Kept {
    fn put(&mut self, told: Option<ChannelSummary>)
        requires { IsKept told }
    {
        self.told = told;
    }

    // A copy. 60 where there is no memory, or nothing is kept.
    fn copy(&self) -> Result<ChannelSummary, Refusal>
        ensures is_of_a_link { IfOk result IsSummary }
        ensures fails_for_memory_alone { IfErr result (λ e. e ≡ refusal.Memory) }
    {
        match &self.told {
            None => Err(Refusal::Memory),
            Some(summary) => match summary.copied() {
                Ok(copy) => Ok(copy),
                Err(_) => Err(Refusal::Memory),
            },
        }
    }
}

impl Watch {
    /// That of this link. Takes memory. Where there is none it says so, until the next one is put.
    pub fn new<K: ChannelKeys + Drop>(alloc: Global, machine: &ChannelMachine<K>) -> Watch {
        let told = made(alloc, machine);
        Watch {
            kept: Mutex::new(Kept { told }),
        }
    }

    /// Puts that of this link in the place of the one before. Takes memory. Where there is none it says so.
    pub fn put<K: ChannelKeys + Drop, R: Wait>(
        &self,
        rt: &R,
        alloc: Global,
        machine: &ChannelMachine<K>,
    ) {
        let told = made(alloc, machine);
        self.kept.lock(rt).put(told);
    }

    /// A copy of the one that was put last. Takes memory.
    ///
    /// Error: 60 where there is none for the copy, or there was none for the summary.
    pub fn summary<R: Wait>(&self, rt: &R) -> Result<ChannelSummary, Refusal>
        ensures is_of_a_link { IfOk result IsSummary }
        ensures fails_for_memory_alone { IfErr result (λ e. e ≡ refusal.Memory) }
    {
        self.kept.lock(rt).copy()
    }
}
