//! A store whose saves are logged.

ghost use Rattle.std.specs.Prelude.{◌≡◌, None, false};

use crate::saves::{Save, StorePairs, save_level, save_words};
use ln_bytes::Bytes;
use ln_refusals::Refusal;
use ln_store::RecordStore;
use log::{Level, Log, Metadata, Record, log_enabled};
use std::alloc::Global;
use std::rt::Clock;
use std::time::Instant;

/// The target of the saves of a `LoggedStore`.
pub const STORE: &str = "lnlink::store";

/// A channel's store, whose saves are logged, and timed by the clock of who logs them.
///
/// Its records, answers and failures are those of the store inside, whatever log and clock do. A save is logged once
/// the store has answered, in the thread that saves: it waits for a sink that waits. Where debug is off at `STORE`, a
/// save costs one test more and reads no clock; a refused one is logged all the same, then without a time. Nor has a
/// save a time where the clock can't be read.
#[derive(Drop)]
pub struct LoggedStore<S: Drop, R: Drop> {
    inner: S,
    rt: R,
}

impl<S: Drop, R: Drop> LoggedStore<S, R> {
    ghost use Rattle.ln_trace.specs.Stores.{inner_store};

    /// A store whose saves `rt` times and logs. Takes no memory.
    pub fn new(inner: S, rt: R) -> LoggedStore<S, R>
        ensures { inner_store result ≡ inner }
    {
        LoggedStore { inner, rt }
    }

    /// The store again.
    pub fn into_inner(self) -> S
        ensures { result ≡ inner_store self }
    {
        let LoggedStore { inner, rt: _ } = self;
        inner
    }
}

// The time, where it is asked for and the clock can be read.
fn now<R: Clock>(rt: &R, is_asked: bool) -> Option<Instant>
    ensures { is_asked ≡ false → result ≡ None }
{
    if is_asked {
        Instant::now(rt).ok()
    } else {
        None
    }
}

// How many microseconds have passed since then, where that is known and the clock can be read.
fn micros_since<R: Clock>(rt: &R, begun: Option<Instant>) -> Option<u128> {
    match begun?.elapsed(rt) {
        Ok(passed) => Some(passed.as_micros()),
        Err(_) => None,
    }
}

// Logs a save of the record of a channel of this id.
fn log_save<R: Log>(rt: &R, id: &[u8; 32], save: Save) {
    let metadata = Metadata::new(save_level(&save.answer), STORE);
    let words = save_words(&save.answer);
    rt.log(&Record::new(metadata, words, StorePairs { id, save }, ()));
}

impl<S: RecordStore + Drop, R: Log + Clock + Drop> RecordStore for LoggedStore<S, R> {
    ghost store_view = { λ s. S.store_view s.inner };

    fn save(&mut self, alloc: Global, id: &[u8; 32], bytes: &[u8]) -> Result<(), Refusal> {
        let is_timed = log_enabled!(self.rt; target: STORE, Level::Debug);
        let begun = now(&self.rt, is_timed);
        let answer = self.inner.save(alloc, id, bytes);
        if is_timed || answer.is_err() {
            let save = Save {
                bytes: bytes.len(),
                micros: micros_since(&self.rt, begun),
                answer,
            };
            log_save(&self.rt, id, save);
        }
        answer
    }

    fn load(&mut self, alloc: Global, id: &[u8; 32]) -> Result<Option<Bytes>, Refusal> {
        self.inner.load(alloc, id)
    }

    fn ids(&mut self, alloc: Global) -> Result<Vec<[u8; 32]>, Refusal> {
        self.inner.ids(alloc)
    }

    fn failures(&self) -> u64 {
        self.inner.failures()
    }
}
