//! A store whose save fails.

ghost use Rattle.std.specs.Prelude.{◌≡◌};
ghost use Rattle.ln_msgs.specs.Pings.Counted.{HasRisen};
ghost use Rattle.ln_refusals.specs.declared.refusal.Refusal.TheVariants.{Store, Memory};

use ln_bytes::Bytes;
use ln_refusals::Refusal;
use ln_store::RecordStore;
use std::alloc::Global;

/// A store over another one, whose save of this number fails, counted from 0, with the old record left or the new one.
/// Those after it don't.
#[derive(Drop)]
pub struct FailingStore<S: RecordStore + Drop> {
    pub(crate) inner: S,
    pub(crate) saves_left: u64,
    pub(crate) leaves_new: bool,
    pub(crate) failed: u64,
}

impl<S: RecordStore + Drop> FailingStore<S> {
    pub fn new(inner: S, saves_left: u64, leaves_new: bool) -> FailingStore<S> {
        FailingStore {
            inner,
            saves_left,
            leaves_new,
            failed: 0,
        }
    }

    /// From now on it is the save of this number that fails, counted from 0, and leaves the old record or the new one.
    pub fn fail_at(&mut self, saves_left: u64, leaves_new: bool) {
        self.saves_left = saves_left;
        self.leaves_new = leaves_new;
    }
}

/// One failure more where the store itself has failed.
fn counted(failed: &mut u64, refusal: Refusal) -> Refusal
    ensures is_the_same { result ≡ refusal }
    ensures counts_failures_of_the_store { refusal ≡ Store → HasRisen failed.old failed.new }
    ensures counts_no_other { refusal ≡ Memory → failed.new ≡ failed.old }
{
    if matches!(refusal, Refusal::Store) {
        *failed = failed.saturating_add(1);
    }
    refusal
}

impl<S: RecordStore + Drop> RecordStore for FailingStore<S> {
    ghost store_view = { λ s. record (S.RecordStore.store_view s.inner) { failed = s.failed } };

    fn save(&mut self, alloc: Global, id: &[u8; 32], bytes: &[u8]) -> Result<(), Refusal> {
        let fails = self.saves_left == 0;
        self.saves_left = self.saves_left.wrapping_sub(1);
        if fails && !self.leaves_new {
            return Err(counted(&mut self.failed, Refusal::Store));
        }
        if let Err(refusal) = self.inner.save(alloc, id, bytes) {
            return Err(counted(&mut self.failed, refusal));
        }
        if fails {
            return Err(counted(&mut self.failed, Refusal::Store));
        }
        Ok(())
    }

    fn load(&mut self, alloc: Global, id: &[u8; 32]) -> Result<Option<Bytes>, Refusal> {
        match self.inner.load(alloc, id) {
            Ok(found) => Ok(found),
            Err(refusal) => Err(counted(&mut self.failed, refusal)),
        }
    }

    fn ids(&mut self, alloc: Global) -> Result<Vec<[u8; 32]>, Refusal> {
        match self.inner.ids(alloc) {
            Ok(ids) => Ok(ids),
            Err(refusal) => Err(counted(&mut self.failed, refusal)),
        }
    }

    fn failures(&self) -> u64 {
        self.failed
    }
}
