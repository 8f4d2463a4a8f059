//! A store whose loads are made to fail from outside, and a table that counts its hooks.

ghost use Rattle.std.specs.Prelude.{◌≡◌};
ghost use Rattle.ln_msgs.specs.Pings.Counted.{HasRisen};
ghost use Rattle.ln_refusals.specs.declared.refusal.Refusal.TheVariants.{Store, Memory};

use ln_bytes::Bytes;
use ln_hooks::{ChannelEvent, Table, Verdict};
use ln_refusals::Refusal;
use ln_store::RecordStore;
use ln_tests_ends::{FailingRecords, Gauge, Gauged, NoHook, Watch};
use std::alloc::{AllocError, Global};
use std::sync::Arc;
use std::sync::atomic::{AtomicU64, Ordering};

/// What is told to an end's store, and by its table, beside its gauge.
#[derive(Drop)]
pub struct Probe {
    /// How many loads are to be refused.
    pub denials: AtomicU64,
    /// How many were.
    pub denied: AtomicU64,
    /// How many hooks were registered.
    pub hooks: AtomicU64,
}

impl Probe {
    /// None of each.
    pub fn new(alloc: Global) -> Result<Arc<Probe>, AllocError> {
        let probe = Probe {
            denials: AtomicU64::new(0),
            denied: AtomicU64::new(0),
            hooks: AtomicU64::new(0),
        };
        Ok(Arc::new(alloc, probe)?)
    }
}

/// The table of an end's hooks: the one that stands in it from the start does what a gauge says, those that are
/// registered are counted.
#[derive(Drop)]
pub struct RowTable {
    watch: Watch,
    probe: Arc<Probe>,
}

/// The table of an end.
pub fn row_table(
    alloc: Global,
    gauge: &Arc<Gauge>,
    probe: &Arc<Probe>,
) -> Result<RowTable, AllocError> {
    let probe = Arc::try_clone(probe)?;
    let watch = Watch::gauged(alloc, gauge)?;
    Ok(RowTable { watch, probe })
}

impl Table<NoHook> for RowTable {
    ghost registers = { λ _ _ _. Unit {0} };

    ghost says = { λ _ _ _ _. Unit {0} };

    fn register(&mut self, hook: NoHook) -> Result<(), NoHook> {
        self.probe.hooks.fetch_add(1, Ordering::SeqCst);
        Ok(())
    }

    fn call(&mut self, event: &ChannelEvent) -> Verdict {
        self.watch.call(event)
    }
}

/// A store over another one, which refuses as many loads as it is told.
#[derive(Drop)]
pub struct DenyingStore<S: RecordStore + Drop> {
    inner: S,
    probe: Arc<Probe>,
    failed: u64,
}

/// The store of an end of the row.
pub type RowRecords = DenyingStore<FailingRecords>;

/// A store of an end: its gauge tells which save fails.
pub fn row_records(
    alloc: Global,
    gauge: &Arc<Gauge>,
    probe: &Arc<Probe>,
) -> Result<RowRecords, AllocError> {
    let probe = Arc::try_clone(probe)?;
    let inner = FailingRecords::gauged(alloc, gauge)?;
    Ok(DenyingStore {
        inner,
        probe,
        failed: 0,
    })
}

// One failure more where the store itself has failed.
fn counted(failed: &mut u64, refusal: Refusal) -> Refusal
    ensures is_the_same { result ≡ refusal }
    ensures counts_failures_of_the_store { refusal ≡ Store → HasRisen failed.old failed.new }
    ensures counts_no_other { refusal ≡ Memory → failed.new ≡ failed.old }
{
    if matches!(refusal, Refusal::Store) {
        *failed = failed.saturating_add(1);
    }
    refusal
}

// Whether a load is to be refused, of as many as are left. It is counted.
fn is_denied(probe: &Probe) -> bool {
    if probe.denials.load(Ordering::SeqCst) == 0 {
        return false;
    }
    probe.denials.fetch_sub(1, Ordering::SeqCst);
    probe.denied.fetch_add(1, Ordering::SeqCst);
    true
}

impl<S: RecordStore + Drop> RecordStore for DenyingStore<S> {
    ghost store_view = { λ s. record (S.RecordStore.store_view s.inner) { failed = s.failed } };

    fn save(&mut self, alloc: Global, id: &[u8; 32], bytes: &[u8]) -> Result<(), Refusal> {
        match self.inner.save(alloc, id, bytes) {
            Ok(()) => Ok(()),
            Err(refusal) => Err(counted(&mut self.failed, refusal)),
        }
    }

    fn load(&mut self, alloc: Global, id: &[u8; 32]) -> Result<Option<Bytes>, Refusal> {
        if is_denied(&self.probe) {
            return Err(counted(&mut self.failed, Refusal::Store));
        }
        match self.inner.load(alloc, id) {
            Ok(found) => Ok(found),
            Err(refusal) => Err(counted(&mut self.failed, refusal)),
        }
    }

    fn ids(&mut self, alloc: Global) -> Result<Vec<[u8; 32]>, Refusal> {
        match self.inner.ids(alloc) {
            Ok(ids) => Ok(ids),
            Err(refusal) => Err(counted(&mut self.failed, refusal)),
        }
    }

    fn failures(&self) -> u64 {
        self.failed
    }
}
