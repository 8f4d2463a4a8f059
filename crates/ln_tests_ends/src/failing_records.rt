//! A store in memory whose saves are made to fail from outside.

use crate::failing_store::FailingStore;
use crate::gauge::{Gauge, Gauged, is_due};
use ln_bytes::Bytes;
use ln_refusals::Refusal;
use ln_store::{MemoryStore, RecordStore};
use std::alloc::{AllocError, Global};
use std::sync::Arc;
use std::sync::atomic::Ordering;

/// Records in memory. The save that its gauge names fails, and leaves the old record or the new one.
#[derive(Drop)]
pub struct FailingRecords {
    store: FailingStore<MemoryStore>,
    gauge: Arc<Gauge>,
}

impl Gauged for FailingRecords {
    fn gauged(alloc: Global, gauge: &Arc<Gauge>) -> Result<FailingRecords, AllocError> {
        let gauge = Arc::try_clone(gauge)?;
        let store = FailingStore::new(MemoryStore::new(alloc), u64::MAX, false);
        Ok(FailingRecords { store, gauge })
    }
}

impl RecordStore for FailingRecords {
    ghost use Rattle.std.specs.Prelude.{true};

    ghost store_view = { λ s. record { records = s.store.inner; failed = s.store.failed; is_fresh = true } };

    fn save(&mut self, alloc: Global, id: &[u8; 32], bytes: &[u8]) -> Result<(), Refusal> {
        self.gauge.stirs();
        if is_due(&self.gauge.save) {
            self.store.saves_left = 0;
            self.store.leaves_new = self.gauge.leaves_new.load(Ordering::SeqCst) != 0;
        }
        self.store.save(alloc, id, bytes)
    }

    fn load(&mut self, alloc: Global, id: &[u8; 32]) -> Result<Option<Bytes>, Refusal> {
        self.store.load(alloc, id)
    }

    fn ids(&mut self, alloc: Global) -> Result<Vec<[u8; 32]>, Refusal> {
        self.store.ids(alloc)
    }

    fn failures(&self) -> u64 {
        self.store.failures()
    }
}
