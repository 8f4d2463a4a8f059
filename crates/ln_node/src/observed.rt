//! A store that is watched.

ghost use Rattle.std.specs.Prelude.{◌≡◌, IfOk};

use crate::observer::{Monitor, Observer};
use ln_bytes::Bytes;
use ln_refusals::Refusal;
use ln_store::RecordStore;
use std::alloc::{AllocError, Global};
use std::sync::Arc;

/// A channel's store, and what watches the channel.
#[derive(Drop)]
pub(crate) struct ObservedStore<S: Drop> {
    /// The store.
    pub(crate) inner: S,
    /// What watches its channel.
    pub(crate) observer: Arc<Observer>,
}

impl<S: Drop> ObservedStore<S> {
    /// A channel's store, which is watched here. Takes memory.
    pub(crate) fn new(
        alloc: Global,
        monitor: &Arc<Monitor>,
        channel: usize,
        inner: S,
    ) -> Result<ObservedStore<S>, AllocError>
        ensures keeps_it { IfOk result (λ s. s.inner ≡ inner) }
    {
        let observer = Observer::new(alloc, monitor, channel)?;
        Ok(ObservedStore { inner, observer })
    }
}

impl<S: RecordStore + Drop> RecordStore for ObservedStore<S> {
    ghost store_view = { λ s. S.store_view s.inner };

    fn save(&mut self, alloc: Global, id: &[u8; 32], bytes: &[u8]) -> Result<(), Refusal> {
        let answer = self.inner.save(alloc, id, bytes);
        self.observer.save(bytes.len(), answer);
        answer
    }

    fn load(&mut self, alloc: Global, id: &[u8; 32]) -> Result<Option<Bytes>, Refusal> {
        self.observer.load();
        self.inner.load(alloc, id)
    }

    fn ids(&mut self, alloc: Global) -> Result<Vec<[u8; 32]>, Refusal> {
        self.inner.ids(alloc)
    }

    fn failures(&self) -> u64 {
        self.inner.failures()
    }
}
