//! A store in memory.

use crate::record_store::RecordStore;
use ln_bytes::Bytes;
use ln_refusals::Refusal;
use std::alloc::Global;
use std::collections::BTreeMap;
use std::marker::Model;

/// Records in memory, which last as long as the value. It never fails but for want of memory.
#[derive(Drop)]
pub struct MemoryStore {
    records: BTreeMap<[u8; 32], Bytes>,
}

impl Model for MemoryStore {
    ghost use Rattle.std.specs.FinMap as map;
    ghost use Rattle.ln_store.specs.Store.{Records, records_code};

    ghost Value = { Records };

    ghost coded = { records_code };

    ghost view = { λ s. map.from_entries s.records.entries };
}

impl MemoryStore {
    ghost use Rattle.std.specs.Prelude.{◌≡◌, IfErr, OnOk, OnErr};
    ghost use Rattle.std.specs.Option.{option_copied};
    ghost use Rattle.std.specs.FinMap as map;

    /// A store with no records. Takes no memory.
    pub fn new(alloc: Global) -> MemoryStore
        ensures { result ≡ map.empty }
    {
        MemoryStore {
            records: BTreeMap::new(alloc),
        }
    }

    fn put(&mut self, id: [u8; 32], bytes: Bytes) -> Result<(), Refusal>
        ensures replaces_the_record { OnOk result (self.new ≡ map.insert self.old id bytes) }
        ensures leaves_the_old { OnErr result (self.new ≡ self.old) }
        ensures fails_for_memory_alone { IfErr result (λ e. e ≡ Refusal.Memory) }
    {
        self.records.insert(id, bytes)?;
        Ok(())
    }

    /// The record of this id, to be looked at. Takes no memory.
    pub fn find(&self, id: &[u8; 32]) -> Option<&Bytes>
        ensures { option_copied result ≡ map.get self.now id.now }
    {
        self.records.get(id)
    }
}

impl RecordStore for MemoryStore {
    ghost use Rattle.std.specs.Prelude.{◌≡◌, IfOk, IfErr, OnOk, OnErr};
    ghost use Rattle.std.specs.FinMap as map;
    ghost use Rattle.ln_store.specs.Store.{in_memory};

    ghost store_view = { in_memory };

    /// Error: 60 alone, where there is no memory; nothing has changed then.
    fn save(&mut self, alloc: Global, id: &[u8; 32], bytes: &[u8]) -> Result<(), Refusal>
        ensures replaces_the_record { OnOk result (self.new ≡ map.insert self.old id.now bytes.now) }
        ensures leaves_the_old { OnErr result (self.new ≡ self.old) }
        ensures fails_for_memory_alone { IfErr result (λ e. e ≡ Refusal.Memory) }
    {
        let kept = Bytes::from_slice(alloc, bytes)?;
        self.put(*id, kept)
    }

    /// Error: 60 alone, where there is no memory.
    fn load(&mut self, alloc: Global, id: &[u8; 32]) -> Result<Option<Bytes>, Refusal>
        ensures gives_the_record { IfOk result (λ found. found ≡ map.get self.old id.now) }
        ensures changes_no_record { self.new ≡ self.old }
        ensures fails_for_memory_alone { IfErr result (λ e. e ≡ Refusal.Memory) }
    {
        let Some(kept) = self.find(id) else {
            return Ok(None);
        };
        Ok(Some(kept.clone()?))
    }

    /// Error: 60 alone, where there is no memory.
    fn ids(&mut self, alloc: Global) -> Result<Vec<[u8; 32]>, Refusal>
        ensures gives_each_id_in_order { IfOk result (λ ids. ids.items ≡ map.keys self.old) }
        ensures changes_no_record { self.new ≡ self.old }
        ensures fails_for_memory_alone { IfErr result (λ e. e ≡ Refusal.Memory) }
    {
        let mut ids = Vec::with_capacity(alloc, self.records.len())?;
        for id in self.records.keys() {
            ids.push(*id)?;
        }
        Ok(ids)
    }

    /// Always 0.
    fn failures(&self) -> u64
        ensures { result ≡ 0 }
    {
        0
    }
}
