//! The newest record of one channel, until a batch takes it.

use ln_bytes::Bytes;
use ln_refusals::Refusal;
use ln_store::{MemoryStore, RecordStore};
use std::alloc::Global;

/// The newest record of one channel, and whether it belongs to no batch yet. It also knows the ids of other channels
/// that a message may not open: an empty record each.
#[derive(Drop)]
pub struct Newest {
    kept: MemoryStore,
    /// Whether a record was saved that belongs to no batch yet.
    pub is_fresh: bool,
}

impl Newest {
    ghost use Rattle.std.specs.Prelude.{◌≡◌, option_copied, IfErr, OnOk, OnErr};
    ghost use Rattle.std.specs.FinMap as map;
    ghost use Rattle.ln_manager_channels.specs.Moves.{no_record, knowing};

    /// No record. Takes no memory.
    pub fn new(alloc: Global) -> Newest
        ensures { result ≡ no_record }
    {
        Newest {
            kept: MemoryStore::new(alloc),
            is_fresh: false,
        }
    }

    /// The record of this id. Takes no memory.
    pub fn find(&self, id: &[u8; 32]) -> Option<&Bytes>
        ensures { option_copied result ≡ map.get self.now.kept id.now }
    {
        self.kept.find(id)
    }

    /// Another channel has this id, or awaits it. Error: 60 alone, which changes nothing.
    pub fn know(&mut self, alloc: Global, id: &[u8; 32]) -> Result<(), Refusal>
        ensures knows { OnOk result (self.new ≡ knowing id.now self.old) }
        ensures changes_nothing_if_refused { OnErr result (self.new ≡ self.old) }
        ensures fails_for_memory_alone { IfErr result (λ r. r ≡ Refusal.Memory) }
    {
        self.kept.save(alloc, id, &[])
    }
}

impl RecordStore for Newest {
    ghost use Rattle.std.specs.Prelude.{◌≡◌, true, Some, IfOk, IfErr, OnOk, OnErr};
    ghost use Rattle.std.specs.FinMap as map;
    ghost use Rattle.ln_manager_channels.specs.Moves.{store_of};

    ghost store_view = { store_of };

    /// Error: 60 alone, where there is no memory; nothing has changed then.
    fn save(&mut self, alloc: Global, id: &[u8; 32], bytes: &[u8]) -> Result<(), Refusal>
        ensures replaces_the_record { OnOk result (self.new.kept ≡ map.insert self.old.kept id.now bytes.now) }
        ensures is_fresh { OnOk result (self.new.is_fresh ≡ true) }
        ensures leaves_the_old { OnErr result (self.new ≡ self.old) }
        ensures fails_for_memory_alone { IfErr result (λ e. e ≡ Refusal.Memory) }
    {
        match self.kept.save(alloc, id, bytes) {
            Ok(()) => {
                self.is_fresh = true;
                Ok(())
            }
            Err(refusal) => Err(refusal),
        }
    }

    /// Error: 60 alone, where there is no memory.
    fn load(&mut self, alloc: Global, id: &[u8; 32]) -> Result<Option<Bytes>, Refusal>
        ensures gives_the_record { IfOk result (λ found. found ≡ map.get self.old.kept id.now) }
        ensures changes_no_record { self.new ≡ self.old }
        ensures fails_for_memory_alone { IfErr result (λ e. e ≡ Refusal.Memory) }
    {
        self.kept.load(alloc, id)
    }

    /// Error: 60 alone, where there is no memory.
    fn ids(&mut self, alloc: Global) -> Result<Vec<[u8; 32]>, Refusal>
        ensures gives_each_id_in_order { IfOk result (λ ids. ids.items ≡ map.keys self.old.kept) }
        ensures changes_no_record { self.new ≡ self.old }
        ensures fails_for_memory_alone { IfErr result (λ e. e ≡ Refusal.Memory) }
    {
        self.kept.ids(alloc)
    }

    /// Always 0.
    fn failures(&self) -> u64 {
        0
    }
}
