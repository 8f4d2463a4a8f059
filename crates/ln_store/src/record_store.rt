//! What every store of records promises.

ghost use Rattle.std.specs.Prelude.{◌≡◌, true, IfOk, IfErr, OnOk};
ghost use Rattle.std.specs.FinMap as map;
ghost use Rattle.ln_store.specs.Store.{IsOneOf, CountsFailures, FreshIfChanged};

use ln_bytes::Bytes;
use ln_refusals::Refusal;
use std::alloc::Global;

/// Stores a record for each of any number of ids.
///
/// An id has 32 bytes, a record any number of bytes. What a call answers and leaves after depends on nothing but
/// the records and the arguments, unless it fails: a call fails by 60 (`Memory`) where there was no memory, by 61
/// (`Store`) where the store itself failed, and the store counts the calls that failed by 61.
pub trait RecordStore {
    ghost use Rattle.ln_store.specs.Store.{StoreView};

    /// The records by their ids, how many calls have failed by 61, with 2^64 - 1 for more, and whether a save has come
    /// since it was told that its records are kept elsewhere.
    ghost store_view: { Self → StoreView };

    /// Makes the bytes the record of this id, in place of the one that there was. No other record changes.
    ///
    /// Errors: 60 where there is no memory, and no record has changed; 61 where the store failed, and the record of
    /// this id is the old one or the new one, whole.
    fn save(&mut self, alloc: Global, id: &[u8; 32], bytes: &[u8]) -> Result<(), Refusal>
        ensures replaces_the_record { OnOk result ((store_view self.new).records
            ≡ map.insert (store_view self.old).records id.now bytes.now) }
        ensures leaves_the_old_or_the_new { IfErr result (λ e. IsOneOf e (store_view self.old).records
            (map.insert (store_view self.old).records id.now bytes.now) (store_view self.new).records) }
        ensures is_fresh { OnOk result ((store_view self.new).is_fresh ≡ true) }
        ensures fresh_if_changed { FreshIfChanged (store_view self.old) (store_view self.new) }
        ensures counts_failures { CountsFailures result (store_view self.old).failed (store_view self.new).failed };

    /// The record of this id, or none where there is none. No record changes.
    ///
    /// Errors: 60 where there is no memory, 61 where the store failed.
    fn load(&mut self, alloc: Global, id: &[u8; 32]) -> Result<Option<Bytes>, Refusal>
        ensures gives_the_record { IfOk result (λ found. found ≡ map.get (store_view self.old).records id.now) }
        ensures changes_no_record { (store_view self.new).records ≡ (store_view self.old).records }
        ensures stays_fresh { (store_view self.new).is_fresh ≡ (store_view self.old).is_fresh }
        ensures counts_failures { CountsFailures result (store_view self.old).failed (store_view self.new).failed };

    /// Each id that has a record, once, in rising order: by their first bytes that differ. No record changes.
    ///
    /// Errors: 60 where there is no memory, 61 where the store failed.
    fn ids(&mut self, alloc: Global) -> Result<Vec<[u8; 32]>, Refusal>
        ensures gives_each_id_in_order { IfOk result (λ ids. ids.items ≡ map.keys (store_view self.old).records) }
        ensures changes_no_record { (store_view self.new).records ≡ (store_view self.old).records }
        ensures stays_fresh { (store_view self.new).is_fresh ≡ (store_view self.old).is_fresh }
        ensures counts_failures { CountsFailures result (store_view self.old).failed (store_view self.new).failed };

    /// How many calls have failed by 61, or 2^64 - 1 where they were more. Takes no memory.
    fn failures(&self) -> u64
        ensures { result ≡ (store_view self.now).failed };
}
