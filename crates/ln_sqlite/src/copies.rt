//! The records in memory that a load is held against.

ghost use Rattle.std.specs.Prelude.{◌≡◌, IfOk, IfErr};

use ln_bytes::Bytes;
use ln_refusals::Refusal;
use std::alloc::Global;
use std::collections::BTreeMap;
use std::marker::Model;

/// What the table has, as far as it was read or written.
#[derive(Drop)]
pub(crate) struct Copies {
    records: BTreeMap<[u8; 32], Bytes>,
}

impl Model for Copies {
    ghost use Rattle.std.specs.FinMap as map;
    ghost use Rattle.ln_store.specs.Store.{Records, records_code};

    ghost Value = { Records };

    ghost coded = { records_code };

    ghost view = { λ s. map.from_entries s.records.entries };
}

impl Copies {
    ghost use Rattle.std.specs.Prelude.{◌≡◌, IsSome, None, IfOk, IfErr, OnOk, OnErr};
    ghost use Rattle.std.specs.Option.{option_copied};
    ghost use Rattle.std.specs.FinMap as map;
    ghost use Rattle.ln_sqlite.specs.Copies.{restored};

    pub(crate) fn new(alloc: Global) -> Copies
        ensures { result ≡ map.empty }
    {
        Copies {
            records: BTreeMap::new(alloc),
        }
    }

    /// Gives back what the id had before.
    pub(crate) fn put(&mut self, id: [u8; 32], bytes: Bytes) -> Result<Option<Bytes>, Refusal>
        ensures replaces_the_record { OnOk result (self.new ≡ map.insert self.old id bytes) }
        ensures gives_what_was_there { IfOk result (λ before. before ≡ map.get self.old id) }
        ensures leaves_the_old { OnErr result (self.new ≡ self.old) }
        ensures fails_for_a_new_id_alone { OnErr result (map.get self.old id ≡ None) }
        ensures fails_for_memory_alone { IfErr result (λ e. e ≡ Refusal.Memory) }
    {
        Ok(self.records.insert(id, bytes)?)
    }

    pub(crate) fn take_out(&mut self, id: &[u8; 32]) -> Option<Bytes>
        ensures { self.new ≡ map.remove self.old id.now }
    {
        self.records.remove(id)
    }

    /// Puts back what the id had before. Takes no memory, as the id has a record.
    pub(crate) fn restore(&mut self, id: [u8; 32], before: Option<Bytes>)
        requires { IsSome (map.get self.old id) }
        ensures { self.new ≡ restored self.old id before }
    {
        match before {
            Some(bytes) => match self.put(id, bytes) {
                Ok(replaced) => drop(replaced),
                Err(_) => {}
            },
            None => drop(self.take_out(&id)),
        }
    }

    pub(crate) fn find(&self, id: &[u8; 32]) -> Option<&Bytes>
        ensures { option_copied result ≡ map.get self.now id.now }
    {
        self.records.get(id)
    }

    /// A copy of what the id has.
    pub(crate) fn copy_of(&self, id: &[u8; 32]) -> Result<Option<Bytes>, Refusal>
        ensures gives_the_record { IfOk result (λ found. found ≡ map.get self.now id.now) }
        ensures fails_for_memory_alone { IfErr result (λ e. e ≡ Refusal.Memory) }
    {
        let Some(kept) = self.find(id) else {
            return Ok(None);
        };
        Ok(Some(kept.clone()?))
    }

    pub(crate) fn ids(&self, alloc: Global) -> Result<Vec<[u8; 32]>, Refusal>
        ensures gives_each_id_in_order { IfOk result (λ ids. ids.items ≡ map.keys self.now) }
        ensures fails_for_memory_alone { IfErr result (λ e. e ≡ Refusal.Memory) }
    {
        let mut ids = Vec::with_capacity(alloc, self.records.len())?;
        for id in self.records.keys() {
            ids.push(*id)?;
        }
        Ok(ids)
    }
}
