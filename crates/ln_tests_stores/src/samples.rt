//! Records of the tests.

ghost use Rattle.std.specs.Prelude.{◌≡◌, IfOk, replicate};

use ln_refusals::Refusal;
use ln_store::RecordStore;
use std::alloc::Global;

/// A record of so many bytes of one value, under an id of 32 bytes of one value.
#[derive(Clone, Copy)]
pub struct Sample {
    pub id: u8,
    pub len: usize,
    pub byte: u8,
}

impl Sample {
    fn body(&self, alloc: Global) -> Result<Vec<u8>, Refusal>
        ensures { IfOk result (λ bytes. bytes.items ≡ replicate self.now.len self.now.byte) }
    {
        let mut bytes = Vec::new(alloc);
        bytes.resize(self.len, self.byte)?;
        Ok(bytes)
    }

    pub fn save<S: RecordStore>(&self, alloc: Global, store: &mut S) -> Result<(), Refusal> {
        let body = self.body(alloc)?;
        store.save(alloc, &[self.id; 32], &body)
    }

    pub fn is_in<S: RecordStore>(&self, alloc: Global, store: &mut S) -> Result<bool, Refusal> {
        let body = self.body(alloc)?;
        let found = store.load(alloc, &[self.id; 32])?;
        match &found {
            Some(record) => Ok(record.as_slice() == body.as_slice()),
            None => Ok(false),
        }
    }
}

/// Saves these, one after the other.
pub fn save_all<S: RecordStore>(
    alloc: Global,
    store: &mut S,
    samples: &[Sample],
) -> Result<(), Refusal> {
    for sample in samples {
        sample.save(alloc, store)?;
    }
    Ok(())
}

/// Whether a store has these records, in the order of their ids, and no other.
pub fn has_all<S: RecordStore>(
    alloc: Global,
    store: &mut S,
    samples: &[Sample],
) -> Result<bool, Refusal> {
    let ids = store.ids(alloc)?;
    let mut all = ids.len() == samples.len();
    for (id, sample) in ids.iter().zip(samples.iter()) {
        all = all && *id == [sample.id; 32] && sample.is_in(alloc, store)?;
    }
    Ok(all)
}
