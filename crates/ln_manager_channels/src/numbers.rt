//! The numbers of channels, by their ids.

use ln_refusals::Refusal;
use std::alloc::Global;
use std::collections::BTreeMap;
use std::marker::Model;

/// The numbers of channels, by the ids that they have, or had agreed on.
#[derive(Drop)]
pub(crate) struct Numbers {
    places: BTreeMap<[u8; 32], usize>,
}

impl Model for Numbers {
    ghost use Rattle.ln_manager_channels.specs.Numbers.{NumbersById};

    ghost Value = { NumbersById };

    ghost view = { λ n. n.places.entries };
}

impl Numbers {
    ghost use Rattle.std.specs.Prelude.{◌≡◌, [], IfErr, OnOk, OnErr};
    ghost use Rattle.ln_manager_channels.specs.Numbers.{number_at, numbered};

    /// None. Takes no memory.
    pub fn new(alloc: Global) -> Numbers
        ensures { result ≡ [] }
    {
        Numbers {
            places: BTreeMap::new(alloc),
        }
    }

    /// The number of this id. Takes no memory.
    pub fn get(&self, id: &[u8; 32]) -> Option<usize>
        ensures { result ≡ number_at id.now self.now }
    {
        match self.places.get(id) {
            None => None,
            Some(number) => Some(*number),
        }
    }

    /// The number of this id from now on. Error: 60 alone, which changes nothing.
    pub fn put(&mut self, id: [u8; 32], number: usize) -> Result<(), Refusal>
        ensures puts { OnOk result (self.new ≡ numbered id number self.old) }
        ensures changes_nothing_if_refused { OnErr result (self.new ≡ self.old) }
        ensures fails_for_memory_alone { IfErr result (λ r. r ≡ Refusal.Memory) }
    {
        self.places.insert(id, number)?;
        Ok(())
    }
}
