//! A list of signatures.

use std::alloc::Global;
use std::marker::Model;

/// Signatures of 64 bytes each in their order, which contracts see as a list of byte strings.
///
/// They are made from a `Vec` and give it back without taking memory.
#[derive(Drop)]
pub struct Signatures {
    items: Vec<[u8; 64]>,
}

impl Model for Signatures {
    ghost use Rattle.std.specs.Prelude.{ℕ, List};

    ghost Value = { List (List ℕ) };

    ghost view = { λ s. s.items.items };
}

impl Signatures {
    ghost use Rattle.std.specs.Prelude.{◌≡◌, [], length};

    /// No signatures. Takes no memory.
    pub fn empty(alloc: Global) -> Signatures
        ensures { result ≡ [] }
    {
        Signatures {
            items: Vec::new(alloc),
        }
    }

    /// The signatures of a vector. Takes no memory.
    pub fn new(items: Vec<[u8; 64]>) -> Signatures
        ensures { result ≡ items.items }
    {
        Signatures { items }
    }

    /// The vector. Takes no memory.
    pub fn into_vec(self) -> Vec<[u8; 64]>
        ensures { result.items ≡ self }
    {
        self.items
    }

    /// The signatures in order.
    pub fn as_slice(&self) -> &[[u8; 64]]
        ensures { result.now ≡ self.now }
    {
        self.items.as_slice()
    }

    /// How many signatures there are.
    pub fn len(&self) -> usize
        ensures { result ≡ length self.now }
    {
        self.items.len()
    }
}
