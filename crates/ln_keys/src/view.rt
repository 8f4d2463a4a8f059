//! What a commitment is worth to each side.

use crate::role::Role;
use std::marker::Model;

/// A live HTLC of a commitment.
#[derive(Clone, Copy, PartialEq, Eq)]
pub struct Htlc {
    /// The side that offered it.
    pub owner: Role,
    /// Its number among those that its owner has offered.
    pub id: u64,
    /// In millisatoshi.
    pub amount: u64,
    /// The payment hash.
    pub hash: [u8; 32],
    /// The block height at which it times out.
    pub expiry: u32,
}

/// The HTLCs of a commitment, which contracts see as a list.
///
/// Made from a `Vec`, and gives it back, without taking memory.
#[derive(Drop)]
pub struct Htlcs {
    items: Vec<Htlc>,
}

impl Model for Htlcs {
    ghost use Rattle.std.specs.Prelude.{List};
    ghost use Rattle.ln_keys.specs.declared.view.Htlc.{Htlc};

    ghost Value = { List Htlc };

    ghost view = { λ h. h.items.items };
}

impl Htlcs {
    ghost use Rattle.std.specs.Prelude.{◌≡◌, length};

    /// The HTLCs of a vector.
    pub fn new(items: Vec<Htlc>) -> Htlcs
        ensures { result ≡ items.items }
    {
        Htlcs { items }
    }

    /// The vector.
    pub fn into_vec(self) -> Vec<Htlc>
        ensures { result.items ≡ self }
    {
        self.items
    }

    /// The HTLCs in order.
    pub fn as_slice(&self) -> &[Htlc]
        ensures { result.now ≡ self.now }
    {
        self.items.as_slice()
    }

    /// How many there are.
    pub fn len(&self) -> usize
        ensures { result ≡ length self.now }
    {
        self.items.len()
    }
}

/// What a commitment is worth: each side's balance in millisatoshi, the feerate, and the live HTLCs, the
/// funder's by id and then the fundee's by id.
#[derive(Drop)]
pub struct View {
    pub funder: u64,
    pub fundee: u64,
    pub feerate: u32,
    pub htlcs: Htlcs,
}
