//! Where a channel's funding stands on the chain, as it is stored.

use ln_bytes::ShortId;
use std::marker::Model;

/// A short channel id, which contracts see as its eight bytes (BOLT 7, "Definition of `short_channel_id`").
#[derive(Drop)]
pub struct ChainPlace {
    id: ShortId,
}

impl Model for ChainPlace {
    ghost use Rattle.std.specs.Prelude.{ℕ, List};
    ghost use Rattle.ln_bytes.specs.ShortId.{short_id_bytes};

    ghost Value = { List ℕ };

    ghost view = { λ p. short_id_bytes p.id.block p.id.tx p.id.output };
}

impl ChainPlace {
    ghost use Rattle.std.specs.Prelude.{◌≡◌};
    ghost use Rattle.ln_bytes.specs.ShortId.{short_id_bytes};

    /// The place of this id. Takes no memory.
    pub fn new(id: ShortId) -> ChainPlace
        ensures { result ≡ short_id_bytes id.block id.tx id.output }
    {
        ChainPlace { id }
    }

    /// The id. Takes no memory.
    pub fn id(&self) -> ShortId
        ensures { short_id_bytes result.block result.tx result.output ≡ self.now }
    {
        self.id
    }

    /// The place of these bytes. Takes no memory.
    pub(crate) fn from_bytes(bytes: &[u8; 8]) -> ChainPlace
        ensures { result ≡ bytes.now }
    {
        ChainPlace {
            id: ShortId::from_bytes(bytes),
        }
    }

    /// The eight bytes. Takes no memory.
    pub(crate) fn to_bytes(&self) -> [u8; 8]
        ensures { result ≡ self.now }
    {
        self.id.to_bytes()
    }
}
