//! SHA-256.

ghost use Rattle.std.specs.Prelude.{◌≡◌};
ghost use Rattle.ln_keys.specs.Hash.{payment_hash};

use sha2::{Digest, Sha256};

/// The SHA-256 of some bytes: of a preimage it is the payment hash (BOLT 2, "Removing an HTLC"). Takes no
/// memory.
pub fn sha256_32(bytes: &[u8]) -> [u8; 32]
    ensures { result ≡ payment_hash bytes.now }
{
    let mut hasher = Sha256::new();
    hasher.update(bytes);
    hasher.finalize()
}
