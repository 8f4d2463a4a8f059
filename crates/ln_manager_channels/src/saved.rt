//! What a channel is loaded from.

use ln_bytes::Bytes;

/// What a channel is loaded from.
#[derive(Drop)]
pub struct Saved<K: Drop> {
    /// Its keys.
    pub keys: K,
    /// Its record.
    pub bytes: Bytes,
}
