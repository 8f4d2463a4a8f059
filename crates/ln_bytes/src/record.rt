//! A record of a TLV stream.

use crate::bytes::Bytes;

/// One record of a TLV stream (BOLT 1, "Type-Length-Value Format"): a type and a value.
#[derive(Clone, Drop)]
pub struct Record {
    /// The type, which tells what the value means.
    pub typ: u64,
    /// The value.
    pub value: Bytes,
}
