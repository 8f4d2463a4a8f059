//! What a host saves of its link, whole.

use ln_bytes::{Bytes, Signatures};
use ln_store::Listed;

/// The peer's signatures over the own commitment of a number.
#[derive(Drop)]
pub struct HeldSignatures {
    /// The commitment's number.
    pub number: u64,
    /// Over the commitment: 64 bytes.
    pub signature: [u8; 64],
    /// Over its HTLCs, in the order of their outputs: 64 bytes each.
    pub htlc_signatures: Signatures,
}

/// The per commitment secret of a commitment of the peer's that is revoked.
#[derive(Clone, Copy)]
pub struct PeerSecret {
    /// The commitment's number.
    pub number: u64,
    /// The secret: 32 bytes.
    pub secret: [u8; 32],
}

/// What a host saves of its link, whole: the record, and what the chain may need that no record has.
#[derive(Drop)]
pub struct HostRecord {
    /// The channel's id: 32 bytes.
    pub channel: [u8; 32],
    /// The peer's signatures over the own commitment that this end holds.
    pub signatures: Option<HeldSignatures>,
    /// The secrets that the peer has told since the record before this one, the oldest first. A host keeps all of them,
    /// to punish a commitment that was revoked (BOLT 5, "Revoked Transaction Close Handling").
    pub secrets: Listed<PeerSecret>,
    /// The bytes of the record, from which the link comes back.
    pub record_bytes: Bytes,
}
