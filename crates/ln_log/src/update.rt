//! What a side proposes.

ghost use Rattle.std.specs.Prelude.{◌≡◌, IfOk, IfErr};
ghost use Rattle.ln_log.specs.Updates.{removed};

use crate::outcome::Outcome;
use ln_bytes::Bytes;
use ln_refusals::Refusal;
use std::alloc::Global;

/// A channel's id (BOLT 2, "Definition of `channel_id`").
pub type ChannelId = [u8; 32];

/// An HTLC that is offered: the fields of `update_add_htlc` (BOLT 2, "Adding an HTLC"), without the
/// channel id.
#[derive(Clone, Copy, PartialEq, Eq)]
pub struct Add {
    /// Counts the HTLCs that its sender has offered in this channel, from 0.
    pub id: u64,
    /// In millisatoshi.
    pub amount: u64,
    /// The SHA-256 of the preimage by which the HTLC is fulfilled.
    pub hash: [u8; 32],
    /// The block height at which the HTLC times out.
    pub expiry: u32,
    /// What the receiver forwards by (BOLT 4).
    pub onion: [u8; 1366],
    /// The incoming channel and HTLC that an own add forwards. It isn't sent.
    pub origin: Option<(ChannelId, u64)>,
}

/// An HTLC is fulfilled: the fields of `update_fulfill_htlc` (BOLT 2, "Removing an HTLC").
#[derive(Clone, Copy, PartialEq, Eq)]
pub struct Fulfil {
    /// The HTLC, by the id that its offerer gave it.
    pub id: u64,
    /// What the payment hash is the SHA-256 of.
    pub preimage: [u8; 32],
}

/// An HTLC has failed: the fields of `update_fail_htlc` (BOLT 2, "Removing an HTLC").
#[derive(Clone, Drop)]
pub struct Fail {
    /// The HTLC, by the id that its offerer gave it.
    pub id: u64,
    /// Why, for the payment's origin alone (BOLT 4, "Returning Errors"), at most 65,491 bytes.
    pub reason: Bytes,
}

/// An HTLC's onion couldn't be read: the fields of `update_fail_malformed_htlc` (BOLT 2, "Removing an
/// HTLC").
#[derive(Clone, Copy, PartialEq, Eq)]
pub struct Malformed {
    /// The HTLC, by the id that its offerer gave it.
    pub id: u64,
    /// The SHA-256 of the onion as it came.
    pub sha256_of_onion: [u8; 32],
    /// What was wrong; the BADONION bit, 0x8000, is set.
    pub failure_code: u16,
}

/// The feerate changes: the field of `update_fee` (BOLT 2, "Updating Fees").
#[derive(Clone, Copy, PartialEq, Eq)]
pub struct Fee {
    /// In satoshi per 1000 weight.
    pub feerate: u32,
}

/// A change that a side proposes to both commitments (BOLT 2, "Normal Operation").
#[derive(Clone, Drop)]
pub enum Update {
    /// An HTLC is offered.
    Add(Add),
    /// An HTLC of the other side is fulfilled.
    Fulfil(Fulfil),
    /// An HTLC of the other side has failed.
    Fail(Fail),
    /// An HTLC of the other side has an onion that can't be read.
    Malformed(Malformed),
    /// The funder changes the feerate.
    Fee(Fee),
}

/// Which HTLC an update removes, and what becomes of it.
#[derive(Clone, Copy, PartialEq, Eq)]
pub struct Removal {
    /// The HTLC, by the id that its offerer gave it.
    pub id: u64,
    /// What becomes of it.
    pub outcome: Outcome,
}

/// Which HTLC an update removes, if any (BOLT 2, "Removing an HTLC").
pub fn removal_of(update: &Update) -> Option<Removal>
    ensures { result ≡ removed update.now }
{
    match update {
        Update::Add(_) => None,
        Update::Fulfil(fulfil) => Some(Removal {
            id: fulfil.id,
            outcome: Outcome::Fulfilled,
        }),
        Update::Fail(fail) => Some(Removal {
            id: fail.id,
            outcome: Outcome::Failed,
        }),
        Update::Malformed(malformed) => Some(Removal {
            id: malformed.id,
            outcome: Outcome::Failed,
        }),
        Update::Fee(_) => None,
    }
}
