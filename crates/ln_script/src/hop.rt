//! A hop of a payment.

use ln_bytes::ShortId;

/// What a hop forwards: so many msat, by the channel with this short id, to time out at this block height.
#[derive(Clone, Copy, PartialEq, Eq)]
pub(crate) struct Hop {
    pub amount: u64,
    pub expiry: u32,
    pub id: ShortId,
}
