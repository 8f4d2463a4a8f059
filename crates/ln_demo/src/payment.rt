//! The payment.

use ln_bytes::Bytes;
use ln_keys::ToyOnion;
use ln_refusals::Refusal;
use ln_toy_channels::POLICY;
use std::alloc::Global;

/// What is paid, in millisatoshi.
pub(crate) const AMOUNT: u64 = 5_000_000;

/// What the payer offers: the amount, and what the node in the middle asks for it.
pub(crate) const OFFERED: u64 = 5_001_500;

// What is offered pays for the forwarding (BOLT 7, "HTLC Fees").
const _: () = prove!(
    OFFERED == AMOUNT + (POLICY.base as u64) + AMOUNT * (POLICY.proportional as u64) / 1_000_000
);

/// The block height at which the payer's HTLC times out; that of the middle node 40 blocks before.
pub(crate) const EXPIRY: u32 = 440;

/// What the payment hash is the SHA-256 of.
pub(crate) const PREIMAGE: [u8; 32] = [7; 32];

/// The payment's secret.
pub(crate) const SECRET: [u8; 32] = [8; 32];

// What the middle node finds in the onion (BOLT 4, "`payload` Format"): amt_to_forward 5,000,000, outgoing_cltv_value
// 400, short_channel_id 2x1x0.
const MIDDLE: [u8; 19] = [
    2, 3, 0x4c, 0x4b, 0x40, 4, 2, 1, 0x90, 6, 8, 0, 0, 2, 0, 0, 1, 0, 0,
];

// What the last node finds: the same amount and expiry, and payment_data with the secret and the amount.
const LAST: [u8; 46] = [
    2, 3, 0x4c, 0x4b, 0x40, 4, 2, 1, 0x90, 8, 35, 8, 8, 8, 8, 8, 8, 8, 8, 8, 8, 8, 8, 8, 8, 8, 8,
    8, 8, 8, 8, 8, 8, 8, 8, 8, 8, 8, 8, 8, 8, 8, 8, 0x4c, 0x4b, 0x40,
];

/// The onion of the payment.
pub(crate) fn onion(alloc: Global, hash: &[u8; 32]) -> Result<[u8; 1366], Refusal> {
    let mut payloads = Vec::new(alloc);
    payloads.push(Bytes::from_slice(alloc, &MIDDLE)?)?;
    payloads.push(Bytes::from_slice(alloc, &LAST)?)?;
    match ToyOnion::make(payloads.as_slice(), hash) {
        Some(onion) => Ok(onion),
        None => Err(Refusal::TooLong),
    }
}
