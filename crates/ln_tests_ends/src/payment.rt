//! Payments by number: each pays 1,000,000 millisatoshi from one side of the row to the other.

use ln_bytes::Bytes;
use ln_channel::Command;
use ln_keys::{ToyOnion, sha256_32};
use ln_refusals::Refusal;
use std::alloc::Global;

/// What the payee gets, in millisatoshi.
pub const AMOUNT: u64 = 1_000_000;

/// What the middle node asks for it: 1000, and 100 of each million.
pub const FEE: u64 = 1100;

/// The payment's secret.
pub const SECRET: [u8; 32] = [8; 32];

/// What its payment hash is the SHA-256 of: its number, big-endian, and a filling.
pub fn preimage(number: u64) -> [u8; 32] {
    let mut bytes = [7; 32];
    bytes[..8].copy_from_slice(&number.to_be_bytes());
    bytes
}

// What the middle node finds in the onion (BOLT 4, "`payload` Format"): amt_to_forward, outgoing_cltv_value 400, and
// short_channel_id BLOCKx1x0.
fn middle(block: u8) -> [u8; 19] {
    [
        2, 3, 0x0f, 0x42, 0x40, 4, 2, 1, 0x90, 6, 8, 0, 0, block, 0, 0, 1, 0, 0,
    ]
}

// What the payee finds: the same amount and expiry, and payment_data with the secret and the amount.
const LAST: [u8; 46] = [
    2, 3, 0x0f, 0x42, 0x40, 4, 2, 1, 0x90, 8, 35, 8, 8, 8, 8, 8, 8, 8, 8, 8, 8, 8, 8, 8, 8, 8, 8,
    8, 8, 8, 8, 8, 8, 8, 8, 8, 8, 8, 8, 8, 8, 8, 8, 0x0f, 0x42, 0x40,
];

/// What orders the payment of this number over the channel in this block, for this fee.
pub fn order(alloc: Global, number: u64, block: u8, fee: u64) -> Result<Command, Refusal> {
    let hash = sha256_32(&preimage(number));
    let mut payloads = Vec::new(alloc);
    payloads.push(Bytes::new(Vec::from_slice(alloc, &middle(block))?))?;
    payloads.push(Bytes::new(Vec::from_slice(alloc, &LAST)?))?;
    let Some(onion) = ToyOnion::make(payloads.as_slice(), &hash) else {
        return Err(Refusal::TooLong);
    };
    Ok(Command::Add {
        amount: AMOUNT.wrapping_add(fee),
        hash,
        expiry: 440,
        onion,
        origin: None,
    })
}
