//! Onions of one or two hops, by named numbers.

ghost use Rattle.std.specs.Prelude.{◌≤◌};

use crate::calls::at;
use ln_bytes::Bytes;
use ln_keys::ToyOnion;
use ln_named_lines::number_of;
use std::alloc::{AllocError, Global};

/// Appends a number without leading zeros.
fn add_number(bytes: &mut Vec<u8>, number: u64) -> Result<(), AllocError> {
    let whole = number.to_be_bytes();
    let mut begun = false;
    for byte in &whole {
        begun = begun || *byte != 0;
        if begun {
            bytes.push(*byte)?;
        }
    }
    Ok(())
}

/// How many bytes that takes.
fn width(number: u64) -> u8
    ensures { result ≤ 8 }
{
    match number {
        0 => 0,
        1..0x100 => 1,
        0x100..0x1_0000 => 2,
        0x1_0000..0x100_0000 => 3,
        0x100_0000..0x1_0000_0000 => 4,
        0x1_0000_0000..0x100_0000_0000 => 5,
        0x100_0000_0000..0x1_0000_0000_0000 => 6,
        0x1_0000_0000_0000..0x100_0000_0000_0000 => 7,
        _ => 8,
    }
}

fn add_record(bytes: &mut Vec<u8>, typ: u8, number: u64) -> Result<(), AllocError> {
    bytes.extend_from_slice(&[typ, width(number)])?;
    add_number(bytes, number)
}

/// The records of those that a line names: an amount, an expiry, a short channel id, and a payment's secret with its
/// total.
fn payload_of(alloc: Global, words: &[&str]) -> Result<Vec<u8>, AllocError> {
    let mut bytes = Vec::new(alloc);
    if let Some(amount) = number_of(words, "forward_amount") {
        add_record(&mut bytes, 2, amount)?;
    }
    if let Some(expiry) = number_of(words, "forward_expiry") {
        add_record(&mut bytes, 4, expiry)?;
    }
    if let Some(id) = number_of(words, "short_id") {
        bytes.extend_from_slice(&[6, 8])?;
        bytes.extend_from_slice(&id.to_be_bytes())?;
    }
    if let Some(secret) = number_of(words, "secret") {
        add_payment(&mut bytes, secret, at(words, "total"))?;
    }
    if at(words, "fault") == 4 {
        bytes.push(255)?;
    }
    Ok(bytes)
}

fn add_payment(bytes: &mut Vec<u8>, secret: u64, total: u64) -> Result<(), AllocError> {
    bytes.extend_from_slice(&[8, 32 + width(total)])?;
    bytes.extend_from_slice(&[(secret % 256) as u8; 32])?;
    add_number(bytes, total)
}

/// The payloads: this hop's, and 2, 1, 5 for one after it.
fn payloads_of(alloc: Global, words: &[&str]) -> Result<Vec<Bytes>, AllocError> {
    let mut all = Vec::new(alloc);
    all.push(Bytes::new(payload_of(alloc, words)?))?;
    if at(words, "final") == 0 {
        all.push(Bytes::from_slice(alloc, &[2, 1, 5])?)?;
    }
    Ok(all)
}

/// The onion of a line's numbers: its fault (0 none, 1 its version, 2 its key, 3 its HMAC, 4 its payload), whether the
/// hop is the final one, and the payload's records.
pub fn onion_of(alloc: Global, words: &[&str], hash: &[u8; 32]) -> Result<[u8; 1366], AllocError> {
    let payloads = payloads_of(alloc, words)?;
    let mut onion = match ToyOnion::make(payloads.as_slice(), hash) {
        None => [0; 1366],
        Some(onion) => onion,
    };
    match at(words, "fault") {
        1 => onion[0] = 1,
        2 => onion[1] = 3,
        3 => onion[1365] = onion[1365] ^ 1,
        _ => {}
    }
    Ok(onion)
}
