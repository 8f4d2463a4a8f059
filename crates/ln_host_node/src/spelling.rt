//! What a node's host hands in and is handed, as bytes.

use ln_bytes::Bytes;
use ln_forward::Policy;
use ln_hooks::{FailureCode, Verdict};
use ln_host::{HostRecord, HostRefusal};
use ln_keys::{OpenFault, Opened};
use ln_refusals::Refusal;
use ln_store::stored::{
    array_at, long_at, put, put_long, put_u8, put_u64, short_at, u16_at, u32_at, u64_at,
};
use ln_wire::{decode_saved, encode_saved};
use std::alloc::Global;

/// What a node is made with.
#[derive(Clone, Copy)]
pub(crate) struct Settings {
    pub(crate) policy: Policy,
    pub(crate) mark: [u8; 32],
}

/// `fee_base_msat` in four bytes, `fee_proportional_millionths` in four, `cltv_expiry_delta` in two, and the mark of
/// 32. Error: 70 where the bytes aren't these.
pub(crate) fn settings_of(bytes: &[u8]) -> Result<Settings, Refusal> {
    let (base, rest) = u32_at(bytes)?;
    let (proportional, rest) = u32_at(rest)?;
    let (delta, rest) = u16_at(rest)?;
    let (mark, rest) = array_at(rest)?;
    if !rest.is_empty() {
        return Err(Refusal::Damaged);
    }
    let policy = Policy {
        base,
        proportional,
        delta,
    };
    Ok(Settings { policy, mark })
}

// The record at the front of the bytes, after its length.
fn record_at(alloc: Global, bytes: &[u8]) -> Result<(HostRecord, &[u8]), Refusal> {
    let (saved, rest) = long_at(alloc, bytes)?;
    let record = decode_saved(alloc, saved.as_slice())?;
    Ok((record, rest))
}

/// Records, each after its length in eight bytes. Errors: 70 where the bytes are none, 60.
pub(crate) fn records_at(alloc: Global, bytes: &[u8]) -> Result<Vec<HostRecord>, Refusal> {
    let mut records = Vec::new(alloc);
    let mut rest = bytes;
    for _ in 0..u64::MAX {
        if rest.is_empty() {
            return Ok(records);
        }
        let (record, after) = record_at(alloc, rest)?;
        records.push(record)?;
        rest = after;
    }
    Ok(records)
}

/// What a host says of an event: a byte 0 to go on, 1 and a code of two bytes to fail the payment, 2 to hold it. Error:
/// 81 for other bytes, also for a code that isn't one of those.
pub(crate) fn verdict_of(bytes: &[u8]) -> Result<Verdict, HostRefusal> {
    match bytes {
        [0] => Ok(Verdict::Continue),
        [1, high, low] => match FailureCode::new(u16::from(*high) * 256 + u16::from(*low)) {
            None => Err(HostRefusal::Answer),
            Some(code) => Ok(Verdict::Fail(code)),
        },
        [2] => Ok(Verdict::Hold),
        _ => Err(HostRefusal::Answer),
    }
}

/// What a host has found in an onion.
pub(crate) type Found = Result<Opened, OpenFault>;

// A payload after its length in two bytes, and the next onion, where there is one.
fn opened_at(alloc: Global, bytes: &[u8]) -> Result<Opened, Refusal> {
    let (payload, rest) = short_at(alloc, bytes)?;
    if rest.is_empty() {
        return Ok(Opened {
            payload,
            next: None,
        });
    }
    if rest.len() != 1366 {
        drop(payload);
        return Err(Refusal::Damaged);
    }
    let next = Some(Bytes::from_slice(alloc, rest)?);
    Ok(Opened { payload, next })
}

// What was found, of what follows the kind.
fn opened_in(alloc: Global, bytes: &[u8]) -> Result<Found, HostRefusal> {
    match opened_at(alloc, bytes) {
        Ok(opened) => Ok(Ok(opened)),
        Err(Refusal::Memory) => Err(HostRefusal::Refused(Refusal::Memory)),
        Err(_) => Err(HostRefusal::Answer),
    }
}

/// What a host has found in an onion: a byte 0, the payload after its length in two bytes, and the next onion, if there
/// is one; or a byte 1 for an unknown version, 2 for a wrong HMAC, 3 for a key that can't be read, 4 for a payload that
/// can't be. Errors: 81 for other bytes, 60.
pub(crate) fn found_of(alloc: Global, bytes: &[u8]) -> Result<Found, HostRefusal> {
    match bytes {
        [0, rest @ ..] => opened_in(alloc, rest),
        [1] => Ok(Err(OpenFault::Version)),
        [2] => Ok(Err(OpenFault::Hmac)),
        [3] => Ok(Err(OpenFault::Key)),
        [4] => Ok(Err(OpenFault::Payload)),
        _ => Err(HostRefusal::Answer),
    }
}

/// The record of a channel in a batch: the channel's number in eight bytes, and what `decode_saved` reads after its
/// length in eight.
pub(crate) fn put_saved(
    alloc: Global,
    out: &mut Vec<u8>,
    channel: usize,
    record: &HostRecord,
) -> Result<(), Refusal> {
    let bytes = encode_saved(alloc, record)?;
    put_u64(out, channel as u64)?;
    put_long(out, bytes.as_slice())
}

/// The front of an item that is of a channel: its kind, and the channel's number in eight bytes.
pub(crate) fn item_of(alloc: Global, kind: u8, channel: usize) -> Result<Vec<u8>, Refusal> {
    let mut out = Vec::new(alloc);
    put_u8(&mut out, kind)?;
    put_u64(&mut out, channel as u64)?;
    Ok(out)
}

/// Bytes as they are.
pub(crate) fn put_all(out: &mut Vec<u8>, bytes: &[u8]) -> Result<(), Refusal> {
    put(out, bytes)
}
