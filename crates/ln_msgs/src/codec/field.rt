//! Readers of one field at the front of bytes. Each answers the value and the bytes after it, or fault 1 where
//! the bytes end too soon.

ghost use Rattle.ln_bytes.specs.Reading.{Gives, Reads};
ghost use Rattle.ln_msgs.specs.Codec.Field.{bytes_at as fixed_at, number_at, string_at, list_at, items_at};

use byteorder::{BigEndian, ByteOrder};
use ln_bytes::{Bytes, Fault, Signatures};
use std::alloc::Global;

/// One byte.
pub(crate) fn u8_at(bytes: &[u8]) -> Result<(u8, &[u8]), Fault>
    ensures { Reads (λ x. (x.0, x.1.now)) result (number_at 1 bytes.now) }
{
    match bytes {
        [] => Err(Fault::Truncated),
        [first, rest @ ..] => Ok((*first, rest)),
    }
}

/// Two bytes, the highest first.
pub(crate) fn u16_at(bytes: &[u8]) -> Result<(u16, &[u8]), Fault>
    ensures { Reads (λ x. (x.0, x.1.now)) result (number_at 2 bytes.now) }
{
    if bytes.len() < 2 {
        return Err(Fault::Truncated);
    }
    Ok((BigEndian::read_u16(bytes), &bytes[2..]))
}

/// Four bytes, the highest first.
pub(crate) fn u32_at(bytes: &[u8]) -> Result<(u32, &[u8]), Fault>
    ensures { Reads (λ x. (x.0, x.1.now)) result (number_at 4 bytes.now) }
{
    if bytes.len() < 4 {
        return Err(Fault::Truncated);
    }
    Ok((BigEndian::read_u32(bytes), &bytes[4..]))
}

/// Eight bytes, the highest first.
pub(crate) fn u64_at(bytes: &[u8]) -> Result<(u64, &[u8]), Fault>
    ensures { Reads (λ x. (x.0, x.1.now)) result (number_at 8 bytes.now) }
{
    if bytes.len() < 8 {
        return Err(Fault::Truncated);
    }
    Ok((BigEndian::read_u64(bytes), &bytes[8..]))
}

/// So many bytes.
pub(crate) fn array_at<const N: usize>(bytes: &[u8]) -> Result<([u8; N], &[u8]), Fault>
    ensures { Reads (λ x. (x.0, x.1.now)) result (fixed_at N bytes.now) }
{
    match bytes.split_first_chunk::<N>() {
        Some((front, rest)) => Ok((*front, rest)),
        None => Err(Fault::Truncated),
    }
}

/// The bytes after a length in two bytes.
#[tactic(auto, unfolding(crate::specs::Codec::Field::string_at))]
pub(crate) fn sized_at(bytes: &[u8]) -> Result<(&[u8], &[u8]), Fault>
    ensures { Reads (λ x. (x.0.now, x.1.now)) result (string_at bytes.now) }
{
    let (len, rest) = u16_at(bytes)?;
    let len = usize::from(len);
    if rest.len() < len {
        return Err(Fault::Truncated);
    }
    Ok(rest.split_at(len))
}

/// A byte string after its length in two bytes. Takes memory for it.
pub(crate) fn bytes_at(alloc: Global, bytes: &[u8]) -> Result<(Bytes, &[u8]), Fault>
    ensures { Gives (λ x. (x.0, x.1.now)) result (string_at bytes.now) }
{
    let (front, rest) = sized_at(bytes)?;
    Ok((Bytes::from_slice(alloc, front)?, rest))
}

/// Signatures after their count in two bytes. Takes memory for them.
#[tactic(auto, unfolding(crate::specs::Codec::Field::list_at))]
pub(crate) fn signatures_at(alloc: Global, bytes: &[u8]) -> Result<(Signatures, &[u8]), Fault>
    ensures { Gives (λ x. (x.0, x.1.now)) result (list_at 64 bytes.now) }
{
    let (count, rest) = u16_at(bytes)?;
    let (items, rest) = signature_items_at(alloc, count, rest)?;
    Ok((Signatures::new(items), rest))
}

fn signature_items_at(
    alloc: Global,
    count: u16,
    bytes: &[u8],
) -> Result<(Vec<[u8; 64]>, &[u8]), Fault>
    ensures { Gives (λ x. (x.0.items, x.1.now)) result (items_at 64 count bytes.now) }
{
    let mut items = Vec::new(alloc);
    let mut rest = bytes;
    for _ in 0..count {
        let (item, after) = array_at(rest)?;
        items.push(item)?;
        rest = after;
    }
    Ok((items, rest))
}
