//! Bytes that a line names.

use hex::FromHexError;
use std::alloc::{AllocError, Global};

/// The bytes of a part in hexadecimal, or one so many times, as in 00x1366, at most 65,535; false for any other text.
fn put_part(alloc: Global, bytes: &mut Vec<u8>, part: &str) -> Result<bool, AllocError> {
    let (digits, count) = part.split_once("x").unwrap_or((part, "1"));
    let repeated = match hex::decode(alloc, digits) {
        Ok(repeated) => repeated,
        Err(FromHexError::OutOfMemory) => return Err(AllocError),
        Err(_) => return Ok(false),
    };
    for _ in 0..count.parse().unwrap_or(0u16) {
        bytes.extend_from_slice(repeated.as_slice())?;
    }
    Ok(true)
}

/// The bytes of parts with commas between; none where one isn't hexadecimal.
pub fn bytes_of_parts(alloc: Global, parts: &str) -> Result<Option<Vec<u8>>, AllocError> {
    let mut bytes = Vec::new(alloc);
    for part in parts.split(',') {
        if !put_part(alloc, &mut bytes, part)? {
            return Ok(None);
        }
    }
    Ok(Some(bytes))
}

/// So many bytes of a kind, at most 65,535.
pub fn filled(alloc: Global, byte: u8, count: u64) -> Result<Vec<u8>, AllocError> {
    let mut bytes = Vec::new(alloc);
    bytes.resize((count % 0x1_0000) as usize, byte)?;
    Ok(bytes)
}
