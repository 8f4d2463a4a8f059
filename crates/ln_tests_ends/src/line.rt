//! The numbers of a line by which a program is driven.

use std::alloc::{AllocError, Global};

/// The words of a line as numbers; 0 for a word that is none.
pub fn numbers(alloc: Global, line: &str) -> Result<Vec<u64>, AllocError> {
    let mut all = Vec::new(alloc);
    for word in line.split(' ') {
        all.push(word.parse().unwrap_or(0))?;
    }
    Ok(all)
}

/// The number at a place; 0 after the end.
pub fn at(words: &[u64], place: usize) -> u64 {
    match words.get(place) {
        None => 0,
        Some(number) => *number,
    }
}

/// The 32 bytes that a small number stands for.
pub fn bytes_of(number: u64) -> [u8; 32] {
    [(number % 256) as u8; 32]
}

pub fn wide(number: u64) -> u32 {
    (number % 0x1_0000_0000) as u32
}

pub fn code(number: u64) -> u16 {
    (number % 0x1_0000) as u16
}
