//! Bytes that were written by hand, as hex digits.

ghost use Rattle.std.specs.Prelude.{◌<◌};

use ln_refusals::Refusal;
use ln_store::stored::put_u8;
use std::alloc::Global;

/// Hex digits, and how many times they stand there.
pub type Part = (&'static str, u32);

fn digit_of(code: u8) -> u8
    ensures { result < 16 }
{
    match code {
        b'0'..=b'9' => code - b'0',
        b'a'..=b'f' => code - b'a' + 10,
        _ => 0,
    }
}

fn put_digits(out: &mut Vec<u8>, digits: &[u8]) -> Result<(), Refusal> {
    for i in 0..digits.len() / 2 {
        put_u8(
            out,
            digit_of(digits[2 * i]) * 16 + digit_of(digits[2 * i + 1]),
        )?;
    }
    Ok(())
}

/// The bytes that these digits spell, one part after the other. 60 where there is no memory.
pub fn bytes_of(alloc: Global, row: &[Part]) -> Result<Vec<u8>, Refusal> {
    let mut out = Vec::new(alloc);
    for (digits, times) in row {
        for _ in 0..*times {
            put_digits(&mut out, digits.as_bytes())?;
        }
    }
    Ok(out)
}
