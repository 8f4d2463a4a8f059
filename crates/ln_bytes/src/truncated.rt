//! Truncated numbers (BOLT 1, "Fundamental Types"): big-endian, with the leading zero bytes left out.

ghost use Rattle.std.specs.Prelude.{◌≡◌, ℕ, ◌-◌, ◌<◌, ◌≤◌, ◌^◌, ◌⊎◌, List, ◌++◌, length, drop, IfOk, IfErr, Ok};
ghost use Rattle.ln_bytes.specs.Truncated.{truncated, truncated_at};

use crate::fault::Fault;
use byteorder::{BigEndian, ByteOrder};

/// Reads a `tu64`: all of the bytes, big-endian, at most eight, of which the first isn't zero. No
/// bytes are zero.
///
/// BOLT 1, "Fundamental Types". Takes no memory.
///
/// Errors: 8 (`FieldLength`) where there are more than eight bytes; else 2 (`NotMinimal`) where the
/// first is zero.
pub fn read_tu64(bytes: &[u8]) -> Result<u64, Fault>
    // What is read is spelled so.
    ensures is_spelled_so { IfOk result (λ n. bytes.now ≡ truncated n) }
    // What is spelled so is read.
    ensures reads_each_spelling { (n : ℕ) → n < 2 ^ 64 → bytes.now ≡ truncated n → result ≡ Ok n }
    // What is refused has one of two faults.
    ensures has_one_of_two_faults { IfErr result (λ e. (e ≡ Fault.FieldLength) ⊎ (e ≡ Fault.NotMinimal)) }
    // Which answer it is, and which fault comes first.
    ensures reads_as_defined { result ≡ truncated_at 8 bytes.now }
{
    number_in(bytes, 8)
}

/// Reads a `tu32`: all of the bytes, big-endian, at most four, of which the first isn't zero. No
/// bytes are zero.
///
/// BOLT 1, "Fundamental Types". Takes no memory.
///
/// Errors: 8 (`FieldLength`) where there are more than four bytes; else 2 (`NotMinimal`) where the
/// first is zero.
pub fn read_tu32(bytes: &[u8]) -> Result<u32, Fault>
    // What is read is spelled so.
    ensures is_spelled_so { IfOk result (λ n. bytes.now ≡ truncated n) }
    // What is spelled so is read.
    ensures reads_each_spelling { (n : ℕ) → n < 2 ^ 32 → bytes.now ≡ truncated n → result ≡ Ok n }
    // What is refused has one of two faults.
    ensures has_one_of_two_faults { IfErr result (λ e. (e ≡ Fault.FieldLength) ⊎ (e ≡ Fault.NotMinimal)) }
    // Which answer it is, and which fault comes first.
    ensures reads_as_defined { result ≡ truncated_at 4 bytes.now }
{
    match number_in(bytes, 4) {
        Ok(number) => Ok(number as u32),
        Err(fault) => Err(fault),
    }
}

// The number in a field that has room for so many bytes.
fn number_in(bytes: &[u8], room: usize) -> Result<u64, Fault>
    requires { room ≤ 8 }
    ensures { result ≡ truncated_at room bytes.now }
{
    if bytes.len() > room {
        return Err(Fault::FieldLength);
    }
    match bytes {
        [] => Ok(0),
        [0, ..] => Err(Fault::NotMinimal),
        [_, ..] => Ok(BigEndian::read_uint(bytes, bytes.len())),
    }
}

/// Writes the number as a `tu64` at the front of `out`, and says how many bytes it takes. The bytes
/// after it stay as they were. A number below 2^32 is so written as a `tu32` too.
///
/// BOLT 1, "Fundamental Types". Takes no memory.
pub fn write_tu64(number: u64, out: &mut [u8; 8]) -> usize
    ensures counts_its_bytes { result ≡ length (truncated number) }
    ensures writes_the_spelling { out.new ≡ truncated number ++ drop result out.old }
{
    let len = byte_len(number);
    if len > 0 {
        BigEndian::write_uint(out, number, len);
    }
    len
}

// How many bytes the number takes without leading zero bytes.
fn byte_len(number: u64) -> usize
    ensures is_eight_at_most { result ≤ 8 }
    ensures holds_the_number { number < 256 ^ result }
    ensures leaves_no_zero_in_front { 0 < result → 256 ^ (result - 1) ≤ number }
{
    match number {
        0 => 0,
        1..=0xff => 1,
        0x100..=0xffff => 2,
        0x1_0000..=0xff_ffff => 3,
        0x100_0000..=0xffff_ffff => 4,
        0x1_0000_0000..=0xff_ffff_ffff => 5,
        0x100_0000_0000..=0xffff_ffff_ffff => 6,
        0x1_0000_0000_0000..=0xff_ffff_ffff_ffff => 7,
        _ => 8,
    }
}

/// A law: no two numbers have the same spelling. (One spelling may begin another: a truncated number
/// is read as a whole input.)
pub fn one_truncated()
    ensures { (m n : ℕ) → m < 2 ^ 64 → n < 2 ^ 64 → truncated m ≡ truncated n → m ≡ n }
{}
