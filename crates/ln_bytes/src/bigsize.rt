//! BigSize numbers (BOLT 1, "Fundamental Types"): one, three, five or nine bytes, in the shortest
//! form.

ghost use Rattle.std.specs.Prelude.{◌≡◌, ℕ, ◌+◌, ◌<◌, ◌≤◌, ◌^◌, ◌⊎◌, List, ◌++◌, length, take, drop, IfOk, IfErr, Ok};
ghost use Rattle.ln_bytes.specs.Bigsize.{bigsize, bigsize_at, long_at};

use crate::fault::Fault;
use byteorder::{BigEndian, ByteOrder};

/// How many bytes the number takes as a BigSize: 1, 3, 5 or 9.
///
/// BOLT 1, "Fundamental Types". Takes no memory.
pub fn bigsize_len(number: u64) -> usize
    ensures { result ≡ length (bigsize number) }
{
    match number {
        0..=252 => 1,
        253..=0xffff => 3,
        0x1_0000..=0xffff_ffff => 5,
        _ => 9,
    }
}

/// Reads the BigSize at the front of the bytes, and says how many bytes it takes. Others may follow.
///
/// A number below 253 is one byte; one up to 65,535 is `fd` and two bytes; one up to 2^32 - 1 is
/// `fe` and four; any other is `ff` and eight, all big-endian (BOLT 1, "Fundamental Types").
/// Takes no memory.
///
/// Errors: 1 (`Truncated`) where the bytes end inside the number or there are none; 2 (`NotMinimal`)
/// where a shorter form would do.
pub fn read_bigsize(bytes: &[u8]) -> Result<(u64, usize), Fault>
    // What is read is spelled so.
    ensures is_spelled_so { IfOk result (λ r. (r.0 < 2 ^ 64) × (bytes.now ≡ bigsize r.0 ++ drop r.1 bytes.now)) }
    // It takes as many bytes as it is spelled with, and no more than there are.
    ensures takes_its_spelling { IfOk result (λ r. (r.1 ≡ length (bigsize r.0)) × (r.1 ≤ length bytes.now)) }
    // What is spelled so is read, whatever follows.
    ensures reads_each_spelling { (n : ℕ) (rest : List ℕ) → n < 2 ^ 64 → bytes.now ≡ bigsize n ++ rest
        → result ≡ Ok (n, length (bigsize n)) }
    // What is refused has one of two faults.
    ensures has_one_of_two_faults { IfErr result (λ e. (e ≡ Fault.Truncated) ⊎ (e ≡ Fault.NotMinimal)) }
    // Which answer it is, and which fault comes first.
    ensures reads_as_defined { result ≡ bigsize_at bytes.now }
{
    first_number(bytes)
}

fn first_number(bytes: &[u8]) -> Result<(u64, usize), Fault>
    ensures { result ≡ bigsize_at bytes.now }
{
    match bytes {
        [] => Err(Fault::Truncated),
        [253, rest @ ..] => two_bytes(rest),
        [254, rest @ ..] => four_bytes(rest),
        [255, rest @ ..] => eight_bytes(rest),
        [first, ..] => Ok((u64::from(*first), 1)),
    }
}

fn two_bytes(rest: &[u8]) -> Result<(u64, usize), Fault>
    ensures { result ≡ long_at 2 253 rest.now }
{
    if rest.len() < 2 {
        return Err(Fault::Truncated);
    }
    let number = u64::from(BigEndian::read_u16(rest));
    if number < 253 {
        return Err(Fault::NotMinimal);
    }
    Ok((number, 3))
}

fn four_bytes(rest: &[u8]) -> Result<(u64, usize), Fault>
    ensures { result ≡ long_at 4 65536 rest.now }
{
    if rest.len() < 4 {
        return Err(Fault::Truncated);
    }
    let number = u64::from(BigEndian::read_u32(rest));
    if number < 0x1_0000 {
        return Err(Fault::NotMinimal);
    }
    Ok((number, 5))
}

fn eight_bytes(rest: &[u8]) -> Result<(u64, usize), Fault>
    ensures { result ≡ long_at 8 4294967296 rest.now }
{
    if rest.len() < 8 {
        return Err(Fault::Truncated);
    }
    let number = BigEndian::read_u64(rest);
    if number < 0x1_0000_0000 {
        return Err(Fault::NotMinimal);
    }
    Ok((number, 9))
}

/// Writes the number as a BigSize at the front of `out`, and says how many bytes it takes. The bytes
/// after it stay as they were.
///
/// BOLT 1, "Fundamental Types". Takes no memory.
pub fn write_bigsize(number: u64, out: &mut [u8; 9]) -> usize
    ensures counts_its_bytes { result ≡ length (bigsize number) }
    ensures writes_the_spelling { out.new ≡ bigsize number ++ drop result out.old }
{
    match number {
        0..=252 => {
            out[0] = number as u8;
            1
        }
        253..=0xffff => {
            out[0] = 253;
            BigEndian::write_u16(&mut out[1..], number as u16);
            3
        }
        0x1_0000..=0xffff_ffff => {
            out[0] = 254;
            BigEndian::write_u32(&mut out[1..], number as u32);
            5
        }
        _ => {
            out[0] = 255;
            BigEndian::write_u64(&mut out[1..], number);
            9
        }
    }
}

/// A law: no spelling of a number begins another one. So what was written is read again, whatever
/// follows it.
pub fn one_spelling()
    ensures { (m n : ℕ) (x y : List ℕ) → m < 2 ^ 64 → n < 2 ^ 64 → bigsize m ++ x ≡ bigsize n ++ y → (m ≡ n) × (x ≡ y) }
{}
