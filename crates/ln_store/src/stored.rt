//! Values that are stored: how each is read from the front of bytes, and written at the end of them.

ghost use Rattle.std.specs.Prelude.{◌≡◌, ◌++◌, ◌<◌, ◌^◌, length, true, IfErr, OnOk};
ghost use Rattle.ln_store.specs.Format.{Finds, number, fixed, sized, number_at as number_in, bytes_at, sized_at};

use byteorder::{BigEndian, ByteOrder};
use ln_bytes::Bytes;
use ln_refusals::Refusal;
use std::alloc::Global;

/// A value that is stored in one form.
pub trait Stored: Sized {
    ghost use Rattle.ln_store.specs.Format.{Format};

    /// How it is written and read.
    ghost format: { Format Self };

    /// The value at the front of the bytes, and the bytes after it. Errors: 70 where there is none, 60 where there is
    /// no memory.
    fn read(alloc: Global, bytes: &[u8]) -> Result<(Self, &[u8]), Refusal>
        ensures { Finds (λ x. (x.0, x.1.now)) result (format.at bytes.now) };

    /// Whether the value has this form. Takes no memory.
    fn fits(&self) -> bool
        ensures { result ≡ format.fits self.now };

    /// Writes the value after the bytes. Error: 60 alone, where there is no memory.
    fn write(&self, out: &mut Vec<u8>) -> Result<(), Refusal>
        requires { format.fits self.now ≡ true }
        ensures appends_the_value { OnOk result (out.new.items ≡ out.old.items ++ format.bytes self.now) }
        ensures fails_for_memory_alone { IfErr result (λ e. e ≡ Refusal.Memory) };
}

/// One byte.
pub fn u8_at(bytes: &[u8]) -> Result<(u8, &[u8]), Refusal>
    ensures { Finds (λ x. (x.0, x.1.now)) result (number_in 1 bytes.now) }
{
    match bytes {
        [] => Err(Refusal::Damaged),
        [first, rest @ ..] => Ok((*first, rest)),
    }
}

/// Two bytes, the highest first.
pub fn u16_at(bytes: &[u8]) -> Result<(u16, &[u8]), Refusal>
    ensures { Finds (λ x. (x.0, x.1.now)) result (number_in 2 bytes.now) }
{
    if bytes.len() < 2 {
        return Err(Refusal::Damaged);
    }
    Ok((BigEndian::read_u16(bytes), &bytes[2..]))
}

/// Four bytes, the highest first.
pub fn u32_at(bytes: &[u8]) -> Result<(u32, &[u8]), Refusal>
    ensures { Finds (λ x. (x.0, x.1.now)) result (number_in 4 bytes.now) }
{
    if bytes.len() < 4 {
        return Err(Refusal::Damaged);
    }
    Ok((BigEndian::read_u32(bytes), &bytes[4..]))
}

/// Eight bytes, the highest first.
pub fn u64_at(bytes: &[u8]) -> Result<(u64, &[u8]), Refusal>
    ensures { Finds (λ x. (x.0, x.1.now)) result (number_in 8 bytes.now) }
{
    if bytes.len() < 8 {
        return Err(Refusal::Damaged);
    }
    Ok((BigEndian::read_u64(bytes), &bytes[8..]))
}

/// So many bytes.
pub fn array_at<const N: usize>(bytes: &[u8]) -> Result<([u8; N], &[u8]), Refusal>
    ensures { Finds (λ x. (x.0, x.1.now)) result (bytes_at N bytes.now) }
{
    match bytes.split_first_chunk::<N>() {
        Some((front, rest)) => Ok((*front, rest)),
        None => Err(Refusal::Damaged),
    }
}

// So many bytes, which are copied.
fn front_at(alloc: Global, len: u64, bytes: &[u8]) -> Result<(Bytes, &[u8]), Refusal>
    ensures { Finds (λ x. (x.0, x.1.now)) result (bytes_at len bytes.now) }
{
    if (bytes.len() as u64) < len {
        return Err(Refusal::Damaged);
    }
    let (front, rest) = bytes.split_at(len as usize);
    Ok((Bytes::from_slice(alloc, front)?, rest))
}

/// Bytes after their length in two bytes.
pub fn short_at(alloc: Global, bytes: &[u8]) -> Result<(Bytes, &[u8]), Refusal>
    ensures { Finds (λ x. (x.0, x.1.now)) result (sized_at 2 bytes.now) }
{
    let (len, rest) = u16_at(bytes)?;
    front_at(alloc, u64::from(len), rest)
}

/// Bytes after their length in four bytes.
pub fn medium_at(alloc: Global, bytes: &[u8]) -> Result<(Bytes, &[u8]), Refusal>
    ensures { Finds (λ x. (x.0, x.1.now)) result (sized_at 4 bytes.now) }
{
    let (len, rest) = u32_at(bytes)?;
    front_at(alloc, u64::from(len), rest)
}

/// Bytes after their length in eight bytes.
pub fn long_at(alloc: Global, bytes: &[u8]) -> Result<(Bytes, &[u8]), Refusal>
    ensures { Finds (λ x. (x.0, x.1.now)) result (sized_at 8 bytes.now) }
{
    let (len, rest) = u64_at(bytes)?;
    front_at(alloc, len, rest)
}

/// Writes bytes after the others.
pub fn put(out: &mut Vec<u8>, bytes: &[u8]) -> Result<(), Refusal>
    ensures appends_them { OnOk result (out.new.items ≡ out.old.items ++ bytes.now) }
    ensures fails_for_memory_alone { IfErr result (λ e. e ≡ Refusal.Memory) }
{
    out.extend_from_slice(bytes)?;
    Ok(())
}

pub fn put_u8(out: &mut Vec<u8>, value: u8) -> Result<(), Refusal>
    ensures appends_it { OnOk result (out.new.items ≡ out.old.items ++ (number 1).bytes value) }
    ensures fails_for_memory_alone { IfErr result (λ e. e ≡ Refusal.Memory) }
{
    out.push(value)?;
    Ok(())
}

pub fn put_u16(out: &mut Vec<u8>, value: u16) -> Result<(), Refusal>
    ensures appends_it { OnOk result (out.new.items ≡ out.old.items ++ (number 2).bytes value) }
    ensures fails_for_memory_alone { IfErr result (λ e. e ≡ Refusal.Memory) }
{
    put(out, &value.to_be_bytes())
}

pub fn put_u32(out: &mut Vec<u8>, value: u32) -> Result<(), Refusal>
    ensures appends_it { OnOk result (out.new.items ≡ out.old.items ++ (number 4).bytes value) }
    ensures fails_for_memory_alone { IfErr result (λ e. e ≡ Refusal.Memory) }
{
    put(out, &value.to_be_bytes())
}

pub fn put_u64(out: &mut Vec<u8>, value: u64) -> Result<(), Refusal>
    ensures appends_it { OnOk result (out.new.items ≡ out.old.items ++ (number 8).bytes value) }
    ensures fails_for_memory_alone { IfErr result (λ e. e ≡ Refusal.Memory) }
{
    put(out, &value.to_be_bytes())
}

/// Writes bytes after their length in two bytes.
pub fn put_short(out: &mut Vec<u8>, bytes: &[u8]) -> Result<(), Refusal>
    requires { length bytes.now < 256 ^ 2 }
    ensures appends_them { OnOk result (out.new.items ≡ out.old.items ++ (sized 2).bytes bytes.now) }
    ensures fails_for_memory_alone { IfErr result (λ e. e ≡ Refusal.Memory) }
{
    put_u16(out, bytes.len() as u16)?;
    put(out, bytes)
}

/// Writes bytes after their length in four bytes.
pub fn put_medium(out: &mut Vec<u8>, bytes: &[u8]) -> Result<(), Refusal>
    requires { length bytes.now < 256 ^ 4 }
    ensures appends_them { OnOk result (out.new.items ≡ out.old.items ++ (sized 4).bytes bytes.now) }
    ensures fails_for_memory_alone { IfErr result (λ e. e ≡ Refusal.Memory) }
{
    put_u32(out, bytes.len() as u32)?;
    put(out, bytes)
}

/// Writes bytes after their length in eight bytes.
pub fn put_long(out: &mut Vec<u8>, bytes: &[u8]) -> Result<(), Refusal>
    ensures appends_them { OnOk result (out.new.items ≡ out.old.items ++ (sized 8).bytes bytes.now) }
    ensures fails_for_memory_alone { IfErr result (λ e. e ≡ Refusal.Memory) }
{
    put_u64(out, bytes.len() as u64)?;
    put(out, bytes)
}

/// Each value of these types has its form.
pub fn u16_fits(value: u16) -> bool
    ensures { result ≡ (number 2).fits value }
{
    true
}

pub fn u32_fits(value: u32) -> bool
    ensures { result ≡ (number 4).fits value }
{
    true
}

pub fn u64_fits(value: u64) -> bool
    ensures { result ≡ (number 8).fits value }
{
    true
}

pub fn array_fits<const N: usize>(bytes: &[u8; N]) -> bool
    ensures { result ≡ (fixed N).fits bytes.now }
{
    true
}

impl Stored for u64 {
    ghost format = { number 8 };

    fn read(alloc: Global, bytes: &[u8]) -> Result<(u64, &[u8]), Refusal> {
        u64_at(bytes)
    }

    fn fits(&self) -> bool {
        let _value = *self;
        true
    }

    fn write(&self, out: &mut Vec<u8>) -> Result<(), Refusal> {
        put_u64(out, *self)
    }
}
