//! Lists of values, and a value that may be there.

ghost use Rattle.std.specs.Prelude.{◌≡◌, ◌++◌, length, true, IfErr, OnOk};
ghost use Rattle.std.specs.List.{flat_map, list_all};
ghost use Rattle.ln_store.specs.Format.{Finds, items_at, list as listed, optional as optionally, list_at as list_in};
ghost use Rattle.ln_store.specs.Format.{optional_at as optional_in, fixed};

use crate::wire::Wire;
use ln_refusals::Refusal;
use ln_store::stored::{array_at, array_fits, put, put_u8, put_u64, u64_at};
use std::alloc::Global;

// So many values one after the other.
fn items_at<T: Wire + Drop>(
    alloc: Global,
    count: u64,
    bytes: &[u8],
) -> Result<(Vec<T>, &[u8]), Refusal>
    ensures { Finds (λ x. (x.0.items, x.1.now)) result (items_at T.format count bytes.now) }
{
    let mut items = Vec::new(alloc);
    let mut rest = bytes;
    for _ in 0..count {
        let (item, after) = T::read(alloc, rest)?;
        items.push(item)?;
        rest = after;
    }
    Ok((items, rest))
}

/// The list at the front of the bytes: a count in eight bytes, and the values. Takes memory as values are read, and
/// not for the count.
pub(crate) fn list_at<T: Wire + Drop>(
    alloc: Global,
    bytes: &[u8],
) -> Result<(Vec<T>, &[u8]), Refusal>
    ensures { Finds (λ x. (x.0.items, x.1.now)) result (list_in T.format bytes.now) }
{
    let (count, rest) = u64_at(bytes)?;
    items_at(alloc, count, rest)
}

/// What may be there: a zero byte for none, else a one and the value.
pub(crate) fn optional_at<T: Wire + Drop>(
    alloc: Global,
    bytes: &[u8],
) -> Result<(Option<T>, &[u8]), Refusal>
    ensures { Finds (λ x. (x.0, x.1.now)) result (optional_in T.format bytes.now) }
{
    match bytes {
        [0, rest @ ..] => Ok((None, rest)),
        [1, rest @ ..] => {
            let (value, rest) = T::read(alloc, rest)?;
            Ok((Some(value), rest))
        }
        _ => Err(Refusal::Damaged),
    }
}

// Writes the values one after the other.
fn put_items<T: Wire>(out: &mut Vec<u8>, items: &[T]) -> Result<(), Refusal>
    requires { list_all T.format.fits items.now ≡ true }
    ensures appends_them { OnOk result (out.new.items ≡ out.old.items ++ flat_map T.format.bytes items.now) }
    ensures fails_for_memory_alone { IfErr result (λ e. e ≡ Refusal.Memory) }
{
    for item in items {
        item.write(out)?;
    }
    Ok(())
}

/// Writes the count of the values, and the values.
pub(crate) fn put_list<T: Wire>(out: &mut Vec<u8>, items: &[T]) -> Result<(), Refusal>
    requires { list_all T.format.fits items.now ≡ true }
    ensures appends_them { OnOk result (out.new.items ≡ out.old.items ++ (listed T.format).bytes items.now) }
    ensures fails_for_memory_alone { IfErr result (λ e. e ≡ Refusal.Memory) }
{
    put_u64(out, items.len() as u64)?;
    put_items(out, items)
}

/// Writes a zero byte for none, else a one and the value.
pub(crate) fn put_optional<T: Wire>(out: &mut Vec<u8>, value: &Option<T>) -> Result<(), Refusal>
    requires { (optionally T.format).fits value.now ≡ true }
    ensures appends_it { OnOk result (out.new.items ≡ out.old.items ++ (optionally T.format).bytes value.now) }
    ensures fails_for_memory_alone { IfErr result (λ e. e ≡ Refusal.Memory) }
{
    match value {
        None => put_u8(out, 0),
        Some(value) => {
            put_u8(out, 1)?;
            value.write(out)
        }
    }
}

/// Whether each value has its form.
pub(crate) fn list_fits<T: Wire>(items: &[T]) -> bool
    ensures { result ≡ (listed T.format).fits items.now }
{
    (items.len() as u128) < 1 << 64 && items_fit(items)
}

fn items_fit<T: Wire>(items: &[T]) -> bool
    ensures { result ≡ list_all T.format.fits items.now }
{
    for item in items {
        if !item.fits() {
            return false;
        }
    }
    true
}

/// Whether the value that may be there has its form.
pub(crate) fn optional_fits<T: Wire>(value: &Option<T>) -> bool
    ensures { result ≡ (optionally T.format).fits value.now }
{
    match value {
        None => true,
        Some(value) => value.fits(),
    }
}

// A signature.
impl Wire for [u8; 64] {
    ghost format = { fixed 64 };

    fn read(_alloc: Global, bytes: &[u8]) -> Result<([u8; 64], &[u8]), Refusal> {
        array_at(bytes)
    }

    fn fits(&self) -> bool {
        array_fits(self)
    }

    fn write(&self, out: &mut Vec<u8>) -> Result<(), Refusal> {
        put(out, self)
    }
}
