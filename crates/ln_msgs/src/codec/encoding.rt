//! The writer of one message.

ghost use Rattle.std.specs.Prelude.{◌≡◌, ◌<◌, ◌≤◌, ◌+◌, ◌^◌, ◌⊎◌, ◌↔◌, ◌++◌, length, IfOk, IfErr, IfSome, IfNone, OnOk};
ghost use Rattle.std.specs.Prelude.{IsErrOf};
ghost use Rattle.std.specs.List.{concat, AllByRecursion};
ghost use Rattle.ln_bytes.specs.Endian.{big_bytes};
ghost use Rattle.ln_bytes.specs.Tlv.{stream_bytes, AreFit};
ghost use Rattle.ln_msgs.specs.Codec.Field.{IsOf};
ghost use Rattle.ln_msgs.specs.Messages.Items.{kind_of, value_of, item_bytes, items_bytes, AreItemsBy};
ghost use Rattle.ln_msgs.specs.Messages.Message.{Wire, Known, Says, wire_bytes};
ghost use Rattle.ln_msgs.specs.Messages.Table.{form_of};
ghost use Rattle.ln_msgs.specs.Messages.Typed.{wire};
ghost use Rattle.ln_msgs.specs.Codec.Writing.{CanBeWritten};
ghost use Rattle.ln_msgs.specs.Codec.Steps.{AreProper, IsWritten, parts_bytes};

use crate::messages::item::Item;
use crate::messages::message::Message;
use ln_bytes::{Fault, Record, append_tlvs, tlvs_len};
use std::alloc::Global;

/// The most bytes that a message has (BOLT 1, "Lightning Message Format").
pub const LONGEST_MESSAGE: usize = 65_535;

/// The bytes of a message (BOLT 1, "Lightning Message Format"): its type in two bytes, the highest first, its
/// fields, and its records as a TLV stream. Takes memory for them once, and copies each field once.
///
/// The caller sees to it that the records may stand after the fields, which `fits` tests.
///
/// Errors: 7 where the message, or one field, has too many bytes: more than 65,535 in all. 60 where there is no
/// memory.
pub fn encode(alloc: Global, message: &Message) -> Result<Vec<u8>, Fault>
    requires { CanBeWritten (wire message.now) }

    // What is written is the message's spelling, which is read as this message again.
    ensures writes_the_message { IfOk result (λ v. (v.items ≡ wire_bytes (wire message.now))
        × (length v.items ≤ LONGEST_MESSAGE)) }
    ensures says_the_message { IfOk result (λ v. Says (Known (wire message.now)) v.items) }

    // It is refused where it is too long, and only by that or want of memory.
    ensures refuses_what_is_too_long { IsErrOf result Fault.TooLong
        ↔ (LONGEST_MESSAGE < length (wire_bytes (wire message.now))) }
    ensures has_one_of_two_faults { IfErr result (λ e. (e ≡ Fault.TooLong) ⊎ (e ≡ Fault.Memory)) }
{
    encode_parts(alloc, message)
}

fn encode_parts(alloc: Global, message: &Message) -> Result<Vec<u8>, Fault>
    ensures { IsWritten result (wire message.now) }
{
    encoded(
        alloc,
        message.typ(),
        message.items().as_slice(),
        message.records().as_slice(),
    )
}

/// The type, the fields and the records one after the other.
pub(crate) fn encoded(
    alloc: Global,
    typ: u16,
    fields: &[Item<'_>],
    records: &[Record],
) -> Result<Vec<u8>, Fault>
    ensures { (w : Wire) → AreItemsBy (form_of w.typ) w fields.now → w.typ ≡ typ
        → w.records ≡ records.now → IsWritten result w }
{
    put_parts(alloc, typ, fields, records)
}

fn put_parts(
    alloc: Global,
    typ: u16,
    fields: &[Item<'_>],
    records: &[Record],
) -> Result<Vec<u8>, Fault>
    ensures writes_the_parts { IfOk result (λ v. (v.items ≡ parts_bytes typ fields.now records.now)
        × (length v.items ≤ LONGEST_MESSAGE) × AreFit records.now × AreProper fields.now) }
    ensures refuses_what_is_too_long { IsErrOf result Fault.TooLong
        ↔ (LONGEST_MESSAGE < length (parts_bytes typ fields.now records.now)) }
    ensures has_one_of_two_faults { IfErr result (λ e. (e ≡ Fault.TooLong) ⊎ (e ≡ Fault.Memory)) }
{
    let Some(len) = parts_len(fields, records) else {
        return Err(Fault::TooLong);
    };
    let mut out = Vec::with_capacity(alloc, len)?;
    out.extend_from_slice(&typ.to_be_bytes())?;
    put_fields(&mut out, fields)?;
    append_tlvs(&mut out, records)?;
    Ok(out)
}

/// How many bytes the message is, or none where they are too many.
fn parts_len(fields: &[Item<'_>], records: &[Record]) -> Option<usize>
    ensures none_is_too_many { IfNone result (LONGEST_MESSAGE < 2 + length (items_bytes fields.now)
        + length (stream_bytes records.now)) }
    ensures counts_the_bytes { IfSome result (λ n.
        (n ≡ 2 + length (items_bytes fields.now) + length (stream_bytes records.now)) × (n ≤ LONGEST_MESSAGE)) }
{
    let fields_len = fields_len(fields, LONGEST_MESSAGE - 2)?;
    let records_len = tlvs_len(records, LONGEST_MESSAGE - 2 - fields_len)?;
    Some(2 + fields_len + records_len)
}

/// How many bytes the fields are, or none where they are more than `most`.
fn fields_len(fields: &[Item<'_>], most: usize) -> Option<usize>
    ensures none_is_too_many { IfNone result (most < length (items_bytes fields.now)) }
    ensures counts_the_bytes { IfSome result (λ n. (n ≡ length (items_bytes fields.now)) × (n ≤ most)) }
{
    let mut left = most;
    for field in fields {
        let len = item_len(field);
        if (left as u128) < len {
            return None;
        }
        left -= len as usize;
    }
    Some(most - left)
}

fn item_len(item: &Item<'_>) -> u128
    ensures { result ≡ length (item_bytes «item».now) }
{
    match *item {
        Item::U8(_) => 1,
        Item::U16(_) => 2,
        Item::U32(_) => 4,
        Item::U64(_) => 8,
        Item::Fixed(bytes) => u128::from(count(bytes)),
        Item::Sized(bytes) => 2 + u128::from(count(bytes)),
        Item::Listed(list) => 2 + signatures_len(list),
    }
}

/// How many there are.
fn count<T>(items: &[T]) -> u64
    ensures { result ≡ length items.now }
{
    items.len() as u64
}

/// How many bytes the signatures are together.
fn signatures_len(list: &[[u8; 64]]) -> u128
    ensures counts_the_bytes { result ≡ length (concat list.now) }
    ensures is_below_2_pow_71 { result < 2 ^ 71 }
{
    64 * u128::from(count(list))
}

fn put_fields(out: &mut Vec<u8>, fields: &[Item<'_>]) -> Result<(), Fault>
    requires { length (items_bytes fields.now) ≤ LONGEST_MESSAGE }
    ensures appends_the_fields { OnOk result (out.new.items ≡ out.old.items ++ items_bytes fields.now) }
    ensures has_values_of_their_kinds { OnOk result (AreProper fields.now) }
    ensures fails_for_memory_alone { IfErr result (λ e. e ≡ Fault.Memory) }
{
    for field in fields {
        put_item(out, field)?;
    }
    Ok(())
}

fn put_item(out: &mut Vec<u8>, item: &Item<'_>) -> Result<(), Fault>
    requires { length (item_bytes «item».now) ≤ LONGEST_MESSAGE }
    ensures appends_the_value { OnOk result (out.new.items ≡ out.old.items ++ item_bytes «item».now) }
    ensures has_a_value_of_its_kind { OnOk result (IsOf (kind_of «item».now) (value_of «item».now)) }
    ensures fails_for_memory_alone { IfErr result (λ e. e ≡ Fault.Memory) }
{
    match *item {
        Item::U8(number) => out.push(number)?,
        Item::U16(number) => out.extend_from_slice(&number.to_be_bytes())?,
        Item::U32(number) => out.extend_from_slice(&number.to_be_bytes())?,
        Item::U64(number) => out.extend_from_slice(&number.to_be_bytes())?,
        Item::Fixed(bytes) => out.extend_from_slice(bytes)?,
        Item::Sized(bytes) => {
            out.extend_from_slice(&(count(bytes) as u16).to_be_bytes())?;
            out.extend_from_slice(bytes)?;
        }
        Item::Listed(list) => put_signatures(out, list)?,
    }
    Ok(())
}

/// Their count, and the signatures one after the other.
fn put_signatures(out: &mut Vec<u8>, list: &[[u8; 64]]) -> Result<(), Fault>
    requires { length (concat list.now) ≤ LONGEST_MESSAGE }
    ensures appends_the_signatures { OnOk result (out.new.items ≡ out.old.items
        ++ (big_bytes 2 (length list.now) ++ concat list.now)) }
    ensures has_signatures_of_64_bytes { OnOk result ((length list.now < 65536)
        × AllByRecursion (λ s. length s ≡ 64) list.now) }
    ensures fails_for_memory_alone { IfErr result (λ e. e ≡ Fault.Memory) }
{
    out.extend_from_slice(&(count(list) as u16).to_be_bytes())?;
    for signature in list {
        out.extend_from_slice(signature)?;
    }
    Ok(())
}
