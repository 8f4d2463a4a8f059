//! Messages as text.

ghost use Rattle.std.specs.Prelude.{◌≡◌, ◌++◌, OnOk, IfOk, string_bytes};
ghost use Rattle.std.specs.List.{flat_map};
ghost use Rattle.std.specs.Fmt.{decimal};
ghost use Rattle.ln_msgs.specs.Messages.Typed.{wire, heard};
ghost use Rattle.ln_text.specs.MessageText.{line, bytes_text, signature_line, record_text, type_line, known_text};
ghost use Rattle.ln_text.specs.MessageText.{heard_text};
ghost use Rattle.ln_text.specs.Shown.{shown_field};

use ln_bytes::Record;
use ln_msgs::{Field, Incoming, Item, Message};
use std::alloc::{AllocError, Global};
use std::fmt::Write;

/// What a message says, a line for its type, for each field and for each record. Takes memory for the text.
///
/// The first line is `type T NAME`, for an ignored message `type T ignored`, alone. A field is its name and its
/// value: numbers in decimal digits, bytes in lower-case hexadecimal, `-` for none; of signatures their count and a
/// line for each. A record is `tlv`, its type and its value.
pub fn message_text(alloc: Global, incoming: &Incoming) -> Result<String, AllocError>
    ensures { IfOk result (λ s. string_bytes s ≡ heard_text (heard incoming.now)) }
{
    match incoming {
        Incoming::Known(message) => text_of_known(alloc, message),
        Incoming::Ignored(typ) => {
            let typ = *typ;
            format!(in alloc; "type {typ} ignored\n")
        }
    }
}

/// The same of a message of a known type. Takes memory for the text.
pub fn text_of_known(alloc: Global, message: &Message) -> Result<String, AllocError>
    ensures { IfOk result (λ s. string_bytes s ≡ known_text (wire message.now)) }
{
    let mut out = type_text(alloc, message)?;
    put_fields(alloc, &mut out, message.fields(alloc)?.as_slice())?;
    put_records(alloc, &mut out, message.records().as_slice())?;
    Ok(out)
}

#[tactic(auto, unfolding(crate::specs::MessageText::type_line))]
fn type_text(alloc: Global, message: &Message) -> Result<String, AllocError>
    ensures { IfOk result (λ s. string_bytes s ≡ type_line (wire message.now).typ) }
{
    let (typ, name) = (message.typ(), message.name());
    format!(in alloc; "type {typ} {name}\n")
}

fn put_fields(alloc: Global, out: &mut String, fields: &[Field<'_>]) -> Result<(), AllocError>
    ensures { OnOk result (string_bytes out.new ≡ string_bytes out.old ++ flat_map shown_field fields.now) }
{
    for field in fields {
        put_field(alloc, out, field)?;
    }
    Ok(())
}

fn put_field(alloc: Global, out: &mut String, field: &Field<'_>) -> Result<(), AllocError>
    ensures { OnOk result (string_bytes out.new ≡ string_bytes out.old ++ shown_field field.now) }
{
    let name = field.name;
    match field.value {
        Item::U8(number) => put_number(out, name, u64::from(number)),
        Item::U16(number) => put_number(out, name, u64::from(number)),
        Item::U32(number) => put_number(out, name, u64::from(number)),
        Item::U64(number) => put_number(out, name, number),
        Item::Fixed(bytes) | Item::Sized(bytes) => put_bytes(alloc, out, name, bytes),
        Item::Listed(list) => {
            put_number(out, "count", list.len() as u64)?;
            put_signatures(alloc, out, list)
        }
    }
}

fn put_signatures(alloc: Global, out: &mut String, list: &[[u8; 64]]) -> Result<(), AllocError>
    ensures { OnOk result (string_bytes out.new ≡ string_bytes out.old ++ flat_map signature_line list.now) }
{
    for signature in list {
        put_signature(alloc, out, signature)?;
    }
    Ok(())
}

#[tactic(auto, unfolding(crate::specs::MessageText::signature_line))]
fn put_signature(alloc: Global, out: &mut String, signature: &[u8; 64]) -> Result<(), AllocError>
    ensures { OnOk result (string_bytes out.new ≡ string_bytes out.old ++ signature_line signature.now) }
{
    put_bytes(alloc, out, "htlc_signature", signature)
}

fn put_records(alloc: Global, out: &mut String, records: &[Record]) -> Result<(), AllocError>
    ensures { OnOk result (string_bytes out.new ≡ string_bytes out.old ++ flat_map record_text records.now) }
{
    for record in records {
        put_record(alloc, out, record)?;
    }
    Ok(())
}

fn put_record(alloc: Global, out: &mut String, tlv: &Record) -> Result<(), AllocError>
    ensures { OnOk result (string_bytes out.new ≡ string_bytes out.old ++ record_text tlv.now) }
{
    let typ = tlv.typ;
    let name = format!(in alloc; "tlv {typ}")?;
    put_bytes(alloc, out, name.as_str(), tlv.value.as_slice())
}

fn put_number(out: &mut String, name: &str, number: u64) -> Result<(), AllocError>
    ensures { OnOk result (string_bytes out.new ≡ string_bytes out.old ++ line name.now (decimal number)) }
{
    writeln!(out, "{name} {number}")
}

fn put_bytes(alloc: Global, out: &mut String, name: &str, bytes: &[u8]) -> Result<(), AllocError>
    ensures { OnOk result (string_bytes out.new ≡ string_bytes out.old ++ line name.now (bytes_text bytes.now)) }
{
    let shown = hexadecimal(alloc, bytes)?;
    writeln!(out, "{name} {shown}")
}

fn hexadecimal(alloc: Global, bytes: &[u8]) -> Result<String, AllocError>
    ensures { IfOk result (λ s. string_bytes s ≡ bytes_text bytes.now) }
{
    if bytes.is_empty() {
        String::from_str(alloc, "-")
    } else {
        hex::encode(alloc, bytes)
    }
}
