//! The checker of one message, of which nothing is kept.

ghost use Rattle.std.specs.Prelude.{◌≡◌, ℕ, map};
ghost use Rattle.ln_bytes.specs.Reading.{Reads};
ghost use Rattle.ln_msgs.specs.Codec.Checking.{behind, behind_field, behind_fields, checked};
ghost use Rattle.ln_msgs.specs.Messages.Forms.{kind_of, IsRow};
ghost use Rattle.ln_msgs.specs.Messages.Message.{may_be_ignored, formed_at, payload_at};
ghost use Rattle.ln_msgs.specs.Messages.Table.{Form as Row, form_of};

use crate::codec::field::u16_at;
use crate::messages::form::{Form, Kind, form_of};
use crate::messages::records::check_records;
use ln_bytes::Fault;

/// The fault that `read_payload` tells of the bytes after a type, where there is one. Takes no memory.
pub(crate) fn check_payload(typ: u16, payload: &[u8]) -> Result<(), Fault>
    ensures { result ≡ checked (payload_at (form_of typ) typ payload.now) }
{
    match form_of(typ) {
        Some(form) => check_form(form, payload),
        None if may_be_ignored(typ) => Ok(()),
        None => Err(Fault::UnknownEvenType),
    }
}

/// Whether a message of a type that isn't known may be read past.
fn may_be_ignored(typ: u16) -> bool
    ensures { result ≡ may_be_ignored typ }
{
    typ % 2 == 1 || (256 <= typ && typ <= 265)
}

/// Checks the fields and the records of a type.
fn check_form(form: &Form, payload: &[u8]) -> Result<(), Fault>
    ensures { (row : Row) (typ : ℕ) → IsRow row form.now → result ≡ checked (formed_at row typ payload.now) }
{
    let rest = past(form.fixed, payload)?;
    let rest = past_fields(form.others, rest)?;
    check_records(rest, form.known_even, form.lengths)
}

/// What follows so many bytes.
fn past(size: usize, bytes: &[u8]) -> Result<&[u8], Fault>
    ensures { Reads (λ rest. rest.now) result (behind size bytes.now) }
{
    if bytes.len() < size {
        return Err(Fault::Truncated);
    }
    Ok(&bytes[size..])
}

/// What follows the fields.
fn past_fields<'a>(kinds: &[Kind], bytes: &'a [u8]) -> Result<&'a [u8], Fault>
    ensures { Reads (λ rest. rest.now) result (behind_fields (map kind_of kinds.now) bytes.now) }
{
    let mut rest = bytes;
    for kind in kinds {
        rest = past_field(*kind, rest)?;
    }
    Ok(rest)
}

/// What follows a field.
#[tactic(auto, unfolding(crate::specs::Codec::Field::string_at, crate::specs::Codec::Field::list_at))]
fn past_field(kind: Kind, bytes: &[u8]) -> Result<&[u8], Fault>
    ensures { Reads (λ rest. rest.now) result (behind_field (kind_of kind) bytes.now) }
{
    let (count, rest) = u16_at(bytes)?;
    match kind {
        Kind::Sized => past(usize::from(count), rest),
        Kind::Listed => past(64 * usize::from(count), rest),
    }
}
