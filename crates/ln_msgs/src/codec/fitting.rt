//! Whether a message can be written.

ghost use Rattle.std.specs.Prelude.{◌≡◌, ◌↔◌, IsTrue, None};
ghost use Rattle.ln_bytes.specs.Tlv.{AreValid, have_lengths as are_so_long};
ghost use Rattle.ln_msgs.specs.Messages.Typed.{wire};
ghost use Rattle.ln_msgs.specs.Codec.Writing.{CanBeWritten};

use crate::messages::form::Form;
use crate::messages::message::Message;
use crate::messages::records::have_length;
use ln_bytes::{Record, tlvs_are_valid};

/// Whether the message's records may stand after its fields: their types rise strictly, each even one is known
/// to the message's type, and each that has a fixed length has it (BOLT 1, "Type-Length-Value Format"). What
/// was read always does. Takes no memory.
pub fn fits(message: &Message) -> bool
    ensures { IsTrue result ↔ CanBeWritten (wire message.now) }
{
    records_fit(message.records().as_slice(), message.form())
}

/// Whether these records may stand after the fields of this form.
pub(crate) fn records_fit(records: &[Record], form: &Form) -> bool
    ensures { IsTrue result ↔ (AreValid form.now.known_even.now None records.now
        × IsTrue (are_so_long form.now.lengths.now records.now)) }
{
    tlvs_are_valid(records, form.known_even) && have_lengths(records, form.lengths)
}

/// Whether each record has the length that its type asks for.
fn have_lengths(records: &[Record], lengths: &[(u64, usize)]) -> bool
    ensures { result ≡ are_so_long lengths.now records.now }
{
    lengths
        .iter()
        .all(|(typ, len)| have_length(records, *typ, *len))
}
