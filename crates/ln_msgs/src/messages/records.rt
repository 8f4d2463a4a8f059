//! The records after the fields of a message.

ghost use Rattle.std.specs.Prelude.{◌≡◌};
ghost use Rattle.std.specs.List.{list_all};
ghost use Rattle.ln_bytes.specs.Reading.{Gives};
ghost use Rattle.ln_bytes.specs.Tlv.{stream_at, has_length};
ghost use Rattle.ln_msgs.specs.Codec.Checking.{checked_records_at};

use ln_bytes::{Fault, Record, check_tlvs, read_tlvs};
use std::alloc::Global;
use std::marker::Model;

/// Records in their order, which contracts see as a list.
///
/// They are made from a `Vec` and give it back without taking memory.
#[derive(Clone, Drop)]
pub struct Records {
    items: Vec<Record>,
}

impl Model for Records {
    ghost use Rattle.std.specs.Prelude.{List};
    ghost use Rattle.ln_bytes.specs.declared.record.Record.{Record};

    ghost Value = { List Record };

    ghost view = { λ r. r.items.items };
}

impl Records {
    ghost use Rattle.std.specs.Prelude.{◌≡◌, []};

    /// No records. Takes no memory.
    pub fn empty(alloc: Global) -> Records
        ensures { result ≡ [] }
    {
        Records {
            items: Vec::new(alloc),
        }
    }

    /// The records of a vector. Takes no memory.
    pub fn new(items: Vec<Record>) -> Records
        ensures { result ≡ items.items }
    {
        Records { items }
    }

    /// The vector. Takes no memory.
    pub fn into_vec(self) -> Vec<Record>
        ensures { result.items ≡ self }
    {
        self.items
    }

    /// The records in order.
    pub fn as_slice(&self) -> &[Record]
        ensures { result.now ≡ self.now }
    {
        self.items.as_slice()
    }
}

/// The records of a TLV stream that goes to the end of the bytes; the faults are those of `read_tlvs`.
pub(crate) fn records_at(alloc: Global, bytes: &[u8], known_even: &[u64]) -> Result<Records, Fault>
    ensures { Gives (λ r. r) result (stream_at known_even.now bytes.now) }
{
    // most messages have none
    if bytes.is_empty() {
        return Ok(Records::empty(alloc));
    }
    Ok(Records::new(read_tlvs(alloc, bytes, known_even)?))
}

/// Checks the records of a TLV stream that goes to the end of the bytes: the faults are those of `read_tlvs`, and
/// then 8 where a record hasn't the length that its type asks for. Takes no memory.
pub(crate) fn check_records(
    bytes: &[u8],
    known_even: &[u64],
    lengths: &[(u64, usize)],
) -> Result<(), Fault>
    ensures { result ≡ checked_records_at known_even.now lengths.now bytes.now }
{
    if check_tlvs(bytes, known_even, lengths)? {
        Ok(())
    } else {
        Err(Fault::FieldLength)
    }
}

/// Whether each record of this type has a value of this length.
pub(crate) fn have_length(records: &[Record], typ: u64, len: usize) -> bool
    ensures { result ≡ list_all (has_length (typ, len)) records.now }
{
    records
        .iter()
        .all(|record| record.typ != typ || record.value.len() == len)
}
