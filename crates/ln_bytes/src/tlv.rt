//! TLV streams (BOLT 1, "Type-Length-Value Format"): records one after the other, up to the end.

ghost use Rattle.std.specs.Prelude.{◌≡◌, ◌<◌, ◌≤◌, ◌⊎◌, ℕ, List, ◌++◌, length, take, slice_index, None, IfSome};
ghost use Rattle.std.specs.Prelude.{IfNone, IsTrue, ◌↔◌, IfOk, IfErr, OnOk, OnErr, Ok, Err, option_map};
ghost use Rattle.ln_bytes.specs.Bigsize.{bigsize};
ghost use Rattle.std.specs.List.{list_all};
ghost use Rattle.ln_bytes.specs.Reading.{Gives, Reads};
ghost use Rattle.ln_bytes.specs.Tlv.{value_of, record_bytes, stream_bytes, may_follow, is_allowed, AreRising, AreKnown};
ghost use Rattle.ln_bytes.specs.Tlv.{AreFit, AreValid, Fits, Spells, HasFault, value_at, record_at, stream_at};
ghost use Rattle.ln_bytes.specs.Tlv.{as_record, has_length, lengths_at};
ghost use Rattle.ln_bytes.specs.declared.fault.Fault.{Fault};
ghost use Rattle.ln_bytes.specs.declared.record.Record.{Record};

use crate::bigsize::{bigsize_len, read_bigsize, write_bigsize};
use crate::bytes::Bytes;
use crate::fault::Fault;
use crate::record::Record;
use std::alloc::Global;

/// Reads a whole TLV stream: every record up to the end of the bytes, also those of odd types that
/// nobody knows. Takes memory for the list and for each value.
///
/// A record is a BigSize type, a BigSize length and that many bytes; types rise strictly; an even
/// type has to be in `known_even` (BOLT 1, "Type-Length-Value Format").
///
/// Errors, the first of the first record that has one: 1 (`Truncated`) and 2 (`NotMinimal`) where the
/// type can't be read; 3 (`TlvOrder`) where it isn't above the one before; 1 and 2 where the length
/// can't be read; 5 (`TlvLength`) where the value passes the end; 4 (`TlvUnknownEven`) where the type
/// is even and not in `known_even`. 60 (`Memory`) where there is no memory.
pub fn read_tlvs(alloc: Global, bytes: &[u8], known_even: &[u64]) -> Result<Vec<Record>, Fault>
    // What is read is spelled so, all of the bytes.
    ensures is_spelled_so { IfOk result (λ v. Spells known_even.now v.items bytes.now) }
    // So the records can be written again.
    ensures types_rise { IfOk result (λ v. AreRising v.items) }
    // What is spelled so is read.
    ensures reads_each_spelling { (rs : List Record) → Spells known_even.now rs bytes.now
        → Gives (λ v. v.items) result (Ok rs) }
    // What is refused has that fault, and no record before it has one.
    ensures tells_the_first_fault { IfErr result (λ e. (e ≡ Fault.Memory) ⊎ HasFault known_even.now bytes.now e) }
    // What has a fault is refused by it.
    ensures refuses_each_fault { (f : Fault) → HasFault known_even.now bytes.now f
        → Gives (λ v. v.items) result (Err f) }
    // Which answer it is.
    ensures reads_as_defined { Gives (λ v. v.items) result (stream_at known_even.now bytes.now) }
{
    all_records(alloc, known_even, bytes)
}

fn all_records(alloc: Global, known_even: &[u64], bytes: &[u8]) -> Result<Vec<Record>, Fault>
    ensures is_spelled_so { IfOk result (λ v. Spells known_even.now v.items bytes.now) }
    ensures tells_the_first_fault { IfErr result (λ e. (e ≡ Fault.Memory) ⊎ HasFault known_even.now bytes.now e) }
{
    let mut records: Vec<Record> = Vec::new(alloc);
    let mut before = None;
    let mut rest = bytes;
    while !rest.is_empty() {
        let (typ, value, after) = front_record(known_even, before, rest)?;
        before = Some(typ);
        let value = Bytes::from_slice(alloc, value)?;
        records.push(Record { typ, value })?;
        rest = after;
    }
    Ok(records)
}

/// Reads past a whole TLV stream, and answers whether its records have these lengths: each pair is a type and the
/// length that a value of that type has. Takes no memory.
///
/// Errors: those of `read_tlvs` but for 60.
pub fn check_tlvs(bytes: &[u8], known_even: &[u64], lengths: &[(u64, usize)]) -> Result<bool, Fault>
    // What it answers is what is so of the records that `read_tlvs` would give, and its fault is theirs.
    ensures { result ≡ lengths_at known_even.now lengths.now bytes.now }
{
    let mut fits = true;
    let mut before = None;
    let mut rest = bytes;
    while !rest.is_empty() {
        let (typ, value, after) = front_record(known_even, before, rest)?;
        fits &= has_length(lengths, typ, value);
        before = Some(typ);
        rest = after;
    }
    Ok(fits)
}

// Whether a value of this type has the length that its type asks for.
fn has_length(lengths: &[(u64, usize)], typ: u64, value: &[u8]) -> bool
    ensures { result ≡ list_all (λ asked. has_length asked (as_record typ value.now)) lengths.now }
{
    lengths
        .iter()
        .all(|asked| typ != asked.0 || value.len() == asked.1)
}

// The type and the value of the record at the front, after one of the type before, and what follows it.
#[tactic(auto, unfolding(crate::specs::Tlv::record_at))]
fn front_record<'a>(
    known_even: &[u64],
    before: Option<u64>,
    bytes: &'a [u8],
) -> Result<(u64, &'a [u8], &'a [u8]), Fault>
    ensures { Reads (λ x. (as_record x.0 x.1.now, x.2.now)) result
        (record_at known_even.now before bytes.now) }
{
    let (typ, taken) = read_bigsize(bytes)?;
    if !follows(before, typ) {
        return Err(Fault::TlvOrder);
    }
    let (value, rest) = front_value(known_even, typ, &bytes[taken..])?;
    Ok((typ, value, rest))
}

// The value after a type, and what follows it.
#[tactic(auto, unfolding(crate::specs::Tlv::value_at))]
fn front_value<'a>(
    known_even: &[u64],
    typ: u64,
    bytes: &'a [u8],
) -> Result<(&'a [u8], &'a [u8]), Fault>
    ensures { Reads (λ x. (as_record typ x.0.now, x.1.now)) result
        (value_at known_even.now typ bytes.now) }
{
    let (len, taken) = read_bigsize(bytes)?;
    let rest = &bytes[taken..];
    if (rest.len() as u64) < len {
        return Err(Fault::TlvLength);
    }
    if !is_allowed(known_even, typ) {
        return Err(Fault::TlvUnknownEven);
    }
    Ok(rest.split_at(len as usize))
}

fn follows(before: Option<u64>, typ: u64) -> bool
    ensures { result ≡ may_follow before typ }
{
    match before {
        None => true,
        Some(before) => before < typ,
    }
}

fn is_allowed(known_even: &[u64], typ: u64) -> bool
    ensures { result ≡ is_allowed known_even.now typ }
{
    typ % 2 == 1 || known_even.contains(&typ)
}

/// Writes the records one after the other, as one TLV stream. Takes memory for the bytes.
///
/// A record is a BigSize type, a BigSize length and the value (BOLT 1, "Type-Length-Value Format").
/// The caller sees to it that the types rise strictly; no records are no bytes.
///
/// Errors: 60 (`Memory`) where there is no memory.
pub fn write_tlvs(alloc: Global, records: &[Record]) -> Result<Vec<u8>, Fault>
    requires { AreRising records.now }
    // What is written is the records' bytes, one record after the other.
    ensures writes_the_stream { IfOk result (λ v. v.items ≡ stream_bytes records.now) }
    // So it is read again as these records by who knows their even types.
    ensures spells_the_records { (known_even : List ℕ) → AreKnown known_even records.now
        → IfOk result (λ v. Spells known_even records.now v.items) }
    ensures fails_for_memory_alone { IfErr result (λ e. e ≡ Fault.Memory) }
{
    let mut out = Vec::new(alloc);
    append_tlvs(&mut out, records)?;
    Ok(out)
}

/// Writes the records at the end of bytes, as `write_tlvs` writes them. Takes memory for the bytes.
///
/// Errors: 60 (`Memory`) where there is no memory: then the bytes are what they were.
pub fn append_tlvs(out: &mut Vec<u8>, records: &[Record]) -> Result<(), Fault>
    ensures appends_the_stream { OnOk result (out.new.items ≡ out.old.items ++ stream_bytes records.now) }
    ensures has_fitting_records { OnOk result (AreFit records.now) }
    ensures fails_for_memory_alone { IfErr result (λ e. e ≡ Fault.Memory) }
    ensures changes_nothing_if_refused { OnErr result (out.new.items ≡ out.old.items) }
{
    let before = out.len();
    let result = put_records(out, records);
    if result.is_err() {
        out.truncate(before);
    }
    result
}

// Writes the records after the bytes. Where memory is refused, some of their bytes may be there.
fn put_records(out: &mut Vec<u8>, records: &[Record]) -> Result<(), Fault>
    ensures appends_the_stream { OnOk result (out.new.items ≡ out.old.items ++ stream_bytes records.now) }
    ensures has_fitting_records { OnOk result (AreFit records.now) }
    ensures fails_for_memory_alone { IfErr result (λ e. e ≡ Fault.Memory) }
    ensures begins_as_before { take (length out.old.items) out.new.items ≡ out.old.items }
{
    for record in records {
        put_record(out, record)?;
    }
    Ok(())
}

/// Whether the records are a valid stream for who knows these even types: the types rise strictly, and each
/// even one is known. Takes no memory.
pub fn tlvs_are_valid(records: &[Record], known_even: &[u64]) -> bool
    ensures { IsTrue result ↔ AreValid known_even.now None records.now }
{
    let mut before = None;
    for record in records {
        if !follows(before, record.typ) {
            return false;
        }
        if !is_allowed(known_even, record.typ) {
            return false;
        }
        before = Some(record.typ);
    }
    true
}

/// The value of the record of this type, the first where there are several. Takes no memory.
pub fn value_of(records: &[Record], typ: u64) -> Option<&[u8]>
    ensures { option_map (λ v. v.now) result ≡ value_of typ records.now }
{
    for record in records {
        if record.typ == typ {
            return Some(record.value.as_slice());
        }
    }
    None
}

/// How many bytes the records are, or none where they are more than `most`. Takes no memory.
pub fn tlvs_len(records: &[Record], most: usize) -> Option<usize>
    ensures none_is_too_many { IfNone result (most < length (stream_bytes records.now)) }
    ensures counts_the_bytes { IfSome result (λ n. (n ≡ length (stream_bytes records.now)) × (n ≤ most)) }
{
    let mut left = most;
    for record in records {
        let len = record_len(record);
        if left < len {
            return None;
        }
        left -= len;
    }
    Some(most - left)
}

fn record_len(record: &Record) -> usize
    ensures { result ≡ length (record_bytes «record».now) }
{
    let len = record.value.len();
    bigsize_len(record.typ) + bigsize_len(len as u64) + len
}

fn put_record(out: &mut Vec<u8>, record: &Record) -> Result<(), Fault>
    ensures appends_the_record { OnOk result (out.new.items ≡ out.old.items ++ record_bytes «record».now) }
    ensures has_a_fitting_record { OnOk result (Fits «record».now) }
    ensures fails_for_memory_alone { IfErr result (λ e. e ≡ Fault.Memory) }
    ensures begins_as_before { take (length out.old.items) out.new.items ≡ out.old.items }
{
    put_number(out, record.typ)?;
    put_number(out, record.value.len() as u64)?;
    out.extend_from_slice(record.value.as_slice())?;
    Ok(())
}

fn put_number(out: &mut Vec<u8>, number: u64) -> Result<(), Fault>
    ensures appends_the_number { OnOk result (out.new.items ≡ out.old.items ++ bigsize number) }
    ensures fails_for_memory_alone { IfErr result (λ e. e ≡ Fault.Memory) }
    ensures changes_nothing_if_refused { OnErr result (out.new.items ≡ out.old.items) }
{
    let mut spelling = [0; 9];
    let len = write_bigsize(number, &mut spelling);
    out.extend_from_slice(&spelling[..len])?;
    Ok(())
}

/// A law, whatever memory does: what is spelled is read, what is read is spelled, and the same of faults. So, as a
/// whole input, bytes are told in exactly one way: they spell records or have a fault, and not both; no two lists
/// of records have the same bytes; and there is one first fault at most.
pub fn one_stream()
    ensures reads_what_is_spelled { (known_even bytes : List ℕ) (rs : List Record) → Spells known_even rs bytes
        → stream_at known_even bytes ≡ Ok rs }
    ensures spells_what_is_read { (known_even bytes : List ℕ) (rs : List Record) → ((i : ℕ) → slice_index bytes i < 256)
        → stream_at known_even bytes ≡ Ok rs → Spells known_even rs bytes }
    ensures finds_each_fault { (known_even bytes : List ℕ) (f : Fault) → HasFault known_even bytes f
        → stream_at known_even bytes ≡ Err f }
    ensures has_the_fault_found { (known_even bytes : List ℕ) (f : Fault) → ((i : ℕ) → slice_index bytes i < 256)
        → stream_at known_even bytes ≡ Err f → HasFault known_even bytes f }
    ensures is_spelled_or_faulty { (known_even bytes : List ℕ) → ((i : ℕ) → slice_index bytes i < 256)
        → ((rs : List Record) × Spells known_even rs bytes) ⊎ ((f : Fault) × HasFault known_even bytes f) }
    ensures has_one_list_of_records { (rs ss : List Record) → AreFit rs → AreFit ss
        → stream_bytes rs ≡ stream_bytes ss → rs ≡ ss }
    ensures has_no_fault_if_spelled { (known_even bytes : List ℕ) (rs : List Record) (f : Fault)
        → Spells known_even rs bytes → HasFault known_even bytes f → ⊥ }
    ensures has_one_first_fault { (known_even bytes : List ℕ) (f g : Fault) → HasFault known_even bytes f
        → HasFault known_even bytes g → f ≡ g }
{}
