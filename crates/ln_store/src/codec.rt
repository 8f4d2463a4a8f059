//! Records as bytes.

ghost use Rattle.std.specs.Prelude.{◌≡◌, IsTrue, ◌<◌, ◌≤◌, ◌++◌, ℕ, List, Ok, Err, true, false, IfOk, IfErr, OnOk};
ghost use Rattle.std.specs.Prelude.{slice_index, length, ◌&&◌, ◌==◌, ◌^◌, IsErrOf};
ghost use Rattle.std.specs.List.{list_any};
ghost use Rattle.ln_log.specs.Mark.{is_held};
ghost use Rattle.ln_keys.specs.Hash.{payment_hash as digest};
ghost use Rattle.ln_store.specs.declared.record.Items.{Items};
ghost use Rattle.ln_store.specs.Items as it;
ghost use Rattle.ln_store.specs.Readable.{is_readable, is_sound};
ghost use Rattle.ln_store.specs.Record.{is_sealed, version_of, body_of, record_at, record_bytes, only_items, Gives};
ghost use Rattle.ln_store.specs.Record.{begins_well, unsealed, sealed, is_known_version, holds_any, is_told_in};
ghost use Rattle.ln_store.specs.Record.{spelled_in, IsSpelledBy};

use crate::link_record::LinkRecord;
use crate::readable::is_sound;
use crate::record::Items;
use crate::stored::{Stored, put, put_u16, put_u64};
use byteorder::{BigEndian, ByteOrder};
use ln_keys::sha256_32;
use ln_log::Decision;
use ln_refusals::Refusal;
use std::alloc::Global;

/// "LNLR".
const MAGIC: [u8; 4] = [76, 78, 76, 82];

// Whether records of this version are read.
fn is_known_version(version: u16) -> bool
    ensures { result ≡ is_known_version version }
{
    version == 1 || version == 2
}

// Whether one of these holds an HTLC.
fn is_any_held(decisions: &[Decision]) -> bool
    ensures { result ≡ list_any (λ d. is_held d.mark) decisions.now }
{
    decisions.iter().any(|decision| decision.mark.is_held())
}

// Whether a record of this version may tell them: one of version 1 holds no HTLC.
fn is_told_in(version: u16, items: &Items) -> bool
    ensures { result ≡ is_told_in version items.now }
{
    version != 1 || !is_any_held(items.progress.forwards.decisions.as_slice())
}

// Whether what is before the digest of a record of so many bytes begins as it has to.
fn begins_well(front: &[u8], len: usize) -> bool
    requires { 14 ≤ length front.now }
    ensures { result ≡ begins_well front.now len }
{
    &front[..4] == MAGIC.as_slice()
        && u128::from(BigEndian::read_u64(&front[6..])) + 46 == len as u128
}

// Whether the first bytes, the length and the digest are those of a record.
#[tactic(auto, unfolding(crate::specs::Record::is_sealed))]
fn is_sealed(bytes: &[u8]) -> bool
    ensures tells_it { result ≡ is_sealed bytes.now }
    ensures is_long_enough { IsTrue result → 46 ≤ length bytes.now }
{
    if bytes.len() < 46 {
        return false;
    }
    let (front, seal) = bytes.split_at(bytes.len() - 32);
    begins_well(front, bytes.len()) && sha256_32(front).as_slice() == seal
}

#[tactic(auto, unfolding(crate::specs::Record::version_of))]
fn version_of(bytes: &[u8]) -> u16
    requires { 46 ≤ length bytes.now }
    ensures { result ≡ version_of bytes.now }
{
    let (front, _seal) = bytes.split_at(bytes.len() - 32);
    BigEndian::read_u16(&front[4..])
}

#[tactic(auto, unfolding(crate::specs::Record::body_of))]
fn body_of(bytes: &[u8]) -> &[u8]
    requires { 46 ≤ length bytes.now }
    ensures { result.now ≡ body_of bytes.now }
{
    let (front, _seal) = bytes.split_at(bytes.len() - 32);
    &front[14..]
}

// Whether nothing follows the items, they fit together, and may be told in this version.
fn are_whole(alloc: Global, version: u16, items: &Items, rest: &[u8]) -> Result<bool, Refusal>
    ensures tells_it { IfOk result (λ b. b ≡ ((length rest.now == 0) && (is_sound items.now
        && is_told_in version items.now))) }
    ensures fails_for_memory_alone { IfErr result (λ e. e ≡ Refusal.Memory) }
{
    Ok(rest.is_empty() && is_sound(alloc, items)? && is_told_in(version, items))
}

// The items that the body has in this version, and nothing after them.
fn items_of(alloc: Global, version: u16, body: &[u8]) -> Result<Items, Refusal>
    ensures reads_as_defined { Gives (λ i. i) result (only_items version (it.items.at body.now)) }
    ensures is_readable { IfOk result (λ i. is_readable i ≡ true) }
{
    let (items, rest) = Items::read(alloc, body)?;
    let whole = match are_whole(alloc, version, &items, rest) {
        Ok(whole) => whole,
        Err(refusal) => {
            drop(items);
            return Err(refusal);
        }
    };
    if whole {
        Ok(items)
    } else {
        drop(items);
        Err(Refusal::Damaged)
    }
}

/// Reads a record, version 1 or 2. One of version 1 tells the same as one of version 2 but for its version, and holds
/// no HTLC.
///
/// Its bytes are "LNLR", the version in two bytes, the length of the body in eight, the body, and the SHA-256 of all
/// bytes before it; numbers are big-endian. The body has the items in their order, up to its last byte. Takes memory
/// for lists and byte strings.
///
/// Errors, the first one: 70 (`Damaged`) where there are fewer than 46 bytes, where the first four, the length or
/// the digest are others; 71 (`Version`) where the version is another; 70 where the body isn't readable. 60 where
/// there is no memory for a body of this version with its length and digest: what is told before takes none.
pub fn decode_record(alloc: Global, bytes: &[u8]) -> Result<LinkRecord, Refusal>
    // What is read is spelled so, and readable by its type.
    ensures is_spelled_so { IfOk result (λ r. IsSpelledBy bytes.now r) }

    // What is spelled so is read.
    ensures reads_each_record { (i : Items) → is_readable i ≡ true → IsSpelledBy bytes.now i
        → Gives (λ r. r) result (Ok i) }

    // Which answer it is, and which fault comes first.
    ensures reads_as_defined { Gives (λ r. r) result (record_at bytes.now) }

    // Memory is taken for the body alone.
    ensures takes_memory_for_the_body { IsErrOf result Refusal.Memory
        → (is_sealed bytes.now ≡ true) × (is_known_version (version_of bytes.now) ≡ true) }
{
    read_record(alloc, bytes)
}

fn read_record(alloc: Global, bytes: &[u8]) -> Result<LinkRecord, Refusal>
    ensures reads_as_defined { Gives (λ r. r) result (record_at bytes.now) }
    ensures is_in_memory { length bytes.now < 2 ^ 63 }
    ensures takes_memory_for_the_body { IsErrOf result Refusal.Memory
        → (is_sealed bytes.now ≡ true) × (is_known_version (version_of bytes.now) ≡ true) }
{
    if !is_sealed(bytes) {
        return Err(Refusal::Damaged);
    }
    let version = version_of(bytes);
    if !is_known_version(version) {
        return Err(Refusal::Version);
    }
    let items = items_of(alloc, version, body_of(bytes))?;
    Ok(LinkRecord::new(items))
}

/// The bytes of a record, version 2, which `decode_record` reads. Takes memory for them.
///
/// Error: 60 alone, where there is no memory.
pub fn encode_record(alloc: Global, record: &LinkRecord) -> Result<Vec<u8>, Refusal>
    ensures writes_the_record { IfOk result (λ v. v.items ≡ record_bytes «record».now) }
    ensures fails_for_memory_alone { IfErr result (λ e. e ≡ Refusal.Memory) }
{
    let items = record.items();
    let mut body = Vec::new(alloc);
    items.write(&mut body)?;
    seal(alloc, body.as_slice())
}

// The head, the body and the digest.
fn seal(alloc: Global, body: &[u8]) -> Result<Vec<u8>, Refusal>
    ensures seals_it { IfOk result (λ v. v.items ≡ sealed 2 body.now) }
    ensures fails_for_memory_alone { IfErr result (λ e. e ≡ Refusal.Memory) }
{
    let mut out = Vec::new(alloc);
    put_unsealed(&mut out, body)?;
    put_digest(&mut out)?;
    Ok(out)
}

// Writes the digest of what is there after it.
fn put_digest(out: &mut Vec<u8>) -> Result<(), Refusal>
    ensures appends_it { OnOk result (out.new.items ≡ out.old.items ++ digest out.old.items) }
    ensures fails_for_memory_alone { IfErr result (λ e. e ≡ Refusal.Memory) }
{
    let digest = sha256_32(out.as_slice());
    put(out, &digest)
}

fn put_unsealed(out: &mut Vec<u8>, body: &[u8]) -> Result<(), Refusal>
    ensures appends_it { OnOk result (out.new.items ≡ out.old.items ++ unsealed 2 body.now) }
    ensures fails_for_memory_alone { IfErr result (λ e. e ≡ Refusal.Memory) }
{
    put(out, &MAGIC)?;
    put_u16(out, 2)?;
    put_u64(out, body.len() as u64)?;
    put(out, body)
}

/// A law: a record has one spelling in each version, but none in version 1 where it holds an HTLC; what is spelled is
/// read, and what reads as items is spelled so.
pub fn one_record()
    ensures reads_what_is_written { (i : Items) → is_readable i ≡ true → length (record_bytes i) < 2 ^ 64
        → record_at (record_bytes i) ≡ Ok i }
    ensures reads_what_was_written { (i : Items) → is_readable i ≡ true → holds_any i ≡ false
        → length (spelled_in 1 i) < 2 ^ 64 → record_at (spelled_in 1 i) ≡ Ok i }
    ensures spells_one_record { (i j : Items) (bytes : List ℕ) → is_readable i ≡ true → is_readable j ≡ true
        → length bytes < 2 ^ 64 → IsSpelledBy bytes i → IsSpelledBy bytes j → i ≡ j }
    ensures spells_what_is_read { (i : Items) (bytes : List ℕ) → ((n : ℕ) → slice_index bytes n < 256)
        → record_at bytes ≡ Ok i → IsSpelledBy bytes i × (is_readable i ≡ true) }
{}
