//! Messages whose every byte tells where it stands, all refusals by their texts, and a writer that takes nothing.

use crate::narrow::Narrow;
use ln_bytes::Fault;
use ln_msgs::{Counted, Field, Incoming, Item, Message, answer_pings, decode};
use ln_refusals::{LostData, PeerRule, Refusal};
use std::alloc::{AllocError, Global};

// A type, how many bytes its fields of fixed size take, the bytes of those after them, and the names of all.
type Row = (u16, usize, &'static [u8], &'static [&'static str]);

const FAILED: Row = (131, 40, &[0, 2, 8, 9], &["channel_id", "id", "reason"]);

const ROWS: [Row; 20] = [
    (1, 32, &[0, 2, 8, 9], &["channel_id", "data"]),
    (
        16,
        0,
        &[0, 1, 5, 0, 2, 6, 7],
        &["global_features", "features"],
    ),
    (17, 32, &[0, 2, 8, 9], &["channel_id", "data"]),
    (18, 2, &[0, 3, 5, 6, 7], &["num_pong_bytes", "ignored"]),
    (19, 0, &[0, 3, 5, 6, 7], &["ignored"]),
    (
        32,
        319,
        &[],
        &[
            "chain_hash",
            "temporary_id",
            "funding_satoshis",
            "push_msat",
            "dust_limit_satoshis",
            "max_htlc_value_in_flight_msat",
            "channel_reserve_satoshis",
            "htlc_minimum_msat",
            "feerate_per_kw",
            "to_self_delay",
            "max_accepted_htlcs",
            "funding_pubkey",
            "revocation_basepoint",
            "payment_basepoint",
            "delayed_payment_basepoint",
            "htlc_basepoint",
            "first_per_commitment_point",
            "channel_flags",
        ],
    ),
    (
        33,
        270,
        &[],
        &[
            "temporary_id",
            "dust_limit_satoshis",
            "max_htlc_value_in_flight_msat",
            "channel_reserve_satoshis",
            "htlc_minimum_msat",
            "minimum_depth",
            "to_self_delay",
            "max_accepted_htlcs",
            "funding_pubkey",
            "revocation_basepoint",
            "payment_basepoint",
            "delayed_payment_basepoint",
            "htlc_basepoint",
            "first_per_commitment_point",
        ],
    ),
    (
        34,
        130,
        &[],
        &["temporary_id", "funding_txid", "output_index", "signature"],
    ),
    (35, 96, &[], &["channel_id", "signature"]),
    (36, 65, &[], &["channel_id", "second_point"]),
    (38, 32, &[0, 2, 8, 9], &["channel_id", "script"]),
    (39, 104, &[], &["channel_id", "fee_satoshis", "signature"]),
    (
        128,
        1450,
        &[],
        &[
            "channel_id",
            "id",
            "amount_msat",
            "payment_hash",
            "cltv_expiry",
            "onion",
        ],
    ),
    (130, 72, &[], &["channel_id", "id", "preimage"]),
    FAILED,
    (
        132,
        96,
        &[0, 0],
        &["channel_id", "signature", "htlc_signatures"],
    ),
    (133, 97, &[], &["channel_id", "secret", "next_point"]),
    (134, 36, &[], &["channel_id", "feerate_per_kw"]),
    (
        135,
        74,
        &[],
        &["channel_id", "id", "sha256_of_onion", "failure_code"],
    ),
    (
        136,
        113,
        &[],
        &[
            "channel_id",
            "next_commitment_number",
            "next_revocation_number",
            "last_secret",
            "current_point",
        ],
    ),
];

// The message's bytes: its type, so many bytes of which neighbours differ, and the tail.
fn bytes_of(alloc: Global, typ: u16, fixed: usize, tail: &[u8]) -> Result<Vec<u8>, AllocError> {
    let mut bytes = Vec::from_slice(alloc, &typ.to_be_bytes())?;
    let mut next = 1u8;
    for _ in 0..fixed {
        bytes.push(next)?;
        next = next.wrapping_add(7);
    }
    bytes.extend_from_slice(tail)?;
    Ok(bytes)
}

// Puts a length or a count after others, in two bytes.
fn put_count(bytes: &mut Vec<u8>, count: usize) -> Result<(), AllocError> {
    let count = u16::try_from(count).unwrap_or(u16::MAX);
    bytes.extend_from_slice(&count.to_be_bytes())
}

fn put_sized(bytes: &mut Vec<u8>, value: &[u8]) -> Result<(), AllocError> {
    put_count(bytes, value.len())?;
    bytes.extend_from_slice(value)
}

// Puts the bytes of a value after others, of a list its count alone.
fn put(bytes: &mut Vec<u8>, value: &Item<'_>) -> Result<(), AllocError> {
    match *value {
        Item::U8(number) => bytes.extend_from_slice(&[number]),
        Item::U16(number) => bytes.extend_from_slice(&number.to_be_bytes()),
        Item::U32(number) => bytes.extend_from_slice(&number.to_be_bytes()),
        Item::U64(number) => bytes.extend_from_slice(&number.to_be_bytes()),
        Item::Fixed(value) => bytes.extend_from_slice(value),
        Item::Sized(value) => put_sized(bytes, value),
        Item::Listed(list) => put_count(bytes, list.len()),
    }
}

// The bytes of the values, one after the other.
fn values(alloc: Global, fields: &[Field<'_>]) -> Result<Vec<u8>, AllocError> {
    let mut bytes = Vec::new(alloc);
    for field in fields {
        put(&mut bytes, &field.value)?;
    }
    Ok(bytes)
}

fn are_named(fields: &[Field<'_>], names: &[&str]) -> bool {
    if fields.len() != names.len() {
        return false;
    }
    for i in 0..names.len() {
        if fields[i].name != names[i] {
            return false;
        }
    }
    true
}

// Whether the message's fields have these names, and their values are these bytes one after the other.
fn are_fields(
    alloc: Global,
    message: &Message,
    names: &[&str],
    bytes: &[u8],
) -> Result<bool, Fault> {
    let fields = message.fields(alloc)?;
    let written = values(alloc, &fields)?;
    Ok(are_named(&fields, names) && written.as_slice() == bytes)
}

// Whether the row's message has these fields.
fn is_whole(alloc: Global, row: &Row) -> Result<bool, Fault> {
    let bytes = bytes_of(alloc, row.0, row.1, row.2)?;
    let decoded = decode(alloc, &bytes);
    let same = match &decoded {
        Ok(Incoming::Known(message)) => are_fields(alloc, message, row.3, &bytes[2..]),
        Ok(Incoming::Ignored(_)) => Ok(false),
        Err(fault) => Err(*fault),
    };
    drop(decoded);
    same
}

fn are_whole(alloc: Global) -> Result<bool, Fault> {
    for row in &ROWS {
        if !is_whole(alloc, row)? {
            return Ok(false);
        }
    }
    Ok(true)
}

#[test]
fn fields_by_name_and_place(rt: HostRuntime) {
    assert!(rt; are_whole(rt.alloc()) == Ok(true));
}

#[test]
fn small_fields(rt: HostRuntime) -> Result<(), Fault> {
    assert!(rt; is_whole(rt.alloc(), &FAILED)?);
    Ok(())
}

// The texts of all refusals.
const TEXTS: [(Refusal, &str); 47] = [
    (Refusal::Truncated, "refused 1"),
    (Refusal::NotMinimal, "refused 2"),
    (Refusal::TlvOrder, "refused 3"),
    (Refusal::TlvUnknownEven, "refused 4"),
    (Refusal::TlvLength, "refused 5"),
    (Refusal::UnknownEvenType, "refused 6"),
    (Refusal::TooLong, "refused 7"),
    (Refusal::FieldLength, "refused 8"),
    (Refusal::UnknownFeature, "refused 9"),
    (Refusal::UnknownChannel, "refused 20"),
    (Refusal::OutOfPlace, "refused 21"),
    (Refusal::BadId, "refused 22"),
    (Refusal::AmountBelowMinimum, "refused 23"),
    (Refusal::TooManyHtlcs, "refused 24"),
    (Refusal::InFlightOver, "refused 25"),
    (Refusal::CannotAfford, "refused 26"),
    (Refusal::ExpiryRange, "refused 27"),
    (Refusal::NoSuchHtlc, "refused 28"),
    (Refusal::PreimageWrong, "refused 29"),
    (Refusal::NotFunder, "refused 30"),
    (Refusal::SignatureWrong, "refused 31"),
    (Refusal::SecretWrong, "refused 32"),
    (Refusal::NothingToRevoke, "refused 33"),
    (Refusal::ReestablishNumber(LostData::Unproved), "refused 34"),
    (
        Refusal::ReestablishNumber(LostData::Own),
        "refused 34 own data lost",
    ),
    (
        Refusal::ReestablishNumber(LostData::Peer),
        "refused 34 peer data lost",
    ),
    (Refusal::AddAfterShutdown, "refused 35"),
    (Refusal::FeeOutside, "refused 36"),
    (Refusal::PeerError, "refused 37"),
    (Refusal::NotReady, "refused 40"),
    (Refusal::SignatureOutstanding, "refused 41"),
    (Refusal::NothingToSign, "refused 42"),
    (Refusal::Shut, "refused 43"),
    (Refusal::UpdatesPending, "refused 45"),
    (Refusal::NumbersSpent, "refused 46"),
    (Refusal::Disconnected, "refused 47"),
    (Refusal::NotCommitted, "refused 48"),
    (Refusal::AlreadyRemoved, "refused 49"),
    (Refusal::Memory, "refused 60"),
    (Refusal::Store, "refused 61"),
    (Refusal::Halted, "refused 62"),
    (Refusal::Io, "refused 63"),
    (Refusal::GaveUp, "refused 65"),
    (Refusal::Damaged, "refused 70"),
    (Refusal::Version, "refused 71"),
    (Refusal::PeerLimit(PeerRule::OutOfPlace), "refused 44 21"),
    (Refusal::BadScript { line: 7 }, "refused 64 line 7"),
];

fn has_text(alloc: Global, refusal: &Refusal, text: &str) -> bool {
    match format!(in alloc; "{refusal}") {
        Ok(told) => told.as_str() == text,
        Err(_) => false,
    }
}

#[test]
fn refusals_by_their_texts(rt: HostRuntime) {
    let alloc = rt.alloc();
    for row in &TEXTS {
        assert!(rt; has_text(alloc, &row.0, row.1));
    }
}

// A write that takes nothing of a pong is a failure: 63, counted once.
#[test]
fn a_write_that_takes_nothing(rt: HostRuntime) {
    let ping = [0, 6, 0, 18, 0, 2, 0, 0];
    let mut reader = Counted::new(ping.as_slice());
    let mut writer = Counted::new(Narrow::new(rt.alloc(), 0, u64::MAX));
    assert!(rt; answer_pings(rt.alloc(), &mut reader, &mut writer) == Err(Fault::Io));
    assert!(rt; (reader.failures(), writer.failures()) == (0, 1));
}
