//! Records of channel ends, against bytes that a separate program wrote.

use ln_keys::sha256_32;
use ln_refusals::Refusal;
use ln_store::{LinkRecord, decode_record, encode_record, one_record};
use ln_tests_ends::code_of;
use std::alloc::Global;

/// The body of a record with each kind of item, as pieces that are written so many times.
const FULL: [(&str, u32); 92] = [
    ("09", 32), // channel
    ("00", 1), // role
    ("17", 1), // flags
    ("0000", 1), // failure
    ("0000013f", 1), // open_len
    ("00", 32), // chain and temporary id
    ("ff", 32),
    ("00000000000f4240", 1), // funding
    ("00000000000000050000000000000222000000e8d4a51000", 1),
    ("00000000000000000000000000000001000000fd0090001e", 1),
    (
        "020000000000000000000000000000000000000000000000000000000000000000",
        1,
    ),
    (
        "020101010101010101010101010101010101010101010101010101010101010101",
        1,
    ),
    (
        "020202020202020202020202020202020202020202020202020202020202020202",
        1,
    ),
    (
        "020303030303030303030303030303030303030303030303030303030303030303",
        1,
    ),
    (
        "020404040404040404040404040404040404040404040404040404040404040404",
        1,
    ),
    (
        "020505050505050505050505050505050505050505050505050505050505050505",
        1,
    ),
    ("00", 1),
    ("0000010e", 1), // accept_len
    ("ff", 32),
    (
        "0000000000000222000000e8d4a5100000000000000000000000000000000001000000030090001e",
        1,
    ),
    (
        "020000000000000000000000000000000000000000000000000000000000000000",
        1,
    ),
    (
        "020101010101010101010101010101010101010101010101010101010101010101",
        1,
    ),
    (
        "020202020202020202020202020202020202020202020202020202020202020202",
        1,
    ),
    (
        "020303030303030303030303030303030303030303030303030303030303030303",
        1,
    ),
    (
        "020404040404040404040404040404040404040404040404040404040404040404",
        1,
    ),
    (
        "020505050505050505050505050505050505050505050505050505050505050505",
        1,
    ),
    ("010000010000020003", 1), // place
    ("000000000000012c00000000000000c80000000000000190", 1), // fees
    ("000141", 1), // script
    ("0100024243", 1), // peer script
    ("0000000000000003", 1), // commitment
    ("0000000000000005", 1), // signed
    ("0000000000000004", 1), // revoked
    ("02", 33), // points
    ("03", 33),
    ("01", 1), // secret tag
    ("08", 32),
    ("00000000000000010000000000000002", 1), // base counts
    ("00000000000000010000000000000000", 1), // next ids
    ("000000003b9ac94f0000000000000064", 1), // balances
    ("000000fd", 1), // feerate
    ("0000000000000001", 1), // live count
    ("00", 1), // owner
    ("00", 1), // live tag
    ("0000000000000000000000000000004d", 1), // live id and amount
    ("07", 32),
    ("00000190", 1),
    ("05", 1366),
    ("00", 1), // origin tag
    ("0000000000000002", 1), // window
    ("00", 1), // tag
    ("000000000000000100000000000001f4", 1), // id and amount
    ("07", 32),
    ("00000190", 1),
    ("05", 1366),
    ("01", 1),
    ("09", 32),
    ("0000000000000006", 1),
    ("040000012c", 1), // fee update
    ("0000000000000002", 1), // peer's window
    ("010000000000000000", 1),
    ("01", 32),
    ("030000000000000001", 1), // malformed
    ("04", 32),
    ("c005", 1), // failure code
    ("00000000000000030000000000000003", 1), // covered
    ("00000000000000020000000000000002", 1), // acknowledged
    ("00000000000000040000000000000002", 1), // current
    ("0000000000000007", 1), // decided
    ("0000000000000003", 1), // undecided
    ("000000000000000001", 1), // own event
    ("010000000000000003", 1), // peer event
    ("020000000000000000", 1), // close event
    ("0000000000000004", 1), // decisions
    ("0000000000000004", 1),
    ("01", 1), // forward tag
    ("09", 32),
    ("000000000000000500000006", 1),
    ("00000000000000050200000000000000026e6f", 1),
    ("000000000000000603c006", 1),
    ("000000000000000704", 1),
    ("06", 32),
    ("0000000000000001", 1), // results
    ("0000000000000001", 1),
    ("09", 32),
    ("0000000000000002", 1),
    ("02", 1), // result tag
    ("0000000000000001000178", 1),
    ("01000000000000012c", 1), // own fee
    ("01000000000000015e", 1), // peer fee
    ("00", 1), // closed
    ("", 1), // end
];

/// A place in it, and what stands there in another record.
type Change = (usize, &'static str);

const READABLE: [Change; 15] = [
    (3, "0025"), // failure
    (3, "0015"), // failure
    (3, "0023"), // failure
    (2, "00"), // flags
    (2, "1f"), // flags
    (39, "000000003b9ac9500000000000000063"), // balances
    (39, "000000003b9ac9b30000000000000000"), // balances
    (68, "8000000000000001"), // decided
    (71, "010000000000000002"), // peer event
    (70, "000000000000000002"), // own event
    (26, "00"), // place
    (29, "00"), // peer script
    (90, "010000000000000007"), // closed
    (30, "0000ffffffffffff"), // commitment
    (66, "00000000000000030000000000000003"), // acknowledged
];

/// What stands at several places in another record: an HTLC that is failed, the least funding and the greatest.
const CHANGED: [[Change; 3]; 3] = [
    [(62, "0200000000000000010003626164"), (63, ""), (64, "")],
    [
        (7, "0000000000000001"),
        (39, "00000000000003370000000000000064"),
        (
            0,
            "0909090909090909090909090909090909090909090909090909090909090909",
        ),
    ],
    [
        (7, "000775f05a074000"),
        (39, "1d24b2dfac51ff4f0000000000000064"),
        (
            0,
            "0909090909090909090909090909090909090909090909090909090909090909",
        ),
    ],
];

/// An HTLC that is held, in place of one that is failed as malformed.
const HELD: Change = (79, "0000000000000006050000000000000004");

const UNREADABLE: [Change; 55] = [
    (1, "02"), // role
    (2, "37"), // flags
    (3, "0024"), // failure
    (3, "0014"), // failure
    (7, "0000000000000000"), // funding
    (7, "000775f05a074001"), // funding
    (7, "00000000000f4241"), // funding
    (4, "0000013e"), // open_len
    (17, "0000010f"), // accept_len
    (26, "020000010000020003"), // place
    (31, "0000000000000006"), // signed
    (31, "0000000000000003"), // signed
    (31, "0000000000000004"), // signed
    (30, "0001000000000000"), // commitment
    (37, "00000000000000020000000000000002"), // base counts
    (37, "00000000000000010000000000000003"), // base counts
    (38, "00000000000000020000000000000000"), // next ids
    (38, "00000000000000000000000000000000"), // next ids
    (38, "00000000000000010000000000000003"), // next ids
    (39, "000000003b9ac9500000000000000064"), // balances
    (39, "000000003b9ac94f0000000000000063"), // balances
    (42, "02"), // owner
    (43, "01"), // live tag
    (44, "0000000000000000000000000000004e"), // live amount
    (48, "02"), // origin tag
    (49, "0000000000000001"), // window
    (50, "05"), // tag
    (51, "000000000000000000000000000001f4"), // id
    (51, "000000000000000200000000000001f4"), // id
    (60, "010000000000000001"), // fulfil of an HTLC that is removed again
    (60, "010000000000000002"), // fulfil of none
    (62, "030000000000000000"), // malformed of an HTLC that was removed
    (42, "01"), // owner of the HTLC that the peer removes
    (65, "00000000000000020000000000000003"), // covered
    (65, "00000000000000040000000000000003"), // covered
    (65, "00000000000000030000000000000001"), // covered
    (65, "00000000000000030000000000000005"), // covered
    (66, "00000000000000010000000000000002"), // acknowledged
    (66, "00000000000000040000000000000002"), // acknowledged
    (66, "00000000000000020000000000000001"), // acknowledged
    (66, "00000000000000020000000000000004"), // acknowledged
    (67, "00000000000000030000000000000002"), // current
    (67, "00000000000000050000000000000002"), // current
    (67, "00000000000000040000000000000000"), // current
    (67, "00000000000000040000000000000003"), // current
    (68, "8000000000000002"), // decided
    (70, "000000000000000000"), // own event
    (70, "000000000000000003"), // own event
    (71, "010000000000000004"), // peer event
    (72, "020000000000000001"), // close event
    (72, "030000000000000000"), // close event
    (75, "00"), // forward tag
    (86, "04"), // result tag
    (90, "03"), // closed
    (91, "00"), // end
];

/// The value of a hex digit.
fn digit(sign: u8) -> u8 {
    match sign {
        b'0'..=b'9' => sign - b'0',
        b'a'..=b'f' => sign - b'a' + 10,
        _ => 0,
    }
}

/// Writes the bytes of these digits after the others.
fn put_hex(out: &mut Vec<u8>, digits: &[u8]) -> Result<(), Refusal> {
    let mut high = None;
    for sign in digits {
        match high {
            None => high = Some(digit(*sign)),
            Some(first) => {
                out.push(first.wrapping_mul(16).wrapping_add(digit(*sign)))?;
                high = None;
            }
        }
    }
    Ok(())
}

/// What stands at this place instead.
fn changed(changes: &[Change], place: usize) -> Option<&'static str> {
    for change in changes {
        if change.0 == place {
            return Some(change.1);
        }
    }
    None
}

/// The record of this version with the full body, but for these changes.
fn record_with(alloc: Global, version: u8, changes: &[Change]) -> Result<Vec<u8>, Refusal> {
    let mut body = Vec::with_capacity(alloc, 4200)?;
    for (place, (digits, times)) in FULL.iter().enumerate() {
        match changed(changes, place) {
            Some(other) => put_hex(&mut body, other.as_bytes())?,
            None => {
                for _ in 0..*times {
                    put_hex(&mut body, digits.as_bytes())?;
                }
            }
        }
    }
    let mut out = Vec::with_capacity(alloc, 4300)?;
    out.extend_from_slice(b"LNLR\0")?;
    out.push(version)?;
    out.extend_from_slice(&(body.len() as u64).to_be_bytes())?;
    out.extend_from_slice(body.as_slice())?;
    let digest = sha256_32(out.as_slice());
    out.extend_from_slice(&digest)?;
    Ok(out)
}

/// Whether the record is written as these bytes.
fn is_written_as(alloc: Global, found: &LinkRecord, bytes: &[u8]) -> Result<bool, Refusal> {
    let again = encode_record(alloc, found)?;
    Ok(again.as_slice() == bytes)
}

/// Whether what these bytes are read as is written as those.
fn is_read_and_written(alloc: Global, bytes: &[u8], again: &[u8]) -> Result<bool, Refusal> {
    let found = decode_record(alloc, bytes);
    let same = match &found {
        Ok(found) => is_written_as(alloc, found, again),
        Err(refusal) => Err(*refusal),
    };
    drop(found);
    same
}

/// Whether these bytes are written again as they were.
fn is_written_again(alloc: Global, bytes: &[u8]) -> Result<bool, Refusal> {
    is_read_and_written(alloc, bytes, bytes)
}

/// What the record with these changes is refused by in version 1; 0 where it is read, and written in version 2.
fn code_in_version_1(alloc: Global, changes: &[Change]) -> u32 {
    let Ok(old) = record_with(alloc, 1, changes) else {
        return 2;
    };
    let Ok(new) = record_with(alloc, 2, changes) else {
        return 2;
    };
    match is_read_and_written(alloc, old.as_slice(), new.as_slice()) {
        Err(refusal) => code_of(Some(refusal)),
        Ok(same) => u32::from(!same),
    }
}

/// What these bytes are refused by; 0 where they are a record, which is written again as it was; 1 where it isn't.
fn code_of_bytes(alloc: Global, bytes: &[u8]) -> u32 {
    match is_written_again(alloc, bytes) {
        Err(refusal) => code_of(Some(refusal)),
        Ok(same) => u32::from(!same),
    }
}

fn code_with(alloc: Global, version: u8, changes: &[Change]) -> u32 {
    match record_with(alloc, version, changes) {
        Err(refusal) => code_of(Some(refusal)),
        Ok(bytes) => code_of_bytes(alloc, bytes.as_slice()),
    }
}

/// How many of the beginnings of a record aren't refused by 70.
fn cuts_taken(alloc: Global, bytes: &[u8]) -> u32 {
    let mut taken: u32 = 0;
    for len in 0..bytes.len() {
        if code_of_bytes(alloc, &bytes[..len]) != 70 {
            taken = taken.wrapping_add(1);
        }
    }
    taken
}

/// How many of its bytes can have their lowest bit changed without 70.
fn changes_taken(alloc: Global, bytes: &mut [u8]) -> u32 {
    let mut taken: u32 = 0;
    for place in 0..bytes.len() {
        bytes[place] ^= 1;
        if code_of_bytes(alloc, bytes) != 70 {
            taken = taken.wrapping_add(1);
        }
        bytes[place] ^= 1;
    }
    taken
}

#[test]
fn small_record(rt: HostRuntime) -> Result<(), Refusal> {
    let bytes = record_with(rt.alloc(), 2, &[])?;
    assert!(rt; is_written_again(rt.alloc(), bytes.as_slice())?);
    Ok(())
}

#[test]
fn records_that_are_read(rt: HostRuntime) {
    let alloc = rt.alloc();
    one_record();
    assert!(rt; code_with(alloc, 2, &[]) == 0);
    assert!(rt; code_with(alloc, 9, &[]) == 71);
    assert!(rt; code_with(alloc, 3, &[]) == 71);
    assert!(rt; code_with(alloc, 0, &[]) == 71);
    assert!(rt; code_with(alloc, 2, &[HELD]) == 0);
    for row in &READABLE {
        assert_eq!(rt; code_with(alloc, 2, &[*row]), 0);
    }
    for rows in &CHANGED {
        assert_eq!(rt; code_with(alloc, 2, rows), 0);
    }
    for row in &UNREADABLE {
        assert_eq!(rt; code_with(alloc, 2, &[*row]), 70);
        assert_eq!(rt; code_with(alloc, 3, &[*row]), 71);
    }
}

#[test]
fn records_of_version_1(rt: HostRuntime) {
    let alloc = rt.alloc();
    assert!(rt; code_in_version_1(alloc, &[]) == 0);
    assert!(rt; code_in_version_1(alloc, &[HELD]) == 70);
    for row in &READABLE {
        assert_eq!(rt; code_in_version_1(alloc, &[*row]), 0);
    }
    for rows in &CHANGED {
        assert_eq!(rt; code_in_version_1(alloc, rows), 0);
    }
    for row in &UNREADABLE {
        assert_eq!(rt; code_in_version_1(alloc, &[*row]), 70);
    }
}

#[test]
fn damaged_records(rt: HostRuntime) {
    let alloc = rt.alloc();
    assert!(rt; code_of_bytes(alloc, &[]) == 70);
    let Ok(mut bytes) = record_with(alloc, 2, &[]) else {
        return;
    };
    assert!(rt; bytes.len() == 4199);
    assert!(rt; cuts_taken(alloc, bytes.as_slice()) == 0);
    assert!(rt; changes_taken(alloc, bytes.as_mut_slice()) == 0);
}
