//! Numbers, records and short channel ids against their bytes: the vectors of BOLT 1 and others.

use ln_bytes::{
    Bytes, Fault, Record, ShortId, bigsize_len, read_bigsize, read_tlvs, read_tu32, read_tu64,
    value_of, write_bigsize, write_tlvs, write_tu64,
};
use std::alloc::{AllocError, Global};

/// BOLT 1, Appendix A: what both decodes and encodes.
const NUMBERS: [(u64, &[u8]); 8] = [
    (0, &[0x00]),
    (252, &[0xfc]),
    (253, &[0xfd, 0x00, 0xfd]),
    (65535, &[0xfd, 0xff, 0xff]),
    (65536, &[0xfe, 0x00, 0x01, 0x00, 0x00]),
    (4294967295, &[0xfe, 0xff, 0xff, 0xff, 0xff]),
    (
        4294967296,
        &[0xff, 0x00, 0x00, 0x00, 0x01, 0x00, 0x00, 0x00, 0x00],
    ),
    (
        18446744073709551615,
        &[0xff, 0xff, 0xff, 0xff, 0xff, 0xff, 0xff, 0xff, 0xff],
    ),
];

/// BOLT 1, Appendix A: what doesn't decode, because the form is too long or the bytes end.
const BAD_NUMBERS: [(&[u8], Fault); 10] = [
    (&[0xfd, 0x00, 0xfc], Fault::NotMinimal),
    (&[0xfe, 0x00, 0x00, 0xff, 0xff], Fault::NotMinimal),
    (
        &[0xff, 0x00, 0x00, 0x00, 0x00, 0xff, 0xff, 0xff, 0xff],
        Fault::NotMinimal,
    ),
    (&[0xfd, 0x00], Fault::Truncated),
    (&[0xfe, 0xff, 0xff], Fault::Truncated),
    (&[0xff, 0xff, 0xff, 0xff, 0xff], Fault::Truncated),
    (&[], Fault::Truncated),
    (&[0xfd], Fault::Truncated),
    (&[0xfe], Fault::Truncated),
    (&[0xff], Fault::Truncated),
];

/// Whether the number is written as these bytes and read from them.
fn is_spelled(number: u64, bytes: &[u8]) -> bool {
    let mut out = [0xaa; 9];
    let len = write_bigsize(number, &mut out);
    &out[..len] == bytes
        && bigsize_len(number) == bytes.len()
        && read_bigsize(bytes) == Ok((number, bytes.len()))
}

#[test]
fn numbers(rt: HostRuntime) {
    for row in &NUMBERS {
        assert!(rt; is_spelled(row.0, row.1));
    }
    for row in &BAD_NUMBERS {
        assert!(rt; read_bigsize(row.0) == Err(row.1));
    }
}

/// BOLT 1, Appendix B: the values of the first namespace's `tu64`.
const TRUNCATED: [(u64, &[u8]); 9] = [
    (0, &[]),
    (1, &[0x01]),
    (256, &[0x01, 0x00]),
    (65536, &[0x01, 0x00, 0x00]),
    (16777216, &[0x01, 0x00, 0x00, 0x00]),
    (4294967296, &[0x01, 0x00, 0x00, 0x00, 0x00]),
    (1099511627776, &[0x01, 0x00, 0x00, 0x00, 0x00, 0x00]),
    (281474976710656, &[0x01, 0x00, 0x00, 0x00, 0x00, 0x00, 0x00]),
    (
        72057594037927936,
        &[0x01, 0x00, 0x00, 0x00, 0x00, 0x00, 0x00, 0x00],
    ),
];

/// The same appendix: encodings that aren't minimal, and one that is too long. The length is told before a leading
/// zero.
const BAD_TRUNCATED: [(&[u8], Fault, Fault); 9] = [
    (
        &[0xff, 0xff, 0xff, 0xff, 0xff, 0xff, 0xff, 0xff, 0xff],
        Fault::FieldLength,
        Fault::FieldLength,
    ),
    (&[0x00], Fault::NotMinimal, Fault::NotMinimal),
    (&[0x00, 0x01], Fault::NotMinimal, Fault::NotMinimal),
    (&[0x00, 0x01, 0x00], Fault::NotMinimal, Fault::NotMinimal),
    (
        &[0x00, 0x01, 0x00, 0x00],
        Fault::NotMinimal,
        Fault::NotMinimal,
    ),
    (
        &[0x00, 0x01, 0x00, 0x00, 0x00],
        Fault::NotMinimal,
        Fault::FieldLength,
    ),
    (
        &[0x00, 0x01, 0x00, 0x00, 0x00, 0x00],
        Fault::NotMinimal,
        Fault::FieldLength,
    ),
    (
        &[0x00, 0x01, 0x00, 0x00, 0x00, 0x00, 0x00],
        Fault::NotMinimal,
        Fault::FieldLength,
    ),
    (
        &[0x00, 0x01, 0x00, 0x00, 0x00, 0x00, 0x00, 0x00],
        Fault::NotMinimal,
        Fault::FieldLength,
    ),
];

/// Whether the number is written as these bytes and read from them.
fn is_truncated(number: u64, bytes: &[u8]) -> bool {
    let mut out = [0xaa; 8];
    let len = write_tu64(number, &mut out);
    out.get(..len) == Some(bytes) && read_tu64(bytes) == Ok(number)
}

/// Whether the bytes are no `tu64` and no `tu32` by these faults.
fn is_refused(bytes: &[u8], fault: Fault, fault32: Fault) -> bool {
    read_tu64(bytes) == Err(fault) && read_tu32(bytes) == Err(fault32)
}

#[test]
fn truncated_numbers(rt: HostRuntime) {
    for row in &TRUNCATED {
        assert!(rt; is_truncated(row.0, row.1));
    }
    for row in &BAD_TRUNCATED {
        assert!(rt; is_refused(row.0, row.1, row.2));
    }
    assert!(rt; read_tu32(&[0x01, 0x00, 0x00, 0x00]) == Ok(16_777_216));
}

/// Each fault with its number, which its text ends in.
const FAULTS: [(Fault, u16, &str); 11] = [
    (Fault::Truncated, 1, "refused 1"),
    (Fault::NotMinimal, 2, "refused 2"),
    (Fault::TlvOrder, 3, "refused 3"),
    (Fault::TlvUnknownEven, 4, "refused 4"),
    (Fault::TlvLength, 5, "refused 5"),
    (Fault::UnknownEvenType, 6, "refused 6"),
    (Fault::TooLong, 7, "refused 7"),
    (Fault::FieldLength, 8, "refused 8"),
    (Fault::UnknownFeature, 9, "refused 9"),
    (Fault::Memory, 60, "refused 60"),
    (Fault::Io, 63, "refused 63"),
];

/// Whether the fault has this number and this text.
fn is_told_so(alloc: Global, fault: Fault, number: u16, text: &str) -> bool {
    match format!(in alloc; "{fault}") {
        Ok(told) => fault.number() == number && told.as_str() == text,
        Err(_) => false,
    }
}

#[test]
fn fault_texts(rt: HostRuntime) {
    let alloc = rt.alloc();
    for row in &FAULTS {
        assert!(rt; is_told_so(alloc, row.0, row.1, row.2));
    }
}

/// A stream of records, and how it is told.
type Row = (&'static [u8], &'static str);

/// The even types that BOLT 1, Appendix B, knows in its first namespace, and in its second one.
const FIRST: [u64; 2] = [2, 254];

const SECOND: [u64; 1] = [0];

/// BOLT 1, Appendix B: streams that fail in any namespace.
const BAD_STREAMS: [Row; 12] = [
    (&[0xfd], "refused 1"),
    (&[0xfd, 0x01], "refused 1"),
    (&[0xfd, 0x00, 0x01, 0x00], "refused 2"),
    (&[0xfd, 0x01, 0x01], "refused 1"),
    (&[0x0f, 0xfd], "refused 1"),
    (&[0x0f, 0xfd, 0x26], "refused 1"),
    (&[0x0f, 0xfd, 0x26, 0x02], "refused 5"),
    (&[0x0f, 0xfd, 0x00, 0x01, 0x00], "refused 2"),
    (&[0x12, 0x00], "refused 4"),
    (&[0xfd, 0x01, 0x02, 0x00], "refused 4"),
    (&[0xfe, 0x01, 0x00, 0x00, 0x02, 0x00], "refused 4"),
    (
        &[0xff, 0x01, 0x00, 0x00, 0x00, 0x00, 0x00, 0x00, 0x02, 0x00],
        "refused 4",
    ),
];

/// BOLT 1, Appendix B: the first namespace. Some streams fail by their order or an even type, others hold records that
/// it knows.
const IN_FIRST: [Row; 7] = [
    (&[0x00, 0x00], "refused 4"),
    (
        &[
            0x02, 0x08, 0x00, 0x00, 0x00, 0x00, 0x00, 0x00, 0x02, 0x26, 0x01, 0x01, 0x2a,
        ],
        "refused 3",
    ),
    (
        &[
            0x02, 0x08, 0x00, 0x00, 0x00, 0x00, 0x00, 0x00, 0x02, 0x31, 0x02, 0x08, 0x00, 0x00,
            0x00, 0x00, 0x00, 0x00, 0x04, 0x51,
        ],
        "refused 3",
    ),
    (&[0x1f, 0x00, 0x0f, 0x01, 0x2a], "refused 3"),
    (&[0x1f, 0x00, 0x1f, 0x01, 0x2a], "refused 3"),
    (
        &[
            0x01, 0x03, 0x01, 0x00, 0x00, 0x02, 0x08, 0x00, 0x00, 0x00, 0x00, 0x00, 0x00, 0x02,
            0x26, 0xfd, 0x00, 0xfe, 0x02, 0x02, 0x26,
        ],
        "1:3 2:8 254:2 ",
    ),
    (&[], ""),
];

/// The same appendix, in the second namespace: the greatest type, and then 0; and records of odd types that nobody
/// knows, each of which is read alone, and so one after the other too. All are kept.
const IN_SECOND: [Row; 2] = [
    (
        &[
            0xff, 0xff, 0xff, 0xff, 0xff, 0xff, 0xff, 0xff, 0xff, 0x00, 0x00, 0x00,
        ],
        "refused 3",
    ),
    (
        &[
            0x21, 0x00, 0xfd, 0x00, 0xfd, 0x00, 0xfd, 0x00, 0xff, 0x00, 0xfd, 0x02, 0x01, 0x00,
            0xfe, 0x02, 0x00, 0x00, 0x01, 0x00, 0xff, 0x02, 0x00, 0x00, 0x00, 0x00, 0x00, 0x00,
            0x01, 0x00,
        ],
        "33:0 253:0 255:0 513:0 33554433:0 144115188075855873:0 ",
    ),
];

/// How a stream is told: each record by its type and how many bytes its value has, where they are written as these
/// bytes again, or its fault.
fn shown(alloc: Global, bytes: &[u8], known_even: &[u64]) -> Result<String, AllocError> {
    let records = match read_tlvs(alloc, bytes, known_even) {
        Ok(records) => records,
        Err(fault) => return format!(in alloc; "{fault}"),
    };
    match write_tlvs(alloc, &records) {
        Ok(written) if written.as_slice() == bytes => record_texts(alloc, &records),
        _ => String::from_str(alloc, "written otherwise"),
    }
}

fn record_texts(alloc: Global, records: &[Record]) -> Result<String, AllocError> {
    let mut text = String::new(alloc);
    for record in records {
        write!(text, "{}:{} ", record.typ, record.value.len())?;
    }
    Ok(text)
}

/// Whether each stream is told so.
fn are_shown(alloc: Global, known_even: &[u64], rows: &[Row]) -> Result<bool, AllocError> {
    for row in rows {
        if shown(alloc, row.0, known_even)?.as_str() != row.1 {
            return Ok(false);
        }
    }
    Ok(true)
}

/// Whether the appendix's value that is cut short is told so: its length is 513.
fn is_short_shown(alloc: Global) -> Result<bool, AllocError> {
    let mut short = [0; 516];
    short[..4].copy_from_slice(&[0x0f, 0xfd, 0x02, 0x01]);
    Ok(shown(alloc, &short, &FIRST)?.as_str() == "refused 5")
}

/// Whether both namespaces refuse what fails in any.
fn both_refuse(alloc: Global) -> Result<bool, AllocError> {
    for known_even in [FIRST.as_slice(), SECOND.as_slice()] {
        if !are_shown(alloc, known_even, &BAD_STREAMS)? {
            return Ok(false);
        }
    }
    Ok(true)
}

fn all_are_shown(alloc: Global) -> Result<bool, AllocError> {
    Ok(
        both_refuse(alloc)?
            && are_shown(alloc, &FIRST, &IN_FIRST)?
            && are_shown(alloc, &SECOND, &IN_SECOND)?
            && is_short_shown(alloc)?,
    )
}

#[test]
fn streams(rt: HostRuntime) {
    assert!(rt; all_are_shown(rt.alloc()) == Ok(true));
}

/// The first byte of the value of each of the types 1 to 3, and 0 where there is none.
fn first_bytes(records: &[Record]) -> [u8; 3] {
    let mut bytes = [0; 3];
    for i in 0..3usize {
        let value = value_of(records, i as u64 + 1).unwrap_or(&[]);
        bytes[i] = value.first().copied().unwrap_or(0);
    }
    bytes
}

/// Whether the bytes after a record are these.
fn are_bytes(alloc: Global, written: Vec<u8>, bytes: &[u8]) -> bool {
    let written = Bytes::new(written);
    written.len() == bytes.len()
        && !written.is_empty()
        && Bytes::empty(alloc).is_empty()
        && written.as_slice() == bytes
        && written.into_vec().as_slice() == bytes
}

/// The values of three records, and whether they are written as these bytes.
fn read_and_written(alloc: Global, bytes: &[u8]) -> Result<([u8; 3], bool), Fault> {
    let records = read_tlvs(alloc, bytes, &[])?;
    let written = write_tlvs(alloc, &records)?;
    Ok((first_bytes(&records), are_bytes(alloc, written, bytes)))
}

#[test]
fn small_records(rt: HostRuntime) -> Result<(), Fault> {
    let bytes = [1, 1, 9, 3, 2, 7, 8];
    assert!(rt; read_and_written(rt.alloc(), &bytes)? == ([9, 0, 7], true));
    Ok(())
}

/// Short ids as text and bytes: our own, the value of BOLT 1, Appendix B, the example of BOLT 7,
/// "Definition of `short_channel_id`", and the greatest.
const SHORT_IDS: [(&str, [u8; 8]); 4] = [
    ("1x2x3", [0x00, 0x00, 0x01, 0x00, 0x00, 0x02, 0x00, 0x03]),
    ("0x0x550", [0x00, 0x00, 0x00, 0x00, 0x00, 0x00, 0x02, 0x26]),
    (
        "539268x845x1",
        [0x08, 0x3a, 0x84, 0x00, 0x03, 0x4d, 0x00, 0x01],
    ),
    (
        "16777215x16777215x65535",
        [0xff, 0xff, 0xff, 0xff, 0xff, 0xff, 0xff, 0xff],
    ),
];

/// Whether the text and these bytes are those of one short id.
fn is_short_id(alloc: Global, text: &str, bytes: &[u8; 8]) -> bool {
    let id = ShortId::from_bytes(bytes);
    match format!(in alloc; "{id}") {
        Ok(told) => told.as_str() == text
            && ShortId::parse(text) == Some(id)
            && id.to_bytes() == *bytes,
        Err(_) => false,
    }
}

#[test]
fn short_ids(rt: HostRuntime) {
    let alloc = rt.alloc();
    for row in &SHORT_IDS {
        assert!(rt; is_short_id(alloc, row.0, &row.1));
    }
    let id = ShortId {
        block: 1,
        tx: 2,
        output: 3,
    };
    assert!(rt; ShortId::parse("1x2x3") == Some(id));
    assert!(rt; ShortId::parse("1x2x03").is_none());
}
