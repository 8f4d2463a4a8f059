//! Messages against their bytes, frames in pieces, and what else is said to a peer. Each row goes from bytes or numbers
//! to a line of text.

use crate::pings::READY;
use ln_bytes::{Bytes, Fault};
use ln_msgs::{
    Framer, Incoming, Init, Message, Pong, Records, channel_id, check_init, decode, encode, fits,
};
use ln_refusals::Refusal;
use std::alloc::{AllocError, Global};

/// The name of each type and how many bytes its fields have where every byte string and list is empty.
const FIELDS: [(u16, usize, &str); 20] = [
    (1, 34, "warning"),
    (16, 4, "init"),
    (17, 34, "error"),
    (18, 4, "ping"),
    (19, 2, "pong"),
    (32, 319, "open_channel"),
    (33, 270, "accept_channel"),
    (34, 130, "funding_created"),
    (35, 96, "funding_signed"),
    (36, 65, "channel_ready"),
    (38, 34, "shutdown"),
    (39, 104, "closing_signed"),
    (128, 1450, "update_add_htlc"),
    (130, 72, "update_fulfill_htlc"),
    (131, 42, "update_fail_htlc"),
    (132, 98, "commitment_signed"),
    (133, 97, "revoke_and_ack"),
    (134, 36, "update_fee"),
    (135, 74, "update_fail_malformed_htlc"),
    (136, 113, "channel_reestablish"),
];

/// What is after so many zero bytes of fields, and what is said of it: the records, types that are not known, and
/// the order in which faults are told.
const TAILS: [(u16, usize, &[u8], &str); 22] = [
    // BOLT 1, "Appendix C: Message Extension"
    (16, 4, &[0xc9, 1, 0x2a, 0xcb, 1, 4], "init"),
    (16, 4, &[1], "refused 1"),
    (16, 4, &[0xca, 1, 0x2a], "refused 4"),
    (16, 4, &[0xc9, 1, 1, 0xc9, 1, 2], "refused 3"),
    // an alias and a fee range, and others of another length
    (36, 65, &[1, 8, 0, 0, 1, 0, 0, 2, 0, 3], "channel_ready"),
    (36, 65, &[1, 1, 0xff], "refused 8"),
    (36, 65, &[1, 1, 0xff, 2, 0], "refused 4"),
    (36, 65, &[3, 1, 0xff], "channel_ready"),
    (
        39,
        104,
        &[1, 16, 0, 0, 0, 0, 0, 0, 0, 1, 0, 0, 0, 0, 0, 0, 0, 2],
        "closing_signed",
    ),
    (39, 104, &[1, 8, 0, 0, 0, 0, 0, 0, 0, 1], "refused 8"),
    // an even type that is known in two messages alone
    (32, 319, &[0, 2, 7, 7, 1, 1, 0x10], "open_channel"),
    (33, 270, &[0, 0], "accept_channel"),
    (32, 319, &[2, 0], "refused 4"),
    (35, 96, &[0, 0], "refused 4"),
    // odd types and 256 to 265 are read past, other types are refused
    (21, 0, &[], "ignored"),
    (256, 0, &[], "ignored"),
    (264, 0, &[2], "ignored"),
    (100, 0, &[], "refused 6"),
    (266, 0, &[], "refused 6"),
    (2, 0, &[], "refused 6"),
    // 65,535 bytes and one more, which is told before an even type
    (21, 65_533, &[], "ignored"),
    (100, 65_534, &[], "refused 7"),
];

/// A message of this type, with so many zero bytes and then these.
fn bytes_of(alloc: Global, typ: u16, zeros: usize, tail: &[u8]) -> Result<Vec<u8>, AllocError> {
    let mut bytes = Vec::from_slice(alloc, &typ.to_be_bytes())?;
    bytes.resize(zeros.saturating_add(2), 0)?;
    bytes.extend_from_slice(tail)?;
    Ok(bytes)
}

/// Whether the message is written as these bytes.
fn is_written_as(alloc: Global, message: &Message, bytes: &[u8]) -> bool {
    if !fits(message) {
        return false;
    }
    match encode(alloc, message) {
        Ok(again) => again.as_slice() == bytes,
        Err(_) => false,
    }
}

/// What the bytes say: of a known type its name, where the message is written as these bytes again.
fn shown(alloc: Global, bytes: &[u8]) -> Result<String, AllocError> {
    let decoded = decode(alloc, bytes);
    let text = match &decoded {
        Ok(Incoming::Known(message)) => {
            let name = if is_written_as(alloc, message, bytes) {
                message.name()
            } else {
                "written otherwise"
            };
            String::from_str(alloc, name)
        }
        Ok(Incoming::Ignored(_)) => String::from_str(alloc, "ignored"),
        Err(fault) => format!(in alloc; "{fault}"),
    };
    drop(decoded);
    text
}

/// Whether the bytes are told so.
fn is_shown(
    alloc: Global,
    typ: u16,
    zeros: usize,
    tail: &[u8],
    want: &str,
) -> Result<bool, AllocError> {
    let bytes = bytes_of(alloc, typ, zeros, tail)?;
    Ok(shown(alloc, &bytes)?.as_str() == want)
}

/// Whether a message of zeros is cut short wherever it is cut.
fn is_refused_where_cut(alloc: Global, typ: u16, len: usize) -> Result<bool, AllocError> {
    for short in 0..len {
        if !is_shown(alloc, typ, short, &[], "refused 1")? {
            return Ok(false);
        }
    }
    Ok(true)
}

/// Whether a message of zeros is told by its name, and is refused wherever it is cut.
fn is_message(alloc: Global, typ: u16, len: usize, name: &str) -> bool {
    is_shown(alloc, typ, len, &[], name) == Ok(true)
        && is_refused_where_cut(alloc, typ, len) == Ok(true)
}

fn has_tail(alloc: Global, row: &(u16, usize, &[u8], &str)) -> bool {
    is_shown(alloc, row.0, row.1, row.2, row.3) == Ok(true)
}

#[test]
fn messages_both_ways(rt: HostRuntime) {
    let alloc = rt.alloc();
    for row in &FIELDS {
        assert!(rt; is_message(alloc, row.0, row.1, row.2));
    }
    for row in &TAILS {
        assert!(rt; has_tail(alloc, row));
    }
}

/// How many bytes are written for a pong that carries so many of its own.
fn pong_len(alloc: Global, len: usize) -> Result<usize, Fault> {
    let ignored = Bytes::new(vec![in alloc; 7; len]?);
    let pong = Message::Pong(Pong {
        ignored,
        records: Records::empty(alloc),
    });
    let written = encode(alloc, &pong);
    drop(pong);
    match written {
        Ok(written) => Ok(written.len()),
        Err(fault) => Err(fault),
    }
}

#[test]
fn too_long_to_write(rt: HostRuntime) {
    assert!(rt; pong_len(rt.alloc(), 65_531) == Ok(65_535));
    assert!(rt; pong_len(rt.alloc(), 65_532) == Err(Fault::TooLong));
}

/// commitment_signed with one signature and one record.
fn signed() -> [u8; 167] {
    let mut bytes = [0; 167];
    bytes[1] = 132;
    bytes[99] = 1;
    bytes[164] = 1;
    bytes[165] = 1;
    bytes[166] = 9;
    bytes
}

/// How many fields and records the message has, and how many bytes are written for it.
fn counts(alloc: Global, message: &Message) -> Result<(usize, usize, usize), Fault> {
    if !fits(message) {
        return Ok((0, 0, 0));
    }
    let written = encode(alloc, message)?.len();
    let fields = message.fields(alloc)?.len();
    Ok((fields, message.records().as_slice().len(), written))
}

fn counts_of_signed(alloc: Global) -> Result<(usize, usize, usize), Fault> {
    let decoded = decode(alloc, &signed());
    let counted = match &decoded {
        Ok(Incoming::Known(message)) => counts(alloc, message),
        Ok(Incoming::Ignored(_)) => Ok((0, 0, 0)),
        Err(fault) => Err(*fault),
    };
    drop(decoded);
    counted
}

#[test]
fn small_message(rt: HostRuntime) -> Result<(), Fault> {
    assert!(rt; counts_of_signed(rt.alloc())? == (3, 1, 167));
    Ok(())
}

/// A ping that asks for two bytes, a message of type 21, and a pong of no bytes, each in its frame.
const STREAM: [u8; 18] = [0, 6, 0, 18, 0, 2, 0, 0, 0, 2, 0, 21, 0, 4, 0, 19, 0, 0];

/// A ping, and then a message of type 100, which is even and not known.
const FAULTY: [u8; 12] = [0, 6, 0, 18, 0, 2, 0, 0, 0, 2, 0, 100];

/// The types of the messages that a piece gave, as digits to the base of 1000, or its fault's number and half a
/// million.
fn received(framer: &mut Framer, alloc: Global, piece: &[u8]) -> u32 {
    let answer = framer.feed(alloc, piece);
    let types = match &answer {
        Ok(messages) => types_of(messages),
        Err(fault) => u32::from(fault.number()) + FAULT,
    };
    drop(answer);
    types
}

fn types_of(messages: &[Incoming]) -> u32 {
    let mut types = 0u32;
    for message in messages {
        let typ = match message {
            Incoming::Known(message) => message.typ(),
            Incoming::Ignored(typ) => *typ,
        };
        types = types.wrapping_mul(1000).wrapping_add(u32::from(typ));
    }
    types
}

const FAULT: u32 = 500_000;

/// What is heard at each of three pieces, of which the first two end at these places.
fn pieces_read(alloc: Global, bytes: &[u8], first: usize, second: usize) -> [u32; 3] {
    let mut framer = Framer::new(alloc);
    let second = second.min(bytes.len());
    let first = first.min(second);
    let one = received(&mut framer, alloc, &bytes[..first]);
    let two = received(&mut framer, alloc, &bytes[first..second]);
    [one, two, received(&mut framer, alloc, &bytes[second..])]
}

/// A stream, where its first and its second piece end, and what is heard at each.
const PIECES: [(&[u8], usize, usize, [u32; 3]); 4] = [
    (&STREAM, 1, 7, [0, 0, 18_021_019]),
    (&STREAM, 8, 17, [18, 21, 19]),
    // messages before a fault, and the fault from then on
    (&FAULTY, 11, 12, [18, FAULT + 6, FAULT + 6]),
    // a record of another length than its type has
    (&READY, 71, 72, [0, FAULT + 8, FAULT + 8]),
];

fn is_read(alloc: Global, row: &(&[u8], usize, usize, [u32; 3])) -> bool {
    pieces_read(alloc, row.0, row.1, row.2) == row.3
}

#[test]
fn pieces(rt: HostRuntime) {
    let alloc = rt.alloc();
    for row in &PIECES {
        assert!(rt; is_read(alloc, row));
    }
}

/// How many messages two pieces give.
fn fed(alloc: Global) -> Result<usize, Fault> {
    let mut framer = Framer::new(alloc);
    let begun = framer.feed(alloc, &[0, 6, 0, 18])?.len();
    let done = framer.feed(alloc, &[0, 2, 0, 0, 0, 2, 0, 21])?.len();
    Ok(begun.saturating_add(done))
}

#[test]
fn small_feed(rt: HostRuntime) -> Result<(), Fault> {
    assert!(rt; fed(rt.alloc())? == 2);
    Ok(())
}

/// Whether the number of the funding output changes the last two bytes of its transaction's id.
fn is_channel_id() -> bool {
    let mut expected = [0; 32];
    expected[30] = 0x12;
    expected[31] = 0x34;
    channel_id(&[0; 32], 0x1234) == expected
}

#[test]
fn channel_ids(rt: HostRuntime) {
    assert!(rt; is_channel_id());
}

fn checked(alloc: Global, features: &[u8], known: &[u16]) -> Result<(), Fault> {
    let init = Init {
        global_features: Bytes::empty(alloc),
        features: Bytes::from_slice(alloc, features)?,
        records: Records::empty(alloc),
    };
    check_init(&init, known)
}

// Bit 8, which is in the list or isn't, and an odd bit.
#[test]
fn features(rt: HostRuntime) {
    assert!(rt; checked(rt.alloc(), &[0x01, 0x00], &[0]) == Err(Fault::UnknownFeature));
    assert!(rt; checked(rt.alloc(), &[0x01, 0x00], &[8]) == Ok(()));
    assert!(rt; checked(rt.alloc(), &[0x02, 0x00], &[]) == Ok(()));
}

/// The type of the message by which the peer is told, and 0 for none.
fn reply_type(alloc: Global, refusal: Refusal) -> Result<u16, Refusal> {
    let reply = Message::reply_to(alloc, refusal, &[7; 32]);
    let typ = match &reply {
        Ok(Some(message)) => Ok(message.typ()),
        Ok(None) => Ok(0),
        Err(refusal) => Err(*refusal),
    };
    drop(reply);
    typ
}

#[test]
fn small_reply(rt: HostRuntime) -> Result<(), Refusal> {
    assert!(rt; reply_type(rt.alloc(), Refusal::OutOfPlace)? == 17);
    assert!(rt; reply_type(rt.alloc(), Refusal::FeeOutside)? == 1);
    assert!(rt; reply_type(rt.alloc(), Refusal::PeerError)? == 0);
    Ok(())
}
