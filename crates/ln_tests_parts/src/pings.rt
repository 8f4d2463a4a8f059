//! Streams of frames and the pongs that are owed for them, over readers and writers that give little at once or fail.

use crate::narrow::Narrow;
use ln_bytes::Fault;
use ln_msgs::{Counted, answer_pings};
use std::alloc::{AllocError, Global};
use std::cell::Cell;
use std::io;
use std::io::{ErrorKind, Read, Write};

/// A ping that asks for two bytes, in its frame, and the pong that answers it.
const PING: [u8; 8] = [0, 6, 0, 18, 0, 2, 0, 0];

const PONG: [u8; 8] = [0, 6, 0, 19, 0, 2, 0, 0];

/// A reader that gives at most so many bytes a call, and fails from a call on.
#[derive(Drop)]
struct Slow<'a> {
    rest: &'a [u8],
    most: usize,
    calls_left: u64,
}

impl Read for Slow<'_> {
    fn read(&mut self, buffer: &mut [u8]) -> io::Result<usize> {
        if self.calls_left == 0 {
            return Err(io::Error::from(ErrorKind::BrokenPipe));
        }
        self.calls_left -= 1;
        let count = self.rest.len().min(buffer.len()).min(self.most);
        let (given, rest) = self.rest.split_at(count);
        buffer[..count].copy_from_slice(given);
        self.rest = rest;
        Ok(count)
    }
}

const NEVER: u64 = 1_000_000_000;

#[derive(Drop)]
struct Outcome {
    answer: Result<u64, Fault>,
    written: Vec<u8>,
    flushed: usize,
    failures: u64,
}

/// Answers the input, read and written in pieces of at most `most` bytes, with so many calls until one fails.
fn answered(alloc: Global, input: &[u8], most: usize, reads: u64, writes: u64) -> Outcome {
    let mut reader = Counted::new(Slow {
        rest: input,
        most,
        calls_left: reads,
    });
    let mut writer = Counted::new(Narrow::new(alloc, most, writes));
    let answer = answer_pings(alloc, &mut reader, &mut writer);
    let failures = reader.failures().saturating_add(writer.failures());
    let written = writer.into_inner();
    Outcome {
        answer,
        flushed: written.flushed,
        written: written.bytes,
        failures,
    }
}

/// Whether the input is answered so, all that is written is flushed, and no call fails.
fn is_answered(
    alloc: Global,
    input: &[u8],
    output: &[u8],
    answer: Result<u64, Fault>,
    most: usize,
) -> bool {
    let outcome = answered(alloc, input, most, NEVER, NEVER);
    outcome.answer == answer
        && outcome.written.as_slice() == output
        && outcome.flushed == outcome.written.len()
        && outcome.failures == 0
}

/// A channel_ready whose alias has one byte, in its frame.
pub const READY: [u8; 72] = [
    0, 70, 0, 36, 0, 0, 0, 0, 0, 0, 0, 0, 0, 0, 0, 0, 0, 0, 0, 0, 0, 0, 0, 0, 0, 0, 0, 0, 0, 0, 0,
    0, 0, 0, 0, 0, 0, 0, 0, 0, 0, 0, 0, 0, 0, 0, 0, 0, 0, 0, 0, 0, 0, 0, 0, 0, 0, 0, 0, 0, 0, 0, 0,
    0, 0, 0, 0, 0, 0, 1, 1, 0,
];

/// What stands on the wire, what has to be written for it, and what is answered.
type Row = (&'static [u8], &'static [u8], Result<u64, Fault>);

const ROWS: [Row; 18] = [
    // one ping
    (&PING, &PONG, Ok(1)),
    // from 65,532 on no pong is owed
    (&[0, 6, 0, 18, 0xff, 0xfc, 0, 0], &[], Ok(0)),
    // a ping that carries three bytes of its own, and a record
    (
        &[0, 12, 0, 18, 0, 0, 0, 3, 7, 7, 7, 1, 1, 9],
        &[0, 4, 0, 19, 0, 0],
        Ok(1),
    ),
    // nothing
    (&[], &[], Ok(0)),
    // a channel_ready whose alias has one byte
    (&READY, &[], Err(Fault::FieldLength)),
    // an end inside a frame: in the length, in the message
    (&[0], &[], Err(Fault::Truncated)),
    (&[0, 6, 0, 18, 0, 2], &[], Err(Fault::Truncated)),
    // messages that are read past: a pong, an odd type, the types 256 and 264
    (&[0, 6, 0, 19, 0, 2, 0, 0], &[], Ok(0)),
    (&[0, 2, 0, 21, 0, 2, 1, 0, 0, 2, 1, 8], &[], Ok(0)),
    // an even type that isn't known; a message without a type; a ping that is cut short
    (&[0, 2, 0, 100], &[], Err(Fault::UnknownEvenType)),
    (&[0, 1, 0], &[], Err(Fault::Truncated)),
    (&[0, 0], &[], Err(Fault::Truncated)),
    (&[0, 5, 0, 18, 0, 2, 0], &[], Err(Fault::Truncated)),
    (&[0, 6, 0, 18, 0, 2, 0, 1], &[], Err(Fault::Truncated)),
    // faults of the records after a ping
    (
        &[0, 8, 0, 18, 0, 2, 0, 0, 2, 0],
        &[],
        Err(Fault::TlvUnknownEven),
    ),
    (
        &[0, 10, 0, 18, 0, 2, 0, 0, 1, 0, 1, 0],
        &[],
        Err(Fault::TlvOrder),
    ),
    (&[0, 8, 0, 18, 0, 2, 0, 0, 1, 1], &[], Err(Fault::TlvLength)),
    (
        &[0, 9, 0, 18, 0, 2, 0, 0, 0xfd, 0, 1],
        &[],
        Err(Fault::NotMinimal),
    ),
];

/// The bytes after others.
fn behind(alloc: Global, front: &[u8], bytes: &[u8]) -> Result<Vec<u8>, AllocError> {
    let mut all = Vec::from_slice(alloc, front)?;
    all.extend_from_slice(bytes)?;
    Ok(all)
}

/// Whether a row is answered as it says after so many pings, none or one, in pieces of at most `most` bytes.
fn is_row_answered(
    alloc: Global,
    row: &Row,
    pings: usize,
    most: usize,
) -> Result<bool, AllocError> {
    let len = pings.saturating_mul(8).min(8);
    let input = behind(alloc, &PING[..len], row.0)?;
    let output = behind(alloc, &PONG[..len], row.1)?;
    let answer = match row.2 {
        Ok(count) => Ok(count.saturating_add(pings as u64)),
        Err(fault) => Err(fault),
    };
    Ok(is_answered(alloc, &input, &output, answer, most))
}

/// The same alone, in pieces of three sizes, and after a ping.
fn is_answered_always(alloc: Global, row: &Row) -> bool {
    is_row_answered(alloc, row, 0, 1) == Ok(true)
        && is_row_answered(alloc, row, 0, 3) == Ok(true)
        && is_row_answered(alloc, row, 0, usize::MAX) == Ok(true)
        && is_row_answered(alloc, row, 1, 3) == Ok(true)
}

// What is owed before a fault is written all the same.
#[test]
fn pongs_for_pings(rt: HostRuntime) {
    let alloc = rt.alloc();
    for row in &ROWS {
        assert!(rt; is_answered_always(alloc, row));
    }
}

/// A long pong and ten thousand short ones are asked for, and a message as long as one can be comes: `ffff0013fffb` and
/// 65,531 zero bytes, as the longest pong that is owed.
fn ask_for_many(input: &mut Vec<u8>, output: &mut Vec<u8>) -> Result<(), AllocError> {
    let long = [0xff, 0xff, 0, 19, 0xff, 0xfb];
    input.extend_from_slice(&[0, 6, 0, 18, 0xff, 0xfb, 0, 0])?;
    output.extend_from_slice(&long)?;
    put_zeros(output)?;
    for _ in 0..10_000 {
        input.extend_from_slice(&PING)?;
        output.extend_from_slice(&PONG)?;
    }
    input.extend_from_slice(&long)?;
    put_zeros(input)
}

fn put_zeros(bytes: &mut Vec<u8>) -> Result<(), AllocError> {
    let len = bytes.len();
    bytes.resize(len.saturating_add(65_531), 0)
}

/// Whether a stream is answered that is longer than all that is held at once, with pongs that are longer than what may
/// wait.
fn is_long_stream_answered(alloc: Global, most: usize) -> Result<bool, AllocError> {
    let mut input = Vec::new(alloc);
    let mut output = Vec::new(alloc);
    for _ in 0..5 {
        ask_for_many(&mut input, &mut output)?;
    }
    Ok(is_answered(alloc, &input, &output, Ok(50_005), most))
}

#[test]
fn long_streams(rt: HostRuntime) {
    assert!(rt; is_long_stream_answered(rt.alloc(), 7) == Ok(true));
    assert!(rt; is_long_stream_answered(rt.alloc(), 70_000) == Ok(true));
    assert!(rt; is_long_stream_answered(rt.alloc(), usize::MAX) == Ok(true));
}

/// Three pings, and their pongs.
const PINGS: [u8; 24] = [
    0, 6, 0, 18, 0, 2, 0, 0, 0, 6, 0, 18, 0, 2, 0, 0, 0, 6, 0, 18, 0, 2, 0, 0,
];

const PONGS: [u8; 24] = [
    0, 6, 0, 19, 0, 2, 0, 0, 0, 6, 0, 19, 0, 2, 0, 0, 0, 6, 0, 19, 0, 2, 0, 0,
];

/// What is answered, how many bytes are written, where these are a beginning of the pongs, and how many calls failed.
fn result_of(alloc: Global, reads: u64, writes: u64) -> (Result<u64, Fault>, Option<usize>, u64) {
    let outcome = answered(alloc, &PINGS, 1, reads, writes);
    let written = if PONGS.starts_with(&outcome.written) {
        Some(outcome.written.len())
    } else {
        None
    };
    (outcome.answer, written, outcome.failures)
}

/// Whether a failure of the reader's call of this number, counted from 0, is answered by 63, after the pongs of the
/// pings that were read whole.
fn is_failed_read(alloc: Global, calls: u8) -> bool {
    let whole = usize::from(calls / 8) * 8;
    result_of(alloc, u64::from(calls), NEVER) == (Err(Fault::Io), Some(whole), 1)
}

#[test]
fn failing_reads(rt: HostRuntime) {
    for calls in 0..25u8 {
        assert!(rt; is_failed_read(rt.alloc(), calls), "{calls}");
    }
    assert!(rt; result_of(rt.alloc(), 25, NEVER) == (Ok(3), Some(24), 0));
}

/// The same of the writer: 63, after a beginning of the right pongs.
fn is_failed_write(alloc: Global, calls: u64) -> bool {
    let (answer, written, failures) = result_of(alloc, NEVER, calls);
    answer == Err(Fault::Io) && written.is_some() && failures == 1
}

#[test]
fn failing_writes(rt: HostRuntime) {
    for calls in 0..27 {
        assert!(rt; is_failed_write(rt.alloc(), calls), "{calls}");
    }
    assert!(rt; result_of(rt.alloc(), NEVER, 27) == (Ok(3), Some(24), 0));
}

/// The two ends of a connection whose other side sends its next ping only once it has the pong for the last: each read
/// sees how many bytes were flushed before it.
#[derive(Drop)]
struct Peer<'a> {
    flushed: &'a Cell<usize>,
    asked: usize,
    missed: bool,
}

impl Read for Peer<'_> {
    fn read(&mut self, buffer: &mut [u8]) -> io::Result<usize> {
        if self.flushed.get() != self.asked.saturating_mul(8) {
            self.missed = true;
        }
        if self.asked == 3 || buffer.len() < 8 {
            return Ok(0);
        }
        self.asked = self.asked.saturating_add(1);
        buffer[..8].copy_from_slice(&PING);
        Ok(8)
    }
}

#[derive(Drop)]
struct Sent<'a> {
    flushed: &'a Cell<usize>,
    written: usize,
}

impl Write for Sent<'_> {
    fn write(&mut self, bytes: &[u8]) -> io::Result<usize> {
        self.written = self.written.saturating_add(bytes.len());
        Ok(bytes.len())
    }

    fn flush(&mut self) -> io::Result<()> {
        self.flushed.set(self.written);
        Ok(())
    }
}

#[test]
fn pongs_before_the_next_read(rt: HostRuntime) {
    let flushed = Cell::new(0);
    let mut reader = Counted::new(Peer {
        flushed: &flushed,
        asked: 0,
        missed: false,
    });
    let mut writer = Counted::new(Sent {
        flushed: &flushed,
        written: 0,
    });
    assert!(rt; answer_pings(rt.alloc(), &mut reader, &mut writer) == Ok(3));
    assert!(rt; !reader.get_ref().missed);
    assert!(rt; writer.get_ref().written == 24);
}

#[test]
fn small_answer(rt: HostRuntime) -> Result<(), AllocError> {
    let mut reader = Counted::new(PING.as_slice());
    let mut writer = Counted::new(Vec::with_capacity(rt.alloc(), 8)?);
    assert_eq!(rt; answer_pings(rt.alloc(), &mut reader, &mut writer), Ok(1));
    assert!(rt; writer.get_ref().as_slice() == PONG.as_slice());
    Ok(())
}
