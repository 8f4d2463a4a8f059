//! Payments there and back, to measure what the book's calls take.

use ln_book::Book;
use ln_bytes::Bytes;
use ln_hooks::{ChannelEvent, How, Msat, Verdict};
use ln_keys::{Onion, OpenFault, Opened};
use ln_refusals::Refusal;
use ln_tests_ends::bytes_of;
use std::alloc::Global;

/// An onion whose payload is known, and which goes on as it is.
#[derive(Drop)]
struct KnownOnion {
    payload: Vec<u8>,
}

impl Onion for KnownOnion {
    ghost use Rattle.std.specs.Prelude.{Ok, Some};

    ghost services = { λ o. record {
      opened = λ onion hash. Ok (record { payload = o.payload.items; next = Some onion });
      wrapped = λ onion hash failure. failure;
      wrapped_again = λ onion hash reason. reason;
    } };

    fn open(
        &self,
        alloc: Global,
        onion: &[u8; 1366],
        _hash: &[u8; 32],
    ) -> Result<Opened, OpenFault> {
        let payload = Bytes::from_slice(alloc, self.payload.as_slice())?;
        let next = Bytes::from_slice(alloc, onion)?;
        Ok(Opened {
            payload,
            next: Some(next),
        })
    }

    fn wrap_failure(
        &self,
        alloc: Global,
        _onion: &[u8; 1366],
        _hash: &[u8; 32],
        failure: &[u8],
    ) -> Result<Bytes, Refusal> {
        Ok(Bytes::from_slice(alloc, failure)?)
    }

    fn wrap_again(
        &self,
        alloc: Global,
        _onion: &[u8; 1366],
        _hash: &[u8; 32],
        reason: &[u8],
    ) -> Result<Bytes, Refusal> {
        Ok(Bytes::from_slice(alloc, reason)?)
    }
}

/// The payload that asks to forward 5000 by 400 over the short channel id 1.
const PAYLOAD: [u8; 18] = [
    2, 2, 0x13, 0x88, 4, 2, 0x01, 0x90, 6, 8, 0, 0, 0, 0, 0, 0, 0, 1,
];

/// An HTLC of this id that came in.
fn incoming(alloc: Global, id: u64) -> Result<Box<ChannelEvent>, Refusal> {
    let Some(amount) = Msat::new(5000) else {
        return Err(Refusal::Memory);
    };
    let event = Box::new(
        alloc,
        ChannelEvent::Added {
            own: false,
            id,
            amount,
            hash: [7; 32],
            expiry: 440,
            onion: [0; 1366],
        },
    )?;
    Ok(event)
}

/// What became of an HTLC.
fn removed(alloc: Global, own: bool, id: u64) -> Result<Box<ChannelEvent>, Refusal> {
    let how = How::Fulfilled([7; 32]);
    Ok(Box::new(alloc, ChannelEvent::Settled { own, id, how })?)
}

fn take(alloc: Global, book: &mut Book, onion: &KnownOnion, channel: u64) -> Result<bool, Refusal> {
    let found = Box::new(alloc, book.take_commands(alloc, onion, bytes_of(channel))?)?;
    Ok(found.is_some())
}

/// An HTLC that came in by channel 1 as this event is offered in channel 2, by the same number. Says how many commands
/// were given.
fn offer(alloc: Global, book: &mut Book, onion: &KnownOnion, id: u64) -> Result<u64, Refusal> {
    let event = incoming(alloc, id)?;
    let mark = book.decide(alloc, onion, [1; 32], id, &event, Verdict::Continue)?;
    drop(mark);
    let decided = take(alloc, book, onion, 1)?;
    book.answered([1; 32], Ok(id));
    let offered = take(alloc, book, onion, 2)?;
    book.answered([2; 32], Ok(id));
    Ok(u64::from(decided) + u64::from(offered))
}

/// It is fulfilled, passed back and forgotten.
fn settle(alloc: Global, book: &mut Book, onion: &KnownOnion, id: u64) -> Result<u64, Refusal> {
    let over = removed(alloc, true, id)?;
    book.settled(alloc, [2; 32], &over)?;
    let passed = take(alloc, book, onion, 1)?;
    book.answered([1; 32], Ok(0));
    let held = removed(alloc, false, id)?;
    book.settled(alloc, [1; 32], &held)?;
    let forgotten = take(alloc, book, onion, 2)?;
    book.answered([2; 32], Ok(0));
    Ok(u64::from(passed) + u64::from(forgotten))
}

/// So many payments there and back, beside so many that wait; says how many commands were given, at most 2^64 - 1.
pub fn payments(alloc: Global, book: &mut Book, count: u64, waiting: u64) -> Result<u64, Refusal> {
    let payload = Vec::from_slice(alloc, &PAYLOAD)?;
    let onion = KnownOnion { payload };
    let mut given = 0u64;
    for id in 0..waiting {
        given = given.saturating_add(offer(alloc, book, &onion, id)?);
    }
    for _ in 0..count {
        given = given.saturating_add(offer(alloc, book, &onion, waiting)?);
        given = given.saturating_add(settle(alloc, book, &onion, waiting)?);
    }
    Ok(given)
}
