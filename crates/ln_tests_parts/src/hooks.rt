//! Events of a channel end, and closures that are told of them.

use crate::log::{What, updates};
use What::{Add, Fail as Failed, Fee, Fulfil, Malformed};
use ln_hooks::{Call, ChannelEvent, FailureCode, Hook, HookTable, How, Msat, Verdict, event_of};
use ln_refusals::Refusal;
use std::alloc::{AllocError, Global};
use std::sync::Arc;
use std::sync::atomic::{AtomicU64, Ordering};
use std::test::Fail;
use std::thread;

/// Whose HTLC it was, its id, its amount or the first byte or the length of what it was removed by, and its expiry or
/// failure code.
type Shown = (bool, u64, u64, u32);

fn shown(event: &ChannelEvent) -> Shown {
    match event {
        ChannelEvent::Added {
            own,
            id,
            amount,
            expiry,
            ..
        } => (*own, *id, amount.value(), *expiry),
        ChannelEvent::Settled { own, id, how } => {
            let (by, code) = match how {
                How::Fulfilled(preimage) => (u64::from(preimage[0]), 0),
                How::Failed(reason) => (reason.len() as u64, 1),
                How::Malformed(hash, code) => (u64::from(hash[0]), u32::from(*code)),
            };
            (*own, *id, by, code)
        }
        ChannelEvent::Closed(fee) => (false, 0, *fee, 0),
    }
}

/// What is told of an update of this side's or of the peer's.
fn event_shown(alloc: Global, own: bool, what: What) -> Result<Option<Shown>, Refusal> {
    let list = updates(alloc, &[what])?;
    let Some(update) = list.first() else {
        return Ok(None);
    };
    let event = event_of(alloc, own, update);
    let told = match &event {
        Ok(Some(event)) => Ok(Some(shown(event))),
        Ok(None) => Ok(None),
        Err(refusal) => Err(*refusal),
    };
    drop(event);
    told
}

/// An add is of the side that offers it, and a removal of the other side's HTLC. No channel holds what passes the
/// bound.
const EVENTS: [(bool, What, Option<Shown>); 7] = [
    (true, Add(3, 5000, 400), Some((true, 3, 5000, 400))),
    (
        false,
        Add(3, Msat::MAX, 400),
        Some((false, 3, Msat::MAX, 400)),
    ),
    (true, Add(3, Msat::MAX + 1, 400), None),
    (true, Fulfil(4, 5), Some((false, 4, 5, 0))),
    (false, Failed(2, 3), Some((true, 2, 3, 1))),
    (true, Malformed(6, 0xc005), Some((false, 6, 5, 0xc005))),
    (true, Fee(253), None),
];

fn are_shown(alloc: Global) -> Result<bool, Refusal> {
    for (own, what, want) in &EVENTS {
        if event_shown(alloc, *own, *what)? != *want {
            return Ok(false);
        }
    }
    Ok(true)
}

#[test]
fn small_events(rt: HostRuntime) -> Result<(), Refusal> {
    assert!(rt; are_shown(rt.alloc())?);
    Ok(())
}

const UNKNOWN: Verdict = Verdict::Fail(FailureCode::IncorrectOrUnknownPaymentDetails);

const TEMPORARY: Verdict = Verdict::Fail(FailureCode::TemporaryChannelFailure);

const HOLD: Verdict = Verdict::Hold;

const GO: Verdict = Verdict::Continue;

/// An added HTLC of so much, and a close where there can't be so much.
fn add_of(amount: u64) -> ChannelEvent {
    match Msat::new(amount) {
        Some(amount) => ChannelEvent::Added {
            own: false,
            id: 0,
            amount,
            hash: [7; 32],
            expiry: 400,
            onion: [9; 1366],
        },
        None => ChannelEvent::Closed(0),
    }
}

/// A large HTLC and a small one.
fn two_adds(alloc: Global) -> Result<Vec<ChannelEvent>, AllocError> {
    let mut events = Vec::with_capacity(alloc, 2)?;
    events.push_reserved(add_of(Msat::MAX));
    events.push_reserved(add_of(1000));
    Ok(events)
}

/// Counts on the bound of an amount: eight times as much is within 64 bits.
fn is_large(event: &ChannelEvent) -> bool {
    matches!(event, ChannelEvent::Added { amount, .. } if amount.value() * 8 > 8000)
}

/// A hook that writes its digit after those that stand there, and then answers so to all, or to what is large alone.
fn hook(
    alloc: Global,
    digits: &Arc<AtomicU64>,
    digit: u64,
    to_all: bool,
    answer: Verdict,
) -> Result<Hook, AllocError> {
    let digits = Arc::try_clone(digits)?;
    let call: Call = Box::new(alloc, move |event: &ChannelEvent| {
        let before = digits.load(Ordering::SeqCst);
        digits.store(
            before.wrapping_mul(10).wrapping_add(digit),
            Ordering::SeqCst,
        );
        if to_all || is_large(event) {
            answer
        } else {
            Verdict::Continue
        }
    })?;
    Ok(Hook::new(call))
}

fn put(table: &mut HookTable, hook: Hook) -> Result<(), Refusal> {
    match table.register(hook) {
        Ok(()) => Ok(()),
        Err((hook, refusal)) => {
            drop(hook);
            Err(refusal)
        }
    }
}

/// What three hooks answer, each to all or to what is large alone.
type Three = [(bool, Verdict); 3];

/// The first and the second hook fail what is large, the third one fails all.
const FAILS: Three = [(false, UNKNOWN), (false, TEMPORARY), (true, TEMPORARY)];

fn put_three(
    table: &mut HookTable,
    alloc: Global,
    digits: &Arc<AtomicU64>,
    three: &Three,
) -> Result<(), Refusal> {
    let mut digit = 1;
    for (to_all, answer) in three {
        put(table, hook(alloc, digits, digit, *to_all, *answer)?)?;
        digit = digit.wrapping_add(1);
    }
    Ok(())
}

/// Whether a large HTLC and a small one are answered so, and all hooks are called in order of registration.
fn are_called(
    table: &mut HookTable,
    alloc: Global,
    digits: &AtomicU64,
    wanted: &[Verdict; 2],
) -> Result<bool, Refusal> {
    let events = two_adds(alloc)?;
    let answers = match events.as_slice() {
        [large, little] => [table.call(large), table.call(little)],
        _ => [Verdict::Continue; 2],
    };
    let called = digits.load(Ordering::SeqCst);
    let verdicts = table.call_run(&events)?;
    Ok(
        answers == *wanted
            && called == 123_123
            && verdicts.as_slice() == answers.as_slice()
            && digits.load(Ordering::SeqCst) == 123_123_123_123,
    )
}

/// The first fail is the answer, whatever else is said; else one that holds; else all go on.
const TABLES: [(Three, [Verdict; 2]); 8] = [
    (FAILS, [UNKNOWN, TEMPORARY]),
    (
        [(true, HOLD), (true, UNKNOWN), (true, TEMPORARY)],
        [UNKNOWN, UNKNOWN],
    ),
    (
        [(true, UNKNOWN), (true, HOLD), (true, TEMPORARY)],
        [UNKNOWN, UNKNOWN],
    ),
    (
        [(true, HOLD), (true, GO), (false, TEMPORARY)],
        [TEMPORARY, HOLD],
    ),
    ([(true, GO), (true, HOLD), (true, GO)], [HOLD, HOLD]),
    ([(true, GO), (true, GO), (false, HOLD)], [HOLD, GO]),
    ([(true, HOLD), (true, HOLD), (true, HOLD)], [HOLD, HOLD]),
    ([(true, GO), (true, GO), (true, GO)], [GO, GO]),
];

/// Whether three hooks say so together.
fn is_said(alloc: Global, three: &Three, wanted: &[Verdict; 2]) -> Result<bool, Refusal> {
    let digits = Arc::new(alloc, AtomicU64::new(0))?;
    let mut table = HookTable::new(alloc);
    put_three(&mut table, alloc, &digits, three)?;
    are_called(&mut table, alloc, &digits, wanted)
}

#[test]
fn small_hooks(rt: HostRuntime) -> Result<(), Refusal> {
    for (three, wanted) in &TABLES {
        assert!(rt; is_said(rt.alloc(), three, wanted)?);
    }
    Ok(())
}

#[test]
fn a_table_moves_into_a_thread(rt: HostRuntime) -> Result<(), Fail> {
    let digits = Arc::new(rt.alloc(), AtomicU64::new(0))?;
    let mut table = HookTable::new(rt.alloc());
    put_three(&mut table, rt.alloc(), &digits, &FAILS)?;
    let thread = thread::spawn(&rt, move || table.call(&ChannelEvent::Closed(300)))?;
    assert!(rt; thread.join(&rt) == TEMPORARY);
    Ok(())
}

/// The failure codes, and numbers that are none.
const CODES: [u16; 11] = [
    0x1007, 0x400a, 0x100b, 0x100c, 0x100d, 0x100e, 0x400f, 0x0012, 0x0013, 0x0015, 0x4016,
];

const OTHERS: [u16; 6] = [0, 0x1008, 0x2002, 0xc004, 0xc005, 0xc006];

fn is_code(number: u16) -> bool {
    match FailureCode::new(number) {
        Some(code) => code.number() == number,
        None => false,
    }
}

#[test]
fn failure_codes(rt: HostRuntime) {
    for number in &CODES {
        assert!(rt; is_code(*number));
    }
    for number in &OTHERS {
        assert!(rt; !is_code(*number));
    }
}
