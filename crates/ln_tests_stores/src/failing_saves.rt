//! A save that fails at each place of a payment there and back, and of a close: the end halts and hands nothing out, it
//! comes back from what its store has, and the payment is completed, with each update once, or the channel closed. Over
//! records in memory, and over databases.

use crate::database::connected_anew;
use crate::players::{Player, are_closed, both, closes, is_paid, meet, pays};
use ln_keys::Role;
use ln_refusals::Refusal;
use ln_sqlite::SqliteStore;
use ln_store::{MemoryStore, RecordStore};
use ln_tests_ends::{
    FUNDEE, FUNDER, FailingStore, boxed, code_of, fundee_side, funder_side, played,
};
use sqlite::{Alter, Connection};
use std::alloc::Global;

/// What an end x did as its save failed, by which refusal, how many saves have failed, what a command is refused by
/// then, and whether its record is the same as before or a new one; and what both ends send as it comes back.
fn came_back<S: RecordStore + Drop>(
    alloc: Global,
    x: &mut Player<S>,
    y: &mut Player<S>,
    stop: u32,
) -> Result<String, Refusal> {
    let (code, failures, same) = x.stopped(alloc)?;
    let (verb, word) = x.act;
    let left = if same { "same" } else { "new" };
    let mut story = format!(in alloc; "{verb} {word}: {stop} {failures} {code} {left}")?;
    meet(alloc, x, y, &mut story)?;
    Ok(story)
}

/// What two ends do that are ready.
#[derive(Clone, Copy)]
enum Play {
    /// A pays B.
    Payment,
    /// A closes, and both agree on B's least fee.
    Close,
}

/// What of it isn't done yet.
fn goes_on<S: RecordStore + Drop>(
    alloc: Global,
    play: Play,
    a: &mut Player<S>,
    b: &mut Player<S>,
    story: &mut String,
) -> Result<(), Refusal> {
    match play {
        Play::Payment => pays(alloc, a, b, story),
        Play::Close => closes(alloc, a, b, story),
    }
}

/// What has become of it.
fn outcome<S: RecordStore + Drop>(
    alloc: Global,
    play: Play,
    a: &Player<S>,
    b: &Player<S>,
) -> Result<&'static str, Refusal> {
    let (done, words) = match play {
        Play::Payment => (is_paid(alloc, a, b)?, ("paid", "not paid")),
        Play::Close => (are_closed(alloc, a, b, 350)?, ("closed", "not closed")),
    };
    Ok(if done { words.0 } else { words.1 })
}

/// It over a save of this end that fails, and whether it is completed.
fn shown<S: RecordStore + Drop>(
    alloc: Global,
    play: Play,
    a: &mut Player<S>,
    b: &mut Player<S>,
    at: Role,
) -> Result<String, Refusal> {
    played(alloc, &mut a.side, &mut b.side)?;
    let mut unheard = String::new(alloc);
    let stop = code_of(goes_on(alloc, play, a, b, &mut unheard).err());
    let mut story = match at {
        Role::Funder => came_back(alloc, a, b, stop)?,
        Role::Fundee => came_back(alloc, b, a, stop)?,
    };
    goes_on(alloc, play, a, b, &mut unheard)?;
    let done = outcome(alloc, play, a, b)?;
    write!(story, ", {done}")?;
    Ok(story)
}

fn shown_of_new<S: RecordStore + Drop>(
    alloc: Global,
    play: Play,
    at: Role,
    of_a: S,
    of_b: S,
) -> Result<String, Refusal> {
    let a = funder_side(alloc, of_a)?;
    let mut a = boxed(alloc, Player::new(alloc, "A", FUNDER, a))?;
    let b = fundee_side(alloc, of_b)?;
    let mut b = boxed(alloc, Player::new(alloc, "B", FUNDEE, b))?;
    shown(alloc, play, &mut a, &mut b, at)
}

/// Where an end's save fails, at which of its saves after the opening, and what is told then where its store has the
/// record of before, and where it has the one that was to be saved.
type Shown = (Role, u64, &'static str, &'static str);

/// What is told where the store of an end fails, over these two.
fn shown_over<S: RecordStore + Drop>(
    alloc: Global,
    play: Play,
    row: &Shown,
    leaves_new: bool,
    (store, others): (S, S),
) -> Result<String, Refusal> {
    let failing = FailingStore::new(store, row.1.saturating_add(3), leaves_new);
    let other = FailingStore::new(others, 1000, false);
    match row.0 {
        Role::Funder => shown_of_new(alloc, play, Role::Funder, failing, other),
        Role::Fundee => shown_of_new(alloc, play, Role::Fundee, other, failing),
    }
}

/// A store over a database.
fn store_over<S: Alter + Drop>(
    alloc: Global,
    opened: Result<Connection<S>, Refusal>,
) -> Result<SqliteStore<S>, Refusal> {
    match SqliteStore::over(alloc, opened?) {
        Ok(store) => Ok(store),
        Err((refusal, connection)) => {
            drop(connection);
            Err(refusal)
        }
    }
}

/// What is told over these databases. It is generic, as the type of a database over files is dear to name.
fn shown_of_two<S: Alter + Drop>(
    alloc: Global,
    play: Play,
    row: &Shown,
    leaves_new: bool,
    of_a: Result<Connection<S>, Refusal>,
    of_b: Result<Connection<S>, Refusal>,
) -> Result<String, Refusal> {
    let stores = both(store_over(alloc, of_a), store_over(alloc, of_b))?;
    shown_over(alloc, play, row, leaves_new, stores)
}

/// Over which stores both ends keep their records.
#[derive(Clone, Copy)]
enum Over {
    Memory,
    Databases,
}

fn shown_by(
    alloc: Global,
    over: Over,
    play: Play,
    row: &Shown,
    leaves_new: bool,
) -> Result<String, Refusal> {
    match over {
        Over::Memory => {
            let stores = (MemoryStore::new(alloc), MemoryStore::new(alloc));
            shown_over(alloc, play, row, leaves_new, stores)
        }
        Over::Databases => {
            let of_a = connected_anew(alloc);
            let of_b = connected_anew(alloc);
            shown_of_two(alloc, play, row, leaves_new, of_a, of_b)
        }
    }
}

fn is_shown(alloc: Global, over: Over, play: Play, row: &Shown) -> Result<(bool, bool), Refusal> {
    let with_old = shown_by(alloc, over, play, row, false)?;
    let with_new = shown_by(alloc, over, play, row, true)?;
    Ok((with_old.as_str() == row.2, with_new.as_str() == row.3))
}

const A: Role = Role::Funder;

const B: Role = Role::Fundee;

// A pays, B is paid. The six saves of either end, as an update alone saves nothing; the record of before is left, or
// the new one.
const PAYMENTS: [Shown; 12] = [
    (
        A,
        0,
        "sends sign: 61 1 62 same, A reestablish, B reestablish, A channel_ready, \
         B channel_ready, paid",
        "sends sign: 61 1 62 new, A reestablish, B reestablish, A channel_ready, A add, \
         A sign, B channel_ready, B revoke, paid",
    ),
    (
        A,
        1,
        "takes revoke: 61 1 62 same, A reestablish, B reestablish, B revoke, paid",
        "takes revoke: 61 1 62 new, A reestablish, B reestablish, paid",
    ),
    (
        A,
        2,
        "takes sign: 61 1 62 same, A reestablish, B reestablish, B sign, A revoke, paid",
        "takes sign: 61 1 62 new, A reestablish, B reestablish, A revoke, paid",
    ),
    (
        A,
        3,
        "takes sign: 61 1 62 same, A reestablish, B reestablish, B fulfil, B sign, A revoke, \
         paid",
        "takes sign: 61 1 62 new, A reestablish, B reestablish, A revoke, paid",
    ),
    (
        A,
        4,
        "sends sign: 61 1 62 same, A reestablish, B reestablish, paid",
        "sends sign: 61 1 62 new, A reestablish, B reestablish, A sign, B revoke, paid",
    ),
    (
        A,
        5,
        "takes revoke: 61 1 62 same, A reestablish, B reestablish, B revoke, paid",
        "takes revoke: 61 1 62 new, A reestablish, B reestablish, paid",
    ),
    (
        B,
        0,
        "takes sign: 61 1 62 same, B reestablish, A reestablish, B channel_ready, \
         A channel_ready, A add, A sign, B revoke, paid",
        "takes sign: 61 1 62 new, B reestablish, A reestablish, B revoke, paid",
    ),
    (
        B,
        1,
        "sends sign: 61 1 62 same, B reestablish, A reestablish, paid",
        "sends sign: 61 1 62 new, B reestablish, A reestablish, B sign, A revoke, paid",
    ),
    (
        B,
        2,
        "takes revoke: 61 1 62 same, B reestablish, A reestablish, A revoke, paid",
        "takes revoke: 61 1 62 new, B reestablish, A reestablish, paid",
    ),
    (
        B,
        3,
        "sends sign: 61 1 62 same, B reestablish, A reestablish, paid",
        "sends sign: 61 1 62 new, B reestablish, A reestablish, B fulfil, B sign, A revoke, \
         paid",
    ),
    (
        B,
        4,
        "takes revoke: 61 1 62 same, B reestablish, A reestablish, A revoke, paid",
        "takes revoke: 61 1 62 new, B reestablish, A reestablish, paid",
    ),
    (
        B,
        5,
        "takes sign: 61 1 62 same, B reestablish, A reestablish, A sign, B revoke, paid",
        "takes sign: 61 1 62 new, B reestablish, A reestablish, B revoke, paid",
    ),
];

// A closes. The three saves of either end; the record of before is left, or the new one.
const CLOSES: [Shown; 6] = [
    (
        A,
        0,
        "sends shutdown: 61 1 62 same, A reestablish, B reestablish, A channel_ready, B \
         channel_ready, closed",
        "sends shutdown: 61 1 62 new, A reestablish, B reestablish, A channel_ready, A \
         shutdown, B channel_ready, B shutdown, A closing, B closing, A closing, closed",
    ),
    (
        A,
        1,
        "takes shutdown: 61 1 62 same, A reestablish, B reestablish, A channel_ready, A \
         shutdown, B channel_ready, B shutdown, A closing, B closing, A closing, closed",
        "takes shutdown: 61 1 62 new, A reestablish, B reestablish, A channel_ready, A \
         shutdown, A closing, B channel_ready, B shutdown, B closing, A closing, closed",
    ),
    (
        A,
        2,
        "takes closing: 61 1 62 same, A reestablish, B reestablish, A channel_ready, A \
         shutdown, A closing, B channel_ready, B shutdown, B closing, A closing, closed",
        "takes closing: 61 1 62 new, A reestablish, B reestablish, A channel_ready, A \
         shutdown, A closing, B channel_ready, B shutdown, B closing, closed",
    ),
    (
        B,
        0,
        "takes shutdown: 61 1 62 same, B reestablish, A reestablish, B channel_ready, A \
         channel_ready, A shutdown, B shutdown, A closing, B closing, A closing, closed",
        "takes shutdown: 61 1 62 new, B reestablish, A reestablish, B channel_ready, B \
         shutdown, A channel_ready, A shutdown, A closing, B closing, A closing, closed",
    ),
    (
        B,
        1,
        "takes closing: 61 1 62 same, B reestablish, A reestablish, B channel_ready, B \
         shutdown, A channel_ready, A shutdown, A closing, B closing, A closing, closed",
        "takes closing: 61 1 62 new, B reestablish, A reestablish, B channel_ready, B \
         shutdown, B closing, A channel_ready, A shutdown, A closing, A closing, closed",
    ),
    (
        B,
        2,
        "takes closing: 61 1 62 same, B reestablish, A reestablish, B channel_ready, B \
         shutdown, B closing, A channel_ready, A shutdown, A closing, closed",
        "takes closing: 61 1 62 new, B reestablish, A reestablish, B channel_ready, B \
         shutdown, B closing, A channel_ready, A shutdown, A closing, closed",
    ),
];

#[test]
fn over_a_save_that_fails(rt: HostRuntime) {
    for over in [Over::Memory, Over::Databases] {
        for row in &PAYMENTS {
            let told = is_shown(rt.alloc(), over, Play::Payment, row);
            assert_eq!(rt; told, Ok((true, true)), "payment, {}", row.1);
        }
        for row in &CLOSES {
            let told = is_shown(rt.alloc(), over, Play::Close, row);
            assert_eq!(rt; told, Ok((true, true)), "close, {}", row.1);
        }
    }
}
