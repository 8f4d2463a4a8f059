//! Commands of an end, by named values.

use crate::calls::{at, text_at};
use crate::end::End;
use crate::line::filled;
use crate::show::shown;
use ln_bytes::{Bytes, ShortId};
use ln_channel::Command;
use ln_keys::sha256_32;
use ln_log::Mark;
use ln_tests_ends::{bytes_of, code, wide};
use std::alloc::{AllocError, Global};

/// What is done about an event, by its word: nothing, a forward to channel 7, a failure, a malformed one, a fulfilment;
/// or its HTLC is held by its number, or by the next one. None of another word.
fn mark_of(alloc: Global, event: u64, word: &str) -> Result<Option<Mark>, AllocError> {
    let mark = match word {
        "none" => Mark::None,
        "forward" => Mark::Forward {
            channel: [7; 32],
            amount: 5,
            expiry: 6,
        },
        "fail" => Mark::Fail(Bytes::new(filled(alloc, 2, 2)?)),
        "malformed" => Mark::Malformed(0xc004),
        "fulfil" => Mark::Fulfil([4; 32]),
        "held" => Mark::Held(event),
        "held_next" => Mark::Held(event.wrapping_add(1)),
        _ => return Ok(None),
    };
    Ok(Some(mark))
}

/// The incoming HTLC of channel 7 that an add forwards, where its number isn't 0.
fn origin_of(number: u64) -> Option<([u8; 32], u64)> {
    if number == 0 {
        None
    } else {
        Some(([7; 32], number))
    }
}

/// An HTLC, by its amount, its expiry, what stands for its preimage, and what it forwards.
fn add_of(words: &[&str]) -> Command {
    Command::Add {
        amount: at(words, "amount"),
        hash: sha256_32(&bytes_of(at(words, "preimage"))),
        expiry: wide(at(words, "expiry")),
        onion: [0; 1366],
        origin: origin_of(at(words, "origin")),
    }
}

/// A command that needs no memory; to sign for any other.
fn light(word: &str, words: &[&str]) -> Command {
    match word {
        "confirm" => Command::Confirm(ShortId::from_bytes(&[0, 0, 1, 0, 0, 1, 0, 0])),
        "add" => add_of(words),
        "fulfil" => Command::Fulfil {
            id: at(words, "id"),
            preimage: bytes_of(at(words, "preimage")),
        },
        "malformed" => Command::Malformed {
            id: at(words, "id"),
            sha: [0; 32],
            code: code(at(words, "code")),
        },
        "fee" => Command::Fee(wide(at(words, "rate"))),
        "forget" => Command::Forget(at(words, "id")),
        _ => Command::Sign,
    }
}

/// What is decided about an event, at once or on a resume. None where its mark is none.
fn decided_of(
    alloc: Global,
    word: &str,
    words: &[&str],
) -> Result<Option<Box<Command>>, AllocError> {
    let event = at(words, "event");
    let Some(mark) = mark_of(alloc, event, text_at(words, "mark"))? else {
        return Ok(None);
    };
    if word == "resume" {
        return Ok(Some(Box::new(alloc, Command::Resume { event, mark })?));
    }
    Ok(Some(Box::new(alloc, Command::Decide { event, mark })?))
}

/// A command by its word: of `fail` the length of the reason, of `shutdown` that of the script and its byte. None where
/// its mark is none.
fn command_of(
    alloc: Global,
    word: &str,
    words: &[&str],
) -> Result<Option<Box<Command>>, AllocError> {
    match word {
        "fail" => {
            let reason = Bytes::new(filled(alloc, 1, at(words, "length"))?);
            let id = at(words, "id");
            Ok(Some(Box::new(alloc, Command::Fail { id, reason })?))
        }
        "shutdown" => {
            let byte = (at(words, "byte") % 256) as u8;
            let script = Bytes::new(filled(alloc, byte, at(words, "length"))?);
            Ok(Some(Box::new(alloc, Command::Shutdown(script))?))
        }
        "decide" | "resume" => decided_of(alloc, word, words),
        word => Ok(Some(Box::new(alloc, light(word, words))?)),
    }
}

/// An end does what it is told, and what it sends is in flight to the other one.
pub fn command(
    alloc: Global,
    x: &mut End,
    y: &mut End,
    word: &str,
    words: &[&str],
) -> Result<String, AllocError> {
    let Some(command) = command_of(alloc, word, words)? else {
        return String::from_str(alloc, "no mark");
    };
    let answer = x
        .link
        .command(alloc, &mut *x.store, Box::into_inner(command));
    shown(alloc, answer, y, false)
}

/// Whether a word is a command's.
pub fn is_command(word: &str) -> bool {
    match word {
        "confirm" | "add" | "fulfil" | "fail" | "malformed" | "fee" => true,
        "sign" | "shutdown" | "decide" | "resume" | "forget" => true,
        _ => false,
    }
}
