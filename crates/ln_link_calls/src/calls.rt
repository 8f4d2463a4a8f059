//! The lines, one by one.

use crate::channel::{again, renew};
use crate::commands::{command, is_command};
use crate::end::End;
use crate::line::bytes_of_parts;
use crate::names::names_of;
use crate::show::{pending, record, refused, shown, stand, told_by_record};
use ln_bytes::Fault;
use ln_msgs::{Incoming, Message, decode};
use ln_named_lines::{first_fault, number_or, value_of, words_of};
use ln_store::RecordStore;
use std::alloc::{AllocError, Global};
use std::fmt::Write;

/// The number that a line gives a name, 0 where it gives none.
pub fn at(words: &[&str], name: &str) -> u64 {
    number_or(words, name, 0)
}

/// The text that it gives one, the empty one where it gives none.
pub fn text_at<'a>(words: &[&'a str], name: &str) -> &'a str {
    match value_of(words, name) {
        Some(text) => text,
        None => "",
    }
}

fn is_error(message: &Message) -> bool {
    match message {
        Message::Error(_) => true,
        _ => false,
    }
}

/// An end takes the message of these bytes. The peer is told of a refusal, unless it was an error that was refused: two
/// ends that have failed would answer each other for ever.
fn take(alloc: Global, x: &mut End, y: &mut End, bytes: &[u8]) -> Result<String, AllocError> {
    match decode(alloc, bytes) {
        Ok(Incoming::Known(message)) => {
            let replies = !is_error(&message);
            let answer = x.link.handle(alloc, &mut *x.store, message);
            shown(alloc, answer, y, replies)
        }
        Ok(Incoming::Ignored(_)) => String::from_str(alloc, "ignored"),
        Err(Fault::Memory) => Err(AllocError),
        Err(fault) => {
            let number = fault.number();
            format!(in alloc; "fault {number}")
        }
    }
}

/// An end takes the oldest message that is in flight to it.
fn deliver(alloc: Global, x: &mut End, y: &mut End) -> Result<String, AllocError> {
    match x.inbox.pop_front() {
        None => String::from_str(alloc, "nothing"),
        Some(bytes) => take(alloc, x, y, bytes.as_slice()),
    }
}

/// The same where there is one, after the end's name.
fn put_taken(alloc: Global, text: &mut String, x: &mut End, y: &mut End) -> Result<(), AllocError> {
    if x.inbox.is_empty() {
        return Ok(());
    }
    let answer = deliver(alloc, x, y)?;
    let name = x.name;
    write!(text, "{name} {answer} ")
}

/// The ends take what is in flight, one message each in turn, at most 100; x begins.
pub fn pass(alloc: Global, x: &mut End, y: &mut End) -> Result<String, AllocError> {
    let mut text = String::new(alloc);
    for _ in 0..100 {
        put_taken(alloc, &mut text, x, y)?;
        put_taken(alloc, &mut text, y, x)?;
    }
    text.push_str("passed")?;
    Ok(text)
}

/// The oldest message that is in flight to an end.
fn front(alloc: Global, x: &End) -> Result<String, AllocError> {
    match x.inbox.front() {
        None => String::from_str(alloc, "nothing"),
        Some(bytes) => hex::encode(alloc, bytes.as_slice()),
    }
}

/// An end takes a message that is given in parts.
fn give(alloc: Global, x: &mut End, y: &mut End, words: &[&str]) -> Result<String, AllocError> {
    match bytes_of_parts(alloc, text_at(words, "bytes"))? {
        None => String::from_str(alloc, "not hex"),
        Some(bytes) => take(alloc, x, y, bytes.as_slice()),
    }
}

/// An end comes back from its record.
fn load(alloc: Global, x: &mut End, y: &mut End) -> Result<String, AllocError> {
    match x.load(alloc) {
        Ok(false) => String::from_str(alloc, "no record"),
        Ok(true) => String::from_str(alloc, "loaded"),
        Err(refusal) => refused(alloc, refusal, y, false),
    }
}

/// Bytes that are given in parts, after a channel's id, take the place of an end's record: how many.
fn store(alloc: Global, x: &mut End, y: &mut End, words: &[&str]) -> Result<String, AllocError> {
    let Some(bytes) = bytes_of_parts(alloc, text_at(words, "bytes"))? else {
        return String::from_str(alloc, "not hex");
    };
    let Some((id, record)) = bytes.split_first_chunk::<32>() else {
        return String::from_str(alloc, "no id");
    };
    match x.store.save(alloc, id, record) {
        Ok(()) => {
            let count = record.len();
            format!(in alloc; "stored {count}")
        }
        Err(refusal) => refused(alloc, refusal, y, false),
    }
}

/// An end's save after so many others fails, and leaves the old record or the new one.
fn fail(alloc: Global, x: &mut End, words: &[&str]) -> Result<String, AllocError> {
    let leaves_new = match text_at(words, "record") {
        "old" => false,
        "new" => true,
        _ => return String::from_str(alloc, "neither old nor new"),
    };
    x.store.fail_at(at(words, "after"), leaves_new);
    String::from_str(alloc, "done")
}

/// Both ends get a connection, and then each is sent what the other one begins with.
fn up(alloc: Global, x: &mut End, y: &mut End) -> Result<String, AllocError> {
    let first = x.link.connect(alloc);
    let last = y.link.connect(alloc);
    let mut text = shown(alloc, first, y, false)?;
    text.push_str(" ")?;
    let others = shown(alloc, last, x, false)?;
    text.push_str(others.as_str())?;
    Ok(text)
}

/// What happens to a connection, by its word.
fn connection(alloc: Global, x: &mut End, y: &mut End, word: &str) -> Result<String, AllocError> {
    match word {
        "connect" => {
            let answer = x.link.connect(alloc);
            shown(alloc, answer, y, false)
        }
        "up" => up(alloc, x, y),
        "drop" => {
            x.fall();
            String::from_str(alloc, "done")
        }
        "halt" => {
            x.halt();
            String::from_str(alloc, "done")
        }
        "load" => load(alloc, x, y),
        _ => String::from_str(alloc, "no line"),
    }
}

/// What one end does, by the line's word; the other one is y.
fn act(
    alloc: Global,
    x: &mut End,
    y: &mut End,
    word: &str,
    words: &[&str],
) -> Result<String, AllocError> {
    if is_command(word) {
        return command(alloc, x, y, word, words);
    }
    match word {
        "front" => front(alloc, x),
        "deliver" => deliver(alloc, x, y),
        "pass" => pass(alloc, x, y),
        "give" => give(alloc, x, y, words),
        "record" => record(alloc, x),
        "ledger" | "shape" => told_by_record(alloc, x, word),
        "store" => store(alloc, x, y, words),
        "fails" => fail(alloc, x, words),
        "stand" => stand(alloc, x),
        "pending" => pending(alloc, x),
        word => connection(alloc, x, y, word),
    }
}

fn act_by(
    alloc: Global,
    ends: &mut [Box<End>],
    word: &str,
    words: &[&str],
) -> Result<String, AllocError> {
    let [a, b] = ends else {
        return String::from_str(alloc, "no channel");
    };
    match text_at(words, "end") {
        "A" => act(alloc, a, b, word, words),
        "B" => act(alloc, b, a, word, words),
        _ => String::from_str(alloc, "no end"),
    }
}

fn drive(
    alloc: Global,
    ends: &mut Vec<Box<End>>,
    word: &str,
    words: &[&str],
) -> Result<String, AllocError> {
    match word {
        "new" | "made" | "ready" => renew(alloc, ends, word, words),
        "again" => again(alloc, ends, words),
        _ => act_by(alloc, ends.as_mut_slice(), word, words),
    }
}

fn call_by(
    alloc: Global,
    ends: &mut Vec<Box<End>>,
    number: u64,
    word: &str,
    words: &[&str],
) -> Result<String, AllocError> {
    let Some(names) = names_of(word) else {
        return String::from_str(alloc, "no line");
    };
    match first_fault(&names, words) {
        Some(fault) => fault.text(alloc, number),
        None => drive(alloc, ends, word, words),
    }
}

/// Does what the line of this number says, and says what is answered, or the line's first fault. A line that begins
/// with # is said again.
pub fn call(
    alloc: Global,
    ends: &mut Vec<Box<End>>,
    number: u64,
    line: &str,
) -> Result<String, AllocError> {
    let words = words_of(alloc, line)?;
    match words.as_slice() {
        [word, values @ ..] if *word != "#" => call_by(alloc, ends, number, word, values),
        _ => String::from_str(alloc, line),
    }
}
