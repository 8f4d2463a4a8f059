//! The calls of a book, by lines of named numbers.

use crate::answers::Answers;
use crate::many::call_often;
use crate::names::names_of;
use crate::node::Node;
use crate::onion::onion_of;
use crate::payments::payments;
use crate::show::{show_command, show_held, show_mark};
use ln_book::Book;
use ln_bytes::{Bytes, ShortId};
use ln_forward::Policy;
use ln_hooks::{ChannelEvent, FailureCode, How, Msat, Verdict};
use ln_keys::{ToyOnion, sha256_32};
use ln_log::ChannelId;
use ln_named_lines::{first_fault, number_in, number_of, number_or, value_of, words_of};
use ln_refusals::Refusal;
use ln_tests_ends::{bytes_of, code, wide};
use std::alloc::{AllocError, Global};

fn shown(alloc: Global, outcome: Result<(), Refusal>) -> Result<String, AllocError> {
    match outcome {
        Ok(()) => String::from_str(alloc, "done"),
        Err(_) => String::from_str(alloc, "refused"),
    }
}

/// The number that a line gives a name, 0 where it gives none.
pub fn at(words: &[&str], name: &str) -> u64 {
    number_or(words, name, 0)
}

/// The id of the channel that a line names.
pub fn channel_at(words: &[&str]) -> ChannelId {
    bytes_of(at(words, "channel"))
}

fn set_route(book: &mut Book, words: &[&str]) -> Result<(), Refusal> {
    let id = ShortId::from_bytes(&at(words, "short_id").to_be_bytes());
    let policy = Policy {
        base: wide(at(words, "base")),
        proportional: wide(at(words, "proportional")),
        delta: code(at(words, "delta")),
    };
    book.set_route(id, channel_at(words), policy, at(words, "minimum"))
}

// The height, at most 400,000,000.
fn set_height(book: &mut Book, words: &[&str]) {
    book.set_height((at(words, "blocks") % 400_000_001) as u32);
}

// What became of an HTLC: fulfilled by a preimage, failed, malformed by a code.
fn how_of(alloc: Global, words: &[&str]) -> Result<How, AllocError> {
    if let Some(number) = number_of(words, "fulfilled") {
        return Ok(How::Fulfilled(bytes_of(number)));
    }
    match number_of(words, "failed") {
        Some(number) => {
            let reason = Vec::from_slice(alloc, &bytes_of(number))?;
            Ok(How::Failed(Bytes::new(reason)))
        }
        None => {
            let number = at(words, "malformed");
            Ok(How::Malformed(bytes_of(number), code(number)))
        }
    }
}

/// An HTLC of this id that was added.
pub fn added(alloc: Global, words: &[&str], id: u64) -> Result<Box<ChannelEvent>, AllocError> {
    let hash = sha256_32(&bytes_of(at(words, "preimage")));
    let onion = onion_of(alloc, words, &hash)?;
    let Some(amount) = Msat::new(at(words, "amount")) else {
        return Err(AllocError);
    };
    let event = Box::new(
        alloc,
        ChannelEvent::Added {
            own: at(words, "own") == 1,
            id,
            amount,
            hash,
            expiry: wide(at(words, "expiry")),
            onion,
        },
    )?;
    Ok(event)
}

/// The hooks' verdict: 5 to hold, the failure's code, else to go on.
pub fn verdict_of(words: &[&str]) -> Verdict {
    let number = at(words, "verdict");
    if number == 5 {
        return Verdict::Hold;
    }
    match FailureCode::new(code(number)) {
        None => Verdict::Continue,
        Some(code) => Verdict::Fail(code),
    }
}

fn decide(alloc: Global, book: &mut Book, words: &[&str]) -> Result<String, AllocError> {
    let event = added(alloc, words, at(words, "id"))?;
    let verdict = verdict_of(words);
    let channel = channel_at(words);
    match book.decide(
        alloc,
        &ToyOnion,
        channel,
        at(words, "event"),
        &event,
        verdict,
    ) {
        Err(_) => String::from_str(alloc, "refused"),
        Ok(mark) => show_mark(alloc, &mark),
    }
}

fn resume(alloc: Global, book: &mut Book, words: &[&str]) -> Result<String, AllocError> {
    let verdict = verdict_of(words);
    match book.resume(
        alloc,
        &ToyOnion,
        channel_at(words),
        at(words, "event"),
        verdict,
    ) {
        Err(Refusal::NotReady) => String::from_str(alloc, "refused 40"),
        Err(_) => String::from_str(alloc, "refused"),
        Ok(mark) => show_mark(alloc, &mark),
    }
}

// What is held.
fn held(alloc: Global, book: &Book) -> Result<String, AllocError> {
    match book.held(alloc) {
        Err(_) => String::from_str(alloc, "refused"),
        Ok(all) => show_held(alloc, all.as_slice()),
    }
}

// An HTLC was removed, an own one where that is 1.
fn settled(alloc: Global, book: &mut Book, words: &[&str]) -> Result<String, AllocError> {
    let how = how_of(alloc, words)?;
    let event = Box::new(
        alloc,
        ChannelEvent::Settled {
            own: at(words, "own") == 1,
            id: at(words, "id"),
            how,
        },
    )?;
    shown(alloc, book.settled(alloc, channel_at(words), &event))
}

fn take(alloc: Global, book: &mut Book, words: &[&str]) -> Result<String, AllocError> {
    match book.take_commands(alloc, &ToyOnion, channel_at(words)) {
        Err(_) => String::from_str(alloc, "refused"),
        Ok(None) => String::from_str(alloc, "nothing"),
        Ok(Some(command)) => show_command(alloc, &command),
    }
}

// A command was refused by a number, or taken, an add with this id.
fn answered(book: &mut Book, words: &[&str]) {
    let channel = channel_at(words);
    match number_of(words, "refused") {
        Some(number) => book.answered(channel, Err(code(number))),
        None => book.answered(channel, Ok(at(words, "id"))),
    }
}

// The numbers of a list, with commas between; none where one isn't a number.
fn list_of(alloc: Global, list: &str) -> Result<Option<Vec<u64>>, AllocError> {
    let mut all = Vec::new(alloc);
    if list.is_empty() {
        return Ok(Some(all));
    }
    for item in list.split(',') {
        match number_in(item) {
            Some(number) => all.push(number)?,
            None => return Ok(None),
        }
    }
    Ok(Some(all))
}

// How many events are decided, and of which HTLCs a removal was kept.
fn dropped(alloc: Global, book: &mut Book, words: &[&str]) -> Result<String, AllocError> {
    let list = value_of(words, "removals").unwrap_or("");
    let Some(removals) = list_of(alloc, list)? else {
        return String::from_str(alloc, "no list");
    };
    let answers = Answers {
        next: at(words, "next_id"),
        removals,
        decided: at(words, "decided"),
    };
    shown(alloc, book.dropped(alloc, channel_at(words), &answers))
}

// What is set: a route, whether a channel takes payments, the height, an invoice.
fn set(alloc: Global, book: &mut Book, word: &str, words: &[&str]) -> Result<String, AllocError> {
    match word {
        "route" => shown(alloc, set_route(book, words)),
        "use" => {
            let takes = at(words, "takes") == 1;
            shown(alloc, book.set_usable(channel_at(words), takes))
        }
        "expect" => {
            let preimage = bytes_of(at(words, "preimage"));
            let secret = bytes_of(at(words, "secret"));
            shown(alloc, book.expect(preimage, secret, at(words, "amount")))
        }
        "height" => {
            set_height(book, words);
            String::from_str(alloc, "done")
        }
        _ => String::from_str(alloc, "no call"),
    }
}

// Whether a channel takes payments.
fn usable(alloc: Global, book: &Book, words: &[&str]) -> Result<String, AllocError> {
    if book.usable(&channel_at(words)) {
        String::from_str(alloc, "usable")
    } else {
        String::from_str(alloc, "not usable")
    }
}

// Payments there and back, so many, beside so many that wait.
fn paid(alloc: Global, book: &mut Book, words: &[&str]) -> Result<String, AllocError> {
    match payments(alloc, book, at(words, "count"), at(words, "waiting")) {
        Err(_) => String::from_str(alloc, "refused"),
        Ok(given) => format!(in alloc; "given {given}"),
    }
}

/// Calls the book, or the ends of channels, by the line of this number, and says what it answers, or the line's first
/// fault. A line that begins with # is said again.
pub fn call(alloc: Global, node: &mut Node, number: u64, line: &str) -> Result<String, AllocError> {
    let words = words_of(alloc, line)?;
    match words.as_slice() {
        [word, values @ ..] if *word != "#" => call_by(alloc, node, number, word, values),
        _ => String::from_str(alloc, line),
    }
}

fn call_by(
    alloc: Global,
    node: &mut Node,
    number: u64,
    word: &str,
    words: &[&str],
) -> Result<String, AllocError> {
    let Some(names) = names_of(word) else {
        return String::from_str(alloc, "no call");
    };
    match first_fault(&names, words) {
        Some(fault) => fault.text(alloc, number),
        None => call_node(alloc, node, word, words),
    }
}

fn call_node(
    alloc: Global,
    node: &mut Node,
    word: &str,
    words: &[&str],
) -> Result<String, AllocError> {
    match word {
        "open"
        | "opens"
        | "up"
        | "down"
        | "offer"
        | "pay"
        | "sign"
        | "obey"
        | "settle"
        | "restart" => node.call(alloc, word, words),
        "hooks" => {
            node.verdict = verdict_of(words);
            String::from_str(alloc, "done")
        }
        word => call_book(alloc, &mut node.book, word, words),
    }
}

fn call_book(
    alloc: Global,
    book: &mut Book,
    word: &str,
    words: &[&str],
) -> Result<String, AllocError> {
    match word {
        "decide" => decide(alloc, book, words),
        "resume" => resume(alloc, book, words),
        "held" => held(alloc, book),
        "settled" => settled(alloc, book, words),
        "take" => take(alloc, book, words),
        "answered" => {
            answered(book, words);
            String::from_str(alloc, "done")
        }
        "dropped" => dropped(alloc, book, words),
        "rebuild" => shown(alloc, book.rebuild(alloc, &[])),
        "usable" => usable(alloc, book, words),
        "payments" => paid(alloc, book, words),
        word @ ("decides" | "resumes" | "drain" | "holding") => call_often(
            alloc, book, word, words,
        ),
        word => set(alloc, book, word, words),
    }
}
