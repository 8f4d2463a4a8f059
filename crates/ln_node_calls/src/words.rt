//! What the values of a line say.

use crate::asking::Wanted;
use crate::ends::{B2, F0};
use ln_bytes::Bytes;
use ln_channel::Command;
use ln_hooks::FailureCode;
use ln_named_lines::{number_in, number_of, number_or, value_of};
use ln_node::Signing;
use ln_refusals::Refusal;
use ln_tests_ends::{A0, B0, B1, C0, CONTINUE, End, HOLD};
use std::alloc::Global;

/// A word that is none.
pub const BAD: Refusal = Refusal::BadScript { line: 0 };

/// The number that a line gives a name, 0 where it gives none.
pub fn at(words: &[&str], name: &str) -> u64 {
    number_or(words, name, 0)
}

/// The text that it gives one, the empty one where it gives none.
pub fn text_at<'a>(words: &[&'a str], name: &str) -> &'a str {
    value_of(words, name).unwrap_or("")
}

/// A number that is at most 65,535.
pub fn small(number: u64) -> Result<u16, Refusal> {
    if number <= 0xffff {
        Ok(number as u16)
    } else {
        Err(BAD)
    }
}

/// The end that a line names.
pub fn end(words: &[&str]) -> Result<End, Refusal> {
    match text_at(words, "end") {
        "A0" => Ok(A0),
        "B0" => Ok(B0),
        "B1" => Ok(B1),
        "C0" => Ok(C0),
        "B2" => Ok(B2),
        "F0" => Ok(F0),
        _ => Err(BAD),
    }
}

/// The number of the node that it names.
pub fn node(words: &[&str]) -> Result<usize, Refusal> {
    match text_at(words, "node") {
        "A" => Ok(0),
        "B" => Ok(1),
        "C" => Ok(2),
        "F" => Ok(3),
        _ => Err(BAD),
    }
}

/// The end of who pays or is paid, and the block of its channel.
pub fn party(name: &str) -> Result<(End, u8), Refusal> {
    match name {
        "A" => Ok((A0, 1)),
        "C" => Ok((C0, 2)),
        "F" => Ok((F0, 3)),
        _ => Err(BAD),
    }
}

// Who is at the other end of the row.
fn opposite(name: &str) -> &'static str {
    match name {
        "A" => "C",
        "C" => "A",
        _ => "",
    }
}

/// The end of who pays, that of who is paid, and the block of the latter's channel. Where a line names no payee, the
/// other end of the row is paid.
pub fn parties(words: &[&str]) -> Result<(End, End, u8), Refusal> {
    let name = text_at(words, "payer");
    let (payer, _) = party(name)?;
    let (payee, block) = party(value_of(words, "payee").unwrap_or(opposite(name)))?;
    Ok((payer, payee, block))
}

/// What is to become of an order: done, with this id of its HTLC, or 0; or refused by this number.
pub fn wanted(words: &[&str]) -> Result<Wanted, Refusal> {
    match (number_of(words, "id"), number_of(words, "refused")) {
        (Some(id), None) => Ok(Wanted::Done(id)),
        (None, Some(number)) => Ok(Wanted::Refused(number)),
        _ => Err(BAD),
    }
}

/// What a hook is to say.
pub fn saying(words: &[&str]) -> Result<u64, Refusal> {
    match text_at(words, "verdict") {
        "continue" => Ok(CONTINUE),
        "hold" => Ok(HOLD),
        code => {
            let number = small(number_in(code).unwrap_or(0))?;
            if FailureCode::new(number).is_some() {
                Ok(u64::from(number))
            } else {
                Err(BAD)
            }
        }
    }
}

/// What an end is ordered.
pub fn command(alloc: Global, words: &[&str]) -> Result<Command, Refusal> {
    match text_at(words, "command") {
        "sign" => Ok(Command::Sign),
        "fee" => Ok(Command::Fee(300)),
        "shut" => Ok(Command::Shutdown(Bytes::empty(alloc))),
        "forget" => Ok(Command::Forget(0)),
        _ => Err(BAD),
    }
}

/// What a save that fails leaves: 1 for the new record.
pub fn left(words: &[&str]) -> Result<u64, Refusal> {
    match text_at(words, "record") {
        "old" => Ok(0),
        "new" => Ok(1),
        _ => Err(BAD),
    }
}

/// Whether messages to an end are meant, and not those from it.
pub fn comes_in(words: &[&str]) -> Result<bool, Refusal> {
    match text_at(words, "way") {
        "in" => Ok(true),
        "out" => Ok(false),
        _ => Err(BAD),
    }
}

/// The bytes that a line gives a name, in hexadecimal.
pub fn bytes(alloc: Global, words: &[&str], name: &str) -> Result<Bytes, Refusal> {
    match hex::decode(alloc, text_at(words, name)) {
        Ok(bytes) => Ok(Bytes::new(bytes)),
        Err(_) => Err(BAD),
    }
}

/// When nodes sign.
pub fn signing(words: &[&str]) -> Result<Signing, Refusal> {
    match text_at(words, "when") {
        "ordered" => Ok(Signing::WhenOrdered),
        "idle" => Ok(Signing::WhenIdle),
        _ => Err(BAD),
    }
}
