//! New ends of a channel, and how far they come.

use crate::calls::{pass, text_at};
use crate::commands::command;
use crate::end::End;
use crate::opening::{fundee, funder};
use crate::show::shown;
use std::alloc::{AllocError, Global};
use std::mem;

/// The two ends of a channel of a line's numbers; none where a value doesn't fit.
fn made(alloc: Global, words: &[&str]) -> Result<Option<Vec<Box<End>>>, AllocError> {
    let mut ends = Vec::new(alloc);
    let Some(a) = funder(alloc, words)? else {
        return Ok(None);
    };
    ends.push(a)?;
    let Some(b) = fundee(alloc, words)? else {
        return Ok(None);
    };
    ends.push(b)?;
    Ok(Some(ends))
}

/// Both get a connection, and the funder's sends the first message of the opening.
fn opened(alloc: Global, a: &mut End, b: &mut End) -> Result<String, AllocError> {
    drop(b.link.connect(alloc));
    let answer = a.link.connect(alloc);
    shown(alloc, answer, b, false)
}

/// The opening is over, and both have confirmed the funding: what they answer to that.
fn ready(alloc: Global, a: &mut End, b: &mut End) -> Result<String, AllocError> {
    drop(opened(alloc, a, b)?);
    drop(pass(alloc, b, a)?);
    drop(command(alloc, a, b, "confirm", &[])?);
    drop(command(alloc, b, a, "confirm", &[])?);
    pass(alloc, b, a)
}

/// New ends take the place of the old ones, and come so far: they are made, they are being opened, they are ready.
fn begun(
    alloc: Global,
    ends: &mut Vec<Box<End>>,
    others: Vec<Box<End>>,
    word: &str,
) -> Result<String, AllocError> {
    *ends = others;
    let [a, b] = ends.as_mut_slice() else {
        return String::from_str(alloc, "no channel");
    };
    match word {
        "made" => String::from_str(alloc, "made"),
        "ready" => ready(alloc, a, b),
        _ => opened(alloc, a, b),
    }
}

/// New ends of a line's numbers, and of the usual ones where it names none.
pub fn renew(
    alloc: Global,
    ends: &mut Vec<Box<End>>,
    word: &str,
    words: &[&str],
) -> Result<String, AllocError> {
    match made(alloc, words)? {
        None => String::from_str(alloc, "unfit"),
        Some(others) => begun(alloc, ends, others, word),
    }
}

/// A new end has the store of the old one of this name.
fn keep_store(old: &mut [Box<End>], new: &mut [Box<End>], name: Option<char>) {
    for one in old {
        for other in &mut *new {
            if name == Some(one.name) && one.name == other.name {
                mem::swap(&mut one.store, &mut other.store);
            }
        }
    }
}

/// New ends of the usual numbers, of which one has the store of before.
pub fn again(
    alloc: Global,
    ends: &mut Vec<Box<End>>,
    words: &[&str],
) -> Result<String, AllocError> {
    let name = text_at(words, "end").chars().next();
    let Some(mut others) = made(alloc, &[])? else {
        return String::from_str(alloc, "unfit");
    };
    keep_store(ends.as_mut_slice(), others.as_mut_slice(), name);
    begun(alloc, ends, others, "new")
}
