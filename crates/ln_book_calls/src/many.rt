//! Many calls of a book at once: sizes that no line of one call comes to.

use crate::calls::{added, at, channel_at, verdict_of};
use ln_book::Book;
use ln_keys::ToyOnion;
use ln_log::ChannelId;
use ln_refusals::Refusal;
use std::alloc::{AllocError, Global};

// Decides so many HTLCs, whose ids and events are counted from 0.
fn decide_all(alloc: Global, book: &mut Book, words: &[&str]) -> Result<u64, Refusal> {
    let (channel, count) = (channel_at(words), at(words, "count"));
    let verdict = verdict_of(words);
    for number in 0..count {
        let event = added(alloc, words, number)?;
        drop(book.decide(alloc, &ToyOnion, channel, number, &event, verdict)?);
    }
    Ok(count)
}

// Resumes those that are held by so many events, counted from 0.
fn resume_all(alloc: Global, book: &mut Book, words: &[&str]) -> Result<u64, Refusal> {
    let (channel, count) = (channel_at(words), at(words, "count"));
    let verdict = verdict_of(words);
    for number in 0..count {
        drop(book.resume(alloc, &ToyOnion, channel, number, verdict)?);
    }
    Ok(count)
}

// Whether a command was given; it is answered by this id.
fn is_given(alloc: Global, book: &mut Book, channel: ChannelId, id: u64) -> Result<bool, Refusal> {
    let given = Box::new(alloc, book.take_commands(alloc, &ToyOnion, channel)?)?;
    if given.is_none() {
        return Ok(false);
    }
    book.answered(channel, Ok(id));
    Ok(true)
}

// A channel takes all commands that there are, at most 10,000, and answers them by ids counted from 0.
fn drain(alloc: Global, book: &mut Book, channel: ChannelId) -> Result<u64, Refusal> {
    for id in 0..10_000 {
        if !is_given(alloc, book, channel, id)? {
            return Ok(id);
        }
    }
    Ok(10_000)
}

// How many HTLCs are held.
fn holding(alloc: Global, book: &Book) -> Result<u64, Refusal> {
    let all = book.held(alloc)?;
    Ok(all.len() as u64)
}

/// Calls the book many times, and says how many HTLCs were decided or resumed, commands given, or HTLCs are held.
pub fn call_often(
    alloc: Global,
    book: &mut Book,
    word: &str,
    words: &[&str],
) -> Result<String, AllocError> {
    let done = match word {
        "decides" => decide_all(alloc, book, words),
        "resumes" => resume_all(alloc, book, words),
        "drain" => drain(alloc, book, channel_at(words)),
        _ => holding(alloc, book),
    };
    match done {
        Ok(count) => format!(in alloc; "{word} {count}"),
        Err(refusal) => {
            let number = refusal.number();
            format!(in alloc; "refused {number}")
        }
    }
}
