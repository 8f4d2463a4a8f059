//! Commands and marks as texts.

use ln_book_tables::HeldHtlc;
use ln_bytes::Bytes;
use ln_channel::Command;
use ln_log::Mark;
use sha2::{Digest, Sha256};
use std::alloc::{AllocError, Global};
use std::fmt::Write;

/// The first eight bytes, as a number.
fn front(bytes: &[u8; 32]) -> u64 {
    let mut eight = [0; 8];
    eight.copy_from_slice(&bytes[..8]);
    u64::from_be_bytes(eight)
}

/// The same of the bytes' SHA-256.
fn sum(bytes: &[u8]) -> u64 {
    let mut hasher = Sha256::new();
    hasher.update(bytes);
    front(&hasher.finalize())
}

fn show_fail(alloc: Global, reason: &Bytes) -> Result<String, AllocError> {
    let sum = sum(reason.as_slice());
    format!(in alloc; "fail {sum}")
}

/// A mark.
pub fn show_mark(alloc: Global, mark: &Mark) -> Result<String, AllocError> {
    match mark {
        Mark::None => String::from_str(alloc, "none"),
        Mark::Forward {
            channel,
            amount,
            expiry,
        } => {
            let to = channel[0];
            format!(in alloc; "forward {to} {amount} {expiry}")
        }
        Mark::Fail(reason) => show_fail(alloc, reason),
        Mark::Malformed(code) => format!(in alloc; "malformed {code}"),
        Mark::Fulfil(preimage) => {
            let preimage = front(preimage);
            format!(in alloc; "fulfil {preimage}")
        }
        Mark::Held(event) => format!(in alloc; "held {event}"),
    }
}

fn put_held(text: &mut String, held: &HeldHtlc) -> Result<(), AllocError> {
    let HeldHtlc {
        channel,
        number,
        id,
        amount,
        hash,
        expiry,
    } = held;
    let channel = channel[0];
    let hash = front(hash);
    write!(text, " {channel} {number} {id} {amount} {hash} {expiry},")
}

/// What is held, one after the other: the channel's first byte, number, id, amount, hash and expiry.
pub fn show_held(alloc: Global, all: &[HeldHtlc]) -> Result<String, AllocError> {
    let mut text = String::from_str(alloc, "held")?;
    for held in all {
        put_held(&mut text, held)?;
    }
    Ok(text)
}

/// The incoming channel's first byte and HTLC that an add forwards.
fn origin_of(origin: Option<([u8; 32], u64)>) -> Option<(u8, u64)> {
    let (from, id) = origin?;
    Some((from[0], id))
}

fn show_add(
    alloc: Global,
    amount: u64,
    hash: u64,
    expiry: u32,
    onion: u64,
    origin: Option<(u8, u64)>,
) -> Result<String, AllocError> {
    match origin {
        None => format!(in alloc; "add {amount} {hash} {expiry} {onion}"),
        Some((from, id)) => format!(in alloc; "add {amount} {hash} {expiry} {onion} {from} {id}"),
    }
}

fn show_decide(alloc: Global, event: u64, mark: &Mark) -> Result<String, AllocError> {
    let mark = show_mark(alloc, mark)?;
    format!(in alloc; "decide {event} {mark}")
}

fn show_resume(alloc: Global, event: u64, mark: &Mark) -> Result<String, AllocError> {
    let mark = show_mark(alloc, mark)?;
    format!(in alloc; "resume {event} {mark}")
}

/// A command.
pub fn show_command(alloc: Global, command: &Command) -> Result<String, AllocError> {
    match command {
        Command::Add {
            amount,
            hash,
            expiry,
            onion,
            origin,
        } => {
            let origin = origin_of(*origin);
            show_add(alloc, *amount, front(hash), *expiry, sum(onion), origin)
        },
        Command::Fulfil { id, preimage } => {
            let preimage = front(preimage);
            format!(in alloc; "fulfil {id} {preimage}")
        }
        Command::Fail { id, reason } => {
            let sum = sum(reason.as_slice());
            format!(in alloc; "fail {id} {sum}")
        }
        Command::Malformed { id, sha, code } => {
            let sha = front(sha);
            format!(in alloc; "malformed {id} {sha} {code}")
        }
        Command::Decide { event, mark } => show_decide(alloc, *event, mark),
        Command::Forget(id) => format!(in alloc; "forget {id}"),
        Command::Resume { event, mark } => show_resume(alloc, *event, mark),
        _ => String::from_str(alloc, "another"),
    }
}
