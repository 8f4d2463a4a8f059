//! The lines, and the names that each gives a value.

use ln_named_lines::Names;

// What a channel is begun with; what is left out is as usual (opening.rt).
const CHANNEL: [&str; 18] = [
    "funding",
    "push",
    "seed",
    "types",
    "a_minimum",
    "a_accepted",
    "a_in_flight",
    "a_reserve",
    "a_fee",
    "a_least",
    "a_greatest",
    "b_minimum",
    "b_accepted",
    "b_in_flight",
    "b_reserve",
    "b_fee",
    "b_least",
    "b_greatest",
];

// A line needs these texts and numbers, and may have those numbers.
fn names(
    texts: &'static [&'static str],
    numbers: &'static [&'static str],
    optional: &'static [&'static str],
) -> Names<'static> {
    Names {
        texts,
        numbers,
        optional,
    }
}

// What an end is told.
fn names_of_command(word: &str) -> Option<Names<'static>> {
    match word {
        "add" => Some(names(&["end"], &["amount", "expiry", "preimage"], &["origin"])),
        "fulfil" => Some(names(&["end"], &["id", "preimage"], &[])),
        "fail" => Some(names(&["end"], &["id", "length"], &[])),
        "malformed" => Some(names(&["end"], &["id", "code"], &[])),
        "fee" => Some(names(&["end"], &["rate"], &[])),
        "shutdown" => Some(names(&["end"], &["length", "byte"], &[])),
        "decide" | "resume" => Some(names(&["end", "mark"], &["event"], &[])),
        "forget" => Some(names(&["end"], &["id"], &[])),
        "confirm" | "sign" => Some(names(&["end"], &[], &[])),
        _ => None,
    }
}

/// The names of a line of this word; None of a word that is none.
pub fn names_of(word: &str) -> Option<Names<'static>> {
    match word {
        "new" | "made" | "ready" => Some(names(&[], &[], &CHANNEL)),
        "give" | "store" => Some(names(&["end", "bytes"], &[], &[])),
        "fails" => Some(names(&["end", "record"], &["after"], &[])),
        "again"
        | "deliver"
        | "pass"
        | "front"
        | "connect"
        | "up"
        | "drop"
        | "halt"
        | "load"
        | "record"
        | "ledger"
        | "shape"
        | "stand"
        | "pending" => Some(names(&["end"], &[], &[])),
        word => names_of_command(word),
    }
}
