//! The lines, and the names that each gives a value.

use ln_named_lines::Names;

// What is wrong with an HTLC's onion, whether its hop is the final one, and the records of its payload.
const ONION: [&str; 7] = [
    "fault",
    "final",
    "forward_amount",
    "forward_expiry",
    "short_id",
    "secret",
    "total",
];

// The same, whether the HTLC is an own one, and what the hooks say of it.
const DECIDED: [&str; 9] = [
    "fault",
    "final",
    "forward_amount",
    "forward_expiry",
    "short_id",
    "secret",
    "total",
    "own",
    "verdict",
];

// A line needs these numbers, and may have those.
fn numbers(numbers: &'static [&'static str], optional: &'static [&'static str]) -> Names<'static> {
    Names {
        texts: &[],
        numbers,
        optional,
    }
}

// It needs a text beside.
fn with_text(texts: &'static [&'static str], numbers: &'static [&'static str]) -> Names<'static> {
    Names {
        texts,
        numbers,
        optional: &[],
    }
}

// What is set.
fn names_of_settings(word: &str) -> Option<Names<'static>> {
    let needed: &'static [&'static str] = match word {
        "route" => &[
            "short_id",
            "channel",
            "base",
            "proportional",
            "delta",
            "minimum",
        ],
        "use" => &["channel", "takes"],
        "height" => &["blocks"],
        "expect" => &["preimage", "secret", "amount"],
        "hooks" => &["verdict"],
        _ => return None,
    };
    Some(numbers(needed, &[]))
}

// What is asked of the book many times over.
fn names_of_many(word: &str) -> Option<Names<'static>> {
    match word {
        "decides" => Some(numbers(
            &["channel", "count", "amount", "preimage", "expiry"],
            &DECIDED,
        )),
        "resumes" => Some(numbers(&["channel", "count"], &["verdict"])),
        "drain" => Some(numbers(&["channel"], &[])),
        "holding" => Some(numbers(&[], &[])),
        word => names_of_settings(word),
    }
}

// What is asked of the book.
fn names_of_calls(word: &str) -> Option<Names<'static>> {
    match word {
        "decide" => Some(numbers(
            &["channel", "event", "id", "amount", "preimage", "expiry"],
            &DECIDED,
        )),
        "resume" => Some(numbers(&["channel", "event"], &["verdict"])),
        "settled" => Some(numbers(
            &["channel", "own", "id"],
            &["fulfilled", "failed", "malformed"],
        )),
        "answered" => Some(numbers(&["channel"], &["id", "refused"])),
        "dropped" => Some(with_text(&["removals"], &["channel", "next_id", "decided"])),
        "payments" => Some(numbers(&["count", "waiting"], &[])),
        "held" | "rebuild" => Some(numbers(&[], &[])),
        "take" | "usable" => Some(numbers(&["channel"], &[])),
        word => names_of_many(word),
    }
}

/// The names of a line of this word, which may be of the ends of channels; None of a word that is none.
pub fn names_of(word: &str) -> Option<Names<'static>> {
    match word {
        "open" | "up" | "down" | "obey" | "settle" => Some(numbers(&["channel"], &[])),
        "offer" => Some(numbers(&["channel", "amount", "preimage", "expiry"], &ONION)),
        "pay" => Some(numbers(&["channel", "id", "preimage"], &[])),
        "opens" => Some(numbers(&["count"], &[])),
        "sign" => Some(with_text(&["by"], &["channel"])),
        "restart" => Some(numbers(&[], &[])),
        word => names_of_calls(word),
    }
}
