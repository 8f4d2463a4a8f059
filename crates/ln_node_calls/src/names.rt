//! The lines, and the names that each gives a value.

use ln_named_lines::Names;

/// What is counted of an end, by its gauge (gauge.rt of ln_tests_ends); what its summary and its node's counters tell
/// (watch.rt there); and what row.rt counts.
pub const COUNTS: [&str; 41] = [
    "added",
    "came",
    "paid",
    "fulfilled",
    "failed",
    "code",
    "closed",
    "behind",
    "loaded",
    "limited",
    "took-adds",
    "sent-adds",
    "saved-some",
    "noticed-some",
    "lost-some",
    "balance",
    "peer-balance",
    "reserve",
    "peer-reserve",
    "block",
    "commitments",
    "unsigned",
    "live",
    "offered",
    "committed",
    "forwards",
    "fails",
    "fulfils",
    "holds",
    "adds-taken",
    "adds-sent",
    "readies-taken",
    "opens-sent",
    "saves",
    "loads",
    "usable",
    "held",
    "hooks",
    "denied",
    "lost",
    "signed",
];

// A line needs these texts and numbers, and may have those numbers.
fn names(
    texts: &'static [&'static str],
    numbers: &'static [&'static str],
    optional: &'static [&'static str],
) -> Names<'static> {
    Names {
        texts,
        numbers,
        optional,
    }
}

// What payers and payees do.
fn names_of_payments(verb: &str) -> Option<Names<'static>> {
    match verb {
        "pay" => Some(names(&["payer"], &["preimage"], &["short_msat", "unasked"])),
        "send" => Some(names(
            &["payer", "payee"],
            &["preimage"],
            &["short_msat", "unasked"],
        )),
        "ask" => Some(names(&["payer"], &["preimage"], &["id", "refused"])),
        "payments" => Some(names(&["payer"], &["preimage", "count"], &[])),
        "expect" => Some(names(&["payee"], &["preimage"], &[])),
        _ => None,
    }
}

// What an end is told, and what is done to it.
fn names_of_acts(verb: &str) -> Option<Names<'static>> {
    match verb {
        "says" => Some(names(&["end", "verdict"], &[], &[])),
        "order" => Some(names(&["end", "command"], &[], &["id", "refused"])),
        "resume" => Some(names(&["end"], &["held"], &[])),
        "fee" => Some(names(&["end"], &["rate"], &[])),
        "close" => Some(names(&["end", "script"], &[], &[])),
        "stranger" => Some(names(&["end", "bytes"], &[], &[])),
        "lose" => Some(names(&["end", "way"], &["message"], &[])),
        "burn" => Some(names(&["end", "record"], &["save"], &[])),
        "spoil" => Some(names(&["end", "record"], &[], &[])),
        "deny" => Some(names(&["end"], &["loads"], &[])),
        "cut" | "part" | "join" | "shut" | "bury" | "fill" | "hook" | "skips" => {
            Some(names(&["end"], &[], &[]))
        }
        verb => names_of_payments(verb),
    }
}

// What is so of an end.
fn names_of_ends(verb: &str) -> Option<Names<'static>> {
    match verb {
        "wait" | "comes" | "tells" | "most" => Some(names(&["end"], &[], &COUNTS)),
        "shows" => Some(names(&["end", "state"], &[], &[])),
        "hears" => Some(names(&["end", "notice"], &[], &["number"])),
        "took" => Some(names(&["end", "script"], &[], &[])),
        "offers" => Some(names(&["end"], &["feature"], &[])),
        "silent" => Some(names(&["end"], &[], &[])),
        verb => names_of_acts(verb),
    }
}

/// The names of a line of this verb, which may be of an end or of payments; None of a word that is no verb.
pub fn names_of(verb: &str) -> Option<Names<'static>> {
    match verb {
        "meet" | "confirm" | "open" | "fourth" | "stop" => Some(names(&[], &[], &[])),
        "listen" => Some(names(&[], &["accepted"], &[])),
        "wants" => Some(names(&[], &["feature"], &[])),
        "looks" | "rests" => Some(names(&[], &["count"], &[])),
        "signing" => Some(names(&["when"], &[], &[])),
        "restart" | "lists" => Some(names(&["node"], &[], &[])),
        "trace" => Some(names(&["node"], &["steps"], &[])),
        "alone" => Some(names(&["node"], &["channel"], &["refused"])),
        "summary" | "reconnect" => Some(names(&["node"], &["channel", "refused"], &[])),
        "lacks" => Some(names(&["node"], &["channel", "order"], &[])),
        verb => names_of_ends(verb),
    }
}
