//! What nodes tell of their channels: as gauges count it, and as lines ask for it.

use crate::words::BAD;
use ln_node::{Notice, Step};
use ln_refusals::Refusal;
use ln_tests_ends::Gauge;
use std::alloc::AllocError;

/// What an end has noted and no line has asked for yet, by the end's number.
pub type News = Vec<(usize, Notice)>;

// Whether a message's text is that of `update_add_htlc`.
fn is_add(text: &str) -> bool {
    text.starts_with("type 128 ")
}

/// What has become of an end.
pub fn count_notice(gauge: &Gauge, notice: Notice) {
    match notice {
        Notice::Loaded => gauge.at_load(),
        Notice::Refused(refusal) if refusal.number() == 44 => gauge.at_limit(),
        _ => {}
    }
}

/// A step of it was traced.
pub fn count_step(gauge: &Gauge, step: &Step) {
    match step {
        Step::Took(text) if is_add(text) => gauge.at_add_taken(),
        Step::Sent(text) if is_add(text) => gauge.at_add_sent(),
        Step::Saved(bytes, Ok(())) if *bytes > 0 => gauge.at_save(),
        Step::Noticed(_) => gauge.at_notice(),
        _ => {}
    }
}

/// The word for a notice, and its number: of a fault, a refusal or an event; else 0.
fn told(notice: Notice) -> (&'static str, u64) {
    match notice {
        Notice::Ended(Ok(())) => ("ended", 0),
        Notice::Ended(Err(fault)) => ("ended", u64::from(fault.number())),
        Notice::NoInit => ("no-init", 0),
        Notice::Met => ("met", 0),
        Notice::Refused(refusal) => ("refused", u64::from(refusal.number())),
        Notice::OrderRefused(_, refusal) => ("order", u64::from(refusal.number())),
        Notice::Halted => ("halted", 0),
        Notice::Loaded => ("loaded", 0),
        Notice::Held(number) => ("held", number),
    }
}

/// Whether a notice is that of this word and this number, of this order where it is about one.
pub fn is_told_so(notice: Notice, word: &str, number: u64, order: u64) -> bool {
    let (its_word, its_number) = told(notice);
    let is_its_order = match notice {
        Notice::OrderRefused(its_order, _) => its_order == order,
        _ => true,
    };
    its_word == word && its_number == number && is_its_order
}

/// Whether a word is that of a connection's end, which its reader notes; 64 where it is none of a notice.
pub fn is_of_reader(word: &str) -> Result<bool, Refusal> {
    match word {
        "ended" => Ok(true),
        "no-init" | "met" | "refused" | "order" | "halted" | "loaded" | "held" => Ok(false),
        _ => Err(BAD),
    }
}

// Where the first notice of an end stands that its reader has noted, or another thread of its channel.
fn place_of(news: &[(usize, Notice)], end: usize, of_reader: bool) -> Option<usize> {
    for place in 0..news.len() {
        let (of, notice) = news[place];
        if of == end && matches!(notice, Notice::Ended(_)) == of_reader {
            return Some(place);
        }
    }
    None
}

/// Takes it out.
pub fn take_next(news: &mut News, end: usize, of_reader: bool) -> Option<Notice> {
    let place = place_of(news.as_slice(), end, of_reader)?;
    if place >= news.len() {
        return None;
    }
    let (_, notice) = news.remove(place);
    Some(notice)
}

/// Whether an end has noted nothing more.
pub fn is_silent(news: &[(usize, Notice)], end: usize) -> bool {
    place_of(news, end, true).is_none() && place_of(news, end, false).is_none()
}

/// A message that an end was handed, as it was traced: the end's number, and its text.
pub type Taken = (usize, String);

// The text of a traced step, where it took `shutdown`.
fn shutdown_in(step: Step) -> Option<String> {
    match step {
        Step::Took(text) => {
            if text.starts_with("type 38 ") {
                return Some(text);
            }
            drop(text);
            None
        }
        other => {
            drop(other);
            None
        }
    }
}

/// Keeps what was traced of an end, where it is `shutdown`.
pub fn keep_shutdown(kept: &mut Vec<Taken>, end: usize, step: Step) -> Result<(), AllocError> {
    match shutdown_in(step) {
        Some(text) => Ok(kept.push((end, text))?),
        None => Ok(()),
    }
}

// Whether the text of a `shutdown` tells this script, in hexadecimal: it is the last field.
fn tells(text: &str, script: &str) -> bool {
    let Some((_, rest)) = text.split_once("script ") else {
        return false;
    };
    match rest.strip_prefix(script) {
        Some(rest) => rest == "\n",
        None => false,
    }
}

/// Whether the first `shutdown` that an end was handed tells this script; none where it was handed none.
pub fn tells_script(kept: &[Taken], end: usize, script: &str) -> Option<bool> {
    let taken = first_of(kept, end)?;
    Some(tells(taken.1.as_str(), script))
}

fn first_of(kept: &[Taken], end: usize) -> Option<&Taken> {
    for taken in kept {
        if taken.0 == end {
            return Some(taken);
        }
    }
    None
}
