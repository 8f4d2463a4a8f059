//! What is wrong with a line that isn't one of a script.

ghost use Rattle.std.specs.Prelude.{◌≡◌, option_map, option_copied};
ghost use Rattle.ln_script.specs.Flaw.{mark_before, told, wrong, too_many, missing, flaw_among, route_flaw, add_flaw};
ghost use Rattle.ln_script.specs.Flaw.{wanted_flaw, round_flaw, words_flaw, last_flaw, flaw_at};
ghost use Rattle.ln_script.specs.Step.{texts};

use crate::want::{Want, is_wanted};
use crate::wants::{act_wants, line_wants};
use std::fmt;
use std::fmt::{Display, Formatter};

/// What is wrong with a line.
#[derive(Clone, Copy, PartialEq, Eq, Debug)]
pub enum Flaw {
    /// A word isn't what is to stand in its place.
    NoSuch(Want),
    /// The line ends where this is to stand.
    Missing(Want),
    /// Nothing is to stand in a word's place.
    TooMany,
    /// Two blanks stand side by side, or one at an end of the line.
    Blank,
    /// The first fee is below the least or above the greatest.
    Fees,
    /// The payloads of the hops have no room in an onion.
    Route,
}

/// What is wrong, and with which word; the word is empty where no word alone has the flaw.
#[derive(Clone, Copy)]
pub(crate) struct Flawed<'a> {
    pub flaw: Flaw,
    pub word: &'a str,
}

impl Display for Flaw {
    ghost use Rattle.std.specs.Prelude.{Some};
    ghost use Rattle.ln_script.specs.Flaw.{flaw_text};

    ghost output = { λ f. Some (flaw_text f) };

    fn fmt<W: fmt::Write>(&self, f: &mut Formatter<W>) -> fmt::Result {
        match self {
            Flaw::NoSuch(want) => write!(f, "no such {}", want.name()),
            Flaw::Missing(want) => write!(f, "missing {}", want.name()),
            Flaw::TooMany => write!(f, "one word too many"),
            Flaw::Blank => write!(f, "a blank too many"),
            Flaw::Fees => write!(f, "fees out of order"),
            Flaw::Route => write!(f, "no room in an onion"),
        }
    }
}

/// What stands before the word: nothing where there is none.
fn mark_before(word: &str) -> &'static str
    ensures { result.now ≡ mark_before word.now }
{
    match word {
        "" => "",
        _ => ": ",
    }
}

impl<'a> Display for Flawed<'a> {
    ghost use Rattle.std.specs.Prelude.{Some};
    ghost use Rattle.ln_script.specs.Flaw.{told, told_text};

    ghost output = { λ f. Some (told_text (told f)) };

    fn fmt<W: fmt::Write>(&self, f: &mut Formatter<W>) -> fmt::Result {
        let Flawed { flaw, word } = *self;
        let mark = mark_before(word);
        write!(f, "{flaw}{mark}{word}")
    }
}

/// A word that isn't what is to stand there.
fn wrong<'a>(want: Want, word: &'a str) -> Flawed<'a>
    ensures { told result ≡ wrong want word.now }
{
    match word {
        "" => Flawed {
            flaw: Flaw::Blank,
            word,
        },
        _ => Flawed {
            flaw: Flaw::NoSuch(want),
            word,
        },
    }
}

/// A word where nothing is to stand.
fn too_many<'a>(word: &'a str) -> Flawed<'a>
    ensures { told result ≡ too_many word.now }
{
    match word {
        "" => Flawed {
            flaw: Flaw::Blank,
            word,
        },
        _ => Flawed {
            flaw: Flaw::TooMany,
            word,
        },
    }
}

/// A place where a word is to stand.
fn missing<'a>(want: Want) -> Flawed<'a>
    ensures { told result ≡ missing want }
{
    Flawed {
        flaw: Flaw::Missing(want),
        word: "",
    }
}

/// The first flaw of words that are to be these.
fn flaw_among<'a>(wants: &[Want], words: &[&'a str]) -> Option<Flawed<'a>>
    ensures { option_map told result ≡ flaw_among wants.now (texts words.now) }
{
    match (wants, words) {
        ([], []) => None,
        ([], [word, ..]) => Some(too_many(word)),
        ([want, ..], []) => Some(missing(*want)),
        ([want, wants @ ..], [word, words @ ..]) => {
            if is_wanted(*want, word) {
                flaw_among(wants, words)
            } else {
                Some(wrong(*want, word))
            }
        }
    }
}

/// The first flaw of the words of hops.
fn route_flaw<'a>(words: &[&'a str]) -> Option<Flawed<'a>>
    ensures { option_map told result ≡ route_flaw (texts words.now) }
{
    let hop = [Want::ShortId, Want::Number64, Want::Number32];
    let mut rest = words;
    'hops: while let [id, amount, expiry, more @ ..] = rest {
        let flaw = flaw_among(&hop, &[*id, *amount, *expiry]);
        if flaw.is_some() {
            return flaw;
        }
        rest = more;
    }
    match rest {
        [] => None,
        _ => flaw_among(&hop, rest),
    }
}

/// The first flaw of the words after `add`.
fn add_flaw<'a>(wants: &[Want], words: &[&'a str]) -> Option<Flawed<'a>>
    ensures { option_map told result ≡ add_flaw wants.now (texts words.now) }
{
    match words {
        [end, amount, expiry, payment, hops @ ..] => {
            match flaw_among(wants, &[*end, *amount, *expiry, *payment]) {
                Some(flawed) => Some(flawed),
                None => route_flaw(hops),
            }
        }
        _ => flaw_among(wants, words),
    }
}

/// The first flaw of a word and those after it, of which this is wanted.
fn wanted_flaw<'a>(
    kind: Want,
    word: &'a str,
    wants: Option<&[Want]>,
    words: &[&'a str],
) -> Option<Flawed<'a>>
    ensures { option_map told result ≡ wanted_flaw kind word.now (option_copied wants.entry) (texts words.now) }
{
    let Some(wants) = wants else {
        return Some(wrong(kind, word));
    };
    match word {
        "add" => add_flaw(wants, words),
        _ => flaw_among(wants, words),
    }
}

/// The first flaw of the words after `stop-before` and its like.
fn round_flaw<'a>(words: &[&'a str]) -> Option<Flawed<'a>>
    ensures { option_map told result ≡ round_flaw (texts words.now) }
{
    match words {
        [] => Some(missing(Want::Act)),
        [word, rest @ ..] => wanted_flaw(Want::Act, word, act_wants(word, rest), rest),
    }
}

/// The first flaw of a line's words.
#[tactic(auto, unfolding(crate::specs::Flaw::words_flaw))]
fn words_flaw<'a>(word: &'a str, words: &[&'a str]) -> Option<Flawed<'a>>
    ensures { option_map told result ≡ words_flaw word.now (texts words.now) }
{
    match word {
        "stop-before" => round_flaw(words),
        "stop-after" => round_flaw(words),
        "no-memory" => round_flaw(words),
        _ => wanted_flaw(Want::Command, word, line_wants(word, words), words),
    }
}

/// What is wrong with a line each of whose words may stand there.
fn last_flaw<'a>(word: &str) -> Flawed<'a>
    ensures { told result ≡ last_flaw word.now }
{
    match word {
        "set" => Flawed {
            flaw: Flaw::Fees,
            word: "",
        },
        _ => Flawed {
            flaw: Flaw::Route,
            word: "",
        },
    }
}

/// What is wrong with a line of these words that isn't one of a script.
pub(crate) fn flaw_of<'a>(words: &[&'a str]) -> Flawed<'a>
    ensures { told result ≡ flaw_at (texts words.now) }
{
    match words {
        [] => missing(Want::Command),
        [word, rest @ ..] => match words_flaw(word, rest) {
            Some(flawed) => flawed,
            None => last_flaw(word),
        },
    }
}
