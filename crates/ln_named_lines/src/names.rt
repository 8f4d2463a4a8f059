//! What a line has to give values, and the first fault of one that doesn't.

ghost use Rattle.std.specs.Prelude.{◌≡◌, option_map};
ghost use Rattle.std.specs.List.{list_any};
ghost use Rattle.ln_named_lines.specs.Words.{texts, gives};
ghost use Rattle.ln_named_lines.specs.Faults.{is_name, is_numeric, fault_of_parts, fault_of, first_fault, told};
ghost use Rattle.ln_named_lines.specs.Faults.{bad_word, missing_name};

use crate::fault::{FaultKind, LineFault};
use crate::words::{gives, number_in, parts_of};

/// The names that a line takes.
#[derive(Clone, Copy)]
pub struct Names<'a> {
    /// A line needs these. Their values are any text,
    pub texts: &'a [&'a str],
    /// and those of these are numbers.
    pub numbers: &'a [&'a str],
    /// It may leave these out; their values are numbers.
    pub optional: &'a [&'a str],
}

fn is_name(name: &str, names: &[&str]) -> bool
    ensures { result ≡ is_name name.now (texts names.now) }
{
    match names {
        [] => false,
        [other, rest @ ..] => *other == name || is_name(name, rest),
    }
}

fn is_given(name: &str, words: &[&str]) -> bool
    ensures { result ≡ list_any (gives name.now) (texts words.now) }
{
    match words {
        [] => false,
        [word, rest @ ..] => gives(name, word) || is_given(name, rest),
    }
}

/// Whether a name's value is to be a number.
fn is_numeric(names: &Names, name: &str) -> bool
    ensures { result ≡ is_numeric names.now name.now }
{
    is_name(name, names.numbers) || is_name(name, names.optional)
}

/// What is wrong with a name and its value, before these words.
fn fault_of_parts(names: &Names, name: &str, value: &str, rest: &[&str]) -> Option<FaultKind>
    ensures { result ≡ fault_of_parts names.now name.now value.now (texts rest.now) }
{
    let is_number = is_numeric(names, name);
    if !is_number && !is_name(name, names.texts) {
        return Some(FaultKind::UnknownName);
    }
    if is_given(name, rest) {
        return Some(FaultKind::DoubledName);
    }
    match number_in(value) {
        None if is_number => Some(FaultKind::NoNumber),
        _ => None,
    }
}

/// What is wrong with a word before these words.
fn fault_of(names: &Names, word: &str, rest: &[&str]) -> Option<FaultKind>
    ensures { result ≡ fault_of names.now word.now (texts rest.now) }
{
    match parts_of(word) {
        None => Some(FaultKind::NoName),
        Some((name, value)) => fault_of_parts(names, name, value, rest),
    }
}

/// The first word with which something is wrong.
fn bad_word<'a>(names: &Names, words: &[&'a str]) -> Option<LineFault<'a>>
    ensures { option_map told result ≡ bad_word names.now (texts words.now) }
{
    match words {
        [] => None,
        [word, rest @ ..] => match fault_of(names, word, rest) {
            Some(kind) => Some(LineFault { kind, word }),
            None => bad_word(names, rest),
        },
    }
}

/// The first of these names that no word gives a value.
fn missing_name<'a>(needed: &[&'a str], words: &[&str]) -> Option<LineFault<'a>>
    ensures { option_map told result ≡ missing_name (texts needed.now) (texts words.now) }
{
    match needed {
        [] => None,
        [name, rest @ ..] => {
            if is_given(name, words) {
                missing_name(rest, words)
            } else {
                Some(LineFault {
                    kind: FaultKind::MissingName,
                    word: name,
                })
            }
        }
    }
}

/// The first fault of the words after a line's first one: of the first word that has one, else the first missing name,
/// texts before numbers. None where each word is NAME=VALUE with a name of these, numbers are numbers, no name stands
/// twice and none that is needed is missing. Takes no memory.
pub fn first_fault<'a>(names: &Names<'a>, words: &[&'a str]) -> Option<LineFault<'a>>
    ensures { option_map told result ≡ first_fault names.now (texts words.now) }
{
    if let Some(fault) = bad_word(names, words) {
        return Some(fault);
    }
    if let Some(fault) = missing_name(names.texts, words) {
        return Some(fault);
    }
    missing_name(names.numbers, words)
}
