//! The words of a line, and the values that they give names.

ghost use Rattle.std.specs.Prelude.{◌≡◌, option_map, IfOk};
ghost use Rattle.std.specs.Option.{unwrap_or};
ghost use Rattle.ln_named_lines.specs.Words.{texts, words, text, part_texts, parts_at, gives, value_at, with_digit};
ghost use Rattle.ln_named_lines.specs.Words.{digits_after, number_in, number_at};

use std::alloc::{AllocError, Global};

/// The words of a line: what stands between spaces. Takes memory for the list, not for the words.
pub fn words_of(alloc: Global, line: &str) -> Result<Vec<&str>, AllocError>
    ensures { IfOk result (λ v. texts v.items ≡ words line.now) }
{
    line.split(' ').collect(alloc)
}

/// The name and the value of a word NAME=VALUE: what stands before the first `=`, and after it.
pub(crate) fn parts_of(word: &str) -> Option<(&str, &str)>
    ensures { option_map part_texts result ≡ parts_at word.now }
{
    word.split_once('=')
}

/// Whether a word gives this name a value.
pub(crate) fn gives(name: &str, word: &str) -> bool
    ensures { result ≡ gives name.now word.now }
{
    match parts_of(word) {
        Some((other, _)) => other == name,
        None => false,
    }
}

/// The value that words give a name, the first of them that do. Takes no memory.
pub fn value_of<'a>(words: &[&'a str], name: &str) -> Option<&'a str>
    ensures { option_map text result ≡ value_at name.now (texts words.now) }
{
    match words {
        [] => None,
        [word, rest @ ..] => match parts_of(word) {
            Some((other, value)) if other == name => Some(value),
            _ => value_of(rest, name),
        },
    }
}

/// A number with one more decimal digit, below 2^64.
fn with_digit(front: u64, digit: u8) -> Option<u64>
    ensures { result ≡ with_digit front digit }
{
    if digit < b'0' || digit > b'9' {
        return None;
    }
    front.checked_mul(10)?.checked_add(u64::from(digit - b'0'))
}

/// A number with these decimal digits after its own.
fn digits_after(front: u64, digits: &[u8]) -> Option<u64>
    ensures { result ≡ digits_after front digits.now }
{
    match digits {
        [] => Some(front),
        [digit, rest @ ..] => digits_after(with_digit(front, *digit)?, rest),
    }
}

/// The number of a value: one decimal digit or more, below 2^64. Takes no memory.
pub fn number_in(value: &str) -> Option<u64>
    ensures { result ≡ number_in value.now }
{
    match value.as_bytes() {
        [] => None,
        digits => digits_after(0, digits),
    }
}

/// The number that words give a name; none where they give it no value, or another one than decimal digits of a number
/// below 2^64. Takes no memory.
pub fn number_of(words: &[&str], name: &str) -> Option<u64>
    ensures { result ≡ number_at name.now (texts words.now) }
{
    number_in(value_of(words, name)?)
}

/// The same, and this one where they give none. Takes no memory.
pub fn number_or(words: &[&str], name: &str, other: u64) -> u64
    ensures { result ≡ unwrap_or (number_at name.now (texts words.now)) other }
{
    number_of(words, name).unwrap_or(other)
}
