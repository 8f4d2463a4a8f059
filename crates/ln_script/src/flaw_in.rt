//! What is wrong with a script's bad line.

ghost use Rattle.std.specs.Prelude.{◌≡◌, IfOk};
ghost use Rattle.ln_script.specs.Flaw.{line_of, bad_line_in};
ghost use Rattle.ln_script.specs.Step.{texts};

use crate::bad_line::{BadLine, bad_line};
use crate::reading::{lines_of, words_of};
use std::alloc::{AllocError, Global};

/// The line of this number, counted from 1.
fn line_of<'a>(number: u64, lines: &[&'a str]) -> &'a str
    ensures { result.now ≡ line_of number (texts lines.now) }
{
    match lines.get(number.saturating_sub(1) as usize) {
        Some(line) => line,
        None => "",
    }
}

/// What is wrong with the line of this number, counted from 1, which isn't one of a script. Takes memory for the places
/// of the lines in the text, and for a word.
#[tactic(auto, unfolding(crate::specs::Flaw::bad_line_in))]
pub(crate) fn bad_line_in(alloc: Global, text: &str, number: u64) -> Result<BadLine, AllocError>
    ensures { IfOk result (λ b. b ≡ bad_line_in text.now number) }
{
    let lines = lines_of(alloc, text)?;
    let words = words_of(alloc, line_of(number, lines.as_slice()))?;
    bad_line(alloc, number, words.as_slice())
}
