//! A line that isn't one of a script.

ghost use Rattle.std.specs.Prelude.{◌≡◌, IfOk};
ghost use Rattle.ln_script.specs.Flaw.{bad_line};
ghost use Rattle.ln_script.specs.Step.{texts};

use crate::flaw::{Flaw, Flawed, flaw_of};
use crate::word_text::WordText;
use std::alloc::{AllocError, Global};
use std::fmt;
use std::fmt::{Display, Formatter};

/// A line that isn't one of a script.
#[derive(Debug, Drop)]
pub struct BadLine {
    /// Its number, counted from 1.
    pub line: u64,
    /// What is wrong with it.
    pub flaw: Flaw,
    /// The word that has the flaw; empty where no word alone has it.
    pub word: WordText,
}

impl Display for BadLine {
    ghost use Rattle.std.specs.Prelude.{Some};
    ghost use Rattle.ln_script.specs.Flaw.{bad_line_text};

    ghost output = { λ b. Some (bad_line_text b) };

    fn fmt<W: fmt::Write>(&self, f: &mut Formatter<W>) -> fmt::Result {
        let flawed = Flawed {
            flaw: self.flaw,
            word: self.word.as_str(),
        };
        write!(f, "line {}: {flawed} (refused 64 BadScript)", self.line)
    }
}

/// What is told of a line of these words, which isn't one of a script.
pub(crate) fn bad_line(alloc: Global, line: u64, words: &[&str]) -> Result<BadLine, AllocError>
    ensures { IfOk result (λ b. b ≡ bad_line line (texts words.now)) }
{
    let flawed = flaw_of(words);
    let word = String::from_str(alloc, flawed.word)?;
    Ok(BadLine {
        line,
        flaw: flawed.flaw,
        word: WordText::new(word),
    })
}
