//! What may be wrong with a line.

ghost use Rattle.std.specs.Prelude.{◌≡◌, IfOk, string_bytes};
ghost use Rattle.ln_named_lines.specs.Faults.{kind_text, line_text, fault_text, told};

use std::alloc::{AllocError, Global};

/// What may be wrong with a word of a line, or with the line.
#[derive(Clone, Copy, PartialEq, Eq, Debug)]
pub enum FaultKind {
    /// A word that has no `=`.
    NoName,
    /// A name that the line doesn't take.
    UnknownName,
    /// A name that a later word gives a value, too.
    DoubledName,
    /// A value that isn't a decimal number below 2^64.
    NoNumber,
    /// The line needs this name, and no word gives it a value.
    MissingName,
}

/// What is wrong, and with which word; a missing name stands for its word.
#[derive(Clone, Copy)]
pub struct LineFault<'a> {
    pub kind: FaultKind,
    pub word: &'a str,
}

impl FaultKind {
    ghost use Rattle.ln_named_lines.specs.Faults.{kind_text};

    /// The kind in words.
    fn text(self) -> &'static str
        ensures { result.now ≡ kind_text self }
    {
        match self {
            FaultKind::NoName => "not NAME=VALUE",
            FaultKind::UnknownName => "unknown name",
            FaultKind::DoubledName => "doubled name",
            FaultKind::NoNumber => "no number",
            FaultKind::MissingName => "missing name",
        }
    }
}

#[tactic(auto, unfolding(crate::specs::Faults::line_text))]
fn line_text(alloc: Global, line: u64, kind: &str, word: &str) -> Result<String, AllocError>
    ensures { IfOk result (λ s. string_bytes s ≡ line_text line kind.now word.now) }
{
    format!(in alloc; "line {line}: {kind}: {word}")
}

impl<'a> LineFault<'a> {
    ghost use Rattle.ln_named_lines.specs.Faults.{fault_text, told};

    /// The fault of the line of this number in words: the number, the fault's kind and the word, with colons between.
    /// Takes memory for the text.
    pub fn text(&self, alloc: Global, line: u64) -> Result<String, AllocError>
        ensures { IfOk result (λ s. string_bytes s ≡ fault_text line (told self.now)) }
    {
        line_text(alloc, line, self.kind.text(), self.word)
    }
}
