//! A word as a text, which contracts see as its bytes.

use std::marker::Model;

/// A word of a script.
#[derive(Debug, Drop)]
pub struct WordText {
    text: String,
}

impl Model for WordText {
    ghost use Rattle.std.specs.Prelude.{List, ℕ, string_bytes};

    ghost Value = { List ℕ };

    ghost view = { λ w. string_bytes w.text };
}

impl WordText {
    ghost use Rattle.std.specs.Prelude.{◌≡◌, string_bytes};

    /// This text.
    pub fn new(text: String) -> WordText
        ensures { result ≡ string_bytes text }
    {
        WordText { text }
    }

    /// Its text.
    pub fn as_str(&self) -> &str
        ensures { result.now ≡ self.now }
    {
        self.text.as_str()
    }
}
