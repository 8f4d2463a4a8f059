//! What is logged of a save.

ghost use Rattle.std.specs.Prelude.{◌≡◌, option_map};
ghost use Rattle.ln_trace.specs.Saves.{error_text, save_level, save_words, save_error};

use crate::hex_id::HexId;
use ln_refusals::Refusal;
use log::Level;
use log::kv::{Error, Source, ToValue, VisitSource, display};

/// Debug; where the save was refused, warn.
pub(crate) fn save_level(answer: &Result<(), Refusal>) -> Level
    ensures { result ≡ save_level answer.now }
{
    match answer {
        Ok(()) => Level::Debug,
        Err(_) => Level::Warn,
    }
}

/// What came of it, in words.
pub(crate) fn save_words(answer: &Result<(), Refusal>) -> &'static str
    ensures { result.now ≡ save_words answer.now }
{
    match answer {
        Ok(()) => "saved",
        Err(_) => "save refused",
    }
}

/// The number of its refusal.
pub(crate) fn save_error(answer: &Result<(), Refusal>) -> Option<u16>
    ensures { option_map error_text result ≡ save_error answer.now }
{
    match answer {
        Ok(()) => None,
        Err(refusal) => Some(refusal.number()),
    }
}

/// A save of so many bytes that took so many microseconds, where that is known, and was answered so.
#[derive(Clone, Copy)]
pub(crate) struct Save {
    pub(crate) bytes: usize,
    pub(crate) micros: Option<u128>,
    pub(crate) answer: Result<(), Refusal>,
}

impl Source for Save {
    ghost use Rattle.std.specs.Prelude.{Some};
    ghost use Rattle.ln_trace.specs.Saves.{save_pairs};

    ghost pairs = { λ it. Some (save_pairs it.bytes it.micros it.answer) };

    fn visit<V: VisitSource>(&self, visitor: &mut V) -> Result<(), Error> {
        visitor.visit_pair("bytes", self.bytes.to_value())?;
        if let Some(micros) = self.micros {
            visitor.visit_pair("micros", micros.to_value())?;
        }
        if let Some(number) = save_error(&self.answer) {
            visitor.visit_pair("error", number.to_value())?;
        }
        Ok(())
    }
}

/// The key-values of a save of the record of a channel of this id.
#[derive(Clone, Copy)]
pub(crate) struct StorePairs<'a> {
    pub(crate) id: &'a [u8; 32],
    pub(crate) save: Save,
}

impl Source for StorePairs<'_> {
    ghost use Rattle.std.specs.Prelude.{Some};
    ghost use Rattle.ln_trace.specs.Saves.{store_pairs};

    ghost pairs = { λ it. Some (store_pairs it.id.now it.save.bytes it.save.micros it.save.answer) };

    fn visit<V: VisitSource>(&self, visitor: &mut V) -> Result<(), Error> {
        visitor.visit_pair("channel_id", display(HexId(self.id)).to_value())?;
        self.save.visit(visitor)
    }
}
