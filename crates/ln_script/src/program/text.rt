//! Messages in hexadecimal as text.

ghost use Rattle.std.specs.Prelude.{◌≡◌, ◌⊎◌, MatchResult, Ok, Err, string_bytes};
ghost use Rattle.ln_refusals.specs.declared.refusal.Refusal.TheVariants.{Memory};
ghost use Rattle.ln_script.specs.Text.{decoded};

use crate::program::program_error::ProgramError;
use hex::FromHexError;
use ln_msgs::decode;
use ln_refusals::Refusal;
use ln_text::message_text;
use std::alloc::Global;

/// What a message in hexadecimal says (`ln_text::message_text`). Takes memory for the bytes and the text.
///
/// A text that isn't hexadecimal, or has an odd count of digits, is `NotHex`. A message that can't be read is
/// refused by its first fault (`ln_msgs::decode`), 60 where there is no memory.
pub fn decode_text(alloc: Global, text: &str) -> Result<String, ProgramError>
    ensures { MatchResult result (λ s. decoded text.now ≡ Ok (string_bytes s)) (λ e. (e ≡ ProgramError.Refused Memory)
        ⊎ (decoded text.now ≡ Err e)) }
{
    let bytes = match hex::decode(alloc, text) {
        Ok(bytes) => bytes,
        Err(FromHexError::OutOfMemory) => return Err(ProgramError::Refused(Refusal::Memory)),
        Err(_) => return Err(ProgramError::NotHex),
    };
    let incoming = match decode(alloc, &bytes) {
        Ok(incoming) => incoming,
        Err(fault) => return Err(ProgramError::Refused(Refusal::from(fault))),
    };
    Ok(message_text(alloc, &incoming)?)
}
