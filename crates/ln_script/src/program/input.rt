//! All of an input, and the text that it is.

ghost use Rattle.std.specs.Prelude.{◌≡◌, ◌≤◌, ◌<◌, ◌⊎◌, ◌^◌, length, Ok, true, false, OnOk, IfOk, IfErr, IfSome};
ghost use Rattle.std.specs.Str.{is_utf8};
ghost use Rattle.std.specs.Io.KnownBytes.{Keeps, IsAtEnd, prepend_known};
ghost use Rattle.ln_refusals.specs.declared.refusal.Refusal.TheVariants.{Memory, Io};
ghost use Rattle.ln_msgs.specs.Pings.Counted.{HasRisen};
ghost use Rattle.ln_msgs.specs.Pings.CountedView.{inner_of, failures_of};

use crate::program::program_error::ProgramError;
use ln_msgs::Counted;
use ln_refusals::Refusal;
use std::alloc::Global;
use std::io::Read;

/// How many bytes are read at once at most.
const PIECE: usize = 16_384;

/// Reads once; what was read joins the bytes before. False at the end of the input. 60 where there is no memory, 63
/// where the read fails.
fn read_piece<R: Read>(reader: &mut Counted<R>, bytes: &mut Vec<u8>) -> Result<bool, Refusal>
    ensures loses_no_byte { OnOk result (Keeps (prepend_known bytes.old.items (R.remaining (inner_of reader.old)))
        (prepend_known bytes.new.items (R.remaining (inner_of reader.new)))) }
    ensures false_is_the_end { result ≡ Ok false → IsAtEnd (R.remaining (inner_of reader.new)) }
    ensures true_is_more { result ≡ Ok true → (length bytes.old.items < length bytes.new.items)
        × (length bytes.new.items < 2 ^ 64) }
    ensures fails_with_a_failed_call { IfErr result (λ e. (e ≡ Memory)
        ⊎ ((e ≡ Io) × HasRisen (failures_of reader.old) (failures_of reader.new))) }
    ensures no_fewer_failures { failures_of reader.old ≤ failures_of reader.new }
{
    let mut piece = [0; PIECE];
    match reader.read(&mut piece) {
        Ok(count) => {
            bytes.extend_from_slice(&piece[..count])?;
            // (a list in memory has fewer than 2^64 bytes)
            let _ = bytes.len();
            Ok(count > 0)
        }
        Err(_) => Err(Refusal::Io),
    }
}

/// All of an input. Takes memory for its bytes.
///
/// Errors: 60 where there is no memory, 63 where a read fails.
pub fn read_all<R: Read>(alloc: Global, reader: &mut Counted<R>) -> Result<Vec<u8>, Refusal>
    ensures reads_all { IfOk result (λ bytes. IfSome (R.remaining (inner_of reader.old)) (λ all. bytes.items ≡ all)) }
    ensures fails_with_a_failed_call { IfErr result (λ e. (e ≡ Memory)
        ⊎ ((e ≡ Io) × HasRisen (failures_of reader.old) (failures_of reader.new))) }
{
    let mut bytes = Vec::new(alloc);
    'reads: while read_piece(reader, &mut bytes)? {}
    Ok(bytes)
}

/// The text of a script: its bytes, where they are UTF-8. `NotText` where they aren't.
pub(crate) fn script_text(bytes: &[u8]) -> Result<&str, ProgramError>
    ensures gives_the_bytes { IfOk result (λ text. (is_utf8 bytes.now ≡ true) × (text.now ≡ bytes.now)) }
    ensures refused { IfErr result (λ f. (is_utf8 bytes.now ≡ false) × (f ≡ ProgramError.NotText)) }
{
    match str::from_utf8(bytes) {
        Ok(text) => Ok(text),
        Err(_) => Err(ProgramError::NotText),
    }
}
