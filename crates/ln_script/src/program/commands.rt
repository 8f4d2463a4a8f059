//! What each command does, over any reader and writer.

ghost use Rattle.std.specs.Prelude.{◌≡◌, ◌⊎◌, ◌+◌, ℕ, Err, OnOk, OnErr, IfOk, IfErr, IfSome};
ghost use Rattle.ln_refusals.specs.declared.refusal.Refusal.TheVariants.{Memory, Io};
ghost use Rattle.ln_msgs.specs.Pings.Counted.{HasRisen};
ghost use Rattle.ln_msgs.specs.Pings.CountedView.{inner_of, failures_of, calls_of};
ghost use Rattle.ln_script.specs.Hook.{SaysOf};
ghost use Rattle.ln_script.specs.Script.{script_at, script_hooks};
ghost use Rattle.ln_script.specs.Report.{ReportsScript, ReportsScriptPartly};
ghost use Rattle.ln_script.specs.Printed.{Prints, PrintsPartly};
ghost use Rattle.ln_script.specs.Text.{decoded};
ghost use Rattle.ln_script.specs.Done.{Simulates, SimulatesPartly, Does, DoesPartly, StopsBy, HasFailed};
ghost use Rattle.ln_script.specs.Done.{told_refusal, IsOfScript, IsBadText, AreNoScript};

use crate::flaw_in::bad_line_in;
use crate::print::print_all;
use crate::program::choice::Choice;
use crate::program::input::{read_all, script_text};
use crate::program::program_error::ProgramError;
use crate::program::text::decode_text;
use crate::reading::hook_lines;
use crate::running::report_script;
use ln_msgs::{Counted, answer_pings};
use ln_refusals::Refusal;
use std::alloc::Global;
use std::io::{Read, Write};

/// Answers the pings of its input (`ln_msgs::answer_pings`), and stops at the first message that can't be read.
fn answer<R: Read, W: Write>(
    alloc: Global,
    reader: &mut Counted<R>,
    writer: &mut Counted<W>,
) -> Result<(), ProgramError>
    ensures does_it { OnOk result (Does (R.remaining (inner_of reader.old)) (R.remaining (inner_of reader.new))
        (W.contents (inner_of writer.old)) (W.contents (inner_of writer.new)) Choice.Answer) }
    ensures front { OnErr result (DoesPartly (R.remaining (inner_of reader.old)) (R.remaining (inner_of reader.new))
        (W.contents (inner_of writer.old)) (W.contents (inner_of writer.new)) Choice.Answer) }
    ensures cause { IfErr result (StopsBy (R.remaining (inner_of reader.old)) (R.remaining (inner_of reader.new))
        (W.contents (inner_of writer.old)) (W.contents (inner_of writer.new))
        (HasFailed (failures_of reader.old) (failures_of reader.new) (failures_of writer.old) (failures_of writer.new)
        (calls_of reader.new + calls_of writer.new)) Choice.Answer) }
{
    match answer_pings(alloc, reader, writer) {
        Ok(_) => Ok(()),
        Err(fault) => Err(ProgramError::Refused(Refusal::from(fault))),
    }
}

/// Prints what a message in hexadecimal says (`decode_text`).
///
/// Errors: those of `decode_text`, and then nothing was written; 63 where a call of the writer fails.
fn print_decoded<W: Write>(
    alloc: Global,
    hex: &str,
    writer: &mut Counted<W>,
) -> Result<(), ProgramError>
    ensures prints_it { OnOk result (Prints (W.contents (inner_of writer.old)) (W.contents (inner_of writer.new))
        (decoded hex.now)) }
    ensures front { OnErr result (PrintsPartly (W.contents (inner_of writer.old)) (W.contents (inner_of writer.new))
        (decoded hex.now)) }
    ensures cause { IfErr result (λ f. (f ≡ ProgramError.Refused Memory)
        ⊎ ((f ≡ ProgramError.Refused Io) × HasRisen (failures_of writer.old) (failures_of writer.new))
        ⊎ (decoded hex.now ≡ Err f)) }
{
    let text = decode_text(alloc, hex)?;
    print_all(writer, text.as_str())?;
    Ok(())
}

/// What is told of a script that is refused: of a bad line what is wrong with it. 60 where there is no memory for that.
fn error_of(alloc: Global, text: &str, refusal: Refusal) -> ProgramError
    ensures { (result ≡ ProgramError.Refused Memory) ⊎ (result ≡ told_refusal text.now refusal) }
{
    match refusal {
        Refusal::BadScript { line } => match bad_line_in(alloc, text, line) {
            Ok(bad) => ProgramError::BadLine(bad),
            Err(error) => ProgramError::from(error),
        },
        _ => ProgramError::Refused(refusal),
    }
}

/// Runs a script with the hooks that its lines ask for, and writes its report (`report_script`).
fn simulate_text<W: Write>(
    alloc: Global,
    text: &str,
    writer: &mut Counted<W>,
) -> Result<(), ProgramError>
    ensures prints_it { OnOk result (ReportsScript SaysOf (script_hooks text.now) (script_at text.now)
        (W.contents (inner_of writer.old)) (W.contents (inner_of writer.new))) }
    ensures front { OnErr result (ReportsScriptPartly SaysOf (script_hooks text.now) (script_at text.now)
        (W.contents (inner_of writer.old)) (W.contents (inner_of writer.new))) }
    ensures cause { IfErr result (λ f. (f ≡ ProgramError.Refused Memory)
        ⊎ ((f ≡ ProgramError.Refused Io) × HasRisen (failures_of writer.old) (failures_of writer.new))
        ⊎ IsBadText text.now f) }
{
    let hooks = hook_lines(alloc, text)?;
    match report_script(alloc, text, hooks, writer) {
        Ok(()) => Ok(()),
        Err(refusal) => Err(error_of(alloc, text, refusal)),
    }
}

/// Runs the script that these bytes are, and writes its report (`report_script`). `NotText` where they aren't UTF-8.
fn simulate_bytes<W: Write>(
    alloc: Global,
    bytes: &[u8],
    writer: &mut Counted<W>,
) -> Result<(), ProgramError>
    ensures prints_it { OnOk result (Simulates (W.contents (inner_of writer.old)) (W.contents (inner_of writer.new))
        bytes.now) }
    ensures front { OnErr result (SimulatesPartly (W.contents (inner_of writer.old)) (W.contents (inner_of writer.new))
        bytes.now) }
    ensures cause { IfErr result (λ f. (f ≡ ProgramError.Refused Memory)
        ⊎ ((f ≡ ProgramError.Refused Io) × HasRisen (failures_of writer.old) (failures_of writer.new))
        ⊎ AreNoScript bytes.now f) }
{
    let text = script_text(bytes)?;
    simulate_text(alloc, text, writer)?;
    Ok(())
}

/// Runs the script that its input is, once all of it is read.
fn simulate_input<R: Read, W: Write>(
    alloc: Global,
    reader: &mut Counted<R>,
    writer: &mut Counted<W>,
) -> Result<(), ProgramError>
    ensures prints_it { OnOk result (IfSome (R.remaining (inner_of reader.old)) (λ bytes.
        Simulates (W.contents (inner_of writer.old)) (W.contents (inner_of writer.new)) bytes)) }
    ensures front { OnErr result (IfSome (R.remaining (inner_of reader.old)) (λ bytes.
        SimulatesPartly (W.contents (inner_of writer.old)) (W.contents (inner_of writer.new)) bytes)) }
    ensures cause { IfErr result (λ f. (f ≡ ProgramError.Refused Memory)
        ⊎ ((f ≡ ProgramError.Refused Io) × (HasRisen (failures_of reader.old) (failures_of reader.new)
        ⊎ HasRisen (failures_of writer.old) (failures_of writer.new)))
        ⊎ (IsOfScript f × IfSome (R.remaining (inner_of reader.old)) (λ bytes. AreNoScript bytes f))) }
{
    let bytes = read_all(alloc, reader)?;
    simulate_bytes(alloc, bytes.as_slice(), writer)
}

/// Does what a command is for, and flushes what it has written. Takes memory.
///
/// Errors: those of `ln_msgs::answer_pings`, `decode_text` and `report_script` by the number of the refusal, a script's
/// bad line with what is wrong with it; 63 also where a script can't be read. 63 comes only where a call of the reader
/// or the writer failed, or after 2^64 - 1 of them. What was written by then is a beginning.
pub fn perform<R: Read, W: Write>(
    alloc: Global,
    choice: Choice,
    reader: &mut Counted<R>,
    writer: &mut Counted<W>,
) -> Result<(), ProgramError>
    ensures does_it { OnOk result (Does (R.remaining (inner_of reader.old)) (R.remaining (inner_of reader.new))
        (W.contents (inner_of writer.old)) (W.contents (inner_of writer.new)) choice) }
    ensures front { OnErr result (DoesPartly (R.remaining (inner_of reader.old)) (R.remaining (inner_of reader.new))
        (W.contents (inner_of writer.old)) (W.contents (inner_of writer.new)) choice) }
    ensures cause { IfErr result (StopsBy (R.remaining (inner_of reader.old)) (R.remaining (inner_of reader.new))
        (W.contents (inner_of writer.old)) (W.contents (inner_of writer.new))
        (HasFailed (failures_of reader.old) (failures_of reader.new) (failures_of writer.old) (failures_of writer.new)
        (calls_of reader.new + calls_of writer.new)) choice) }
{
    match choice {
        Choice::Answer => answer(alloc, reader, writer),
        Choice::Decode(hex) => print_decoded(alloc, hex.as_str(), writer),
        Choice::Simulate => simulate_input(alloc, reader, writer),
    }
}
