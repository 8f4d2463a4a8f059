//! Text to a writer.

ghost use Rattle.std.specs.Prelude.{◌≡◌, OnOk, IfErr};
ghost use Rattle.std.specs.Io.KnownBytes.{Appends};
ghost use Rattle.ln_refusals.specs.declared.refusal.Refusal.TheVariants.{Io};
ghost use Rattle.ln_msgs.specs.Pings.Counted.{HasRisen};
ghost use Rattle.ln_msgs.specs.Pings.CountedView.{inner_of, failures_of, calls_of};
ghost use Rattle.ln_msgs.specs.Pings.Written.{IsPartlyWritten};

use ln_msgs::{Counted, write_out};
use ln_refusals::Refusal;
use std::io::Write;

/// Writes all of a text and flushes the writer. Takes no memory. No writer's contract tells what was flushed; that the
/// writer is called at Ok, also for a text of no bytes, is what a clause can say of the flush.
///
/// The only error is 63, where a call of the writer fails; what was written by then is a beginning of the text.
pub fn print_all<W: Write>(writer: &mut Counted<W>, text: &str) -> Result<(), Refusal>
    ensures prints_it { OnOk result (Appends (W.contents (inner_of writer.old)) (W.contents (inner_of writer.new))
        text.now) }
    ensures front { IsPartlyWritten (W.contents (inner_of writer.old)) (W.contents (inner_of writer.new)) text.now }
    ensures cause { IfErr result (λ e. (e ≡ Io) × HasRisen (failures_of writer.old) (failures_of writer.new)) }
    ensures makes_a_call { OnOk result (HasRisen (calls_of writer.old) (calls_of writer.new)) }
{
    write_out(text.as_bytes(), writer)?;
    match writer.flush() {
        Ok(()) => Ok(()),
        Err(_) => Err(Refusal::Io),
    }
}
