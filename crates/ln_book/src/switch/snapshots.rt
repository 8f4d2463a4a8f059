//! What a book reads off an end as its node starts.

ghost use Rattle.std.specs.Prelude.{◌≡◌, ◌++◌, OnOk, IfErr, option_copied};
ghost use Rattle.ln_refusals.specs.declared.refusal.Refusal.TheVariants as refusal;
ghost use Rattle.ln_book.specs.Snapshots.{snapshot_by};

use crate::recovery::leg::ChannelSnapshot;
use ln_channel::Channel;
use ln_refusals::Refusal;
use std::alloc::Global;

/// Reads an end, where both have signed its opening, as the next of these. Takes memory. Error: 60 alone.
pub fn read_end(
    alloc: Global,
    end: Option<&Channel>,
    snapshots: &mut Vec<ChannelSnapshot>,
) -> Result<(), Refusal>
    ensures reads { OnOk result (snapshots.new.items ≡ snapshots.old.items ++ snapshot_by (option_copied end.entry)) }
    ensures fails_for_memory_alone { IfErr result (λ e. e ≡ refusal.Memory) }
{
    match end {
        None => Ok(()),
        Some(end) => {
            snapshots.push(ChannelSnapshot::of(alloc, end)?)?;
            Ok(())
        }
    }
}
