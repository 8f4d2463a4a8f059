//! The ids of a channel's HTLCs in a book.

ghost use Rattle.std.specs.Prelude.{◌≡◌, IfOk, IfErr};
ghost use Rattle.ln_book_tables.specs.Ids.{id_in, ids_in};
ghost use Rattle.ln_book_tables.specs.Slots.{in_slots};

use crate::htlc::Htlc;
use ln_log::ChannelId;
use ln_refusals::Refusal;
use std::alloc::Global;

// That of the HTLC of a slot, where it is the channel's.
fn id_in(slot: &Option<Htlc>, channel: &ChannelId) -> Option<u64>
    ensures { result ≡ id_in channel.now slot.now }
{
    match slot {
        Some(htlc) if channel == &htlc.key.channel => Some(htlc.key.id),
        Some(_) | None => None,
    }
}

/// Those of the channel's HTLCs in these slots. Error: 60 alone.
pub(crate) fn ids_in(
    alloc: Global,
    slots: &[Option<Htlc>],
    channel: &ChannelId,
) -> Result<Vec<u64>, Refusal>
    ensures ids { IfOk result (λ v. v.items ≡ ids_in channel.now (in_slots slots.now)) }
    ensures fails_for_memory_alone { IfErr result (λ r. r ≡ Refusal.Memory) }
{
    let mut ids = Vec::new(alloc);
    for slot in slots {
        match id_in(slot, channel) {
            None => {}
            Some(id) => ids.push(id)?,
        }
    }
    Ok(ids)
}
