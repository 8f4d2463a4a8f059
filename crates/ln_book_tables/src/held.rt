//! What a book's channels hold.

ghost use Rattle.std.specs.Prelude.{◌≡◌, IfOk, IfErr};
ghost use Rattle.ln_book_tables.specs.Held.{number_in, held_of, held_among, held_in_slot};
ghost use Rattle.ln_book_tables.specs.Slots.{in_slots};

use crate::entry::Queued;
use crate::htlc::Htlc;
use crate::lists::is_any_resumed;
use ln_log::{ChannelId, Mark};
use ln_refusals::Refusal;
use std::alloc::Global;

/// An HTLC that a channel holds until it is resumed.
#[derive(Clone, Copy, PartialEq, Eq)]
pub struct HeldHtlc {
    /// The channel by which it came.
    pub channel: ChannelId,
    /// The number by which it is resumed: that of the event that told of it.
    pub number: u64,
    /// Its id among those that the peer has offered in the channel.
    pub id: u64,
    /// In millisatoshi.
    pub amount: u64,
    /// The payment hash.
    pub hash: [u8; 32],
    /// The block height at which it times out.
    pub expiry: u32,
}

/// The number by which a mark holds an HTLC.
pub(crate) fn number_in(mark: &Mark) -> Option<u64>
    ensures { result ≡ number_in mark.now }
{
    match mark {
        Mark::Held(number) => Some(*number),
        Mark::None | Mark::Forward { .. } | Mark::Fail(_) => None,
        Mark::Malformed(_) | Mark::Fulfil(_) => None,
    }
}

// An HTLC, where it is held and not being resumed.
fn held_of(queue: &[Queued], htlc: &Htlc) -> Option<HeldHtlc>
    ensures { result ≡ held_of queue.now htlc.now }
{
    let number = number_in(&htlc.mark)?;
    let channel = &htlc.key.channel;
    if !htlc.is_held_in(channel, number) || is_any_resumed(queue, channel, number) {
        return None;
    }
    Some(HeldHtlc {
        channel: htlc.key.channel,
        number,
        id: htlc.key.id,
        amount: htlc.offer.amount,
        hash: htlc.offer.hash,
        expiry: htlc.offer.expiry,
    })
}

// The HTLC of a slot, where it is held and not being resumed.
fn held_in_slot(queue: &[Queued], slot: &Option<Htlc>) -> Option<HeldHtlc>
    ensures { result ≡ held_in_slot queue.now slot.now }
{
    match slot {
        None => None,
        Some(htlc) => held_of(queue, htlc),
    }
}

/// Those of the HTLCs of these slots that are held and not being resumed. Error: 60 alone.
pub(crate) fn held_among(
    alloc: Global,
    queue: &[Queued],
    slots: &[Option<Htlc>],
) -> Result<Vec<HeldHtlc>, Refusal>
    ensures held { IfOk result (λ v. v.items ≡ held_among queue.now (in_slots slots.now)) }
    ensures fails_for_memory_alone { IfErr result (λ r. r ≡ Refusal.Memory) }
{
    let mut all = Vec::new(alloc);
    for slot in slots {
        match held_in_slot(queue, slot) {
            None => {}
            Some(held) => all.push(held)?,
        }
    }
    Ok(all)
}
