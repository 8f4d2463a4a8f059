//! What a dispatcher reads of its channel end.

ghost use Rattle.std.specs.Prelude.{◌≡◌, IfOk, IfErr, option_copied};
ghost use Rattle.ln_refusals.specs.declared.refusal.Refusal.TheVariants as refusal;
ghost use Rattle.ln_log.specs.Log.{first_of, updates_of, update_at};
ghost use Rattle.ln_channel.specs.Pending.{event_in, named_by};
ghost use Rattle.ln_world_channels.specs.World.{channel};
ghost use Rattle.ln_world_dispatch.specs.World.{item, undecided, saved_in, undecided_of, decided_of};

use ln_channel::Channel as ChannelEnd;
use ln_hooks::{ChannelEvent, event_of};
use ln_keys::{ChannelKeys, Role};
use ln_log::{EventRef, Side, UpdateLog};
use ln_refusals::Refusal;
use ln_world_channels::World as Channels;
use std::alloc::Global;

// The event of the update of this number of a side, where there is one.
fn event_at(
    alloc: Global,
    log: &UpdateLog,
    side: Side,
    own: bool,
    number: u64,
) -> Result<Option<ChannelEvent>, Refusal>
    ensures event { IfOk result (λ e. e ≡ event_in own (update_at (first_of side log.now) (updates_of side log.now)
        number)) }
    ensures fails_for_memory_alone { IfErr result (λ r. r ≡ refusal.Memory) }
{
    match log.update(side, number as usize) {
        None => Ok(None),
        Some(update) => event_of(alloc, own, update),
    }
}

// The event that an entry of the ledger names.
fn event_named(
    alloc: Global,
    end: &ChannelEnd,
    entry: EventRef,
) -> Result<Option<ChannelEvent>, Refusal>
    ensures event { IfOk result (λ e. e ≡ named_by entry end.now) }
    ensures fails_for_memory_alone { IfErr result (λ r. r ≡ refusal.Memory) }
{
    match entry {
        EventRef::Own(number) => event_at(alloc, end.dance().log(), Side::Own, true, number),
        EventRef::Peer(number) => event_at(alloc, end.dance().log(), Side::Peer, false, number),
        EventRef::Close => match end.closing().closed {
            None => Ok(None),
            Some(fee) => Ok(Some(ChannelEvent::Closed(fee))),
        },
    }
}

// The entry of this number, where there is one.
fn entry_at(entries: &[EventRef], number: u64) -> Option<EventRef>
    ensures { result ≡ item number entries.now }
{
    if number >= entries.len() as u64 {
        return None;
    }
    Some(entries[number as usize])
}

/// The event of this number, of those that an end hasn't decided. Takes memory for it: 60 where there is none.
pub fn undecided(
    alloc: Global,
    end: &ChannelEnd,
    number: u64,
) -> Result<Option<ChannelEvent>, Refusal>
    ensures event { IfOk result (λ e. e ≡ undecided number end.now) }
    ensures fails_for_memory_alone { IfErr result (λ r. r ≡ refusal.Memory) }
{
    let decided = end.ledger().decided();
    if number < decided {
        return Ok(None);
    }
    match entry_at(end.ledger().undecided(), number - decided) {
        None => Ok(None),
        Some(entry) => event_named(alloc, end, entry),
    }
}

/// The end of this side of the channel with this number, where both have signed its opening.
pub(crate) fn saved_end<K: ChannelKeys + Copy>(
    channels: &Channels<K>,
    number: u8,
    side: Role,
) -> Option<&ChannelEnd>
    ensures { option_copied result ≡ saved_in side (channel number channels.now.channels) }
{
    match channels.channel(number) {
        None => None,
        Some(channel) => channel.place(side).link().saved(),
    }
}

/// The event of this number, of those that the end of this side of a channel hasn't decided. Takes memory for it: 60
/// where there is none.
pub(crate) fn undecided_in<K: ChannelKeys + Copy>(
    alloc: Global,
    channels: &Channels<K>,
    number: u8,
    side: Role,
    event: u64,
) -> Result<Option<ChannelEvent>, Refusal>
    ensures event { IfOk result (λ e. e ≡ undecided_of event
        (saved_in side (channel number channels.now.channels))) }
    ensures fails_for_memory_alone { IfErr result (λ r. r ≡ refusal.Memory) }
{
    match saved_end(channels, number, side) {
        None => Ok(None),
        Some(end) => undecided(alloc, end, event),
    }
}

/// How many events the end of this side of a channel has decided.
pub(crate) fn decided_in<K: ChannelKeys + Copy>(
    channels: &Channels<K>,
    number: u8,
    side: Role,
) -> u64
    ensures { result ≡ decided_of (saved_in side (channel number channels.now.channels)) }
{
    match saved_end(channels, number, side) {
        None => 0,
        Some(end) => end.ledger().decided(),
    }
}
