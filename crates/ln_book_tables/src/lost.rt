//! What a channel has lost is put back, after a lost connection or a load.

ghost use Rattle.std.specs.Prelude.{◌≡◌, map, Option};
ghost use Rattle.std.specs.Option.{option_map};
ghost use Rattle.ln_book_tables.specs.Replay.{is_outgoing_lost, incoming_kept, htlc_kept};

use crate::entry::{Ids, KeptState};
use crate::htlc::{Htlc, IncomingLeg, OutgoingLeg};
use ln_log::ChannelId;

impl Ids {
    ghost use Rattle.std.specs.Prelude.{◌≡◌};
    ghost use Rattle.ln_book_tables.specs.Replay.{is_among};

    // Whether this is one of them.
    fn has(&self, id: u64) -> bool
        ensures { result ≡ is_among id self.now }
    {
        self.as_slice().iter().any(|other| id == *other)
    }
}

// Whether a channel that has kept its HTLCs below this id has lost the outgoing HTLC.
fn is_outgoing_lost(channel: &ChannelId, next: u64, outgoing: &OutgoingLeg) -> bool
    ensures { result ≡ is_outgoing_lost channel.now next outgoing.now }
{
    match outgoing {
        OutgoingLeg::Absent | OutgoingLeg::Refused | OutgoingLeg::Resolved(_, _) => false,
        OutgoingLeg::Offered(key) => channel == &key.channel && next <= key.id,
    }
}

// The removal after that.
fn incoming_kept(kept: bool, incoming: IncomingLeg) -> IncomingLeg
    ensures { result ≡ incoming_kept kept incoming }
{
    match incoming {
        IncomingLeg::Open => IncomingLeg::Open,
        IncomingLeg::RemovalSent if !kept => IncomingLeg::Open,
        IncomingLeg::RemovalSent => IncomingLeg::RemovalSent,
        IncomingLeg::RemovalRefused => IncomingLeg::RemovalRefused,
        IncomingLeg::Settled => IncomingLeg::Settled,
    }
}

// What a channel has lost of an HTLC is put back.
fn put_incoming(htlc: &mut Htlc, channel: &ChannelId, told: &KeptState)
    ensures { htlc.new ≡ htlc_kept channel.now told.now htlc.old }
{
    let is_kept = channel != &htlc.key.channel || told.removes.has(htlc.key.id);
    htlc.incoming = incoming_kept(is_kept, htlc.incoming);
    if is_outgoing_lost(channel, told.next, &htlc.outgoing) {
        htlc.outgoing = OutgoingLeg::Absent;
    }
}

// What a channel has lost of the HTLC of a slot, if it holds one, is put back.
fn put_back(slot: &mut Option<Htlc>, channel: &ChannelId, told: &KeptState)
    ensures { slot.new ≡ option_map (htlc_kept channel.now told.now) slot.old }
{
    if let Some(htlc) = slot {
        put_incoming(htlc, channel, told);
    }
}

/// What a channel has lost of each HTLC is put back. Takes no memory.
pub(crate) fn put_back_all(slots: &mut Vec<Option<Htlc>>, channel: &ChannelId, told: &KeptState)
    ensures { slots.new.items ≡ map (option_map (htlc_kept channel.now told.now)) slots.old.items }
{
    for slot in slots.iter_mut() {
        put_back(slot, channel, told);
    }
}
