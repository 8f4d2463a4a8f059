//! What a book begins with as its node starts.

ghost use Rattle.std.specs.Prelude.{◌≡◌, ◌++◌, OnOk, IfOk, IfErr, option_copied};
ghost use Rattle.std.specs.List.{find, list_any};
ghost use Rattle.ln_book_tables.specs.Replay.{is_htlc, is_over};
ghost use Rattle.ln_book.specs.Rebuild.{is_for, or_leg, result_for, offer_for, outgoing_for, may_go_out};
ghost use Rattle.ln_book.specs.Rebuild.{outgoing_read, led};
ghost use Rattle.ln_book.specs.Rebuild.{unfinished, all_unfinished, is_read, htlc_left, left, all_left};
ghost use Rattle.ln_book.specs.Rebuild.{rebuilt_htlcs};

use crate::recovery::leg::{ChannelSnapshot, Leg, NO_EVENT};
use ln_book_tables::{Htlc, IncomingLeg, Key, Offer, OutgoingLeg};
use ln_log::Mark;
use ln_refusals::Refusal;
use std::alloc::Global;

// The first that forwards this HTLC.
fn leg_among<'a>(key: &Key, legs: &'a [Leg]) -> Option<&'a Leg>
    ensures { option_copied result ≡ find (is_for key.now) legs.now }
{
    legs.iter().find(|leg| key.is(&leg.origin))
}

// What became of the own HTLC that forwards this one.
fn result_for<'a>(key: &Key, snapshots: &'a [ChannelSnapshot]) -> Option<&'a Leg>
    ensures { option_copied result ≡ result_for key.now snapshots.now }
{
    for snapshot in snapshots {
        match leg_among(key, snapshot.results()) {
            None => {}
            Some(leg) => return Some(leg),
        }
    }
    None
}

// The own add that forwards it.
fn offer_for<'a>(key: &Key, snapshots: &'a [ChannelSnapshot]) -> Option<&'a Leg>
    ensures { option_copied result ≡ offer_for key.now snapshots.now }
{
    for snapshot in snapshots {
        match leg_among(key, snapshot.offered()) {
            None => {}
            Some(leg) => return Some(leg),
        }
    }
    None
}

// The one by which it goes.
fn leg_for<'a>(key: &Key, snapshots: &'a [ChannelSnapshot]) -> Option<&'a Leg>
    ensures { option_copied result ≡ or_leg (result_for key.now snapshots.now) (offer_for key.now snapshots.now) }
{
    match result_for(key, snapshots) {
        None => offer_for(key, snapshots),
        Some(leg) => Some(leg),
    }
}

// Where a leg's HTLC goes. Error: 60 alone.
fn outgoing_of(leg: &Leg) -> Result<OutgoingLeg, Refusal>
    ensures outgoing { IfOk result (λ w. w ≡ leg.now.outgoing) }
    ensures fails_for_memory_alone { IfErr result (λ r. r ≡ Refusal.Memory) }
{
    Ok(leg.outgoing.clone()?)
}

// Where an HTLC goes. Error: 60 alone.
fn outgoing_for(key: &Key, snapshots: &[ChannelSnapshot]) -> Result<OutgoingLeg, Refusal>
    ensures outgoing { IfOk result (λ w. w ≡ outgoing_for key.now snapshots.now) }
    ensures fails_for_memory_alone { IfErr result (λ r. r ≡ Refusal.Memory) }
{
    match leg_for(key, snapshots) {
        None => Ok(OutgoingLeg::Absent),
        Some(leg) => outgoing_of(leg),
    }
}

// Whether it is to be forwarded, or may be, once it is resumed.
fn may_go_out(mark: &Mark) -> bool
    ensures { result ≡ may_go_out mark.now }
{
    match mark {
        Mark::Forward { .. } | Mark::Held(_) => true,
        Mark::None | Mark::Fail(_) | Mark::Malformed(_) | Mark::Fulfil(_) => false,
    }
}

// Such a one that has a removal and goes nowhere was refused, or removed while it was held.
fn outgoing_read(mark: &Mark, incoming: IncomingLeg, outgoing: OutgoingLeg) -> OutgoingLeg
    ensures { result ≡ outgoing_read mark.now incoming outgoing }
{
    match outgoing {
        OutgoingLeg::Absent if may_go_out(mark) && incoming != IncomingLeg::Open =>
            OutgoingLeg::Refused,
        outgoing => outgoing,
    }
}

// An HTLC with where it goes. Error: 60 alone.
fn led(htlc: &Htlc, snapshots: &[ChannelSnapshot]) -> Result<Htlc, Refusal>
    ensures htlc { IfOk result (λ h. h ≡ led snapshots.now htlc.now) }
    ensures fails_for_memory_alone { IfErr result (λ r. r ≡ Refusal.Memory) }
{
    let mark = htlc.mark.clone()?;
    let outgoing = outgoing_for(&htlc.key, snapshots)?;
    let outgoing = outgoing_read(&htlc.mark, htlc.incoming, outgoing);
    Ok(Htlc {
        key: htlc.key,
        event: htlc.event,
        offer: htlc.offer,
        mark,
        decided: htlc.decided,
        outgoing,
        incoming: htlc.incoming,
    })
}

// Whether nothing is left to be done.
fn is_over(htlc: &Htlc) -> bool
    ensures { result ≡ is_over htlc.now }
{
    htlc.incoming.is_settled() && htlc.outgoing.is_none() && !htlc.mark.is_held()
}

// Adds those of these HTLCs that aren't finished. Error: 60 alone.
fn add_unfinished(
    htlcs: &mut Vec<Htlc>,
    decided: &[Htlc],
    all: &[ChannelSnapshot],
) -> Result<(), Refusal>
    ensures added { OnOk result (htlcs.new.items ≡ htlcs.old.items ++ unfinished all.now decided.now) }
    ensures fails_for_memory_alone { IfErr result (λ r. r ≡ Refusal.Memory) }
{
    for htlc in decided {
        let htlc = led(htlc, all)?;
        if !is_over(&htlc) {
            htlcs.push(htlc)?;
        }
    }
    Ok(())
}

// Those of all channels. Error: 60 alone.
fn add_all_unfinished(htlcs: &mut Vec<Htlc>, all: &[ChannelSnapshot]) -> Result<(), Refusal>
    ensures added { OnOk result (htlcs.new.items ≡ htlcs.old.items ++ all_unfinished all.now all.now) }
    ensures fails_for_memory_alone { IfErr result (λ r. r ≡ Refusal.Memory) }
{
    for snapshot in all {
        add_unfinished(htlcs, snapshot.decided(), all)?;
    }
    Ok(())
}

// Whether this HTLC is among these.
fn is_among(key: &Key, htlcs: &[Htlc]) -> bool
    ensures { result ≡ list_any (is_htlc key.now) htlcs.now }
{
    htlcs.iter().any(|htlc| key.is(&htlc.key))
}

// Whether a channel has its decision.
fn is_read(key: &Key, snapshots: &[ChannelSnapshot]) -> bool
    ensures { result ≡ is_read key.now snapshots.now }
{
    for snapshot in snapshots {
        if is_among(key, snapshot.decided()) {
            return true;
        }
    }
    false
}

// What is left of an HTLC whose decision is gone, until the result is forgotten. Error: 60 alone.
fn htlc_left(leg: &Leg) -> Result<Htlc, Refusal>
    ensures htlc { IfOk result (λ h. h ≡ htlc_left leg.now) }
    ensures fails_for_memory_alone { IfErr result (λ r. r ≡ Refusal.Memory) }
{
    let outgoing = outgoing_of(leg)?;
    let offer = Offer {
        id: leg.origin.id,
        amount: 0,
        hash: [0; 32],
        expiry: 0,
        onion: [0; 1366],
    };
    Ok(Htlc {
        key: leg.origin,
        event: NO_EVENT,
        offer,
        mark: Mark::Fulfil([0; 32]),
        decided: true,
        outgoing,
        incoming: IncomingLeg::Settled,
    })
}

// Adds what is left of these results. Error: 60 alone.
fn add_left(htlcs: &mut Vec<Htlc>, results: &[Leg], all: &[ChannelSnapshot]) -> Result<(), Refusal>
    ensures added { OnOk result (htlcs.new.items ≡ htlcs.old.items ++ left all.now results.now) }
    ensures fails_for_memory_alone { IfErr result (λ r. r ≡ Refusal.Memory) }
{
    for leg in results {
        if !is_read(&leg.origin, all) {
            htlcs.push(htlc_left(leg)?)?;
        }
    }
    Ok(())
}

// Of the results of all channels. Error: 60 alone.
fn add_all_left(htlcs: &mut Vec<Htlc>, all: &[ChannelSnapshot]) -> Result<(), Refusal>
    ensures added { OnOk result (htlcs.new.items ≡ htlcs.old.items ++ all_left all.now all.now) }
    ensures fails_for_memory_alone { IfErr result (λ r. r ≡ Refusal.Memory) }
{
    for snapshot in all {
        add_left(htlcs, snapshot.results(), all)?;
    }
    Ok(())
}

/// The HTLCs that a book begins with. Error: 60 alone.
pub fn rebuilt_htlcs(alloc: Global, snapshots: &[ChannelSnapshot]) -> Result<Vec<Htlc>, Refusal>
    ensures htlcs { IfOk result (λ v. v.items ≡ rebuilt_htlcs snapshots.now) }
    ensures fails_for_memory_alone { IfErr result (λ r. r ≡ Refusal.Memory) }
{
    let mut htlcs = Vec::new(alloc);
    add_all_unfinished(&mut htlcs, snapshots)?;
    add_all_left(&mut htlcs, snapshots)?;
    Ok(htlcs)
}
