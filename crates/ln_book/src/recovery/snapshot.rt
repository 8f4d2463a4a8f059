//! What a book takes from the end of a channel as its node starts.

ghost use Rattle.std.specs.Prelude.{◌≡◌, ◌++◌, IfOk, IfErr, OnOk, option_copied};
ghost use Rattle.ln_log.specs.Updates.{add_with, offered};
ghost use Rattle.ln_book.specs.Kept.{own_updates};
ghost use Rattle.ln_book.specs.Rebuild.{peer_window, peer_updates, held_updates, leg_of, legs_offered, how_of};
ghost use Rattle.ln_book.specs.Rebuild.{leg_resolved, legs_resolved, incoming_in, htlc_by, decided_by};
ghost use Rattle.ln_book.specs.Rebuild.{decided_in};

use crate::recovery::channel::{has_own_removal, own_window};
use crate::recovery::leg::{ChannelSnapshot, Leg, NO_EVENT};
use ln_book_tables::{Htlc, IncomingLeg, Key, Offer, OutgoingLeg};
use ln_channel::Channel;
use ln_hooks::How;
use ln_log::{
    Add, ChannelId, Decision, Mark, Outcome, Pair, Settlement, Side, Update, UpdateLog, add_of,
    find_add, outcome_of,
};
use ln_refusals::Refusal;
use std::alloc::Global;

// The peer's updates after the base.
fn peer_window(log: &UpdateLog) -> &[Update]
    ensures { result.now ≡ peer_window log.now }
{
    let first = log.first(Side::Peer);
    log.between(Side::Peer, first, log.counts(Pair::ToAccept).peer)
}

// The peer's HTLC of this id, where it is live in the base or was offered after it.
#[tactic(auto, using(crate::proofs::Lists::found_before, crate::proofs::Lists::found_behind))]
fn peer_add(id: u64, log: &UpdateLog) -> Option<&Add>
    ensures { option_copied result ≡ add_with id (peer_updates log.now) }
{
    match find_add(id, log.live(Side::Peer)) {
        None => find_add(id, peer_window(log)),
        Some(add) => Some(add),
    }
}

// The own ones that are held as irrevocably committed.
fn held_updates(log: &UpdateLog) -> &[Update]
    ensures { result.now ≡ held_updates log.now }
{
    let first = log.first(Side::Own);
    log.between(Side::Own, first, log.counts(Pair::Current(Side::Own)).own)
}

// The HTLC that an own add forwards, if any, and where it goes.
fn leg_of(channel: &ChannelId, add: Option<&Add>) -> Option<Leg>
    ensures { result ≡ leg_of channel.now (option_copied add.entry) }
{
    let add = add?;
    let (from, id) = add.origin?;
    let origin = Key { channel: from, id };
    let outgoing = OutgoingLeg::Offered(Key {
        channel: *channel,
        id: add.id,
    });
    Some(Leg { origin, outgoing })
}

// Adds those of own updates. Error: 60 alone.
fn add_legs(legs: &mut Vec<Leg>, channel: &ChannelId, updates: &[Update]) -> Result<(), Refusal>
    ensures added { OnOk result (legs.new.items ≡ legs.old.items ++ legs_offered channel.now updates.now) }
    ensures fails_for_memory_alone { IfErr result (λ r. r ≡ Refusal.Memory) }
{
    for update in updates {
        match leg_of(channel, add_of(update)) {
            None => {}
            Some(leg) => legs.push(leg)?,
        }
    }
    Ok(())
}

// Those of all own updates that the end has. Error: 60 alone.
#[tactic(auto, using(crate::proofs::Lists::legs_append))]
fn legs_offered(alloc: Global, channel: &ChannelId, log: &UpdateLog) -> Result<Vec<Leg>, Refusal>
    ensures legs { IfOk result (λ v. v.items ≡ legs_offered channel.now (own_updates log.now)) }
    ensures fails_for_memory_alone { IfErr result (λ r. r ≡ Refusal.Memory) }
{
    let mut legs = Vec::new(alloc);
    add_legs(&mut legs, channel, log.live(Side::Own))?;
    add_legs(&mut legs, channel, own_window(log))?;
    Ok(legs)
}

// How an update removes an HTLC. Error: 60 alone.
fn how_of(update: &Update) -> Result<Option<How>, Refusal>
    ensures how { IfOk result (λ h. h ≡ how_of update.now) }
    ensures fails_for_memory_alone { IfErr result (λ r. r ≡ Refusal.Memory) }
{
    match update {
        Update::Add(_) => Ok(None),
        Update::Fulfil(fulfil) => Ok(Some(How::Fulfilled(fulfil.preimage))),
        Update::Fail(fail) => Ok(Some(How::Failed(fail.reason.clone()?))),
        Update::Malformed(malformed) => Ok(Some(How::Malformed(
            malformed.sha256_of_onion,
            malformed.failure_code,
        ))),
        Update::Fee(_) => Ok(None),
    }
}

// What has become of an own HTLC that forwards another one.
fn leg_resolved(channel: &ChannelId, settlement: &Settlement, how: Option<How>) -> Option<Leg>
    ensures { result ≡ leg_resolved channel.now settlement.now how }
{
    let how = how?;
    let (from, id) = settlement.origin;
    let origin = Key { channel: from, id };
    let key = Key {
        channel: *channel,
        id: settlement.id,
    };
    let outgoing = OutgoingLeg::Resolved(key, how);
    Some(Leg { origin, outgoing })
}

// Of all results. Error: 60 alone.
fn legs_resolved(
    alloc: Global,
    channel: &ChannelId,
    results: &[Settlement],
) -> Result<Vec<Leg>, Refusal>
    ensures legs { IfOk result (λ v. v.items ≡ legs_resolved channel.now results.now) }
    ensures fails_for_memory_alone { IfErr result (λ r. r ≡ Refusal.Memory) }
{
    let mut legs = Vec::new(alloc);
    for settlement in results {
        let how = how_of(&settlement.removal)?;
        match leg_resolved(channel, settlement, how) {
            None => {}
            Some(leg) => legs.push(leg)?,
        }
    }
    Ok(legs)
}

// How far the own removal of a peer's HTLC is.
fn incoming_in(id: u64, log: &UpdateLog) -> IncomingLeg
    ensures { result ≡ incoming_in id log.now }
{
    if outcome_of(id, held_updates(log)) != Outcome::Live {
        return IncomingLeg::Settled;
    }
    if has_own_removal(id, log) {
        return IncomingLeg::RemovalSent;
    }
    IncomingLeg::Open
}

// A peer's HTLC that was decided so.
fn htlc_by(channel: &ChannelId, mark: Mark, incoming: IncomingLeg, add: &Add) -> Htlc
    ensures { result ≡ htlc_by channel.now mark incoming add.now }
{
    let offer = Offer {
        id: add.id,
        amount: add.amount,
        hash: add.hash,
        expiry: add.expiry,
        onion: add.onion,
    };
    Htlc {
        key: Key {
            channel: *channel,
            id: add.id,
        },
        event: NO_EVENT,
        offer,
        mark,
        decided: true,
        outgoing: OutgoingLeg::Absent,
        incoming,
    }
}

// The HTLC of a decision, where the end has its add. Error: 60 alone.
fn decided_by(
    channel: &ChannelId,
    log: &UpdateLog,
    decision: &Decision,
) -> Result<Option<Htlc>, Refusal>
    ensures htlc { IfOk result (λ h. h ≡ decided_by channel.now decision.now.mark (incoming_in decision.now.id log.now)
        (add_with decision.now.id (peer_updates log.now))) }
    ensures fails_for_memory_alone { IfErr result (λ r. r ≡ Refusal.Memory) }
{
    let Some(add) = peer_add(decision.id, log) else {
        return Ok(None);
    };
    let mark = decision.mark.clone()?;
    let incoming = incoming_in(decision.id, log);
    Ok(Some(htlc_by(channel, mark, incoming, add)))
}

// The HTLCs of all decisions. Error: 60 alone.
fn decided_in(
    alloc: Global,
    channel: &ChannelId,
    log: &UpdateLog,
    decisions: &[Decision],
) -> Result<Vec<Htlc>, Refusal>
    ensures htlcs { IfOk result (λ v. v.items ≡ decided_in channel.now log.now decisions.now) }
    ensures fails_for_memory_alone { IfErr result (λ r. r ≡ Refusal.Memory) }
{
    let mut htlcs = Vec::new(alloc);
    for decision in decisions {
        match decided_by(channel, log, decision)? {
            None => {}
            Some(htlc) => htlcs.push(htlc)?,
        }
    }
    Ok(htlcs)
}

impl ChannelSnapshot {
    ghost use Rattle.std.specs.Prelude.{◌≡◌, IfOk, IfErr};
    ghost use Rattle.ln_book.specs.Rebuild.{channel_snapshot_of};

    /// What the end of a channel has of HTLCs that are forwarded, failed or taken: its own adds that forward others,
    /// those that are live in its base and those after it; what became of such adds; and the peer's HTLCs that it has
    /// decided, each with whether an own removal of it stands in its lists, and whether that is irrevocably committed
    /// (BOLT 2, "Forwarding HTLCs"). A decision has left with its HTLC once the removal is in the base. Takes memory.
    /// Error: 60 alone.
    pub fn of(alloc: Global, channel: &Channel) -> Result<ChannelSnapshot, Refusal>
        ensures reads_the_end { IfOk result (λ r. r ≡ channel_snapshot_of channel.now) }
        ensures fails_for_memory_alone { IfErr result (λ r. r ≡ Refusal.Memory) }
    {
        let id = channel.id();
        let log = channel.dance().log();
        let ledger = channel.ledger();
        Ok(ChannelSnapshot {
            offered: legs_offered(alloc, &id, log)?,
            results: legs_resolved(alloc, &id, ledger.results())?,
            decided: decided_in(alloc, &id, log, ledger.decisions())?,
        })
    }
}
