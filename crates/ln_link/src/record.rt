//! The record of an end of a channel.

ghost use Rattle.std.specs.Prelude.{◌≡◌, ◌<◌, ◌^◌, ◌⊎◌, ◌++◌, IfOk, IfErr, IfSome, OnOk, map, option_map, true};
ghost use Rattle.ln_refusals.specs.declared.refusal.Refusal.TheVariants as refusal;
ghost use Rattle.ln_msgs.specs.Messages.Typed.{open_wire, accept_wire};
ghost use Rattle.std.specs.List.{filter_map};
ghost use Rattle.ln_log.specs.Log as logs;
ghost use Rattle.ln_log.specs.Log.{Log, after_drop, between};
ghost use Rattle.ln_log.specs.RecordForm.{record_form_of, IsRestorable};
ghost use Rattle.ln_log.specs.Updates.{offered};
ghost use Rattle.ln_channel.specs.Opening.{opening_of};
ghost use Rattle.ln_channel.specs.End as end;
ghost use Rattle.ln_channel.specs.End.{End, IsSound};
ghost use Rattle.ln_dance.specs.Dance as dancing;
ghost use Rattle.ln_dance.specs.Dance.{Dancer};
ghost use Rattle.ln_store.specs.Readable.{is_readable};
ghost use Rattle.ln_link.specs.Record.{flags_of, header_of, chain_place_of, agreement_of, by_roles, live_of};
ghost use Rattle.ln_link.specs.Record.{live_htlcs_of};
ghost use Rattle.ln_link.specs.Record.{base_of, window_of, covered_of, pairs_of, updates_of, events_of, forwards_of};
ghost use Rattle.ln_link.specs.Record.{fees_of, progress_of, commitments_of, items_of};
ghost use Rattle.ln_link.specs.Record.{HasNoAgreement, NoRecord};
ghost use Rattle.ln_link.specs.Loading.{IsSaid, HasRecord};

use crate::payload::{accept_payload, open_payload};
use ln_bytes::{Bytes, ShortId};
use ln_channel::{Channel, EventLedger, Terms};
use ln_close::Closing;
use ln_dance::Dance;
use ln_keys::Role;
use ln_log::{Counts, Decision, Limits, Opening, Pair, Settlement, Side, Update, UpdateLog};
use ln_refusals::Refusal;
use ln_store::{
    Agreement, Base, ChainPlace, ClosingFees, Commitments, Covered, Events, Flags, Forwards,
    Header, Items, LinkRecord, Listed, LiveHtlc, Pairs, Progress, Sides, Updates, Window,
    is_readable,
};
use std::alloc::Global;

fn flags_of(channel: &Channel) -> Flags
    ensures { (e : End) → end.StandsFor channel.now e → result ≡ flags_of e }
{
    let readiness = channel.readiness();
    let closing = channel.closing();
    Flags {
        ready_sent: readiness.ready_sent,
        ready_received: readiness.ready_received,
        shut_sent: closing.shut,
        shut_received: closing.peer_shut,
        later: channel.dance().later(),
    }
}

#[tactic(auto, unfolding(crate::specs::Record::header_of))]
fn header_of(failure: Option<Refusal>, channel: &Channel) -> Header
    ensures { (e : End) → end.StandsFor channel.now e → result ≡ header_of failure e }
{
    Header {
        channel: channel.id(),
        role: channel.closing().role,
        flags: flags_of(channel),
        failure,
    }
}

fn chain_place_of(id: Option<ShortId>) -> Option<ChainPlace>
    ensures place { result ≡ option_map chain_place_of id }
    ensures output_fits_16_bits { IfSome id (λ id. id.output < 2 ^ 16) }
{
    match id {
        None => None,
        Some(id) => Some(ChainPlace::new(id)),
    }
}

// Both scripts of a channel's terms, copied.
fn scripts_of(terms: &Terms) -> Result<(Bytes, Option<Bytes>), Refusal>
    ensures copies { IfOk result (λ s. (s.0 ≡ terms.now.script) × (s.1 ≡ terms.now.peer_script)) }
    ensures fails_for_memory_alone { IfErr result (λ r. r ≡ refusal.Memory) }
{
    Ok((terms.script.clone()?, terms.peer_script.clone()?))
}

#[tactic(auto, unfolding(crate::specs::Record::agreement_of, crate::specs::Record::HasNoAgreement))]
fn agreement_of(alloc: Global, channel: &Channel) -> Result<Agreement, Refusal>
    ensures agreement { (e : End) → end.StandsFor channel.now e → IfOk result (λ a. a ≡ agreement_of e) }
    ensures open_can_be_read { (e : End) → end.StandsFor channel.now e
        → OnOk result (IsSaid (open_wire e.terms.open_channel)) }
    ensures accept_can_be_read { (e : End) → end.StandsFor channel.now e
        → OnOk result (IsSaid (accept_wire e.terms.accept_channel)) }
    ensures output_fits_16_bits { (e : End) → end.StandsFor channel.now e
        → OnOk result (IfSome e.readiness.short_id (λ id. id.output < 2 ^ 16)) }
    ensures fails { (e : End) → end.StandsFor channel.now e
        → IfErr result (λ r. (r ≡ refusal.Memory) ⊎ ((r ≡ refusal.Damaged) × HasNoAgreement e)) }
{
    let terms = channel.terms();
    let (script, peer_script) = scripts_of(terms)?;
    Ok(Agreement {
        open_payload: open_payload(alloc, &terms.open_channel)?,
        accept_payload: accept_payload(alloc, &terms.accept_channel)?,
        place: chain_place_of(channel.readiness().short_id),
        fees: channel.closing().fees,
        script,
        peer_script,
    })
}

pub(crate) fn opening_of(terms: &Terms) -> Opening
    ensures { result ≡ opening_of terms.now }
{
    let open = &terms.open_channel;
    let accept = &terms.accept_channel;
    Opening {
        satoshis: open.funding_satoshis,
        push: open.push_msat,
        feerate: open.feerate_per_kw,
        funder: Limits {
            minimum: open.htlc_minimum_msat,
            accepted: open.max_accepted_htlcs,
            in_flight: open.max_htlc_value_in_flight_msat,
            reserve: open.channel_reserve_satoshis,
        },
        fundee: Limits {
            minimum: accept.htlc_minimum_msat,
            accepted: accept.max_accepted_htlcs,
            in_flight: accept.max_htlc_value_in_flight_msat,
            reserve: accept.channel_reserve_satoshis,
        },
    }
}

fn by_roles(role: Role, own: u64, peer: u64) -> Sides
    ensures { result ≡ by_roles role own peer }
{
    match role {
        Role::Funder => Sides {
            funder: own,
            fundee: peer,
        },
        Role::Fundee => Sides {
            funder: peer,
            fundee: own,
        },
    }
}

// The HTLCs that these updates offer are a side's live ones.
fn put_live_htlcs(live: &mut Vec<LiveHtlc>, side: Role, updates: &[Update]) -> Result<(), Refusal>
    ensures puts { OnOk result (live.new.items
        ≡ live.old.items ++ map (live_of side) (filter_map offered updates.now)) }
    ensures fails_for_memory_alone { IfErr result (λ r. r ≡ refusal.Memory) }
{
    for update in updates {
        if let Update::Add(add) = update {
            live.push(LiveHtlc {
                offerer: side,
                add: *add,
            })?;
        }
    }
    Ok(())
}

// Those of both sides, whose updates these are.
fn live_htlcs_of(
    alloc: Global,
    role: Role,
    own: &[Update],
    peer: &[Update],
) -> Result<Listed<LiveHtlc>, Refusal>
    ensures live_htlcs { IfOk result (λ l. l
        ≡ live_htlcs_of role (filter_map offered own.now) (filter_map offered peer.now)) }
    ensures fails_for_memory_alone { IfErr result (λ r. r ≡ refusal.Memory) }
{
    let (funder, fundee) = match role {
        Role::Funder => (own, peer),
        Role::Fundee => (peer, own),
    };
    let mut live = Vec::new(alloc);
    put_live_htlcs(&mut live, Role::Funder, funder)?;
    put_live_htlcs(&mut live, Role::Fundee, fundee)?;
    Ok(Listed::new(live))
}

// What the updates before `first` are worth, and their live HTLCs.
fn base_of(alloc: Global, role: Role, log: &UpdateLog) -> Result<Base, Refusal>
    ensures base { (l : Log) → logs.StandsFor log.now l
        → IfOk result (λ b. b ≡ base_of (record (record_form_of l.first l) { role = role })) }
    ensures fails_for_memory_alone { IfErr result (λ r. r ≡ refusal.Memory) }
{
    let balances = log.balances();
    let live = live_htlcs_of(alloc, role, log.live(Side::Own), log.live(Side::Peer))?;
    let own = log.first(Side::Own) as u64;
    let peer = log.first(Side::Peer) as u64;
    Ok(Base {
        updates: by_roles(role, own, peer),
        next_ids: by_roles(role, balances.next_own, balances.next_peer),
        balances: by_roles(role, balances.own, balances.peer),
        feerate: balances.feerate,
        live,
    })
}

fn window_of(role: Role, own: Vec<Update>, received: Vec<Update>) -> Window
    ensures { result ≡ window_of role own.items received.items }
{
    match role {
        Role::Funder => Window {
            funder: Listed::new(own),
            fundee: Listed::new(received),
        },
        Role::Fundee => Window {
            funder: Listed::new(received),
            fundee: Listed::new(own),
        },
    }
}

fn covered_of(counts: Counts) -> Covered
    ensures { result ≡ covered_of counts }
{
    Covered {
        own: counts.own as u64,
        peer: counts.peer as u64,
    }
}

fn pairs_of(log: &UpdateLog) -> Pairs
    ensures pairs { (l : Log) → logs.StandsFor log.now l → result ≡ pairs_of (record_form_of l.first l) }
    ensures can_be_restored { (l : Log) → logs.StandsFor log.now l
        → IsRestorable (record_form_of l.first (after_drop l)) }
{
    let coverage = log.coverage();
    Pairs {
        signed: covered_of(coverage.signed),
        acknowledged: covered_of(coverage.acknowledged),
        current: covered_of(coverage.current),
    }
}

fn log_of(channel: &Channel) -> &UpdateLog
    ensures fits_together { IsSound channel.now }
    ensures log { (e : End) → end.StandsFor channel.now e → logs.StandsFor result.now e.dance.log }
{
    channel.dance().log()
}

// The same updates.
fn copy_updates(alloc: Global, updates: &[Update]) -> Result<Vec<Update>, Refusal>
    ensures copies { IfOk result (λ v. v.items ≡ updates.now) }
    ensures fails_for_memory_alone { IfErr result (λ r. r ≡ refusal.Memory) }
{
    let mut copies = Vec::new(alloc);
    copies.extend_with_clones(updates)?;
    Ok(copies)
}

fn own_updates(alloc: Global, log: &UpdateLog) -> Result<Vec<Update>, Refusal>
    ensures updates { (l : Log) → logs.StandsFor log.now l
        → IfOk result (λ us. us.items ≡ between l.first.own l.signed.own l.own) }
    ensures fails_for_memory_alone { IfErr result (λ r. r ≡ refusal.Memory) }
{
    let count = log.counts(Pair::Signed).own;
    copy_updates(alloc, log.between(Side::Own, log.first(Side::Own), count))
}

fn peer_updates(alloc: Global, log: &UpdateLog) -> Result<Vec<Update>, Refusal>
    ensures updates { (l : Log) → logs.StandsFor log.now l
        → IfOk result (λ us. us.items ≡ between l.first.peer l.current.peer l.received) }
    ensures fails_for_memory_alone { IfErr result (λ r. r ≡ refusal.Memory) }
{
    let count = log.counts(Pair::Current(Side::Own)).peer;
    copy_updates(alloc, log.between(Side::Peer, log.first(Side::Peer), count))
}

// The updates that signatures cover: a base, and those after it.
fn updates_of(alloc: Global, channel: &Channel) -> Result<Updates, Refusal>
    ensures updates { (e : End) → end.StandsFor channel.now e
        → IfOk result (λ u. u ≡ updates_of (opening_of e.terms) e.closing.role
        (after_drop e.dance.log)) }
    ensures can_be_restored { (e : End) → end.StandsFor channel.now e
        → OnOk result (IsRestorable (record_form_of e.dance.log.first (after_drop e.dance.log))) }
    ensures fails_for_memory_alone { IfErr result (λ r. r ≡ refusal.Memory) }
{
    let log = log_of(channel);
    let role = channel.closing().role;
    let own = own_updates(alloc, log)?;
    let received = peer_updates(alloc, log)?;
    Ok(Updates {
        base: base_of(alloc, role, log)?,
        window: window_of(role, own, received),
        pairs: pairs_of(log),
    })
}

fn commitments_of(dance: &Dance) -> Commitments
    ensures { (d : Dancer) → dancing.StandsFor dance.now d → result ≡ commitments_of d }
{
    Commitments {
        numbers: dance.numbers(),
        peer: dance.peer(),
    }
}

fn events_of(alloc: Global, ledger: &EventLedger) -> Result<Events, Refusal>
    ensures events { IfOk result (λ e. e ≡ events_of ledger.now) }
    ensures fails_for_memory_alone { IfErr result (λ r. r ≡ refusal.Memory) }
{
    Ok(Events {
        decided: ledger.decided(),
        undecided: Listed::new(Vec::from_slice(alloc, ledger.undecided())?),
    })
}

// The same decisions.
fn copy_decisions(alloc: Global, decisions: &[Decision]) -> Result<Vec<Decision>, Refusal>
    ensures copies { IfOk result (λ v. v.items ≡ decisions.now) }
    ensures fails_for_memory_alone { IfErr result (λ r. r ≡ refusal.Memory) }
{
    let mut copies = Vec::new(alloc);
    copies.extend_with_clones(decisions)?;
    Ok(copies)
}

fn copy_result(settlement: &Settlement) -> Result<Settlement, Refusal>
    ensures copy { IfOk result (λ s. s ≡ settlement.now) }
    ensures fails_for_memory_alone { IfErr result (λ r. r ≡ refusal.Memory) }
{
    Ok(Settlement {
        id: settlement.id,
        origin: settlement.origin,
        removal: settlement.removal.clone()?,
    })
}

// The same results.
fn copy_results(alloc: Global, results: &[Settlement]) -> Result<Vec<Settlement>, Refusal>
    ensures copies { IfOk result (λ v. v.items ≡ results.now) }
    ensures fails_for_memory_alone { IfErr result (λ r. r ≡ refusal.Memory) }
{
    let mut copies = Vec::new(alloc);
    for settlement in results {
        copies.push(copy_result(settlement)?)?;
    }
    Ok(copies)
}

fn forwards_of(alloc: Global, ledger: &EventLedger) -> Result<Forwards, Refusal>
    ensures forwards { IfOk result (λ f. f ≡ forwards_of ledger.now) }
    ensures fails_for_memory_alone { IfErr result (λ r. r ≡ refusal.Memory) }
{
    Ok(Forwards {
        decisions: Listed::new(copy_decisions(alloc, ledger.decisions())?),
        results: Listed::new(copy_results(alloc, ledger.results())?),
    })
}

fn fees_of(closing: Closing) -> ClosingFees
    ensures { result ≡ fees_of closing }
{
    ClosingFees {
        own: closing.own_fee,
        peer: closing.peer_fee,
        closed: closing.closed,
    }
}

#[tactic(auto, unfolding(crate::specs::Record::progress_of))]
fn progress_of(alloc: Global, channel: &Channel) -> Result<Progress, Refusal>
    ensures progress { (e : End) → end.StandsFor channel.now e → IfOk result (λ p. p ≡ progress_of e) }
    ensures fails_for_memory_alone { IfErr result (λ r. r ≡ refusal.Memory) }
{
    Ok(Progress {
        events: events_of(alloc, channel.ledger())?,
        forwards: forwards_of(alloc, channel.ledger())?,
        fees: fees_of(channel.closing()),
    })
}

#[tactic(auto, unfolding(crate::specs::Record::items_of))]
fn items_of(alloc: Global, failure: Option<Refusal>, channel: &Channel) -> Result<Items, Refusal>
    ensures items { (e : End) → end.StandsFor channel.now e → IfOk result (λ i. i ≡ items_of failure e) }
    ensures has_record_if_readable { (e : End) → end.StandsFor channel.now e
        → OnOk result (is_readable (items_of failure e) ≡ true
        → HasRecord failure e) }
    ensures log_can_be_restored { (e : End) → end.StandsFor channel.now e
        → OnOk result (IsRestorable (record_form_of e.dance.log.first (after_drop e.dance.log))) }
    ensures fails { (e : End) → end.StandsFor channel.now e
        → IfErr result (λ r. (r ≡ refusal.Memory) ⊎ ((r ≡ refusal.Damaged) × HasNoAgreement e)) }
{
    let agreement = agreement_of(alloc, channel)?;
    let updates = updates_of(alloc, channel)?;
    let progress = progress_of(alloc, channel)?;
    Ok(Items {
        header: header_of(failure, channel),
        agreement,
        commitments: commitments_of(channel.dance()),
        updates,
        progress,
    })
}

/// The record of an end of a channel that has failed by this, or hasn't: what of it outlives a lost connection, which
/// is what can be loaded of it again. Takes memory for it.
///
/// Errors: 60 where there is no memory; 70 where no record has these items: a message of the opening can't be written,
/// or the items aren't readable.
#[tactic(auto, unfolding(crate::specs::Record::NoRecord))]
pub fn to_record(
    alloc: Global,
    failure: Option<Refusal>,
    channel: &Channel,
) -> Result<LinkRecord, Refusal>
    ensures record { (e : End) → end.StandsFor channel.now e → IfOk result (λ r. r ≡ items_of failure e) }
    ensures has_record { (e : End) → end.StandsFor channel.now e → IfOk result (λ r. HasRecord failure e) }
    ensures fails { (e : End) → end.StandsFor channel.now e
        → IfErr result (λ r. (r ≡ refusal.Memory) ⊎ ((r ≡ refusal.Damaged) × NoRecord failure e)) }
{
    let items = items_of(alloc, failure, channel)?;
    match is_readable(alloc, &items) {
        Ok(true) => Ok(LinkRecord::new(items)),
        Ok(false) => {
            drop(items);
            Err(Refusal::Damaged)
        }
        Err(refusal) => {
            drop(items);
            Err(refusal)
        }
    }
}
