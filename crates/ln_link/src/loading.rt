//! What is loaded from the bytes of a record.

ghost use Rattle.std.specs.Prelude.{◌≡◌, ◌∷◌, ◌≤◌, ◌⊎◌, ◌↔◌, length, IsTrue, IfOk, IfErr, IsErrOf, Ok, true};
ghost use Rattle.std.specs.Prelude.{is_some};
ghost use Rattle.ln_refusals.specs.declared.refusal.Refusal.TheVariants as refusal;
ghost use Rattle.ln_msgs.specs.Messages.Message.{message_at};
ghost use Rattle.ln_msgs.specs.Messages.Typed.{heard};
ghost use Rattle.ln_bytes.specs.Reading.{Gives};
ghost use Rattle.ln_keys.specs.Role.{other_role};
ghost use Rattle.ln_log.specs.Log as logs;
ghost use Rattle.ln_log.specs.Log.{Log};
ghost use Rattle.ln_dance.specs.Dance as dancing;
ghost use Rattle.ln_dance.specs.Dance.{AreInStep};
ghost use Rattle.ln_channel.specs.End as end;
ghost use Rattle.ln_close.specs.Closing.{AreOrdered};
ghost use Rattle.ln_channel.specs.Opening.{opening_of};
ghost use Rattle.ln_channel.specs.Ledger.{most_decided};
ghost use Rattle.ln_store.specs.Readable.{is_readable, is_open_payload, is_accept_payload};
ghost use Rattle.ln_store.specs.Record.{record_at, IsSpelledBy, is_sealed, version_of, is_known_version};
ghost use Rattle.ln_store.specs.Removals.{are_one_side};
ghost use Rattle.ln_store.specs.Sides.{count_of, window_of};
ghost use Rattle.ln_store.specs.declared.record.Items.{Items};
ghost use Rattle.ln_link.specs.Loading.{open_in, accept_in, terms_of, readiness_of, closing_of, counts_by, balances_in};
ghost use Rattle.ln_link.specs.Loading.{place_in, live_htlcs_in, counts_in, coverage_in, log_of, dance_of};
ghost use Rattle.ln_link.specs.Loading.{ledger_of, end_of, short_id_of, TellsLog, IsLoadable, TellsEnd, Loads};

use crate::record::opening_of;
use ln_bytes::{Bytes, Fault, ShortId};
use ln_channel::{Channel, ChannelMachine, EventLedger, Readiness, Terms};
use ln_close::{Closing, Fees};
use ln_dance::Dance;
use ln_keys::{ChannelKeys, Role};
use ln_log::{Add, Balances, Counts, Coverage, Opening, Update, UpdateLog};
use ln_msgs::{AcceptChannel, Incoming, OpenChannel, decode};
use ln_refusals::Refusal;
use ln_store::{
    Agreement, Base, ChainPlace, ClosingFees, Commitments, Covered, Events, Flags, Forwards,
    Header, Items, LiveHtlc, Pairs, Progress, Sides, Updates, Window, decode_record,
};
use std::alloc::Global;

// ---- what both sides agreed on

// What a message of this type with this payload says.
fn said_by(alloc: Global, typ: u8, payload: &[u8]) -> Result<Incoming, Fault>
    ensures { Gives heard result (message_at (0 ∷ typ ∷ payload.now)) }
{
    let mut bytes = Vec::with_capacity(alloc, 2)?;
    bytes.push(0)?;
    bytes.push(typ)?;
    bytes.extend_from_slice(payload)?;
    decode(alloc, bytes.as_slice())
}

#[tactic(auto, unfolding(crate::specs::Loading::open_in))]
fn open_in(alloc: Global, payload: &[u8]) -> Result<OpenChannel, Refusal>
    requires { is_open_payload payload.now ≡ true }
    ensures message { IfOk result (λ m. m ≡ open_in payload.now) }
    ensures fails_for_memory_alone { IfErr result (λ r. r ≡ refusal.Memory) }
{
    match said_by(alloc, 32, payload) {
        Ok(Incoming::Known(message)) => match message.into_open() {
            Some(open) => Ok(open),
            // (the payload is readable: it says no other message, and has no other fault)
            None => unreachable!(),
        },
        Err(Fault::Memory) => Err(Refusal::Memory),
        _ => unreachable!(),
    }
}

#[tactic(auto, unfolding(crate::specs::Loading::accept_in))]
fn accept_in(alloc: Global, payload: &[u8]) -> Result<AcceptChannel, Refusal>
    requires { is_accept_payload payload.now ≡ true }
    ensures message { IfOk result (λ m. m ≡ accept_in payload.now) }
    ensures fails_for_memory_alone { IfErr result (λ r. r ≡ refusal.Memory) }
{
    match said_by(alloc, 33, payload) {
        Ok(Incoming::Known(message)) => match message.into_accept() {
            Some(accept) => Ok(accept),
            // (the payload is readable: it says no other message, and has no other fault)
            None => unreachable!(),
        },
        Err(Fault::Memory) => Err(Refusal::Memory),
        _ => unreachable!(),
    }
}

fn terms_of(alloc: Global, agreement: Agreement) -> Result<Terms, Refusal>
    requires is_an_open_channel { is_open_payload agreement.open_payload ≡ true }
    requires is_an_accept_channel { is_accept_payload agreement.accept_payload ≡ true }
    ensures terms { IfOk result (λ t. t ≡ terms_of agreement) }
    ensures fails_for_memory_alone { IfErr result (λ r. r ≡ refusal.Memory) }
{
    let Agreement {
        open_payload,
        accept_payload,
        script,
        peer_script,
        ..
    } = agreement;
    Ok(Terms {
        open_channel: open_in(alloc, open_payload.as_slice())?,
        accept_channel: accept_in(alloc, accept_payload.as_slice())?,
        script,
        peer_script,
    })
}

// ---- how far it is

fn short_id_of(place: &ChainPlace) -> ShortId
    ensures { result ≡ short_id_of place.now }
{
    place.id()
}

fn readiness_of(flags: Flags, place: &Option<ChainPlace>) -> Readiness
    ensures { result ≡ readiness_of flags place.now }
{
    let short_id = match place {
        None => None,
        Some(place) => Some(short_id_of(place)),
    };
    Readiness {
        short_id,
        ready_sent: flags.ready_sent,
        ready_received: flags.ready_received,
    }
}

fn closing_of(header: Header, fees: Fees, passed: ClosingFees) -> Closing
    ensures { result ≡ record {
      role = header.role;
      fees = fees;
      shut = header.flags.shut_sent;
      peer_shut = header.flags.shut_received;
      own_fee = passed.own;
      peer_fee = passed.peer;
      closed = passed.closed;
    } }
{
    Closing {
        role: header.role,
        fees,
        shut: header.flags.shut_sent,
        peer_shut: header.flags.shut_received,
        own_fee: passed.own,
        peer_fee: passed.peer,
        closed: passed.closed,
    }
}

// ---- the updates

// This side's, and the peer's.
fn parted(role: Role, window: Window) -> (Vec<Update>, Vec<Update>)
    ensures own { result.0.items ≡ window_of role window }
    ensures received { result.1.items ≡ window_of (other_role role) window }
{
    let Window { funder, fundee } = window;
    match role {
        Role::Funder => (funder.into_vec(), fundee.into_vec()),
        Role::Fundee => (fundee.into_vec(), funder.into_vec()),
    }
}

fn counts_in(covered: Covered) -> Counts
    ensures { result ≡ counts_in covered }
{
    Counts {
        own: covered.own as usize,
        peer: covered.peer as usize,
    }
}

fn coverage_in(pairs: Pairs) -> Coverage
    ensures { result ≡ coverage_in pairs }
{
    Coverage {
        signed: counts_in(pairs.signed),
        acknowledged: counts_in(pairs.acknowledged),
        current: counts_in(pairs.current),
    }
}

fn count_of(side: Role, sides: Sides) -> u64
    ensures { result ≡ count_of side sides }
{
    match side {
        Role::Funder => sides.funder,
        Role::Fundee => sides.fundee,
    }
}

fn counts_by(role: Role, sides: Sides) -> Counts
    ensures { result ≡ counts_by role sides }
{
    Counts {
        own: count_of(role, sides) as usize,
        peer: count_of(role.other(), sides) as usize,
    }
}

fn balances_in(role: Role, base: &Base) -> Balances
    ensures { result ≡ balances_in role base.now }
{
    Balances {
        next_own: count_of(role, base.next_ids),
        next_peer: count_of(role.other(), base.next_ids),
        own: count_of(role, base.balances),
        peer: count_of(role.other(), base.balances),
        feerate: base.feerate,
    }
}

// How many HTLCs stand before one of this id.
fn place_in(id: u64, adds: &[Add]) -> usize
    ensures place { result ≡ place_in id adds.now }
    ensures within { result ≤ length adds.now }
{
    let mut place = 0usize;
    for add in adds {
        if add.id <= id {
            place += 1;
        }
    }
    place
}

fn is_of(side: Role, htlc: &LiveHtlc) -> bool
    ensures { result ≡ are_one_side side htlc.now.offerer }
{
    match side {
        Role::Funder => match htlc.offerer {
            Role::Funder => true,
            Role::Fundee => false,
        },
        Role::Fundee => match htlc.offerer {
            Role::Funder => false,
            Role::Fundee => true,
        },
    }
}

// The live HTLCs of a side, by their ids.
fn live_htlcs_in(alloc: Global, side: Role, live: &[LiveHtlc]) -> Result<Vec<Add>, Refusal>
    ensures live_htlcs { IfOk result (λ v. v.items ≡ live_htlcs_in side live.now) }
    ensures fails_for_memory_alone { IfErr result (λ r. r ≡ refusal.Memory) }
{
    let mut adds = Vec::new(alloc);
    for htlc in live {
        if is_of(side, htlc) {
            let place = place_in(htlc.add.id, adds.as_slice());
            adds.insert(place, htlc.add)?;
        }
    }
    Ok(adds)
}

// What is told of the first updates.
fn base_in(alloc: Global, role: Role, base: &Base) -> Result<ln_log::BaseState, Refusal>
    ensures updates { IfOk result (λ b. b.updates ≡ counts_by role base.now.updates) }
    ensures balances { IfOk result (λ b. b.balances ≡ balances_in role base.now) }
    ensures own { IfOk result (λ b. b.own.items ≡ live_htlcs_in role base.now.live) }
    ensures peer { IfOk result (λ b. b.peer.items ≡ live_htlcs_in (other_role role) base.now.live) }
    ensures fails_for_memory_alone { IfErr result (λ r. r ≡ refusal.Memory) }
{
    let live = base.live.as_slice();
    Ok(ln_log::BaseState {
        updates: counts_by(role, base.updates),
        balances: balances_in(role, base),
        own: live_htlcs_in(alloc, role, live)?,
        peer: live_htlcs_in(alloc, role.other(), live)?,
    })
}

// The log of these updates; 70 where they tell none.
fn log_of(
    alloc: Global,
    opening: Opening,
    role: Role,
    updates: Updates,
) -> Result<UpdateLog, Refusal>
    ensures log { IfOk result (λ l. TellsLog opening role updates
        × logs.StandsFor l (log_of opening role updates)) }
    ensures fails { IfErr result (λ r. (r ≡ refusal.Memory)
        ⊎ ((r ≡ refusal.Damaged) × ¬ TellsLog opening role updates)) }
{
    let Updates {
        base,
        window,
        pairs,
    } = updates;
    let coverage = coverage_in(pairs);
    let (own, received) = parted(role, window);
    let first = base_in(alloc, role, &base)?;
    if !UpdateLog::can_be_loaded(alloc, &opening, role, &first, &own, &received, &coverage)? {
        return Err(Refusal::Damaged);
    }
    UpdateLog::load(alloc, opening, role, first, own, received, coverage)
}

// ---- what became of them

// The events, what was decided, and what became of forwarded HTLCs.
fn ledger_of(progress: Progress) -> EventLedger
    requires { progress.events.decided ≤ most_decided }
    ensures { result ≡ ledger_of progress }
{
    let Progress {
        events,
        forwards,
        ..
    } = progress;
    let Forwards { decisions, results } = forwards;
    EventLedger::from_parts(
        events.decided,
        events.undecided.into_vec(),
        decisions.into_vec(),
        results.into_vec(),
    )
}

// ---- all of it

fn are_ordered(fees: Fees) -> bool
    ensures { IsTrue result ↔ AreOrdered fees }
{
    fees.least <= fees.first && fees.first <= fees.greatest
}

fn is_named(script: &Option<Bytes>) -> bool
    ensures { result ≡ is_some script.now }
{
    script.is_some()
}

// Whether the items can be loaded, but for their updates.
fn are_loadable(items: &Items) -> bool
    ensures { IsTrue result ↔ (AreOrdered items.now.agreement.fees
        × (is_some items.now.agreement.peer_script ≡ items.now.header.flags.shut_received)) }
{
    are_ordered(items.agreement.fees)
        && is_named(&items.agreement.peer_script) == items.header.flags.shut_received
}

fn dance_of(header: Header, commitments: Commitments, log: UpdateLog) -> Dance
    requires { AreInStep commitments.numbers log }
    ensures { (l : Log) → logs.StandsFor log l → dancing.StandsFor result (dance_of header commitments l) }
{
    Dance::new(
        header.channel,
        log,
        commitments.numbers,
        commitments.peer,
        header.flags.later,
    )
}

// The end that the items tell; 70 where they can't be loaded.
#[tactic(auto, unfolding(crate::specs::Loading::end_of))]
fn channel_of(alloc: Global, items: Items) -> Result<Channel, Refusal>
    requires { is_readable items ≡ true }
    ensures channel { IfOk result (λ c. IsLoadable items × end.StandsFor c (end_of items)) }
    ensures fails { IfErr result (λ r. (r ≡ refusal.Memory) ⊎ ((r ≡ refusal.Damaged) × ¬ IsLoadable items)) }
{
    if !are_loadable(&items) {
        drop(items);
        return Err(Refusal::Damaged);
    }
    let Items {
        header,
        agreement,
        commitments,
        updates,
        progress,
    } = items;
    let readiness = readiness_of(header.flags, &agreement.place);
    let closing = closing_of(header, agreement.fees, progress.fees);
    let ledger = ledger_of(progress);
    let terms = match terms_of(alloc, agreement) {
        Ok(terms) => terms,
        Err(refusal) => {
            drop(updates);
            drop(ledger);
            return Err(refusal);
        }
    };
    let log = match log_of(alloc, opening_of(&terms), header.role, updates) {
        Ok(log) => log,
        Err(refusal) => {
            drop(terms);
            drop(ledger);
            return Err(refusal);
        }
    };
    let dance = dance_of(header, commitments, log);
    Ok(Channel::from_parts(dance, closing, terms, readiness, ledger))
}

/// What the bytes of a record tell of a channel: by what it has failed, and its end.
///
/// Errors: those of `Link::from_record`.
pub(crate) fn kept_in(alloc: Global, bytes: &[u8]) -> Result<(Option<Refusal>, Channel), Refusal>
    // What they tell, or the first fault.
    ensures tells_as_defined { TellsEnd (record_at bytes.now) result }

    // What spells readable items tells of them.
    ensures tells_each_record { (i : Items) → is_readable i ≡ true → IsSpelledBy bytes.now i → TellsEnd (Ok i) result }

    // What is told before a body of this version is looked at takes no memory.
    ensures takes_memory_for_the_body { IsErrOf result refusal.Memory
        → (is_sealed bytes.now ≡ true) × (is_known_version (version_of bytes.now) ≡ true) }
{
    let record = decode_record(alloc, bytes)?;
    let items = record.into_items();
    let failure = items.header.failure;
    let channel = channel_of(alloc, items)?;
    Ok((failure, channel))
}

/// What comes back from the bytes of a record, without a connection.
///
/// Errors: those of `Link::from_record`.
pub(crate) fn loaded<K: ChannelKeys + Drop>(
    alloc: Global,
    keys: K,
    bytes: &[u8],
) -> Result<ChannelMachine<K>, Refusal>
    // The link, or the first fault.
    ensures loads_as_defined { Loads keys (record_at bytes.now) result }

    // What spells readable items is loaded as they tell.
    ensures loads_each_record { (i : Items) → is_readable i ≡ true → IsSpelledBy bytes.now i
        → Loads keys (Ok i) result }

    // What is told before a body of this version is looked at takes no memory.
    ensures takes_memory_for_the_body { IsErrOf result refusal.Memory
        → (is_sealed bytes.now ≡ true) × (is_known_version (version_of bytes.now) ≡ true) }
{
    let (failure, channel) = kept_in(alloc, bytes)?;
    Ok(ChannelMachine::come_back(keys, failure, channel))
}
