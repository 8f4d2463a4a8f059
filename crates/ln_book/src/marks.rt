//! What is done about an event.

ghost use Rattle.std.specs.Prelude.{◌≡◌, Ok, IfOk, IfErr, option_map, option_copied};
ghost use Rattle.ln_forward.specs.Checks.{answer_of, final_fault};
ghost use Rattle.ln_forward.specs.Payload.{hop_of, id_bytes};
ghost use Rattle.ln_book.specs.Marks.{offer_of, incoming_of, failure_by, failed, unopened, outgoing_by, route_by};
ghost use Rattle.ln_book.specs.Marks.{policy_by, forwarded, final_payload, expected_by, taken};
ghost use Rattle.ln_book.specs.Marks.{read_hop};
ghost use Rattle.ln_book.specs.Marks.{opened_mark, mark_by, mark_of};

use crate::commands::own_failure;
use ln_book_tables::{Invoice, Offer, OutgoingChannel, Tables};
use ln_bytes::{Fault, ShortId};
use ln_forward::{
    Failure, Incoming, Payload, Policy, Route, check_final, check_forward, read_payload,
};
use ln_hooks::{ChannelEvent, FailureCode, Verdict};
use ln_keys::{Onion, OpenFault, Opened};
use ln_log::Mark;
use ln_refusals::Refusal;
use std::alloc::Global;

/// What a peer offers, where an event tells of that.
pub(crate) fn offer_of(event: &ChannelEvent) -> Option<Offer>
    ensures { result ≡ offer_of event.now }
{
    match event {
        ChannelEvent::Added {
            own,
            id,
            amount,
            hash,
            expiry,
            onion,
        } => {
            if *own {
                return None;
            }
            Some(Offer {
                id: *id,
                amount: amount.value(),
                hash: *hash,
                expiry: *expiry,
                onion: *onion,
            })
        }
        ChannelEvent::Settled { .. } | ChannelEvent::Closed(_) => None,
    }
}

fn incoming_of(offer: &Offer) -> Incoming
    ensures { result ≡ incoming_of offer.now }
{
    Incoming {
        amount: offer.amount,
        expiry: offer.expiry,
    }
}

// The failure by which a hook fails a payment.
fn failure_by(code: FailureCode, offer: &Offer, height: u32) -> Failure
    ensures { result ≡ failure_by code offer.now height }
{
    match code {
        FailureCode::TemporaryChannelFailure => Failure::TemporaryChannelFailure,
        FailureCode::UnknownNextPeer => Failure::UnknownNextPeer,
        FailureCode::AmountBelowMinimum => Failure::AmountBelowMinimum(offer.amount),
        FailureCode::FeeInsufficient => Failure::FeeInsufficient(offer.amount),
        FailureCode::IncorrectCltvExpiry => Failure::IncorrectCltvExpiry(offer.expiry),
        FailureCode::ExpiryTooSoon => Failure::ExpiryTooSoon,
        FailureCode::IncorrectOrUnknownPaymentDetails => {
            Failure::IncorrectOrUnknownPaymentDetails(offer.amount, height)
        }
        FailureCode::FinalIncorrectCltvExpiry => Failure::FinalIncorrectCltvExpiry(offer.expiry),
        FailureCode::FinalIncorrectHtlcAmount => Failure::FinalIncorrectHtlcAmount(offer.amount),
        FailureCode::ExpiryTooFar => Failure::ExpiryTooFar,
        FailureCode::InvalidOnionPayload => Failure::InvalidOnionPayload(0),
    }
}

// It is failed so. Error: 60 alone.
fn failed<O: Onion>(
    alloc: Global,
    onion: &O,
    offer: &Offer,
    failure: Failure,
) -> Result<Mark, Refusal>
    ensures mark { IfOk result (λ m. m ≡ failed (O.services onion.now) offer.now failure) }
    ensures fails_for_memory_alone { IfErr result (λ r. r ≡ Refusal.Memory) }
{
    Ok(Mark::Fail(own_failure(alloc, onion, offer, &failure)?))
}

// Its onion wasn't opened. Error: 60 alone.
fn unopened<O: Onion>(
    alloc: Global,
    onion: &O,
    offer: &Offer,
    fault: OpenFault,
) -> Result<Mark, Refusal>
    ensures mark { IfOk result (λ m. m ≡ unopened (O.services onion.now) offer.now fault) }
    ensures fails_for_memory_alone { IfErr result (λ r. r ≡ Refusal.Memory) }
{
    match fault {
        OpenFault::Version => Ok(Mark::Malformed(0xc004)),
        OpenFault::Hmac => Ok(Mark::Malformed(0xc005)),
        OpenFault::Key => Ok(Mark::Malformed(0xc006)),
        OpenFault::Payload => failed(alloc, onion, offer, Failure::InvalidOnionPayload(0)),
        OpenFault::Memory => Err(Refusal::Memory),
    }
}

// The channel that a payload names.
fn outgoing_by<'a>(tables: &'a Tables, next: Option<ShortId>) -> Option<&'a OutgoingChannel>
    ensures { option_copied result ≡ outgoing_by tables.now (option_map id_bytes next) }
{
    match next {
        None => None,
        Some(id) => tables.route(&id.to_bytes()),
    }
}

// The channel as the checks see it.
fn route_by(tables: &Tables, outgoing: Option<&OutgoingChannel>) -> Option<Route>
    ensures { result ≡ route_by tables.now (option_copied outgoing.entry) }
{
    match outgoing {
        None => None,
        Some(outgoing) => Some(Route {
            usable: tables.usable(&outgoing.channel),
            minimum: outgoing.minimum,
        }),
    }
}

// What the node asks for it.
fn policy_by(outgoing: Option<&OutgoingChannel>) -> Policy
    ensures { result ≡ policy_by (option_copied outgoing.entry) }
{
    match outgoing {
        None => Policy {
            base: 0,
            proportional: 0,
            delta: 0,
        },
        Some(outgoing) => outgoing.policy,
    }
}

// It is forwarded by this channel, or failed. Error: 60 alone.
fn forwarded<O: Onion>(
    alloc: Global,
    onion: &O,
    tables: &Tables,
    offer: &Offer,
    payload: &Payload,
    outgoing: Option<&OutgoingChannel>,
) -> Result<Mark, Refusal>
    ensures mark { IfOk result (λ m. m ≡ forwarded (O.services onion.now) offer.now
        (hop_of payload.now) tables.now (option_copied outgoing.entry)) }
    ensures fails_for_memory_alone { IfErr result (λ r. r ≡ Refusal.Memory) }
{
    let route = route_by(tables, outgoing);
    let policy = policy_by(outgoing);
    let incoming = incoming_of(offer);
    match check_forward(&incoming, payload, route.as_ref(), &policy, tables.height()) {
        Err(failure) => failed(alloc, onion, offer, failure),
        Ok(()) => match outgoing {
            None => Ok(Mark::None),
            Some(outgoing) => Ok(Mark::Forward {
                channel: outgoing.channel,
                amount: payload.amount.unwrap_or(0),
                expiry: payload.expiry.unwrap_or(0),
            }),
        },
    }
}

// Whether it is taken by this invoice.
fn check_taken(
    height: u32,
    offer: &Offer,
    payload: &Payload,
    invoice: Option<&Invoice>,
) -> Result<(), Failure>
    ensures { result ≡ answer_of (final_fault (incoming_of offer.now) (final_payload (hop_of payload.now))
        (expected_by (option_copied invoice.entry)) height) }
{
    let incoming = incoming_of(offer);
    let payload = Payload {
        amount: payload.amount,
        expiry: payload.expiry,
        next: None,
        payment: payload.payment,
    };
    match invoice {
        None => check_final(&incoming, &payload, None, height),
        Some(invoice) => check_final(&incoming, &payload, Some(&invoice.expected), height),
    }
}

// It is taken by this invoice, or failed. Error: 60 alone.
fn taken<O: Onion>(
    alloc: Global,
    onion: &O,
    height: u32,
    offer: &Offer,
    payload: &Payload,
    invoice: Option<&Invoice>,
) -> Result<Mark, Refusal>
    ensures mark { IfOk result (λ m. m ≡ taken (O.services onion.now) offer.now
        (hop_of payload.now) height (option_copied invoice.entry)) }
    ensures fails_for_memory_alone { IfErr result (λ r. r ≡ Refusal.Memory) }
{
    match check_taken(height, offer, payload, invoice) {
        Err(failure) => failed(alloc, onion, offer, failure),
        Ok(()) => match invoice {
            None => Ok(Mark::None),
            Some(invoice) => Ok(Mark::Fulfil(invoice.preimage)),
        },
    }
}

// What is done about one whose payload was read. Error: 60 alone.
fn read<O: Onion>(
    alloc: Global,
    onion: &O,
    tables: &Tables,
    offer: &Offer,
    is_final: bool,
    payload: &Payload,
) -> Result<Mark, Refusal>
    ensures mark { IfOk result (λ m. m ≡ read_hop (O.services onion.now) offer.now tables.now
        is_final (hop_of payload.now)) }
    ensures fails_for_memory_alone { IfErr result (λ r. r ≡ Refusal.Memory) }
{
    if is_final {
        let invoice = tables.invoice(&offer.hash);
        taken(alloc, onion, tables.height(), offer, payload, invoice)
    } else {
        let outgoing = outgoing_by(tables, payload.next);
        forwarded(alloc, onion, tables, offer, payload, outgoing)
    }
}

// What is done about one whose onion was opened. Error: 60 alone.
fn opened_mark<O: Onion>(
    alloc: Global,
    onion: &O,
    tables: &Tables,
    offer: &Offer,
    opened: &Opened,
) -> Result<Mark, Refusal>
    ensures mark { IfOk result (λ m. m ≡ opened_mark (O.services onion.now) offer.now tables.now
        (Ok opened.now)) }
    ensures fails_for_memory_alone { IfErr result (λ r. r ≡ Refusal.Memory) }
{
    match read_payload(alloc, opened.payload.as_slice()) {
        Err(Fault::Memory) => Err(Refusal::Memory),
        Err(_) => failed(alloc, onion, offer, Failure::InvalidOnionPayload(0)),
        Ok(payload) => read(alloc, onion, tables, offer, opened.next.is_none(), &payload),
    }
}

/// What is done about an HTLC that the event of this number tells of. Error: 60 alone.
pub(crate) fn mark_by<O: Onion>(
    alloc: Global,
    onion: &O,
    tables: &Tables,
    event: u64,
    offer: &Offer,
    verdict: Verdict,
) -> Result<Mark, Refusal>
    ensures mark { IfOk result (λ m. m ≡ mark_by (O.services onion.now) tables.now event offer.now
        verdict) }
    ensures fails_for_memory_alone { IfErr result (λ r. r ≡ Refusal.Memory) }
{
    match verdict {
        Verdict::Continue => match onion.open(alloc, &offer.onion, &offer.hash) {
            Ok(opened) => opened_mark(alloc, onion, tables, offer, &opened),
            Err(OpenFault::Memory) => Err(Refusal::Memory),
            Err(fault) => unopened(alloc, onion, offer, fault),
        },
        Verdict::Fail(code) => {
            let failure = failure_by(code, offer, tables.height());
            failed(alloc, onion, offer, failure)
        }
        Verdict::Hold => Ok(Mark::Held(event)),
    }
}

/// What is done about an event. Error: 60 alone.
pub(crate) fn mark_of<O: Onion>(
    alloc: Global,
    onion: &O,
    tables: &Tables,
    event: u64,
    offer: Option<&Offer>,
    verdict: Verdict,
) -> Result<Mark, Refusal>
    ensures mark { IfOk result (λ m. m ≡ mark_of (O.services onion.now) tables.now event
        (option_copied offer.entry) verdict) }
    ensures fails_for_memory_alone { IfErr result (λ r. r ≡ Refusal.Memory) }
{
    match offer {
        None => Ok(Mark::None),
        Some(offer) => mark_by(alloc, onion, tables, event, offer, verdict),
    }
}
