//! The payloads of an HTLC that a script offers (BOLT 4, "`payload` Format").

ghost use Rattle.std.specs.Prelude.{◌≡◌, ◌≤◌, ◌++◌, ◌∷◌, [], length, IfOk, IfErr, IfSome, OnOk};
ghost use Rattle.std.specs.Prelude.{option_map, replicate};
ghost use Rattle.ln_bytes.specs.ShortId.{short_id_bytes};
ghost use Rattle.ln_bytes.specs.Tlv.{as_record, stream_bytes};
ghost use Rattle.ln_bytes.specs.Truncated.{truncated};
ghost use Rattle.ln_refusals.specs.declared.refusal.Refusal.TheVariants as refusal;
ghost use Rattle.ln_script.specs.Onion.{hop_at, hop_payload, last_payload, payloads_at, front_hop};
ghost use Rattle.ln_script.specs.Step.{texts};

use crate::hop::Hop;
use crate::word::{decimal_of, number_of_32_bits, short_id_of};
use ln_bytes::{Bytes, Record, ShortId, append_tlvs, write_tu64};
use ln_refusals::Refusal;
use std::alloc::Global;

fn number_record(alloc: Global, typ: u64, number: u64) -> Result<Record, Refusal>
    ensures record { IfOk result (λ r. r ≡ as_record typ (truncated number)) }
    ensures fails_for_memory_alone { IfErr result (λ e. e ≡ refusal.Memory) }
{
    let mut bytes = [0; 8];
    let len = write_tu64(number, &mut bytes);
    let value = Vec::from_slice(alloc, &bytes[..len])?;
    Ok(Record {
        typ,
        value: Bytes::new(value),
    })
}

fn id_record(alloc: Global, id: ShortId) -> Result<Record, Refusal>
    ensures record { IfOk result (λ r. r ≡ as_record 6 (short_id_bytes id.block id.tx id.output)) }
    ensures fails_for_memory_alone { IfErr result (λ e. e ≡ refusal.Memory) }
{
    let value = Vec::from_slice(alloc, &id.to_bytes())?;
    Ok(Record {
        typ: 6,
        value: Bytes::new(value),
    })
}

fn payment_record(alloc: Global, payment: u8, total: u64) -> Result<Record, Refusal>
    ensures record { IfOk result (λ r. r ≡ as_record 8 (replicate 32 payment ++ truncated total)) }
    ensures fails_for_memory_alone { IfErr result (λ e. e ≡ refusal.Memory) }
{
    let mut bytes = [0; 8];
    let len = write_tu64(total, &mut bytes);
    let mut value = Vec::from_slice(alloc, &[payment; 32])?;
    value.extend_from_slice(&bytes[..len])?;
    Ok(Record {
        typ: 8,
        value: Bytes::new(value),
    })
}

fn stream_of(alloc: Global, records: &[Record]) -> Result<Bytes, Refusal>
    ensures bytes { IfOk result (λ b. b ≡ stream_bytes records.now) }
    ensures fails_for_memory_alone { IfErr result (λ e. e ≡ refusal.Memory) }
{
    let mut out = Vec::new(alloc);
    match append_tlvs(&mut out, records) {
        Ok(()) => Ok(Bytes::new(out)),
        Err(_) => Err(Refusal::Memory),
    }
}

/// The payload of the node after a hop.
#[tactic(auto, unfolding(crate::specs::Onion::hop_payload))]
fn hop_payload(alloc: Global, hop: Hop) -> Result<Bytes, Refusal>
    ensures payload { IfOk result (λ b. b ≡ hop_payload hop) }
    ensures fails_for_memory_alone { IfErr result (λ e. e ≡ refusal.Memory) }
{
    let records = [
        number_record(alloc, 2, hop.amount)?,
        number_record(alloc, 4, u64::from(hop.expiry))?,
        id_record(alloc, hop.id)?,
    ];
    stream_of(alloc, &records)
}

/// The payload of the last node.
#[tactic(auto, unfolding(crate::specs::Onion::last_payload))]
fn last_payload(alloc: Global, payment: u8, amount: u64, expiry: u32) -> Result<Bytes, Refusal>
    ensures payload { IfOk result (λ b. b ≡ last_payload payment amount expiry) }
    ensures fails_for_memory_alone { IfErr result (λ e. e ≡ refusal.Memory) }
{
    let records = [
        number_record(alloc, 2, amount)?,
        number_record(alloc, 4, u64::from(expiry))?,
        payment_record(alloc, payment, amount)?,
    ];
    stream_of(alloc, &records)
}

/// The hop of three words.
#[tactic(auto, unfolding(crate::specs::Onion::hop_at))]
fn hop_of(id: &str, amount: &str, expiry: &str) -> Option<Hop>
    ensures { result ≡ hop_at id.now amount.now expiry.now }
{
    let id = short_id_of(id)?;
    let amount = decimal_of(amount)?;
    let expiry = number_of_32_bits(expiry)?;
    Some(Hop { amount, expiry, id })
}

/// The hop of the three words in front.
fn front_hop(words: &[&str]) -> Option<Hop>
    ensures front { result ≡ front_hop (texts words.now) }
    ensures is_of_three_words { IfSome result (λ h. 3 ≤ length words.now) }
{
    match words {
        [id, amount, expiry, ..] => hop_of(id, amount, expiry),
        _ => None,
    }
}

fn push_hop(alloc: Global, payloads: &mut Vec<Bytes>, hop: Hop) -> Result<(), Refusal>
    ensures pushed { OnOk result (payloads.new.items ≡ payloads.old.items ++ hop_payload hop ∷ []) }
    ensures fails_for_memory_alone { IfErr result (λ e. e ≡ refusal.Memory) }
{
    let payload = hop_payload(alloc, hop)?;
    payloads.push(payload)?;
    Ok(())
}

fn push_last(
    alloc: Global,
    payloads: &mut Vec<Bytes>,
    payment: u8,
    amount: u64,
    expiry: u32,
) -> Result<(), Refusal>
    ensures pushed { OnOk result (payloads.new.items
        ≡ payloads.old.items ++ last_payload payment amount expiry ∷ []) }
    ensures fails_for_memory_alone { IfErr result (λ e. e ≡ refusal.Memory) }
{
    let payload = last_payload(alloc, payment, amount, expiry)?;
    payloads.push(payload)?;
    Ok(())
}

/// The payloads of an HTLC of this payment, amount and expiry, by the words of its hops. 60 where there is no memory.
pub(crate) fn payloads_of(
    alloc: Global,
    payment: u8,
    amount: u64,
    expiry: u32,
    hops: &[&str],
) -> Result<Option<Vec<Bytes>>, Refusal>
    ensures payloads { IfOk result (λ o. option_map (λ v. v.items) o
        ≡ payloads_at payment amount expiry (texts hops.now)) }
    ensures fails_for_memory_alone { IfErr result (λ e. e ≡ refusal.Memory) }
{
    let mut payloads = Vec::new(alloc);
    let mut amount = amount;
    let mut expiry = expiry;
    let mut rest = hops;
    while !rest.is_empty() {
        let Some(hop) = front_hop(rest) else {
            return Ok(None);
        };
        push_hop(alloc, &mut payloads, hop)?;
        amount = hop.amount;
        expiry = hop.expiry;
        rest = &rest[3..];
    }
    push_last(alloc, &mut payloads, payment, amount, expiry)?;
    Ok(Some(payloads))
}
