//! What the payload of a hop asks for.

ghost use Rattle.std.specs.Prelude.{◌≡◌, ◌≢◌, ◌++◌, ◌∷◌, ◌<◌, ◌^◌, [], ℕ, List, IfOk, IfErr, IfSome, OnOk, Ok};
ghost use Rattle.std.specs.Prelude.{Err, length, option_map};
ghost use Rattle.ln_bytes.specs.Reading.{Gives};
ghost use Rattle.ln_bytes.specs.Tlv.{as_record};
ghost use Rattle.ln_bytes.specs.Truncated.{truncated};
ghost use Rattle.ln_bytes.specs.declared.fault.Fault.{Fault};
ghost use Rattle.ln_forward.specs.Payload.{Hop, HasHop, SpellsHop, SpellsNumber, SpellsId, SpellsPayment, id_bytes};
ghost use Rattle.ln_forward.specs.Payload.{hop_of, hop_in, payload_at, number_in, short_id_in, payment_in, record_if};
ghost use Rattle.ln_forward.specs.Payload.{hop_records, payload_bytes, payment_bytes, IsWideHop};

use ln_bytes::{
    Bytes, Fault, Record, ShortId, read_tlvs, read_tu32, read_tu64, value_of, write_tlvs,
    write_tu64,
};
use std::alloc::Global;

/// What proves to the final node that the sender was told of the payment (BOLT 4, "Basic Multi-Part Payments").
#[derive(Clone, Copy, PartialEq, Eq)]
pub struct Payment {
    /// The payment secret, 32 bytes.
    pub secret: [u8; 32],
    /// The sum of all parts, in millisatoshi.
    pub total: u64,
}

/// What a hop is asked for (BOLT 4, "`payload` Format"): the values of the records that it has.
#[derive(Clone, Copy, PartialEq, Eq)]
pub struct Payload {
    /// `amt_to_forward`, in millisatoshi.
    pub amount: Option<u64>,
    /// `outgoing_cltv_value`, a block height.
    pub expiry: Option<u32>,
    /// `short_channel_id`, the channel to forward by.
    pub next: Option<ShortId>,
    /// `payment_data`.
    pub payment: Option<Payment>,
}

/// Reads the payload of a hop, a TLV stream (BOLT 4, "`payload` Format"): the types 2, 4, 6 and 8 are known, and
/// other odd types are passed over.
///
/// The faults of the stream come first: 1, 2, 3, 5, and 4 for another even type. Then each record in its order:
/// 8 where the value has a length that it can't have, 2 where a number begins with a zero byte. 60 where there
/// was no memory.
pub fn read_payload(alloc: Global, bytes: &[u8]) -> Result<Payload, Fault>
    ensures found { IfOk result (λ p. SpellsHop (hop_of p) bytes.now) }
    ensures reads_each_spelling { (h : Hop) → SpellsHop h bytes.now → Gives hop_of result (Ok h) }
    ensures exact { Gives hop_of result (payload_at bytes.now) }
{
    let records = read_tlvs(alloc, bytes, &[2, 4, 6, 8])?;
    payload_in(&records)
}

// The payload in these records.
#[tactic(auto, unfolding(crate::specs::Payload::hop_in))]
fn payload_in(records: &[Record]) -> Result<Payload, Fault>
    ensures exact { Gives hop_of result (hop_in records.now) }
    ensures found { IfOk result (λ p. HasHop (hop_of p) records.now) }
{
    let amount = amount_in(value_of(records, 2))?;
    let expiry = expiry_in(value_of(records, 4))?;
    let next = short_id_in(value_of(records, 6))?;
    let payment = payment_in(value_of(records, 8))?;
    Ok(Payload {
        amount,
        expiry,
        next,
        payment,
    })
}

fn amount_in(value: Option<&[u8]>) -> Result<Option<u64>, Fault>
    ensures exact { Gives (λ n. n) result (number_in 8 (option_map (λ v. v.now) value.entry)) }
    ensures found { IfOk result (λ n. SpellsNumber 64 n (option_map (λ v. v.now) value.entry)) }
{
    match value {
        None => Ok(None),
        Some(value) => Ok(Some(read_tu64(value)?)),
    }
}

fn expiry_in(value: Option<&[u8]>) -> Result<Option<u32>, Fault>
    ensures exact { Gives (λ n. n) result (number_in 4 (option_map (λ v. v.now) value.entry)) }
    ensures found { IfOk result (λ n. SpellsNumber 32 n (option_map (λ v. v.now) value.entry)) }
{
    match value {
        None => Ok(None),
        Some(value) => Ok(Some(read_tu32(value)?)),
    }
}

fn short_id_in(value: Option<&[u8]>) -> Result<Option<ShortId>, Fault>
    ensures exact { Gives (λ id. option_map id_bytes id) result (short_id_in (option_map (λ v. v.now) value.entry)) }
    ensures found { IfOk result (λ id. SpellsId (option_map id_bytes id) (option_map (λ v. v.now) value.entry)) }
{
    match value {
        None => Ok(None),
        Some(value) => {
            if value.len() != 8 {
                return Err(Fault::FieldLength);
            }
            let mut bytes = [0; 8];
            bytes.copy_from_slice(value);
            Ok(Some(ShortId::from_bytes(&bytes)))
        }
    }
}

fn payment_in(value: Option<&[u8]>) -> Result<Option<Payment>, Fault>
    ensures exact { Gives (λ p. p) result (payment_in (option_map (λ v. v.now) value.entry)) }
    ensures found { IfOk result (λ p. SpellsPayment p (option_map (λ v. v.now) value.entry)) }
{
    match value {
        None => Ok(None),
        Some(value) => {
            if value.len() < 32 {
                return Err(Fault::FieldLength);
            }
            let (front, total) = value.split_at(32);
            let total = read_tu64(total)?;
            let mut secret = [0; 32];
            secret.copy_from_slice(front);
            Ok(Some(Payment { secret, total }))
        }
    }
}

fn push_value(records: &mut Vec<Record>, typ: u64, value: Vec<u8>) -> Result<(), Fault>
    ensures pushed { OnOk result (records.new.items ≡ records.old.items ++ as_record typ value.items ∷ []) }
    ensures fails_for_memory_alone { IfErr result (λ e. e ≡ Fault.Memory) }
{
    let value = Bytes::new(value);
    records.push(Record { typ, value })?;
    Ok(())
}

fn push_number(
    alloc: Global,
    records: &mut Vec<Record>,
    typ: u64,
    number: Option<u64>,
) -> Result<(), Fault>
    ensures pushed { OnOk result (records.new.items
        ≡ records.old.items ++ record_if typ (option_map truncated number)) }
    ensures is_wide { IfSome number (λ n. n < 2 ^ 64) }
    ensures fails_for_memory_alone { IfErr result (λ e. e ≡ Fault.Memory) }
{
    let Some(number) = number else {
        return Ok(());
    };
    let mut bytes = [0; 8];
    let len = write_tu64(number, &mut bytes);
    push_value(records, typ, Vec::from_slice(alloc, &bytes[..len])?)
}

fn push_expiry(alloc: Global, records: &mut Vec<Record>, expiry: Option<u32>) -> Result<(), Fault>
    ensures pushed { OnOk result (records.new.items
        ≡ records.old.items ++ record_if 4 (option_map truncated expiry)) }
    ensures is_wide { IfSome expiry (λ n. n < 2 ^ 32) }
    ensures fails_for_memory_alone { IfErr result (λ e. e ≡ Fault.Memory) }
{
    match expiry {
        Some(expiry) => push_number(alloc, records, 4, Some(u64::from(expiry))),
        None => Ok(()),
    }
}

fn push_short_id(alloc: Global, records: &mut Vec<Record>, id: Option<ShortId>) -> Result<(), Fault>
    ensures pushed { OnOk result (records.new.items ≡ records.old.items ++ record_if 6 (option_map id_bytes id)) }
    ensures is_wide { IfSome (option_map id_bytes id) (λ bytes. length bytes ≡ 8) }
    ensures fails_for_memory_alone { IfErr result (λ e. e ≡ Fault.Memory) }
{
    match id {
        Some(id) => push_value(records, 6, Vec::from_slice(alloc, &id.to_bytes())?),
        None => Ok(()),
    }
}

fn push_payment(
    alloc: Global,
    records: &mut Vec<Record>,
    payment: Option<Payment>,
) -> Result<(), Fault>
    ensures pushed { OnOk result (records.new.items
        ≡ records.old.items ++ record_if 8 (option_map payment_bytes payment)) }
    ensures is_wide { IfSome payment (λ p. (length p.secret ≡ 32) × (p.total < 2 ^ 64)) }
    ensures fails_for_memory_alone { IfErr result (λ e. e ≡ Fault.Memory) }
{
    let Some(payment) = payment else {
        return Ok(());
    };
    let mut bytes = [0; 8];
    let len = write_tu64(payment.total, &mut bytes);
    let mut value = Vec::from_slice(alloc, &payment.secret)?;
    value.extend_from_slice(&bytes[..len])?;
    push_value(records, 8, value)
}

fn records_of(alloc: Global, payload: &Payload) -> Result<Vec<Record>, Fault>
    ensures records { IfOk result (λ v. v.items ≡ hop_records (hop_of payload.now)) }
    ensures is_wide { IfOk result (λ v. IsWideHop (hop_of payload.now)) }
    ensures fails_for_memory_alone { IfErr result (λ e. e ≡ Fault.Memory) }
{
    let mut records = Vec::new(alloc);
    push_number(alloc, &mut records, 2, payload.amount)?;
    push_expiry(alloc, &mut records, payload.expiry)?;
    push_short_id(alloc, &mut records, payload.next)?;
    push_payment(alloc, &mut records, payload.payment)?;
    Ok(records)
}

/// Writes the payload of a hop (BOLT 4, "`payload` Format"): a record for each value that it has, in the order of their
/// types, and no other. Takes memory.
///
/// An invoice's payee reads `amount`, `expiry` and `payment`, any other hop `amount`, `expiry` and `next`. Error: 60
/// where there is no memory.
pub fn write_payload(alloc: Global, payload: &Payload) -> Result<Vec<u8>, Fault>
    ensures writes_the_records { IfOk result (λ v. v.items ≡ payload_bytes (hop_of payload.now)) }
    ensures is_spelled_so { IfOk result (λ v. SpellsHop (hop_of payload.now) v.items) }
    ensures is_read_again { IfOk result (λ v. payload_at v.items ≡ Ok (hop_of payload.now)) }
    ensures fails_for_memory_alone { IfErr result (λ e. e ≡ Fault.Memory) }
{
    let records = records_of(alloc, payload)?;
    write_tlvs(alloc, &records)
}

/// Bytes are one payload at most, and no payload is refused.
pub fn one_payload()
    ensures one_payload { (g h : Hop) (bytes : List ℕ) → SpellsHop g bytes → SpellsHop h bytes → g ≡ h }
    ensures refuses_no_spelling { (h : Hop) (f : Fault) (bytes : List ℕ) → SpellsHop h bytes
        → payload_at bytes ≢ Err f }
{}
