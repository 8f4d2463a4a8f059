//! The commands of a script.

ghost use Rattle.std.specs.Prelude.{◌≡◌, IfOk, IfErr, option_map};
ghost use Rattle.ln_keys.specs.ToyOnion.{toy_made};
ghost use Rattle.ln_refusals.specs.declared.refusal.Refusal.TheVariants as refusal;
ghost use Rattle.ln_script.specs.Onion.{payloads_at};
ghost use Rattle.ln_script.specs.Command.{preimage_of, hash_of, reason_of, confirm_at, add_at, fulfil_at, fail_at};
ghost use Rattle.ln_script.specs.Command.{malformed_at, fee_at, shutdown_by, onion_at, confirm_line, add_line};
ghost use Rattle.ln_script.specs.Command.{fulfil_line, fail_line, malformed_line, fee_line, sign_line, shutdown_line};
ghost use Rattle.ln_script.specs.Command.{update_at, command_at};
ghost use Rattle.ln_script.specs.Step.{texts};

use crate::onion::payloads_of;
use crate::word::{code_of, decimal_of, number_of_32_bits, payment_of, short_id_of};
use ln_bytes::Bytes;
use ln_channel::Command;
use ln_keys::{ToyOnion, sha256_32};
use ln_refusals::Refusal;
use ln_world::Node;
use std::alloc::Global;

/// The preimage of a payment: 32 bytes of its number.
#[tactic(auto, unfolding(crate::specs::Command::preimage_of))]
pub(crate) fn preimage_of(payment: u8) -> [u8; 32]
    ensures { result ≡ preimage_of payment }
{
    [payment; 32]
}

/// The hash that names a payment.
#[tactic(auto, unfolding(crate::specs::Command::hash_of))]
fn hash_of(payment: u8) -> [u8; 32]
    ensures { result ≡ hash_of payment }
{
    sha256_32(&preimage_of(payment))
}

/// Why an HTLC fails: the code in two bytes, and two zero bytes after one whose UPDATE bit is set (BOLT 4, "Failure
/// Messages").
#[tactic(auto, unfolding(crate::specs::Command::reason_of))]
fn reason_of(alloc: Global, code: u16) -> Result<Bytes, Refusal>
    ensures reason { IfOk result (λ b. b ≡ reason_of code) }
    ensures fails_for_memory_alone { IfErr result (λ e. e ≡ refusal.Memory) }
{
    let mut bytes = Vec::from_slice(alloc, &[(code / 256) as u8, (code % 256) as u8])?;
    if (code / 4096) % 2 == 1 {
        bytes.extend_from_slice(&[0, 0])?;
    }
    Ok(Bytes::new(bytes))
}

/// confirm E BxTxO
fn confirm(id: &str) -> Option<Command>
    ensures { result ≡ confirm_at id.now }
{
    Some(Command::Confirm(short_id_of(id)?))
}

/// The onion of an HTLC, where its payloads fit. 60 where there is no memory.
#[tactic(auto, unfolding(crate::specs::Command::onion_at))]
fn onion_of(
    alloc: Global,
    payment: u8,
    amount: u64,
    expiry: u32,
    hops: &[&str],
) -> Result<Option<[u8; 1366]>, Refusal>
    ensures onion { IfOk result (λ o. o ≡ onion_at payment amount expiry (texts hops.now)) }
    ensures fails_for_memory_alone { IfErr result (λ e. e ≡ refusal.Memory) }
{
    match payloads_of(alloc, payment, amount, expiry, hops)? {
        Some(payloads) => Ok(ToyOnion::make(payloads.as_slice(), &hash_of(payment))),
        None => Ok(None),
    }
}

/// add E AMOUNT EXPIRY N and BxTxO AMT CLTV for each hop
#[tactic(auto, unfolding(crate::specs::Command::add_at))]
fn add(
    alloc: Global,
    amount: &str,
    expiry: &str,
    payment: &str,
    hops: &[&str],
) -> Result<Option<Command>, Refusal>
    ensures command { IfOk result (λ o. o ≡ add_at amount.now expiry.now payment.now (texts hops.now)) }
    ensures fails_for_memory_alone { IfErr result (λ e. e ≡ refusal.Memory) }
{
    let Some(amount) = decimal_of(amount) else {
        return Ok(None);
    };
    let Some(expiry) = number_of_32_bits(expiry) else {
        return Ok(None);
    };
    let Some(payment) = payment_of(payment) else {
        return Ok(None);
    };
    match onion_of(alloc, payment, amount, expiry, hops)? {
        Some(onion) => Ok(Some(Command::Add {
            amount,
            hash: hash_of(payment),
            expiry,
            onion,
            origin: None,
        })),
        None => Ok(None),
    }
}

/// fulfil E ID N
fn fulfil(id: &str, payment: &str) -> Option<Command>
    ensures { result ≡ fulfil_at id.now payment.now }
{
    let id = decimal_of(id)?;
    let payment = payment_of(payment)?;
    Some(Command::Fulfil {
        id,
        preimage: preimage_of(payment),
    })
}

/// fail E ID CODE
fn fail(alloc: Global, id: &str, code: &str) -> Result<Option<Command>, Refusal>
    ensures command { IfOk result (λ o. o ≡ fail_at id.now code.now) }
    ensures fails_for_memory_alone { IfErr result (λ e. e ≡ refusal.Memory) }
{
    let Some(id) = decimal_of(id) else {
        return Ok(None);
    };
    let Some(code) = code_of(code) else {
        return Ok(None);
    };
    let reason = reason_of(alloc, code)?;
    Ok(Some(Command::Fail { id, reason }))
}

/// malformed E ID CODE
fn malformed(id: &str, code: &str) -> Option<Command>
    ensures { result ≡ malformed_at id.now code.now }
{
    let id = decimal_of(id)?;
    let code = code_of(code)?;
    Some(Command::Malformed {
        id,
        sha: [0; 32],
        code,
    })
}

/// fee E RATE
fn fee(rate: &str) -> Option<Command>
    ensures { result ≡ fee_at rate.now }
{
    Some(Command::Fee(number_of_32_bits(rate)?))
}

/// shutdown E
fn shutdown(alloc: Global, node: Node) -> Result<Command, Refusal>
    ensures command { IfOk result (λ c. c ≡ shutdown_by node) }
    ensures fails_for_memory_alone { IfErr result (λ e. e ≡ refusal.Memory) }
{
    let script = Vec::from_slice(alloc, &[node.letter])?;
    Ok(Command::Shutdown(Bytes::new(script)))
}

fn confirm_line(words: &[&str]) -> Option<Command>
    ensures { result ≡ confirm_line (texts words.now) }
{
    match words {
        [id] => confirm(id),
        _ => None,
    }
}

fn add_line(alloc: Global, words: &[&str]) -> Result<Option<Command>, Refusal>
    ensures command { IfOk result (λ o. o ≡ add_line (texts words.now)) }
    ensures fails_for_memory_alone { IfErr result (λ e. e ≡ refusal.Memory) }
{
    match words {
        [amount, expiry, payment, hops @ ..] => add(alloc, amount, expiry, payment, hops),
        _ => Ok(None),
    }
}

fn fulfil_line(words: &[&str]) -> Option<Command>
    ensures { result ≡ fulfil_line (texts words.now) }
{
    match words {
        [id, payment] => fulfil(id, payment),
        _ => None,
    }
}

fn fail_line(alloc: Global, words: &[&str]) -> Result<Option<Command>, Refusal>
    ensures command { IfOk result (λ o. o ≡ fail_line (texts words.now)) }
    ensures fails_for_memory_alone { IfErr result (λ e. e ≡ refusal.Memory) }
{
    match words {
        [id, code] => fail(alloc, id, code),
        _ => Ok(None),
    }
}

fn malformed_line(words: &[&str]) -> Option<Command>
    ensures { result ≡ malformed_line (texts words.now) }
{
    match words {
        [id, code] => malformed(id, code),
        _ => None,
    }
}

fn fee_line(words: &[&str]) -> Option<Command>
    ensures { result ≡ fee_line (texts words.now) }
{
    match words {
        [rate] => fee(rate),
        _ => None,
    }
}

fn sign_line(words: &[&str]) -> Option<Command>
    ensures { result ≡ sign_line (texts words.now) }
{
    match words {
        [] => Some(Command::Sign),
        _ => None,
    }
}

fn shutdown_line(alloc: Global, node: Node, words: &[&str]) -> Result<Option<Command>, Refusal>
    ensures command { IfOk result (λ o. o ≡ shutdown_line node (texts words.now)) }
    ensures fails_for_memory_alone { IfErr result (λ e. e ≡ refusal.Memory) }
{
    match words {
        [] => Ok(Some(shutdown(alloc, node)?)),
        _ => Ok(None),
    }
}

/// The update that a line's first word and those after its end ask for.
fn update_of(alloc: Global, word: &str, words: &[&str]) -> Result<Option<Command>, Refusal>
    ensures command { IfOk result (λ o. o ≡ update_at word.now (texts words.now)) }
    ensures fails_for_memory_alone { IfErr result (λ e. e ≡ refusal.Memory) }
{
    match word {
        "add" => add_line(alloc, words),
        "fulfil" => Ok(fulfil_line(words)),
        "fail" => fail_line(alloc, words),
        "malformed" => Ok(malformed_line(words)),
        "fee" => Ok(fee_line(words)),
        _ => Ok(None),
    }
}

/// The command that an end of this node is told by a line's first word and those after the end. 60 where there is no
/// memory.
#[tactic(auto, unfolding(crate::specs::Command::command_at))]
pub(crate) fn command_of(
    alloc: Global,
    node: Node,
    word: &str,
    words: &[&str],
) -> Result<Option<Command>, Refusal>
    ensures command { IfOk result (λ o. o ≡ command_at node word.now (texts words.now)) }
    ensures fails_for_memory_alone { IfErr result (λ e. e ≡ refusal.Memory) }
{
    match word {
        "confirm" => Ok(confirm_line(words)),
        "sign" => Ok(sign_line(words)),
        "shutdown" => shutdown_line(alloc, node, words),
        _ => update_of(alloc, word, words),
    }
}
