//! The messages of an opening, without their types.

ghost use Rattle.std.specs.Prelude.{◌≡◌, ◌⊎◌, drop, IfOk, IfErr, OnOk};
ghost use Rattle.ln_refusals.specs.declared.refusal.Refusal.TheVariants as refusal;
ghost use Rattle.ln_msgs.specs.Messages.Message.{wire_bytes};
ghost use Rattle.ln_msgs.specs.Messages.Typed.{open_wire, accept_wire};
ghost use Rattle.ln_link.specs.Record.{payload_of, IsUnwritable};
ghost use Rattle.ln_link.specs.Loading.{IsSaid};

use ln_bytes::{Bytes, Fault};
use ln_msgs::{AcceptChannel, OpenChannel};
use ln_refusals::Refusal;
use std::alloc::Global;

// All but the first 2 bytes.
fn behind_type(alloc: Global, bytes: &[u8]) -> Result<Bytes, Refusal>
    ensures payload { IfOk result (λ b. b ≡ drop 2 bytes.now) }
    ensures fails_for_memory_alone { IfErr result (λ r. r ≡ refusal.Memory) }
{
    if bytes.len() < 2 {
        return Ok(Bytes::new(Vec::new(alloc)));
    }
    Ok(Bytes::from_slice(alloc, &bytes[2..])?)
}

// The message's bytes, which say it; 70 where it can't be written.
#[tactic(auto, unfolding(crate::specs::Loading::IsSaid))]
fn open_bytes(alloc: Global, message: &OpenChannel) -> Result<Vec<u8>, Refusal>
    ensures bytes { IfOk result (λ v. v.items ≡ wire_bytes (open_wire message.now)) }
    ensures can_be_read { OnOk result (IsSaid (open_wire message.now)) }
    ensures fails { IfErr result (λ r. (r ≡ refusal.Memory)
        ⊎ ((r ≡ refusal.Damaged) × IsUnwritable (open_wire message.now))) }
{
    if !message.fits() {
        return Err(Refusal::Damaged);
    }
    match message.encode(alloc) {
        Ok(bytes) => Ok(bytes),
        Err(Fault::TooLong) => Err(Refusal::Damaged),
        Err(_) => Err(Refusal::Memory),
    }
}

/// The `open_channel` without its type; 70 where it can't be written.
#[tactic(auto, unfolding(crate::specs::Record::payload_of))]
pub(crate) fn open_payload(alloc: Global, message: &OpenChannel) -> Result<Bytes, Refusal>
    ensures payload { IfOk result (λ b. b ≡ payload_of (open_wire message.now)) }
    ensures can_be_read { OnOk result (IsSaid (open_wire message.now)) }
    ensures fails { IfErr result (λ r. (r ≡ refusal.Memory)
        ⊎ ((r ≡ refusal.Damaged) × IsUnwritable (open_wire message.now))) }
{
    let bytes = open_bytes(alloc, message)?;
    behind_type(alloc, bytes.as_slice())
}

// The message's bytes, which say it; 70 where it can't be written.
#[tactic(auto, unfolding(crate::specs::Loading::IsSaid))]
fn accept_bytes(alloc: Global, message: &AcceptChannel) -> Result<Vec<u8>, Refusal>
    ensures bytes { IfOk result (λ v. v.items ≡ wire_bytes (accept_wire message.now)) }
    ensures can_be_read { OnOk result (IsSaid (accept_wire message.now)) }
    ensures fails { IfErr result (λ r. (r ≡ refusal.Memory)
        ⊎ ((r ≡ refusal.Damaged) × IsUnwritable (accept_wire message.now))) }
{
    if !message.fits() {
        return Err(Refusal::Damaged);
    }
    match message.encode(alloc) {
        Ok(bytes) => Ok(bytes),
        Err(Fault::TooLong) => Err(Refusal::Damaged),
        Err(_) => Err(Refusal::Memory),
    }
}

/// The `accept_channel` without its type; 70 where it can't be written.
#[tactic(auto, unfolding(crate::specs::Record::payload_of))]
pub(crate) fn accept_payload(alloc: Global, message: &AcceptChannel) -> Result<Bytes, Refusal>
    ensures payload { IfOk result (λ b. b ≡ payload_of (accept_wire message.now)) }
    ensures can_be_read { OnOk result (IsSaid (accept_wire message.now)) }
    ensures fails { IfErr result (λ r. (r ≡ refusal.Memory)
        ⊎ ((r ≡ refusal.Damaged) × IsUnwritable (accept_wire message.now))) }
{
    let bytes = accept_bytes(alloc, message)?;
    behind_type(alloc, bytes.as_slice())
}
