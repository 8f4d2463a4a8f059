//! What a message has that the chain may need, and no record has.

ghost use Rattle.std.specs.Prelude.{◌≡◌, IfOk, IfErr};
ghost use Rattle.ln_refusals.specs.declared.refusal.Refusal.TheVariants as refusal;
ghost use Rattle.ln_host.specs.Seen.{held_with, signature_in, secret_in, seen_in};

use crate::question::Question;
use crate::record::{HeldSignatures, PeerSecret};
use ln_bytes::Signatures;
use ln_msgs::Message;
use ln_refusals::Refusal;
use std::alloc::Global;

/// What a message has that the chain may need, and no record has.
#[derive(Drop)]
pub enum Seen {
    /// Nothing.
    Nothing,
    /// The peer's signatures over the own commitment that this end holds once the message is taken.
    Signatures(HeldSignatures),
    /// The secret of a commitment of the peer's, which is revoked then.
    Secret(PeerSecret),
}

pub(crate) fn copied(alloc: Global, signatures: &Signatures) -> Result<Signatures, Refusal>
    ensures same { IfOk result (λ s. s ≡ signatures.now) }
    ensures fails_for_memory_alone { IfErr result (λ r. r ≡ refusal.Memory) }
{
    Ok(Signatures::new(Vec::from_slice(alloc, signatures.as_slice())?))
}

// The signatures of a message over the commitment of a number.
fn signatures_in(alloc: Global, number: u64, message: &Message) -> Result<Seen, Refusal>
    ensures seen { IfOk result (λ s. s ≡ signature_in number message.now) }
    ensures fails_for_memory_alone { IfErr result (λ r. r ≡ refusal.Memory) }
{
    match message {
        Message::FundingCreated(m) => Ok(held(number, m.signature, Signatures::empty(alloc))),
        Message::FundingSigned(m) => Ok(held(number, m.signature, Signatures::empty(alloc))),
        Message::CommitmentSigned(m) => {
            let htlc_signatures = copied(alloc, &m.htlc_signatures)?;
            Ok(held(number, m.signature, htlc_signatures))
        }
        _ => Ok(Seen::Nothing),
    }
}

fn held(number: u64, signature: [u8; 64], htlc_signatures: Signatures) -> Seen
    ensures { result ≡ held_with number signature htlc_signatures }
{
    Seen::Signatures(HeldSignatures {
        number,
        signature,
        htlc_signatures,
    })
}

// The secret of a message, of the peer's commitment of a number.
fn secret_in(number: u64, message: &Message) -> Seen
    ensures { result ≡ secret_in number message.now }
{
    match message {
        Message::RevokeAndAck(m) => Seen::Secret(PeerSecret {
            number,
            secret: m.secret,
        }),
        _ => Seen::Nothing,
    }
}

/// What the question was about. Takes memory for signatures over HTLCs; 60 where there is none.
pub fn seen_in(
    alloc: Global,
    question: &Option<Question>,
    message: &Message,
) -> Result<Seen, Refusal>
    ensures seen { IfOk result (λ s. s ≡ seen_in question.now message.now) }
    ensures fails_for_memory_alone { IfErr result (λ r. r ≡ refusal.Memory) }
{
    match question {
        Some(Question::First { .. }) => signatures_in(alloc, 0, message),
        Some(Question::Signatures { number, .. }) => signatures_in(alloc, *number, message),
        Some(Question::Secret { number, .. }) => Ok(secret_in(*number, message)),
        _ => Ok(Seen::Nothing),
    }
}
