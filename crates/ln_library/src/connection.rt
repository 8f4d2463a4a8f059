//! What of a connection is of no channel (BOLT 1).

ghost use Rattle.std.specs.Prelude.{◌≡◌, Ok};
ghost use Rattle.ln_library.specs.Greetings.{init_of, Greets, ChecksInit, are_shared, is_among, shares_with};
ghost use Rattle.ln_library.specs.Greetings.{chain_answer, Pongs, id_bytes, text_of};
ghost use Rattle.ln_library.specs.Messages.{Reads, Answers, Writes};
ghost use Rattle.ln_bytes.specs.Tlv as tlv;
ghost use Rattle.ln_msgs.specs.Messages.Message.{message_at};
ghost use Rattle.ln_wire.specs.Forms.{Gives};

use ln_bytes::value_of;
use ln_host::{channel_of, init_with, pong_to};
use ln_msgs::{Incoming, Init, LONGEST_MESSAGE, Message, decode, encode, fits};
use ln_refusals::Refusal;
use ln_text::message_text;
use std::alloc::Global;

/// The message of these bytes; none of an odd type that isn't known, which is ignored. Errors: the first fault of the
/// bytes, 1 to 9; 60 where there is no memory.
pub fn read(alloc: Global, bytes: &[u8]) -> Result<Option<Message>, Refusal>
    ensures { Reads bytes.now result }
{
    match decode(alloc, bytes) {
        Ok(Incoming::Known(message)) => Ok(Some(message)),
        Ok(Incoming::Ignored(_)) => Ok(None),
        Err(fault) => Err(Refusal::from(fault)),
    }
}

/// The bytes of a message. Errors: 7 where it has more than 65,535, 60 where there is no memory.
pub fn written(alloc: Global, message: &Message) -> Result<Vec<u8>, Refusal>
    ensures { Writes (λ v. v.items) message.now result }
{
    if !fits(message) {
        return Err(Refusal::TooLong);
    }
    match encode(alloc, message) {
        Ok(bytes) => Ok(bytes),
        Err(fault) => Err(Refusal::from(fault)),
    }
}

/// An `init` with these features and these chains, as `ln_host::init_with` makes it. Errors: 8 where the chains
/// aren't 32 bytes each, 7 where they are too long, 60.
pub fn init(alloc: Global, features: &[u8], chains: &[u8]) -> Result<Vec<u8>, Refusal>
    ensures greets { Greets (λ v. v.items) (init_of features.now chains.now) result }
{
    if chains.len() % 32 != 0 {
        return Err(Refusal::FieldLength);
    }
    if features.len() > LONGEST_MESSAGE || chains.len() > LONGEST_MESSAGE {
        return Err(Refusal::TooLong);
    }
    let message = Message::Init(init_with(alloc, features, chains)?);
    written(alloc, &message)
}

/// Whether a node that knows these even feature bits may go on with the peer that sent this `init`. Errors: 9 where
/// it asks for another even bit; 21 where the message is no `init`; the first fault of its bytes, 1 to 8; 60.
pub fn check_init(alloc: Global, message: &[u8], known_even_bits: &[u16]) -> Result<(), Refusal>
    ensures checks { Answers (ChecksInit known_even_bits.now) message.now result }
{
    let message = read(alloc, message)?;
    match &message {
        Some(Message::Init(init)) => match ln_msgs::check_init(init, known_even_bits) {
            Ok(()) => Ok(()),
            Err(fault) => Err(Refusal::from(fault)),
        },
        _ => Err(Refusal::OutOfPlace),
    }
}

// Whether the chain is among these.
fn is_among(chain: &[u8], chains: &[u8]) -> bool
    ensures { result ≡ is_among chain.now chains.now }
{
    for place in 0..chains.len() / 32 {
        if chain == &chains[32 * place..32 * place + 32] {
            return true;
        }
    }
    false
}

// Whether one of the networks is among these chains.
fn are_shared(networks: &[u8], chains: &[u8]) -> bool
    ensures { result ≡ are_shared networks.now chains.now }
{
    for place in 0..networks.len() / 32 {
        if is_among(&networks[32 * place..32 * place + 32], chains) {
            return true;
        }
    }
    false
}

fn shares(init: &Init, chains: &[u8]) -> bool
    ensures { result ≡ shares_with chains.now (tlv.value_of 1 init.now.records) }
{
    match value_of(init.records.as_slice(), 1) {
        None => true,
        Some(networks) => are_shared(networks, chains),
    }
}

/// Whether the peer that sent this `init` names no networks, or one of these chains, 32 bytes each (BOLT 1, "The `init`
/// Message"). Errors: 21 where it names others alone, or the message is no `init`; the first fault of its bytes; 60.
pub fn shares_chain(alloc: Global, message: &[u8], chains: &[u8]) -> Result<(), Refusal>
    ensures answers { Answers (λ m r. r ≡ chain_answer chains.now m) message.now result }
{
    let message = read(alloc, message)?;
    match &message {
        Some(Message::Init(init)) if shares(init, chains) => Ok(()),
        _ => Err(Refusal::OutOfPlace),
    }
}

/// The answer to a ping; no bytes where none is wanted. Errors: 21 where the message is no ping; the first fault of its
/// bytes, 1 to 8; 60.
pub fn pong(alloc: Global, message: &[u8]) -> Result<Vec<u8>, Refusal>
    ensures pongs { Answers (Pongs (λ v. v.items)) message.now result }
{
    let message = read(alloc, message)?;
    match &message {
        Some(Message::Ping(ping)) => match pong_to(alloc, ping)? {
            None => Ok(Vec::new(alloc)),
            Some(pong) => written(alloc, &Message::Pong(pong)),
        },
        _ => Err(Refusal::OutOfPlace),
    }
}

/// The id of the channel that a message is for, 32 bytes; no bytes of a message of no channel. Errors: the first
/// fault of the message's bytes, 1 to 8; 60.
pub fn channel(alloc: Global, message: &[u8]) -> Result<Vec<u8>, Refusal>
    ensures id { Answers (λ m r. Gives (λ v. v.items) r (Ok (id_bytes m))) message.now result }
{
    let message = read(alloc, message)?;
    match &message {
        None => Ok(Vec::new(alloc)),
        Some(message) => match channel_of(message) {
            None => Ok(Vec::new(alloc)),
            Some(channel) => Ok(Vec::from_slice(alloc, &channel)?),
        },
    }
}

/// What a message says, as `lnlink decode` prints it. Errors: the first fault of its bytes, 1 to 8; 60.
pub fn print(alloc: Global, message: &[u8]) -> Result<Vec<u8>, Refusal>
    ensures text { Gives (λ v. v.items) result (text_of (message_at message.now)) }
{
    let incoming = match decode(alloc, message) {
        Ok(incoming) => incoming,
        Err(fault) => return Err(Refusal::from(fault)),
    };
    let text = message_text(alloc, &incoming)?;
    Ok(text.into_bytes())
}
