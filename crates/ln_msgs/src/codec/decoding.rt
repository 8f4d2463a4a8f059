//! The reader of one message.

ghost use Rattle.std.specs.Prelude.{◌≡◌, ◌≢◌, ◌<◌, ℕ, List, slice_index, IfOk, Ok, Err};
ghost use Rattle.ln_bytes.specs.declared.fault.Fault.{Fault};
ghost use Rattle.ln_bytes.specs.Reading.{Gives};
ghost use Rattle.ln_msgs.specs.Messages.Table.{form_of};
ghost use Rattle.ln_msgs.specs.Messages.Message.{Heard, Says, payload_at, message_at};
ghost use Rattle.ln_msgs.specs.Messages.Typed.{heard};

use crate::codec::encoding::LONGEST_MESSAGE;
use crate::codec::field::u16_at;
use crate::messages::closing::{read_closing_signed, read_shutdown};
use crate::messages::commitments::{
    read_channel_reestablish, read_commitment_signed, read_revoke_and_ack,
};
use crate::messages::message::{Incoming, Message};
use crate::messages::opening::{
    read_accept_channel, read_channel_ready, read_funding_created, read_funding_signed,
    read_open_channel,
};
use crate::messages::setup::{read_error, read_init, read_ping, read_pong, read_warning};
use crate::messages::updates::{
    read_update_add_htlc, read_update_fail_htlc, read_update_fail_malformed_htlc, read_update_fee,
    read_update_fulfill_htlc,
};
use ln_bytes::Fault;
use std::alloc::Global;

/// What the bytes of a message say (BOLT 1, "Lightning Message Format"): a type in two bytes, the highest
/// first, the fields of that type, and a TLV stream up to the end.
///
/// Known are the twenty types that `Message` has. Ignored are odd types that aren't known, and the types 256 to 265.
/// Takes memory for byte strings, signatures of HTLCs and records.
///
/// Errors, the first one: 7 where the message has more than 65,535 bytes; 1 where the type passes the end; 6 where
/// the type is even and not known; 1 where the fields pass the end; then 1 to 5 where the records can't be read
/// (`read_tlvs`); 8 where a record's value hasn't the length that its type has in this message. 60 where there is no
/// memory.
pub fn decode(alloc: Global, bytes: &[u8]) -> Result<Incoming, Fault>
    // What is read is spelled so.
    ensures is_spelled_so { IfOk result (λ m. Says (heard m) bytes.now) }

    // What is spelled so is read.
    ensures reads_each_spelling { (h : Heard) → Says h bytes.now → Gives heard result (Ok h) }

    // Which answer it is, and which fault comes first.
    ensures reads_as_defined { Gives heard result (message_at bytes.now) }
{
    read_message(alloc, bytes)
}

#[tactic(auto, unfolding(crate::specs::Messages::Message::message_at))]
fn read_message(alloc: Global, bytes: &[u8]) -> Result<Incoming, Fault>
    ensures { Gives heard result (message_at bytes.now) }
{
    if bytes.len() > LONGEST_MESSAGE {
        return Err(Fault::TooLong);
    }
    let (typ, payload) = u16_at(bytes)?;
    read_payload(alloc, typ, payload)
}

/// What the bytes after a type say.
pub(crate) fn read_payload(alloc: Global, typ: u16, payload: &[u8]) -> Result<Incoming, Fault>
    ensures { Gives heard result (payload_at (form_of typ) typ payload.now) }
{
    let message = match typ {
        1 => Message::Warning(read_warning(alloc, payload)?),
        16 => Message::Init(read_init(alloc, payload)?),
        17 => Message::Error(read_error(alloc, payload)?),
        18 => Message::Ping(read_ping(alloc, payload)?),
        19 => Message::Pong(read_pong(alloc, payload)?),
        32 => Message::OpenChannel(read_open_channel(alloc, payload)?),
        33 => Message::AcceptChannel(read_accept_channel(alloc, payload)?),
        34 => Message::FundingCreated(read_funding_created(alloc, payload)?),
        35 => Message::FundingSigned(read_funding_signed(alloc, payload)?),
        36 => Message::ChannelReady(read_channel_ready(alloc, payload)?),
        38 => Message::Shutdown(read_shutdown(alloc, payload)?),
        39 => Message::ClosingSigned(read_closing_signed(alloc, payload)?),
        128 => Message::UpdateAddHtlc(read_update_add_htlc(alloc, payload)?),
        130 => Message::UpdateFulfillHtlc(read_update_fulfill_htlc(alloc, payload)?),
        131 => Message::UpdateFailHtlc(read_update_fail_htlc(alloc, payload)?),
        132 => Message::CommitmentSigned(read_commitment_signed(alloc, payload)?),
        133 => Message::RevokeAndAck(read_revoke_and_ack(alloc, payload)?),
        134 => Message::UpdateFee(read_update_fee(alloc, payload)?),
        135 => Message::UpdateFailMalformedHtlc(read_update_fail_malformed_htlc(alloc, payload)?),
        136 => Message::ChannelReestablish(read_channel_reestablish(alloc, payload)?),
        256..=265 => return Ok(Incoming::Ignored(typ)),
        _ if typ % 2 == 1 => return Ok(Incoming::Ignored(typ)),
        _ => return Err(Fault::UnknownEvenType),
    };
    Ok(Incoming::Known(message))
}

/// A law, whatever memory does: what bytes say is read of them, and what is read of them they say. So, as a whole
/// input, the bytes of a message say one thing at most, and what says something has no fault.
pub fn one_message()
    ensures reads_what_is_said { (h : Heard) (bytes : List ℕ) → Says h bytes → message_at bytes ≡ Ok h }
    ensures says_what_is_read { (h : Heard) (bytes : List ℕ) → ((i : ℕ) → slice_index bytes i < 256)
        → message_at bytes ≡ Ok h → Says h bytes }
    ensures says_one_thing { (g h : Heard) (bytes : List ℕ) → Says g bytes → Says h bytes → g ≡ h }
    ensures has_no_fault_if_it_says { (h : Heard) (f : Fault) (bytes : List ℕ) → Says h bytes
        → message_at bytes ≢ Err f }
{}
