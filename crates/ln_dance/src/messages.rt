//! Updates and the messages that tell them.

ghost use Rattle.std.specs.Prelude.{◌≡◌, List, ℕ, Some, IfOk};
ghost use Rattle.ln_log.specs.declared.update.Update.{Update};
ghost use Rattle.ln_log.specs.Updates.{as_sent};
ghost use Rattle.ln_dance.specs.Messages.{add_message, fulfil_message, fail_message, malformed_message, fee_message};
ghost use Rattle.ln_dance.specs.Messages.{update_message, add_of, fulfil_of, malformed_of, fee_of, failed_of};
ghost use Rattle.ln_dance.specs.Messages.{update_of};

use ln_bytes::Bytes;
use ln_log::{Add, Fail, Fee, Fulfil, Malformed, Update};
use ln_msgs::{
    Message, Records, UpdateAddHtlc, UpdateFailHtlc, UpdateFailMalformedHtlc, UpdateFee,
    UpdateFulfillHtlc,
};
use std::alloc::{AllocError, Global};

/// The message that offers this HTLC (BOLT 2, "Adding an HTLC: `update_add_htlc`"). Takes no memory.
pub fn add_message(alloc: Global, channel: [u8; 32], add: &Add) -> UpdateAddHtlc
    ensures { result ≡ add_message channel add.now }
{
    UpdateAddHtlc {
        channel_id: channel,
        id: add.id,
        amount_msat: add.amount,
        payment_hash: add.hash,
        cltv_expiry: add.expiry,
        onion: add.onion,
        records: Records::empty(alloc),
    }
}

/// The message that fulfils an HTLC (BOLT 2, "Removing an HTLC: `update_fulfill_htlc`"). Takes no memory.
pub fn fulfil_message(alloc: Global, channel: [u8; 32], fulfil: &Fulfil) -> UpdateFulfillHtlc
    ensures { result ≡ fulfil_message channel fulfil.now }
{
    UpdateFulfillHtlc {
        channel_id: channel,
        id: fulfil.id,
        preimage: fulfil.preimage,
        records: Records::empty(alloc),
    }
}

/// The message that fails an HTLC (BOLT 2, "Removing an HTLC: `update_fail_htlc`"). `AllocError` where there was no
/// memory for the reason.
pub fn fail_message(
    alloc: Global,
    channel: [u8; 32],
    fail: &Fail,
) -> Result<UpdateFailHtlc, AllocError>
    ensures { IfOk result (λ m. m ≡ fail_message channel fail.now) }
{
    Ok(UpdateFailHtlc {
        channel_id: channel,
        id: fail.id,
        reason: Bytes::from_slice(alloc, fail.reason.as_slice())?,
        records: Records::empty(alloc),
    })
}

/// The message that fails an HTLC whose onion can't be read (BOLT 2, "Removing an HTLC:
/// `update_fail_malformed_htlc`"). Takes no memory.
pub fn malformed_message(
    alloc: Global,
    channel: [u8; 32],
    malformed: &Malformed,
) -> UpdateFailMalformedHtlc
    ensures { result ≡ malformed_message channel malformed.now }
{
    UpdateFailMalformedHtlc {
        channel_id: channel,
        id: malformed.id,
        sha256_of_onion: malformed.sha256_of_onion,
        failure_code: malformed.failure_code,
        records: Records::empty(alloc),
    }
}

/// The message that changes the feerate (BOLT 2, "Updating Fees: `update_fee`"). Takes no memory.
pub fn fee_message(alloc: Global, channel: [u8; 32], fee: &Fee) -> UpdateFee
    ensures { result ≡ fee_message channel fee.now }
{
    UpdateFee {
        channel_id: channel,
        feerate_per_kw: fee.feerate,
        records: Records::empty(alloc),
    }
}

/// The message that tells an update of a channel (BOLT 2, "Normal Operation"). Where an add came from isn't told.
/// `AllocError` where there was no memory for the reason of a failure; the others take none.
pub fn update_message(
    alloc: Global,
    channel: [u8; 32],
    update: &Update,
) -> Result<Message, AllocError>
    ensures { IfOk result (λ m. m ≡ update_message channel update.now) }
{
    Ok(match update {
        Update::Add(add) => Message::UpdateAddHtlc(add_message(alloc, channel, add)),
        Update::Fulfil(fulfil) => {
            Message::UpdateFulfillHtlc(fulfil_message(alloc, channel, fulfil))
        }
        Update::Fail(fail) => Message::UpdateFailHtlc(fail_message(alloc, channel, fail)?),
        Update::Malformed(malformed) => {
            Message::UpdateFailMalformedHtlc(malformed_message(alloc, channel, malformed))
        }
        Update::Fee(fee) => Message::UpdateFee(fee_message(alloc, channel, fee)),
    })
}

// The HTLC that a message offers, of no known origin.
fn add_of(message: &UpdateAddHtlc) -> Add
    ensures { result ≡ add_of message.now }
{
    Add {
        id: message.id,
        amount: message.amount_msat,
        hash: message.payment_hash,
        expiry: message.cltv_expiry,
        onion: message.onion,
        origin: None,
    }
}

// The fulfilment that a message tells.
fn fulfil_of(message: &UpdateFulfillHtlc) -> Fulfil
    ensures { result ≡ fulfil_of message.now }
{
    Fulfil {
        id: message.id,
        preimage: message.preimage,
    }
}

// The failure by an unreadable onion that a message tells.
fn malformed_of(message: &UpdateFailMalformedHtlc) -> Malformed
    ensures { result ≡ malformed_of message.now }
{
    Malformed {
        id: message.id,
        sha256_of_onion: message.sha256_of_onion,
        failure_code: message.failure_code,
    }
}

// The feerate that a message tells.
fn fee_of(message: &UpdateFee) -> Fee
    ensures { result ≡ fee_of message.now }
{
    Fee {
        feerate: message.feerate_per_kw,
    }
}

/// The update that a message tells, and none where it tells none (BOLT 2, "Normal Operation"). An add is of no known
/// origin. Takes no memory.
pub fn update_of(message: Message) -> Option<Update>
    ensures { result ≡ update_of message }
{
    match &message {
        Message::UpdateAddHtlc(message) => Some(Update::Add(add_of(message))),
        Message::UpdateFulfillHtlc(message) => Some(Update::Fulfil(fulfil_of(message))),
        Message::UpdateFailHtlc(_) => failed_of(message.into_failure()),
        Message::UpdateFailMalformedHtlc(message) => Some(Update::Malformed(malformed_of(message))),
        Message::UpdateFee(message) => Some(Update::Fee(fee_of(message))),
        _ => None,
    }
}

// The failure that a message tells, with the message's own bytes as its reason.
fn failed_of(message: Option<UpdateFailHtlc>) -> Option<Update>
    ensures { result ≡ failed_of message }
{
    match message {
        Some(message) => Some(Update::Fail(Fail {
            id: message.id,
            reason: message.reason,
        })),
        None => None,
    }
}

/// A law: the message of an update tells that update as it is sent.
pub fn update_is_told_as_sent()
    ensures { (channel : List ℕ) (u : Update) → update_of (update_message channel u) ≡ Some (as_sent u) }
{}
