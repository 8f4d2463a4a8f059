//! Messages that update a channel: HTLCs and fees.

use crate::codec::field::{array_at, bytes_at, u16_at, u32_at, u64_at};
use crate::messages::item::Item;
use crate::messages::item_list::Items;
use crate::messages::records::{Records, records_at};
use ln_bytes::{Bytes, Fault};
use std::alloc::Global;

/// Offers an HTLC (BOLT 2, "Adding an HTLC: `update_add_htlc`").
#[derive(Drop)]
pub struct UpdateAddHtlc {
    /// The channel.
    pub channel_id: [u8; 32],
    /// The HTLC's id, which its offerer counts.
    pub id: u64,
    /// The amount, in msat.
    pub amount_msat: u64,
    /// The hash of the preimage.
    pub payment_hash: [u8; 32],
    /// The block height at which it expires.
    pub cltv_expiry: u32,
    /// The onion packet.
    pub onion: [u8; 1366],
    /// The records after the fields.
    pub records: Records,
}

/// Removes an HTLC by its preimage (BOLT 2, "Removing an HTLC").
#[derive(Drop)]
pub struct UpdateFulfillHtlc {
    /// The channel.
    pub channel_id: [u8; 32],
    /// The HTLC's id, which its offerer counts.
    pub id: u64,
    /// The preimage of the payment hash.
    pub preimage: [u8; 32],
    /// The records after the fields.
    pub records: Records,
}

/// Removes an HTLC that failed (BOLT 2, "Removing an HTLC").
#[derive(Drop)]
pub struct UpdateFailHtlc {
    /// The channel.
    pub channel_id: [u8; 32],
    /// The HTLC's id, which its offerer counts.
    pub id: u64,
    /// The failure, wrapped for the sender of the payment.
    pub reason: Bytes,
    /// The records after the fields.
    pub records: Records,
}

/// Removes an HTLC whose onion couldn't be read (BOLT 2, "Removing an HTLC").
#[derive(Drop)]
pub struct UpdateFailMalformedHtlc {
    /// The channel.
    pub channel_id: [u8; 32],
    /// The HTLC's id, which its offerer counts.
    pub id: u64,
    /// The hash of the onion packet.
    pub sha256_of_onion: [u8; 32],
    /// The failure code, with the BADONION bit.
    pub failure_code: u16,
    /// The records after the fields.
    pub records: Records,
}

/// Sets the commitments' feerate (BOLT 2, "Updating Fees: `update_fee`").
#[derive(Drop)]
pub struct UpdateFee {
    /// The channel.
    pub channel_id: [u8; 32],
    /// The feerate from now on, in satoshis for 1000 units of weight.
    pub feerate_per_kw: u32,
    /// The records after the fields.
    pub records: Records,
}

ghost use Rattle.ln_bytes.specs.Reading.{Gives};
ghost use Rattle.ln_msgs.specs.Messages.Items.{AreItemsOf};
ghost use Rattle.ln_msgs.specs.Messages.Table.{add_form, fulfill_form, fail_form, malformed_form, fee_form};
ghost use Rattle.ln_msgs.specs.Messages.Message.{Known, formed_at};
ghost use Rattle.ln_msgs.specs.Messages.Typed.{add_wire, fulfill_wire, fail_wire, malformed_wire, fee_wire};

#[tactic(auto, unfolding(crate::specs::Messages::Message::formed_at))]
pub(crate) fn read_update_add_htlc(alloc: Global, payload: &[u8]) -> Result<UpdateAddHtlc, Fault>
    ensures { Gives (λ m. Known (add_wire m)) result (formed_at add_form 128 payload.now) }
{
    let (channel_id, rest) = array_at(payload)?;
    let (id, rest) = u64_at(rest)?;
    let (amount_msat, rest) = u64_at(rest)?;
    let (payment_hash, rest) = array_at(rest)?;
    let (cltv_expiry, rest) = u32_at(rest)?;
    let (onion, rest) = array_at(rest)?;
    let records = records_at(alloc, rest, &[])?;
    Ok(UpdateAddHtlc {
        channel_id,
        id,
        amount_msat,
        payment_hash,
        cltv_expiry,
        onion,
        records,
    })
}

#[tactic(auto, unfolding(crate::specs::Messages::Message::formed_at))]
pub(crate) fn read_update_fulfill_htlc(
    alloc: Global,
    payload: &[u8],
) -> Result<UpdateFulfillHtlc, Fault>
    ensures { Gives (λ m. Known (fulfill_wire m)) result (formed_at fulfill_form 130 payload.now) }
{
    let (channel_id, rest) = array_at(payload)?;
    let (id, rest) = u64_at(rest)?;
    let (preimage, rest) = array_at(rest)?;
    let records = records_at(alloc, rest, &[])?;
    Ok(UpdateFulfillHtlc {
        channel_id,
        id,
        preimage,
        records,
    })
}

#[tactic(auto, unfolding(crate::specs::Messages::Message::formed_at))]
pub(crate) fn read_update_fail_htlc(alloc: Global, payload: &[u8]) -> Result<UpdateFailHtlc, Fault>
    ensures { Gives (λ m. Known (fail_wire m)) result (formed_at fail_form 131 payload.now) }
{
    let (channel_id, rest) = array_at(payload)?;
    let (id, rest) = u64_at(rest)?;
    let (reason, rest) = bytes_at(alloc, rest)?;
    let records = records_at(alloc, rest, &[])?;
    Ok(UpdateFailHtlc {
        channel_id,
        id,
        reason,
        records,
    })
}

#[tactic(auto, unfolding(crate::specs::Messages::Message::formed_at))]
pub(crate) fn read_update_fail_malformed_htlc(
    alloc: Global,
    payload: &[u8],
) -> Result<UpdateFailMalformedHtlc, Fault>
    ensures { Gives (λ m. Known (malformed_wire m)) result (formed_at malformed_form 135 payload.now) }
{
    let (channel_id, rest) = array_at(payload)?;
    let (id, rest) = u64_at(rest)?;
    let (sha256_of_onion, rest) = array_at(rest)?;
    let (failure_code, rest) = u16_at(rest)?;
    let records = records_at(alloc, rest, &[])?;
    Ok(UpdateFailMalformedHtlc {
        channel_id,
        id,
        sha256_of_onion,
        failure_code,
        records,
    })
}

#[tactic(auto, unfolding(crate::specs::Messages::Message::formed_at))]
pub(crate) fn read_update_fee(alloc: Global, payload: &[u8]) -> Result<UpdateFee, Fault>
    ensures { Gives (λ m. Known (fee_wire m)) result (formed_at fee_form 134 payload.now) }
{
    let (channel_id, rest) = array_at(payload)?;
    let (feerate_per_kw, rest) = u32_at(rest)?;
    let records = records_at(alloc, rest, &[])?;
    Ok(UpdateFee {
        channel_id,
        feerate_per_kw,
        records,
    })
}

impl UpdateAddHtlc {
    /// The values of the fields in their order.
    pub(crate) fn items(&self) -> Items<'_>
        ensures { AreItemsOf add_form (add_wire self.now) result }
    {
        Items::of(&[
            Item::Fixed(&self.channel_id),
            Item::U64(self.id),
            Item::U64(self.amount_msat),
            Item::Fixed(&self.payment_hash),
            Item::U32(self.cltv_expiry),
            Item::Fixed(&self.onion),
        ])
    }
}

impl UpdateFulfillHtlc {
    /// The values of the fields in their order.
    pub(crate) fn items(&self) -> Items<'_>
        ensures { AreItemsOf fulfill_form (fulfill_wire self.now) result }
    {
        Items::of(&[
            Item::Fixed(&self.channel_id),
            Item::U64(self.id),
            Item::Fixed(&self.preimage),
        ])
    }
}

impl UpdateFailHtlc {
    /// The values of the fields in their order.
    pub(crate) fn items(&self) -> Items<'_>
        ensures { AreItemsOf fail_form (fail_wire self.now) result }
    {
        Items::of(&[
            Item::Fixed(&self.channel_id),
            Item::U64(self.id),
            Item::Sized(self.reason.as_slice()),
        ])
    }
}

impl UpdateFailMalformedHtlc {
    /// The values of the fields in their order.
    pub(crate) fn items(&self) -> Items<'_>
        ensures { AreItemsOf malformed_form (malformed_wire self.now) result }
    {
        Items::of(&[
            Item::Fixed(&self.channel_id),
            Item::U64(self.id),
            Item::Fixed(&self.sha256_of_onion),
            Item::U16(self.failure_code),
        ])
    }
}

impl UpdateFee {
    /// The values of the fields in their order.
    pub(crate) fn items(&self) -> Items<'_>
        ensures { AreItemsOf fee_form (fee_wire self.now) result }
    {
        Items::of(&[
            Item::Fixed(&self.channel_id),
            Item::U32(self.feerate_per_kw),
        ])
    }
}
