//! Messages that commit to updates, revoke, and take a channel up again.

use crate::codec::field::{array_at, signatures_at, u64_at};
use crate::messages::item::Item;
use crate::messages::item_list::Items;
use crate::messages::records::{Records, records_at};
use ln_bytes::{Fault, Signatures};
use std::alloc::Global;

/// Signs the other side's next commitment (BOLT 2, "Committing Updates So Far: `commitment_signed`").
#[derive(Drop)]
pub struct CommitmentSigned {
    /// The channel.
    pub channel_id: [u8; 32],
    /// A signature, 64 bytes.
    pub signature: [u8; 64],
    /// A signature for each HTLC.
    pub htlc_signatures: Signatures,
    /// The records after the fields.
    pub records: Records,
}

/// Revokes the last commitment, and gives the point of the one after the next (BOLT 2, "Completing the
/// Transition to the Updated State: `revoke_and_ack`").
#[derive(Drop)]
pub struct RevokeAndAck {
    /// The channel.
    pub channel_id: [u8; 32],
    /// The secret of the commitment that is revoked.
    pub secret: [u8; 32],
    /// The point of the commitment after the next.
    pub next_point: [u8; 33],
    /// The records after the fields.
    pub records: Records,
}

/// Tells how far the channel was when the connection broke (BOLT 2, "Message Retransmission").
#[derive(Drop)]
pub struct ChannelReestablish {
    /// The channel.
    pub channel_id: [u8; 32],
    /// The number of the next commitment that the sender expects.
    pub next_commitment_number: u64,
    /// The number of the next revocation that it expects.
    pub next_revocation_number: u64,
    /// The last secret that it received; zeros for none.
    pub last_secret: [u8; 32],
    /// The point of the sender's own commitment.
    pub current_point: [u8; 33],
    /// The records after the fields.
    pub records: Records,
}

ghost use Rattle.ln_bytes.specs.Reading.{Gives};
ghost use Rattle.ln_msgs.specs.Messages.Items.{AreItemsOf};
ghost use Rattle.ln_msgs.specs.Messages.Table.{commitment_signed_form, revoke_and_ack_form, channel_reestablish_form};
ghost use Rattle.ln_msgs.specs.Messages.Message.{Known, formed_at};
ghost use Rattle.ln_msgs.specs.Messages.Typed.{commitment_signed_wire, revoke_and_ack_wire, channel_reestablish_wire};

#[tactic(auto, unfolding(crate::specs::Messages::Message::formed_at))]
pub(crate) fn read_commitment_signed(
    alloc: Global,
    payload: &[u8],
) -> Result<CommitmentSigned, Fault>
    ensures { Gives (λ m. Known (commitment_signed_wire m)) result (formed_at commitment_signed_form 132 payload.now) }
{
    let (channel_id, rest) = array_at(payload)?;
    let (signature, rest) = array_at(rest)?;
    let (htlc_signatures, rest) = signatures_at(alloc, rest)?;
    let records = records_at(alloc, rest, &[])?;
    Ok(CommitmentSigned {
        channel_id,
        signature,
        htlc_signatures,
        records,
    })
}

#[tactic(auto, unfolding(crate::specs::Messages::Message::formed_at))]
pub(crate) fn read_revoke_and_ack(alloc: Global, payload: &[u8]) -> Result<RevokeAndAck, Fault>
    ensures { Gives (λ m. Known (revoke_and_ack_wire m)) result (formed_at revoke_and_ack_form 133 payload.now) }
{
    let (channel_id, rest) = array_at(payload)?;
    let (secret, rest) = array_at(rest)?;
    let (next_point, rest) = array_at(rest)?;
    let records = records_at(alloc, rest, &[])?;
    Ok(RevokeAndAck {
        channel_id,
        secret,
        next_point,
        records,
    })
}

#[tactic(auto, unfolding(crate::specs::Messages::Message::formed_at))]
pub(crate) fn read_channel_reestablish(
    alloc: Global,
    payload: &[u8],
) -> Result<ChannelReestablish, Fault>
    ensures { Gives (λ m. Known (channel_reestablish_wire m)) result
        (formed_at channel_reestablish_form 136 payload.now) }
{
    let (channel_id, rest) = array_at(payload)?;
    let (next_commitment_number, rest) = u64_at(rest)?;
    let (next_revocation_number, rest) = u64_at(rest)?;
    let (last_secret, rest) = array_at(rest)?;
    let (current_point, rest) = array_at(rest)?;
    let records = records_at(alloc, rest, &[])?;
    Ok(ChannelReestablish {
        channel_id,
        next_commitment_number,
        next_revocation_number,
        last_secret,
        current_point,
        records,
    })
}

impl CommitmentSigned {
    /// The values of the fields in their order.
    pub(crate) fn items(&self) -> Items<'_>
        ensures { AreItemsOf commitment_signed_form (commitment_signed_wire self.now) result }
    {
        Items::of(&[
            Item::Fixed(&self.channel_id),
            Item::Fixed(&self.signature),
            Item::Listed(self.htlc_signatures.as_slice()),
        ])
    }
}

impl RevokeAndAck {
    /// The values of the fields in their order.
    pub(crate) fn items(&self) -> Items<'_>
        ensures { AreItemsOf revoke_and_ack_form (revoke_and_ack_wire self.now) result }
    {
        Items::of(&[
            Item::Fixed(&self.channel_id),
            Item::Fixed(&self.secret),
            Item::Fixed(&self.next_point),
        ])
    }
}

impl ChannelReestablish {
    /// The values of the fields in their order.
    pub(crate) fn items(&self) -> Items<'_>
        ensures { AreItemsOf channel_reestablish_form (channel_reestablish_wire self.now) result }
    {
        Items::of(&[
            Item::Fixed(&self.channel_id),
            Item::U64(self.next_commitment_number),
            Item::U64(self.next_revocation_number),
            Item::Fixed(&self.last_secret),
            Item::Fixed(&self.current_point),
        ])
    }
}
