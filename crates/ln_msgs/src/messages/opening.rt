//! Messages that open a channel.

use crate::codec::field::{array_at, u8_at, u16_at, u32_at, u64_at};
use crate::messages::item::Item;
use crate::messages::item_list::Items;
use crate::messages::records::{Records, have_length, records_at};
use ln_bytes::Fault;
use std::alloc::Global;

/// Asks the other side to open a channel that the sender funds (BOLT 2, "The `open_channel` Message").
#[derive(Drop)]
pub struct OpenChannel {
    /// The chain, by the hash of its first block.
    pub chain_hash: [u8; 32],
    /// The id of the channel until its funding is known.
    pub temporary_id: [u8; 32],
    /// What the sender puts in, in satoshis.
    pub funding_satoshis: u64,
    /// What of that is the receiver's at once, in msat.
    pub push_msat: u64,
    /// Below this the sender has no output of its own, in satoshis.
    pub dust_limit_satoshis: u64,
    /// The sum of all HTLCs offered to the sender at most, in msat.
    pub max_htlc_value_in_flight_msat: u64,
    /// What the receiver keeps of its own, in satoshis.
    pub channel_reserve_satoshis: u64,
    /// The least HTLC that the sender takes, in msat.
    pub htlc_minimum_msat: u64,
    /// Satoshis for 1000 units of weight.
    pub feerate_per_kw: u32,
    /// Blocks that the receiver's own outputs wait.
    pub to_self_delay: u16,
    /// How many HTLCs may be offered to the sender at once.
    pub max_accepted_htlcs: u16,
    /// A point.
    pub funding_pubkey: [u8; 33],
    /// A point.
    pub revocation_basepoint: [u8; 33],
    /// A point.
    pub payment_basepoint: [u8; 33],
    /// A point.
    pub delayed_payment_basepoint: [u8; 33],
    /// A point.
    pub htlc_basepoint: [u8; 33],
    /// The point of commitment 0.
    pub first_per_commitment_point: [u8; 33],
    /// Flags; bit 0 announces the channel.
    pub channel_flags: u8,
    /// The records after the fields.
    pub records: Records,
}

/// Agrees to open a channel (BOLT 2, "The `accept_channel` Message").
#[derive(Drop)]
pub struct AcceptChannel {
    /// The id of the channel until its funding is known.
    pub temporary_id: [u8; 32],
    /// Below this the sender has no output of its own, in satoshis.
    pub dust_limit_satoshis: u64,
    /// The sum of all HTLCs offered to the sender at most, in msat.
    pub max_htlc_value_in_flight_msat: u64,
    /// What the receiver keeps of its own, in satoshis.
    pub channel_reserve_satoshis: u64,
    /// The least HTLC that the sender takes, in msat.
    pub htlc_minimum_msat: u64,
    /// Blocks before the channel is ready.
    pub minimum_depth: u32,
    /// Blocks that the receiver's own outputs wait.
    pub to_self_delay: u16,
    /// How many HTLCs may be offered to the sender at once.
    pub max_accepted_htlcs: u16,
    /// A point.
    pub funding_pubkey: [u8; 33],
    /// A point.
    pub revocation_basepoint: [u8; 33],
    /// A point.
    pub payment_basepoint: [u8; 33],
    /// A point.
    pub delayed_payment_basepoint: [u8; 33],
    /// A point.
    pub htlc_basepoint: [u8; 33],
    /// The point of commitment 0.
    pub first_per_commitment_point: [u8; 33],
    /// The records after the fields.
    pub records: Records,
}

/// Names the funding output, and signs the fundee's first commitment (BOLT 2, "The `funding_created`
/// Message").
#[derive(Drop)]
pub struct FundingCreated {
    /// The id of the channel until its funding is known.
    pub temporary_id: [u8; 32],
    /// The funding transaction's id.
    pub funding_txid: [u8; 32],
    /// Its output that funds the channel.
    pub output_index: u16,
    /// A signature, 64 bytes.
    pub signature: [u8; 64],
    /// The records after the fields.
    pub records: Records,
}

/// Signs the funder's first commitment (BOLT 2, "The `funding_signed` Message").
#[derive(Drop)]
pub struct FundingSigned {
    /// The channel.
    pub channel_id: [u8; 32],
    /// A signature, 64 bytes.
    pub signature: [u8; 64],
    /// The records after the fields.
    pub records: Records,
}

/// Tells that the funding is deep enough for use (BOLT 2, "The `channel_ready` Message").
#[derive(Drop)]
pub struct ChannelReady {
    /// The channel.
    pub channel_id: [u8; 32],
    /// The point of commitment 1.
    pub second_point: [u8; 33],
    /// The records after the fields.
    pub records: Records,
}

ghost use Rattle.ln_bytes.specs.Reading.{Gives};
ghost use Rattle.ln_msgs.specs.Messages.Items.{AreItemsOf};
ghost use Rattle.ln_msgs.specs.Messages.Table.{open_form, accept_form, funding_created_form, funding_signed_form};
ghost use Rattle.ln_msgs.specs.Messages.Table.{channel_ready_form};
ghost use Rattle.ln_msgs.specs.Messages.Message.{Known, formed_at};
ghost use Rattle.ln_msgs.specs.Codec.Pieces.{group_at, pieced_at, funding_kinds, funding_values, amount_kinds};
ghost use Rattle.ln_msgs.specs.Codec.Pieces.{amount_values, point_kinds, point_values, open_pieces, accept_pieces};
ghost use Rattle.ln_msgs.specs.Messages.Typed.{open_wire, accept_wire, funding_created_wire, funding_signed_wire};
ghost use Rattle.ln_msgs.specs.Messages.Typed.{channel_ready_wire};

/// What `open_channel` begins with.
#[derive(Clone, Copy)]
pub(crate) struct Funding {
    chain_hash: [u8; 32],
    temporary_id: [u8; 32],
    funding_satoshis: u64,
    push_msat: u64,
}

/// The amounts that stand in `open_channel` and in `accept_channel`.
#[derive(Clone, Copy)]
pub(crate) struct Amounts {
    dust_limit_satoshis: u64,
    max_htlc_value_in_flight_msat: u64,
    channel_reserve_satoshis: u64,
    htlc_minimum_msat: u64,
}

/// The points that stand in both.
#[derive(Clone, Copy)]
pub(crate) struct Points {
    funding_pubkey: [u8; 33],
    revocation_basepoint: [u8; 33],
    payment_basepoint: [u8; 33],
    delayed_payment_basepoint: [u8; 33],
    htlc_basepoint: [u8; 33],
    first_per_commitment_point: [u8; 33],
}

#[tactic(auto, unfolding(crate::specs::Codec::Pieces::group_at))]
fn funding_at(bytes: &[u8]) -> Result<(Funding, &[u8]), Fault>
    ensures { Gives (λ x. (funding_values x.0, x.1.now)) result (group_at funding_kinds bytes.now) }
{
    let (chain_hash, rest) = array_at(bytes)?;
    let (temporary_id, rest) = array_at(rest)?;
    let (funding_satoshis, rest) = u64_at(rest)?;
    let (push_msat, rest) = u64_at(rest)?;
    let funding = Funding {
        chain_hash,
        temporary_id,
        funding_satoshis,
        push_msat,
    };
    Ok((funding, rest))
}

#[tactic(auto, unfolding(crate::specs::Codec::Pieces::group_at))]
fn amounts_at(bytes: &[u8]) -> Result<(Amounts, &[u8]), Fault>
    ensures { Gives (λ x. (amount_values x.0, x.1.now)) result (group_at amount_kinds bytes.now) }
{
    let (dust_limit_satoshis, rest) = u64_at(bytes)?;
    let (max_htlc_value_in_flight_msat, rest) = u64_at(rest)?;
    let (channel_reserve_satoshis, rest) = u64_at(rest)?;
    let (htlc_minimum_msat, rest) = u64_at(rest)?;
    let amounts = Amounts {
        dust_limit_satoshis,
        max_htlc_value_in_flight_msat,
        channel_reserve_satoshis,
        htlc_minimum_msat,
    };
    Ok((amounts, rest))
}

#[tactic(auto, unfolding(crate::specs::Codec::Pieces::group_at))]
fn points_at(bytes: &[u8]) -> Result<(Points, &[u8]), Fault>
    ensures { Gives (λ x. (point_values x.0, x.1.now)) result (group_at point_kinds bytes.now) }
{
    let (funding_pubkey, rest) = array_at(bytes)?;
    let (revocation_basepoint, rest) = array_at(rest)?;
    let (payment_basepoint, rest) = array_at(rest)?;
    let (delayed_payment_basepoint, rest) = array_at(rest)?;
    let (htlc_basepoint, rest) = array_at(rest)?;
    let (first_per_commitment_point, rest) = array_at(rest)?;
    let points = Points {
        funding_pubkey,
        revocation_basepoint,
        payment_basepoint,
        delayed_payment_basepoint,
        htlc_basepoint,
        first_per_commitment_point,
    };
    Ok((points, rest))
}

pub(crate) fn read_open_channel(alloc: Global, payload: &[u8]) -> Result<OpenChannel, Fault>
    ensures { Gives (λ m. Known (open_wire m)) result (formed_at open_form 32 payload.now) }
{
    open_in_pieces(alloc, payload)
}

#[tactic(auto, unfolding(crate::specs::Codec::Pieces::pieced_at))]
fn open_in_pieces(alloc: Global, payload: &[u8]) -> Result<OpenChannel, Fault>
    ensures { Gives (λ m. Known (open_wire m)) result (pieced_at open_pieces open_form 32 payload.now) }
{
    let (funding, rest) = funding_at(payload)?;
    let (amounts, rest) = amounts_at(rest)?;
    let (feerate_per_kw, rest) = u32_at(rest)?;
    let (to_self_delay, rest) = u16_at(rest)?;
    let (max_accepted_htlcs, rest) = u16_at(rest)?;
    let (points, rest) = points_at(rest)?;
    let (channel_flags, rest) = u8_at(rest)?;
    let records = records_at(alloc, rest, &[0])?;
    let Funding {
        chain_hash,
        temporary_id,
        funding_satoshis,
        push_msat,
    } = funding;
    let Amounts {
        dust_limit_satoshis,
        max_htlc_value_in_flight_msat,
        channel_reserve_satoshis,
        htlc_minimum_msat,
    } = amounts;
    let Points {
        funding_pubkey,
        revocation_basepoint,
        payment_basepoint,
        delayed_payment_basepoint,
        htlc_basepoint,
        first_per_commitment_point,
    } = points;
    Ok(OpenChannel {
        chain_hash,
        temporary_id,
        funding_satoshis,
        push_msat,
        dust_limit_satoshis,
        max_htlc_value_in_flight_msat,
        channel_reserve_satoshis,
        htlc_minimum_msat,
        feerate_per_kw,
        to_self_delay,
        max_accepted_htlcs,
        funding_pubkey,
        revocation_basepoint,
        payment_basepoint,
        delayed_payment_basepoint,
        htlc_basepoint,
        first_per_commitment_point,
        channel_flags,
        records,
    })
}

pub(crate) fn read_accept_channel(alloc: Global, payload: &[u8]) -> Result<AcceptChannel, Fault>
    ensures { Gives (λ m. Known (accept_wire m)) result (formed_at accept_form 33 payload.now) }
{
    accept_in_pieces(alloc, payload)
}

#[tactic(auto, unfolding(crate::specs::Codec::Pieces::pieced_at))]
fn accept_in_pieces(alloc: Global, payload: &[u8]) -> Result<AcceptChannel, Fault>
    ensures { Gives (λ m. Known (accept_wire m)) result (pieced_at accept_pieces accept_form 33 payload.now) }
{
    let (temporary_id, rest) = array_at(payload)?;
    let (amounts, rest) = amounts_at(rest)?;
    let (minimum_depth, rest) = u32_at(rest)?;
    let (to_self_delay, rest) = u16_at(rest)?;
    let (max_accepted_htlcs, rest) = u16_at(rest)?;
    let (points, rest) = points_at(rest)?;
    let records = records_at(alloc, rest, &[0])?;
    let Amounts {
        dust_limit_satoshis,
        max_htlc_value_in_flight_msat,
        channel_reserve_satoshis,
        htlc_minimum_msat,
    } = amounts;
    let Points {
        funding_pubkey,
        revocation_basepoint,
        payment_basepoint,
        delayed_payment_basepoint,
        htlc_basepoint,
        first_per_commitment_point,
    } = points;
    Ok(AcceptChannel {
        temporary_id,
        dust_limit_satoshis,
        max_htlc_value_in_flight_msat,
        channel_reserve_satoshis,
        htlc_minimum_msat,
        minimum_depth,
        to_self_delay,
        max_accepted_htlcs,
        funding_pubkey,
        revocation_basepoint,
        payment_basepoint,
        delayed_payment_basepoint,
        htlc_basepoint,
        first_per_commitment_point,
        records,
    })
}

#[tactic(auto, unfolding(crate::specs::Messages::Message::formed_at))]
pub(crate) fn read_funding_created(alloc: Global, payload: &[u8]) -> Result<FundingCreated, Fault>
    ensures { Gives (λ m. Known (funding_created_wire m)) result (formed_at funding_created_form 34 payload.now) }
{
    let (temporary_id, rest) = array_at(payload)?;
    let (funding_txid, rest) = array_at(rest)?;
    let (output_index, rest) = u16_at(rest)?;
    let (signature, rest) = array_at(rest)?;
    let records = records_at(alloc, rest, &[])?;
    Ok(FundingCreated {
        temporary_id,
        funding_txid,
        output_index,
        signature,
        records,
    })
}

#[tactic(auto, unfolding(crate::specs::Messages::Message::formed_at))]
pub(crate) fn read_funding_signed(alloc: Global, payload: &[u8]) -> Result<FundingSigned, Fault>
    ensures { Gives (λ m. Known (funding_signed_wire m)) result (formed_at funding_signed_form 35 payload.now) }
{
    let (channel_id, rest) = array_at(payload)?;
    let (signature, rest) = array_at(rest)?;
    let records = records_at(alloc, rest, &[])?;
    Ok(FundingSigned {
        channel_id,
        signature,
        records,
    })
}

#[tactic(auto, unfolding(crate::specs::Messages::Message::formed_at))]
pub(crate) fn read_channel_ready(alloc: Global, payload: &[u8]) -> Result<ChannelReady, Fault>
    ensures { Gives (λ m. Known (channel_ready_wire m)) result (formed_at channel_ready_form 36 payload.now) }
{
    let (channel_id, rest) = array_at(payload)?;
    let (second_point, rest) = array_at(rest)?;
    let records = records_at(alloc, rest, &[])?;
    if !have_length(records.as_slice(), 1, 8) {
        return Err(Fault::FieldLength);
    }
    Ok(ChannelReady {
        channel_id,
        second_point,
        records,
    })
}

impl OpenChannel {
    /// The values of the fields in their order.
    pub(crate) fn items(&self) -> Items<'_>
        ensures { AreItemsOf open_form (open_wire self.now) result }
    {
        Items::of(&[
            Item::Fixed(&self.chain_hash),
            Item::Fixed(&self.temporary_id),
            Item::U64(self.funding_satoshis),
            Item::U64(self.push_msat),
            Item::U64(self.dust_limit_satoshis),
            Item::U64(self.max_htlc_value_in_flight_msat),
            Item::U64(self.channel_reserve_satoshis),
            Item::U64(self.htlc_minimum_msat),
            Item::U32(self.feerate_per_kw),
            Item::U16(self.to_self_delay),
            Item::U16(self.max_accepted_htlcs),
            Item::Fixed(&self.funding_pubkey),
            Item::Fixed(&self.revocation_basepoint),
            Item::Fixed(&self.payment_basepoint),
            Item::Fixed(&self.delayed_payment_basepoint),
            Item::Fixed(&self.htlc_basepoint),
            Item::Fixed(&self.first_per_commitment_point),
            Item::U8(self.channel_flags),
        ])
    }
}

impl AcceptChannel {
    /// The values of the fields in their order.
    pub(crate) fn items(&self) -> Items<'_>
        ensures { AreItemsOf accept_form (accept_wire self.now) result }
    {
        Items::of(&[
            Item::Fixed(&self.temporary_id),
            Item::U64(self.dust_limit_satoshis),
            Item::U64(self.max_htlc_value_in_flight_msat),
            Item::U64(self.channel_reserve_satoshis),
            Item::U64(self.htlc_minimum_msat),
            Item::U32(self.minimum_depth),
            Item::U16(self.to_self_delay),
            Item::U16(self.max_accepted_htlcs),
            Item::Fixed(&self.funding_pubkey),
            Item::Fixed(&self.revocation_basepoint),
            Item::Fixed(&self.payment_basepoint),
            Item::Fixed(&self.delayed_payment_basepoint),
            Item::Fixed(&self.htlc_basepoint),
            Item::Fixed(&self.first_per_commitment_point),
        ])
    }
}

impl FundingCreated {
    /// The values of the fields in their order.
    pub(crate) fn items(&self) -> Items<'_>
        ensures { AreItemsOf funding_created_form (funding_created_wire self.now) result }
    {
        Items::of(&[
            Item::Fixed(&self.temporary_id),
            Item::Fixed(&self.funding_txid),
            Item::U16(self.output_index),
            Item::Fixed(&self.signature),
        ])
    }
}

impl FundingSigned {
    /// The values of the fields in their order.
    pub(crate) fn items(&self) -> Items<'_>
        ensures { AreItemsOf funding_signed_form (funding_signed_wire self.now) result }
    {
        Items::of(&[Item::Fixed(&self.channel_id), Item::Fixed(&self.signature)])
    }
}

impl ChannelReady {
    /// The values of the fields in their order.
    pub(crate) fn items(&self) -> Items<'_>
        ensures { AreItemsOf channel_ready_form (channel_ready_wire self.now) result }
    {
        Items::of(&[
            Item::Fixed(&self.channel_id),
            Item::Fixed(&self.second_point),
        ])
    }
}
