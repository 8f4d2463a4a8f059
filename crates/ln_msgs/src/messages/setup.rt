//! Messages of a connection: init, errors, pings.

use crate::codec::field::{array_at, bytes_at, u16_at};
use crate::messages::item::Item;
use crate::messages::item_list::Items;
use crate::messages::records::{Records, records_at};
use ln_bytes::{Bytes, Fault};
use std::alloc::Global;

/// Tells of a problem that closes no channel (BOLT 1, "The `error` and `warning` Messages").
#[derive(Drop)]
pub struct Warning {
    /// The channel.
    pub channel_id: [u8; 32],
    /// What is wrong, as ASCII text or other bytes.
    pub bytes: Bytes,
    /// The records after the fields.
    pub records: Records,
}

/// The first message of a connection: what features a side has (BOLT 1, "The `init` Message").
#[derive(Drop)]
pub struct Init {
    /// Feature bits, the lowest in the last byte; joined to `features`.
    pub global_features: Bytes,
    /// Feature bits, the lowest in the last byte.
    pub features: Bytes,
    /// The records after the fields.
    pub records: Records,
}

/// Tells of a problem that fails the channel, or all channels where its id is all zeros (BOLT 1, "The
/// `error` and `warning` Messages").
#[derive(Drop)]
pub struct Error {
    /// The channel.
    pub channel_id: [u8; 32],
    /// What is wrong, as ASCII text or other bytes.
    pub bytes: Bytes,
    /// The records after the fields.
    pub records: Records,
}

/// Asks for a pong, to see that the connection stands (BOLT 1, "The `ping` and `pong` Messages").
#[derive(Drop)]
pub struct Ping {
    /// How many bytes the pong is to carry; from 65,532 on no pong is wanted.
    pub num_pong_bytes: u16,
    /// Bytes that mean nothing.
    pub ignored: Bytes,
    /// The records after the fields.
    pub records: Records,
}

/// Answers a ping (BOLT 1, "The `ping` and `pong` Messages").
#[derive(Drop)]
pub struct Pong {
    /// Bytes that mean nothing.
    pub ignored: Bytes,
    /// The records after the fields.
    pub records: Records,
}

ghost use Rattle.ln_bytes.specs.Reading.{Gives};
ghost use Rattle.ln_msgs.specs.Messages.Items.{AreItemsOf};
ghost use Rattle.ln_msgs.specs.Messages.Table.{warning_form, init_form, error_form, ping_form, pong_form};
ghost use Rattle.ln_msgs.specs.Messages.Message.{Known, formed_at};
ghost use Rattle.ln_msgs.specs.Messages.Typed.{warning_wire, init_wire, error_wire, ping_wire, pong_wire};

#[tactic(auto, unfolding(crate::specs::Messages::Message::formed_at))]
pub(crate) fn read_warning(alloc: Global, payload: &[u8]) -> Result<Warning, Fault>
    ensures { Gives (λ m. Known (warning_wire m)) result (formed_at warning_form 1 payload.now) }
{
    let (channel_id, rest) = array_at(payload)?;
    let (bytes, rest) = bytes_at(alloc, rest)?;
    let records = records_at(alloc, rest, &[])?;
    Ok(Warning {
        channel_id,
        bytes,
        records,
    })
}

#[tactic(auto, unfolding(crate::specs::Messages::Message::formed_at))]
pub(crate) fn read_init(alloc: Global, payload: &[u8]) -> Result<Init, Fault>
    ensures { Gives (λ m. Known (init_wire m)) result (formed_at init_form 16 payload.now) }
{
    let (global_features, rest) = bytes_at(alloc, payload)?;
    let (features, rest) = bytes_at(alloc, rest)?;
    let records = records_at(alloc, rest, &[])?;
    Ok(Init {
        global_features,
        features,
        records,
    })
}

#[tactic(auto, unfolding(crate::specs::Messages::Message::formed_at))]
pub(crate) fn read_error(alloc: Global, payload: &[u8]) -> Result<Error, Fault>
    ensures { Gives (λ m. Known (error_wire m)) result (formed_at error_form 17 payload.now) }
{
    let (channel_id, rest) = array_at(payload)?;
    let (bytes, rest) = bytes_at(alloc, rest)?;
    let records = records_at(alloc, rest, &[])?;
    Ok(Error {
        channel_id,
        bytes,
        records,
    })
}

#[tactic(auto, unfolding(crate::specs::Messages::Message::formed_at))]
pub(crate) fn read_ping(alloc: Global, payload: &[u8]) -> Result<Ping, Fault>
    ensures { Gives (λ m. Known (ping_wire m)) result (formed_at ping_form 18 payload.now) }
{
    let (num_pong_bytes, rest) = u16_at(payload)?;
    let (ignored, rest) = bytes_at(alloc, rest)?;
    let records = records_at(alloc, rest, &[])?;
    Ok(Ping {
        num_pong_bytes,
        ignored,
        records,
    })
}

#[tactic(auto, unfolding(crate::specs::Messages::Message::formed_at))]
pub(crate) fn read_pong(alloc: Global, payload: &[u8]) -> Result<Pong, Fault>
    ensures { Gives (λ m. Known (pong_wire m)) result (formed_at pong_form 19 payload.now) }
{
    let (ignored, rest) = bytes_at(alloc, payload)?;
    let records = records_at(alloc, rest, &[])?;
    Ok(Pong { ignored, records })
}

impl Warning {
    /// The values of the fields in their order.
    pub(crate) fn items(&self) -> Items<'_>
        ensures { AreItemsOf warning_form (warning_wire self.now) result }
    {
        Items::of(&[
            Item::Fixed(&self.channel_id),
            Item::Sized(self.bytes.as_slice()),
        ])
    }
}

impl Init {
    /// The values of the fields in their order.
    pub(crate) fn items(&self) -> Items<'_>
        ensures { AreItemsOf init_form (init_wire self.now) result }
    {
        Items::of(&[
            Item::Sized(self.global_features.as_slice()),
            Item::Sized(self.features.as_slice()),
        ])
    }
}

impl Error {
    /// The values of the fields in their order.
    pub(crate) fn items(&self) -> Items<'_>
        ensures { AreItemsOf error_form (error_wire self.now) result }
    {
        Items::of(&[
            Item::Fixed(&self.channel_id),
            Item::Sized(self.bytes.as_slice()),
        ])
    }
}

impl Ping {
    /// The values of the fields in their order.
    pub(crate) fn items(&self) -> Items<'_>
        ensures { AreItemsOf ping_form (ping_wire self.now) result }
    {
        Items::of(&[
            Item::U16(self.num_pong_bytes),
            Item::Sized(self.ignored.as_slice()),
        ])
    }
}

impl Pong {
    /// The values of the fields in their order.
    pub(crate) fn items(&self) -> Items<'_>
        ensures { AreItemsOf pong_form (pong_wire self.now) result }
    {
        Items::of(&[Item::Sized(self.ignored.as_slice())])
    }
}
