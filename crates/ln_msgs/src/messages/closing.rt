//! Messages that close a channel.

use crate::codec::field::{array_at, bytes_at, u64_at};
use crate::messages::item::Item;
use crate::messages::item_list::Items;
use crate::messages::records::{Records, have_length, records_at};
use ln_bytes::{Bytes, Fault};
use std::alloc::Global;

/// Begins the close of a channel (BOLT 2, "Closing Initiation: `shutdown`").
#[derive(Drop)]
pub struct Shutdown {
    /// The channel.
    pub channel_id: [u8; 32],
    /// The script that the sender is paid to.
    pub script: Bytes,
    /// The records after the fields.
    pub records: Records,
}

/// Proposes a closing fee, and signs for it (BOLT 2, "Closing Negotiation: `closing_signed`").
#[derive(Drop)]
pub struct ClosingSigned {
    /// The channel.
    pub channel_id: [u8; 32],
    /// The closing fee, in satoshis.
    pub fee_satoshis: u64,
    /// A signature, 64 bytes.
    pub signature: [u8; 64],
    /// The records after the fields.
    pub records: Records,
}

ghost use Rattle.ln_bytes.specs.Reading.{Gives};
ghost use Rattle.ln_msgs.specs.Messages.Items.{AreItemsOf};
ghost use Rattle.ln_msgs.specs.Messages.Table.{shutdown_form, closing_signed_form};
ghost use Rattle.ln_msgs.specs.Messages.Message.{Known, formed_at};
ghost use Rattle.ln_msgs.specs.Messages.Typed.{shutdown_wire, closing_signed_wire};

#[tactic(auto, unfolding(crate::specs::Messages::Message::formed_at))]
pub(crate) fn read_shutdown(alloc: Global, payload: &[u8]) -> Result<Shutdown, Fault>
    ensures { Gives (λ m. Known (shutdown_wire m)) result (formed_at shutdown_form 38 payload.now) }
{
    let (channel_id, rest) = array_at(payload)?;
    let (script, rest) = bytes_at(alloc, rest)?;
    let records = records_at(alloc, rest, &[])?;
    Ok(Shutdown {
        channel_id,
        script,
        records,
    })
}

#[tactic(auto, unfolding(crate::specs::Messages::Message::formed_at))]
pub(crate) fn read_closing_signed(alloc: Global, payload: &[u8]) -> Result<ClosingSigned, Fault>
    ensures { Gives (λ m. Known (closing_signed_wire m)) result (formed_at closing_signed_form 39 payload.now) }
{
    let (channel_id, rest) = array_at(payload)?;
    let (fee_satoshis, rest) = u64_at(rest)?;
    let (signature, rest) = array_at(rest)?;
    let records = records_at(alloc, rest, &[])?;
    if !have_length(records.as_slice(), 1, 16) {
        return Err(Fault::FieldLength);
    }
    Ok(ClosingSigned {
        channel_id,
        fee_satoshis,
        signature,
        records,
    })
}

impl Shutdown {
    /// The values of the fields in their order.
    pub(crate) fn items(&self) -> Items<'_>
        ensures { AreItemsOf shutdown_form (shutdown_wire self.now) result }
    {
        Items::of(&[
            Item::Fixed(&self.channel_id),
            Item::Sized(self.script.as_slice()),
        ])
    }
}

impl ClosingSigned {
    /// The values of the fields in their order.
    pub(crate) fn items(&self) -> Items<'_>
        ensures { AreItemsOf closing_signed_form (closing_signed_wire self.now) result }
    {
        Items::of(&[
            Item::Fixed(&self.channel_id),
            Item::U64(self.fee_satoshis),
            Item::Fixed(&self.signature),
        ])
    }
}
