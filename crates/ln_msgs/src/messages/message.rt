//! Messages, a variant for each type that is known.

use crate::messages::closing::{ClosingSigned, Shutdown};
use crate::messages::commitments::{ChannelReestablish, CommitmentSigned, RevokeAndAck};
use crate::messages::form;
use crate::messages::form::Form;
use crate::messages::item::{Field, Item};
use crate::messages::item_list::Items;
use crate::messages::opening::{
    AcceptChannel, ChannelReady, FundingCreated, FundingSigned, OpenChannel,
};
use crate::messages::records::Records;
use crate::messages::setup::{Error, Init, Ping, Pong, Warning};
use crate::messages::updates::{
    UpdateAddHtlc, UpdateFailHtlc, UpdateFailMalformedHtlc, UpdateFee, UpdateFulfillHtlc,
};
use std::alloc::{AllocError, Global};
use std::fmt;
use std::fmt::{Debug, Formatter};

/// The same for each type of message: an expression in its value, here `$m`.
macro_rules! for_each_message {
    ($message:expr, $m:ident => $result:expr) => {
        match $message {
            Message::Warning($m) => $result,
            Message::Init($m) => $result,
            Message::Error($m) => $result,
            Message::Ping($m) => $result,
            Message::Pong($m) => $result,
            Message::OpenChannel($m) => $result,
            Message::AcceptChannel($m) => $result,
            Message::FundingCreated($m) => $result,
            Message::FundingSigned($m) => $result,
            Message::ChannelReady($m) => $result,
            Message::Shutdown($m) => $result,
            Message::ClosingSigned($m) => $result,
            Message::UpdateAddHtlc($m) => $result,
            Message::UpdateFulfillHtlc($m) => $result,
            Message::UpdateFailHtlc($m) => $result,
            Message::CommitmentSigned($m) => $result,
            Message::RevokeAndAck($m) => $result,
            Message::UpdateFee($m) => $result,
            Message::UpdateFailMalformedHtlc($m) => $result,
            Message::ChannelReestablish($m) => $result,
        }
    };
}

ghost use Rattle.std.specs.Prelude.{◌≡◌, length, map, IfOk};

/// A message of a known type (BOLT 1, "Lightning Message Format"). After its fields each carries the records
/// of its TLV stream, also those of odd types that nobody knows. It drops itself by hand, so that no crate above proves
/// again how: elsewhere it is looked at, and taken apart by `into_open`, `into_accept` and `into_failure`.
pub enum Message {
    /// Type 1.
    Warning(Warning),
    /// Type 16.
    Init(Init),
    /// Type 17.
    Error(Error),
    /// Type 18.
    Ping(Ping),
    /// Type 19.
    Pong(Pong),
    /// Type 32.
    OpenChannel(OpenChannel),
    /// Type 33.
    AcceptChannel(AcceptChannel),
    /// Type 34.
    FundingCreated(FundingCreated),
    /// Type 35.
    FundingSigned(FundingSigned),
    /// Type 36.
    ChannelReady(ChannelReady),
    /// Type 38.
    Shutdown(Shutdown),
    /// Type 39.
    ClosingSigned(ClosingSigned),
    /// Type 128.
    UpdateAddHtlc(UpdateAddHtlc),
    /// Type 130.
    UpdateFulfillHtlc(UpdateFulfillHtlc),
    /// Type 131.
    UpdateFailHtlc(UpdateFailHtlc),
    /// Type 132.
    CommitmentSigned(CommitmentSigned),
    /// Type 133.
    RevokeAndAck(RevokeAndAck),
    /// Type 134.
    UpdateFee(UpdateFee),
    /// Type 135.
    UpdateFailMalformedHtlc(UpdateFailMalformedHtlc),
    /// Type 136.
    ChannelReestablish(ChannelReestablish),
}

impl Drop for Message {
    fn drop(self) {
        for_each_message!(self, m => drop(m))
    }
}

/// What a message's bytes are.
#[derive(Drop)]
pub enum Incoming {
    /// A message of a known type.
    Known(Message),
    /// A message of this type, which is read past: an odd type that isn't known, or one of 256 to 265.
    Ignored(u16),
}

/// The name of the type.
impl Debug for Message {
    fn fmt<W: fmt::Write>(&self, f: &mut Formatter<W>) -> fmt::Result {
        f.write_str(self.name())
    }
}

impl Message {
    ghost use Rattle.std.specs.Prelude.{◌≡◌, IfOk, Some};
    ghost use Rattle.ln_msgs.specs.Messages.Typed.{wire};
    ghost use Rattle.ln_msgs.specs.Messages.Items.{IsShownAs, AreItemsBy};
    ghost use Rattle.ln_msgs.specs.Messages.Forms.{IsFormBy};
    ghost use Rattle.ln_msgs.specs.Messages.Table.{form_of, name_of};
    ghost use Rattle.ln_msgs.specs.Messages.Apart.{open_in, accept_in, failure_in};

    /// The type (BOLT 1, "Lightning Message Format"). Takes no memory.
    pub fn typ(&self) -> u16
        ensures { result ≡ (wire self.now).typ }
    {
        self.form().typ
    }

    /// The name of the type in the standard. Takes no memory.
    pub fn name(&self) -> &'static str
        ensures { result.now ≡ name_of (wire self.now).typ }
    {
        self.form().name
    }

    /// The fields in their order, with their names. Takes memory for the list.
    pub fn fields(&self, alloc: Global) -> Result<Vec<Field<'_>>, AllocError>
        ensures { IfOk result (λ fs. IsShownAs (wire self.now) fs.items) }
    {
        named(alloc, self.form().fields, self.items().as_slice())
    }

    /// The records after the fields. Takes no memory.
    pub fn records(&self) -> &Records
        ensures { result.now ≡ (wire self.now).records }
    {
        for_each_message!(self, m => &m.records)
    }

    /// The `open_channel` that it is, if it is one. Takes no memory.
    pub fn into_open(self) -> Option<OpenChannel>
        ensures { result ≡ open_in self }
    {
        match self {
            Message::OpenChannel(open) => Some(open),
            other => {
                drop(other);
                None
            }
        }
    }

    /// The `accept_channel` that it is, if it is one. Takes no memory.
    pub fn into_accept(self) -> Option<AcceptChannel>
        ensures { result ≡ accept_in self }
    {
        match self {
            Message::AcceptChannel(accept) => Some(accept),
            other => {
                drop(other);
                None
            }
        }
    }

    /// The `update_fail_htlc` that it is, if it is one. Takes no memory.
    pub fn into_failure(self) -> Option<UpdateFailHtlc>
        ensures { result ≡ failure_in self }
    {
        match self {
            Message::UpdateFailHtlc(failure) => Some(failure),
            other => {
                drop(other);
                None
            }
        }
    }

    /// What the message's type has.
    pub(crate) fn form(&self) -> &'static Form
        ensures { IsFormBy (form_of (wire self.now).typ) result.now (wire self.now).typ }
    {
        match self {
            Message::Warning(_) => form::WARNING,
            Message::Init(_) => form::INIT,
            Message::Error(_) => form::ERROR,
            Message::Ping(_) => form::PING,
            Message::Pong(_) => form::PONG,
            Message::OpenChannel(_) => form::OPEN_CHANNEL,
            Message::AcceptChannel(_) => form::ACCEPT_CHANNEL,
            Message::FundingCreated(_) => form::FUNDING_CREATED,
            Message::FundingSigned(_) => form::FUNDING_SIGNED,
            Message::ChannelReady(_) => form::CHANNEL_READY,
            Message::Shutdown(_) => form::SHUTDOWN,
            Message::ClosingSigned(_) => form::CLOSING_SIGNED,
            Message::UpdateAddHtlc(_) => form::UPDATE_ADD_HTLC,
            Message::UpdateFulfillHtlc(_) => form::UPDATE_FULFILL_HTLC,
            Message::UpdateFailHtlc(_) => form::UPDATE_FAIL_HTLC,
            Message::CommitmentSigned(_) => form::COMMITMENT_SIGNED,
            Message::RevokeAndAck(_) => form::REVOKE_AND_ACK,
            Message::UpdateFee(_) => form::UPDATE_FEE,
            Message::UpdateFailMalformedHtlc(_) => form::UPDATE_FAIL_MALFORMED_HTLC,
            Message::ChannelReestablish(_) => form::CHANNEL_REESTABLISH,
        }
    }

    /// The values of the fields in their order.
    pub(crate) fn items(&self) -> Items<'_>
        ensures { AreItemsBy (form_of (wire self.now).typ) (wire self.now) result }
    {
        for_each_message!(self, m => m.items())
    }
}

/// The values with their names. Takes memory for the list, once.
fn named<'a>(
    alloc: Global,
    names: &[&'static str],
    items: &[Item<'a>],
) -> Result<Vec<Field<'a>>, AllocError>
    ensures has_the_names { IfOk result (λ fs. length names.now ≡ length items.now
        → map (λ f. f.name.now) fs.items ≡ map (λ n. n.now) names.now) }
    ensures has_the_values { IfOk result (λ fs. length names.now ≡ length items.now
        → map (λ f. f.value) fs.items ≡ items.now) }
{
    let mut fields = Vec::with_capacity(alloc, items.len())?;
    for (name, value) in names.iter().zip(items) {
        fields.push(Field {
            name: *name,
            value: *value,
        })?;
    }
    Ok(fields)
}
