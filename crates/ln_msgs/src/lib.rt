//! Messages of a channel (BOLT 1 and BOLT 2) on a stream of frames, the answerer of pings, and what a peer is told
//! of a refusal.
#![tactic(auto)]

mod codec;
mod frames;
mod messages;
mod pings;

pub use codec::decoding::{decode, one_message};
pub use codec::encoding::{LONGEST_MESSAGE, encode};
pub use codec::fitting::fits;
pub use frames::frame::frames_are_unique;
pub use frames::framer::{Framer, any_pieces};
pub use messages::channel::channel_id;
pub use messages::closing::{ClosingSigned, Shutdown};
pub use messages::commitments::{ChannelReestablish, CommitmentSigned, RevokeAndAck};
pub use messages::features::check_init;
pub use messages::item::{Field, Item};
pub use messages::message::{Incoming, Message};
pub use messages::opening::{
    AcceptChannel, ChannelReady, FundingCreated, FundingSigned, OpenChannel,
};
pub use messages::records::Records;
pub use messages::setup::{Error, Init, Ping, Pong, Warning};
pub use messages::updates::{
    UpdateAddHtlc, UpdateFailHtlc, UpdateFailMalformedHtlc, UpdateFee, UpdateFulfillHtlc,
};
pub use pings::answer::answer_pings;
pub use pings::counted::Counted;
pub use pings::outgoing::write_out;
