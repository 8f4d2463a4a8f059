//! What a message is about.

ghost use Rattle.std.specs.Prelude.{◌≡◌};
ghost use Rattle.ln_node_loops.specs.Kind.{kind_of};

use ln_msgs::Message;

/// What a message is about (BOLT 1 and 2).
#[derive(Clone, Copy)]
pub enum Kind {
    /// Its connection, and it asks for no answer: init and pong.
    OfConnection,
    /// A ping, which asks for so many bytes.
    Ping(u16),
    /// What the peer tells of a failure, of a channel or of all: an error or a warning. It gets no reply.
    OfFailure,
    /// The channel of this id. Those of the opening name the temporary id.
    OfChannel([u8; 32]),
}

// What a message is about.
pub(crate) fn kind_of(message: &Message) -> Kind
    ensures { result ≡ kind_of message.now }
{
    match message {
        Message::Init(_) => Kind::OfConnection,
        Message::Ping(m) => Kind::Ping(m.num_pong_bytes),
        Message::Pong(_) => Kind::OfConnection,
        Message::Warning(_) => Kind::OfFailure,
        Message::Error(_) => Kind::OfFailure,
        Message::OpenChannel(m) => Kind::OfChannel(m.temporary_id),
        Message::AcceptChannel(m) => Kind::OfChannel(m.temporary_id),
        Message::FundingCreated(m) => Kind::OfChannel(m.temporary_id),
        Message::FundingSigned(m) => Kind::OfChannel(m.channel_id),
        Message::ChannelReady(m) => Kind::OfChannel(m.channel_id),
        Message::Shutdown(m) => Kind::OfChannel(m.channel_id),
        Message::ClosingSigned(m) => Kind::OfChannel(m.channel_id),
        Message::UpdateAddHtlc(m) => Kind::OfChannel(m.channel_id),
        Message::UpdateFulfillHtlc(m) => Kind::OfChannel(m.channel_id),
        Message::UpdateFailHtlc(m) => Kind::OfChannel(m.channel_id),
        Message::CommitmentSigned(m) => Kind::OfChannel(m.channel_id),
        Message::RevokeAndAck(m) => Kind::OfChannel(m.channel_id),
        Message::UpdateFee(m) => Kind::OfChannel(m.channel_id),
        Message::UpdateFailMalformedHtlc(m) => Kind::OfChannel(m.channel_id),
        Message::ChannelReestablish(m) => Kind::OfChannel(m.channel_id),
    }
}
