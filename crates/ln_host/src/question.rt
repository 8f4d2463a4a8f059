//! What a host is asked about a message before it is taken.

ghost use Rattle.std.specs.Prelude.{◌≡◌, ◌&&◌, not, IfOk, IfErr};
ghost use Rattle.ln_refusals.specs.declared.refusal.Refusal.TheVariants as refusal;
ghost use Rattle.ln_dance.specs.Dance as dancing;
ghost use Rattle.ln_dance.specs.Dance.{Dancer, is_last, owes};
ghost use Rattle.ln_channel.specs.End as end;
ghost use Rattle.ln_channel.specs.End.{End, is_ready, has_begun};
ghost use Rattle.ln_channel.specs.State.{State, StandsFor};
ghost use Rattle.ln_host.specs.Blank.{closing_terms};
ghost use Rattle.ln_host.specs.declared.question.Question.TheVariants as question;
ghost use Rattle.ln_host.specs.Question.{asked_open, asked_first, asked_saved, asked_signed, asked_back, question_of};
ghost use Rattle.ln_host.specs.Question.{if_so, signatures_asked, secret_asked, first_asked, asked_opening};

use crate::blank::{ClosingTerms, closing_terms};
use ln_channel::{Channel, ChannelMachine, ConnectionState};
use ln_dance::{Dance, LAST_NUMBER};
use ln_keys::{ChannelKeys, Role, View};
use ln_log::{Pair, Side};
use ln_msgs::{ChannelReestablish, Message};
use ln_refusals::Refusal;
use std::alloc::Global;

/// What a host is asked about a message before it is taken: what is to be judged stands in the message.
#[derive(Drop)]
pub enum Question {
    /// Whether the host has no record of the channel of this id, which the message opens.
    New([u8; 32]),
    /// The same, and whether this is the peer's signature over the own commitment 0, which it opens.
    First {
        /// The channel's id.
        channel: [u8; 32],
        /// What the commitment is worth.
        view: View,
    },
    /// Whether these are the peer's signatures over the own commitment of this number.
    Signatures {
        /// The own side.
        role: Role,
        /// The commitment's number.
        number: u64,
        /// What it is worth.
        view: View,
    },
    /// Whether this is the secret of the peer's commitment of this number.
    Secret {
        /// The commitment's number.
        number: u64,
        /// Its per commitment point.
        point: [u8; 33],
    },
    /// Whether this is the peer's signature over a closing transaction.
    Close(ClosingTerms),
    /// The own per commitment secret of this number, which the peer may tell back.
    OwnSecret(u64),
}

// The peer's signatures over the own next commitment.
fn signatures_asked(alloc: Global, channel: &Channel) -> Result<Option<Question>, Refusal>
    ensures asked { (e : End) → end.StandsFor channel.now e
        → IfOk result (λ q. q ≡ if_so (is_ready e && not (is_last e.dance.numbers.commitment)) (signatures_asked e)) }
    ensures fails_for_memory_alone { IfErr result (λ r. r ≡ refusal.Memory) }
{
    let dance = channel.dance();
    let last = dance.numbers().commitment;
    if !channel.is_ready() || last == LAST_NUMBER {
        return Ok(None);
    }
    let view = dance.log().view(alloc, Pair::ToAccept)?;
    Ok(Some(Question::Signatures {
        role: channel.closing().role,
        number: last + 1,
        view,
    }))
}

// Its signature over the own commitment 0.
fn first_asked(alloc: Global, channel: &Channel) -> Result<Question, Refusal>
    ensures asked { (e : End) → end.StandsFor channel.now e → IfOk result (λ q. q ≡ first_asked e) }
    ensures fails_for_memory_alone { IfErr result (λ r. r ≡ refusal.Memory) }
{
    let view = channel.dance().log().view(alloc, Pair::Current(Side::Own))?;
    Ok(Question::Signatures {
        role: channel.closing().role,
        number: 0,
        view,
    })
}

// The secret of the peer's commitment that it revokes.
fn secret_asked(dance: &Dance) -> Option<Question>
    ensures { (d : Dancer) → dancing.StandsFor dance.now d → result ≡ if_so (owes d) (secret_asked d) }
{
    if !dance.owes() {
        return None;
    }
    let point = dance.peer().point;
    Some(Question::Secret {
        number: dance.numbers().revoked,
        point,
    })
}

// The peer's signature over the closing transaction that pays this fee.
fn close_asked(alloc: Global, channel: &Channel, fee: u64) -> Result<Option<Question>, Refusal>
    ensures asked { (e : End) → end.StandsFor channel.now e
        → IfOk result (λ q. q ≡ if_so (has_begun e) (question.Close (closing_terms fee e))) }
    ensures fails_for_memory_alone { IfErr result (λ r. r ≡ refusal.Memory) }
{
    if !channel.has_begun() {
        return Ok(None);
    }
    Ok(Some(Question::Close(closing_terms(alloc, channel, fee)?)))
}

// About a message of an open channel, where the peer is there.
fn asked_open(
    alloc: Global,
    channel: &Channel,
    message: &Message,
) -> Result<Option<Question>, Refusal>
    ensures asked { (e : End) → end.StandsFor channel.now e → IfOk result (λ q. q ≡ asked_open message.now e) }
    ensures fails_for_memory_alone { IfErr result (λ r. r ≡ refusal.Memory) }
{
    match message {
        Message::CommitmentSigned(_) => signatures_asked(alloc, channel),
        Message::RevokeAndAck(_) => Ok(secret_asked(channel.dance())),
        Message::ClosingSigned(closing) => close_asked(alloc, channel, closing.fee_satoshis),
        _ => Ok(None),
    }
}

// The own secret that the peer tells back.
fn asked_back(dance: &Dance, message: &ChannelReestablish) -> Option<Question>
    ensures { (d : Dancer) → dancing.StandsFor dance.now d → result ≡ asked_back message.now d }
{
    let next = message.next_revocation_number;
    if !dance.is_judged_by_secret(message) || next == 0 {
        return None;
    }
    Some(Question::OwnSecret(next - 1))
}

// Until the peer is there.
fn asked_first(channel: &Channel, message: &Message) -> Option<Question>
    ensures { (e : End) → end.StandsFor channel.now e → result ≡ asked_first message.now e }
{
    match message {
        Message::ChannelReestablish(reestablish) => asked_back(channel.dance(), reestablish),
        _ => None,
    }
}

fn asked_saved(
    alloc: Global,
    connection: ConnectionState,
    channel: &Channel,
    message: &Message,
) -> Result<Option<Question>, Refusal>
    ensures asked { (e : End) → end.StandsFor channel.now e → IfOk result (λ q. q ≡ asked_saved connection message.now
        e) }
    ensures fails_for_memory_alone { IfErr result (λ r. r ≡ refusal.Memory) }
{
    if connection.is_connected() {
        asked_open(alloc, channel, message)
    } else {
        Ok(asked_first(channel, message))
    }
}

fn asked_signed(
    alloc: Global,
    channel: &Channel,
    message: &Message,
) -> Result<Option<Question>, Refusal>
    ensures asked { (e : End) → end.StandsFor channel.now e → IfOk result (λ q. q ≡ asked_signed message.now e) }
    ensures fails_for_memory_alone { IfErr result (λ r. r ≡ refusal.Memory) }
{
    match message {
        Message::FundingSigned(_) => Ok(Some(first_asked(alloc, channel)?)),
        _ => Ok(None),
    }
}

// About a message that opens a channel of this id.
fn asked_opening(channel: Option<[u8; 32]>, view: Option<View>) -> Option<Question>
    ensures { result ≡ asked_opening channel view }
{
    match (channel, view) {
        (None, view) => {
            drop(view);
            None
        }
        (Some(channel), None) => Some(Question::New(channel)),
        (Some(channel), Some(view)) => Some(Question::First { channel, view }),
    }
}

/// What the host is asked about a message before it is taken: the one answer of its keys that decides what becomes of
/// it. None where no answer does. Takes memory for a view or scripts; 60 where there is none.
pub fn question_about<K: ChannelKeys + Drop>(
    alloc: Global,
    link: &ChannelMachine<K>,
    message: &Message,
) -> Result<Option<Question>, Refusal>
    ensures asked { (l : State K) → StandsFor link.now l → IfOk result (λ q. q ≡ question_of l message.now) }
    ensures fails_for_memory_alone { IfErr result (λ r. r ≡ refusal.Memory) }
{
    if !link.reaches_channel(message) {
        return Ok(None);
    }
    if let Some(channel) = link.saved() {
        return asked_saved(alloc, link.connection(), channel, message);
    }
    match link.agreed() {
        Some(channel) => asked_signed(alloc, channel, message),
        None => Ok(asked_opening(link.opens(message), link.first_view(alloc)?)),
    }
}
