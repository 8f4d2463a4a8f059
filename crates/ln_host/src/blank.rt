//! What is blank in a message that is to be sent.

ghost use Rattle.std.specs.Prelude.{◌≡◌, IfOk, IfErr};
ghost use Rattle.ln_refusals.specs.declared.refusal.Refusal.TheVariants as refusal;
ghost use Rattle.ln_dance.specs.Dance as dancing;
ghost use Rattle.ln_dance.specs.Dance.{Dancer};
ghost use Rattle.ln_channel.specs.End as end;
ghost use Rattle.ln_channel.specs.End.{End};
ghost use Rattle.ln_channel.specs.State.{State, StandsFor};
ghost use Rattle.ln_host.specs.Blank.{closing_terms, script_or_none, first_blank, signature_blank, revocation_blank};
ghost use Rattle.ln_host.specs.Blank.{blank_in, blank_of};

use ln_bytes::Bytes;
use ln_channel::{Channel, ChannelMachine};
use ln_dance::Dance;
use ln_keys::{ChannelKeys, Role, View};
use ln_log::{Pair, Side};
use ln_msgs::Message;
use ln_refusals::Refusal;
use std::alloc::Global;

/// What a closing transaction pays (BOLT 3, "Closing Transaction").
#[derive(Drop)]
pub struct ClosingTerms {
    /// The own side; the funder pays the fee.
    pub role: Role,
    /// The fee, in satoshi.
    pub fee_satoshis: u64,
    /// The own balance without the fee, in millisatoshi.
    pub own_msat: u64,
    /// The peer's, in millisatoshi.
    pub peer_msat: u64,
    /// The script that the own `shutdown` named.
    pub own_script: Bytes,
    /// The one that the peer's named.
    pub peer_script: Bytes,
}

/// What is blank in a message that is to be sent, and what its host fills in.
#[derive(Drop)]
pub enum Blank {
    /// The own signatures over the peer's commitment of this number, and over its HTLCs: 64 bytes each.
    Signatures {
        /// The own side.
        role: Role,
        /// The commitment's number.
        number: u64,
        /// The peer's per commitment point.
        point: [u8; 33],
        /// What it is worth.
        view: View,
    },
    /// The own per commitment secret of the one number, 32 bytes, and then the point of the other, 33 bytes.
    Revocation {
        /// The number of the commitment that is revoked.
        secret: u64,
        /// The number of the commitment after the next.
        point: u64,
    },
    /// The own per commitment point of this number: 33 bytes.
    Point(u64),
    /// The own signature over a closing transaction: 64 bytes.
    Close(ClosingTerms),
}

fn copied(alloc: Global, script: &Bytes) -> Result<Bytes, Refusal>
    ensures same { IfOk result (λ s. s ≡ script.now) }
    ensures fails_for_memory_alone { IfErr result (λ r. r ≡ refusal.Memory) }
{
    Ok(Bytes::from_slice(alloc, script.as_slice())?)
}

fn script_or_none(alloc: Global, script: &Option<Bytes>) -> Result<Bytes, Refusal>
    ensures same { IfOk result (λ s. s ≡ script_or_none script.now) }
    ensures fails_for_memory_alone { IfErr result (λ r. r ≡ refusal.Memory) }
{
    match script {
        Some(script) => copied(alloc, script),
        None => Ok(Bytes::empty(alloc)),
    }
}

// What a closing transaction pays, by the own commitment.
pub(crate) fn closing_terms(
    alloc: Global,
    channel: &Channel,
    fee_satoshis: u64,
) -> Result<ClosingTerms, Refusal>
    ensures terms { (e : End) → end.StandsFor channel.now e → IfOk result (λ t. t ≡ closing_terms fee_satoshis e) }
    ensures fails_for_memory_alone { IfErr result (λ r. r ≡ refusal.Memory) }
{
    let role = channel.closing().role;
    let view = channel.dance().log().view(alloc, Pair::Current(Side::Own))?;
    let (own_msat, peer_msat) = match role {
        Role::Funder => (view.funder, view.fundee),
        Role::Fundee => (view.fundee, view.funder),
    };
    drop(view);
    let own_script = copied(alloc, &channel.terms().script)?;
    let peer_script = script_or_none(alloc, &channel.terms().peer_script)?;
    Ok(ClosingTerms {
        role,
        fee_satoshis,
        own_msat,
        peer_msat,
        own_script,
        peer_script,
    })
}

// The own signature over the peer's commitment 0.
fn first_blank(alloc: Global, channel: &Channel) -> Result<Blank, Refusal>
    ensures blank { (e : End) → end.StandsFor channel.now e → IfOk result (λ b. b ≡ first_blank e) }
    ensures fails_for_memory_alone { IfErr result (λ r. r ≡ refusal.Memory) }
{
    let dance = channel.dance();
    let view = dance.log().view(alloc, Pair::Current(Side::Peer))?;
    let point = dance.peer().point;
    Ok(Blank::Signatures {
        role: channel.closing().role,
        number: 0,
        point,
        view,
    })
}

// The last own signature.
fn signature_blank(alloc: Global, channel: &Channel) -> Result<Blank, Refusal>
    ensures blank { (e : End) → end.StandsFor channel.now e → IfOk result (λ b. b ≡ signature_blank e) }
    ensures fails_for_memory_alone { IfErr result (λ r. r ≡ refusal.Memory) }
{
    let dance = channel.dance();
    let view = dance.log().view(alloc, Pair::Signed)?;
    let point = dance.peer().next_point;
    Ok(Blank::Signatures {
        role: channel.closing().role,
        number: dance.numbers().signed,
        point,
        view,
    })
}

// The last own revocation.
fn revocation_blank(dance: &Dance) -> Blank
    ensures { (d : Dancer) → dancing.StandsFor dance.now d → result ≡ revocation_blank d }
{
    let commitment = dance.numbers().commitment;
    Blank::Revocation {
        secret: commitment.saturating_sub(1),
        point: commitment + 1,
    }
}

fn blank_in(alloc: Global, channel: &Channel, message: &Message) -> Result<Option<Blank>, Refusal>
    ensures blank { (e : End) → end.StandsFor channel.now e → IfOk result (λ b. b ≡ blank_in e message.now) }
    ensures fails_for_memory_alone { IfErr result (λ r. r ≡ refusal.Memory) }
{
    let dance = channel.dance();
    match message {
        Message::FundingCreated(_) => Ok(Some(first_blank(alloc, channel)?)),
        Message::FundingSigned(_) => Ok(Some(first_blank(alloc, channel)?)),
        Message::ChannelReady(_) => Ok(Some(Blank::Point(1))),
        Message::CommitmentSigned(_) => Ok(Some(signature_blank(alloc, channel)?)),
        Message::RevokeAndAck(_) => Ok(Some(revocation_blank(dance))),
        Message::ChannelReestablish(_) => Ok(Some(Blank::Point(dance.numbers().commitment))),
        Message::ClosingSigned(closing) => {
            let terms = closing_terms(alloc, channel, closing.fee_satoshis)?;
            Ok(Some(Blank::Close(terms)))
        }
        _ => Ok(None),
    }
}

/// What is blank in a message that a link has handed out, by the link as the call leaves it that made the message: a
/// later call may move its numbers on. Takes memory for a view or scripts; 60 where there is none.
pub fn blank_of<K: ChannelKeys + Drop>(
    alloc: Global,
    link: &ChannelMachine<K>,
    message: &Message,
) -> Result<Option<Blank>, Refusal>
    ensures blank { (l : State K) → StandsFor link.now l → IfOk result (λ b. b ≡ blank_of l.stage message.now) }
    ensures fails_for_memory_alone { IfErr result (λ r. r ≡ refusal.Memory) }
{
    match link.agreed() {
        Some(channel) => blank_in(alloc, channel, message),
        None => Ok(None),
    }
}
