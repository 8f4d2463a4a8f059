//! A host's answer to the question about a message.

ghost use Rattle.std.specs.Prelude.{◌≡◌};
ghost use Rattle.ln_host.specs.Answer.{refusal_number_of, judged, judged_first, judged_new, told_secret, answer_to};
ghost use Rattle.ln_host.specs.Answer.{answer_of};

use crate::question::Question;
use ln_refusals::Refusal;

/// Why a call of a hosted link was refused.
#[derive(Clone, Copy, Debug, PartialEq, Eq)]
pub enum HostRefusal {
    /// By the link, or by a format of bytes.
    Refused(Refusal),
    /// 80: what becomes of the message depends on an answer, and it came without one. Nothing has changed.
    Asks,
    /// 81: an answer, or what fills a blank, of another length or value than it may have. Nothing has changed.
    Answer,
}

impl From<Refusal> for HostRefusal {
    ghost use Rattle.std.specs.Prelude.{◌≡◌};
    ghost use Rattle.ln_host.specs.declared.answer.HostRefusal.TheVariants as host;

    ghost from_gives = { λ r e. e ≡ host.Refused r };

    fn from(refusal: Refusal) -> HostRefusal {
        HostRefusal::Refused(refusal)
    }
}

impl HostRefusal {
    /// The number by which it is told: the refusal's own, 80 or 81.
    pub fn number(&self) -> u16
        ensures { result ≡ refusal_number_of self.now }
    {
        match self {
            HostRefusal::Refused(refusal) => refusal.number(),
            HostRefusal::Asks => 80,
            HostRefusal::Answer => 81,
        }
    }
}

/// What a host has answered to the question about a message.
#[derive(Clone, Copy)]
pub struct Answer {
    /// Whether what the message has is right; false where that wasn't asked.
    pub is_right: bool,
    /// The own secret that the peer may tell back; zeros where that wasn't asked.
    pub secret: [u8; 32],
    /// The channel that the message opens, where the host has a record of it already.
    pub known: Option<[u8; 32]>,
}

/// Nothing was asked.
pub const NOTHING: Answer = Answer {
    is_right: false,
    secret: [0; 32],
    known: None,
};

// Whether it is right.
fn judged(bytes: &[u8]) -> Result<Answer, HostRefusal>
    ensures { result ≡ judged bytes.now }
{
    match bytes {
        [] => Err(HostRefusal::Asks),
        [0] => Ok(NOTHING),
        [1] => Ok(Answer {
            is_right: true,
            secret: [0; 32],
            known: None,
        }),
        _ => Err(HostRefusal::Answer),
    }
}

// Whether it is right, or the channel is known.
fn judged_first(channel: [u8; 32], bytes: &[u8]) -> Result<Answer, HostRefusal>
    ensures { result ≡ judged_first channel bytes.now }
{
    match bytes {
        [2] => Ok(Answer {
            is_right: false,
            secret: [0; 32],
            known: Some(channel),
        }),
        _ => judged(bytes),
    }
}

// Whether the channel is new.
fn judged_new(channel: [u8; 32], bytes: &[u8]) -> Result<Answer, HostRefusal>
    ensures { result ≡ judged_new channel bytes.now }
{
    match bytes {
        [] => Err(HostRefusal::Asks),
        [0] => Ok(Answer {
            is_right: false,
            secret: [0; 32],
            known: Some(channel),
        }),
        [1] => Ok(NOTHING),
        _ => Err(HostRefusal::Answer),
    }
}

// The own secret.
fn told_secret(bytes: &[u8]) -> Result<Answer, HostRefusal>
    ensures { result ≡ told_secret bytes.now }
{
    if bytes.is_empty() {
        return Err(HostRefusal::Asks);
    }
    if bytes.len() != 32 {
        return Err(HostRefusal::Answer);
    }
    let mut secret = [0; 32];
    secret.copy_from_slice(bytes);
    Ok(Answer {
        is_right: false,
        secret,
        known: None,
    })
}

fn answer_to(question: &Question, bytes: &[u8]) -> Result<Answer, HostRefusal>
    ensures { result ≡ answer_to question.now bytes.now }
{
    match question {
        Question::New(channel) => judged_new(*channel, bytes),
        Question::First { channel, .. } => judged_first(*channel, bytes),
        Question::Signatures { .. } => judged(bytes),
        Question::Secret { .. } => judged(bytes),
        Question::Close(_) => judged(bytes),
        Question::OwnSecret(_) => told_secret(bytes),
    }
}

/// What the bytes of an answer tell about a question: a byte 0 or 1 for no and yes, 2 where a fundee's host has a
/// record of the channel that is opened, and 32 bytes for a secret. Takes no memory.
///
/// Errors: 80 where there is a question and no byte; 81 for other bytes than those, also where nothing was asked.
pub fn answer_of(question: &Option<Question>, bytes: &[u8]) -> Result<Answer, HostRefusal>
    ensures { result ≡ answer_of question.now bytes.now }
{
    match question {
        Some(question) => answer_to(question, bytes),
        None if bytes.is_empty() => Ok(NOTHING),
        None => Err(HostRefusal::Answer),
    }
}
