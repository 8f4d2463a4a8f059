//! What a host gives for a blank.

ghost use Rattle.std.specs.Prelude.{◌≡◌};
ghost use Rattle.ln_store.specs.Format.{Finds, items_at, fixed};
ghost use Rattle.ln_host.specs.Blank.{whole, htlcs_at, signatures_at, revocation_at, point_at, close_at, filling_at};
ghost use Rattle.ln_host.specs.Blank.{with_signatures, with_revocation, with_point, with_close, filled};

use crate::blank::Blank;
use ln_bytes::Signatures;
use ln_msgs::Message;
use ln_refusals::Refusal;
use ln_store::stored::array_at;
use std::alloc::Global;

/// What a host gives for a blank.
#[derive(Drop)]
pub enum Filling {
    /// Signatures over a commitment and over its HTLCs, in the order of their outputs: 64 bytes each.
    Signatures([u8; 64], Signatures),
    /// A per commitment secret, 32 bytes, and a point, 33 bytes.
    Revocation([u8; 32], [u8; 33]),
    /// A per commitment point: 33 bytes.
    Point([u8; 33]),
    /// A signature over a closing transaction: 64 bytes.
    Close([u8; 64]),
}

// So many signatures, one after the other.
fn signature_items_at(
    alloc: Global,
    count: usize,
    bytes: &[u8],
) -> Result<(Vec<[u8; 64]>, &[u8]), Refusal>
    ensures { Finds (λ x. (x.0.items, x.1.now)) result (items_at (fixed 64) count bytes.now) }
{
    let mut items = Vec::new(alloc);
    let mut rest = bytes;
    for _ in 0..count {
        let (item, after) = array_at(rest)?;
        items.push(item)?;
        rest = after;
    }
    Ok((items, rest))
}

// Nothing follows it.
fn whole(filling: Filling, rest: &[u8]) -> Result<Filling, Refusal>
    ensures { Finds (λ f. f) result (whole filling rest.now) }
{
    if rest.is_empty() {
        return Ok(filling);
    }
    drop(filling);
    Err(Refusal::Damaged)
}

// Those over the HTLCs, which are all that is left.
fn htlcs_at(alloc: Global, signature: [u8; 64], bytes: &[u8]) -> Result<Filling, Refusal>
    ensures { Finds (λ f. f) result (htlcs_at signature bytes.now) }
{
    let (htlcs, rest) = signature_items_at(alloc, bytes.len() / 64, bytes)?;
    whole(Filling::Signatures(signature, Signatures::new(htlcs)), rest)
}

fn signatures_at(alloc: Global, most: usize, bytes: &[u8]) -> Result<Filling, Refusal>
    ensures { Finds (λ f. f) result (signatures_at most bytes.now) }
{
    let (signature, rest) = array_at(bytes)?;
    if rest.len() / 64 > most {
        return Err(Refusal::Damaged);
    }
    htlcs_at(alloc, signature, rest)
}

fn revocation_at(bytes: &[u8]) -> Result<Filling, Refusal>
    ensures { Finds (λ f. f) result (revocation_at bytes.now) }
{
    let (secret, rest) = array_at(bytes)?;
    let (point, rest) = array_at(rest)?;
    whole(Filling::Revocation(secret, point), rest)
}

fn point_at(bytes: &[u8]) -> Result<Filling, Refusal>
    ensures { Finds (λ f. f) result (point_at bytes.now) }
{
    let (point, rest) = array_at(bytes)?;
    whole(Filling::Point(point), rest)
}

fn close_at(bytes: &[u8]) -> Result<Filling, Refusal>
    ensures { Finds (λ f. f) result (close_at bytes.now) }
{
    let (signature, rest) = array_at(bytes)?;
    whole(Filling::Close(signature), rest)
}

/// What a host gives for a blank, by its bytes: a signature over a commitment and those over its HTLCs that have an
/// output, so at most one for each (64 bytes each); a secret and a point (32 and 33); a point (33); a signature over
/// a close (64).
///
/// Errors: 70 where their number is another; 60 where there is no memory for the signatures.
pub fn filling_at(alloc: Global, blank: &Blank, bytes: &[u8]) -> Result<Filling, Refusal>
    ensures { Finds (λ f. f) result (filling_at blank.now bytes.now) }
{
    match blank {
        Blank::Signatures { view, .. } => signatures_at(alloc, view.htlcs.len(), bytes),
        Blank::Revocation { .. } => revocation_at(bytes),
        Blank::Point(_) => point_at(bytes),
        Blank::Close(_) => close_at(bytes),
    }
}

fn put_signatures(message: &mut Message, signature: [u8; 64], htlc_signatures: Signatures)
    ensures { message.new ≡ with_signatures signature htlc_signatures message.old }
{
    match message {
        Message::FundingCreated(m) => m.signature = signature,
        Message::FundingSigned(m) => m.signature = signature,
        Message::CommitmentSigned(m) => {
            m.signature = signature;
            put(&mut m.htlc_signatures, htlc_signatures);
            return;
        }
        _ => {}
    }
    drop(htlc_signatures);
}

fn put_revocation(message: &mut Message, secret: [u8; 32], point: [u8; 33])
    ensures { message.new ≡ with_revocation secret point message.old }
{
    if let Message::RevokeAndAck(m) = message {
        m.secret = secret;
        m.next_point = point;
    }
}

fn put_point(message: &mut Message, point: [u8; 33])
    ensures { message.new ≡ with_point point message.old }
{
    match message {
        Message::ChannelReady(m) => m.second_point = point,
        Message::ChannelReestablish(m) => m.current_point = point,
        _ => {}
    }
}

fn put_close(message: &mut Message, signature: [u8; 64])
    ensures { message.new ≡ with_close signature message.old }
{
    if let Message::ClosingSigned(m) = message {
        m.signature = signature;
    }
}

/// Fills a blank of a message; nothing else changes. Takes no memory.
pub fn fill(message: &mut Message, filling: Filling)
    ensures { message.new ≡ filled filling message.old }
{
    match filling {
        Filling::Signatures(signature, htlcs) => put_signatures(message, signature, htlcs),
        Filling::Revocation(secret, point) => put_revocation(message, secret, point),
        Filling::Point(point) => put_point(message, point),
        Filling::Close(signature) => put_close(message, signature),
    }
}

// Puts a value in the place of another.
pub(crate) fn put<T: Drop>(place: &mut T, value: T)
    ensures { place.new ≡ value }
{
    *place = value;
}
