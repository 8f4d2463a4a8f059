//! Keys for tests. They are not secure: who knows a tag signs for it.

ghost use Rattle.std.specs.Prelude.{◌≡◌, ◌++◌, ℕ, List, replicate, Ok, IfOk, IfErr};
ghost use Rattle.std.specs.List.{list_all, flat_map};
ghost use Rattle.ln_bytes.specs.Same.{are_same};
ghost use Rattle.ln_keys.specs.Partners.{ArePartners};
ghost use Rattle.ln_keys.specs.Toy.{toy_secret, toy_point, toy_signature, toy_close_signature};
ghost use Rattle.ln_keys.specs.Toy.{toy_signer, htlc_bytes, view_head};
ghost use Rattle.ln_keys.specs.Toy.{view_bytes, owner_byte, are_all, AreCrossed};

use crate::keys::{ChannelKeys, Signed};
use crate::role::Role;
use crate::view::{Htlc, View};
use ln_bytes::Signatures;
use ln_refusals::Refusal;
use sha2::{Digest, Sha256};
use std::alloc::Global;

/// Keys that make their secrets of a seed and sign with a tag.
///
/// Two values are partners where each one's tag is the other's `peer_tag`.
#[derive(Clone, Copy, PartialEq, Eq)]
pub struct ToyKeys {
    pub seed: [u8; 32],
    pub tag: [u8; 32],
    pub peer_tag: [u8; 32],
}

#[tactic(auto, unfolding(crate::specs::Toy::toy_secret))]
fn seeded(seed: &[u8; 32], number: u64) -> [u8; 32]
    ensures { result ≡ toy_secret seed.now number }
{
    let mut hasher = Sha256::new();
    hasher.update(seed.as_slice());
    hasher.update(number.to_be_bytes().as_slice());
    hasher.finalize()
}

/// The point of a secret: 02, and the secret's SHA-256.
#[tactic(auto, unfolding(crate::specs::Toy::toy_point))]
fn pointed(secret: &[u8; 32]) -> [u8; 33]
    ensures { result ≡ toy_point secret.now }
{
    let mut point = [2; 33];
    point[1..].copy_from_slice(&Sha256::digest(secret.as_slice()));
    point
}

fn twice(digest: &[u8; 32]) -> [u8; 64]
    ensures { result ≡ digest.now ++ digest.now }
{
    let mut sig = [0; 64];
    sig[..32].copy_from_slice(digest.as_slice());
    sig[32..].copy_from_slice(digest.as_slice());
    sig
}

fn owner_of(htlc: &Htlc) -> u8
    ensures { result ≡ owner_byte htlc.now.owner }
{
    match htlc.owner {
        Role::Funder => 0,
        Role::Fundee => 1,
    }
}

/// Feeds the bytes of an HTLC.
#[tactic(auto, unfolding(crate::specs::Toy::htlc_bytes))]
fn feed_htlc(hasher: &mut Sha256, htlc: &Htlc)
    ensures { (m : List ℕ) → ⟦<Sha256 as Digest>⟧.holds hasher.old m
        → ⟦<Sha256 as Digest>⟧.holds hasher.new (m ++ htlc_bytes htlc.now) }
{
    hasher.update([owner_of(htlc)].as_slice());
    hasher.update(htlc.id.to_be_bytes().as_slice());
    hasher.update(htlc.amount.to_be_bytes().as_slice());
    hasher.update(htlc.hash.as_slice());
    hasher.update(htlc.expiry.to_be_bytes().as_slice());
}

/// Feeds what stands before the HTLCs of a view.
#[tactic(auto, unfolding(crate::specs::Toy::view_head))]
fn feed_head(hasher: &mut Sha256, view: &View)
    ensures { (m : List ℕ) → ⟦<Sha256 as Digest>⟧.holds hasher.old m
        → ⟦<Sha256 as Digest>⟧.holds hasher.new (m ++ view_head view.now) }
{
    let count = (view.htlcs.len() % 0x1_0000_0000) as u32;
    hasher.update(view.funder.to_be_bytes().as_slice());
    hasher.update(view.fundee.to_be_bytes().as_slice());
    hasher.update(view.feerate.to_be_bytes().as_slice());
    hasher.update(count.to_be_bytes().as_slice());
}

/// Feeds the bytes of HTLCs one after the other.
fn feed_htlcs(hasher: &mut Sha256, htlcs: &[Htlc])
    ensures { (m : List ℕ) → ⟦<Sha256 as Digest>⟧.holds hasher.old m
        → ⟦<Sha256 as Digest>⟧.holds hasher.new (m ++ flat_map htlc_bytes htlcs.now) }
{
    for htlc in htlcs {
        feed_htlc(hasher, htlc);
    }
}

/// Feeds the bytes of a view.
fn feed_view(hasher: &mut Sha256, view: &View)
    ensures { (m : List ℕ) → ⟦<Sha256 as Digest>⟧.holds hasher.old m
        → ⟦<Sha256 as Digest>⟧.holds hasher.new (m ++ view_bytes view.now) }
{
    feed_head(hasher, view);
    feed_htlcs(hasher, view.htlcs.as_slice());
}

/// The signature under a tag.
#[tactic(auto, unfolding(crate::specs::Toy::toy_signature))]
fn signed(tag: &[u8; 32], number: u64, point: &[u8; 33], view: &View) -> [u8; 64]
    ensures { result ≡ toy_signature tag.now number point.now view.now }
{
    let mut hasher = Sha256::new();
    hasher.update([0].as_slice());
    hasher.update(tag.as_slice());
    hasher.update(number.to_be_bytes().as_slice());
    hasher.update(point.as_slice());
    feed_view(&mut hasher, view);
    twice(&hasher.finalize())
}

/// The signature of a close under a tag.
#[tactic(auto, unfolding(crate::specs::Toy::toy_close_signature))]
fn close_signed(tag: &[u8; 32], fee: u64) -> [u8; 64]
    ensures { result ≡ toy_close_signature tag.now fee }
{
    let mut hasher = Sha256::new();
    hasher.update([1].as_slice());
    hasher.update(tag.as_slice());
    hasher.update(fee.to_be_bytes().as_slice());
    twice(&hasher.finalize())
}

/// One signature so many times.
fn repeated(alloc: Global, sig: &[u8; 64], count: usize) -> Result<Signatures, Refusal>
    ensures repeats_it { IfOk result (λ s. s ≡ replicate count sig.now) }
    ensures fails_for_memory_alone { IfErr result (λ e. e ≡ Refusal.Memory) }
{
    let mut list = Vec::with_capacity(alloc, count)?;
    for _ in 0..count {
        list.push(*sig)?;
    }
    Ok(Signatures::new(list))
}

/// Whether there are so many signatures, each of them this one.
fn all_are(count: usize, sig: &[u8; 64], list: &[[u8; 64]]) -> bool
    ensures { result ≡ are_all count sig.now list.now }
{
    list.len() == count && each_is(sig, list)
}

fn each_is(sig: &[u8; 64], list: &[[u8; 64]]) -> bool
    ensures { result ≡ list_all (are_same sig.now) list.now }
{
    list.iter().all(|one| *sig == *one)
}

impl ChannelKeys for ToyKeys {
    ghost signer = { λ k. toy_signer k };

    fn secret(&self, number: u64) -> [u8; 32] {
        seeded(&self.seed, number)
    }

    fn point(&self, number: u64) -> [u8; 33] {
        pointed(&seeded(&self.seed, number))
    }

    fn sign(
        &self,
        alloc: Global,
        number: u64,
        peer_point: &[u8; 33],
        view: &View,
    ) -> Result<Signed, Refusal> {
        let sig = signed(&self.tag, number, peer_point, view);
        let htlcs = repeated(alloc, &sig, view.htlcs.len())?;
        Ok(Signed { sig, htlcs })
    }

    fn verify(
        &self,
        number: u64,
        own_point: &[u8; 33],
        view: &View,
        sig: &[u8; 64],
        htlcs: &[[u8; 64]],
    ) -> bool {
        let right = signed(&self.peer_tag, number, own_point, view);
        right == *sig && all_are(view.htlcs.len(), &right, htlcs)
    }

    fn secret_fits(&self, _number: u64, secret: &[u8; 32], point: &[u8; 33]) -> bool {
        pointed(secret) == *point
    }

    fn sign_close(&self, fee: u64) -> [u8; 64] {
        close_signed(&self.tag, fee)
    }

    fn verify_close(&self, fee: u64, sig: &[u8; 64]) -> bool {
        close_signed(&self.peer_tag, fee) == *sig
    }
}

impl ToyKeys {
    /// A law: two values whose tags cross are partners.
    pub fn crossed(a: ToyKeys, b: ToyKeys)
        requires { AreCrossed a b }
        ensures { ArePartners (toy_signer a) (toy_signer b) }
    {}
}
