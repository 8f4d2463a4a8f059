//! The keys of a channel end.

ghost use Rattle.std.specs.Prelude.{◌≡◌, IfOk, IfErr};

use crate::view::View;
use ln_bytes::Signatures;
use ln_refusals::Refusal;
use std::alloc::Global;

/// The signatures of a commitment: over the commitment, and one for each of its HTLCs.
#[derive(Drop)]
pub struct Signed {
    pub sig: [u8; 64],
    pub htlcs: Signatures,
}

/// The keys of one channel end: what it tells of its own commitments, what it signs of the peer's, and
/// how it tests what the peer tells and signs.
///
/// Every answer is a function of the value and of the arguments. Numbers of commitments are at most
/// 2^48; a point has 33 bytes, a secret 32, a signature 64.
pub trait ChannelKeys {
    ghost use Rattle.ln_keys.specs.Signer.{Signer};

    /// What it answers, as functions of the arguments.
    ghost signer: { Self → Signer };

    /// The per commitment secret of the own commitment of this number (BOLT 3, "Per-commitment Secret
    /// Requirements"). Takes no memory.
    fn secret(&self, number: u64) -> [u8; 32]
        ensures { result ≡ (signer self.now).secret_of number };

    /// The per commitment point of the own commitment of this number (BOLT 3, "Per-commitment Secret
    /// Requirements"). Takes no memory.
    fn point(&self, number: u64) -> [u8; 33]
        ensures { result ≡ (signer self.now).point_of number };

    /// Signs the peer's commitment of this number, made at the peer's point and worth this view (BOLT
    /// 2, "Committing Updates So Far: commitment_signed").
    ///
    /// Error: 60 (`Memory`) alone, where there is no memory for the signatures over the HTLCs.
    fn sign(
        &self,
        alloc: Global,
        number: u64,
        peer_point: &[u8; 33],
        view: &View,
    ) -> Result<Signed, Refusal>
        ensures commitment { IfOk result (λ s. s.sig ≡ (signer self.now).signature number peer_point.now view.now) }
        ensures htlcs { IfOk result (λ s. s.htlcs ≡ (signer self.now).htlc_signatures number peer_point.now view.now) }
        ensures fails_for_memory_alone { IfErr result (λ e. e ≡ Refusal.Memory) };

    /// Whether these are the peer's signatures over the own commitment of this number, made at the own
    /// point and worth this view, and over each of its HTLCs. Takes no memory.
    fn verify(
        &self,
        number: u64,
        own_point: &[u8; 33],
        view: &View,
        sig: &[u8; 64],
        htlcs: &[[u8; 64]],
    ) -> bool
        ensures { result ≡ (signer self.now).accepts number own_point.now view.now sig.now htlcs.now };

    /// Whether the secret is the one of the point that the peer told for its commitment of this number (BOLT 2,
    /// "Completing the Transition to the Updated State: revoke_and_ack"). By the number keys can test the order of
    /// the peer's secrets, too (BOLT 3, "Efficient Per-commitment Secret Storage"). Takes no memory.
    fn secret_fits(&self, number: u64, secret: &[u8; 32], point: &[u8; 33]) -> bool
        ensures { result ≡ (signer self.now).fits number secret.now point.now };

    /// Signs the closing transaction that pays this fee, in satoshi (BOLT 2, "Closing Negotiation:
    /// closing_signed"). Takes no memory.
    fn sign_close(&self, fee: u64) -> [u8; 64]
        ensures { result ≡ (signer self.now).close_signature fee };

    /// Whether this is the peer's signature over the closing transaction that pays this fee, in satoshi.
    /// Takes no memory.
    fn verify_close(&self, fee: u64, sig: &[u8; 64]) -> bool
        ensures { result ≡ (signer self.now).accepts_close fee sig.now };
}
