//! The onion that travels with an HTLC.

ghost use Rattle.std.specs.Prelude.{◌≡◌, Ok, Err, ◌⊎◌, length, IfOk, IfErr, IfSome};

use ln_bytes::Bytes;
use ln_refusals::Refusal;
use std::alloc::{AllocError, Global};

/// What a hop finds in an onion (BOLT 4, "Onion Decryption").
#[derive(Drop)]
pub struct Opened {
    /// The payload of this hop.
    pub payload: Bytes,
    /// The onion for the next hop, of 1,366 bytes; `None` where this hop is the final node.
    pub next: Option<Bytes>,
}

/// Why an onion wasn't opened.
#[derive(Clone, Copy, PartialEq, Eq)]
pub enum OpenFault {
    /// An unknown version.
    Version,
    /// The HMAC isn't that of the payloads and the payment hash.
    Hmac,
    /// The key can't be read.
    Key,
    /// The payload can't be read.
    Payload,
    /// There was no memory.
    Memory,
}

impl From<AllocError> for OpenFault {
    ghost use Rattle.std.specs.Prelude.{◌≡◌};
    ghost use Rattle.ln_keys.specs.declared.onion.OpenFault.TheVariants.{Memory};

    ghost from_gives = { λ _ e. e ≡ Memory };

    fn from(_error: AllocError) -> OpenFault {
        OpenFault::Memory
    }
}

/// A node's service that opens the onions of its HTLCs and wraps its failures.
///
/// Every answer is a function of the value and of the arguments, but for want of memory.
pub trait Onion {
    ghost use Rattle.ln_keys.specs.Services.{Services};

    /// What it answers, as functions of the arguments.
    ghost services: { Self → Services };

    /// Opens the onion of an HTLC with this payment hash (BOLT 4, "Onion Decryption").
    ///
    /// Takes memory for the payload and for the next onion. Errors: `Version`, `Key`, `Hmac` and
    /// `Payload` of the onion, and `Memory` where there is no memory.
    fn open(&self, alloc: Global, onion: &[u8; 1366], hash: &[u8; 32]) -> Result<Opened, OpenFault>
        ensures found { IfOk result (λ o. (services self.now).opened onion.now hash.now ≡ Ok o) }
        ensures fault { IfErr result (λ e. (e ≡ OpenFault.Memory)
            ⊎ ((services self.now).opened onion.now hash.now ≡ Err e)) }
        ensures next_has_1366_bytes { IfOk result (λ o. IfSome o.next (λ n. length n ≡ 1366)) };

    /// Wraps a failure of the node's own for the payer of the HTLC with this onion and payment hash: it is padded,
    /// authenticated and obfuscated (BOLT 4, "Returning Errors"). `failure` is its code and its data (BOLT 4,
    /// "Failure Messages"). Takes memory for it.
    ///
    /// Error: 60 (`Memory`) alone, where there is no memory.
    fn wrap_failure(
        &self,
        alloc: Global,
        onion: &[u8; 1366],
        hash: &[u8; 32],
        failure: &[u8],
    ) -> Result<Bytes, Refusal>
        ensures wrapped { IfOk result (λ b. b ≡ (services self.now).wrapped onion.now hash.now failure.now) }
        ensures fails_for_memory_alone { IfErr result (λ e. e ≡ Refusal.Memory) };

    /// Wraps a failure that came back from the next hop, on its way to the payer of the HTLC with this onion and
    /// payment hash: it is obfuscated again (BOLT 4, "Returning Errors"). `reason` is as it came. Takes memory for it.
    ///
    /// Error: 60 (`Memory`) alone, where there is no memory.
    fn wrap_again(
        &self,
        alloc: Global,
        onion: &[u8; 1366],
        hash: &[u8; 32],
        reason: &[u8],
    ) -> Result<Bytes, Refusal>
        ensures wrapped { IfOk result (λ b. b ≡ (services self.now).wrapped_again onion.now hash.now reason.now) }
        ensures fails_for_memory_alone { IfErr result (λ e. e ≡ Refusal.Memory) };
}
