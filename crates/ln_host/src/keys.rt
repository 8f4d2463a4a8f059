//! Keys as a link has them whose host answers for it.

use ln_bytes::Signatures;
use ln_keys::{ChannelKeys, Signed, View};
use ln_refusals::Refusal;
use std::alloc::Global;

/// Keys as a link has them whose host answers for it: what the host has told. All else that they give is blank, and the
/// host fills it in before it is sent.
#[derive(Clone, Copy)]
pub struct HostKeys {
    /// The own per commitment point of commitment 0: 33 bytes.
    pub first_point: [u8; 33],
    /// Whether what the next message has is right: the peer's signatures, or its secret.
    pub is_right: bool,
    /// The own per commitment secret that the next message may tell back: 32 bytes.
    pub secret: [u8; 32],
}

impl ChannelKeys for HostKeys {
    ghost use Rattle.ln_host.specs.Keys.{host_signer};

    ghost signer = { λ k. host_signer k };

    fn secret(&self, _number: u64) -> [u8; 32] {
        self.secret
    }

    fn point(&self, _number: u64) -> [u8; 33] {
        self.first_point
    }

    fn sign(
        &self,
        alloc: Global,
        _number: u64,
        _peer_point: &[u8; 33],
        _view: &View,
    ) -> Result<Signed, Refusal> {
        Ok(Signed {
            sig: [0; 64],
            htlcs: Signatures::empty(alloc),
        })
    }

    fn verify(
        &self,
        _number: u64,
        _own_point: &[u8; 33],
        _view: &View,
        _sig: &[u8; 64],
        _htlcs: &[[u8; 64]],
    ) -> bool {
        self.is_right
    }

    fn secret_fits(&self, _number: u64, _secret: &[u8; 32], _point: &[u8; 33]) -> bool {
        self.is_right
    }

    fn sign_close(&self, _fee: u64) -> [u8; 64] {
        [0; 64]
    }

    fn verify_close(&self, _fee: u64, _sig: &[u8; 64]) -> bool {
        self.is_right
    }
}
