//! The law of partners: what one of two partners gives, the other takes. Each function runs an exchange
//! and proves its outcome, for all keys that are partners.

ghost use Rattle.std.specs.Prelude.{◌<◌, ◌≤◌, ◌^◌, ◌≡◌, true, IfOk, IfErr};
ghost use Rattle.ln_keys.specs.Partners.{ArePartners};

use crate::keys::ChannelKeys;
use crate::view::View;
use ln_refusals::Refusal;
use std::alloc::Global;

/// Signs a commitment with one partner's keys and tests the signatures with the other's, which always
/// accepts them.
///
/// Error: 60 (`Memory`) alone, where there is no memory for the signatures over the HTLCs.
pub fn partner_accepts<K: ChannelKeys>(
    alloc: Global,
    signer: &K,
    taker: &K,
    number: u64,
    point: &[u8; 33],
    view: &View,
) -> Result<bool, Refusal>
    requires numbered { number ≤ 2 ^ 48 }
    requires partners { ArePartners (K.signer signer.now) (K.signer taker.now) }
    ensures accepted { IfOk result (λ b. b ≡ true) }
    ensures fails_for_memory_alone { IfErr result (λ e. e ≡ Refusal.Memory) }
{
    let signed = signer.sign(alloc, number, point, view)?;
    Ok(taker.verify(number, point, view, &signed.sig, signed.htlcs.as_slice()))
}

/// Signs a closing transaction with one partner's keys and tests the signature with the other's, which
/// always accepts it. Takes no memory.
pub fn partner_accepts_close<K: ChannelKeys>(signer: &K, taker: &K, fee: u64) -> bool
    requires { ArePartners (K.signer signer.now) (K.signer taker.now) }
    ensures { result ≡ true }
{
    let sig = signer.sign_close(fee);
    taker.verify_close(fee, &sig)
}

/// Tests a secret of one partner against its point of the same number, by the other partner and by
/// itself: it always fits. Takes no memory.
pub fn partner_secret_fits<K: ChannelKeys>(teller: &K, taker: &K, number: u64) -> bool
    requires numbered { number ≤ 2 ^ 48 }
    requires partners { ArePartners (K.signer teller.now) (K.signer taker.now) }
    ensures { result ≡ true }
{
    let secret = teller.secret(number);
    let point = teller.point(number);
    taker.secret_fits(number, &secret, &point) && teller.secret_fits(number, &secret, &point)
}
