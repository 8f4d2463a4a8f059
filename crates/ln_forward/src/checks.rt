//! Whether a payment is forwarded, or taken by the final node.

use crate::failure::Failure;
use crate::payload::{Payload, Payment};

/// An HTLC that comes in.
#[derive(Clone, Copy, PartialEq, Eq)]
pub struct Incoming {
    /// In millisatoshi.
    pub amount: u64,
    /// The block height at which it times out.
    pub expiry: u32,
}

/// The channel to forward by.
#[derive(Clone, Copy, PartialEq, Eq)]
pub struct Route {
    /// Whether it takes payments now.
    pub usable: bool,
    /// The least that its other end takes (`htlc_minimum_msat`), in millisatoshi.
    pub minimum: u64,
}

/// What a node asks for a payment that it forwards (BOLT 7, "HTLC Fees" and "The `channel_update` Message").
#[derive(Clone, Copy, PartialEq, Eq)]
pub struct Policy {
    /// `fee_base_msat`, in millisatoshi.
    pub base: u32,
    /// `fee_proportional_millionths`, in millionths of the amount that is forwarded.
    pub proportional: u32,
    /// `cltv_expiry_delta`, in blocks.
    pub delta: u16,
}

/// A payment that a node waits for.
#[derive(Clone, Copy, PartialEq, Eq)]
pub struct Expected {
    /// The payment secret, 32 bytes.
    pub secret: [u8; 32],
    /// In millisatoshi. Up to twice as much is taken.
    pub amount: u64,
}

/// An expiry has to lie more blocks above the height than these.
const TOO_SOON: u64 = 3;

/// And no more than these.
const TOO_FAR: u64 = 2016;

ghost use Rattle.std.specs.Prelude.{◌≡◌, option_copied};
ghost use Rattle.ln_forward.specs.Checks.{answer_of, forward_by, forward_fault, final_fault, pays};

impl Policy {
    ghost use Rattle.std.specs.Prelude.{◌≡◌, ◌<◌, ◌^◌};
    ghost use Rattle.ln_forward.specs.Checks.{fee};

    /// The fee for forwarding this amount, both in millisatoshi, rounded down (BOLT 7, "HTLC Fees").
    pub fn fee(&self, amount: u64) -> u128
        ensures is_the_fee_formula { result ≡ fee self.now amount }
        ensures fits_96_bits { result < 2 ^ 96 }
    {
        u128::from(self.base) + u128::from(amount) * u128::from(self.proportional) / 1_000_000
    }
}

/// Whether a hop that isn't the final one forwards what came in, by its payload, the channel that the payload
/// names if there is one, the policy of the node and the block height (BOLT 4, "Accepting and Forwarding a
/// Payment"). Else the first failure that there is, in this order:
///
/// - 0x4016: the payload has no record of type 2, 4 or 6;
/// - 0x400a: there is no such channel;
/// - 0x1007: the channel isn't usable;
/// - 0x100b: the amount to forward is 0, or below the channel's minimum;
/// - 0x100c: the incoming amount is less than that amount and the fee;
/// - 0x100d: the incoming expiry is less than the outgoing one and the policy's delta;
/// - 0x100e: the outgoing expiry is at most 3 above the height;
/// - 0x0015: the outgoing expiry is more than 2016 above the height.
pub fn check_forward(
    incoming: &Incoming,
    payload: &Payload,
    route: Option<&Route>,
    policy: &Policy,
    height: u32,
) -> Result<(), Failure>
    ensures { result ≡ answer_of (forward_fault incoming.now payload.now
        (option_copied route.entry) policy.now height) }
{
    let Some(amount) = payload.amount else {
        return Err(Failure::InvalidOnionPayload(2));
    };
    let Some(expiry) = payload.expiry else {
        return Err(Failure::InvalidOnionPayload(4));
    };
    if payload.next.is_none() {
        return Err(Failure::InvalidOnionPayload(6));
    }
    forward_by(incoming, policy, height, amount, expiry, route)
}

// Whether it forwards this amount until this expiry by the channel.
fn forward_by(
    incoming: &Incoming,
    policy: &Policy,
    height: u32,
    amount: u64,
    expiry: u32,
    route: Option<&Route>,
) -> Result<(), Failure>
    ensures { result ≡ answer_of (forward_by incoming.now policy.now height amount expiry (option_copied route.entry)) }
{
    let Some(route) = route else {
        return Err(Failure::UnknownNextPeer);
    };
    if !route.usable {
        return Err(Failure::TemporaryChannelFailure);
    }
    if amount == 0 || amount < route.minimum {
        return Err(Failure::AmountBelowMinimum(amount));
    }
    if u128::from(incoming.amount) < u128::from(amount) + policy.fee(amount) {
        return Err(Failure::FeeInsufficient(incoming.amount));
    }
    if u64::from(incoming.expiry) < u64::from(expiry) + u64::from(policy.delta) {
        return Err(Failure::IncorrectCltvExpiry(expiry));
    }
    if u64::from(expiry) <= u64::from(height) + TOO_SOON {
        return Err(Failure::ExpiryTooSoon);
    }
    if u64::from(expiry) > u64::from(height) + TOO_FAR {
        return Err(Failure::ExpiryTooFar);
    }
    Ok(())
}

/// Whether the final hop takes what came in, by its payload, the payment that it expects under the payment hash
/// if there is one, and the block height (BOLT 4, "Accepting and Forwarding a Payment"). Else the first failure
/// that there is, in this order:
///
/// - 0x4016: the payload has no record of type 2 or 4;
/// - 0x0013: the incoming amount is less than that of the payload;
/// - 0x0012: the incoming expiry is less than that of the payload;
/// - 0x400f: no payment is expected, the payload has no `payment_data`, its secret is another or its total isn't
///   the payload's amount, the incoming amount is less than the expected one or more than twice it, or the
///   incoming expiry is at most 3 above the height.
pub fn check_final(
    incoming: &Incoming,
    payload: &Payload,
    expected: Option<&Expected>,
    height: u32,
) -> Result<(), Failure>
    ensures { result ≡ answer_of (final_fault incoming.now payload.now (option_copied expected.entry) height) }
{
    let Some(amount) = payload.amount else {
        return Err(Failure::InvalidOnionPayload(2));
    };
    let Some(expiry) = payload.expiry else {
        return Err(Failure::InvalidOnionPayload(4));
    };
    if incoming.amount < amount {
        return Err(Failure::FinalIncorrectHtlcAmount(incoming.amount));
    }
    if incoming.expiry < expiry {
        return Err(Failure::FinalIncorrectCltvExpiry(incoming.expiry));
    }
    if !pays(incoming, amount, payload.payment, expected, height) {
        return Err(Failure::IncorrectOrUnknownPaymentDetails(incoming.amount, height));
    }
    Ok(())
}

// Whether it is what is expected.
fn pays(
    incoming: &Incoming,
    amount: u64,
    payment: Option<Payment>,
    expected: Option<&Expected>,
    height: u32,
) -> bool
    ensures { result ≡ pays incoming.now amount payment (option_copied expected.entry) height }
{
    let Some(expected) = expected else {
        return false;
    };
    let Some(payment) = payment else {
        return false;
    };
    payment.secret == expected.secret
        && payment.total == amount
        && expected.amount <= incoming.amount
        && u128::from(incoming.amount) <= 2 * u128::from(expected.amount)
        && u64::from(height) + TOO_SOON < u64::from(incoming.expiry)
}
