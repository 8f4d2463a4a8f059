//! The rules by which a peer would refuse what a command sends it.

use crate::refusal::Refusal;

/// A rule of the peer's (BOLT 2, "Normal Operation") that a command would break. Each has the number of the refusal
/// of its name.
#[derive(Clone, Copy, Debug, PartialEq, Eq)]
pub enum PeerRule {
    /// 7: the message would have more than 65,535 bytes.
    TooLong,
    /// 21: the message may not come so.
    OutOfPlace,
    /// 23: the HTLC's amount is 0 or below `htlc_minimum_msat`.
    AmountBelowMinimum,
    /// 24: the HTLC would pass `max_accepted_htlcs`.
    TooManyHtlcs,
    /// 25: the HTLC would pass `max_htlc_value_in_flight_msat`.
    InFlightOver,
    /// 26: the HTLC would leave its sender less than `channel_reserve_satoshis`.
    CannotAfford,
    /// 27: the HTLC's `cltv_expiry` is 500,000,000 or more.
    ExpiryRange,
    /// 28: the removal names an HTLC that can't be removed.
    NoSuchHtlc,
    /// 29: the preimage hasn't the payment hash.
    PreimageWrong,
    /// 30: `update_fee` by the side that doesn't pay the fee.
    NotFunder,
}

impl PeerRule {
    ghost use Rattle.std.specs.Prelude.{◌≡◌};
    ghost use Rattle.ln_refusals.specs.PeerRule.{rule_number};

    /// The number by which the peer would refuse: 7, 21 or 23 to 30. Takes no memory.
    pub fn number(&self) -> u16
        ensures { result ≡ rule_number self.now }
    {
        match self {
            PeerRule::TooLong => 7,
            PeerRule::OutOfPlace => 21,
            PeerRule::AmountBelowMinimum => 23,
            PeerRule::TooManyHtlcs => 24,
            PeerRule::InFlightOver => 25,
            PeerRule::CannotAfford => 26,
            PeerRule::ExpiryRange => 27,
            PeerRule::NoSuchHtlc => 28,
            PeerRule::PreimageWrong => 29,
            PeerRule::NotFunder => 30,
        }
    }
}

impl Refusal {
    ghost use Rattle.std.specs.Prelude.{◌≡◌};
    ghost use Rattle.ln_refusals.specs.PeerRule.{rule_of};

    /// The rule that a refusal of a peer's update tells of; 21 for a refusal that tells of none. Takes no memory.
    pub fn peer_rule(&self) -> PeerRule
        ensures { result ≡ rule_of self.now }
    {
        match self {
            Refusal::TooLong => PeerRule::TooLong,
            Refusal::AmountBelowMinimum => PeerRule::AmountBelowMinimum,
            Refusal::TooManyHtlcs => PeerRule::TooManyHtlcs,
            Refusal::InFlightOver => PeerRule::InFlightOver,
            Refusal::CannotAfford => PeerRule::CannotAfford,
            Refusal::ExpiryRange => PeerRule::ExpiryRange,
            Refusal::NoSuchHtlc => PeerRule::NoSuchHtlc,
            Refusal::PreimageWrong => PeerRule::PreimageWrong,
            Refusal::NotFunder => PeerRule::NotFunder,
            _ => PeerRule::OutOfPlace,
        }
    }
}
