//! What a hook answers to an event.

/// Why a hook fails a payment: a code of BOLT 4, "Failure Messages", without the BADONION bit, 0x8000.
#[derive(Clone, Copy, PartialEq, Eq)]
pub enum FailureCode {
    /// 0x1007: the channel can't take it now.
    TemporaryChannelFailure,
    /// 0x400a: no channel has the short channel id.
    UnknownNextPeer,
    /// 0x100b: the amount is less than the channel takes.
    AmountBelowMinimum,
    /// 0x100c: too little is left for the fee.
    FeeInsufficient,
    /// 0x100d: the outgoing expiry is too close to the incoming one.
    IncorrectCltvExpiry,
    /// 0x100e: the expiry is too close.
    ExpiryTooSoon,
    /// 0x400f: no such payment is expected.
    IncorrectOrUnknownPaymentDetails,
    /// 0x0012: the incoming expiry is less than the payload says.
    FinalIncorrectCltvExpiry,
    /// 0x0013: the incoming amount is less than the payload says.
    FinalIncorrectHtlcAmount,
    /// 0x0015: the expiry is too far away.
    ExpiryTooFar,
    /// 0x4016: a record of the payload is missing or wrong.
    InvalidOnionPayload,
}

impl FailureCode {
    ghost use Rattle.std.specs.Prelude.{◌≡◌, ◌↔◌, ◌<◌, ◌^◌, IsTrue, IsSome, IfSome};
    ghost use Rattle.ln_hooks.specs.Verdict.{code_number, is_lawful};

    /// The code of this number, and None exactly where the number isn't that of a lawful one. Takes no memory.
    pub fn new(number: u16) -> Option<FailureCode>
        ensures has_the_number { IfSome result (λ c. code_number c ≡ number) }
        ensures lawful { IsSome result ↔ IsTrue (is_lawful number) }
    {
        match number {
            0x1007 => Some(FailureCode::TemporaryChannelFailure),
            0x400a => Some(FailureCode::UnknownNextPeer),
            0x100b => Some(FailureCode::AmountBelowMinimum),
            0x100c => Some(FailureCode::FeeInsufficient),
            0x100d => Some(FailureCode::IncorrectCltvExpiry),
            0x100e => Some(FailureCode::ExpiryTooSoon),
            0x400f => Some(FailureCode::IncorrectOrUnknownPaymentDetails),
            0x0012 => Some(FailureCode::FinalIncorrectCltvExpiry),
            0x0013 => Some(FailureCode::FinalIncorrectHtlcAmount),
            0x0015 => Some(FailureCode::ExpiryTooFar),
            0x4016 => Some(FailureCode::InvalidOnionPayload),
            _ => None,
        }
    }

    /// The code's number: the bits PERM 0x4000, NODE 0x2000 and UPDATE 0x1000, and a number.
    pub fn number(&self) -> u16
        ensures number { result ≡ code_number self.now }
        ensures lawful { IsTrue (is_lawful result) }
        ensures has_no_badonion_bit { result < 2 ^ 15 }
    {
        match self {
            FailureCode::TemporaryChannelFailure => 0x1007,
            FailureCode::UnknownNextPeer => 0x400a,
            FailureCode::AmountBelowMinimum => 0x100b,
            FailureCode::FeeInsufficient => 0x100c,
            FailureCode::IncorrectCltvExpiry => 0x100d,
            FailureCode::ExpiryTooSoon => 0x100e,
            FailureCode::IncorrectOrUnknownPaymentDetails => 0x400f,
            FailureCode::FinalIncorrectCltvExpiry => 0x0012,
            FailureCode::FinalIncorrectHtlcAmount => 0x0013,
            FailureCode::ExpiryTooFar => 0x0015,
            FailureCode::InvalidOnionPayload => 0x4016,
        }
    }
}

/// What a hook says of an event, or a table of hooks.
#[derive(Clone, Copy, PartialEq, Eq)]
pub enum Verdict {
    /// Nothing speaks against it.
    Continue,
    /// The payment is to fail, for this reason.
    Fail(FailureCode),
    /// The payment is to wait, until it is resumed.
    Hold,
}

impl Verdict {
    ghost use Rattle.std.specs.Prelude.{◌≡◌};
    ghost use Rattle.ln_hooks.specs.Verdict.{joined, or_hold};

    // What it says where another hook holds the payment.
    fn or_hold(self) -> Verdict
        ensures { result ≡ or_hold self }
    {
        match self {
            Verdict::Fail(code) => Verdict::Fail(code),
            Verdict::Continue | Verdict::Hold => Verdict::Hold,
        }
    }

    /// What a further hook's answer makes of what is said so far: the first Fail stands, else a Hold. Takes no memory.
    pub fn joined(self, answer: Verdict) -> Verdict
        ensures { result ≡ joined self answer }
    {
        match self {
            Verdict::Continue => answer,
            Verdict::Fail(code) => Verdict::Fail(code),
            Verdict::Hold => answer.or_hold(),
        }
    }
}
