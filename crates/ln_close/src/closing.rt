//! One side's shutdown, and its answers to the fees that the other side proposes.

ghost use Rattle.std.specs.Prelude.{◌≡◌};
ghost use Rattle.ln_close.specs.Closing.{is_fee};

use ln_keys::Role;
use ln_refusals::Refusal;

/// The fees of a closing transaction that a side takes, in satoshis: `least` <= `first` <= `greatest`.
#[derive(Clone, Copy, PartialEq, Eq)]
pub struct Fees {
    /// What it proposes first, where it is the funder.
    pub first: u64,
    /// The least that it agrees to.
    pub least: u64,
    /// The most that it agrees to.
    pub greatest: u64,
}

/// What a side does about a `closing_signed` (BOLT 2, "Closing Negotiation: `closing_signed`").
#[derive(Clone, Copy, PartialEq, Eq)]
pub enum FeeAnswer {
    /// It does nothing.
    Nothing,
    /// The channel is closed at this fee, in satoshis.
    Close(u64),
    /// It sends this fee back, and the channel is closed at it, in satoshis.
    EchoAndClose(u64),
    /// It proposes this fee, in satoshis.
    Propose(u64),
}

/// How far one side is with closing a channel.
#[derive(Clone, Copy, PartialEq, Eq)]
pub struct Closing {
    /// Which side it is.
    pub role: Role,
    /// The fees that it takes. Each `closing_signed` of its own carries `least` and `greatest` as `fee_range`.
    pub fees: Fees,
    /// Whether it has sent `shutdown`.
    pub shut: bool,
    /// Whether it has taken the other side's `shutdown`.
    pub peer_shut: bool,
    /// The last fee that it sent, in satoshis.
    pub own_fee: Option<u64>,
    /// The last fee of the other side's that it took, in satoshis.
    pub peer_fee: Option<u64>,
    /// The fee at which the channel is closed, in satoshis.
    pub closed: Option<u64>,
}

// Whether this is the fee.
fn is_fee(known: Option<u64>, fee: u64) -> bool
    ensures { result ≡ is_fee known fee }
{
    known == Some(fee)
}

impl Closing {
    ghost use Rattle.std.specs.Prelude.{◌≡◌, IfOk, OnErr};
    ghost use Rattle.ln_close.specs.Closing.{opened, may_shut, after_shut, after_peer_shut, first_fee, started};
    ghost use Rattle.ln_close.specs.Closing.{answer_to, counter, after};

    /// A side of a channel that isn't closing.
    pub fn new(role: Role, fees: Fees) -> Closing
        ensures { result ≡ opened role fees }
    {
        Closing {
            role,
            fees,
            shut: false,
            peer_shut: false,
            own_fee: None,
            peer_fee: None,
            closed: None,
        }
    }

    /// Whether this side may send `shutdown` (BOLT 2, "Closing Initiation: `shutdown`"): 43 where it has
    /// sent one, else 45 where updates of its own are pending, that is not acknowledged by the other side.
    pub fn may_shut(&self, pending: bool) -> Result<(), Refusal>
        ensures { result ≡ may_shut pending self.now }
    {
        if self.shut {
            return Err(Refusal::Shut);
        }
        if pending {
            return Err(Refusal::UpdatesPending);
        }
        Ok(())
    }

    /// This side sends `shutdown`.
    pub fn shut(&mut self)
        ensures { self.new ≡ after_shut self.old }
    {
        self.shut = true;
    }

    /// The other side's `shutdown` is taken.
    pub fn peer_shut(&mut self)
        ensures { self.new ≡ after_peer_shut self.old }
    {
        self.peer_shut = true;
    }

    /// The fee that the funder sends first, in satoshis: where both sides have sent `shutdown` and it has
    /// sent no fee yet (BOLT 2, "Closing Negotiation: `closing_signed`"). It is asked for once no HTLC is
    /// live and every update is acknowledged in both commitments.
    pub fn start(&mut self) -> Option<u64>
        ensures fee { result ≡ first_fee self.old }
        ensures state { self.new ≡ started self.old }
    {
        match self.role {
            Role::Fundee => None,
            Role::Funder => {
                if !self.shut || !self.peer_shut || self.own_fee.is_some() {
                    return None;
                }
                self.own_fee = Some(self.fees.first);
                self.own_fee
            }
        }
    }

    /// What this side does about a fee of the other side's, which came with this `fee_range`: least and
    /// greatest, in satoshis (BOLT 2, "Closing Negotiation: `closing_signed`"). The first rule that fits
    /// holds:
    ///
    /// 1. The channel is closed: nothing at the fee of the close, 36 at another.
    /// 2. It is the last fee that this side sent: the channel is closed at it.
    /// 3. It is the last fee that the other side sent: nothing.
    /// 4. It lies within this side's own range: it is sent back, and the channel is closed at it.
    /// 5. The fundee has sent no fee yet: it proposes the nearest one within both ranges, 36 where there is
    ///    no `fee_range` or no such fee.
    /// 6. 36.
    ///
    /// At 36 nothing has changed.
    pub fn answer(&mut self, fee: u64, range: Option<(u64, u64)>) -> Result<FeeAnswer, Refusal>
        ensures answers_by_the_first_rule { result ≡ answer_to self.old fee range }
        ensures moves_as_stated { IfOk result (λ a. self.new ≡ after fee a self.old) }
        ensures changes_nothing_if_refused { OnErr result (self.new ≡ self.old) }
    {
        let answer = self.answer_to(fee, range)?;
        match answer {
            FeeAnswer::Nothing => {}
            FeeAnswer::Close(agreed) => {
                self.peer_fee = Some(fee);
                self.closed = Some(agreed);
            }
            FeeAnswer::EchoAndClose(agreed) => {
                self.own_fee = Some(agreed);
                self.peer_fee = Some(fee);
                self.closed = Some(agreed);
            }
            FeeAnswer::Propose(proposed) => {
                self.own_fee = Some(proposed);
                self.peer_fee = Some(fee);
            }
        }
        Ok(answer)
    }

    fn answer_to(&self, fee: u64, range: Option<(u64, u64)>) -> Result<FeeAnswer, Refusal>
        ensures { result ≡ answer_to self.now fee range }
    {
        match self.closed {
            Some(agreed) => {
                if agreed == fee {
                    return Ok(FeeAnswer::Nothing);
                }
                return Err(Refusal::FeeOutside);
            }
            None => {}
        }
        if is_fee(self.own_fee, fee) {
            return Ok(FeeAnswer::Close(fee));
        }
        if is_fee(self.peer_fee, fee) {
            return Ok(FeeAnswer::Nothing);
        }
        if self.fees.least <= fee && fee <= self.fees.greatest {
            return Ok(FeeAnswer::EchoAndClose(fee));
        }
        self.counter(fee, range)
    }

    // The fundee's own first fee, where it can't take the funder's.
    fn counter(&self, fee: u64, range: Option<(u64, u64)>) -> Result<FeeAnswer, Refusal>
        ensures { result ≡ counter self.now fee range }
    {
        match self.role {
            Role::Funder => return Err(Refusal::FeeOutside),
            Role::Fundee => {}
        }
        if self.own_fee.is_some() {
            return Err(Refusal::FeeOutside);
        }
        match range {
            None => Err(Refusal::FeeOutside),
            Some((least, greatest)) => {
                let least = self.fees.least.max(least);
                let greatest = self.fees.greatest.min(greatest);
                if least > greatest {
                    return Err(Refusal::FeeOutside);
                }
                Ok(FeeAnswer::Propose(fee.max(least).min(greatest)))
            }
        }
    }
}
