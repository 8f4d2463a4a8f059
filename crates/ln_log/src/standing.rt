//! How a side stands, and what keeps it from proposing a further update.

ghost use Rattle.std.specs.Prelude.{◌≡◌, option_copied};
ghost use Rattle.ln_log.specs.Limits.{add_fault, fulfil_fault, fail_fault, malformed_fault, fault_at, removable};

use crate::opening::Limits;
use crate::outcome::Outcome;
use crate::outcomes::outcome_of;
use crate::plain::find_add;
use crate::update::{Add, Fulfil, Malformed, Update, removal_of};
use ln_keys::{Role, sha256_32};
use ln_refusals::Refusal;

/// How one side stands in a commitment: what it has offered, and what it has left.
#[derive(Clone, Copy, PartialEq, Eq)]
pub struct Standing {
    /// The id of the next HTLC that it offers.
    pub next_id: u64,
    /// How many of the HTLCs that it offered are live.
    pub live: u64,
    /// Their sum, in millisatoshi.
    pub in_flight: u64,
    /// Its balance, in millisatoshi.
    pub balance: u64,
}

impl Standing {
    ghost use Rattle.std.specs.Prelude.{◌≡◌, ◌+◌, ◌-◌, ◌≤◌, ◌<◌, ◌^◌};
    ghost use Rattle.ln_log.specs.Standing.{with_own, with_peer, OwnFits, PeerFits, AllFit, with_all};

    /// How it stands once it has proposed a further update, where its commitment covers these updates of
    /// the other side's. A number that would pass 64 bits, or fall below 0, stays at that bound.
    pub fn with_own(&self, update: &Update, seen: &[Update]) -> Standing
        ensures exact_where_it_fits { OwnFits self.now seen.now update.now
            → result ≡ with_own self.now seen.now update.now }
    {
        match update {
            Update::Add(add) => Standing {
                next_id: self.next_id.saturating_add(1),
                live: self.live.saturating_add(1),
                in_flight: self.in_flight.saturating_add(add.amount),
                balance: self.balance.saturating_sub(add.amount),
            },
            Update::Fulfil(fulfil) => match find_add(fulfil.id, seen) {
                Some(add) => Standing {
                    next_id: self.next_id,
                    live: self.live,
                    in_flight: self.in_flight,
                    balance: self.balance.saturating_add(add.amount),
                },
                None => *self,
            },
            Update::Fail(_) => *self,
            Update::Malformed(_) => *self,
            Update::Fee(_) => *self,
        }
    }

    // How it stands once its commitment covers a further update of the other side's; at a bound as above.
    fn with_peer(&self, update: &Update, own: &[Update]) -> Standing
        ensures exact_where_it_fits { PeerFits self.now own.now update.now
            → result ≡ with_peer self.now own.now update.now }
    {
        match removal_of(update) {
            None => *self,
            Some(removal) => match find_add(removal.id, own) {
                None => *self,
                Some(add) => {
                    let back = match removal.outcome {
                        Outcome::Failed => add.amount,
                        Outcome::Live => 0,
                        Outcome::Fulfilled => 0,
                    };
                    Standing {
                        next_id: self.next_id,
                        live: self.live.saturating_sub(1),
                        in_flight: self.in_flight.saturating_sub(add.amount),
                        balance: self.balance.saturating_add(back),
                    }
                }
            },
        }
    }

    /// How it stands once its commitment covers further updates of the other side's, each of which that
    /// removes an HTLC removes one of these own ones. A number that would pass 64 bits, or fall below 0, stays at that
    /// bound.
    pub fn with_all(&self, updates: &[Update], own: &[Update]) -> Standing
        ensures exact_where_they_fit { AllFit self.now own.now updates.now
            → result ≡ with_all self.now own.now updates.now }
    {
        let mut standing = *self;
        for update in updates {
            standing = standing.with_peer(update, own);
        }
        standing
    }
}

/// The first limit that a further HTLC would break (BOLT 2, "Adding an HTLC"), in this order: an amount
/// of 0 or below the minimum (23), an expiry of 500,000,000 or more (27), one HTLC too many (24), too
/// much in flight (25), less than the reserve left (26).
pub fn add_refusal(limits: &Limits, standing: &Standing, add: &Add) -> Option<Refusal>
    ensures { result ≡ add_fault limits.now standing.now add.now }
{
    if add.amount == 0 || add.amount < limits.minimum {
        return Some(Refusal::AmountBelowMinimum);
    }
    if add.expiry >= 500_000_000 {
        return Some(Refusal::ExpiryRange);
    }
    if u128::from(limits.accepted) < u128::from(standing.live) + 1 {
        return Some(Refusal::TooManyHtlcs);
    }
    if u128::from(limits.in_flight) < u128::from(standing.in_flight) + u128::from(add.amount) {
        return Some(Refusal::InFlightOver);
    }
    if u128::from(standing.balance) < u128::from(add.amount) + 1000 * u128::from(limits.reserve) {
        return Some(Refusal::CannotAfford);
    }
    None
}

// The HTLC of an id that a side may remove: it holds it, and hasn't removed it.
fn removable<'a>(id: u64, own: &[Update], held: &'a [Update]) -> Option<&'a Add>
    ensures { option_copied result ≡ removable id own.now held.now }
{
    match outcome_of(id, own) {
        Outcome::Live => find_add(id, held),
        Outcome::Fulfilled => None,
        Outcome::Failed => None,
    }
}

fn fulfil_refusal(fulfil: &Fulfil, htlc: Option<&Add>) -> Option<Refusal>
    ensures { result ≡ fulfil_fault fulfil.now.preimage (option_copied htlc.entry) }
{
    match htlc {
        None => Some(Refusal::NoSuchHtlc),
        Some(add) => {
            if sha256_32(fulfil.preimage.as_slice()) == add.hash {
                None
            } else {
                Some(Refusal::PreimageWrong)
            }
        }
    }
}

fn fail_refusal(htlc: Option<&Add>) -> Option<Refusal>
    ensures { result ≡ fail_fault (option_copied htlc.entry) }
{
    match htlc {
        None => Some(Refusal::NoSuchHtlc),
        Some(_) => None,
    }
}

fn malformed_refusal(malformed: &Malformed, htlc: Option<&Add>) -> Option<Refusal>
    ensures { result ≡ malformed_fault malformed.now.failure_code (option_copied htlc.entry) }
{
    match htlc {
        None => Some(Refusal::NoSuchHtlc),
        Some(_) => {
            if malformed.failure_code >= 0x8000 {
                None
            } else {
                Some(Refusal::OutOfPlace)
            }
        }
    }
}

/// What the peer of a side would refuse its update by, where the side stands so after its own updates and
/// holds these of the peer's as irrevocably committed: for an add the first limit that it would break; for
/// a removal 28 where it names no HTLC that is held and not removed, 29 for a preimage that isn't the
/// payment hash's, 21 for a malformed one without the BADONION bit; for a fee of the fundee's 30.
pub fn update_refusal(
    limits: &Limits,
    standing: &Standing,
    side: Role,
    own: &[Update],
    held: &[Update],
    update: &Update,
) -> Option<Refusal>
    ensures { result ≡ fault_at limits.now standing.now side own.now held.now update.now }
{
    match update {
        Update::Add(add) => add_refusal(limits, standing, add),
        Update::Fulfil(fulfil) => fulfil_refusal(fulfil, removable(fulfil.id, own, held)),
        Update::Fail(fail) => fail_refusal(removable(fail.id, own, held)),
        Update::Malformed(malformed) => malformed_refusal(
            malformed,
            removable(malformed.id, own, held),
        ),
        Update::Fee(_) => match side {
            Role::Funder => None,
            Role::Fundee => Some(Refusal::NotFunder),
        },
    }
}
