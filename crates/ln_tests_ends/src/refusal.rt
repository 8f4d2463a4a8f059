//! Refusals as numbers.

ghost use Rattle.std.specs.Prelude.{◌≡◌, ◌≢◌, ◌+◌, Some, None};
ghost use Rattle.ln_refusals.specs.declared.refusal.Refusal.TheVariants.{PeerLimit};
ghost use Rattle.ln_refusals.specs.declared.peer_rule.PeerRule.{PeerRule};
ghost use Rattle.ln_refusals.specs.PeerRule.{rule_number};
ghost use Rattle.ln_refusals.specs.Refusal.{refusal_number};

use ln_refusals::Refusal;

/// A call's refusal as a number: 0 where there is none, 4400 and the peer's number where the peer would refuse, else
/// the refusal's own. Takes no memory.
pub fn code_of(refusal: Option<Refusal>) -> u32
    ensures none { refusal ≡ None → result ≡ 0 }
    ensures peer_limit { (n : PeerRule) → refusal ≡ Some (PeerLimit n) → result ≡ 4400 + rule_number n }
    ensures others { (r : Refusal) → refusal ≡ Some r → ((n : PeerRule) → r ≢ PeerLimit n) → result ≡ refusal_number r }
{
    match refusal {
        None => 0,
        Some(Refusal::PeerLimit(rule)) => 4400 + u32::from(rule.number()),
        Some(other) => u32::from(other.number()),
    }
}
