//! Amounts of payments.

use std::marker::Model;

/// An amount in millisatoshi, at most 2,100,000,000,000,000,000: no channel can be funded with more.
#[derive(Clone, Copy, PartialEq, Eq)]
pub struct Msat {
    value: u64,
}

impl Model for Msat {
    ghost use Rattle.std.specs.Prelude.{ℕ, ◌≤◌};
    ghost use Rattle.ln_hooks.specs.Amount.{greatest_amount};

    ghost Value = { ℕ };

    ghost view = { λ m. m.value };

    ghost inverse = { λ n. record { value = n } };

    ghost invariant = { λ m. m.value ≤ greatest_amount };
}

impl Msat {
    ghost use Rattle.std.specs.Prelude.{◌≡◌, ◌≤◌};
    ghost use Rattle.ln_hooks.specs.Amount.{bounded, greatest_amount};

    /// The greatest amount.
    pub const MAX: u64 = 2_100_000_000_000_000_000;

    /// The amount of so many millisatoshi, and None exactly above the greatest one. Takes no memory.
    pub fn new(value: u64) -> Option<Msat>
        ensures { result ≡ bounded value }
    {
        if value <= Msat::MAX {
            Some(Msat { value })
        } else {
            None
        }
    }

    /// How many millisatoshi.
    pub fn value(&self) -> u64
        ensures value { result ≡ self.now }
        ensures at_most_the_greatest { result ≤ greatest_amount }
    {
        self.value
    }
}
