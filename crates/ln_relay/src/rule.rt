//! The rule of a relay over a queue, and its steps.
use crossbeam_queue::RuledArrayQueue;
use crossbeam_queue::protocol::{Join, Lesson, Outcome, Protocol, Split};
use std::collections::LinkedList;

// What a pass knows: what the first sender has put, what the second has put, what was taken. No value of
// it is made.
pub struct Hand<T> {
    pub first: Option<LinkedList<T>>,
    pub second: Option<LinkedList<T>>,
    pub taken: Option<LinkedList<T>>,
}

// The rule of a relay.
pub struct OneMerge;

impl<T> Protocol<T, Hand<T>> for OneMerge {
    ghost use Rattle.std.specs.Prelude.{[], Some};
    ghost use Rattle.ln_relay.specs.Rule.{hand, Relayed};

    ghost holds = { Relayed };

    ghost first = { hand (Some []) (Some []) (Some []) };
}

// A push, or one that is refused.
pub struct Puts;

impl<T> Outcome<T, Hand<T>> for Puts {
    ghost use Rattle.std.specs.Prelude.{◌≡◌};
    ghost use Rattle.ln_relay.specs.Rule.{with_put};

    ghost then = { λ v x w. w ≡ with_put v x };
}

impl<T> Lesson<T, Hand<T>> for Puts {
    ghost use Rattle.ln_relay.specs.Rule.{HasHistory};

    ghost fact = { HasHistory };
}

// A pop, or one that is refused.
pub struct Takes;

impl<T> Outcome<T, Hand<T>> for Takes {
    ghost use Rattle.std.specs.Prelude.{◌≡◌};
    ghost use Rattle.ln_relay.specs.Rule.{with_taken};

    ghost then = { λ v x w. w ≡ with_taken v x };
}

impl<T> Lesson<T, Hand<T>> for Takes {
    ghost use Rattle.ln_relay.specs.Rule.{HasHistory};

    ghost fact = { HasHistory };
}

// The second sender's part is cut off.
pub struct SecondOut;

impl<T> Split<Hand<T>> for SecondOut {
    ghost use Rattle.ln_relay.specs.Rule.{without_second, only_second};

    ghost left = { without_second };

    ghost right = { only_second };
}

// The receiver's part is cut off.
pub struct ReceiverOut;

impl<T> Split<Hand<T>> for ReceiverOut {
    ghost use Rattle.ln_relay.specs.Rule.{without_taken, only_taken};

    ghost left = { without_taken };

    ghost right = { only_taken };
}

// A seat's part comes back.
pub struct Together;

impl<T> Join<Hand<T>> for Together {
    ghost use Rattle.ln_relay.specs.Rule.{both, spent};

    ghost both = { both };

    ghost spent = { spent };
}

pub type Queue<T> = RuledArrayQueue<T, Hand<T>, OneMerge>;
