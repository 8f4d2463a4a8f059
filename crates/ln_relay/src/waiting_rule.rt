//! The same rule over a channel whose receiver may wait.
use crate::rule::{Hand, OneMerge, Puts, Takes};
use crossbeam_channel::protocol::{Lesson, Outcome, Protocol};
use crossbeam_channel::{RuledReceiver, RuledSender};

impl<T> Protocol<T, Hand<T>> for OneMerge {
    ghost use Rattle.std.specs.Prelude.{[], Some};
    ghost use Rattle.ln_relay.specs.Rule.{hand, Relayed};

    ghost holds = { Relayed };

    ghost first = { hand (Some []) (Some []) (Some []) };
}

impl<T> Outcome<T, Hand<T>> for Puts {
    ghost use Rattle.std.specs.Prelude.{◌≡◌};
    ghost use Rattle.ln_relay.specs.Rule.{with_put};

    ghost then = { λ v x w. w ≡ with_put v x };
}

impl<T> Lesson<T, Hand<T>> for Puts {
    ghost use Rattle.ln_relay.specs.Rule.{HasHistory};

    ghost fact = { HasHistory };
}

impl<T> Outcome<T, Hand<T>> for Takes {
    ghost use Rattle.std.specs.Prelude.{◌≡◌};
    ghost use Rattle.ln_relay.specs.Rule.{with_taken};

    ghost then = { λ v x w. w ≡ with_taken v x };
}

impl<T> Lesson<T, Hand<T>> for Takes {
    ghost use Rattle.ln_relay.specs.Rule.{HasHistory};

    ghost fact = { HasHistory };
}

pub type SendEnd<T> = RuledSender<T, Hand<T>, OneMerge>;

pub type RecvEnd<T> = RuledReceiver<T, Hand<T>, OneMerge>;
