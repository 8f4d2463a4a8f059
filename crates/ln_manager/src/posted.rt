//! A message that waits to leave, with what is blank in it.

ghost use Rattle.std.specs.Prelude.{◌≡◌};

use ln_batches::FilledBy;
use ln_host::{Blank, Filling, fill};
use ln_msgs::Message;

/// A message that waits to leave.
#[derive(Drop)]
pub struct Posted {
    /// The message.
    pub message: Message,
    /// What its host has to fill in before it is sent.
    pub blank: Option<Blank>,
}

fn put<T: Drop>(place: &mut T, value: T)
    ensures { place.new ≡ value }
{
    *place = value;
}

impl FilledBy<Filling> for Posted {
    ghost use Rattle.std.specs.Prelude.{None};
    ghost use Rattle.ln_host.specs.Blank as blanks;

    ghost filled = { λ filling p. record { message = blanks.filled filling p.message; blank = None } };

    fn fill(&mut self, filling: Filling) {
        fill(&mut self.message, filling);
        put(&mut self.blank, None);
    }
}
