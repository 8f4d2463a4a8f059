//! What a worker has of those who order its end to do something.

use ln_refusals::Refusal;
use std::sync::Wait;

/// Where a worker replies to orders, once to each, in the order in which they were given, and learns whether it is to
/// sign by itself. A contract sees all that was said on both.
pub trait Orders {
    ghost use Rattle.std.specs.Prelude.{◌≡◌, ◌++◌, ◌∷◌, [], List, Bool};
    ghost use Rattle.ln_node_loops.specs.Orders.{Reply};

    /// All replies, oldest first.
    ghost replied: { Self → List Reply };

    /// All that was told of whether the worker is to sign by itself, oldest first.
    ghost allowed: { Self → List Bool };

    /// The reply to the next order: the id of the HTLC that it is about, 0 where it is about none; or by what the end
    /// has refused it, and then nothing was sent.
    fn reply<R: Wait>(&mut self, rt: &R, answer: Result<u64, Refusal>)
        ensures replies { replied self.new ≡ replied self.old ++ answer ∷ [] }
        ensures tells_nothing { allowed self.new ≡ allowed self.old };

    /// Whether the worker is to sign by itself what is owed, where it has nothing else to do.
    fn signs(&mut self) -> bool
        ensures tells { allowed self.new ≡ allowed self.old ++ result ∷ [] }
        ensures replies_nothing { replied self.new ≡ replied self.old };
}
