//! What is filled in while it waits.

/// A message in which a host fills something in while it waits.
pub trait FilledBy<F> {
    ghost use Rattle.std.specs.Prelude.{◌≡◌};

    /// The message with that in it.
    ghost filled: { F → Self → Self };

    /// That is filled in.
    fn fill(&mut self, filling: F)
        ensures { self.new ≡ filled filling self.old };
}
