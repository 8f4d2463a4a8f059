//! A past that proofs alone read.

ghost use Rattle.std.specs.Prelude.{◌≡◌};
ghost use Rattle.std.specs.Borrow.{ftrue};
ghost use Rattle.ln_history.specs.History.{History, begun_with, with_entry};

use std::marker::{Model, PhantomData};

/// What something began with, and what was entered since: proofs alone read it. It takes no memory, and its methods do
/// nothing at run time. A clause reads it as `told`.
#[derive(Drop)]
pub struct Past<S, E> {
    of: PhantomData<(S, E)>,
    pub ghost told: { History S E },
}

impl<S, E> Model for Past<S, E> {
    ghost also_owns = { λ _. ftrue };
}

// It owns nothing.
unsafe impl<S: Send, E: Send> Send for Past<S, E> {}

impl<S, E> Past<S, E> {
    /// It began with this, and nothing was entered. Takes no memory.
    pub fn begun(start: &S) -> Past<S, E>
        ensures { result.told ≡ begun_with start.now }
    {
        Past { of: PhantomData }
    }

    /// The same once more. Takes no memory.
    pub fn same(&self) -> Past<S, E>
        ensures { result.told ≡ self.now.told }
    {
        Past { of: PhantomData }
    }

    /// One entry more. Takes no memory.
    pub fn and(&self, entry: &E) -> Past<S, E>
        ensures { result.told ≡ with_entry entry.now self.now.told }
    {
        Self { of: PhantomData }
    }
}
