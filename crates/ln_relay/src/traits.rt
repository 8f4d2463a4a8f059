//! What every seat of a relay promises.

use std::sync::Wait;

/// A seat that sends.
///
/// A contract sees its position, which never changes, and all that it has put.
pub trait Sends<T> {
    ghost use Rattle.std.specs.Prelude.{◌≡◌, ◌++◌, ◌∷◌, [], List, IfErr, OnOk, OnErr};
    ghost use Rattle.ln_relay.specs.Position.{Position, WasFull};

    /// What tells one relay from another.
    ghost Relay: { Type 0 };

    /// Which relay it is a seat of, how many items that can hold, and which seat it is.
    ghost position: { Self → Position Relay };

    /// What this seat has put, oldest first.
    ghost put: { Self → List T };

    /// Puts an item at the back.
    ///
    /// A relay that is full hands the item back, and nothing has changed. It doesn't wait for room. Takes no
    /// memory.
    fn send<R: Wait>(&mut self, rt: &R, item: T) -> Result<(), T>
        ensures position_stays { position self.new ≡ position self.old }
        ensures appends { OnOk result (put self.new ≡ put self.old ++ item ∷ []) }
        ensures hands_back { IfErr result (λ back. back ≡ item) }
        ensures changes_nothing_if_refused { OnErr result (put self.new ≡ put self.old) }
        ensures was_full_if_refused { OnErr result (WasFull (position self.old) (put self.old)) };
}

/// A seat that receives.
///
/// A contract sees its position, which never changes, and all that was taken from it.
pub trait Receives<T> {
    ghost use Rattle.std.specs.Prelude.{◌≡◌, ◌++◌, ◌∷◌, [], List, None, IfSome};
    ghost use Rattle.ln_relay.specs.Position.{Position, WasEmpty};

    /// What tells one relay from another.
    ghost Relay: { Type 0 };

    /// Which relay it is a seat of, how many items that can hold, and which seat it is.
    ghost position: { Self → Position Relay };

    /// What was taken from this seat, oldest first.
    ghost taken: { Self → List T };

    /// Takes the item at the front.
    ///
    /// `None` comes only from a relay that was empty, and nothing has changed. It doesn't wait for an item.
    /// Takes no memory.
    fn recv<R: Wait>(&mut self, rt: &R) -> Option<T>
        ensures position_stays { position self.new ≡ position self.old }
        ensures appends { IfSome result (λ item. taken self.new ≡ taken self.old ++ item ∷ []) }
        ensures changes_nothing_if_none { result ≡ None → taken self.new ≡ taken self.old }
        ensures was_empty_if_none { result ≡ None → WasEmpty (position self.old) (taken self.old) };
}

/// A seat that receives, and that may wait for an item.
pub trait Waits<T>: Receives<T> {
    ghost use Rattle.std.specs.Prelude.{◌≡◌, ◌++◌, ◌∷◌, [], None, IfSome};
    ghost use Rattle.ln_relay.specs.Position.{WasEmpty};

    /// Takes the item at the front, as `recv` does. Where there is none it may wait for one, for ever if none
    /// comes.
    ///
    /// `None` comes only from a relay that was empty, and nothing has changed. Takes no memory.
    fn recv_wait<R: Wait>(&mut self, rt: &R) -> Option<T>
        ensures position_stays { Self.position self.new ≡ Self.position self.old }
        ensures appends { IfSome result (λ item. Self.taken self.new ≡ Self.taken self.old ++ item ∷ []) }
        ensures changes_nothing_if_none { result ≡ None → Self.taken self.new ≡ Self.taken self.old }
        ensures was_empty_if_none { result ≡ None → WasEmpty (Self.position self.old) (Self.taken self.old) };
}
