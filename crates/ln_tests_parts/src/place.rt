//! Values that take each other's places.

ghost use Rattle.std.specs.Prelude.{◌≡◌};

/// A value takes another's place. What is dropped has a depth that nobody knows here.
pub fn put<T: Drop>(place: &mut T, value: T)
    ensures { place.new ≡ value }
{
    *place = value;
}
