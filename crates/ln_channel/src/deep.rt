//! Steps over values of any depth: they know nothing of their parts, and neither does who calls them.

ghost use Rattle.std.specs.Prelude.{◌≡◌};

/// A value takes another's place.
pub(crate) fn put<T: Drop>(place: &mut T, value: T)
    ensures { place.new ≡ value }
{
    *place = value;
}
