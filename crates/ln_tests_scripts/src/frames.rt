//! Frames that tests send.

ghost use Rattle.std.specs.Prelude.{◌≡◌, ◌∷◌, []};

/// The frame of a ping that asks for two bytes: a length of 6, type 18, and counts of 2 and 0 (BOLT 1, "The `ping` and
/// `pong` Messages").
pub fn ping_frame() -> [u8; 8]
    ensures { result ≡ 0 ∷ 6 ∷ 0 ∷ 18 ∷ 0 ∷ 2 ∷ 0 ∷ 0 ∷ [] }
{
    [0, 6, 0, 18, 0, 2, 0, 0]
}
