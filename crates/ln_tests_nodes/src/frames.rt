//! Frames that tests send.

ghost use Rattle.std.specs.Prelude.{◌≡◌, ◌∷◌, []};

/// The frame of a ping that asks for no bytes: a length of 6, type 18, and two counts of 0 (BOLT 1, "The `ping` and
/// `pong` Messages").
pub fn ping_frame() -> [u8; 8]
    ensures { result ≡ 0 ∷ 6 ∷ 0 ∷ 18 ∷ 0 ∷ 0 ∷ 0 ∷ 0 ∷ [] }
{
    [0, 6, 0, 18, 0, 0, 0, 0]
}

/// The frame of an init without features (BOLT 1, "The `init` Message").
pub fn init_frame() -> [u8; 8]
    ensures { result ≡ 0 ∷ 6 ∷ 0 ∷ 16 ∷ 0 ∷ 0 ∷ 0 ∷ 0 ∷ [] }
{
    [0, 6, 0, 16, 0, 0, 0, 0]
}
