//! Whether a save that failed has left the record of before.

ghost use Rattle.std.specs.Prelude.{◌≡◌, ◌↔◌, IsTrue};

/// Whether these bytes are the record of before.
pub fn is_same(bytes: &[u8], before: &[u8]) -> bool
    ensures { IsTrue result ↔ (bytes.now ≡ before.now) }
{
    bytes == before
}
