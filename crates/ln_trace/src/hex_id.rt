//! A channel's id as text.

use std::fmt::{Display, Formatter};
use std::{fmt, str};

/// Shows an id in 64 lower-case hexadecimal digits. Takes no memory.
#[derive(Clone, Copy)]
pub(crate) struct HexId<'a>(pub(crate) &'a [u8; 32]);

impl Display for HexId<'_> {
    ghost use Rattle.std.specs.Prelude.{Some};
    ghost use Rattle.hex.specs.Hex.{encode_lower};

    ghost output = { λ id. Some (encode_lower id.0.now) };

    fn fmt<W: fmt::Write>(&self, f: &mut Formatter<W>) -> fmt::Result {
        let mut digits = [0; 64];
        if hex::encode_to_slice(self.0, &mut digits).is_err() {
            return Err(fmt::Error);
        }
        match str::from_utf8(&digits) {
            Ok(text) => f.write_str(text),
            Err(_) => Err(fmt::Error),
        }
    }
}
