//! Bytes that are one value from the first to the last.

ghost use Rattle.std.specs.Prelude.{◌≡◌};
ghost use Rattle.ln_wire.specs.Forms.{whole_in, written_in, Gives};

use crate::wire::Wire;
use ln_refusals::Refusal;
use std::alloc::Global;

/// The value that the bytes are. Errors: 70 where they begin with none, or something is left; 60 where there is no
/// memory.
pub(crate) fn whole<T: Wire + Drop>(alloc: Global, bytes: &[u8]) -> Result<T, Refusal>
    ensures reads_as_defined { Gives (λ x. x) result (whole_in T.format bytes.now) }
{
    let (value, rest) = T::read(alloc, bytes)?;
    if rest.is_empty() {
        Ok(value)
    } else {
        drop(value);
        Err(Refusal::Damaged)
    }
}

/// The bytes of the value. Errors: 7 where it doesn't fit its form, 60 where there is no memory.
pub(crate) fn written<T: Wire>(alloc: Global, value: &T) -> Result<Vec<u8>, Refusal>
    ensures writes_as_defined { Gives (λ v. v.items) result (written_in T.format value.now) }
{
    if !value.fits() {
        return Err(Refusal::TooLong);
    }
    let mut out = Vec::new(alloc);
    value.write(&mut out)?;
    Ok(out)
}
