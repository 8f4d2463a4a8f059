//! How values are read from the front of bytes, and written at the end of them.

use ln_refusals::Refusal;
use std::alloc::Global;

/// A value that passes in one form.
pub trait Wire: Sized {
    ghost use Rattle.std.specs.Prelude.{◌≡◌, ◌++◌, true, IfErr, OnOk};
    ghost use Rattle.ln_store.specs.Format.{Format, Finds};

    /// How it is written and read.
    ghost format: { Format Self };

    /// The value at the front of the bytes, and the bytes after it. Errors: 70 where there is none, 60 where there is
    /// no memory.
    fn read(alloc: Global, bytes: &[u8]) -> Result<(Self, &[u8]), Refusal>
        ensures { Finds (λ x. (x.0, x.1.now)) result (format.at bytes.now) };

    /// Whether the value has this form. Takes no memory.
    fn fits(&self) -> bool
        ensures { result ≡ format.fits self.now };

    /// Writes the value after the bytes. Error: 60 alone, where there is no memory.
    fn write(&self, out: &mut Vec<u8>) -> Result<(), Refusal>
        requires { format.fits self.now ≡ true }
        ensures appends_the_value { OnOk result (out.new.items ≡ out.old.items ++ format.bytes self.now) }
        ensures fails_for_memory_alone { IfErr result (λ e. e ≡ Refusal.Memory) };
}
