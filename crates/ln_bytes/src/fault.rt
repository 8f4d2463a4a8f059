//! Why bytes are refused, by number.

ghost use Rattle.std.specs.Prelude.{◌≡◌};

use std::alloc::{AllocError, AllocFailed};
use std::fmt;
use std::fmt::{Display, Formatter};
use thiserror::Error;

/// What is wrong with bytes that were read, or why nothing could be read or written.
///
/// Faults 1 to 9 tell of the bytes alone: the same bytes always have the same first fault. The text is `refused` and
/// the number.
#[derive(Clone, Copy, Debug, PartialEq, Eq, Error)]
pub enum Fault {
    /// 1: the bytes end inside a value.
    Truncated,
    /// 2: a number is written in a longer form than it needs.
    NotMinimal,
    /// 3: a record's type isn't above the one before it.
    TlvOrder,
    /// 4: a record has an even type that isn't known.
    TlvUnknownEven,
    /// 5: a record's value passes the end of the stream.
    TlvLength,
    /// 6: a message has an even type that isn't known.
    UnknownEvenType,
    /// 7: a message has more than 65,535 bytes.
    TooLong,
    /// 8: a value with a fixed form has another length.
    FieldLength,
    /// 9: a peer asks for an even feature that isn't known.
    UnknownFeature,
    /// 60: there was no memory.
    Memory,
    /// 63: a read or a write failed.
    Io,
}

impl Fault {
    ghost use Rattle.ln_bytes.specs.Fault.{fault_number};

    /// The number by which the fault is told: 1 to 9, 60 or 63.
    pub fn number(&self) -> u16
        ensures { result ≡ fault_number self.now }
    {
        match self {
            Fault::Truncated => 1,
            Fault::NotMinimal => 2,
            Fault::TlvOrder => 3,
            Fault::TlvUnknownEven => 4,
            Fault::TlvLength => 5,
            Fault::UnknownEvenType => 6,
            Fault::TooLong => 7,
            Fault::FieldLength => 8,
            Fault::UnknownFeature => 9,
            Fault::Memory => 60,
            Fault::Io => 63,
        }
    }
}

impl Display for Fault {
    ghost use Rattle.std.specs.Prelude.{Some};
    ghost use Rattle.ln_bytes.specs.Fault.{fault_text};

    ghost output = { λ f. Some (fault_text f) };

    fn fmt<W: fmt::Write>(&self, f: &mut Formatter<W>) -> fmt::Result {
        write!(f, "refused {}", self.number())
    }
}

impl From<AllocError> for Fault {
    ghost use Rattle.std.specs.Prelude.{◌≡◌};
    ghost use Rattle.ln_bytes.specs.declared.fault.Fault.TheVariants.{Memory};

    ghost from_gives = { λ _ e. e ≡ Memory };

    fn from(_error: AllocError) -> Fault {
        Fault::Memory
    }
}

impl<T: Drop> From<AllocFailed<T>> for Fault {
    ghost use Rattle.std.specs.Prelude.{◌≡◌};
    ghost use Rattle.ln_bytes.specs.declared.fault.Fault.TheVariants.{Memory};

    ghost from_gives = { λ _ e. e ≡ Memory };

    fn from(_error: AllocFailed<T>) -> Fault {
        Fault::Memory
    }
}
