//! Why the program ends without success.

use crate::bad_line::BadLine;
use ln_refusals::Refusal;
use std::alloc::{AllocError, AllocFailed};
use std::fmt;
use std::fmt::{Display, Formatter};

/// Why a run ended before its end. Its text is the line for standard error, with the refusal's number and name.
#[derive(Debug, Drop)]
pub enum ProgramError {
    /// The text isn't hexadecimal. Exit status 2.
    NotHex,
    /// The script isn't UTF-8: 64, for the whole text. Exit status 1.
    NotText,
    /// A line of the script isn't one: 64. Exit status 1.
    BadLine(BadLine),
    /// The run was refused. Exit status 1.
    Refused(Refusal),
}

impl ProgramError {
    ghost use Rattle.std.specs.Prelude.{◌≡◌};
    ghost use Rattle.ln_script.specs.ProgramError.{status_of};

    /// The program's exit status.
    pub fn status(&self) -> u8
        ensures { result ≡ status_of self.now }
    {
        match self {
            ProgramError::NotHex => 2,
            ProgramError::NotText => 1,
            ProgramError::BadLine(_) => 1,
            ProgramError::Refused(_) => 1,
        }
    }
}

impl Display for ProgramError {
    ghost use Rattle.std.specs.Prelude.{Some};
    ghost use Rattle.ln_script.specs.ProgramError.{error_text};

    ghost output = { λ e. Some (error_text e) };

    fn fmt<W: fmt::Write>(&self, f: &mut Formatter<W>) -> fmt::Result {
        match self {
            ProgramError::NotHex => write!(f, "the message isn't hexadecimal, two digits a byte"),
            ProgramError::NotText => write!(f, "the script isn't UTF-8 (refused 64 BadScript)"),
            ProgramError::BadLine(bad) => write!(f, "{bad}"),
            ProgramError::Refused(refusal) => write!(f, "{refusal} {}", refusal.name()),
        }
    }
}

impl From<Refusal> for ProgramError {
    ghost use Rattle.std.specs.Prelude.{◌≡◌};
    ghost use Rattle.ln_script.specs.declared.program.program_error.ProgramError.TheVariants.{Refused};

    ghost from_gives = { λ refusal e. e ≡ Refused refusal };

    fn from(refusal: Refusal) -> ProgramError {
        ProgramError::Refused(refusal)
    }
}

impl From<AllocError> for ProgramError {
    ghost use Rattle.std.specs.Prelude.{◌≡◌};
    ghost use Rattle.ln_script.specs.declared.program.program_error.ProgramError.TheVariants.{Refused};
    ghost use Rattle.ln_refusals.specs.declared.refusal.Refusal.TheVariants.{Memory};

    ghost from_gives = { λ _ e. e ≡ Refused Memory };

    fn from(_error: AllocError) -> ProgramError {
        ProgramError::Refused(Refusal::Memory)
    }
}

impl<T: Drop> From<AllocFailed<T>> for ProgramError {
    ghost use Rattle.std.specs.Prelude.{◌≡◌};
    ghost use Rattle.ln_script.specs.declared.program.program_error.ProgramError.TheVariants.{Refused};
    ghost use Rattle.ln_refusals.specs.declared.refusal.Refusal.TheVariants.{Memory};

    ghost from_gives = { λ _ e. e ≡ Refused Memory };

    fn from(_error: AllocFailed<T>) -> ProgramError {
        ProgramError::Refused(Refusal::Memory)
    }
}
