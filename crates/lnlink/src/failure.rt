//! Why the program ends without success.

use ln_refusals::Refusal;
use ln_script::ProgramError;
use std::alloc::{AllocError, AllocFailed};
use std::fmt;
use std::fmt::{Display, Formatter};

/// Why there is nothing to run, or why a run ended. Its text is for standard error, and ends in a line feed.
#[derive(Drop)]
pub enum Failure {
    /// The words aren't a command, by this text. Exit status 2.
    Usage(String),
    /// What was asked for ended so.
    Stopped(ProgramError),
}

impl Failure {
    ghost use Rattle.std.specs.Prelude.{◌≡◌};
    ghost use Rattle.lnlink.specs.Failure.{exit_status};

    /// The program's exit status.
    pub fn status(&self) -> u8
        ensures { result ≡ exit_status self.now }
    {
        match self {
            Failure::Usage(_) => 2,
            Failure::Stopped(error) => error.status(),
        }
    }
}

impl Display for Failure {
    fn fmt<W: fmt::Write>(&self, f: &mut Formatter<W>) -> fmt::Result {
        match self {
            Failure::Usage(text) => f.write_str(text.as_str()),
            Failure::Stopped(error) => write!(f, "{error}\n"),
        }
    }
}

impl From<Refusal> for Failure {
    ghost use Rattle.std.specs.Prelude.{◌≡◌};
    ghost use Rattle.ln_script.specs.declared.program.program_error.ProgramError.TheVariants.{Refused};
    ghost use Rattle.lnlink.specs.declared.failure.Failure.TheVariants.{Stopped};

    ghost from_gives = { λ refusal e. e ≡ Stopped (Refused refusal) };

    fn from(refusal: Refusal) -> Failure {
        Failure::Stopped(ProgramError::Refused(refusal))
    }
}

impl From<AllocError> for Failure {
    ghost use Rattle.std.specs.Prelude.{◌≡◌};
    ghost use Rattle.ln_refusals.specs.declared.refusal.Refusal.TheVariants.{Memory};
    ghost use Rattle.ln_script.specs.declared.program.program_error.ProgramError.TheVariants.{Refused};
    ghost use Rattle.lnlink.specs.declared.failure.Failure.TheVariants.{Stopped};

    ghost from_gives = { λ _ e. e ≡ Stopped (Refused Memory) };

    fn from(_error: AllocError) -> Failure {
        Failure::from(Refusal::Memory)
    }
}

impl<T: Drop> From<AllocFailed<T>> for Failure {
    ghost use Rattle.std.specs.Prelude.{◌≡◌};
    ghost use Rattle.ln_refusals.specs.declared.refusal.Refusal.TheVariants.{Memory};
    ghost use Rattle.ln_script.specs.declared.program.program_error.ProgramError.TheVariants.{Refused};
    ghost use Rattle.lnlink.specs.declared.failure.Failure.TheVariants.{Stopped};

    ghost from_gives = { λ _ e. e ≡ Stopped (Refused Memory) };

    fn from(_error: AllocFailed<T>) -> Failure {
        Failure::from(Refusal::Memory)
    }
}
