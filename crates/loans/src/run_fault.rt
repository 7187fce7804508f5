// Why a run was not made.
ghost use Rattle.std.specs.Prelude.{◌≡◌, Some};
ghost use Rattle.loans.specs.declared.run_fault.RunFault.TheVariants.{Refused};
ghost use Rattle.loans.specs.Runs.{fault_text};

use refusal::Refusal;
use std::error::Error;
use std::fmt;

/// Why a run was not made.
#[derive(Clone, Copy, PartialEq, Eq, Debug)]
pub enum RunFault {
    /// the file was not opened
    Refused(Refusal),
    /// the Vec has too little room for one answer a call
    NoRoom,
}

impl fmt::Display for RunFault {
    ghost output = { λ fault. Some (fault_text fault) };

    fn fmt<W: fmt::Write>(&self, f: &mut fmt::Formatter<W>) -> fmt::Result {
        match self {
            RunFault::Refused(refusal) => write!(f, "{refusal}"),
            RunFault::NoRoom => write!(f, "no room for the answers"),
        }
    }
}

impl Error for RunFault {}

impl From<Refusal> for RunFault {
    ghost from_gives = { λ refusal fault. fault ≡ Refused refusal };

    fn from(refusal: Refusal) -> RunFault {
        Self::Refused(refusal)
    }
}
