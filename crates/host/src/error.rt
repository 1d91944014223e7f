//! Why calls were not run.
use model::Refusal;
use std::alloc::AllocError;
use std::error::Error;
use std::fmt;

#[derive(Clone, Copy, PartialEq, Eq, Debug)]
pub enum HostError {
    /// There is not enough memory.
    Memory(AllocError),
    /// A limit of opening is broken.
    Refused(Refusal),
}

impl From<AllocError> for HostError {
    ghost use Rattle.std.specs.Prelude.{◌≡◌};
    ghost use Rattle.host.specs.declared.error.HostError.TheVariants.{Memory};

    ghost from_gives = { λ why error. error ≡ Memory why };

    fn from(why: AllocError) -> HostError {
        HostError::Memory(why)
    }
}

impl From<Refusal> for HostError {
    ghost use Rattle.std.specs.Prelude.{◌≡◌};
    ghost use Rattle.host.specs.declared.error.HostError.TheVariants.{Refused};

    ghost from_gives = { λ why error. error ≡ Refused why };

    fn from(why: Refusal) -> HostError {
        HostError::Refused(why)
    }
}

impl fmt::Display for HostError {
    fn fmt<W: fmt::Write>(&self, f: &mut fmt::Formatter<W>) -> fmt::Result {
        match self {
            HostError::Memory(error) => write!(f, "{error}"),
            HostError::Refused(refusal) => write!(f, "the database was not opened: {refusal}"),
        }
    }
}

impl Error for HostError {}
