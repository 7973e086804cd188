//! Why a line has no answer.
ghost use Rattle.std.specs.Prelude.{◌≡◌};

use omega_model::NoMemory;
use std::alloc::{AllocError, AllocFailed};
use std::fmt;

/// Why a line has no answer. It is printed in the answer's place.
#[derive(Clone, Copy, Debug, Drop, PartialEq, Eq)]
pub enum Fault {
    /// A quote isn't closed, or a backslash stands before no escape.
    BadLine,
    /// There is no such call, or its words are other than it takes.
    UnknownCall,
    /// What the call requires doesn't hold, so the call isn't made.
    MayNot,
    NoMemory,
}

impl fmt::Display for Fault {
    fn fmt<W: fmt::Write>(&self, f: &mut fmt::Formatter<W>) -> fmt::Result {
        match self {
            Fault::BadLine => write!(f, "bad line"),
            Fault::UnknownCall => write!(f, "unknown call"),
            Fault::MayNot => write!(f, "may not"),
            Fault::NoMemory => write!(f, "no memory"),
        }
    }
}

impl From<NoMemory> for Fault {
    ghost use Rattle.omega_calls.specs.declared.fault.Fault.{Fault};

    ghost from_gives = { λ _ e. e ≡ Fault.NoMemory };

    fn from(_error: NoMemory) -> Fault {
        Fault::NoMemory
    }
}

impl From<AllocError> for Fault {
    ghost use Rattle.omega_calls.specs.declared.fault.Fault.{Fault};

    ghost from_gives = { λ _ e. e ≡ Fault.NoMemory };

    fn from(_error: AllocError) -> Fault {
        Fault::NoMemory
    }
}

impl<T: Drop> From<AllocFailed<T>> for Fault {
    ghost use Rattle.omega_calls.specs.declared.fault.Fault.{Fault};

    ghost from_gives = { λ _ e. e ≡ Fault.NoMemory };

    fn from(_error: AllocFailed<T>) -> Fault {
        Fault::NoMemory
    }
}
