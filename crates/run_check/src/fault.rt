//! Why a command of the program did not end well.

ghost use Rattle.std.specs.Prelude.{◌≡◌};

use kmem_text::LineFault;
use std::alloc::{AllocError, AllocFailed};

#[derive(Clone, Copy, Debug, PartialEq, Eq)]
pub enum Fault {
    /// The first line of the script outside the grammar, counted from 1, and its first failing check.
    BadScript { line: u32, fault: LineFault },
    Read,
    Write,
    /// More than 16 MiB of input, or more than 100,000 commands.
    Limit,
    NoMemory,
    /// The first line of a printed run that may not stand there, counted from the first line of the input.
    Illegal { line: u32 },
}

impl From<AllocError> for Fault {
    ghost use Rattle.run_check.specs.declared.fault.Fault.TheVariants.{NoMemory};

    ghost from_gives = { λ _ e. e ≡ NoMemory };

    fn from(_e: AllocError) -> Fault {
        Fault::NoMemory
    }
}

impl<T: Drop> From<AllocFailed<T>> for Fault {
    ghost use Rattle.run_check.specs.declared.fault.Fault.TheVariants.{NoMemory};

    ghost from_gives = { λ _ e. e ≡ NoMemory };

    fn from(_e: AllocFailed<T>) -> Fault {
        Fault::NoMemory
    }
}
