//! The faults that `bitrun` reports.

ghost use Rattle.std.specs.Prelude.{◌≡◌, Some};
ghost use Rattle.bitrun_text.specs.Fault.{fault_row};
ghost use Rattle.bitrun_text.specs.declared.fault.Fault.TheVariants as faults;

use std::alloc::{AllocError, AllocFailed};
use std::error::Error;
use std::fmt;

/// Why there is no output, or not all of it.
#[derive(Clone, Copy, Debug, PartialEq, Eq)]
pub enum Fault {
    /// The first bad line, counted from 1: it does not have its form, or is missing.
    Line(usize),
    /// The input has more than 65,536 bytes.
    TooLong,
    /// Memory was refused.
    Memory,
    /// The reader failed.
    Read,
    /// The writer failed, or accepted nothing. It may have written a beginning of the output.
    Write,
}

impl Fault {
    /// The status with which the program ends.
    pub fn status(&self) -> u8
        ensures { result ≡ (fault_row self.now).1 }
    {
        match self {
            Fault::Line(_) => 2,
            Fault::TooLong => 2,
            Fault::Memory => 3,
            Fault::Read => 4,
            Fault::Write => 5,
        }
    }
}

impl fmt::Display for Fault {
    ghost output = { λ fault. Some (fault_row fault).0 };

    fn fmt<W: fmt::Write>(&self, f: &mut fmt::Formatter<W>) -> fmt::Result {
        match self {
            Fault::Line(number) => write!(f, "fault: line {number}"),
            Fault::TooLong => write!(f, "fault: too long"),
            Fault::Memory => write!(f, "fault: memory"),
            Fault::Read => write!(f, "fault: read"),
            Fault::Write => write!(f, "fault: write"),
        }
    }
}

impl Error for Fault {}

impl From<AllocError> for Fault {
    ghost from_gives = { λ _ fault. fault ≡ faults.Memory };

    fn from(_error: AllocError) -> Fault {
        Fault::Memory
    }
}

impl<T: Drop> From<AllocFailed<T>> for Fault {
    ghost from_gives = { λ _ fault. fault ≡ faults.Memory };

    fn from(_error: AllocFailed<T>) -> Fault {
        Fault::Memory
    }
}
