//! The error for a number that is out of range.

ghost use Rattle.std.specs.Prelude.{Some, codes};

use std::error::Error;
use std::fmt;

/// The error for a number or a pattern that is out of range of the target type.
#[derive(Debug, Clone, PartialEq, Eq, Drop)]
pub struct TryNewError;

impl fmt::Display for TryNewError {
    // Numbers below the range get the same text.
    ghost output = { λ _. Some (codes "Value too large to fit within this integer type") };

    fn fmt<W: fmt::Write>(&self, f: &mut fmt::Formatter<W>) -> fmt::Result {
        f.write_str("Value too large to fit within this integer type")
    }
}

impl Error for TryNewError {}
