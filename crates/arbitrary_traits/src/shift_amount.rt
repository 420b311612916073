//! The types of the amount of a shift by `<<` and `>>`.

ghost use Rattle.std.specs.Prelude.{◌≡◌, ◌^◌, ◌≤ℤ◌, ◌<ℤ◌, ℤ, pos};

use crate::primitives::Primitive;
use arbitrary_base::storage::Sealed;

/// A primitive integer type, for the amount of a shift.
pub trait ShiftAmount: Sealed + Copy {
    // The number of a value.
    ghost amount: { Self → ℤ };

    /// The amount, which must be from 0 to `2 ^ 64 - 1`.
    fn to_amount(self) -> usize
        requires low { pos 0 ≤ℤ amount self }
        requires high { amount self <ℤ pos (2 ^ 64) }
        ensures { pos result ≡ amount self };
}

impl<T: Primitive> ShiftAmount for T {
    ghost amount = { T.number };

    fn to_amount(self) -> usize {
        self.pattern() as usize
    }
}

impl ShiftAmount for usize {
    ghost amount = { pos };

    fn to_amount(self) -> usize {
        self
    }
}

impl ShiftAmount for isize {
    ghost amount = { λ x. x };

    fn to_amount(self) -> usize {
        self as usize
    }
}
