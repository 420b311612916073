//! The constants of an integer type under their names in the Rust crate: `u7::MAX` is what `u7::max_value()` returns.

ghost use Rattle.std.specs.Prelude.{◌≡◌, ◌-ℤ◌, ◌^◌, false, pos};
ghost use Rattle.arbitrary_base.specs.Range.{lo, hi};

use crate::constants::valid::ValidWidth;

pub mod primitives;
pub mod signed;
pub mod unsigned;
pub mod valid;

/// An integer type of a valid width, with its constants: `UInt` and `Int` at each width from 1 to
/// that of their storage, and the primitives.
pub trait Constants: ValidWidth {
    ghost ZERO: { Self };

    ghost MIN: { Self };

    ghost MAX: { Self };

    ghost MASK: { Self.UnderlyingType };

    /// The number 0.
    const ZERO: Self;

    /// The least number.
    const MIN: Self;

    /// The greatest number.
    const MAX: Self;

    /// The storage's value whose low `BITS` bits are one and whose other bits are zero: -1 for a
    /// signed type as wide as its storage.
    const MASK: Self::UnderlyingType;

    ghost zero_law: { Self.number ZERO ≡ pos 0 };

    ghost min_law: { Self.number MIN ≡ lo Self.IS_SIGNED Self.BITS };

    ghost max_law: { Self.number MAX ≡ hi Self.IS_SIGNED Self.BITS };

    ghost mask_law: { Self.IS_SIGNED ≡ false
        → Self.underlying MASK ≡ pos (2 ^ Self.BITS) -ℤ pos 1 };
}
