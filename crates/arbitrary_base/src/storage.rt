//! The primitive integers, as storages of numbers with fewer bits.

ghost use Rattle.std.specs.Prelude.{◌≡◌, ◌≢◌, ◌↔◌, ◌≤◌, ◌<◌, ◌+ℤ◌, ◌-ℤ◌, ◌*ℤ◌, ℕ, ℤ, Bool, true, false, pos, int_div, IsTrue, SomeIff, option_map};
ghost use Rattle.std.specs.Ordering.{int_cmp, int_eq};
ghost use Rattle.arbitrary_base.specs.Range.{InRange};
ghost use Rattle.arbitrary_base.specs.Residue.{residue, wrap};
ghost use Rattle.arbitrary_base.specs.BitList.{bits, val, shl, shr, fill};

use std::cmp::Ordering;

pub mod bits128;
pub mod bits16;
pub mod bits32;
pub mod bits64;
pub mod bits8;

/// Seals the traits of these crates: do not implement it for another type.
pub trait Sealed {}

// `usize` and `isize` are no storages, but amounts of shifts.
impl Sealed for usize {}

impl Sealed for isize {}

/// A primitive integer, which can store a number of at most `WIDTH` bits.
// It requires few traits, because the check of a function takes longer with each trait that its bounds require. So it has `equal` and
// `compare` in place of `Ord`.
pub trait Storage: Sealed + Copy + Drop {
    ghost WIDTH: { ℕ };

    ghost SIGNED: { Bool };

    // The number of a value, and the value of a number.
    ghost number: { Self → ℤ };

    ghost of_number: { ℤ → Self };

    ghost round_trip_law: { (x : Self) → of_number (number x) ≡ x };

    /// The width of the type in bits: 8, 16, 32, 64 or 128.
    const WIDTH: usize;

    /// Whether the type has a sign.
    const SIGNED: bool;

    /// The bits of the number: its residue modulo `2 ^ WIDTH`.
    fn pattern(self) -> u128
        ensures value { result ≡ residue WIDTH (number self) }
        ensures self_in_range { InRange SIGNED WIDTH (number self) };

    /// The type's number that is congruent to `pattern` modulo `2 ^ WIDTH`.
    fn from_pattern(pattern: u128) -> Self
        ensures { number result ≡ wrap SIGNED WIDTH (pos pattern) };

    /// The sum, wrapped.
    fn wrapping_add(self, other: Self) -> Self
        ensures { number result ≡ wrap SIGNED WIDTH (number self +ℤ number other) };

    /// The difference, wrapped.
    fn wrapping_sub(self, other: Self) -> Self
        ensures { number result ≡ wrap SIGNED WIDTH (number self -ℤ number other) };

    /// The product, wrapped.
    fn wrapping_mul(self, other: Self) -> Self
        ensures { number result ≡ wrap SIGNED WIDTH (number self *ℤ number other) };

    /// The quotient, rounded toward zero and wrapped. Requires a divisor other than zero.
    fn wrapping_div(self, other: Self) -> Self
        requires { number other ≢ pos 0 }
        ensures { number result ≡ wrap SIGNED WIDTH (int_div (number self) (number other)) };

    /// The product, or `None` if it is out of range.
    fn checked_mul(self, other: Self) -> Option<Self>
        ensures { SomeIff (option_map number result)
            (InRange SIGNED WIDTH (number self *ℤ number other)) (number self *ℤ number other) };

    /// The product, wrapped, and whether the exact product is out of range.
    fn overflowing_mul(self, other: Self) -> (Self, bool)
        ensures value { number result.0 ≡ wrap SIGNED WIDTH (number self *ℤ number other) }
        ensures overflow { let product = number self *ℤ number other in
            IsTrue result.1 ↔ ¬ (InRange SIGNED WIDTH product) };

    /// The bits shifted left by `n`, with zeros from the right.
    fn shl_by(self, n: usize) -> Self
        requires { n < WIDTH }
        ensures { number result ≡ val SIGNED (shl (bits WIDTH (number self)) n) };

    /// The bits shifted right by `n`, with copies of the sign from the left, or zeros for an
    /// unsigned type.
    fn shr_by(self, n: usize) -> Self
        requires { n < WIDTH }
        ensures { let list = bits WIDTH (number self) in
            number result ≡ val SIGNED (shr list n (fill SIGNED list)) };

    /// Whether the two numbers are equal.
    fn equal(&self, other: &Self) -> bool
        ensures { result ≡ int_eq (number self.now) (number other.now) };

    /// How the two numbers are ordered.
    fn compare(&self, other: &Self) -> Ordering
        ensures { result ≡ int_cmp (number self.now) (number other.now) };

    ghost width_law: { (1 ≤ WIDTH) × (WIDTH ≤ 128) };

    // So each type has the number 1.
    ghost one_law: { 2 ≤ WIDTH };
}

/// An unsigned primitive integer.
pub trait UnsignedStorage: Storage {
    ghost unsigned_law: { Self.SIGNED ≡ false };
}

/// A signed primitive integer, in two's complement.
pub trait SignedStorage: Storage {
    ghost signed_law: { Self.SIGNED ≡ true };
}

/// The unsigned storage of the same width as `S`, which holds the bits of each number of `S`.
pub trait UnsignedOf<S: Storage>: UnsignedStorage {
    ghost unsigned_width_law: { Self.WIDTH ≡ S.WIDTH };
}

/// The signed storage of the same width as `S`.
pub trait SignedOf<S: Storage>: SignedStorage {
    ghost signed_width_law: { Self.WIDTH ≡ S.WIDTH };
}

/// A primitive integer, with its counterparts of the same width.
pub trait BuiltinInteger: Storage {
    /// The unsigned type of this width.
    type Unsigned;

    /// The signed type of this width.
    type Signed;
}
