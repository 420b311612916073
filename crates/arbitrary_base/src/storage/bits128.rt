//! `u128` and `i128` as storages. tools/twins.py compares this file with those of the other widths.

ghost use Rattle.std.specs.Prelude.{◌≡◌, if◌then◌else◌, true, pos, neg_ℤ, refl};
ghost use Rattle.arbitrary_base.specs.Residue.{wrap};

use crate::storage::{
    BuiltinInteger, Sealed, SignedOf, SignedStorage, Storage, UnsignedOf, UnsignedStorage,
};
use std::cmp::Ordering;

impl Sealed for u128 {}

impl UnsignedStorage for u128 {
    ghost unsigned_law = { refl };
}

impl UnsignedOf<u128> for u128 {
    ghost unsigned_width_law = { refl };
}

impl UnsignedOf<i128> for u128 {
    ghost unsigned_width_law = { refl };
}

impl BuiltinInteger for u128 {
    type Unsigned = u128;

    type Signed = i128;
}

#[tactic(auto, using(crate::proofs::storages::Primitive::unsigned_laws))]
impl Storage for u128 {
    ghost use Rattle.std.specs.Prelude.{false, pos, unsigned_abs, refl};
    ghost use Rattle.std.proofs.Common.{lit≤};

    ghost WIDTH = { 128 };

    ghost SIGNED = { false };

    ghost number = { pos };

    ghost of_number = { unsigned_abs };

    ghost round_trip_law = { λ x. refl };

    const WIDTH: usize = 128;

    const SIGNED: bool = false;

    fn pattern(self) -> u128 {
        self
    }

    #[tactic(auto, using(crate::proofs::bit_lists::SignBit::unsigned_shifts))]
    fn shl_by(self, n: usize) -> Self {
        self << n
    }

    #[tactic(auto, using(crate::proofs::bit_lists::SignBit::unsigned_shifts))]
    fn shr_by(self, n: usize) -> Self {
        self >> n
    }

    fn from_pattern(pattern: u128) -> Self {
        pattern
    }

    fn wrapping_add(self, other: Self) -> Self {
        self.wrapping_add(other)
    }

    fn wrapping_sub(self, other: Self) -> Self {
        self.wrapping_sub(other)
    }

    fn wrapping_mul(self, other: Self) -> Self {
        self.wrapping_mul(other)
    }

    fn wrapping_div(self, other: Self) -> Self {
        self.wrapping_div(other)
    }

    fn checked_mul(self, other: Self) -> Option<Self> {
        self.checked_mul(other)
    }

    fn overflowing_mul(self, other: Self) -> (Self, bool) {
        self.overflowing_mul(other)
    }

    fn equal(&self, other: &Self) -> bool {
        *self == *other
    }

    fn compare(&self, other: &Self) -> Ordering {
        self.cmp(other)
    }

    ghost width_law = { (lit≤ tt, lit≤ tt) };

    ghost one_law = { lit≤ tt };
}

/// The number with this magnitude, negative if the flag is set, wrapped.
#[tactic(auto, using(crate::proofs::integers::SignAndMagnitude::signs))]
fn with_sign(size: u128, is_negative: bool) -> i128
    ensures { result ≡ wrap true 128 (if is_negative then neg_ℤ (pos size) else pos size) }
{
    if is_negative {
        size.wrapping_neg().cast_signed()
    } else {
        size.cast_signed()
    }
}

impl Sealed for i128 {}

impl SignedStorage for i128 {
    ghost signed_law = { refl };
}

impl SignedOf<i128> for i128 {
    ghost signed_width_law = { refl };
}

impl SignedOf<u128> for i128 {
    ghost signed_width_law = { refl };
}

impl BuiltinInteger for i128 {
    type Unsigned = u128;

    type Signed = i128;
}

#[tactic(auto, using(crate::proofs::storages::Primitive::signed_laws))]
impl Storage for i128 {
    ghost use Rattle.std.specs.Prelude.{true, refl};
    ghost use Rattle.std.proofs.Common.{lit≤};

    ghost WIDTH = { 128 };

    ghost SIGNED = { true };

    ghost number = { λ x. x };

    ghost of_number = { λ x. x };

    ghost round_trip_law = { λ x. refl };

    const WIDTH: usize = 128;

    const SIGNED: bool = true;

    fn pattern(self) -> u128 {
        self.cast_unsigned()
    }

    fn shl_by(self, n: usize) -> Self {
        self << n
    }

    fn shr_by(self, n: usize) -> Self {
        self >> n
    }

    fn from_pattern(pattern: u128) -> Self {
        pattern.cast_signed()
    }

    fn wrapping_add(self, other: Self) -> Self {
        self.wrapping_add(other)
    }

    fn wrapping_sub(self, other: Self) -> Self {
        self.wrapping_sub(other)
    }

    fn wrapping_mul(self, other: Self) -> Self {
        self.wrapping_mul(other)
    }

    fn wrapping_div(self, other: Self) -> Self {
        self.wrapping_div(other)
    }

    fn checked_mul(self, other: Self) -> Option<Self> {
        self.checked_mul(other)
    }

    fn overflowing_mul(self, other: Self) -> (Self, bool) {
        // The primitive's call multiplies the magnitudes for its flag, and the numbers for its product.
        // Both follow from the product of the magnitudes, so this computes nothing else.
        let (size, _) = self.unsigned_abs().overflowing_mul(other.unsigned_abs());
        let (_, overflow) = self.overflowing_mul(other);
        (with_sign(size, (self < 0) != (other < 0)), overflow)
    }

    fn equal(&self, other: &Self) -> bool {
        *self == *other
    }

    fn compare(&self, other: &Self) -> Ordering {
        self.cmp(other)
    }

    ghost width_law = { (lit≤ tt, lit≤ tt) };

    ghost one_law = { lit≤ tt };
}
