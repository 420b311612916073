//! `u8` and `i8` as storages. tools/twins.py compares this file with those of the other widths.

ghost use Rattle.std.specs.Prelude.{refl};

use crate::storage::{
    BuiltinInteger, Sealed, SignedOf, SignedStorage, Storage, UnsignedOf, UnsignedStorage,
};
use std::cmp::Ordering;

impl Sealed for u8 {}

impl UnsignedStorage for u8 {
    ghost unsigned_law = { refl };
}

impl UnsignedOf<u8> for u8 {
    ghost unsigned_width_law = { refl };
}

impl UnsignedOf<i8> for u8 {
    ghost unsigned_width_law = { refl };
}

impl BuiltinInteger for u8 {
    type Unsigned = u8;

    type Signed = i8;
}

#[tactic(auto, using(crate::proofs::storages::Primitive::unsigned_laws))]
impl Storage for u8 {
    ghost use Rattle.std.specs.Prelude.{false, pos, unsigned_abs, refl};
    ghost use Rattle.std.proofs.Common.{lit≤};

    ghost WIDTH = { 8 };

    ghost SIGNED = { false };

    ghost number = { pos };

    ghost of_number = { unsigned_abs };

    ghost round_trip_law = { λ x. refl };

    const WIDTH: usize = 8;

    const SIGNED: bool = false;

    fn pattern(self) -> u128 {
        self as u128
    }

    #[tactic(auto, using(crate::proofs::bit_lists::SignBit::unsigned_shifts))]
    fn shl_by(self, n: usize) -> Self {
        self << n
    }

    #[tactic(auto, using(crate::proofs::bit_lists::SignBit::unsigned_shifts))]
    fn shr_by(self, n: usize) -> Self {
        self >> n
    }

    fn from_pattern(pattern: u128) -> Self {
        (pattern % 256) as u8
    }

    fn wrapping_add(self, other: Self) -> Self {
        self.wrapping_add(other)
    }

    fn wrapping_sub(self, other: Self) -> Self {
        self.wrapping_sub(other)
    }

    fn wrapping_mul(self, other: Self) -> Self {
        self.wrapping_mul(other)
    }

    fn wrapping_div(self, other: Self) -> Self {
        self.wrapping_div(other)
    }

    fn checked_mul(self, other: Self) -> Option<Self> {
        self.checked_mul(other)
    }

    fn overflowing_mul(self, other: Self) -> (Self, bool) {
        self.overflowing_mul(other)
    }

    fn equal(&self, other: &Self) -> bool {
        *self == *other
    }

    fn compare(&self, other: &Self) -> Ordering {
        self.cmp(other)
    }

    ghost width_law = { (lit≤ tt, lit≤ tt) };

    ghost one_law = { lit≤ tt };
}

impl Sealed for i8 {}

impl SignedStorage for i8 {
    ghost signed_law = { refl };
}

impl SignedOf<i8> for i8 {
    ghost signed_width_law = { refl };
}

impl SignedOf<u8> for i8 {
    ghost signed_width_law = { refl };
}

impl BuiltinInteger for i8 {
    type Unsigned = u8;

    type Signed = i8;
}

#[tactic(auto, using(crate::proofs::storages::Primitive::signed_laws))]
impl Storage for i8 {
    ghost use Rattle.std.specs.Prelude.{true, refl};
    ghost use Rattle.std.proofs.Common.{lit≤};

    ghost WIDTH = { 8 };

    ghost SIGNED = { true };

    ghost number = { λ x. x };

    ghost of_number = { λ x. x };

    ghost round_trip_law = { λ x. refl };

    const WIDTH: usize = 8;

    const SIGNED: bool = true;

    fn pattern(self) -> u128 {
        self.cast_unsigned() as u128
    }

    fn shl_by(self, n: usize) -> Self {
        self << n
    }

    fn shr_by(self, n: usize) -> Self {
        self >> n
    }

    fn from_pattern(pattern: u128) -> Self {
        ((pattern % 256) as u8).cast_signed()
    }

    fn wrapping_add(self, other: Self) -> Self {
        self.wrapping_add(other)
    }

    fn wrapping_sub(self, other: Self) -> Self {
        self.wrapping_sub(other)
    }

    fn wrapping_mul(self, other: Self) -> Self {
        self.wrapping_mul(other)
    }

    fn wrapping_div(self, other: Self) -> Self {
        self.wrapping_div(other)
    }

    fn checked_mul(self, other: Self) -> Option<Self> {
        self.checked_mul(other)
    }

    fn overflowing_mul(self, other: Self) -> (Self, bool) {
        self.overflowing_mul(other)
    }

    fn equal(&self, other: &Self) -> bool {
        *self == *other
    }

    fn compare(&self, other: &Self) -> Ordering {
        self.cmp(other)
    }

    ghost width_law = { (lit≤ tt, lit≤ tt) };

    ghost one_law = { lit≤ tt };
}
