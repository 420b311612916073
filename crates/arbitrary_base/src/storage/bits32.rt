//! `u32` and `i32` as storages. tools/twins.py compares this file with those of the other widths.

ghost use Rattle.std.specs.Prelude.{refl};

use crate::storage::{
    BuiltinInteger, Sealed, SignedOf, SignedStorage, Storage, UnsignedOf, UnsignedStorage,
};
use std::cmp::Ordering;

impl Sealed for u32 {}

impl UnsignedStorage for u32 {
    ghost unsigned_law = { refl };
}

impl UnsignedOf<u32> for u32 {
    ghost unsigned_width_law = { refl };
}

impl UnsignedOf<i32> for u32 {
    ghost unsigned_width_law = { refl };
}

impl BuiltinInteger for u32 {
    type Unsigned = u32;

    type Signed = i32;
}

#[tactic(auto, using(crate::proofs::storages::Primitive::unsigned_laws))]
impl Storage for u32 {
    ghost use Rattle.std.specs.Prelude.{false, pos, unsigned_abs, refl};
    ghost use Rattle.std.proofs.Common.{lit≤};

    ghost WIDTH = { 32 };

    ghost SIGNED = { false };

    ghost number = { pos };

    ghost of_number = { unsigned_abs };

    ghost round_trip_law = { λ x. refl };

    const WIDTH: usize = 32;

    const SIGNED: bool = false;

    fn pattern(self) -> u128 {
        self as u128
    }

    #[tactic(auto, using(crate::proofs::bit_lists::SignBit::unsigned_shifts))]
    fn shl_by(self, n: usize) -> Self {
        self << n
    }

    #[tactic(auto, using(crate::proofs::bit_lists::SignBit::unsigned_shifts))]
    fn shr_by(self, n: usize) -> Self {
        self >> n
    }

    fn from_pattern(pattern: u128) -> Self {
        (pattern % (1 << 32)) as u32
    }

    fn wrapping_add(self, other: Self) -> Self {
        self.wrapping_add(other)
    }

    fn wrapping_sub(self, other: Self) -> Self {
        self.wrapping_sub(other)
    }

    fn wrapping_mul(self, other: Self) -> Self {
        self.wrapping_mul(other)
    }

    fn wrapping_div(self, other: Self) -> Self {
        self.wrapping_div(other)
    }

    fn checked_mul(self, other: Self) -> Option<Self> {
        self.checked_mul(other)
    }

    fn overflowing_mul(self, other: Self) -> (Self, bool) {
        self.overflowing_mul(other)
    }

    fn equal(&self, other: &Self) -> bool {
        *self == *other
    }

    fn compare(&self, other: &Self) -> Ordering {
        self.cmp(other)
    }

    ghost width_law = { (lit≤ tt, lit≤ tt) };

    ghost one_law = { lit≤ tt };
}

impl Sealed for i32 {}

impl SignedStorage for i32 {
    ghost signed_law = { refl };
}

impl SignedOf<i32> for i32 {
    ghost signed_width_law = { refl };
}

impl SignedOf<u32> for i32 {
    ghost signed_width_law = { refl };
}

impl BuiltinInteger for i32 {
    type Unsigned = u32;

    type Signed = i32;
}

#[tactic(auto, using(crate::proofs::storages::Primitive::signed_laws))]
impl Storage for i32 {
    ghost use Rattle.std.specs.Prelude.{true, refl};
    ghost use Rattle.std.proofs.Common.{lit≤};

    ghost WIDTH = { 32 };

    ghost SIGNED = { true };

    ghost number = { λ x. x };

    ghost of_number = { λ x. x };

    ghost round_trip_law = { λ x. refl };

    const WIDTH: usize = 32;

    const SIGNED: bool = true;

    fn pattern(self) -> u128 {
        self.cast_unsigned() as u128
    }

    fn shl_by(self, n: usize) -> Self {
        self << n
    }

    fn shr_by(self, n: usize) -> Self {
        self >> n
    }

    fn from_pattern(pattern: u128) -> Self {
        ((pattern % (1 << 32)) as u32).cast_signed()
    }

    fn wrapping_add(self, other: Self) -> Self {
        self.wrapping_add(other)
    }

    fn wrapping_sub(self, other: Self) -> Self {
        self.wrapping_sub(other)
    }

    fn wrapping_mul(self, other: Self) -> Self {
        self.wrapping_mul(other)
    }

    fn wrapping_div(self, other: Self) -> Self {
        self.wrapping_div(other)
    }

    fn checked_mul(self, other: Self) -> Option<Self> {
        self.checked_mul(other)
    }

    fn overflowing_mul(self, other: Self) -> (Self, bool) {
        self.overflowing_mul(other)
    }

    fn equal(&self, other: &Self) -> bool {
        *self == *other
    }

    fn compare(&self, other: &Self) -> Ordering {
        self.cmp(other)
    }

    ghost width_law = { (lit≤ tt, lit≤ tt) };

    ghost one_law = { lit≤ tt };
}
