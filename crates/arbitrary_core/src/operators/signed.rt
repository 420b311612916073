//! `+ - * /` and unary minus of `Int`, which require that the exact result is in range and that a divisor is not
//! zero. `+` and `-` ensure the ranges of their operands. `*` ensures that the result is at most the product of the
//! magnitudes, from which the check finds that the product fits.

ghost use Rattle.std.specs.Prelude.{◌≡◌, ◌≢◌, ◌+ℤ◌, ◌-ℤ◌, ◌*ℤ◌, ◌*◌, ◌≤◌, neg_ℤ, pos, int_div, unsigned_abs};
ghost use Rattle.arbitrary_base.specs.Range.{InRange};

use crate::signed::Int;
use arbitrary_base::storage::{SignedStorage, UnsignedOf};
use arbitrary_base::wrapping;
use std::ops::{Add, AddAssign, Div, DivAssign, Mul, MulAssign, Neg, Sub, SubAssign};

impl<T: SignedStorage, const BITS: usize, U: UnsignedOf<T>> Add<Int<T, BITS, U>>
    for Int<T, BITS, U> {
    type Output = Int<T, BITS, U>;

    ghost can_add = { λ a b. let sum = a +ℤ b in
        InRange T.SIGNED BITS a → InRange T.SIGNED BITS b → InRange T.SIGNED BITS sum };

    ghost add_gives = { λ a b r. (r ≡ a +ℤ b)
        × InRange T.SIGNED BITS a × InRange T.SIGNED BITS b };

    fn add(self, rhs: Int<T, BITS, U>) -> Int<T, BITS, U> {
        Int::<T, BITS, U>::new(wrapping::add(self.value(), rhs.value(), BITS))
    }
}

impl<T: SignedStorage, const BITS: usize, U: UnsignedOf<T>> AddAssign<Int<T, BITS, U>>
    for Int<T, BITS, U> {
    ghost can_add_assign = { λ a b. let sum = a +ℤ b in
        InRange T.SIGNED BITS a → InRange T.SIGNED BITS b → InRange T.SIGNED BITS sum };

    ghost add_assign_gives = { λ a b r. (r ≡ a +ℤ b)
        × InRange T.SIGNED BITS a × InRange T.SIGNED BITS b };

    fn add_assign(&mut self, rhs: Int<T, BITS, U>) {
        *self = *self + rhs;
    }
}

impl<T: SignedStorage, const BITS: usize, U: UnsignedOf<T>> Sub<Int<T, BITS, U>>
    for Int<T, BITS, U> {
    type Output = Int<T, BITS, U>;

    ghost can_sub = { λ a b. let difference = a -ℤ b in
        InRange T.SIGNED BITS a → InRange T.SIGNED BITS b → InRange T.SIGNED BITS difference };

    ghost sub_gives = { λ a b r. (r ≡ a -ℤ b)
        × InRange T.SIGNED BITS a × InRange T.SIGNED BITS b };

    fn sub(self, rhs: Int<T, BITS, U>) -> Int<T, BITS, U> {
        Int::<T, BITS, U>::new(wrapping::sub(self.value(), rhs.value(), BITS))
    }
}

impl<T: SignedStorage, const BITS: usize, U: UnsignedOf<T>> SubAssign<Int<T, BITS, U>>
    for Int<T, BITS, U> {
    ghost can_sub_assign = { λ a b. let difference = a -ℤ b in
        InRange T.SIGNED BITS a → InRange T.SIGNED BITS b → InRange T.SIGNED BITS difference };

    ghost sub_assign_gives = { λ a b r. (r ≡ a -ℤ b)
        × InRange T.SIGNED BITS a × InRange T.SIGNED BITS b };

    fn sub_assign(&mut self, rhs: Int<T, BITS, U>) {
        *self = *self - rhs;
    }
}

impl<T: SignedStorage, const BITS: usize, U: UnsignedOf<T>> Mul<Int<T, BITS, U>>
    for Int<T, BITS, U> {
    type Output = Int<T, BITS, U>;

    ghost can_mul = { λ a b. let product = a *ℤ b in
        let bound = unsigned_abs a * unsigned_abs b in
        InRange T.SIGNED BITS a → InRange T.SIGNED BITS b → unsigned_abs product ≤ bound
        → InRange T.SIGNED BITS product };

    ghost mul_gives = { λ a b r. let bound = unsigned_abs a * unsigned_abs b in
        (r ≡ a *ℤ b) × (unsigned_abs r ≤ bound) };

    fn mul(self, rhs: Int<T, BITS, U>) -> Int<T, BITS, U> {
        Int::<T, BITS, U>::new(wrapping::mul(self.value(), rhs.value(), BITS))
    }
}

impl<T: SignedStorage, const BITS: usize, U: UnsignedOf<T>> MulAssign<Int<T, BITS, U>>
    for Int<T, BITS, U> {
    ghost can_mul_assign = { λ a b. let product = a *ℤ b in
        let bound = unsigned_abs a * unsigned_abs b in
        InRange T.SIGNED BITS a → InRange T.SIGNED BITS b → unsigned_abs product ≤ bound
        → InRange T.SIGNED BITS product };

    ghost mul_assign_gives = { λ a b r. let bound = unsigned_abs a * unsigned_abs b in
        (r ≡ a *ℤ b) × (unsigned_abs r ≤ bound) };

    fn mul_assign(&mut self, rhs: Int<T, BITS, U>) {
        *self = *self * rhs;
    }
}

impl<T: SignedStorage, const BITS: usize, U: UnsignedOf<T>> Div<Int<T, BITS, U>>
    for Int<T, BITS, U> {
    type Output = Int<T, BITS, U>;

    ghost can_div = { λ a b. let quotient = int_div a b in (b ≢ pos 0)
        × (InRange T.SIGNED BITS a → InRange T.SIGNED BITS b → InRange T.SIGNED BITS quotient) };

    ghost div_gives = { λ a b r. r ≡ int_div a b };

    fn div(self, rhs: Int<T, BITS, U>) -> Int<T, BITS, U> {
        Int::<T, BITS, U>::new(wrapping::div(self.value(), rhs.value(), BITS))
    }
}

impl<T: SignedStorage, const BITS: usize, U: UnsignedOf<T>> DivAssign<Int<T, BITS, U>>
    for Int<T, BITS, U> {
    ghost can_div_assign = { λ a b. let quotient = int_div a b in (b ≢ pos 0)
        × (InRange T.SIGNED BITS a → InRange T.SIGNED BITS b → InRange T.SIGNED BITS quotient) };

    ghost div_assign_gives = { λ a b r. r ≡ int_div a b };

    fn div_assign(&mut self, rhs: Int<T, BITS, U>) {
        *self = *self / rhs;
    }
}

impl<T: SignedStorage, const BITS: usize, U: UnsignedOf<T>> Neg for Int<T, BITS, U> {
    type Output = Int<T, BITS, U>;

    ghost can_neg = { λ a. InRange T.SIGNED BITS (neg_ℤ a) };

    ghost neg_gives = { λ a r. r ≡ neg_ℤ a };

    fn neg(self) -> Int<T, BITS, U> {
        Int::<T, BITS, U>::new(wrapping::neg(self.value(), BITS))
    }
}
