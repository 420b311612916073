//! `+ - * /` of `UInt`, which require that the exact result is in range and that a divisor is not zero. `+` and `-`
//! ensure the ranges of their operands.

ghost use Rattle.std.specs.Prelude.{◌≡◌, ◌≢◌, ◌+ℤ◌, ◌-ℤ◌, ◌*ℤ◌, pos, int_div};
ghost use Rattle.arbitrary_base.specs.Range.{InRange};

use crate::unsigned::UInt;
use arbitrary_base::storage::UnsignedStorage;
use arbitrary_base::wrapping;
use std::ops::{Add, AddAssign, Div, DivAssign, Mul, MulAssign, Sub, SubAssign};

impl<T: UnsignedStorage, const BITS: usize> Add<UInt<T, BITS>> for UInt<T, BITS> {
    type Output = UInt<T, BITS>;

    ghost can_add = { λ a b. let sum = a +ℤ b in
        InRange T.SIGNED BITS a → InRange T.SIGNED BITS b → InRange T.SIGNED BITS sum };

    ghost add_gives = { λ a b r. (r ≡ a +ℤ b)
        × InRange T.SIGNED BITS a × InRange T.SIGNED BITS b };

    fn add(self, rhs: UInt<T, BITS>) -> UInt<T, BITS> {
        UInt::new(wrapping::add(self.value(), rhs.value(), BITS))
    }
}

impl<T: UnsignedStorage, const BITS: usize> AddAssign<UInt<T, BITS>> for UInt<T, BITS> {
    ghost can_add_assign = { λ a b. let sum = a +ℤ b in
        InRange T.SIGNED BITS a → InRange T.SIGNED BITS b → InRange T.SIGNED BITS sum };

    ghost add_assign_gives = { λ a b r. (r ≡ a +ℤ b)
        × InRange T.SIGNED BITS a × InRange T.SIGNED BITS b };

    fn add_assign(&mut self, rhs: UInt<T, BITS>) {
        *self = *self + rhs;
    }
}

impl<T: UnsignedStorage, const BITS: usize> Sub<UInt<T, BITS>> for UInt<T, BITS> {
    type Output = UInt<T, BITS>;

    ghost can_sub = { λ a b. let difference = a -ℤ b in
        InRange T.SIGNED BITS a → InRange T.SIGNED BITS b → InRange T.SIGNED BITS difference };

    ghost sub_gives = { λ a b r. (r ≡ a -ℤ b)
        × InRange T.SIGNED BITS a × InRange T.SIGNED BITS b };

    fn sub(self, rhs: UInt<T, BITS>) -> UInt<T, BITS> {
        UInt::new(wrapping::sub(self.value(), rhs.value(), BITS))
    }
}

impl<T: UnsignedStorage, const BITS: usize> SubAssign<UInt<T, BITS>> for UInt<T, BITS> {
    ghost can_sub_assign = { λ a b. let difference = a -ℤ b in
        InRange T.SIGNED BITS a → InRange T.SIGNED BITS b → InRange T.SIGNED BITS difference };

    ghost sub_assign_gives = { λ a b r. (r ≡ a -ℤ b)
        × InRange T.SIGNED BITS a × InRange T.SIGNED BITS b };

    fn sub_assign(&mut self, rhs: UInt<T, BITS>) {
        *self = *self - rhs;
    }
}

impl<T: UnsignedStorage, const BITS: usize> Mul<UInt<T, BITS>> for UInt<T, BITS> {
    type Output = UInt<T, BITS>;

    ghost can_mul = { λ a b. let product = a *ℤ b in
        InRange T.SIGNED BITS a → InRange T.SIGNED BITS b → InRange T.SIGNED BITS product };

    ghost mul_gives = { λ a b r. r ≡ a *ℤ b };

    fn mul(self, rhs: UInt<T, BITS>) -> UInt<T, BITS> {
        UInt::new(wrapping::mul(self.value(), rhs.value(), BITS))
    }
}

impl<T: UnsignedStorage, const BITS: usize> MulAssign<UInt<T, BITS>> for UInt<T, BITS> {
    ghost can_mul_assign = { λ a b. let product = a *ℤ b in
        InRange T.SIGNED BITS a → InRange T.SIGNED BITS b → InRange T.SIGNED BITS product };

    ghost mul_assign_gives = { λ a b r. r ≡ a *ℤ b };

    fn mul_assign(&mut self, rhs: UInt<T, BITS>) {
        *self = *self * rhs;
    }
}

impl<T: UnsignedStorage, const BITS: usize> Div<UInt<T, BITS>> for UInt<T, BITS> {
    type Output = UInt<T, BITS>;

    ghost can_div = { λ a b. let quotient = int_div a b in (b ≢ pos 0)
        × (InRange T.SIGNED BITS a → InRange T.SIGNED BITS b → InRange T.SIGNED BITS quotient) };

    ghost div_gives = { λ a b r. r ≡ int_div a b };

    fn div(self, rhs: UInt<T, BITS>) -> UInt<T, BITS>
        requires { let quotient = int_div self rhs in let in_range = InRange T.SIGNED BITS in
            (rhs ≢ pos 0) × (in_range self → in_range rhs → in_range quotient) }
        ensures value { result ≡ int_div self rhs }
        ensures itself { self ≡ rhs → result ≡ pos 1 }
    {
        UInt::new(wrapping::div(self.value(), rhs.value(), BITS))
    }
}

impl<T: UnsignedStorage, const BITS: usize> DivAssign<UInt<T, BITS>> for UInt<T, BITS> {
    ghost can_div_assign = { λ a b. let quotient = int_div a b in (b ≢ pos 0)
        × (InRange T.SIGNED BITS a → InRange T.SIGNED BITS b → InRange T.SIGNED BITS quotient) };

    ghost div_assign_gives = { λ a b r. r ≡ int_div a b };

    fn div_assign(&mut self, rhs: UInt<T, BITS>) {
        *self = *self / rhs;
    }
}
