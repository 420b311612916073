//! The impls of `Numbered` and `Integer` for the primitive integers, by their calls as storages. Every width is
//! valid, and every value is in range.

ghost use Rattle.std.specs.Prelude.{◌≡◌, ◌≢◌, ◌+ℤ◌, ◌-ℤ◌, ◌*ℤ◌, ⊤, pos, Some, int_div, map, not};
ghost use Rattle.std.specs.Ordering.{int_cmp, int_eq};
ghost use Rattle.std.specs.Fmt.{signed_decimal};
ghost use Rattle.arbitrary_base.specs.Range.{InRange};
ghost use Rattle.arbitrary_base.specs.BitList.{bits, bits_and, bits_or, bits_xor, val};
ghost use Rattle.arbitrary_base.specs.Assigned.{IsAssigned};

use crate::integer::Integer;
use crate::numbered::Numbered;
use arbitrary_base::ends::{highest, lowest, zero};
use arbitrary_base::error::TryNewError;
use arbitrary_base::storage::{BuiltinInteger, UnsignedOf};
use arbitrary_base::truncation::{cast, from_low_bits, to_u128_bits};
use std::fmt::{Binary, Debug, Display, HasDigits, LowerHex, Octal, UpperHex};
use std::ops::{
    Add, AddAssign, BitAnd, BitAndAssign, BitOr, BitOrAssign, BitXor, BitXorAssign, Div, DivAssign,
    Mul, MulAssign, Not, Sub, SubAssign,
};

pub mod bits128;
pub mod bits16;
pub mod bits32;
pub mod bits64;
pub mod bits8;

/// A primitive integer whose operators meet the laws of `Integer` at its own width.
pub trait Primitive: BuiltinInteger
    + Ord
    + Display
    + Debug
    + LowerHex
    + UpperHex
    + Octal
    + Binary
    + HasDigits
    + Add<Self, Output = Self>
    + Sub<Self, Output = Self>
    + Mul<Self, Output = Self>
    + Div<Self, Output = Self>
    + BitAnd<Self, Output = Self>
    + BitOr<Self, Output = Self>
    + BitXor<Self, Output = Self>
    + Not<Output = Self>
    + AddAssign<Self>
    + SubAssign<Self>
    + MulAssign<Self>
    + DivAssign<Self>
    + BitAndAssign<Self>
    + BitOrAssign<Self>
    + BitXorAssign<Self> {
    ghost clone_law: { (a b : Self) → Self.is_clone a b → b ≡ a };

    ghost infallible_law: { (a : Self) → Self.is_infallible a };

    ghost eq_law: { (a b : Self) → Self.eq a b ≡ int_eq (Self.number a) (Self.number b) };

    ghost cmp_law: { (a b : Self) → Self.cmp a b ≡ int_cmp (Self.number a) (Self.number b) };

    ghost output_law: { (a : Self) → let text = signed_decimal (Self.number a) in
        Self.output a ≡ Some text };

    ghost debug_output_law: { (a : Self) → let text = signed_decimal (Self.number a) in
        Self.debug_output a ≡ Some text };

    // In a law a value of a primitive is any number, hence the premises on the range.
    ghost can_add_law: { (a b : Self) → let sum = Self.number a +ℤ Self.number b in
        InRange Self.SIGNED Self.WIDTH sum → Self.can_add a b };

    ghost add_law: { (a b r : Self) → let sum = Self.number a +ℤ Self.number b in
        Self.add_gives a b r → InRange Self.SIGNED Self.WIDTH sum
        → Self.number r ≡ sum };

    ghost can_sub_law: { (a b : Self) → let difference = Self.number a -ℤ Self.number b in
        InRange Self.SIGNED Self.WIDTH difference → Self.can_sub a b };

    ghost sub_law: { (a b r : Self) → let difference = Self.number a -ℤ Self.number b in
        Self.sub_gives a b r → InRange Self.SIGNED Self.WIDTH difference
        → Self.number r ≡ difference };

    ghost can_mul_law: { (a b : Self) → let product = Self.number a *ℤ Self.number b in
        InRange Self.SIGNED Self.WIDTH product → Self.can_mul a b };

    ghost mul_law: { (a b r : Self) → let product = Self.number a *ℤ Self.number b in
        Self.mul_gives a b r → InRange Self.SIGNED Self.WIDTH product
        → Self.number r ≡ product };

    ghost can_div_law: { (a b : Self) → let quotient = int_div (Self.number a) (Self.number b) in
        InRange Self.SIGNED Self.WIDTH (Self.number b) → Self.number b ≢ pos 0
        → InRange Self.SIGNED Self.WIDTH quotient → Self.can_div a b };

    ghost div_law: { (a b r : Self) → let quotient = int_div (Self.number a) (Self.number b) in
        Self.div_gives a b r → Self.number r ≡ quotient };

    ghost can_bitand_law: { (a b : Self) → Self.can_bitand a b };

    ghost bitand_law: { (a b r : Self) → let number = Self.number in let list = bits Self.WIDTH in
        Self.bitand_gives a b r
        → InRange Self.SIGNED Self.WIDTH (number a) → InRange Self.SIGNED Self.WIDTH (number b)
        → number r ≡ val Self.SIGNED (bits_and (list (number a)) (list (number b))) };

    ghost can_bitor_law: { (a b : Self) → Self.can_bitor a b };

    ghost bitor_law: { (a b r : Self) → let number = Self.number in let list = bits Self.WIDTH in
        Self.bitor_gives a b r
        → InRange Self.SIGNED Self.WIDTH (number a) → InRange Self.SIGNED Self.WIDTH (number b)
        → number r ≡ val Self.SIGNED (bits_or (list (number a)) (list (number b))) };

    ghost can_bitxor_law: { (a b : Self) → Self.can_bitxor a b };

    ghost bitxor_law: { (a b r : Self) → let number = Self.number in let list = bits Self.WIDTH in
        Self.bitxor_gives a b r
        → InRange Self.SIGNED Self.WIDTH (number a) → InRange Self.SIGNED Self.WIDTH (number b)
        → number r ≡ val Self.SIGNED (bits_xor (list (number a)) (list (number b))) };

    ghost can_not_law: { (a : Self) → Self.can_not a };

    ghost not_law: { (a r : Self) → let number = Self.number in let list = bits Self.WIDTH in
        Self.not_gives a r → InRange Self.SIGNED Self.WIDTH (number a)
        → number r ≡ val Self.SIGNED (map not (list (number a))) };

    // Each assigning form has the condition and the result of its operator.
    ghost assign_law: { let agree = IsAssigned in
        agree Self.can_add Self.can_add_assign Self.add_gives Self.add_assign_gives
        × agree Self.can_sub Self.can_sub_assign Self.sub_gives Self.sub_assign_gives
        × agree Self.can_mul Self.can_mul_assign Self.mul_gives Self.mul_assign_gives
        × agree Self.can_div Self.can_div_assign Self.div_gives Self.div_assign_gives
        × agree Self.can_bitand Self.can_bitand_assign Self.bitand_gives Self.bitand_assign_gives
        × agree Self.can_bitor Self.can_bitor_assign Self.bitor_gives Self.bitor_assign_gives
        × agree Self.can_bitxor Self.can_bitxor_assign Self.bitxor_gives Self.bitxor_assign_gives };
}

impl<T: Primitive> Numbered for T {
    const BITS: usize = T::WIDTH;

    const IS_SIGNED: bool = T::SIGNED;

    ghost BITS = { T.WIDTH };

    ghost IS_SIGNED = { T.SIGNED };

    ghost valid = { ⊤ };

    ghost number = { T.number };

    #[tactic(auto, using(crate::proofs::Conversion::patterns))]
    fn to_u128_bits(self) -> u128 {
        let _pattern = self.pattern();
        to_u128_bits(self)
    }

    fn from_u128_bits(pattern: u128) -> T {
        from_low_bits(pattern, T::WIDTH)
    }

    ghost width_law = { λ h. T.width_law };
}

impl<T: Primitive> Integer for T
where
    T::Unsigned: UnsignedOf<T>,
{
    type UnderlyingType = T;

    type UnsignedInteger = T::Unsigned;

    type SignedInteger = T::Signed;

    ghost underlying = { T.number };

    ghost unsigned_number = { T.Unsigned.number };

    fn min_value() -> T {
        lowest(T::WIDTH)
    }

    fn max_value() -> T {
        highest(T::WIDTH)
    }

    fn zero() -> T {
        zero()
    }

    fn new(value: T) -> T {
        value
    }

    // `pattern` ensures that the number is in range.
    fn try_new(value: T) -> Result<T, TryNewError> {
        let _pattern = value.pattern();
        Ok(value)
    }

    fn value(self) -> T {
        let _pattern = self.pattern();
        self
    }

    fn to_unsigned(self) -> T::Unsigned {
        let _pattern = self.pattern();
        cast(self, T::WIDTH)
    }

    fn from_unsigned(value: T::Unsigned) -> T {
        cast(value, T::WIDTH)
    }

    ghost clone_law = { T.clone_law };

    ghost infallible_law = { T.infallible_law };

    ghost eq_law = { T.eq_law };

    ghost cmp_law = { T.cmp_law };

    ghost output_law = { T.output_law };

    ghost debug_output_law = { T.debug_output_law };

    ghost can_add_law = { T.can_add_law };

    ghost add_law = { T.add_law };

    ghost can_sub_law = { T.can_sub_law };

    ghost sub_law = { T.sub_law };

    ghost can_mul_law = { T.can_mul_law };

    ghost mul_law = { T.mul_law };

    ghost can_div_law = { T.can_div_law };

    ghost div_law = { T.div_law };

    ghost can_bitand_law = { T.can_bitand_law };

    ghost bitand_law = { T.bitand_law };

    ghost can_bitor_law = { T.can_bitor_law };

    ghost bitor_law = { T.bitor_law };

    ghost can_bitxor_law = { T.can_bitxor_law };

    ghost bitxor_law = { T.bitxor_law };

    ghost can_not_law = { T.can_not_law };

    ghost not_law = { T.not_law };

    ghost assign_law = { T.assign_law };
}
