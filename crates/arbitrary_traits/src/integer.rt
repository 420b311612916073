//! The traits `Integer`, `UnsignedInteger` and `SignedInteger`, with the contract of each call. `primitives` has
//! the bodies for the primitives, and `arbitrary_core` those for `UInt` and `Int`. A call with one body for all
//! types belongs to a trait with fewer parents, in `numbered` or in `arbitrary_calls`.

ghost use Rattle.std.specs.Prelude.{◌≡◌, ◌≢◌, ◌<◌, ◌^◌, ◌+ℤ◌, ◌-ℤ◌, ◌*ℤ◌, ℤ, true, false, pos, neg_ℤ, Some, MatchResult, int_div, map, not};
ghost use Rattle.std.specs.Ordering.{int_cmp, int_eq};
ghost use Rattle.std.specs.Fmt.{signed_decimal};
ghost use Rattle.arbitrary_base.specs.Range.{lo, hi, InRange};
ghost use Rattle.arbitrary_base.specs.Residue.{wrap, Congruent};
ghost use Rattle.arbitrary_base.specs.BitList.{bits, bits_and, bits_or, bits_xor, val};
ghost use Rattle.arbitrary_base.specs.Assigned.{IsAssigned};

use crate::numbered::Numbered;
use arbitrary_base::error::TryNewError;
use std::fmt::{Binary, Debug, Display, HasDigits, LowerHex, Octal, UpperHex};
use std::ops::{
    Add, AddAssign, BitAnd, BitAndAssign, BitOr, BitOrAssign, BitXor, BitXorAssign, Div, DivAssign,
    Mul, MulAssign, Neg, Not, Sub, SubAssign,
};

/// An integer type of `BITS` bits, with the operators on its numbers.
///
/// Equality, order and text are those of the number. `+ - * /` and their assigning forms return the
/// exact result. They require that it is in range, and that a divisor is not 0. `& | ^ !` and their
/// assigning forms work on the `BITS` bits of two's complement.
pub trait Integer: Numbered
    + Clone
    + PartialOrd
    + Ord
    + PartialEq
    + Eq
    + Display
    + Debug
    + LowerHex
    + UpperHex
    + Octal
    + Binary
    + HasDigits
    + Add<Self, Output = Self>
    + Sub<Self, Output = Self>
    + Mul<Self, Output = Self>
    + Div<Self, Output = Self>
    + BitAnd<Self, Output = Self>
    + BitOr<Self, Output = Self>
    + BitXor<Self, Output = Self>
    + Not<Output = Self>
    + AddAssign<Self>
    + SubAssign<Self>
    + MulAssign<Self>
    + DivAssign<Self>
    + BitAndAssign<Self>
    + BitOrAssign<Self>
    + BitXorAssign<Self> {
    /// The storage of the number. A primitive is its own storage.
    type UnderlyingType;

    /// The unsigned type of the same width, over the unsigned storage of the same width.
    type UnsignedInteger;

    /// The signed type of the same width, over the signed storage of the same width.
    type SignedInteger;

    // The numbers of the storage and of the unsigned counterpart.
    ghost underlying: { Self.UnderlyingType → ℤ };

    ghost unsigned_number: { Self.UnsignedInteger → ℤ };

    /// The least number. Requires a valid width.
    fn min_value() -> Self
        requires { Self.valid }
        ensures { Self.number result ≡ lo Self.IS_SIGNED Self.BITS };

    /// The greatest number. Requires a valid width.
    fn max_value() -> Self
        requires { Self.valid }
        ensures { Self.number result ≡ hi Self.IS_SIGNED Self.BITS };

    /// The number 0. Requires a valid width.
    fn zero() -> Self
        requires { Self.valid }
        ensures { Self.number result ≡ pos 0 };

    /// The value with this number, which must be in range: `try_new` tests it. Requires a valid
    /// width.
    fn new(value: Self::UnderlyingType) -> Self
        requires width { Self.valid }
        requires value_in_range { InRange Self.IS_SIGNED Self.BITS (underlying value) }
        ensures { Self.number result ≡ underlying value };

    /// The value with this number, or an error exactly if it is out of range. Requires a valid
    /// width.
    fn try_new(value: Self::UnderlyingType) -> Result<Self, TryNewError>
        requires { Self.valid }
        ensures { let given = underlying value in MatchResult result
            (λ x. InRange Self.IS_SIGNED Self.BITS given × (Self.number x ≡ given))
            (λ _. ¬ (InRange Self.IS_SIGNED Self.BITS given)) };

    /// The number, in the storage.
    fn value(self) -> Self::UnderlyingType
        ensures value { underlying result ≡ Self.number self }
        ensures self_in_range { InRange Self.IS_SIGNED Self.BITS (Self.number self) }
        ensures width { Self.valid };

    /// The unsigned number with the same bits.
    fn to_unsigned(self) -> Self::UnsignedInteger
        ensures value { unsigned_number result ≡ wrap false Self.BITS (Self.number self) }
        ensures congruent { Congruent Self.BITS (unsigned_number result) (Self.number self) }
        ensures self_in_range { InRange Self.IS_SIGNED Self.BITS (Self.number self) };

    /// The number with the same bits as the unsigned `value`.
    fn from_unsigned(value: Self::UnsignedInteger) -> Self
        ensures value { Self.number result ≡ wrap Self.IS_SIGNED Self.BITS (unsigned_number value) }
        ensures congruent { Congruent Self.BITS (Self.number result) (unsigned_number value) }
        ensures undo { (y : ℤ) → let pattern = wrap false Self.BITS y in
            InRange Self.IS_SIGNED Self.BITS y → unsigned_number value ≡ pattern
            → Self.number result ≡ y };

    // A clone is the same value, and cloning never fails.
    ghost clone_law: { (a b : Self) → Self.is_clone a b → b ≡ a };

    ghost infallible_law: { (a : Self) → Self.is_infallible a };

    ghost eq_law: { (a b : Self) → Self.eq a b ≡ int_eq (Self.number a) (Self.number b) };

    ghost cmp_law: { (a b : Self) → Self.cmp a b ≡ int_cmp (Self.number a) (Self.number b) };

    ghost output_law: { (a : Self) → let text = signed_decimal (Self.number a) in
        Self.output a ≡ Some text };

    ghost debug_output_law: { (a : Self) → let text = signed_decimal (Self.number a) in
        Self.debug_output a ≡ Some text };

    // In a law a value of a primitive is any number, hence the premises on the range.
    ghost can_add_law: { (a b : Self) → let sum = Self.number a +ℤ Self.number b in
        InRange Self.IS_SIGNED Self.BITS sum → Self.can_add a b };

    ghost add_law: { (a b r : Self) → let sum = Self.number a +ℤ Self.number b in
        Self.add_gives a b r → InRange Self.IS_SIGNED Self.BITS sum
        → Self.number r ≡ sum };

    ghost can_sub_law: { (a b : Self) → let difference = Self.number a -ℤ Self.number b in
        InRange Self.IS_SIGNED Self.BITS difference → Self.can_sub a b };

    ghost sub_law: { (a b r : Self) → let difference = Self.number a -ℤ Self.number b in
        Self.sub_gives a b r → InRange Self.IS_SIGNED Self.BITS difference
        → Self.number r ≡ difference };

    ghost can_mul_law: { (a b : Self) → let product = Self.number a *ℤ Self.number b in
        InRange Self.IS_SIGNED Self.BITS product → Self.can_mul a b };

    ghost mul_law: { (a b r : Self) → let product = Self.number a *ℤ Self.number b in
        Self.mul_gives a b r → InRange Self.IS_SIGNED Self.BITS product
        → Self.number r ≡ product };

    ghost can_div_law: { (a b : Self) → let quotient = int_div (Self.number a) (Self.number b) in
        InRange Self.IS_SIGNED Self.BITS (Self.number b) → Self.number b ≢ pos 0
        → InRange Self.IS_SIGNED Self.BITS quotient → Self.can_div a b };

    ghost div_law: { (a b r : Self) → let quotient = int_div (Self.number a) (Self.number b) in
        Self.div_gives a b r → Self.number r ≡ quotient };

    ghost can_bitand_law: { (a b : Self) → Self.can_bitand a b };

    ghost bitand_law: { (a b r : Self) → let number = Self.number in let list = bits Self.BITS in
        Self.bitand_gives a b r
        → InRange Self.IS_SIGNED Self.BITS (number a) → InRange Self.IS_SIGNED Self.BITS (number b)
        → number r ≡ val Self.IS_SIGNED (bits_and (list (number a)) (list (number b))) };

    ghost can_bitor_law: { (a b : Self) → Self.can_bitor a b };

    ghost bitor_law: { (a b r : Self) → let number = Self.number in let list = bits Self.BITS in
        Self.bitor_gives a b r
        → InRange Self.IS_SIGNED Self.BITS (number a) → InRange Self.IS_SIGNED Self.BITS (number b)
        → number r ≡ val Self.IS_SIGNED (bits_or (list (number a)) (list (number b))) };

    ghost can_bitxor_law: { (a b : Self) → Self.can_bitxor a b };

    ghost bitxor_law: { (a b r : Self) → let number = Self.number in let list = bits Self.BITS in
        Self.bitxor_gives a b r
        → InRange Self.IS_SIGNED Self.BITS (number a) → InRange Self.IS_SIGNED Self.BITS (number b)
        → number r ≡ val Self.IS_SIGNED (bits_xor (list (number a)) (list (number b))) };

    ghost can_not_law: { (a : Self) → Self.can_not a };

    ghost not_law: { (a r : Self) → let number = Self.number in let list = bits Self.BITS in
        Self.not_gives a r → InRange Self.IS_SIGNED Self.BITS (number a)
        → number r ≡ val Self.IS_SIGNED (map not (list (number a))) };

    // Each assigning form has the condition and the result of its operator.
    ghost assign_law: { let agree = IsAssigned in
        agree Self.can_add Self.can_add_assign Self.add_gives Self.add_assign_gives
        × agree Self.can_sub Self.can_sub_assign Self.sub_gives Self.sub_assign_gives
        × agree Self.can_mul Self.can_mul_assign Self.mul_gives Self.mul_assign_gives
        × agree Self.can_div Self.can_div_assign Self.div_gives Self.div_assign_gives
        × agree Self.can_bitand Self.can_bitand_assign Self.bitand_gives Self.bitand_assign_gives
        × agree Self.can_bitor Self.can_bitor_assign Self.bitor_gives Self.bitor_assign_gives
        × agree Self.can_bitxor Self.can_bitxor_assign Self.bitxor_gives Self.bitxor_assign_gives };
}

/// An unsigned integer type.
pub trait UnsignedInteger: Integer {
    ghost unsigned_law: { Self.IS_SIGNED ≡ false };

    // The number 1 is in range.
    ghost one_law: { Self.valid → 1 < 2 ^ Self.BITS };
}

/// A signed integer type. Unary minus requires that the exact result is in range: the number is not
/// the least one.
pub trait SignedInteger: Integer + Neg<Output = Self> {
    ghost signed_law: { Self.IS_SIGNED ≡ true };

    ghost can_neg_law: { (a : Self) → let negated = neg_ℤ (Self.number a) in
        InRange Self.IS_SIGNED Self.BITS negated → Self.can_neg a };

    ghost neg_law: { (a r : Self) → Self.neg_gives a r → Self.number r ≡ neg_ℤ (Self.number a) };
}
