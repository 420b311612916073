//! Products, quotients and powers of integers of fixed width.

ghost use Rattle.std.specs.Prelude.{length, not, ◌≡◌, ◌≢◌, ◌↔◌, ◌≤◌, ◌*◌, ◌<ℤ◌, ◌*ℤ◌, ℤ, pos, neg_ℤ, IsTrue, int_div, Some, SomeIff, option_map};
ghost use Rattle.std.specs.Int.{int_pow};
ghost use Rattle.std.specs.Int.Digits.{digits_of};
ghost use Rattle.std.proofs.Math.IntN.{*ℤ_comm};
ghost use Rattle.arbitrary_base.specs.Range.{InRange, in_range, lo, hi};
ghost use Rattle.arbitrary_base.specs.Residue.{Congruent, wrap};
ghost use Rattle.arbitrary_base.specs.Saturating.{clamp};
ghost use Rattle.arbitrary_base.specs.Operation.{wrapped_product};

use crate::stored::Stored;
use arbitrary_base::{checked, overflowing, power, saturating, wrapping};

/// Products, quotients and powers. Out of range they wrap, saturate, are refused, or set a flag.
///
/// In the contracts `number` is the number of a value, and the exact result is that of whole numbers
/// without bounds. `wrap` of it is the type's number that is congruent to it modulo `2 ^ BITS`, and
/// `clamp` of it the type's number that is nearest. A quotient is rounded toward zero; the only one that
/// is out of range is the least signed number divided by -1. Each contract begins with the exact clause.
/// The range of what a call takes and `width` come last and say nothing of the result: the search for a proof
/// uses them.
pub trait ProductCalls: Stored {
    // A law, because the search does not swap the operands by itself.
    ghost product_commutes: { (a b : Self) → let number = Self.number in
        number a *ℤ number b ≡ number b *ℤ number a } = { λ a b. *ℤ_comm (Self.number a) (Self.number b) };

    /// The product, wrapped.
    final fn wrapping_mul(self, rhs: Self) -> Self
        ensures operation { let number = Self.number in
            number result ≡ wrapped_product Self.IS_SIGNED Self.BITS (number self) (number rhs) }
        ensures value { let product = Self.number self *ℤ Self.number rhs in
            Self.number result ≡ wrap Self.IS_SIGNED Self.BITS product }
        ensures exact { let product = Self.number self *ℤ Self.number rhs in
            InRange Self.IS_SIGNED Self.BITS product → Self.number result ≡ product }
        ensures congruent { let product = Self.number self *ℤ Self.number rhs in
            Congruent Self.BITS (Self.number result) product }
        ensures self_in_range { InRange Self.IS_SIGNED Self.BITS (Self.number self) }
        ensures rhs_in_range { InRange Self.IS_SIGNED Self.BITS (Self.number rhs) }
        ensures width { Self.valid }
    {
        Self::from_storage(wrapping::mul(self.to_storage(), rhs.to_storage(), Self::BITS))
    }

    /// The product, or the end of the range that is nearest to it.
    final fn saturating_mul(self, rhs: Self) -> Self
        ensures value { let product = Self.number self *ℤ Self.number rhs in
            Self.number result ≡ clamp Self.IS_SIGNED Self.BITS product }
        ensures exact { let product = Self.number self *ℤ Self.number rhs in
            InRange Self.IS_SIGNED Self.BITS product → Self.number result ≡ product }
        ensures above { let product = Self.number self *ℤ Self.number rhs in
            let highest = hi Self.IS_SIGNED Self.BITS in
            highest <ℤ product → Self.number result ≡ highest }
        ensures below { let product = Self.number self *ℤ Self.number rhs in
            let lowest = lo Self.IS_SIGNED Self.BITS in
            product <ℤ lowest → Self.number result ≡ lowest }
        ensures result_in_range { InRange Self.IS_SIGNED Self.BITS (Self.number result) }
        ensures self_in_range { InRange Self.IS_SIGNED Self.BITS (Self.number self) }
        ensures rhs_in_range { InRange Self.IS_SIGNED Self.BITS (Self.number rhs) }
        ensures width { Self.valid }
    {
        Self::from_storage(saturating::mul(self.to_storage(), rhs.to_storage(), Self::BITS))
    }

    /// The product, and `None` exactly where it is out of range.
    final fn checked_mul(self, rhs: Self) -> Option<Self>
        ensures exact { let product = Self.number self *ℤ Self.number rhs in
            let fits = InRange Self.IS_SIGNED Self.BITS product in
            SomeIff (option_map Self.number result) fits product }
        ensures self_in_range { InRange Self.IS_SIGNED Self.BITS (Self.number self) }
        ensures rhs_in_range { InRange Self.IS_SIGNED Self.BITS (Self.number rhs) }
        ensures width { Self.valid }
    {
        match checked::mul(self.to_storage(), rhs.to_storage(), Self::BITS) {
            Some(product) => Some(Self::from_storage(product)),
            None => None,
        }
    }

    /// The product, wrapped, and whether the exact one is out of range.
    final fn overflowing_mul(self, rhs: Self) -> (Self, bool)
        ensures operation { let number = Self.number in
            number result.0 ≡ wrapped_product Self.IS_SIGNED Self.BITS (number self) (number rhs) }
        ensures value { let product = Self.number self *ℤ Self.number rhs in
            Self.number result.0 ≡ wrap Self.IS_SIGNED Self.BITS product }
        ensures overflow { let product = Self.number self *ℤ Self.number rhs in
            IsTrue result.1 ↔ ¬ (InRange Self.IS_SIGNED Self.BITS product) }
        ensures flag { let product = Self.number self *ℤ Self.number rhs in
            result.1 ≡ not (in_range Self.IS_SIGNED Self.BITS product) }
        ensures exact { let product = Self.number self *ℤ Self.number rhs in
            InRange Self.IS_SIGNED Self.BITS product → Self.number result.0 ≡ product }
        ensures congruent { let product = Self.number self *ℤ Self.number rhs in
            Congruent Self.BITS (Self.number result.0) product }
        ensures self_in_range { InRange Self.IS_SIGNED Self.BITS (Self.number self) }
        ensures rhs_in_range { InRange Self.IS_SIGNED Self.BITS (Self.number rhs) }
        ensures width { Self.valid }
    {
        let (product, overflow) = overflowing::mul(self.to_storage(), rhs.to_storage(), Self::BITS);
        (Self::from_storage(product), overflow)
    }

    /// The quotient, wrapped. The divisor is not zero.
    final fn wrapping_div(self, rhs: Self) -> Self
        requires { Self.number rhs ≢ pos 0 }
        ensures value { let quotient = int_div (Self.number self) (Self.number rhs) in
            Self.number result ≡ wrap Self.IS_SIGNED Self.BITS quotient }
        ensures exact { let quotient = int_div (Self.number self) (Self.number rhs) in
            InRange Self.IS_SIGNED Self.BITS quotient → Self.number result ≡ quotient }
        ensures of_least { let number = Self.number in
            number self ≡ lo Self.IS_SIGNED Self.BITS → number rhs ≡ neg_ℤ (pos 1)
            → number result ≡ number self }
        ensures itself { let number = Self.number in
            InRange Self.IS_SIGNED Self.BITS (pos 1) → number self ≡ number rhs
            → number result ≡ pos 1 }
        ensures self_in_range { InRange Self.IS_SIGNED Self.BITS (Self.number self) }
        ensures rhs_in_range { InRange Self.IS_SIGNED Self.BITS (Self.number rhs) }
        ensures width { Self.valid }
    {
        Self::from_storage(wrapping::div(self.to_storage(), rhs.to_storage(), Self::BITS))
    }

    /// The quotient, or the end of the range that is nearest to it. The divisor is not zero.
    final fn saturating_div(self, rhs: Self) -> Self
        requires { Self.number rhs ≢ pos 0 }
        ensures value { let quotient = int_div (Self.number self) (Self.number rhs) in
            Self.number result ≡ clamp Self.IS_SIGNED Self.BITS quotient }
        ensures exact { let quotient = int_div (Self.number self) (Self.number rhs) in
            InRange Self.IS_SIGNED Self.BITS quotient → Self.number result ≡ quotient }
        ensures above { let quotient = int_div (Self.number self) (Self.number rhs) in
            let highest = hi Self.IS_SIGNED Self.BITS in
            highest <ℤ quotient → Self.number result ≡ highest }
        ensures below { let quotient = int_div (Self.number self) (Self.number rhs) in
            let lowest = lo Self.IS_SIGNED Self.BITS in
            quotient <ℤ lowest → Self.number result ≡ lowest }
        ensures result_in_range { InRange Self.IS_SIGNED Self.BITS (Self.number result) }
        ensures itself { let number = Self.number in
            InRange Self.IS_SIGNED Self.BITS (pos 1) → number self ≡ number rhs
            → number result ≡ pos 1 }
        ensures self_in_range { InRange Self.IS_SIGNED Self.BITS (Self.number self) }
        ensures rhs_in_range { InRange Self.IS_SIGNED Self.BITS (Self.number rhs) }
        ensures width { Self.valid }
    {
        Self::from_storage(saturating::div(self.to_storage(), rhs.to_storage(), Self::BITS))
    }

    /// The quotient, and `None` exactly where the divisor is zero or the quotient is out of range.
    final fn checked_div(self, rhs: Self) -> Option<Self>
        ensures exact { let quotient = int_div (Self.number self) (Self.number rhs) in
            let fits = InRange Self.IS_SIGNED Self.BITS quotient in
            SomeIff (option_map Self.number result) ((Self.number rhs ≢ pos 0) × fits) quotient }
        ensures itself { let quotient = int_div (Self.number self) (Self.number rhs) in
            Self.number rhs ≢ pos 0 → Self.number self ≡ Self.number rhs → quotient ≡ pos 1 }
        ensures self_in_range { InRange Self.IS_SIGNED Self.BITS (Self.number self) }
        ensures rhs_in_range { InRange Self.IS_SIGNED Self.BITS (Self.number rhs) }
        ensures width { Self.valid }
    {
        match checked::div(self.to_storage(), rhs.to_storage(), Self::BITS) {
            Some(quotient) => Some(Self::from_storage(quotient)),
            None => None,
        }
    }

    /// The quotient, wrapped, and whether the exact one is out of range. The divisor is not zero.
    final fn overflowing_div(self, rhs: Self) -> (Self, bool)
        requires { Self.number rhs ≢ pos 0 }
        ensures value { let quotient = int_div (Self.number self) (Self.number rhs) in
            Self.number result.0 ≡ wrap Self.IS_SIGNED Self.BITS quotient }
        ensures overflow { let quotient = int_div (Self.number self) (Self.number rhs) in
            IsTrue result.1 ↔ ¬ (InRange Self.IS_SIGNED Self.BITS quotient) }
        ensures flag { let quotient = int_div (Self.number self) (Self.number rhs) in
            result.1 ≡ not (in_range Self.IS_SIGNED Self.BITS quotient) }
        ensures exact { let quotient = int_div (Self.number self) (Self.number rhs) in
            InRange Self.IS_SIGNED Self.BITS quotient → Self.number result.0 ≡ quotient }
        ensures of_least { let number = Self.number in
            number self ≡ lo Self.IS_SIGNED Self.BITS → number rhs ≡ neg_ℤ (pos 1)
            → number result.0 ≡ number self }
        ensures itself { let number = Self.number in
            InRange Self.IS_SIGNED Self.BITS (pos 1) → number self ≡ number rhs
            → number result.0 ≡ pos 1 }
        ensures self_in_range { InRange Self.IS_SIGNED Self.BITS (Self.number self) }
        ensures rhs_in_range { InRange Self.IS_SIGNED Self.BITS (Self.number rhs) }
        ensures width { Self.valid }
    {
        let (quotient, overflow) = overflowing::div(
            self.to_storage(),
            rhs.to_storage(),
            Self::BITS,
        );
        (Self::from_storage(quotient), overflow)
    }

    /// `self` to the power `exp`, or the end of the range that is nearest to it. 0 to the power 0 is 1.
    final fn saturating_pow(self, exp: u32) -> Self
        ensures value { let power = int_pow (Self.number self) exp in
            Self.number result ≡ clamp Self.IS_SIGNED Self.BITS power }
        ensures exact { let power = int_pow (Self.number self) exp in
            InRange Self.IS_SIGNED Self.BITS power → Self.number result ≡ power }
        ensures above { let power = int_pow (Self.number self) exp in
            let highest = hi Self.IS_SIGNED Self.BITS in
            highest <ℤ power → Self.number result ≡ highest }
        ensures below { let power = int_pow (Self.number self) exp in
            let lowest = lo Self.IS_SIGNED Self.BITS in
            power <ℤ lowest → Self.number result ≡ lowest }
        ensures result_in_range { InRange Self.IS_SIGNED Self.BITS (Self.number result) }
        ensures first { exp ≡ 1 → Self.number result ≡ Self.number self }
        ensures of_one { Self.number self ≡ pos 1 → Self.number result ≡ pos 1 }
        ensures of_zero { Self.number self ≡ pos 0 → 1 ≤ exp → Self.number result ≡ pos 0 }
        ensures self_in_range { InRange Self.IS_SIGNED Self.BITS (Self.number self) }
        ensures width { Self.valid }
    {
        Self::from_storage(power::saturating_pow(self.to_storage(), exp, Self::BITS))
    }

    /// The same value, and how many multiplications in the storage it took: at most two for each binary
    /// digit of `exp`, so at most 64.
    final fn saturating_pow_counted(self, exp: u32) -> (Self, u32)
        ensures value { let power = int_pow (Self.number self) exp in
            Self.number result.0 ≡ clamp Self.IS_SIGNED Self.BITS power }
        ensures count { result.1 ≤ 2 * length (digits_of 2 exp) }
        ensures bound { result.1 ≤ 64 }
        ensures exact { let power = int_pow (Self.number self) exp in
            InRange Self.IS_SIGNED Self.BITS power → Self.number result.0 ≡ power }
        ensures above { let power = int_pow (Self.number self) exp in
            let highest = hi Self.IS_SIGNED Self.BITS in
            highest <ℤ power → Self.number result.0 ≡ highest }
        ensures below { let power = int_pow (Self.number self) exp in
            let lowest = lo Self.IS_SIGNED Self.BITS in
            power <ℤ lowest → Self.number result.0 ≡ lowest }
        ensures result_in_range { InRange Self.IS_SIGNED Self.BITS (Self.number result.0) }
        ensures first { exp ≡ 1 → Self.number result.0 ≡ Self.number self }
        ensures of_one { Self.number self ≡ pos 1 → Self.number result.0 ≡ pos 1 }
        ensures of_zero { Self.number self ≡ pos 0 → 1 ≤ exp → Self.number result.0 ≡ pos 0 }
        ensures self_in_range { InRange Self.IS_SIGNED Self.BITS (Self.number self) }
        ensures width { Self.valid }
    {
        let (power, count) = power::saturating_pow_counted(self.to_storage(), exp, Self::BITS);
        (Self::from_storage(power), count)
    }
}

impl<N: Stored> ProductCalls for N {}
