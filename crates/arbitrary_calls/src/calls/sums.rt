//! Sums and differences of integers of fixed width.

ghost use Rattle.std.specs.Prelude.{not, ◌≡◌, ◌↔◌, ◌<ℤ◌, ◌+ℤ◌, ◌-ℤ◌, ℤ, pos, IsTrue, Some, SomeIff, option_map};
ghost use Rattle.std.proofs.Math.IntN.{+ℤ_comm};
ghost use Rattle.arbitrary_base.specs.Range.{InRange, in_range, lo, hi};
ghost use Rattle.arbitrary_base.specs.Residue.{Congruent, wrap};
ghost use Rattle.arbitrary_base.specs.Saturating.{clamp};
ghost use Rattle.arbitrary_base.specs.Operation.{wrapped_difference, wrapped_sum};

use crate::stored::Stored;
use arbitrary_base::{checked, overflowing, saturating, wrapping};

/// Sums and differences. Out of range they wrap, saturate, are refused, or set a flag.
///
/// In the contracts `number` is the number of a value, and the exact result is that of whole numbers
/// without bounds. `wrap` of it is the type's number that is congruent to it modulo `2 ^ BITS`, and
/// `clamp` of it the type's number that is nearest. Each contract begins with the exact clause. The range of
/// what a call takes and `width` come last and say nothing of the result: the search for a proof uses them.
pub trait SumCalls: Stored {
    // A law, because the search does not swap the operands by itself.
    ghost sum_commutes: { (a b : Self) → let number = Self.number in
        number a +ℤ number b ≡ number b +ℤ number a } = { λ a b. +ℤ_comm (Self.number a) (Self.number b) };

    /// The sum, wrapped.
    final fn wrapping_add(self, rhs: Self) -> Self
        ensures operation { let number = Self.number in
            number result ≡ wrapped_sum Self.IS_SIGNED Self.BITS (number self) (number rhs) }
        ensures value { let sum = Self.number self +ℤ Self.number rhs in
            Self.number result ≡ wrap Self.IS_SIGNED Self.BITS sum }
        ensures exact { let sum = Self.number self +ℤ Self.number rhs in
            InRange Self.IS_SIGNED Self.BITS sum → Self.number result ≡ sum }
        ensures congruent { let sum = Self.number self +ℤ Self.number rhs in
            Congruent Self.BITS (Self.number result) sum }
        ensures undo { let number = Self.number in
            wrapped_difference Self.IS_SIGNED Self.BITS (number result) (number rhs) ≡ number self }
        ensures self_in_range { InRange Self.IS_SIGNED Self.BITS (Self.number self) }
        ensures rhs_in_range { InRange Self.IS_SIGNED Self.BITS (Self.number rhs) }
        ensures width { Self.valid }
    {
        Self::from_storage(wrapping::add(self.to_storage(), rhs.to_storage(), Self::BITS))
    }

    /// The sum, or the end of the range that is nearest to it.
    final fn saturating_add(self, rhs: Self) -> Self
        ensures value { let sum = Self.number self +ℤ Self.number rhs in
            Self.number result ≡ clamp Self.IS_SIGNED Self.BITS sum }
        ensures exact { let sum = Self.number self +ℤ Self.number rhs in
            InRange Self.IS_SIGNED Self.BITS sum → Self.number result ≡ sum }
        ensures above { let sum = Self.number self +ℤ Self.number rhs in
            let highest = hi Self.IS_SIGNED Self.BITS in
            highest <ℤ sum → Self.number result ≡ highest }
        ensures below { let sum = Self.number self +ℤ Self.number rhs in
            let lowest = lo Self.IS_SIGNED Self.BITS in
            sum <ℤ lowest → Self.number result ≡ lowest }
        ensures result_in_range { InRange Self.IS_SIGNED Self.BITS (Self.number result) }
        ensures self_in_range { InRange Self.IS_SIGNED Self.BITS (Self.number self) }
        ensures rhs_in_range { InRange Self.IS_SIGNED Self.BITS (Self.number rhs) }
        ensures width { Self.valid }
    {
        Self::from_storage(saturating::add(self.to_storage(), rhs.to_storage(), Self::BITS))
    }

    /// The sum, and `None` exactly where it is out of range.
    final fn checked_add(self, rhs: Self) -> Option<Self>
        ensures exact { let sum = Self.number self +ℤ Self.number rhs in
            let fits = InRange Self.IS_SIGNED Self.BITS sum in
            SomeIff (option_map Self.number result) fits sum }
        ensures zero { let number = Self.number in
            number rhs ≡ pos 0 → option_map number result ≡ Some (number self) }
        ensures self_in_range { InRange Self.IS_SIGNED Self.BITS (Self.number self) }
        ensures rhs_in_range { InRange Self.IS_SIGNED Self.BITS (Self.number rhs) }
        ensures width { Self.valid }
    {
        match checked::add(self.to_storage(), rhs.to_storage(), Self::BITS) {
            Some(sum) => Some(Self::from_storage(sum)),
            None => None,
        }
    }

    /// The sum, wrapped, and whether the exact one is out of range.
    final fn overflowing_add(self, rhs: Self) -> (Self, bool)
        ensures operation { let number = Self.number in
            number result.0 ≡ wrapped_sum Self.IS_SIGNED Self.BITS (number self) (number rhs) }
        ensures value { let sum = Self.number self +ℤ Self.number rhs in
            Self.number result.0 ≡ wrap Self.IS_SIGNED Self.BITS sum }
        ensures overflow { let sum = Self.number self +ℤ Self.number rhs in
            IsTrue result.1 ↔ ¬ (InRange Self.IS_SIGNED Self.BITS sum) }
        ensures flag { let sum = Self.number self +ℤ Self.number rhs in
            result.1 ≡ not (in_range Self.IS_SIGNED Self.BITS sum) }
        ensures exact { let sum = Self.number self +ℤ Self.number rhs in
            InRange Self.IS_SIGNED Self.BITS sum → Self.number result.0 ≡ sum }
        ensures congruent { let sum = Self.number self +ℤ Self.number rhs in
            Congruent Self.BITS (Self.number result.0) sum }
        ensures self_in_range { InRange Self.IS_SIGNED Self.BITS (Self.number self) }
        ensures rhs_in_range { InRange Self.IS_SIGNED Self.BITS (Self.number rhs) }
        ensures width { Self.valid }
    {
        let (sum, overflow) = overflowing::add(self.to_storage(), rhs.to_storage(), Self::BITS);
        (Self::from_storage(sum), overflow)
    }

    /// The difference, wrapped.
    final fn wrapping_sub(self, rhs: Self) -> Self
        ensures operation { let number = Self.number in
            number result ≡ wrapped_difference Self.IS_SIGNED Self.BITS (number self) (number rhs) }
        ensures value { let difference = Self.number self -ℤ Self.number rhs in
            Self.number result ≡ wrap Self.IS_SIGNED Self.BITS difference }
        ensures exact { let difference = Self.number self -ℤ Self.number rhs in
            InRange Self.IS_SIGNED Self.BITS difference → Self.number result ≡ difference }
        ensures congruent { let difference = Self.number self -ℤ Self.number rhs in
            Congruent Self.BITS (Self.number result) difference }
        ensures undo { let number = Self.number in
            wrapped_sum Self.IS_SIGNED Self.BITS (number result) (number rhs) ≡ number self }
        ensures self_in_range { InRange Self.IS_SIGNED Self.BITS (Self.number self) }
        ensures rhs_in_range { InRange Self.IS_SIGNED Self.BITS (Self.number rhs) }
        ensures width { Self.valid }
    {
        Self::from_storage(wrapping::sub(self.to_storage(), rhs.to_storage(), Self::BITS))
    }

    /// The difference, or the end of the range that is nearest to it.
    final fn saturating_sub(self, rhs: Self) -> Self
        ensures value { let difference = Self.number self -ℤ Self.number rhs in
            Self.number result ≡ clamp Self.IS_SIGNED Self.BITS difference }
        ensures exact { let difference = Self.number self -ℤ Self.number rhs in
            InRange Self.IS_SIGNED Self.BITS difference → Self.number result ≡ difference }
        ensures above { let difference = Self.number self -ℤ Self.number rhs in
            let highest = hi Self.IS_SIGNED Self.BITS in
            highest <ℤ difference → Self.number result ≡ highest }
        ensures below { let difference = Self.number self -ℤ Self.number rhs in
            let lowest = lo Self.IS_SIGNED Self.BITS in
            difference <ℤ lowest → Self.number result ≡ lowest }
        ensures result_in_range { InRange Self.IS_SIGNED Self.BITS (Self.number result) }
        ensures self_in_range { InRange Self.IS_SIGNED Self.BITS (Self.number self) }
        ensures rhs_in_range { InRange Self.IS_SIGNED Self.BITS (Self.number rhs) }
        ensures width { Self.valid }
    {
        Self::from_storage(saturating::sub(self.to_storage(), rhs.to_storage(), Self::BITS))
    }

    /// The difference, and `None` exactly where it is out of range.
    final fn checked_sub(self, rhs: Self) -> Option<Self>
        ensures exact { let difference = Self.number self -ℤ Self.number rhs in
            let fits = InRange Self.IS_SIGNED Self.BITS difference in
            SomeIff (option_map Self.number result) fits difference }
        ensures zero { let number = Self.number in
            number rhs ≡ pos 0 → option_map number result ≡ Some (number self) }
        ensures self_in_range { InRange Self.IS_SIGNED Self.BITS (Self.number self) }
        ensures rhs_in_range { InRange Self.IS_SIGNED Self.BITS (Self.number rhs) }
        ensures width { Self.valid }
    {
        match checked::sub(self.to_storage(), rhs.to_storage(), Self::BITS) {
            Some(difference) => Some(Self::from_storage(difference)),
            None => None,
        }
    }

    /// The difference, wrapped, and whether the exact one is out of range.
    final fn overflowing_sub(self, rhs: Self) -> (Self, bool)
        ensures operation { let number = Self.number in
            let wrapped = wrapped_difference Self.IS_SIGNED Self.BITS in
            number result.0 ≡ wrapped (number self) (number rhs) }
        ensures value { let difference = Self.number self -ℤ Self.number rhs in
            Self.number result.0 ≡ wrap Self.IS_SIGNED Self.BITS difference }
        ensures overflow { let difference = Self.number self -ℤ Self.number rhs in
            IsTrue result.1 ↔ ¬ (InRange Self.IS_SIGNED Self.BITS difference) }
        ensures flag { let difference = Self.number self -ℤ Self.number rhs in
            result.1 ≡ not (in_range Self.IS_SIGNED Self.BITS difference) }
        ensures exact { let difference = Self.number self -ℤ Self.number rhs in
            InRange Self.IS_SIGNED Self.BITS difference → Self.number result.0 ≡ difference }
        ensures congruent { let difference = Self.number self -ℤ Self.number rhs in
            Congruent Self.BITS (Self.number result.0) difference }
        ensures self_in_range { InRange Self.IS_SIGNED Self.BITS (Self.number self) }
        ensures rhs_in_range { InRange Self.IS_SIGNED Self.BITS (Self.number rhs) }
        ensures width { Self.valid }
    {
        let (difference, overflow) = overflowing::sub(
            self.to_storage(),
            rhs.to_storage(),
            Self::BITS,
        );
        (Self::from_storage(difference), overflow)
    }
}

impl<N: Stored> SumCalls for N {}
