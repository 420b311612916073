//! Counts of the bits of integers of fixed width.

ghost use Rattle.std.specs.Prelude.{◌≡◌, ◌≢◌, ◌↔◌, ◌≤◌, ◌<◌, ◌+◌, ◌-◌, ◌%◌, ◌^◌, ◌≤ℤ◌, ◌<ℤ◌, ◌-ℤ◌, ℤ, pos, neg_ℤ, unsigned_abs, count_ones, false, true};
ghost use Rattle.std.specs.Bool.{beq};
ghost use Rattle.std.specs.Int.Count.{count_leading_zeros, count_trailing_zeros};
ghost use Rattle.std.specs.List.{count_by, suffix_len, prefix_len};
ghost use Rattle.arbitrary_base.specs.Residue.{Congruent};
ghost use Rattle.arbitrary_base.specs.BitList.{bits};

use crate::low_bits::LowBits;
use crate::stored::Stored;
use arbitrary_base::patterns;
use arbitrary_base::truncation::masked;

/// Counts of ones and zeros: all, and those at an end.
///
/// In the contracts `bits` are the bits of a value's number, the lowest first.
pub trait CountCalls: Stored + LowBits {
    /// How many of the bits are one.
    final fn count_ones(self) -> u32
        ensures value { result ≡ count_by (λ b. b) (bits Self.BITS (Self.number self)) }
        ensures plain { let number = Self.number self in
            Self.IS_SIGNED ≡ false → result ≡ count_ones (unsigned_abs number) }
        ensures bound { result ≤ Self.BITS }
        ensures most { result ≤ 128 }
        ensures none { Self.number self ≡ pos 0 → result ≡ 0 }
        ensures some { Self.number self ≢ pos 0 → 1 ≤ result }
        ensures highest { Self.number self ≡ pos (2 ^ Self.BITS) -ℤ pos 1 → result ≡ Self.BITS }
        ensures minus_one { Self.number self ≡ neg_ℤ (pos 1) → result ≡ Self.BITS }
        ensures found { let number = Self.number self in
            number ≢ pos (2 ^ Self.BITS) -ℤ pos 1 → number ≢ neg_ℤ (pos 1) → result < Self.BITS }
    {
        patterns::count_ones(self.low_bits(), Self::BITS)
    }

    /// How many of the bits are zero.
    final fn count_zeros(self) -> u32
        ensures value { result ≡ Self.BITS - count_by (λ b. b) (bits Self.BITS (Self.number self)) }
        ensures plain { let number = Self.number self in
            Self.IS_SIGNED ≡ false → result + count_ones (unsigned_abs number) ≡ Self.BITS }
        ensures bound { result ≤ Self.BITS }
        ensures most { result ≤ 128 }
        ensures none { Self.number self ≡ pos 0 → result ≡ Self.BITS }
        ensures found { Self.number self ≢ pos 0 → result < Self.BITS }
        ensures highest { Self.number self ≡ pos (2 ^ Self.BITS) -ℤ pos 1 → result ≡ 0 }
        ensures minus_one { Self.number self ≡ neg_ℤ (pos 1) → result ≡ 0 }
        ensures some { let number = Self.number self in
            number ≢ pos (2 ^ Self.BITS) -ℤ pos 1 → number ≢ neg_ℤ (pos 1) → 1 ≤ result }
    {
        let pattern = self.low_bits();
        Self::BITS as u32 - patterns::count_ones(pattern, Self::BITS)
    }

    /// How many bits at the high end are one before the first that is zero, or all of them.
    // The mask changes nothing. It shows the compiler the width, so that the code counts in fewer than 128 bits.
    final fn leading_ones(self) -> u32
        ensures value { result ≡ suffix_len (beq true) (bits Self.BITS (Self.number self)) }
        ensures bound { result ≤ Self.BITS }
        ensures most { result ≤ 128 }
        ensures highest { Self.number self ≡ pos (2 ^ Self.BITS) -ℤ pos 1 → result ≡ Self.BITS }
        ensures minus_one { Self.number self ≡ neg_ℤ (pos 1) → result ≡ Self.BITS }
        ensures found { let number = Self.number self in
            number ≢ pos (2 ^ Self.BITS) -ℤ pos 1 → number ≢ neg_ℤ (pos 1) → result < Self.BITS }
        ensures none { let number = Self.number self in
            pos 0 ≤ℤ number → number <ℤ pos (2 ^ (Self.BITS - 1)) → result ≡ 0 }
        ensures some { pos (2 ^ (Self.BITS - 1)) ≤ℤ Self.number self → 1 ≤ result }
        ensures negative { Self.number self <ℤ pos 0 → 1 ≤ result }
        ensures within { result ≤ count_by (λ b. b) (bits Self.BITS (Self.number self)) }
    {
        patterns::leading_ones(masked(self.low_bits(), Self::BITS), Self::BITS)
    }

    /// How many bits at the high end are zero before the first that is one, or all of them.
    // The mask changes nothing. It shows the compiler the width, so that the code counts in fewer than 128 bits.
    final fn leading_zeros(self) -> u32
        ensures value { result ≡ suffix_len (beq false) (bits Self.BITS (Self.number self)) }
        ensures bound { result ≤ Self.BITS }
        ensures most { result ≤ 128 }
        ensures none { Self.number self ≡ pos 0 → result ≡ Self.BITS }
        ensures found { Self.number self ≢ pos 0 → result < Self.BITS }
        ensures negative { Self.number self <ℤ pos 0 → result ≡ 0 }
        ensures low { let number = Self.number self in
            pos 0 <ℤ number → pos (2 ^ (Self.BITS - 1 - result)) ≤ℤ number }
        ensures high { let number = Self.number self in
            pos 0 ≤ℤ number → number <ℤ pos (2 ^ (Self.BITS - result)) }
        ensures highest_set { pos (2 ^ (Self.BITS - 1)) ≤ℤ Self.number self → result ≡ 0 }
        ensures highest_clear { let number = Self.number self in
            pos 0 ≤ℤ number → number <ℤ pos (2 ^ (Self.BITS - 1)) → 1 ≤ result }
        ensures beside { let list = bits Self.BITS (Self.number self) in
            result + count_by (λ b. b) list ≤ Self.BITS }
        ensures plain { let of_128 = count_leading_zeros 128 (unsigned_abs (Self.number self)) in
            Self.IS_SIGNED ≡ false → result + 128 ≡ of_128 + Self.BITS }
        ensures natural { let of_128 = count_leading_zeros 128 (unsigned_abs (Self.number self)) in
            Self.IS_SIGNED ≡ true → pos 0 ≤ℤ Self.number self → result + 128 ≡ of_128 + Self.BITS }
    {
        patterns::leading_zeros(masked(self.low_bits(), Self::BITS), Self::BITS)
    }

    /// How many bits at the low end are one before the first that is zero, or all of them.
    final fn trailing_ones(self) -> u32
        ensures value { result ≡ prefix_len (beq true) (bits Self.BITS (Self.number self)) }
        ensures bound { result ≤ Self.BITS }
        ensures most { result ≤ 128 }
        ensures highest { Self.number self ≡ pos (2 ^ Self.BITS) -ℤ pos 1 → result ≡ Self.BITS }
        ensures minus_one { Self.number self ≡ neg_ℤ (pos 1) → result ≡ Self.BITS }
        ensures found { let number = Self.number self in
            number ≢ pos (2 ^ Self.BITS) -ℤ pos 1 → number ≢ neg_ℤ (pos 1) → result < Self.BITS }
        ensures none { Congruent 1 (Self.number self) (pos 0) → result ≡ 0 }
        ensures some { Congruent 1 (Self.number self) (pos 1) → 1 ≤ result }
        ensures lowest { (result ≡ 0) ↔ (unsigned_abs (Self.number self) % 2 ≡ 0) }
        ensures within { result ≤ count_by (λ b. b) (bits Self.BITS (Self.number self)) }
    {
        patterns::trailing_ones(self.low_bits(), Self::BITS)
    }

    /// How many bits at the low end are zero before the first that is one, or all of them.
    final fn trailing_zeros(self) -> u32
        ensures value { result ≡ prefix_len (beq false) (bits Self.BITS (Self.number self)) }
        ensures bound { result ≤ Self.BITS }
        ensures most { result ≤ 128 }
        ensures none { Self.number self ≡ pos 0 → result ≡ Self.BITS }
        ensures found { Self.number self ≢ pos 0 → result < Self.BITS }
        ensures low { Congruent result (Self.number self) (pos 0) }
        ensures one { let number = Self.number self in
            number ≢ pos 0 → Congruent (result + 1) number (pos (2 ^ result)) }
        ensures odd { Congruent 1 (Self.number self) (pos 1) → result ≡ 0 }
        ensures even { Congruent 1 (Self.number self) (pos 0) → 1 ≤ result }
        ensures lowest { (result ≡ 0) ↔ (unsigned_abs (Self.number self) % 2 ≡ 1) }
        ensures beside { let list = bits Self.BITS (Self.number self) in
            result + count_by (λ b. b) list ≤ Self.BITS }
        ensures plain { result ≡ count_trailing_zeros Self.BITS (unsigned_abs (Self.number self)) }
    {
        patterns::trailing_zeros(self.low_bits(), Self::BITS)
    }
}

impl<N: Stored + LowBits> CountCalls for N {}
