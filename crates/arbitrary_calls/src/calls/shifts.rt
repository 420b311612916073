//! Shifts, rotations and reversal of the bits of integers of fixed width.

ghost use Rattle.std.specs.Prelude.{◌≡◌, ◌↔◌, ◌≤◌, ◌<◌, ◌-◌, ◌*◌, ◌%◌, ◌^◌, ◌≤ℤ◌, ◌<ℤ◌, ◌+ℤ◌, ◌*ℤ◌, ◌++◌, ℤ, pos, unsigned_abs, IsTrue, IsNone, IfSome, false, int_div, reverse, drop, take, Some};
ghost use Rattle.std.specs.List.{slice_rotate_right};
ghost use Rattle.arbitrary_base.specs.Range.{InRange};
ghost use Rattle.arbitrary_base.specs.Residue.{Congruent};
ghost use Rattle.arbitrary_base.specs.Operation.{reversed, rotated_left, rotated_right, shifted_left, shifted_right};
ghost use Rattle.arbitrary_base.specs.BitList.{bits, val, fill, shl, shr};

use crate::low_bits::LowBits;
use crate::stored::Stored;
use arbitrary_base::{patterns, shifts};

/// Shifts, rotations and reversal.
///
/// In the contracts `number` is the number of a value, and `bits` its bits, the lowest first. A shift or a
/// rotation is one of these; `plain`, `congruent`, `quotient`, `low` and `high` say it of the number.
pub trait ShiftCalls: Stored + LowBits {
    /// The bits moved `amount` modulo `BITS` places toward the high end: zeros come in below, and what passes the end is lost.
    final fn wrapping_shl(self, amount: u32) -> Self
        ensures operation { let number = Self.number in let places = amount % Self.BITS in
            number result ≡ shifted_left Self.IS_SIGNED Self.BITS (number self) places }
        ensures value { let places = amount % Self.BITS in
            (y : ℤ) → Self.number self ≡ y → let list = bits Self.BITS y in
            Self.number result ≡ val Self.IS_SIGNED (shl list places) }
        ensures plain { let places = amount % Self.BITS in
            let product = unsigned_abs (Self.number self) * 2 ^ places in
            Self.IS_SIGNED ≡ false → Self.number result ≡ pos (product % 2 ^ Self.BITS) }
        ensures exact { let places = amount % Self.BITS in
            let product = Self.number self *ℤ pos (2 ^ places) in
            InRange Self.IS_SIGNED Self.BITS product → Self.number result ≡ product }
        ensures congruent { let places = amount % Self.BITS in
            let product = Self.number self *ℤ pos (2 ^ places) in
            (y : ℤ) → y ≡ product → Congruent Self.BITS (Self.number result) y }
        ensures none { amount % Self.BITS ≡ 0 → Self.number result ≡ Self.number self }
        ensures self_in_range { InRange Self.IS_SIGNED Self.BITS (Self.number self) }
        ensures width { Self.valid }
    {
        let storage = self.to_storage();
        Self::from_storage(shifts::shl(storage, shifts::places(amount, Self::BITS), Self::BITS))
    }

    /// The bits moved `amount` places like `wrapping_shl`, and `None` exactly where `amount` is `BITS`
    /// or more.
    final fn checked_shl(self, amount: u32) -> Option<Self>
        ensures refused { IsNone result ↔ (Self.BITS ≤ amount) }
        ensures operation { let number = Self.number in IfSome result
            (λ r. number r ≡ shifted_left Self.IS_SIGNED Self.BITS (number self) amount) }
        ensures value { let list = bits Self.BITS (Self.number self) in IfSome result
            (λ r. Self.number r ≡ val Self.IS_SIGNED (shl list amount)) }
        ensures plain { let product = unsigned_abs (Self.number self) * 2 ^ amount in
            Self.IS_SIGNED ≡ false
            → IfSome result (λ r. Self.number r ≡ pos (product % 2 ^ Self.BITS)) }
        ensures congruent { let product = Self.number self *ℤ pos (2 ^ amount) in
            IfSome result (λ r. Congruent Self.BITS (Self.number r) product) }
        ensures none { amount ≡ 0 → IfSome result (λ r. Self.number r ≡ Self.number self) }
        ensures self_in_range { InRange Self.IS_SIGNED Self.BITS (Self.number self) }
        ensures width { Self.valid }
    {
        let storage = self.to_storage();
        if (amount as usize) < Self::BITS {
            Some(Self::from_storage(shifts::shl(storage, amount as usize, Self::BITS)))
        } else {
            None
        }
    }

    /// `wrapping_shl`, and whether `amount` is `BITS` or more.
    final fn overflowing_shl(self, amount: u32) -> (Self, bool)
        ensures operation { let number = Self.number in let places = amount % Self.BITS in
            number result.0 ≡ shifted_left Self.IS_SIGNED Self.BITS (number self) places }
        ensures value { let places = amount % Self.BITS in
            let list = bits Self.BITS (Self.number self) in
            Self.number result.0 ≡ val Self.IS_SIGNED (shl list places) }
        ensures overflow { IsTrue result.1 ↔ (Self.BITS ≤ amount) }
        ensures plain { let places = amount % Self.BITS in
            let product = unsigned_abs (Self.number self) * 2 ^ places in
            Self.IS_SIGNED ≡ false → Self.number result.0 ≡ pos (product % 2 ^ Self.BITS) }
        ensures congruent { let places = amount % Self.BITS in
            let product = Self.number self *ℤ pos (2 ^ places) in
            Congruent Self.BITS (Self.number result.0) product }
        ensures none { amount % Self.BITS ≡ 0 → Self.number result.0 ≡ Self.number self }
        ensures self_in_range { InRange Self.IS_SIGNED Self.BITS (Self.number self) }
        ensures width { Self.valid }
    {
        (self.wrapping_shl(amount), amount as usize >= Self::BITS)
    }

    /// The bits moved `amount` modulo `BITS` places toward the low end: copies of the sign come in above, or zeros where the type has none.
    final fn wrapping_shr(self, amount: u32) -> Self
        ensures operation { let number = Self.number in let places = amount % Self.BITS in
            number result ≡ shifted_right Self.IS_SIGNED Self.BITS (number self) places }
        ensures value { let places = amount % Self.BITS in
            (y : ℤ) → Self.number self ≡ y → let list = bits Self.BITS y in
            Self.number result ≡ val Self.IS_SIGNED (shr list places (fill Self.IS_SIGNED list)) }
        ensures quotient { let places = amount % Self.BITS in
            let quotient = int_div (Self.number self) (pos (2 ^ places)) in
            Self.IS_SIGNED ≡ false → Self.number result ≡ quotient }
        ensures low { (Self.number result *ℤ pos (2 ^ (amount % Self.BITS))) ≤ℤ Self.number self }
        ensures high { let places = amount % Self.BITS in let power = pos (2 ^ places) in
            (y : ℤ) → Self.number self ≡ y → y <ℤ (Self.number result *ℤ power +ℤ power) }
        ensures result_in_range { let places = amount % Self.BITS in
            InRange Self.IS_SIGNED (Self.BITS - places) (Self.number result) }
        ensures none { amount % Self.BITS ≡ 0 → Self.number result ≡ Self.number self }
        ensures self_in_range { InRange Self.IS_SIGNED Self.BITS (Self.number self) }
        ensures width { Self.valid }
    {
        let storage = self.to_storage();
        Self::from_storage(shifts::shr(storage, shifts::places(amount, Self::BITS), Self::BITS))
    }

    /// The bits moved `amount` places like `wrapping_shr`, and `None` exactly where `amount` is `BITS`
    /// or more.
    final fn checked_shr(self, amount: u32) -> Option<Self>
        ensures refused { IsNone result ↔ (Self.BITS ≤ amount) }
        ensures operation { let number = Self.number in IfSome result
            (λ r. number r ≡ shifted_right Self.IS_SIGNED Self.BITS (number self) amount) }
        ensures value { let list = bits Self.BITS (Self.number self) in IfSome result
            (λ r. Self.number r ≡ val Self.IS_SIGNED (shr list amount (fill Self.IS_SIGNED list))) }
        ensures quotient { let quotient = int_div (Self.number self) (pos (2 ^ amount)) in
            Self.IS_SIGNED ≡ false → IfSome result (λ r. Self.number r ≡ quotient) }
        ensures low { IfSome result (λ r. (Self.number r *ℤ pos (2 ^ amount)) ≤ℤ Self.number self) }
        ensures high { let power = pos (2 ^ amount) in
            IfSome result (λ r. Self.number self <ℤ (Self.number r *ℤ power +ℤ power)) }
        ensures result_in_range { let number = Self.number in
            IfSome result (λ r. InRange Self.IS_SIGNED (Self.BITS - amount) (number r)) }
        ensures none { amount ≡ 0 → IfSome result (λ r. Self.number r ≡ Self.number self) }
        ensures self_in_range { InRange Self.IS_SIGNED Self.BITS (Self.number self) }
        ensures width { Self.valid }
    {
        let storage = self.to_storage();
        if (amount as usize) < Self::BITS {
            Some(Self::from_storage(shifts::shr(storage, amount as usize, Self::BITS)))
        } else {
            None
        }
    }

    /// `wrapping_shr`, and whether `amount` is `BITS` or more.
    final fn overflowing_shr(self, amount: u32) -> (Self, bool)
        ensures operation { let number = Self.number in let places = amount % Self.BITS in
            number result.0 ≡ shifted_right Self.IS_SIGNED Self.BITS (number self) places }
        ensures value { let places = amount % Self.BITS in
            let list = bits Self.BITS (Self.number self) in
            Self.number result.0 ≡ val Self.IS_SIGNED (shr list places (fill Self.IS_SIGNED list)) }
        ensures overflow { IsTrue result.1 ↔ (Self.BITS ≤ amount) }
        ensures quotient { let places = amount % Self.BITS in
            let quotient = int_div (Self.number self) (pos (2 ^ places)) in
            Self.IS_SIGNED ≡ false → Self.number result.0 ≡ quotient }
        ensures low { (Self.number result.0 *ℤ pos (2 ^ (amount % Self.BITS))) ≤ℤ Self.number self }
        ensures high { let places = amount % Self.BITS in let power = pos (2 ^ places) in
            Self.number self <ℤ (Self.number result.0 *ℤ power +ℤ power) }
        ensures result_in_range { let places = amount % Self.BITS in
            InRange Self.IS_SIGNED (Self.BITS - places) (Self.number result.0) }
        ensures none { amount % Self.BITS ≡ 0 → Self.number result.0 ≡ Self.number self }
        ensures self_in_range { InRange Self.IS_SIGNED Self.BITS (Self.number self) }
        ensures width { Self.valid }
    {
        (self.wrapping_shr(amount), amount as usize >= Self::BITS)
    }

    /// The bits moved `amount` modulo `BITS` places toward the high end. What passes the end comes back
    /// below.
    final fn rotate_left(self, amount: u32) -> Self
        ensures operation { let number = Self.number in let places = amount % Self.BITS in
            number result ≡ rotated_left Self.IS_SIGNED Self.BITS (number self) places }
        ensures value { let places = amount % Self.BITS in
            (y : ℤ) → Self.number self ≡ y → let list = bits Self.BITS y in
            Self.number result ≡ val Self.IS_SIGNED (slice_rotate_right list places) }
        ensures undo { let number = Self.number in let places = amount % Self.BITS in
            rotated_right Self.IS_SIGNED Self.BITS (number result) places ≡ number self }
        ensures round { amount % Self.BITS ≡ 0 → Self.number result ≡ Self.number self }
        ensures self_in_range { InRange Self.IS_SIGNED Self.BITS (Self.number self) }
        ensures width { Self.valid }
    {
        Self::from_u128_bits(patterns::rotate_left(self.low_bits(), Self::BITS, amount))
    }

    /// The bits moved `amount` modulo `BITS` places toward the low end. What passes the end comes back
    /// above.
    final fn rotate_right(self, amount: u32) -> Self
        ensures operation { let number = Self.number in let places = amount % Self.BITS in
            number result ≡ rotated_right Self.IS_SIGNED Self.BITS (number self) places }
        ensures value { let places = amount % Self.BITS in
            (y : ℤ) → Self.number self ≡ y → let list = bits Self.BITS y in
            Self.number result ≡ val Self.IS_SIGNED (drop places list ++ take places list) }
        ensures undo { let number = Self.number in let places = amount % Self.BITS in
            rotated_left Self.IS_SIGNED Self.BITS (number result) places ≡ number self }
        ensures round { amount % Self.BITS ≡ 0 → Self.number result ≡ Self.number self }
        ensures self_in_range { InRange Self.IS_SIGNED Self.BITS (Self.number self) }
        ensures width { Self.valid }
    {
        Self::from_u128_bits(patterns::rotate_right(self.low_bits(), Self::BITS, amount))
    }

    /// The bits from the high end to the low one.
    final fn reverse_bits(self) -> Self
        ensures operation { let number = Self.number in
            number result ≡ reversed Self.IS_SIGNED Self.BITS (number self) }
        ensures value { (y : ℤ) → Self.number self ≡ y → let list = bits Self.BITS y in
            Self.number result ≡ val Self.IS_SIGNED (reverse list) }
        ensures undo { reversed Self.IS_SIGNED Self.BITS (Self.number result) ≡ Self.number self }
        ensures self_in_range { InRange Self.IS_SIGNED Self.BITS (Self.number self) }
        ensures width { Self.valid }
    {
        Self::from_u128_bits(patterns::reverse_bits(self.low_bits(), Self::BITS))
    }
}

impl<N: Stored + LowBits> ShiftCalls for N {}
