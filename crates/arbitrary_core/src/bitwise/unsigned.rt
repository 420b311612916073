//! `& | ^ !` of `UInt`, bit by bit.

ghost use Rattle.std.specs.Prelude.{◌≡◌, ◌^◌, ◌≤ℤ◌, ◌-ℤ◌, ℤ, pos, unsigned_abs, map, not};
ghost use Rattle.std.specs.Int.Bits.{bit_and, bit_or, bit_xor};
ghost use Rattle.arbitrary_base.specs.Range.{InRange};
ghost use Rattle.arbitrary_base.specs.Operation.{bitwise_and, bitwise_not, bitwise_or, bitwise_xor};
ghost use Rattle.arbitrary_base.specs.BitList.{bits, val, bits_and, bits_or, bits_xor};

use crate::unsigned::UInt;
use arbitrary_base::bitwise;
use arbitrary_base::storage::UnsignedStorage;
use std::ops::{BitAnd, BitAndAssign, BitOr, BitOrAssign, BitXor, BitXorAssign, Not};

impl<T: UnsignedStorage, const BITS: usize> BitAnd<UInt<T, BITS>> for UInt<T, BITS> {
    type Output = UInt<T, BITS>;

    ghost bitand_gives = { λ a b r. (r ≡ val T.SIGNED (bits_and (bits BITS a) (bits BITS b)))
        × (val T.SIGNED (bits BITS a) ≡ a) × (val T.SIGNED (bits BITS b) ≡ b) };

    fn bitand(self, rhs: UInt<T, BITS>) -> UInt<T, BITS>
        ensures operation { result ≡ bitwise_and T.SIGNED BITS self rhs }
        ensures bits { result ≡ val T.SIGNED (bits_and (bits BITS self) (bits BITS rhs)) }
        ensures operands_from_bits { (val T.SIGNED (bits BITS self) ≡ self)
            × (val T.SIGNED (bits BITS rhs) ≡ rhs) }
        ensures plain { result ≡ pos (bit_and (unsigned_abs self) (unsigned_abs rhs)) }
        ensures at_most_self { result ≤ℤ self }
        ensures at_most_rhs { result ≤ℤ rhs }
    {
        UInt::new(bitwise::and(self.value(), rhs.value(), BITS))
    }
}

impl<T: UnsignedStorage, const BITS: usize> BitAndAssign<UInt<T, BITS>> for UInt<T, BITS> {
    ghost bitand_assign_gives = { λ a b r. (r ≡ val T.SIGNED (bits_and (bits BITS a) (bits BITS b)))
        × (val T.SIGNED (bits BITS a) ≡ a) × (val T.SIGNED (bits BITS b) ≡ b) };

    fn bitand_assign(&mut self, rhs: UInt<T, BITS>)
        ensures operation { self.new ≡ bitwise_and T.SIGNED BITS self.old rhs }
        ensures bits { self.new ≡ val T.SIGNED (bits_and (bits BITS self.old) (bits BITS rhs)) }
        ensures operands_from_bits { (val T.SIGNED (bits BITS self.old) ≡ self.old)
            × (val T.SIGNED (bits BITS rhs) ≡ rhs) }
        ensures plain { self.new ≡ pos (bit_and (unsigned_abs self.old) (unsigned_abs rhs)) }
        ensures at_most_self { self.new ≤ℤ self.old }
        ensures at_most_rhs { self.new ≤ℤ rhs }
        ensures result_in_range { InRange T.SIGNED BITS self.new }
        ensures self_in_range { InRange T.SIGNED BITS self.old }
    {
        *self = *self & rhs;
    }
}

impl<T: UnsignedStorage, const BITS: usize> BitOr<UInt<T, BITS>> for UInt<T, BITS> {
    type Output = UInt<T, BITS>;

    ghost bitor_gives = { λ a b r. (r ≡ val T.SIGNED (bits_or (bits BITS a) (bits BITS b)))
        × (val T.SIGNED (bits BITS a) ≡ a) × (val T.SIGNED (bits BITS b) ≡ b) };

    fn bitor(self, rhs: UInt<T, BITS>) -> UInt<T, BITS>
        ensures operation { result ≡ bitwise_or T.SIGNED BITS self rhs }
        ensures bits { result ≡ val T.SIGNED (bits_or (bits BITS self) (bits BITS rhs)) }
        ensures operands_from_bits { (val T.SIGNED (bits BITS self) ≡ self)
            × (val T.SIGNED (bits BITS rhs) ≡ rhs) }
        ensures plain { result ≡ pos (bit_or (unsigned_abs self) (unsigned_abs rhs)) }
        ensures at_least_self { self ≤ℤ result }
        ensures at_least_rhs { rhs ≤ℤ result }
    {
        UInt::new(bitwise::or(self.value(), rhs.value(), BITS))
    }
}

impl<T: UnsignedStorage, const BITS: usize> BitOrAssign<UInt<T, BITS>> for UInt<T, BITS> {
    ghost bitor_assign_gives = { λ a b r. (r ≡ val T.SIGNED (bits_or (bits BITS a) (bits BITS b)))
        × (val T.SIGNED (bits BITS a) ≡ a) × (val T.SIGNED (bits BITS b) ≡ b) };

    fn bitor_assign(&mut self, rhs: UInt<T, BITS>)
        ensures operation { self.new ≡ bitwise_or T.SIGNED BITS self.old rhs }
        ensures bits { self.new ≡ val T.SIGNED (bits_or (bits BITS self.old) (bits BITS rhs)) }
        ensures operands_from_bits { (val T.SIGNED (bits BITS self.old) ≡ self.old)
            × (val T.SIGNED (bits BITS rhs) ≡ rhs) }
        ensures plain { self.new ≡ pos (bit_or (unsigned_abs self.old) (unsigned_abs rhs)) }
        ensures at_least_self { self.old ≤ℤ self.new }
        ensures at_least_rhs { rhs ≤ℤ self.new }
        ensures result_in_range { InRange T.SIGNED BITS self.new }
        ensures self_in_range { InRange T.SIGNED BITS self.old }
    {
        *self = *self | rhs;
    }
}

impl<T: UnsignedStorage, const BITS: usize> BitXor<UInt<T, BITS>> for UInt<T, BITS> {
    type Output = UInt<T, BITS>;

    ghost bitxor_gives = { λ a b r. (r ≡ val T.SIGNED (bits_xor (bits BITS a) (bits BITS b)))
        × (val T.SIGNED (bits BITS a) ≡ a) × (val T.SIGNED (bits BITS b) ≡ b) };

    fn bitxor(self, rhs: UInt<T, BITS>) -> UInt<T, BITS>
        ensures operation { result ≡ bitwise_xor T.SIGNED BITS self rhs }
        ensures bits { result ≡ val T.SIGNED (bits_xor (bits BITS self) (bits BITS rhs)) }
        ensures operands_from_bits { (val T.SIGNED (bits BITS self) ≡ self)
            × (val T.SIGNED (bits BITS rhs) ≡ rhs) }
        ensures plain { result ≡ pos (bit_xor (unsigned_abs self) (unsigned_abs rhs)) }
        ensures same { self ≡ rhs → result ≡ pos 0 }
        ensures undo { bitwise_xor T.SIGNED BITS result rhs ≡ self }
    {
        UInt::new(bitwise::xor(self.value(), rhs.value(), BITS))
    }
}

impl<T: UnsignedStorage, const BITS: usize> BitXorAssign<UInt<T, BITS>> for UInt<T, BITS> {
    ghost bitxor_assign_gives = { λ a b r. (r ≡ val T.SIGNED (bits_xor (bits BITS a) (bits BITS b)))
        × (val T.SIGNED (bits BITS a) ≡ a) × (val T.SIGNED (bits BITS b) ≡ b) };

    fn bitxor_assign(&mut self, rhs: UInt<T, BITS>)
        ensures operation { self.new ≡ bitwise_xor T.SIGNED BITS self.old rhs }
        ensures bits { self.new ≡ val T.SIGNED (bits_xor (bits BITS self.old) (bits BITS rhs)) }
        ensures operands_from_bits { (val T.SIGNED (bits BITS self.old) ≡ self.old)
            × (val T.SIGNED (bits BITS rhs) ≡ rhs) }
        ensures plain { self.new ≡ pos (bit_xor (unsigned_abs self.old) (unsigned_abs rhs)) }
        ensures same { self.old ≡ rhs → self.new ≡ pos 0 }
        ensures undo { bitwise_xor T.SIGNED BITS self.new rhs ≡ self.old }
        ensures result_in_range { InRange T.SIGNED BITS self.new }
        ensures self_in_range { InRange T.SIGNED BITS self.old }
    {
        *self = *self ^ rhs;
    }
}

impl<T: UnsignedStorage, const BITS: usize> Not for UInt<T, BITS> {
    type Output = UInt<T, BITS>;

    ghost not_gives = { λ a r. let list = bits BITS a in
        (r ≡ val T.SIGNED (map not list)) × (val T.SIGNED list ≡ a) };

    fn not(self) -> UInt<T, BITS>
        ensures operation { result ≡ bitwise_not T.SIGNED BITS self }
        ensures bits { result ≡ val T.SIGNED (map not (bits BITS self)) }
        ensures self_from_bits { val T.SIGNED (bits BITS self) ≡ self }
        ensures number { result ≡ pos (2 ^ BITS) -ℤ pos 1 -ℤ self }
    {
        UInt::new(bitwise::not(self.value(), BITS))
    }
}
