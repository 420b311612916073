//! `& | ^ !` of `Int`, bit by bit.

ghost use Rattle.std.specs.Prelude.{◌≡◌, ◌≤◌, ◌%◌, ◌-ℤ◌, ℕ, ℤ, pos, neg_ℤ, unsigned_abs, map, not};
ghost use Rattle.std.specs.Int.Bits.{bit_and, bit_or, bit_xor};
ghost use Rattle.arbitrary_base.specs.Range.{InRange};
ghost use Rattle.arbitrary_base.specs.Operation.{bitwise_and, bitwise_not, bitwise_or, bitwise_xor};
ghost use Rattle.arbitrary_base.specs.BitList.{bits, val, bits_and, bits_or, bits_xor};

use crate::signed::Int;
use arbitrary_base::bitwise;
use arbitrary_base::storage::{SignedStorage, UnsignedOf};
use std::ops::{BitAnd, BitAndAssign, BitOr, BitOrAssign, BitXor, BitXorAssign, Not};

impl<T: SignedStorage, const BITS: usize, U: UnsignedOf<T>> BitAnd<Int<T, BITS, U>>
    for Int<T, BITS, U> {
    type Output = Int<T, BITS, U>;

    ghost bitand_gives = { λ a b r. (r ≡ val T.SIGNED (bits_and (bits BITS a) (bits BITS b)))
        × (val T.SIGNED (bits BITS a) ≡ a) × (val T.SIGNED (bits BITS b) ≡ b) };

    fn bitand(self, rhs: Int<T, BITS, U>) -> Int<T, BITS, U>
        ensures operation { result ≡ bitwise_and T.SIGNED BITS self rhs }
        ensures bits { result ≡ val T.SIGNED (bits_and (bits BITS self) (bits BITS rhs)) }
        ensures operands_from_bits { (val T.SIGNED (bits BITS self) ≡ self)
            × (val T.SIGNED (bits BITS rhs) ≡ rhs) }
        ensures plain { (m n : ℕ) → self ≡ pos m → rhs ≡ pos n → result ≡ pos (bit_and m n) }
        ensures at_most_self { (k : ℕ) → self ≡ pos k → (n : ℕ) × ((result ≡ pos n) × (n ≤ k)) }
        ensures at_most_rhs { (k : ℕ) → rhs ≡ pos k → (n : ℕ) × ((result ≡ pos n) × (n ≤ k)) }
        ensures lowest { rhs ≡ pos 1 → result ≡ pos (unsigned_abs self % 2) }
    {
        Int::<T, BITS, U>::from_bits(bitwise::and(self.to_bits(), rhs.to_bits(), BITS))
    }
}

impl<T: SignedStorage, const BITS: usize, U: UnsignedOf<T>> BitAndAssign<Int<T, BITS, U>>
    for Int<T, BITS, U> {
    ghost bitand_assign_gives = { λ a b r. (r ≡ val T.SIGNED (bits_and (bits BITS a) (bits BITS b)))
        × (val T.SIGNED (bits BITS a) ≡ a) × (val T.SIGNED (bits BITS b) ≡ b) };

    fn bitand_assign(&mut self, rhs: Int<T, BITS, U>)
        ensures operation { self.new ≡ bitwise_and T.SIGNED BITS self.old rhs }
        ensures bits { self.new ≡ val T.SIGNED (bits_and (bits BITS self.old) (bits BITS rhs)) }
        ensures operands_from_bits { (val T.SIGNED (bits BITS self.old) ≡ self.old)
            × (val T.SIGNED (bits BITS rhs) ≡ rhs) }
        ensures plain { (m n : ℕ) → self.old ≡ pos m → rhs ≡ pos n → self.new ≡ pos (bit_and m n) }
        ensures at_most_self { (k : ℕ) → self.old ≡ pos k
            → (n : ℕ) × ((self.new ≡ pos n) × (n ≤ k)) }
        ensures at_most_rhs { (k : ℕ) → rhs ≡ pos k → (n : ℕ) × ((self.new ≡ pos n) × (n ≤ k)) }
        ensures lowest { rhs ≡ pos 1 → self.new ≡ pos (unsigned_abs self.old % 2) }
        ensures result_in_range { InRange T.SIGNED BITS self.new }
        ensures self_in_range { InRange T.SIGNED BITS self.old }
    {
        *self = *self & rhs;
    }
}

impl<T: SignedStorage, const BITS: usize, U: UnsignedOf<T>> BitOr<Int<T, BITS, U>>
    for Int<T, BITS, U> {
    type Output = Int<T, BITS, U>;

    ghost bitor_gives = { λ a b r. (r ≡ val T.SIGNED (bits_or (bits BITS a) (bits BITS b)))
        × (val T.SIGNED (bits BITS a) ≡ a) × (val T.SIGNED (bits BITS b) ≡ b) };

    fn bitor(self, rhs: Int<T, BITS, U>) -> Int<T, BITS, U>
        ensures operation { result ≡ bitwise_or T.SIGNED BITS self rhs }
        ensures bits { result ≡ val T.SIGNED (bits_or (bits BITS self) (bits BITS rhs)) }
        ensures operands_from_bits { (val T.SIGNED (bits BITS self) ≡ self)
            × (val T.SIGNED (bits BITS rhs) ≡ rhs) }
        ensures plain { (m n : ℕ) → self ≡ pos m → rhs ≡ pos n → result ≡ pos (bit_or m n) }
    {
        Int::<T, BITS, U>::from_bits(bitwise::or(self.to_bits(), rhs.to_bits(), BITS))
    }
}

impl<T: SignedStorage, const BITS: usize, U: UnsignedOf<T>> BitOrAssign<Int<T, BITS, U>>
    for Int<T, BITS, U> {
    ghost bitor_assign_gives = { λ a b r. (r ≡ val T.SIGNED (bits_or (bits BITS a) (bits BITS b)))
        × (val T.SIGNED (bits BITS a) ≡ a) × (val T.SIGNED (bits BITS b) ≡ b) };

    fn bitor_assign(&mut self, rhs: Int<T, BITS, U>)
        ensures operation { self.new ≡ bitwise_or T.SIGNED BITS self.old rhs }
        ensures bits { self.new ≡ val T.SIGNED (bits_or (bits BITS self.old) (bits BITS rhs)) }
        ensures operands_from_bits { (val T.SIGNED (bits BITS self.old) ≡ self.old)
            × (val T.SIGNED (bits BITS rhs) ≡ rhs) }
        ensures plain { (m n : ℕ) → self.old ≡ pos m → rhs ≡ pos n → self.new ≡ pos (bit_or m n) }
        ensures result_in_range { InRange T.SIGNED BITS self.new }
        ensures self_in_range { InRange T.SIGNED BITS self.old }
    {
        *self = *self | rhs;
    }
}

impl<T: SignedStorage, const BITS: usize, U: UnsignedOf<T>> BitXor<Int<T, BITS, U>>
    for Int<T, BITS, U> {
    type Output = Int<T, BITS, U>;

    ghost bitxor_gives = { λ a b r. (r ≡ val T.SIGNED (bits_xor (bits BITS a) (bits BITS b)))
        × (val T.SIGNED (bits BITS a) ≡ a) × (val T.SIGNED (bits BITS b) ≡ b) };

    fn bitxor(self, rhs: Int<T, BITS, U>) -> Int<T, BITS, U>
        ensures operation { result ≡ bitwise_xor T.SIGNED BITS self rhs }
        ensures bits { result ≡ val T.SIGNED (bits_xor (bits BITS self) (bits BITS rhs)) }
        ensures operands_from_bits { (val T.SIGNED (bits BITS self) ≡ self)
            × (val T.SIGNED (bits BITS rhs) ≡ rhs) }
        ensures plain { (m n : ℕ) → self ≡ pos m → rhs ≡ pos n → result ≡ pos (bit_xor m n) }
        ensures same { self ≡ rhs → result ≡ pos 0 }
        ensures undo { bitwise_xor T.SIGNED BITS result rhs ≡ self }
    {
        Int::<T, BITS, U>::from_bits(bitwise::xor(self.to_bits(), rhs.to_bits(), BITS))
    }
}

impl<T: SignedStorage, const BITS: usize, U: UnsignedOf<T>> BitXorAssign<Int<T, BITS, U>>
    for Int<T, BITS, U> {
    ghost bitxor_assign_gives = { λ a b r. (r ≡ val T.SIGNED (bits_xor (bits BITS a) (bits BITS b)))
        × (val T.SIGNED (bits BITS a) ≡ a) × (val T.SIGNED (bits BITS b) ≡ b) };

    fn bitxor_assign(&mut self, rhs: Int<T, BITS, U>)
        ensures operation { self.new ≡ bitwise_xor T.SIGNED BITS self.old rhs }
        ensures bits { self.new ≡ val T.SIGNED (bits_xor (bits BITS self.old) (bits BITS rhs)) }
        ensures operands_from_bits { (val T.SIGNED (bits BITS self.old) ≡ self.old)
            × (val T.SIGNED (bits BITS rhs) ≡ rhs) }
        ensures plain { (m n : ℕ) → self.old ≡ pos m → rhs ≡ pos n → self.new ≡ pos (bit_xor m n) }
        ensures same { self.old ≡ rhs → self.new ≡ pos 0 }
        ensures undo { bitwise_xor T.SIGNED BITS self.new rhs ≡ self.old }
        ensures result_in_range { InRange T.SIGNED BITS self.new }
        ensures self_in_range { InRange T.SIGNED BITS self.old }
    {
        *self = *self ^ rhs;
    }
}

impl<T: SignedStorage, const BITS: usize, U: UnsignedOf<T>> Not for Int<T, BITS, U> {
    type Output = Int<T, BITS, U>;

    ghost not_gives = { λ a r. let list = bits BITS a in
        (r ≡ val T.SIGNED (map not list)) × (val T.SIGNED list ≡ a) };

    fn not(self) -> Int<T, BITS, U>
        ensures operation { result ≡ bitwise_not T.SIGNED BITS self }
        ensures bits { result ≡ val T.SIGNED (map not (bits BITS self)) }
        ensures self_from_bits { val T.SIGNED (bits BITS self) ≡ self }
        ensures number { result ≡ neg_ℤ self -ℤ pos 1 }
    {
        Int::<T, BITS, U>::from_bits(bitwise::not(self.to_bits(), BITS))
    }
}
