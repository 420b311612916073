//! The bits of the values of `UInt` and `Int`, with zeros above them. Rotations, reversals and counts use these. The
//! other calls use the number in its storage (`stored`). A further representation needs an impl of both.

ghost use Rattle.std.specs.Prelude.{◌≡◌, ◌≤◌, ◌<◌, ◌^◌};
ghost use Rattle.arbitrary_base.specs.Range.{InRange};
ghost use Rattle.arbitrary_base.specs.Residue.{residue};

use arbitrary_base::storage::{SignedStorage, UnsignedOf, UnsignedStorage};
use arbitrary_base::truncation::low_bits_in_range;
use arbitrary_core::signed::Int;
use arbitrary_core::unsigned::UInt;
use arbitrary_traits::numbered::Numbered;

/// A value whose bits are at hand.
pub trait LowBits: Numbered {
    /// The `BITS` bits of the number: its residue modulo `2 ^ BITS`.
    fn low_bits(self) -> u128
        ensures value { result ≡ residue Self.BITS (Self.number self) }
        ensures fits { result < 2 ^ Self.BITS }
        ensures self_in_range { InRange Self.IS_SIGNED Self.BITS (Self.number self) }
        ensures width { Self.valid }
        ensures some { 1 ≤ Self.BITS }
        ensures high { Self.BITS ≤ 128 };
}

impl<T: UnsignedStorage, const BITS: usize> LowBits for UInt<T, BITS> {
    fn low_bits(self) -> u128 {
        low_bits_in_range(UInt::<T, BITS>::value(self), BITS)
    }
}

impl<T: SignedStorage, const BITS: usize, U: UnsignedOf<T>> LowBits for Int<T, BITS, U> {
    fn low_bits(self) -> u128 {
        low_bits_in_range(self.to_bits(), BITS)
    }
}
