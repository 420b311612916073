//! Code for every storage of the two types.

use arbitrary_int::prelude::*;
use arbitrary_int::traits::{SignedStorage, UnsignedOf, UnsignedStorage};

/// The number in its storage, of a `UInt` of any storage and width.
pub fn stored<T: UnsignedStorage, const BITS: usize>(number: UInt<T, BITS>) -> T {
    number.value()
}

/// Whether the number is below 0, of an `Int` of any storage and width.
pub fn is_below_zero<T: SignedStorage, U: UnsignedOf<T>, const BITS: usize>(
    number: Int<T, BITS, U>,
) -> bool {
    number.is_negative()
}
