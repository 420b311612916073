//! Code for every width.

ghost use Rattle.std.specs.Prelude.{◌≡◌, ◌+ℤ◌, ◌≤ℤ◌, pos};
ghost use Rattle.arbitrary_int.specs.Range.{InRange};

use arbitrary_int::prelude::*;

/// The number 0 of any type. The bound shows that the width is valid.
pub fn nothing<T: ValidWidth>() -> T
    ensures { T.number result ≡ pos 0 }
{
    T::zero()
}

/// The least number of a type that has a valid width.
pub fn origin<T: Integer>() -> T
    requires { T.valid }
{
    T::zero()
}

/// Whether the number is the maximum. `to_u128_bits` ensures that the width is valid.
pub fn is_greatest<T: Integer>(value: T) -> bool {
    let _known = value.to_u128_bits();
    value == T::max_value()
}

/// The sum of two numbers of any type, if it is in range.
pub fn sum<T: FixedWidth>(a: T, b: T) -> T
    requires { InRange T.IS_SIGNED T.BITS (T.number a +ℤ T.number b) }
    ensures { T.number result ≡ T.number a +ℤ T.number b }
{
    a + b
}

/// The number, where the width is one that a `u32` has room for, and the type has the number.
pub fn checked<const BITS: usize>(number: u32) -> Option<UInt<u32, BITS>> {
    if UInt::<u32, BITS>::is_valid_width() {
        UInt::<u32, BITS>::try_new(number).ok()
    } else {
        None
    }
}

/// The lesser of two numbers, at any width of one storage.
pub fn lesser<const BITS: usize>(x: UInt<u32, BITS>, y: UInt<u32, BITS>) -> UInt<u32, BITS>
    ensures left { result ≤ℤ x.entry }
    ensures right { result ≤ℤ y.entry }
{
    if x < y { x } else { y }
}
