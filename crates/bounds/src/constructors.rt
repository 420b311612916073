//! A constructor accepts the numbers in range, at a valid width.

use arbitrary_core::aliases::signed::{i3, i7};
use arbitrary_core::aliases::unsigned::{u7, u15, u31, u63, u127};
use arbitrary_core::unsigned::UInt;
use arbitrary_traits::integer::Integer;

/// The greatest number of 7 bits.
pub fn greatest_u7() -> u7 {
    u7::new(127)
}

/// And with a sign.
pub fn greatest_i7() -> i7 {
    i7::new(63)
}

/// The least number of 7 bits with a sign.
pub fn least_i7() -> i7 {
    i7::new(-64)
}

/// The greatest number of 15 bits.
pub fn greatest_u15() -> u15 {
    u15::new(32767)
}

/// The greatest number of 31 bits.
pub fn greatest_u31() -> u31 {
    u31::new(2147483647)
}

/// The greatest number of 63 bits.
pub fn greatest_u63() -> u63 {
    u63::new(9223372036854775807)
}

/// The greatest number of 127 bits.
pub fn greatest_u127() -> u127 {
    u127::new((1 << 127) - 1)
}

/// The greatest pattern of 3 bits.
pub fn greatest_pattern() -> i3 {
    i3::from_bits(0b111)
}

/// The greatest width of a byte.
pub fn widest_in_a_byte() -> u8 {
    UInt::<u8, 8>::max_value().value()
}
