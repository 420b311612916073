//! Extractions whose last bit is the last of the source.

use arbitrary_int::prelude::*;

/// 7 bits of 8.
pub fn seven_of_eight() -> u8 {
    u7::extract_u8(100, 0).as_u8()
}

/// The high 5 bits of `u8`.
pub fn u5_from_u8() -> u5 {
    u5::extract_u8(29 << 3, 3)
}

/// The high 5 bits of `i8`.
pub fn u5_from_i8() -> u5 {
    u5::extract_i8(-3 << 3, 3)
}

/// The high 5 bits of `u8`, with a sign.
pub fn i5_from_u8() -> i5 {
    i5::extract_u8(29 << 3, 3)
}

/// The high 5 bits of `i8`, with a sign.
pub fn i5_from_i8() -> i5 {
    i5::extract_i8(-3 << 3, 3)
}

/// The high 5 bits of `u16`.
pub fn u5_from_u16() -> u5 {
    u5::extract_u16(29 << 11, 11)
}

/// The high 5 bits of `i16`, with a sign.
pub fn i5_from_i16() -> i5 {
    i5::extract_i16(-3 << 11, 11)
}

/// The high 5 bits of `u32`.
pub fn u5_from_u32() -> u5 {
    u5::extract_u32(29 << 27, 27)
}

/// The high 5 bits of `i32`, with a sign.
pub fn i5_from_i32() -> i5 {
    i5::extract_i32(-3 << 27, 27)
}

/// The high 5 bits of `u64`.
pub fn u5_from_u64() -> u5 {
    u5::extract_u64(29 << 59, 59)
}

/// The high 5 bits of `i64`, with a sign.
pub fn i5_from_i64() -> i5 {
    i5::extract_i64(-3 << 59, 59)
}

/// The high 5 bits of `u128`.
pub fn u5_from_u128() -> u5 {
    u5::extract_u128(29 << 123, 123)
}

/// The high 5 bits of `i128`, with a sign.
pub fn i5_from_i128() -> i5 {
    i5::extract_i128(-3 << 123, 123)
}

/// All bits of `u8`.
pub fn all_of_u8_unsigned() -> u8 {
    UInt::<u8, 8>::extract_u8(200, 0).value()
}

/// All bits of `i8`.
pub fn all_of_i8_unsigned() -> u8 {
    UInt::<u8, 8>::extract_i8(-56, 0).value()
}

/// All bits of `u8`, with a sign.
pub fn all_of_u8_signed() -> i8 {
    Int::<i8, 8>::extract_u8(200, 0).value()
}

/// All bits of `i8`, with a sign.
pub fn all_of_i8_signed() -> i8 {
    Int::<i8, 8>::extract_i8(-56, 0).value()
}
