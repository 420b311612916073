//! `<<` and `>>` shift by 0 to `BITS - 1` places. The amount has any primitive integer type.

use arbitrary_core::aliases::signed::{i9, i53};
use arbitrary_core::aliases::unsigned::{u9, u53};

/// By most places.
pub fn by_most() -> i53 {
    i53::new(123) << 52i8
}

/// By least places.
pub fn by_least() -> i53 {
    i53::new(123) << 0i8
}

/// By a `u8`.
pub fn by_u8() -> u53 {
    u53::new(123) << 52u8
}

/// By a `u16`.
pub fn by_u16() -> u53 {
    u53::new(123) << 52u16
}

/// By a `u32`.
pub fn by_u32() -> u53 {
    u53::new(123) << 52u32
}

/// By a `u64`.
pub fn by_u64() -> u53 {
    u53::new(123) << 52u64
}

/// By a `u128`.
pub fn by_u128() -> u53 {
    u53::new(123) << 52u128
}

/// By a `usize`.
pub fn by_usize() -> u53 {
    u53::new(123) << 52usize
}

/// Assigned.
pub fn unsigned_assigned() -> u9 {
    let mut pattern = u9::new(240);
    pattern <<= 8;
    pattern
}

/// Assigned to a number with a sign.
pub fn signed_assigned() -> i9 {
    let mut number = i9::new(240);
    number <<= 8;
    number
}
