//! The operands of the differential tests, and the same numbers computed with shifts alone.

use arbitrary_int::prelude::*;

/// How many patterns there are.
pub const COUNT: usize = 12;

/// The patterns of 128 bits whose low `bits` bits are the operands: the ends of both ranges and their
/// neighbours, 0 and its neighbours, and mixed bits.
pub fn patterns(bits: u32) -> [u128; COUNT] {
    let top = 1u128.wrapping_shl(bits.wrapping_sub(1));
    [
        0,
        1,
        2,
        3,
        u128::MAX,
        u128::MAX - 1,
        top,
        top.wrapping_add(1),
        top.wrapping_sub(1),
        top.wrapping_sub(2),
        0x5555_5555_5555_5555_5555_5555_5555_5555,
        0xC0FF_EE12_3456_789A_BCDE_F035_8132_1345,
    ]
}

/// The width of the type.
pub fn width<V: Numbered>(_sample: V) -> u32 {
    u32::try_from(V::BITS).unwrap_or(0)
}

/// The low `bits` bits, read without a sign.
pub fn unsigned_at(pattern: u128, bits: u32) -> u128 {
    let unused = 128u32.wrapping_sub(bits);
    pattern.wrapping_shl(unused).wrapping_shr(unused)
}

/// The low `bits` bits, read with a sign.
pub fn signed_at(pattern: u128, bits: u32) -> i128 {
    let unused = 128u32.wrapping_sub(bits);
    pattern
        .wrapping_shl(unused)
        .cast_signed()
        .wrapping_shr(unused)
}

/// The low `bits` bits of a number as the type has them, extended to 128 bits.
pub fn number(pattern: u128, bits: u32, signed: bool) -> u128 {
    if signed {
        signed_at(pattern, bits).cast_unsigned()
    } else {
        unsigned_at(pattern, bits)
    }
}
