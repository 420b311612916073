//! Test vectors of shifts, rotations, counts and extraction.

use crate::same::same;
use arbitrary_int::prelude::*;

#[test]
fn shift_operators(rt: HostRuntime) {
    same(
        &rt,
        i17::from_bits(0b1_00000000_00000000) >> 8,
        i17::from_bits(0b1_11111111_00000000),
    );
    let mut least = i9::new(-256);
    least >>= 5;
    same(&rt, least.value(), -8);
}

#[test]
fn shifts_by_the_amount_modulo_the_width(rt: HostRuntime) {
    same(&rt, u14::new(128).wrapping_shr(128).value(), 32);
    same(&rt, u14::new(1).wrapping_shl(u32::MAX).value(), 8);
    same(&rt, i1::new(-1).wrapping_shl(5).value(), -1);
}

#[test]
fn shifts_that_tell_of_an_amount_of_the_width_or_more(rt: HostRuntime) {
    same(
        &rt,
        u14::max_value().overflowing_shl(1),
        (u14::new(0x3FFE), false),
    );
    same(
        &rt,
        u14::new(1).overflowing_shl(u32::MAX),
        (u14::new(8), true),
    );
    same(
        &rt,
        i14::new(0x1).overflowing_shl(15),
        (i14::new(0x2), true),
    );
    same(&rt, u14::new(0x10).checked_shl(13), Some(u14::new(0)));
    same(&rt, u14::new(1).checked_shl(u32::MAX), None);
    same(&rt, i1::new(-1).checked_shl(1), None);
}

#[test]
fn rotations_at_full_width(rt: HostRuntime) {
    let octet = UInt::<u8, 8>::new(0xA3);
    for (amount, turned) in [(0, 0xA3), (8, 0xA3), (4, 0x3A)] {
        same(&rt, octet.rotate_left(amount).value(), turned);
    }
    same(
        &rt,
        UInt::<u128, 128>::new(1).rotate_left(u32::MAX).value(),
        1 << 127,
    );
}

#[test]
fn counts(rt: HostRuntime) {
    same(&rt, i6::new(-1).leading_zeros(), 0);
    same(&rt, u7::new(0).trailing_zeros(), 7);
    same(&rt, i1::new(-1).count_zeros(), 0);
    let least = Int::<i128, 128>::min_value();
    same(
        &rt,
        (least.trailing_zeros(), least.leading_ones()),
        (127, 1),
    );
}

#[test]
fn extraction(rt: HostRuntime) {
    same(&rt, u5::extract_u32(0xF2F6_0000, 22).value(), 0b01011);
    same(&rt, u6::extract_u32(0b1010100000, 4).value(), 0b101010);
    same(
        &rt,
        u5::extract_u16(0b11110000_11110110, 6).value(),
        0b00011,
    );
    same(&rt, u12::extract_u128(0x800 << 63, 63).value(), 0x800);
    same(&rt, u1::extract_u128(1 << 127, 127).value(), 1);
    same(&rt, i5::extract_u32(0b0011_1010, 1).value(), -3);
    same(&rt, i5::extract_u64(0b0011_1110, 1).value(), -1);
    same(&rt, i1::extract_u8(1, 0).value(), -1);
}
