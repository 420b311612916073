//! Test vectors of the functions on bits.

use crate::same::same;
use arbitrary_base::truncation::low_bits_in_range;
use arbitrary_base::{bitwise, extraction, patterns, shifts, truncation};

#[test]
fn bitwise_operators(rt: HostRuntime) {
    same(
        &rt,
        bitwise::and(0b11001100u32, 0b01101001u32, 17),
        0b01001000,
    );
    same(
        &rt,
        bitwise::or(0b11001100u32, 0b01101001u32, 17),
        0b11101101,
    );
    same(
        &rt,
        bitwise::xor(0b11001100u32, 0b01101001u32, 17),
        0b10100101,
    );
    same(&rt, bitwise::not(0b10101u8, 5), 0b01010);
    same(&rt, truncation::low_bits(-1i8, 5), 31);
}

#[test]
fn shifts_lose_what_passes_the_end(rt: HostRuntime) {
    same(&rt, shifts::shl(0x3FFFu16, 1, 14), 0x3FFE);
    same(&rt, shifts::shl(0x1i16, 1, 14), 0x2);
    same(&rt, shifts::shr(-256i16, 5, 9), -8);
    same(&rt, shifts::shr(128u16, 2, 14), 32);
}

#[test]
fn rotations_and_reversal(rt: HostRuntime) {
    same(&rt, patterns::rotate_left(0xA3, 8, 0), 0xA3);
    same(&rt, patterns::rotate_left(0xA3, 8, 8), 0xA3);
    same(&rt, patterns::rotate_left(0xA3, 8, 4), 0x3A);
    same(&rt, patterns::rotate_right(0xA3, 8, 9), 0xD1);
    same(&rt, patterns::reverse_bits(0b00011, 5), 0b11000);
}

#[test]
fn counts_at_fewer_bits(rt: HostRuntime) {
    same(
        &rt,
        patterns::leading_ones(low_bits_in_range(-1i8, 6), 6),
        6,
    );
    same(
        &rt,
        patterns::leading_zeros(low_bits_in_range(0u8, 7), 7),
        7,
    );
    same(
        &rt,
        patterns::trailing_zeros(low_bits_in_range(-4i8, 6), 6),
        2,
    );
    same(
        &rt,
        patterns::trailing_ones(low_bits_in_range(0b1010111u8, 7), 7),
        3,
    );
    same(&rt, patterns::count_ones(low_bits_in_range(-1i8, 6), 6), 6);
}

#[test]
fn extraction_from_the_middle(rt: HostRuntime) {
    same(&rt, extraction::extract::<u8, i8>(0b0010_1000, 3, 3), -3);
    same(
        &rt,
        extraction::extract::<u128, u16>(0x800 << 63, 63, 12),
        0x800,
    );
    same(
        &rt,
        extraction::extract::<u16, u8>(0b11110000_11110110, 6, 5),
        0b00011,
    );
}
