//! Test vectors of the calls of `Integer` on the primitives.

use crate::same::same;
use arbitrary_int::prelude::*;

#[test]
fn numbers_are_read_by_their_low_bits(rt: HostRuntime) {
    same(&rt, (-1i8).as_u8(), 255);
    same(&rt, 300u16.as_u8(), 44);
    same(&rt, 200u8.as_i8(), -56);
    same(&rt, 40000u16.as_i16(), -25536);
    same(&rt, (-2i64).as_u16(), 65534);
    same(&rt, 4294967296u64.as_i32(), 0);
    same(&rt, (-1i128).as_u32(), 4294967295);
    same(&rt, u64::MAX.as_i64(), -1);
    same(&rt, u64::MAX.as_i128(), 18446744073709551615);
    same(
        &rt,
        (-5i32).as_u128(),
        340282366920938463463374607431768211451,
    );
    same(&rt, (-1i8).as_usize(), usize::MAX);
    same(&rt, u128::MAX.as_isize(), -1);
}

#[test]
fn masking_drops_high_bits_and_extends_the_sign(rt: HostRuntime) {
    same(&rt, u8::masked_new(-1i16), 255);
    same(&rt, i8::masked_new(200u8), -56);
    same(&rt, u32::masked_new(-7i8), 4294967289);
}

#[test]
fn a_conversion_keeps_the_number(rt: HostRuntime) {
    same(&rt, i64::from_(255u8), 255);
    same(&rt, u8::from_(255i128), 255);
}

#[test]
fn counterparts_have_the_same_bits(rt: HostRuntime) {
    same(&rt, (-128i8).to_unsigned(), 128);
    same(&rt, i8::from_unsigned(200), -56);
}

#[test]
fn an_amount_is_the_number(rt: HostRuntime) {
    same(&rt, 53u128.to_amount(), 53);
    same(&rt, 8i8.to_amount(), 8);
}
