//! Test vectors of ranges, masks and conversions.

use crate::same::same;
use arbitrary_int::prelude::*;

#[test]
fn ranges_and_masks_at_their_ends(rt: HostRuntime) {
    same(
        &rt,
        (u1::min_value().value(), u1::max_value().value(), u1::mask()),
        (0, 1, 1),
    );
    same(
        &rt,
        (i1::min_value().value(), i1::max_value().value(), i1::mask()),
        (-1, 0, 1),
    );
    same(
        &rt,
        (i3::min_value().value(), i3::max_value().value(), i3::mask()),
        (-4, 3, 7),
    );
    same(
        &rt,
        (u7::min_value().value(), u7::max_value().value(), u7::mask()),
        (0, 127, 0x7F),
    );
    same(
        &rt,
        (i7::min_value().value(), i7::max_value().value(), i7::mask()),
        (-64, 63, 0x7F),
    );
    same(
        &rt,
        (
            i14::min_value().value(),
            i14::max_value().value(),
            i14::mask(),
        ),
        (-8192, 8191, 0x3FFF),
    );
    same(
        &rt,
        (
            u18::min_value().value(),
            u18::max_value().value(),
            u18::mask(),
        ),
        (0, 262143, 0x3FFFF),
    );
}

#[test]
fn a_full_width_has_the_range_of_its_primitive(rt: HostRuntime) {
    type Octet = UInt<u8, 8>;
    type SignedOctet = Int<i8, 8>;
    type Widest = Int<i128, 128>;
    same(
        &rt,
        (
            Octet::min_value().value(),
            Octet::max_value().value(),
            Octet::mask(),
        ),
        (0, 255, 0xFF),
    );
    same(
        &rt,
        (
            SignedOctet::min_value().value(),
            SignedOctet::max_value().value(),
        ),
        (-128, 127),
    );
    same(&rt, SignedOctet::mask(), -1);
    same(
        &rt,
        (Widest::min_value().value(), Widest::max_value().value()),
        (i128::MIN, i128::MAX),
    );
    same(&rt, Widest::mask(), -1);
}

#[test]
fn wide_types_reach_their_ends(rt: HostRuntime) {
    same(&rt, i25::min_value().value(), -16777216);
    same(&rt, i63::max_value().value(), 4611686018427387903);
    same(
        &rt,
        i122::max_value().value(),
        2658455991569831745807614120560689151,
    );
    same(&rt, u127::mask(), 170141183460469231731687303715884105727);
}

#[test]
fn try_new_refuses_what_is_out_of_range(rt: HostRuntime) {
    same(&rt, u6::try_new(62), Ok(u6::new(62)));
    same(&rt, u6::try_new(64), Err(TryNewError));
    same(&rt, u7::try_new(190), Err(TryNewError));
    same(&rt, i7::try_new(127), Err(TryNewError));
}

#[test]
fn bits_and_numbers_correspond(rt: HostRuntime) {
    for number in -8i8..8 {
        let value = i4::masked_new(number);
        same(&rt, i4::from_bits(value.to_bits()).value(), number);
    }
    for number in -4096i16..4096 {
        let value = i13::masked_new(number);
        same(&rt, i13::from_bits(value.to_bits()).value(), number);
    }
}

#[test]
fn conversions_keep_the_number(rt: HostRuntime) {
    same(&rt, u80::new(27).widen::<127>(), u127::new(27));
    same(&rt, u33::from_(0x8000_0000_u32).value(), 0x8000_0000);
    same(&rt, u15::from_(UInt::<u32, 14>::new(21)).value(), 21);
}
