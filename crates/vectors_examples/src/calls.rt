//! The examples of docs/CALLS.md.

use crate::same::same;
use arbitrary_int::prelude::*;
use bit_fields::{Record, disjoint};
use std::io::sink;
use std::test::Fail;

#[test]
fn making_a_value_and_reading_it_1(rt: HostRuntime) {
    same(&rt, i7::min_value(), i7::new(-64));
    same(&rt, u14::max_value(), u14::new(16383));
    same(&rt, i7::zero(), i7::new(0));
    same(&rt, i7::MIN, i7::new(-64));
    same(&rt, u14::MAX, u14::new(16383));
    same(&rt, i7::ZERO, i7::new(0));
    same(&rt, u7::MASK, 0x7F);
    same(&rt, u7::BITS, 7);
}

#[test]
fn making_a_value_and_reading_it_9(rt: HostRuntime) {
    same(&rt, i7::IS_SIGNED, true);
    same(&rt, UInt::<u8, 9>::is_valid_width(), false);
    same(&rt, u7::mask(), 0x7F);
    same(&rt, u7::new(100).value(), 100);
    same(&rt, u7::new_unchecked(100), u7::new(100));
    same(&rt, u7::try_new(128), Err(TryNewError));
    same(&rt, u14::from_u16(300), u14::new(300));
    same(&rt, i7::new(-3).value(), -3);
}

#[test]
fn making_a_value_and_reading_it_17(rt: HostRuntime) {
    same(&rt, u8::from_(u7::new(0x40)), 0x40);
    same(&rt, u14::from(u7::new(100)), u14::new(100));
    same(&rt, u5::from(UInt::<u32, 5>::new(21)), u5::new(21));
    same(&rt, i17::from(-300i16), i17::new(-300));
    same(&rt, u8::from(u7::new(0x40)), 0x40);
    same(&rt, u5::masked_new(i4::new(-1)), u5::new(31));
    same(&rt, u14::new(200).as_::<i7>(), i7::new(-56));
    same(&rt, i7::new(-1).as_u8(), 255);
}

#[test]
fn making_a_value_and_reading_it_25(rt: HostRuntime) {
    same(&rt, i4::new(-1).to_unsigned(), u4::new(15));
    same(&rt, i4::from_unsigned(u4::new(15)), i4::new(-1));
    same(&rt, i7::new(-1).to_u128_bits(), u128::MAX);
    same(&rt, u7::from_u128_bits(300), u7::new(44));
    same(&rt, u5::new(0b11011).widen::<6>(), u6::new(0b11011));
    same(&rt, i3::new(-1).to_bits(), 0b111);
    same(&rt, i3::from_bits(0b111), i3::new(-1));
    same(&rt, i3::from_bits_unchecked(0b111), i3::new(-1));
}

#[test]
fn making_a_value_and_reading_it_33(rt: HostRuntime) {
    same(&rt, i3::try_from_bits(0b1111), Err(TryNewError));
    same(&rt, i7::new(0).is_positive(), false);
    same(&rt, i7::new(-1).is_negative(), true);
    same(&rt, u7::new(3) == u7::new(3), true);
    same(&rt, i7::new(-1) < i7::new(0), true);
    same(&rt, i7::new(-3).max(i7::new(2)), i7::new(2));
    same(
        &rt,
        i7::new(-50).clamp(i7::new(-9), i7::new(9)),
        i7::new(-9),
    );
    same(&rt, u1::from(true), u1::new(1));
}

#[test]
fn making_a_value_and_reading_it_41(rt: HostRuntime) {
    same(&rt, bool::from(u1::new(0)), false);
}

#[test]
fn arithmetic_1(rt: HostRuntime) {
    same(&rt, u7::new(100) + u7::new(27), u7::new(127));
    same(&rt, i7::new(-22) - i7::new(-10), i7::new(-12));
    same(&rt, i7::new(20) * i7::new(-3), i7::new(-60));
    same(&rt, u7::new(22) / u7::new(4), u7::new(5));
    same(&rt, -i17::max_value(), i17::new(-65535));
    same(
        &rt,
        u14::new(200).wrapping_add(u14::max_value()),
        u14::new(199),
    );
    same(&rt, i7::new(60).saturating_add(i7::new(10)), i7::new(63));
    same(&rt, u7::new(100).checked_add(u7::new(50)), None);
}

#[test]
fn arithmetic_9(rt: HostRuntime) {
    same(
        &rt,
        u7::new(100).overflowing_add(u7::new(50)),
        (u7::new(22), true),
    );
    same(
        &rt,
        u14::new(100).wrapping_sub(u14::max_value()),
        u14::new(101),
    );
    same(&rt, u14::new(13).saturating_sub(u14::new(127)), u14::new(0));
    same(
        &rt,
        i7::new(-60).checked_sub(i7::new(4)),
        Some(i7::new(-64)),
    );
    same(
        &rt,
        u7::new(5).overflowing_sub(u7::new(6)),
        (u7::new(127), true),
    );
    same(&rt, u7::new(25).wrapping_mul(u7::new(12)), u7::new(44));
    same(&rt, i7::new(-20).saturating_mul(i7::new(5)), i7::new(-64));
    same(&rt, u7::new(22).checked_mul(u7::new(4)), Some(u7::new(88)));
}

#[test]
fn arithmetic_17(rt: HostRuntime) {
    same(
        &rt,
        i14::new(1000).overflowing_mul(i14::new(10)),
        (i14::new(-6384), true),
    );
    same(
        &rt,
        i14::min_value().wrapping_div(i14::new(-1)),
        i14::new(-8192),
    );
    same(
        &rt,
        i14::min_value().saturating_div(i14::new(-1)),
        i14::new(8191),
    );
    same(&rt, u7::new(22).checked_div(u7::new(0)), None);
    same(
        &rt,
        i14::min_value().overflowing_div(i14::new(-1)),
        (i14::new(-8192), true),
    );
    same(&rt, i7::new(-64).wrapping_neg(), i7::new(-64));
    same(&rt, u7::new(5).wrapping_neg(), u7::new(123));
    same(&rt, i7::new(-64).saturating_neg(), i7::new(63));
}

#[test]
fn arithmetic_25(rt: HostRuntime) {
    same(&rt, i7::new(-64).checked_neg(), None);
    same(&rt, i7::new(-64).overflowing_neg(), (i7::new(-64), true));
    same(&rt, i14::new(-4).saturating_pow(3), i14::new(-64));
    same(&rt, i14::new(-4).saturating_pow_counted(3).0, i14::new(-64));
}

#[test]
fn bits_1(rt: HostRuntime) {
    same(
        &rt,
        u17::new(0b11001100) & u17::new(0b01101001),
        u17::new(0b01001000),
    );
    same(
        &rt,
        u17::new(0b11001100) | u17::new(0b01101001),
        u17::new(0b11101101),
    );
    same(
        &rt,
        u17::new(0b11001100) ^ u17::new(0b01101001),
        u17::new(0b10100101),
    );
    same(&rt, !u5::new(0b10101), u5::new(0b01010));
    same(&rt, u9::new(0b1111_0000) << 3u64, u9::new(0b1_1000_0000));
    same(&rt, u17::max_value() >> 8, u17::new(511));
    same(&rt, i14::new(-1).wrapping_shl(128), i14::new(-4));
    same(&rt, u14::new(0x10).checked_shl(129), None);
}

#[test]
fn bits_9(rt: HostRuntime) {
    same(
        &rt,
        u14::new(1).overflowing_shl(132),
        (u14::new(0x40), true),
    );
    same(&rt, i14::new(-128).wrapping_shr(60), i14::new(-8));
    same(&rt, i9::new(-256).checked_shr(5), Some(i9::new(-8)));
    same(
        &rt,
        u14::new(0x10).overflowing_shr(113),
        (u14::new(0x8), true),
    );
    same(&rt, u6::new(0b10_1010).rotate_left(1), u6::new(0b01_0101));
    same(
        &rt,
        UInt::<u8, 8>::new(0xA3).rotate_right(9),
        UInt::<u8, 8>::new(0xD1),
    );
    same(&rt, u6::new(0b10_1010).reverse_bits(), u6::new(0b01_0101));
    same(&rt, i6::new(-1).count_ones(), 6);
}

#[test]
fn bits_17(rt: HostRuntime) {
    same(&rt, i6::max_value().count_zeros(), 1);
    same(&rt, i6::new(-1).leading_ones(), 6);
    same(&rt, u7::new(0).leading_zeros(), 7);
    same(&rt, u7::new(0b1010111).trailing_ones(), 3);
    same(&rt, i6::new(-4).trailing_zeros(), 2);
    same(&rt, i3::extract_u8(0b0010_1000, 3), i3::new(-3));
    same(&rt, u5::extract(0b11110000, 2), u5::new(0b11100));
}

#[test]
fn text(rt: HostRuntime) -> Result<(), Fail> {
    let alloc = rt.alloc();
    same(&rt, format!(in alloc; "{}", i7::new(-3))?.as_str(), "-3");
    same(&rt, format!(in alloc; "{:?}", u65::new(60))?.as_str(), "60");
    same(
        &rt,
        format!(in alloc; "{:x}", Int::<i32, 4>::new(-1))?.as_str(),
        "ffffffff",
    );
    same(
        &rt,
        format!(in alloc; "{:#X}", u5::new(10))?.as_str(),
        "0xA",
    );
    same(&rt, format!(in alloc; "{:o}", u65::new(60))?.as_str(), "74");
    same(
        &rt,
        format!(in alloc; "{:b}", i4::new(-1))?.as_str(),
        "11111111",
    );
    Ok(())
}

#[test]
fn keys_and_code_written_for_other_traits_1(rt: HostRuntime) {
    same(&rt, i12::default(), i12::new(0));
    same(&rt, <i12 as num_traits::Zero>::zero(), i12::new(0));
    same(&rt, num_traits::Zero::is_zero(&u12::new(7)), false);
    same(
        &rt,
        <i12 as num_traits::Bounded>::min_value(),
        i12::new(-2048),
    );
    same(
        &rt,
        <u12 as num_traits::Bounded>::max_value(),
        u12::new(4095),
    );
    same(
        &rt,
        num_traits::SaturatingAdd::saturating_add(&u12::new(4000), &u12::new(100)),
        u12::new(4095),
    );
    same(
        &rt,
        num_traits::SaturatingSub::saturating_sub(&i12::new(-2000), &i12::new(100)),
        i12::new(-2048),
    );
    same(
        &rt,
        num_traits::WrappingAdd::wrapping_add(&u12::new(4095), &u12::new(2)),
        u12::new(1),
    );
}

#[test]
fn keys_and_code_written_for_other_traits_9(rt: HostRuntime) {
    same(
        &rt,
        num_traits::WrappingSub::wrapping_sub(&i12::new(-2048), &i12::new(1)),
        i12::new(2047),
    );
}

#[test]
fn bytes_1(rt: HostRuntime) {
    same(&rt, u24::new(0x123456).to_le_bytes(), [0x56, 0x34, 0x12]);
    same(&rt, i24::new(-5).to_be_bytes(), [0xFF, 0xFF, 0xFB]);
    same(
        &rt,
        u24::from_le_bytes([0x56, 0x34, 0x12]),
        u24::new(0x123456),
    );
    same(
        &rt,
        u24::from_be_bytes([0x12, 0x34, 0x56]),
        u24::new(0x123456),
    );
    same(&rt, i24::new(-5).swap_bytes(), i24::new(-262145));
    same(&rt, u40::new(7).to_le(), u40::new(7));
    same(
        &rt,
        u9::new(300).serialize(&mut Watched::new(sink())).is_ok(),
        true,
    );
    same(
        &rt,
        u9::deserialize_reader(&mut Watched::new([0x2C, 0x01].as_slice())).ok(),
        Some(u9::new(300)),
    );
}

#[test]
fn bytes_9(rt: HostRuntime) {
    same(&rt, u9::new(300).to_borsh_bytes(&mut [0; 16]), 2);
    same(&rt, u9::from_borsh_bytes(&[0x2C, 0x03]), None);
}

#[test]
fn many_values(rt: HostRuntime) {
    same(
        &rt,
        [u7::new(63), u7::new(64)].iter().copied().sum::<u7>(),
        u7::new(127),
    );
    same(
        &rt,
        try_sum([i7::new(63), i7::new(1), i7::new(-1)].iter().copied()),
        None,
    );
    same(
        &rt,
        try_product([u7::new(4), u7::new(24)].iter().copied()),
        Some(u7::new(96)),
    );
    same(
        &rt,
        range_inclusive(u7::new(1), u7::new(3)).next_back(),
        Some(u7::new(3)),
    );
    same(
        &rt,
        i7::steps_between(&i7::new(-64), &i7::new(63)),
        (127, Some(127)),
    );
    same(&rt, i7::forward_checked(i7::min_value(), 128), None);
    same(
        &rt,
        i7::backward_checked(i7::max_value(), 127),
        Some(i7::new(-64)),
    );
}

#[test]
fn fields_in_a_record(rt: HostRuntime) {
    same(&rt, Record { bits: 168 }.get::<i5>(3), i5::new(-11));
    same(&rt, Record { bits: 0x1234 }.get::<u8>(4), 0x23);
    same(
        &rt,
        {
            let mut record = Record { bits: 0 };
            record.put(3, u5::new(21));
            record.bits
        },
        168,
    );
    same(&rt, disjoint(0, 4, 4, 5), true);
}
