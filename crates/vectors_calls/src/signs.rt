//! Test vectors of negative numbers, whose order, text and right shifts differ from those of their bits.

use crate::same::same;
use arbitrary_int::prelude::*;
use std::test::Fail;

#[test]
fn order_is_that_of_the_numbers(rt: HostRuntime) {
    same(&rt, i7::new(-1) < i7::new(0), true);
    same(&rt, i7::new(-64) < i7::new(63), true);
    same(&rt, Int::<i8, 8>::new(-128) < Int::<i8, 8>::new(127), true);
    same(&rt, i120::min_value() < i120::max_value(), true);
    same(
        &rt,
        Int::<i128, 128>::min_value() < Int::<i128, 128>::zero(),
        true,
    );
    same(&rt, i7::new(-1) != i7::new(63), true);
}

#[test]
fn text_is_that_of_the_number(rt: HostRuntime) -> Result<(), Fail> {
    let alloc = rt.alloc();
    let (least, minus_one) = (i120::min_value(), i4::new(-1));
    same(
        &rt,
        format!(in alloc; "{least}")?.as_str(),
        "-664613997892457936451903530140172288",
    );
    same(
        &rt,
        format!(in alloc; "{minus_one} {minus_one:?}")?.as_str(),
        "-1 -1",
    );
    same(
        &rt,
        format!(in alloc; "{minus_one:b}")?.as_str(),
        "11111111",
    );
    Ok(())
}

#[test]
fn bits_are_zero_above_the_width(rt: HostRuntime) {
    same(&rt, i4::new(-1).to_bits(), 0b1111);
    same(&rt, i7::new(-64).to_bits(), 0b100_0000);
    same(&rt, Int::<i8, 8>::new(-1).to_bits(), 255);
    same(&rt, (!i4::new(0)).to_bits(), 0b1111);
    same(&rt, (i7::new(-3) << 4).to_bits(), 0b101_0000);
    same(&rt, i7::from_bits(0b100_0000), i7::new(-64));
}

#[test]
fn right_shifts_fill_with_the_sign(rt: HostRuntime) {
    same(&rt, i7::new(-64) >> 3, i7::new(-8));
    same(&rt, Int::<i8, 8>::new(-128) >> 7, Int::<i8, 8>::new(-1));
    same(&rt, i7::new(63) >> 3, i7::new(7));
}
