//! Test vectors of the four families of arithmetic, of negation, and of the operators.

use crate::same::same;
use arbitrary_int::prelude::*;

#[test]
fn wrapping_keeps_the_low_bits(rt: HostRuntime) {
    same(
        &rt,
        i14::new(12).wrapping_mul(i14::new(1024)).value(),
        -4096,
    );
    same(
        &rt,
        i14::new(-2).wrapping_sub(i14::max_value()).value(),
        8191,
    );
}

#[test]
fn saturating_and_overflowing_compute_by_the_exact_result(rt: HostRuntime) {
    same(
        &rt,
        i14::max_value().saturating_div(i14::new(-1)).value(),
        -8191,
    );
    same(
        &rt,
        u14::new(1000).overflowing_mul(u14::new(1000)),
        (u14::new(576), true),
    );
}

#[test]
fn the_least_number_by_minus_one(rt: HostRuntime) {
    same(&rt, i14::min_value().checked_div(i14::new(-1)), None);
    same(
        &rt,
        Int::<i128, 128>::min_value().checked_div(Int::<i128, 128>::new(-1)),
        None,
    );
}

#[test]
fn the_greatest_product_of_all(rt: HostRuntime) {
    let greatest = UInt::<u128, 128>::max_value();
    same(&rt, greatest.wrapping_mul(greatest).value(), 1);
    same(
        &rt,
        greatest.overflowing_mul(greatest),
        (UInt::<u128, 128>::new(1), true),
    );
    same(&rt, greatest.saturating_mul(greatest), greatest);
    same(&rt, greatest.checked_mul(greatest), None);
}

#[test]
fn negation_of_the_least_number(rt: HostRuntime) {
    let octet = Int::<i8, 8>::new(-128);
    same(&rt, octet.wrapping_neg().value(), -128);
    same(&rt, octet.saturating_neg().value(), 127);
    same(&rt, octet.checked_neg(), None);
    same(&rt, octet.overflowing_neg(), (octet, true));
    let bit = i1::new(-1);
    same(&rt, bit.wrapping_neg().value(), -1);
    same(&rt, bit.saturating_neg().value(), 0);
    same(&rt, bit.checked_neg(), None);
    same(&rt, bit.overflowing_neg(), (bit, true));
}

#[test]
fn one_signed_bit_has_no_one(rt: HostRuntime) {
    let bit = i1::new(-1);
    same(&rt, bit.wrapping_div(bit), bit);
    same(&rt, bit.overflowing_mul(bit), (bit, true));
    same(&rt, bit.saturating_mul(bit).value(), 0);
}

#[test]
fn operators_give_the_exact_result(rt: HostRuntime) {
    same(&rt, (u7::new(22) - u7::new(10)).value(), 12);
    same(&rt, (u7::new(22) * u7::new(4)).value(), 88);
    same(&rt, (i7::new(63) / i7::new(-1)).value(), -63);
    let mut sum = u9::new(500);
    sum += u9::new(11);
    same(&rt, sum.value(), 511);
}
