//! Test vectors of sums, products, steps and ranges.

use crate::same::same;
use arbitrary_int::prelude::*;
use arbitrary_int::{range_inclusive, try_product, try_sum};
use std::iter::repeat_n;

#[test]
fn sums_stop_at_the_first_overflow(rt: HostRuntime) {
    let held = [i7::new(1), i7::new(-2), i7::new(3), i7::new(-4)];
    same(&rt, try_sum(held.iter().copied()), Some(i7::new(-2)));
    let left = [i7::new(63), i7::new(1), i7::new(-1)];
    same(&rt, try_sum(left.iter().copied()), None);
    let bits = [Int::<i8, 1>::new(-1), Int::<i8, 1>::new(-1)];
    same(&rt, try_sum(bits.iter().copied()), None);
}

#[test]
fn sums_at_the_ends(rt: HostRuntime) {
    for (count, sum) in [(127, Some(u7::new(127))), (128, None)] {
        same(&rt, try_sum(repeat_n(u7::new(1), count)), sum);
    }
    let (one, minus_one) = (i7::new(1), i7::new(-1));
    for (number, count, sum) in [
        (one, 63, Some(i7::new(63))),
        (minus_one, 64, Some(i7::new(-64))),
        (one, 64, None),
        (minus_one, 65, None),
    ] {
        same(&rt, try_sum(repeat_n(number, count)), sum);
    }
}

#[test]
fn products_stop_at_the_first_overflow(rt: HostRuntime) {
    let unsigned = [u7::new(4), u7::new(4), u7::new(3), u7::new(2)];
    same(
        &rt,
        try_product(unsigned.iter().copied()),
        Some(u7::new(96)),
    );
    same(&rt, try_product(repeat_n(u7::new(2), 8)), None);
    let signed = [i7::new(4), i7::new(4), i7::new(3)];
    same(&rt, try_product(signed.iter().copied()), Some(i7::new(48)));
    for (number, count, product) in [
        (i7::new(-2), 3, Some(i7::new(-8))),
        (i7::new(2), 6, None),
        (i7::new(-2), 6, None),
    ] {
        same(&rt, try_product(repeat_n(number, count)), product);
    }
    let none: [Int<i8, 1>; 0] = [];
    same(&rt, try_product(none.iter().copied()), None);
}

#[test]
fn a_range_gives_each_value_once(rt: HostRuntime) {
    let mut range = range_inclusive(u7::new(1), u7::new(3));
    same(&rt, range.next(), Some(u7::new(1)));
    same(&rt, range.next_back(), Some(u7::new(3)));
    same(&rt, range.next(), Some(u7::new(2)));
    same(&rt, range.next(), None);
    same(&rt, range.next_back(), None);
}

#[test]
fn a_range_of_one_bit_ends(rt: HostRuntime) {
    let (least, greatest) = (i1::new(-1), i1::new(0));
    let mut up = range_inclusive(least, greatest);
    let mut down = range_inclusive(least, greatest);
    for (next, last) in [
        (Some(least), Some(greatest)),
        (Some(greatest), Some(least)),
        (None, None),
    ] {
        same(&rt, (up.next(), down.next_back()), (next, last));
    }
    same(&rt, range_inclusive(greatest, least).next(), None);
}

#[test]
fn a_range_over_all_values_ends(rt: HostRuntime) {
    let mut last = None;
    for value in range_inclusive(u7::min_value(), u7::max_value()) {
        last = Some(value);
    }
    same(&rt, last, Some(u7::new(127)));
}

#[test]
fn more_steps_than_a_usize_counts(rt: HostRuntime) {
    let (least, greatest) = (u120::min_value(), u120::max_value());
    same(
        &rt,
        u120::steps_between(&least, &greatest),
        (usize::MAX, None),
    );
}

#[test]
fn steps_between_the_ends_of_a_storage(rt: HostRuntime) {
    let (least, greatest) = (UInt::<u64, 64>::new(0), UInt::<u64, 64>::new(u64::MAX));
    let steps = UInt::<u64, 64>::steps_between(&least, &greatest);
    same(&rt, steps, (usize::MAX, Some(usize::MAX)));
}

#[test]
fn steps_between_signed_values(rt: HostRuntime) {
    for (from, to, steps) in [
        (i7::new(-64), i7::new(63), (127, Some(127))),
        (i7::new(1), i7::new(0), (0, None)),
    ] {
        same(&rt, i7::steps_between(&from, &to), steps);
    }
}

#[test]
fn steps_up_and_down(rt: HostRuntime) {
    for (count, up, down) in [
        (127, Some(i7::new(63)), Some(i7::new(-64))),
        (128, None, None),
    ] {
        same(&rt, i7::forward_checked(i7::min_value(), count), up);
        same(&rt, i7::backward_checked(i7::max_value(), count), down);
    }
}
