//! Facts about calls with zero, one, equal operands, the width, and the ends of the range.

ghost use Rattle.std.specs.Prelude.{◌≡◌, ◌≢◌, ◌<◌, ◌%◌, pos, unsigned_abs, IsTrue};

use arbitrary_int::prelude::*;
use arbitrary_int::{Int, UInt};

pub fn rotated_by_none(x: u24) -> bool
    ensures { IsTrue result }
{
    x.rotate_left(0) == x
}

pub fn rotated_by_the_width(x: i48) -> bool
    ensures { IsTrue result }
{
    x.rotate_right(48) == x
}

pub fn power_of_one(exp: u32) -> u7
    ensures { result ≡ pos 1 }
{
    u7::new(1).saturating_pow(exp)
}

pub fn power_of_zero(exp: u32) -> i12
    requires { 0 < exp }
    ensures { result ≡ pos 0 }
{
    i12::zero().saturating_pow(exp)
}

pub fn quotient_of_equal_operands(x: Int<i64, 64>, y: Int<i64, 64>) -> Int<i64, 64>
    requires equal { x ≡ y }
    requires some { y ≢ pos 0 }
    ensures { result ≡ pos 1 }
{
    x.wrapping_div(y)
}

pub fn least_by_minus_one_overflows() -> bool
    ensures { IsTrue result }
{
    i5::min_value().overflowing_div(i5::new(-1)) == (i5::min_value(), true)
}

pub fn or_has_each(x: UInt<u128, 3>, y: UInt<u128, 3>) -> bool
    ensures { IsTrue result }
{
    x <= x | y && y <= x | y
}

pub fn flags_only_grow(flags: &mut u12, more: u12) -> bool
    ensures { IsTrue result }
{
    let before = *flags;
    *flags |= more;
    before <= *flags && more <= *flags
}

pub fn odd_number_with_a_sign(x: i12) -> i12
    ensures { result ≡ pos (unsigned_abs x % 2) }
{
    x & i12::new(1)
}

pub fn odd_as_the_last_bit_says(x: i48) -> bool
    ensures { IsTrue result }
{
    (x.trailing_zeros() == 0) == (x & i48::new(1) == i48::new(1))
}

pub fn upper_half_as_the_first_bit_says(x: u12) -> bool
    ensures { IsTrue result }
{
    (x.leading_zeros() == 0) == (x >= u12::new(2048))
}

pub fn turned_against_itself(x: u12) -> u12
    ensures { result ≡ pos 0 }
{
    let mut y = x;
    y ^= x;
    y
}

pub fn plain_quotient_by_itself(x: u12) -> bool
    ensures { IsTrue result }
{
    x == u12::zero() || x / x == u12::new(1)
}

pub fn other_quotients_by_itself(x: u48) -> bool
    ensures { IsTrue result }
{
    x == u48::zero()
        || (x.saturating_div(x) == u48::new(1)
            && x.checked_div(x) == Some(u48::new(1))
            && x.overflowing_div(x) == (u48::new(1), false))
}

pub fn first_power_with_its_count(x: i12) -> bool
    ensures { IsTrue result }
{
    x.saturating_pow_counted(1).0 == x
}

pub fn shifted_by_none<const BITS: usize>(x: Int<i32, BITS>) -> bool
    ensures { IsTrue result }
{
    x << 0u32 == x
}

pub fn shifted_by_the_width<const BITS: usize>(x: Int<i32, BITS>) -> bool
    ensures { IsTrue result }
{
    x.wrapping_shr(BITS as u32) == x
}

pub fn overflowing_shift_by_the_width<const BITS: usize>(x: Int<i32, BITS>) -> bool
    ensures { IsTrue result }
{
    x.overflowing_shl(BITS as u32) == (x, true)
}
