//! Facts about the forms of one call: the results that wrap, clamp, refuse and set a flag agree.

ghost use Rattle.std.specs.Prelude.{◌≢◌, ◌<◌, ◌+ℤ◌, ◌≤ℤ◌, ◌<ℤ◌, pos, IsTrue};
ghost use Rattle.arbitrary_int.specs.Residue.{Congruent};

use arbitrary_int::prelude::*;

pub fn add_forms(a: u24, b: u24) -> bool
    ensures { IsTrue result }
{
    a.overflowing_add(b).0 == a.wrapping_add(b)
}

pub fn div_forms(a: i12, b: i12) -> bool
    requires { b ≢ pos 0 }
    ensures { IsTrue result }
{
    a.overflowing_div(b).0 == a.wrapping_div(b)
}

pub fn shl_forms(a: u24, n: u32) -> bool
    ensures { IsTrue result }
{
    a.overflowing_shl(n).0 == a.wrapping_shl(n)
}

pub fn neg_forms(a: i12) -> bool
    ensures { IsTrue result }
{
    a.overflowing_neg().0 == a.wrapping_neg()
}

pub fn checked_is_overflowing(a: u24, b: u24) -> bool
    ensures { IsTrue result }
{
    a.checked_add(b).is_none() == a.overflowing_add(b).1
}

pub fn checked_mul_is_overflowing(a: u5, b: u5) -> bool
    ensures { IsTrue result }
{
    a.checked_mul(b).is_none() == a.overflowing_mul(b).1
}

pub fn checked_shl_is_overflowing(a: u24, n: u32) -> bool
    ensures { IsTrue result }
{
    a.checked_shl(n).is_none() == a.overflowing_shl(n).1
}

pub fn checked_or_wrapped(a: u24, b: u24) -> u24
    ensures { Congruent 24 result (a +ℤ b) }
{
    a.checked_add(b).unwrap_or(a.wrapping_add(b))
}

pub fn checked_is_wrapped(a: i24, b: i24) -> bool
    ensures { IsTrue result }
{
    match a.checked_add(b) {
        Some(sum) => sum == a.wrapping_add(b),
        None => true
    }
}

pub fn checked_mul_is_saturated(a: u12, b: u12) -> bool
    ensures { IsTrue result }
{
    match a.checked_mul(b) {
        Some(d) => d == a.saturating_mul(b),
        None => a.saturating_mul(b) == u12::max_value()
    }
}

pub fn operator_is_wrapped(a: u5, b: u5) -> bool
    requires { (a +ℤ b) <ℤ pos 32 }
    ensures { IsTrue result }
{
    a + b == a.wrapping_add(b)
}

pub fn operator_is_checked(a: u24, b: u24) -> bool
    requires { b ≤ℤ a }
    ensures { IsTrue result }
{
    a.checked_sub(b) == Some(a - b)
}

pub fn overflow_is_a_carry(a: u120, b: u120) -> bool
    ensures { IsTrue result }
{
    a.overflowing_add(b).1 == (a.wrapping_add(b) < a)
}

pub fn borrow_is_an_order(a: u120, b: u120) -> bool
    ensures { IsTrue result }
{
    a.overflowing_sub(b).1 == (a < b)
}

pub fn difference_wraps_above(a: u24, b: u24) -> bool
    ensures { IsTrue result }
{
    (a.wrapping_sub(b) > a) == (a < b)
}

pub fn quotient_forms(a: u24, b: u24) -> bool
    requires { b ≢ pos 0 }
    ensures { IsTrue result }
{
    a.saturating_div(b) == a / b
}

pub fn checked_quotient(a: u24, b: u24) -> bool
    requires { b ≢ pos 0 }
    ensures { IsTrue result }
{
    a.checked_div(b) == Some(a / b)
}

pub fn overflowing_quotient(a: u24, b: u24) -> bool
    requires { b ≢ pos 0 }
    ensures { IsTrue result }
{
    !a.overflowing_div(b).1
}

pub fn signed_quotient_overflows(a: i12) -> bool
    ensures { IsTrue result }
{
    a.overflowing_div(i12::new(-1)).1 == (a == i12::min_value())
}

pub fn shift_forms(a: u24, n: u32) -> bool
    requires { n < 24 }
    ensures { IsTrue result }
{
    a << n == a.wrapping_shl(n)
}

pub fn shift_forms_checked(a: u24, n: u32) -> bool
    requires { n < 24 }
    ensures { IsTrue result }
{
    a.checked_shl(n) == Some(a << n)
}

pub fn amount_turns_over(a: u24) -> bool
    ensures { IsTrue result }
{
    a.wrapping_shl(25) == a.wrapping_shl(1)
}

pub fn power_counted(a: u12, n: u32) -> bool
    ensures { IsTrue result }
{
    a.saturating_pow_counted(n).0 == a.saturating_pow(n)
}

pub fn checked_or_greatest_saturates(a: u12, b: u12) -> bool
    ensures { IsTrue result }
{
    a.checked_add(b).unwrap_or(u12::max_value()) == a.saturating_add(b)
}

pub fn checked_sum_is_some_if_it_fits(a: u12, b: u12) -> bool
    ensures { IsTrue result }
{
    a.checked_add(b).is_some() == (a.as_u32() + b.as_u32() < 4096)
}

pub fn saturated_up_and_down_is_no_more(a: u12, b: u12) -> bool
    ensures { IsTrue result }
{
    a.saturating_add(b).saturating_sub(b) <= a
}
