//! Facts about 0, 1 and the ends of a range as operands.

ghost use Rattle.std.specs.Prelude.{◌≡◌, ◌≢◌, ◌≤◌, pos, neg_ℤ, IsTrue};

use arbitrary_int::prelude::*;

pub fn add_zero(a: u24) -> u24
    ensures { result ≡ a }
{
    a + u24::new(0)
}

pub fn sub_zero(a: i127) -> i127
    ensures { result ≡ a }
{
    a - i127::zero()
}

pub fn sub_self(a: i127) -> i127
    ensures { result ≡ pos 0 }
{
    a - a
}

pub fn mul_one(a: u120) -> u120
    ensures { result ≡ a }
{
    a * u120::new(1)
}

pub fn div_one(a: u24) -> u24
    ensures { result ≡ a }
{
    a / u24::new(1)
}

pub fn zero_div(b: u24) -> u24
    requires { b ≢ pos 0 }
    ensures { result ≡ pos 0 }
{
    u24::new(0) / b
}

pub fn checked_div_one(a: i48) -> bool
    ensures { IsTrue result }
{
    a.checked_div(i48::new(1)) == Some(a)
}

pub fn checked_mul_one(a: u24) -> bool
    ensures { IsTrue result }
{
    a.checked_mul(u24::new(1)) == Some(a)
}

pub fn saturating_mul_zero(a: u24) -> u24
    ensures { result ≡ pos 0 }
{
    a.saturating_mul(u24::new(0))
}

pub fn saturating_add_max(a: u24) -> u24
    ensures { result ≡ pos 16777215 }
{
    a.saturating_add(u24::max_value())
}

pub fn max_plus_one() -> u24
    ensures { result ≡ pos 0 }
{
    u24::max_value().wrapping_add(u24::new(1))
}

pub fn min_minus_one() -> i24
    ensures { result ≡ pos 8388607 }
{
    i24::min_value().wrapping_sub(i24::new(1))
}

pub fn min_by_minus_one() -> bool
    ensures { IsTrue result }
{
    i24::min_value().checked_div(i24::new(-1)).is_none()
}

pub fn min_negated() -> bool
    ensures { IsTrue result }
{
    i24::min_value().checked_neg().is_none()
}

pub fn min_saturated() -> i24
    ensures { result ≡ pos 8388607 }
{
    i24::min_value().saturating_neg()
}

pub fn max_negated() -> i24
    ensures { result ≡ neg_ℤ (pos 8388607) }
{
    -i24::max_value()
}

pub fn max_is_all_ones() -> bool
    ensures { IsTrue result }
{
    !u24::new(0) == u24::max_value()
}

pub fn min_is_complement_of_max() -> bool
    ensures { IsTrue result }
{
    !i24::max_value() == i24::min_value()
}

pub fn every_number_is_at_most_max(a: i127) -> bool
    ensures { IsTrue result }
{
    a <= i127::max_value()
}

pub fn every_number_is_at_least_zero(a: UInt<u128, 3>) -> bool
    ensures { IsTrue result }
{
    a >= UInt::<u128, 3>::zero()
}

pub fn power_zero(a: u5) -> u5
    ensures { result ≡ pos 1 }
{
    a.saturating_pow(0)
}

pub fn power_clamps() -> u5
    ensures { result ≡ pos 31 }
{
    u5::new(2).saturating_pow(5)
}

pub fn multiplications_are_few(a: u24, n: u32) -> u32
    ensures { result ≤ 64 }
{
    a.saturating_pow_counted(n).1
}

pub fn minus_one_times(a: i48) -> bool
    ensures { IsTrue result }
{
    a.wrapping_mul(i48::new(-1)) == a.wrapping_neg()
}

pub fn minus_one_quotient(a: i48) -> i48
    requires { a ≢ neg_ℤ (pos 140737488355328) }
    ensures { result ≡ neg_ℤ a }
{
    a / i48::new(-1)
}

pub fn try_new_value(a: i48) -> bool
    ensures { IsTrue result }
{
    i48::try_new(a.value()) == Ok(a)
}
