//! Facts about the difference that clamps at 0, and about the lesser and the greater of two numbers.

ghost use Rattle.std.specs.Prelude.{IsTrue};

use arbitrary_int::prelude::*;

pub fn greater_by_sum(x: u12, y: u12) -> bool
    ensures { IsTrue result }
{
    x.saturating_sub(y) + y == x.max(y)
}

pub fn lesser_by_difference(x: u12, y: u12) -> bool
    ensures { IsTrue result }
{
    x - x.saturating_sub(y) == x.min(y)
}

pub fn by_the_greater(x: u24, y: u24) -> bool
    ensures { IsTrue result }
{
    x.saturating_sub(y) == x.max(y) - y
}

pub fn one_of_two_is_none(x: u24, y: u24) -> bool
    ensures { IsTrue result }
{
    x.saturating_sub(y) == u24::zero() || y.saturating_sub(x) == u24::zero()
}

pub fn apart(x: u12, y: u12) -> bool
    ensures { IsTrue result }
{
    x.saturating_sub(y) + y.saturating_sub(x) == x.max(y) - x.min(y)
}

pub fn order_by_overflow(x: i12, y: i12) -> bool
    ensures { IsTrue result }
{
    (x.overflowing_sub(y).1 != x.wrapping_sub(y).is_negative()) == (x < y)
}
