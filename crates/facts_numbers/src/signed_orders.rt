//! Facts about `max`, `min` and `clamp` of signed numbers, nested.

ghost use Rattle.std.specs.Prelude.{◌≡◌, ◌≤ℤ◌, pos, IsTrue};

use arbitrary_int::prelude::*;

pub fn greatest_is_at_least_each(a: i12, b: i12, c: i12) -> bool
    ensures { IsTrue result }
{
    a.max(b).max(c) >= b
}

pub fn least_is_at_most_greatest(a: i60, b: i60, c: i60) -> bool
    ensures { IsTrue result }
{
    a.min(b).min(c) <= a.max(b).max(c)
}

pub fn spread(a: i12, b: i12, c: i12) -> i13
    ensures { pos 0 ≤ℤ result }
{
    let greatest = a.max(b).max(c);
    let least = a.min(b).min(c);
    i13::from_(greatest) - i13::from_(least)
}

pub fn median(a: i24, b: i24, c: i24) -> i24
    ensures { a ≤ℤ b → b ≤ℤ c → result ≡ b }
{
    a.max(b).min(a.min(b).max(c))
}

pub fn greatest_in_either_order(a: i12, b: i12, c: i12) -> bool
    ensures { IsTrue result }
{
    a.max(b).max(c) == a.max(b.max(c))
}

pub fn lesser_of_itself_and_a_greater(a: i100, b: i100) -> bool
    ensures { IsTrue result }
{
    a.min(a.max(b)) == a
}

pub fn greater_over_lesser(a: i12, b: i12, c: i12) -> bool
    ensures { IsTrue result }
{
    a.max(b.min(c)) == a.max(b).min(a.max(c))
}

pub fn held_in_a_band(x: i12, low: i12, high: i12) -> bool
    requires { low ≤ℤ high }
    ensures { IsTrue result }
{
    let held = x.clamp(low, high);
    held >= low && held <= high
}

pub fn held_twice(x: i12, low: i12, high: i12) -> bool
    requires { low ≤ℤ high }
    ensures { IsTrue result }
{
    x.clamp(low, high).clamp(low, high) == x.clamp(low, high)
}

pub fn held_at_any_width<const BITS: usize>(x: Int<i32, BITS>, y: Int<i32, BITS>) -> bool
    ensures { IsTrue result }
{
    x.min(y) <= x.max(y)
}

pub fn greater_of_itself(x: i7) -> i7
    ensures { result ≡ x }
{
    x.max(x).min(x)
}
