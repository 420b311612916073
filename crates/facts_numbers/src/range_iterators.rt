//! Facts about the results of std's iterator calls on a range.

ghost use Rattle.std.specs.Prelude.{◌≡◌, ◌≤◌, ◌≤ℤ◌, ◌<ℤ◌, ◌-ℤ◌, ◌+ℤ◌, pos, Some, IfSome, IsTrue};

use arbitrary_int::prelude::*;

pub fn count(low: u7, high: u7) -> usize
    requires { low ≤ℤ high }
    ensures { pos result ≡ high -ℤ low +ℤ pos 1 }
{
    range_inclusive(low, high).count()
}

pub fn count_of_none(low: u7, high: u7) -> usize
    requires { high <ℤ low }
    ensures { result ≡ 0 }
{
    range_inclusive(low, high).count()
}

pub fn count_of_any(low: u7, high: u7) -> usize
    ensures { result ≤ 128 }
{
    range_inclusive(low, high).count()
}

pub fn count_of_some(low: u7, high: u7) -> usize {
    range_inclusive(low, high)
        .filter(|x| x.value() % 2 == 0)
        .count()
}

pub fn last(low: u7, high: u7) -> Option<u7>
    requires { low ≤ℤ high }
    ensures { result ≡ Some high }
{
    range_inclusive(low, high).last()
}

pub fn fourth(low: u7, high: u7) -> Option<u7>
    ensures { IfSome result (λ x. x ≡ low +ℤ pos 3) }
{
    range_inclusive(low, high).nth(3)
}

pub fn place(low: u7, high: u7) -> Option<usize> {
    range_inclusive(low, high).position(|x| x == u7::new(3))
}

pub fn none_above(low: u7, high: u7) -> bool
    ensures { IsTrue result }
{
    range_inclusive(low, high).all(|x| x <= high)
}

pub fn greatest(low: u7, high: u7) -> Option<u7>
    ensures { IfSome result (λ x. x ≤ℤ high) }
{
    range_inclusive(low, high).max()
}

pub fn with_three_ones(low: u7, high: u7) -> Option<u7>
    ensures { IfSome result (λ x. x ≤ℤ high) }
{
    range_inclusive(low, high).find(|x| x.count_ones() == 3)
}

pub fn looked_up(table: &[u8; 16], low: u4, high: u4) -> u8 {
    let mut bits = 0;
    for place in range_inclusive(low, high) {
        bits ^= table[place.as_usize()];
    }
    bits
}

pub fn downwards(low: u7, high: u7) -> u7 {
    let mut bits = u7::ZERO;
    for x in range_inclusive(low, high).rev() {
        bits ^= x;
    }
    bits
}

pub fn greatest_is_the_end(low: u12, high: u12) -> Option<u12>
    ensures { low ≤ℤ high → result ≡ Some high }
{
    range_inclusive(low, high).max()
}

pub fn least_is_the_beginning(low: i12, high: i12) -> Option<i12>
    ensures { low ≤ℤ high → result ≡ Some low }
{
    range_inclusive(low, high).min()
}

pub fn has_its_end(low: u12, high: u12) -> bool
    ensures { low ≤ℤ high → IsTrue result }
{
    range_inclusive(low, high).any(|x| x == high)
}
