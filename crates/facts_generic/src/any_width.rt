//! Facts at any width of one storage. In an `ensures`, `x.entry` is the number that was passed.

ghost use Rattle.std.specs.Prelude.{◌↔◌, ◌≡◌, ◌≤◌, ◌+ℤ◌, ◌≤ℤ◌, ◌<ℤ◌, pos, IsTrue, IfSome};

use arbitrary_int::prelude::*;

pub fn at_most_the_greatest<const BITS: usize>(x: UInt<u32, BITS>) -> bool
    ensures { IsTrue result }
{
    let _known = x.value();
    x <= UInt::<u32, BITS>::max_value()
}

pub fn and_is_below<const BITS: usize>(x: UInt<u32, BITS>, y: UInt<u32, BITS>) -> UInt<u32, BITS>
    ensures { result ≤ℤ x.entry }
{
    x & y
}

pub fn clamped_sum_is_above<const BITS: usize>(
    x: UInt<u32, BITS>,
    y: UInt<u32, BITS>,
) -> UInt<u32, BITS>
    ensures { x.entry ≤ℤ result }
{
    x.saturating_add(y)
}

pub fn checked_sum<const BITS: usize>(
    x: UInt<u32, BITS>,
    y: UInt<u32, BITS>,
) -> Option<UInt<u32, BITS>>
    ensures { IfSome result (λ r. r ≡ x.entry +ℤ y.entry) }
{
    x.checked_add(y)
}

pub fn borrow<const BITS: usize>(x: UInt<u32, BITS>, y: UInt<u32, BITS>) -> bool
    ensures { IsTrue result ↔ (x.entry <ℤ y.entry) }
{
    x.overflowing_sub(y).1
}

pub fn sum_in_a_wider_primitive<const BITS: usize>(x: UInt<u32, BITS>, y: UInt<u32, BITS>) -> u64
    ensures { pos result ≡ x.entry +ℤ y.entry }
{
    u64::from(x.value()) + u64::from(y.value())
}
