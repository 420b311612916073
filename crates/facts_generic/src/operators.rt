//! Facts about operators, the order and the ends of the range in code that is generic over the type.

ghost use Rattle.std.specs.Prelude.{◌≡◌, ◌+ℤ◌, ◌-ℤ◌, ◌≤ℤ◌, ◌<ℤ◌, pos, int_div, IsTrue};
ghost use Rattle.arbitrary_int.specs.Range.{hi};

use arbitrary_int::prelude::*;

pub fn complement_of_greatest<V: FixedWidth>() -> bool
    requires { V.valid }
    ensures { IsTrue result }
{
    !V::max_value() == V::min_value()
}

pub fn complement_of_least<V: FixedWidth>() -> bool
    requires { V.valid }
    ensures { IsTrue result }
{
    !V::min_value() == V::max_value()
}

pub fn complements_turn_the_order<V: FixedWidth>(x: V, y: V) -> (V, V)
    requires width { V.valid }
    requires order { V.number x ≤ℤ V.number y }
    ensures { V.number result.1 ≤ℤ V.number result.0 }
{
    (!x, !y)
}

pub fn mask_bounds<V: FixedWidth + UnsignedInteger>(x: V, mask: V) -> V
    requires { V.valid }
    ensures { V.number result ≤ℤ V.number mask }
{
    x & mask
}

pub fn joined_bits_are_at_least<V: FixedWidth + UnsignedInteger>(x: V, y: V) -> bool
    requires { V.valid }
    ensures { IsTrue result }
{
    x | y >= x
}

pub fn next<V: FixedWidth + ValidWidth + UnsignedInteger>(x: V) -> V
    ensures { V.number x <ℤ hi V.IS_SIGNED V.BITS → V.number result ≡ V.number x +ℤ pos 1 }
{
    if x < V::max_value() {
        x + V::from_(1u8)
    } else {
        x
    }
}

pub fn absolute_difference<V: FixedWidth + UnsignedInteger>(x: V, y: V) -> V
    ensures down { V.number y ≤ℤ V.number x → V.number result ≡ V.number x -ℤ V.number y }
    ensures up { V.number x ≤ℤ V.number y → V.number result ≡ V.number y -ℤ V.number x }
{
    if x > y { x - y } else { y - x }
}

pub fn difference_of_a_number_at_most_as_great<V: FixedWidth + ValidWidth>(x: V, y: V) -> V
    requires sign { pos 0 ≤ℤ V.number y }
    requires order { V.number y ≤ℤ V.number x }
    ensures { V.number result ≡ V.number x -ℤ V.number y }
{
    x - y
}

pub fn difference_and_back<V: FixedWidth + UnsignedInteger>(x: V, y: V) -> bool
    requires { V.number y ≤ℤ V.number x }
    ensures { IsTrue result }
{
    (x - y) + y == x
}

pub fn difference_is_at_most<V: FixedWidth + UnsignedInteger>(x: V, y: V) -> bool
    requires { V.number y ≤ℤ V.number x }
    ensures { IsTrue result }
{
    x - y <= x
}

pub fn spread<V: FixedWidth + UnsignedInteger>(x: V, y: V) -> V {
    x.max(y) - x.min(y)
}

pub fn added_to<V: FixedWidth + UnsignedInteger>(total: &mut V, x: V)
    requires { (V.number total.old +ℤ V.number x) ≤ℤ hi V.IS_SIGNED V.BITS }
    ensures { V.number total.new ≡ V.number total.old +ℤ V.number x }
{
    *total += x;
}

pub fn clamped_sum<V: FixedWidth + ValidWidth + UnsignedInteger>(x: V, y: V) -> V
    ensures exact { let sum = V.number x +ℤ V.number y in
        sum ≤ℤ hi V.IS_SIGNED V.BITS → V.number result ≡ sum }
    ensures above { let highest = hi V.IS_SIGNED V.BITS in
        highest <ℤ (V.number x +ℤ V.number y) → V.number result ≡ highest }
{
    if x > V::max_value() - y {
        V::max_value()
    } else {
        x + y
    }
}

pub fn quotient_or_zero<V: FixedWidth + ValidWidth + UnsignedInteger>(x: V, y: V) -> V
    ensures { pos 0 <ℤ V.number y → V.number result ≡ int_div (V.number x) (V.number y) }
{
    if y == V::zero() {
        return V::zero();
    }
    x / y
}
