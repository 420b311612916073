//! Facts about sums, shifts, rotations, reversals, counts and runs in code that is generic over the type, and
//! clauses about their numbers.
#![tactic(auto)]

ghost use Rattle.std.specs.Prelude.{◌≡◌, IsTrue};
ghost use Rattle.arbitrary_int.specs.Operation.{bitwise_and};

use arbitrary_int::prelude::*;

pub fn difference_is_sum<V: FixedWidth>(x: V, y: V) -> bool
    requires { V.valid }
    ensures { IsTrue result }
{
    x.wrapping_sub(y) == x.wrapping_add(V::zero().wrapping_sub(y))
}

pub fn product_distributes<V: FixedWidth>(x: V, y: V, z: V) -> bool
    requires { V.valid }
    ensures { IsTrue result }
{
    x.wrapping_mul(y.wrapping_add(z)) == x.wrapping_mul(y).wrapping_add(x.wrapping_mul(z))
}

pub fn left_shift_of_sum<V: FixedWidth>(x: V, y: V) -> bool
    requires { V.valid }
    ensures { IsTrue result }
{
    x.wrapping_add(y).wrapping_shl(2) == x.wrapping_shl(2).wrapping_add(y.wrapping_shl(2))
}

pub fn right_shift_of_xor<V: FixedWidth>(x: V, y: V) -> bool
    requires { V.valid }
    ensures { IsTrue result }
{
    (x ^ y).wrapping_shr(2) == x.wrapping_shr(2) ^ y.wrapping_shr(2)
}

pub fn right_and_left_shift_mask<V: FixedWidth>(x: V) -> bool
    requires { V.valid }
    ensures { IsTrue result }
{
    x.wrapping_shr(2).wrapping_shl(2) == x & (!V::zero()).wrapping_shl(2)
}

pub fn rotation_of_and<V: FixedWidth>(x: V, y: V) -> bool
    requires { V.valid }
    ensures { IsTrue result }
{
    (x & y).rotate_left(3) == x.rotate_left(3) & y.rotate_left(3)
}

pub fn reversal_of_rotation<V: FixedWidth>(x: V) -> bool
    requires { V.valid }
    ensures { IsTrue result }
{
    x.rotate_left(3).reverse_bits() == x.reverse_bits().rotate_right(3)
}

pub fn ones_of_complement<V: FixedWidth>(x: V) -> bool
    requires { V.valid }
    ensures { IsTrue result }
{
    (!x).count_ones() == x.count_zeros()
}

pub fn leading_zeros_of_reversal<V: FixedWidth>(x: V) -> bool
    requires { V.valid }
    ensures { IsTrue result }
{
    x.reverse_bits().leading_zeros() == x.trailing_zeros()
}

pub fn sum_of_disjoint<V: FixedWidth>(x: V, y: V) -> bool
    requires { V.valid }
    ensures { IsTrue result }
{
    x & y != V::zero() || x.wrapping_add(y) == x | y
}

pub fn turned_and<V: FixedWidth>(x: V, y: V) -> V
    ensures { V.number result ≡ bitwise_and V.IS_SIGNED V.BITS (V.number y) (V.number x) }
{
    x & y
}

pub fn sum_with_a_difference<V: FixedWidth>(x: V, y: V) -> bool
    requires { V.valid }
    ensures { IsTrue result }
{
    x.wrapping_add(y.wrapping_sub(x)) == y
}

pub fn negated_twice<V: FixedWidth>(x: V) -> bool
    requires { V.valid }
    ensures { IsTrue result }
{
    V::zero().wrapping_sub(V::zero().wrapping_sub(x)) == x
}

pub fn product_with_one<V: FixedWidth + UnsignedInteger>(x: V) -> bool
    requires { V.valid }
    ensures { IsTrue result }
{
    x.wrapping_mul(V::from_(1u8)) == x
}

pub fn clamped_results_commute<V: FixedWidth>(x: V, y: V) -> bool
    ensures { IsTrue result }
{
    x.saturating_add(y) == y.saturating_add(x) && x.saturating_mul(y) == y.saturating_mul(x)
}

pub fn overflow_is_the_same_in_either_order<V: FixedWidth>(x: V, y: V) -> bool
    ensures { IsTrue result }
{
    x.overflowing_add(y) == y.overflowing_add(x)
}

pub fn checked_products_commute<V: FixedWidth>(x: V, y: V) -> bool
    ensures { IsTrue result }
{
    x.checked_mul(y) == y.checked_mul(x)
}

pub fn shifts_by_none<V: FixedWidth>(x: V) -> bool
    ensures { IsTrue result }
{
    x.wrapping_shl(0) == x && x.wrapping_shr(0) == x
}

pub fn checked_sum_with_zero<V: FixedWidth>(x: V) -> bool
    requires { V.valid }
    ensures { IsTrue result }
{
    x.checked_add(V::zero()) == Some(x)
}
