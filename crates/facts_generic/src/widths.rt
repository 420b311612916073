//! What generic code knows after a call without a condition on the width: the width is valid, and a clamped
//! result is in range. The 128 bits of an unsigned number are the number.

ghost use Rattle.std.specs.Prelude.{◌≡◌, ◌↔◌, ◌/◌, ◌%◌, IsTrue, unsigned_abs};

use arbitrary_int::prelude::*;

/// Sums that wrap associate.
pub fn sum_associates<V: FixedWidth>(x: V, y: V, z: V) -> bool
    ensures { IsTrue result }
{
    x.wrapping_add(y).wrapping_add(z) == x.wrapping_add(y.wrapping_add(z))
}

/// A sum that clamps is at most the greatest number.
pub fn clamped_at_most<V: FixedWidth>(x: V, y: V) -> bool
    ensures { IsTrue result }
{
    x.saturating_add(y) <= V::max_value()
}

/// A number less itself is 0.
pub fn less_itself<V: FixedWidth>(x: V) -> bool
    ensures { IsTrue result }
{
    let nothing = x.wrapping_sub(x);
    nothing == V::zero()
}

/// A left shift of both operands of `|`.
pub fn moved_or<V: FixedWidth>(x: V, y: V, amount: u32) -> bool
    ensures { IsTrue result }
{
    (x | y).wrapping_shl(amount) == x.wrapping_shl(amount) | y.wrapping_shl(amount)
}

/// The half of a number, by its bits.
pub fn half<V: UnsignedInteger + ValidWidth>(x: V) -> V
    ensures { unsigned_abs (V.number result) ≡ unsigned_abs (V.number x) / 2 }
{
    V::from_(x.to_u128_bits() / 2)
}

/// Whether a number is even, by its bits.
pub fn is_even<V: UnsignedInteger>(x: V) -> bool
    ensures { IsTrue result ↔ (unsigned_abs (V.number x) % 2 ≡ 0) }
{
    x.to_u128_bits() % 2 == 0
}

/// 0 is between the ends of the range.
pub fn zero_between_ends<V: FixedWidth + ValidWidth>() -> bool
    ensures { IsTrue result }
{
    V::min_value() <= V::zero() && V::zero() <= V::max_value()
}
