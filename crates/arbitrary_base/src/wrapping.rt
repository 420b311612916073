//! Arithmetic at `bits` bits that wraps: it returns the number of the type that is congruent to the exact result.

ghost use Rattle.std.specs.Prelude.{◌≡◌, ◌≢◌, ◌≤◌, ◌+ℤ◌, ◌-ℤ◌, ◌*ℤ◌, neg_ℤ, pos, int_div};
ghost use Rattle.arbitrary_base.specs.Range.{InRange};
ghost use Rattle.arbitrary_base.specs.Residue.{wrap};

use crate::ends::zero;
use crate::storage::Storage;
use crate::truncation::truncated;

/// The sum, wrapped.
pub fn add<T: Storage>(x: T, y: T, bits: usize) -> T
    requires width { 1 ≤ bits }
    requires storage { bits ≤ T.WIDTH }
    ensures value { T.number result ≡ wrap T.SIGNED bits (T.number x +ℤ T.number y) }
    ensures result_in_range { InRange T.SIGNED bits (T.number result) }
{
    truncated(x.wrapping_add(y), bits)
}

/// The difference, wrapped.
pub fn sub<T: Storage>(x: T, y: T, bits: usize) -> T
    requires width { 1 ≤ bits }
    requires storage { bits ≤ T.WIDTH }
    ensures value { T.number result ≡ wrap T.SIGNED bits (T.number x -ℤ T.number y) }
    ensures result_in_range { InRange T.SIGNED bits (T.number result) }
{
    truncated(x.wrapping_sub(y), bits)
}

/// The product, wrapped.
pub fn mul<T: Storage>(x: T, y: T, bits: usize) -> T
    requires width { 1 ≤ bits }
    requires storage { bits ≤ T.WIDTH }
    ensures value { T.number result ≡ wrap T.SIGNED bits (T.number x *ℤ T.number y) }
    ensures result_in_range { InRange T.SIGNED bits (T.number result) }
{
    truncated(x.wrapping_mul(y), bits)
}

/// The quotient, rounded toward zero and wrapped. Requires a divisor other than zero.
pub fn div<T: Storage>(x: T, y: T, bits: usize) -> T
    requires width { 1 ≤ bits }
    requires storage { bits ≤ T.WIDTH }
    requires divisor { T.number y ≢ pos 0 }
    ensures value { T.number result ≡ wrap T.SIGNED bits (int_div (T.number x) (T.number y)) }
    ensures result_in_range { InRange T.SIGNED bits (T.number result) }
{
    truncated(x.wrapping_div(y), bits)
}

/// The negated number, wrapped.
pub fn neg<T: Storage>(x: T, bits: usize) -> T
    requires width { 1 ≤ bits }
    requires storage { bits ≤ T.WIDTH }
    ensures value { T.number result ≡ wrap T.SIGNED bits (neg_ℤ (T.number x)) }
    ensures result_in_range { InRange T.SIGNED bits (T.number result) }
{
    sub(zero(), x, bits)
}
