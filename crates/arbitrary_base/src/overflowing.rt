//! Arithmetic at `bits` bits that reports an overflow: the wrapped result, and whether the exact one is out of
//! range.

ghost use Rattle.std.specs.Prelude.{◌≡◌, ◌≢◌, ◌↔◌, ◌≤◌, ◌+ℤ◌, ◌-ℤ◌, ◌*ℤ◌, neg_ℤ, pos, int_div, IsTrue};
ghost use Rattle.arbitrary_base.specs.Range.{InRange};
ghost use Rattle.arbitrary_base.specs.Residue.{wrap};

use crate::ends::zero;
use crate::storage::Storage;
use crate::truncation::{cast, is_in_range, truncated};
use crate::{checked, raised, small, wrapping};

/// The sum, wrapped, and whether the exact sum is out of range.
pub fn add<T: Storage>(x: T, y: T, bits: usize) -> (T, bool)
    requires width { 1 ≤ bits }
    requires storage { bits ≤ T.WIDTH }
    requires x_in_range { InRange T.SIGNED bits (T.number x) }
    requires y_in_range { InRange T.SIGNED bits (T.number y) }
    ensures value { T.number result.0 ≡ wrap T.SIGNED bits (T.number x +ℤ T.number y) }
    ensures result_in_range { InRange T.SIGNED bits (T.number result.0) }
    ensures overflow { IsTrue result.1 ↔ ¬ (InRange T.SIGNED bits (T.number x +ℤ T.number y)) }
{
    let exact = checked::add(x, y, bits);
    (wrapping::add(x, y, bits), exact.is_none())
}

/// The difference, wrapped, and whether the exact difference is out of range.
pub fn sub<T: Storage>(x: T, y: T, bits: usize) -> (T, bool)
    requires width { 1 ≤ bits }
    requires storage { bits ≤ T.WIDTH }
    requires x_in_range { InRange T.SIGNED bits (T.number x) }
    requires y_in_range { InRange T.SIGNED bits (T.number y) }
    ensures value { T.number result.0 ≡ wrap T.SIGNED bits (T.number x -ℤ T.number y) }
    ensures result_in_range { InRange T.SIGNED bits (T.number result.0) }
    ensures overflow { IsTrue result.1 ↔ ¬ (InRange T.SIGNED bits (T.number x -ℤ T.number y)) }
{
    let exact = checked::sub(x, y, bits);
    (wrapping::sub(x, y, bits), exact.is_none())
}

/// The product, wrapped, and whether the exact product is out of range.
// `checked::mul` explains the cases.
pub fn mul<T: Storage>(x: T, y: T, bits: usize) -> (T, bool)
    requires width { 1 ≤ bits }
    requires storage { bits ≤ T.WIDTH }
    ensures value { T.number result.0 ≡ wrap T.SIGNED bits (T.number x *ℤ T.number y) }
    ensures result_in_range { InRange T.SIGNED bits (T.number result.0) }
    ensures overflow { IsTrue result.1 ↔ ¬ (InRange T.SIGNED bits (T.number x *ℤ T.number y)) }
{
    if T::WIDTH <= 16 {
        let product = small::product(x, y);
        (
            cast(product, bits),
            !small::is_number_of::<T>(product, bits),
        )
    } else if T::SIGNED && (bits < T::WIDTH && is_in_range(x, bits)) {
        raised::mul(x, y, bits)
    } else {
        let (product, overflow) = x.overflowing_mul(y);
        (
            truncated(product, bits),
            overflow | !is_in_range(product, bits),
        )
    }
}

/// The quotient, wrapped, and whether the exact quotient is out of range. Requires a divisor other
/// than zero.
pub fn div<T: Storage>(x: T, y: T, bits: usize) -> (T, bool)
    requires width { 1 ≤ bits }
    requires storage { bits ≤ T.WIDTH }
    requires x_in_range { InRange T.SIGNED bits (T.number x) }
    requires y_in_range { InRange T.SIGNED bits (T.number y) }
    requires divisor { T.number y ≢ pos 0 }
    ensures value { T.number result.0 ≡ wrap T.SIGNED bits (int_div (T.number x) (T.number y)) }
    ensures result_in_range { InRange T.SIGNED bits (T.number result.0) }
    ensures overflow { let quotient = int_div (T.number x) (T.number y) in
        IsTrue result.1 ↔ ¬ (InRange T.SIGNED bits quotient) }
{
    let exact = checked::div_by_nonzero(x, y, bits);
    (wrapping::div(x, y, bits), exact.is_none())
}

/// The negated number, wrapped, and whether the exact number is out of range.
pub fn neg<T: Storage>(x: T, bits: usize) -> (T, bool)
    requires width { 1 ≤ bits }
    requires storage { bits ≤ T.WIDTH }
    requires x_in_range { InRange T.SIGNED bits (T.number x) }
    ensures value { T.number result.0 ≡ wrap T.SIGNED bits (neg_ℤ (T.number x)) }
    ensures result_in_range { InRange T.SIGNED bits (T.number result.0) }
    ensures overflow { IsTrue result.1 ↔ ¬ (InRange T.SIGNED bits (neg_ℤ (T.number x))) }
{
    sub(zero(), x, bits)
}
