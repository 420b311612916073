//! Arithmetic at `bits` bits that returns the nearest end of the range if the exact result is out of range.

ghost use Rattle.std.specs.Prelude.{◌≡◌, ◌≢◌, ◌≤◌, ◌+ℤ◌, ◌-ℤ◌, ◌*ℤ◌, neg_ℤ, pos, int_div};
ghost use Rattle.arbitrary_base.specs.Range.{InRange};
ghost use Rattle.arbitrary_base.specs.Saturating.{clamp};

use crate::ends::{end, highest, is_below, is_below_zero, lowest, zero};
use crate::storage::Storage;
use crate::{checked, raised, small};

/// The number, or the nearest end of the range of `bits` bits.
fn clamped<T: Storage>(x: T, bits: usize) -> T
    requires width { 1 ≤ bits }
    requires storage { bits ≤ T.WIDTH }
    ensures { T.number result ≡ clamp T.SIGNED bits (T.number x) }
{
    let low = lowest::<T>(bits);
    let high = highest::<T>(bits);
    if is_below(&x, &low) {
        low
    } else if is_below(&high, &x) {
        high
    } else {
        x
    }
}

/// The sum, or the nearest end of the range.
// The processor saturates small signed numbers at the storage's ends. If the storage has a spare bit, it has the sum, but past 32 bits the
// comparison with both ends costs more than the test for an overflow.
pub fn add<T: Storage>(x: T, y: T, bits: usize) -> T
    requires width { 1 ≤ bits }
    requires storage { bits ≤ T.WIDTH }
    requires x_in_range { InRange T.SIGNED bits (T.number x) }
    requires y_in_range { InRange T.SIGNED bits (T.number y) }
    ensures value { T.number result ≡ clamp T.SIGNED bits (T.number x +ℤ T.number y) }
    ensures result_in_range { InRange T.SIGNED bits (T.number result) }
{
    if T::SIGNED && T::WIDTH <= 16 {
        raised::clamped(raised::number(x, bits) + raised::number(y, bits), bits)
    } else if bits < T::WIDTH && T::WIDTH <= 32 {
        clamped(x.wrapping_add(y), bits)
    } else {
        match checked::add(x, y, bits) {
            Some(sum) => sum,
            None => end(is_below_zero(&y), bits),
        }
    }
}

/// The difference, or the nearest end of the range.
// The same holds for a signed difference. An unsigned difference below 0 wraps.
pub fn sub<T: Storage>(x: T, y: T, bits: usize) -> T
    requires width { 1 ≤ bits }
    requires storage { bits ≤ T.WIDTH }
    requires x_in_range { InRange T.SIGNED bits (T.number x) }
    requires y_in_range { InRange T.SIGNED bits (T.number y) }
    ensures value { T.number result ≡ clamp T.SIGNED bits (T.number x -ℤ T.number y) }
    ensures result_in_range { InRange T.SIGNED bits (T.number result) }
{
    if T::SIGNED && T::WIDTH <= 16 {
        raised::clamped(raised::number(x, bits) - raised::number(y, bits), bits)
    } else if T::SIGNED && bits < T::WIDTH && T::WIDTH <= 32 {
        clamped(x.wrapping_sub(y), bits)
    } else {
        match checked::sub(x, y, bits) {
            Some(difference) => difference,
            None => end(!is_below_zero(&y), bits),
        }
    }
}

/// The product, or the nearest end of the range.
pub fn mul<T: Storage>(x: T, y: T, bits: usize) -> T
    requires width { 1 ≤ bits }
    requires storage { bits ≤ T.WIDTH }
    ensures value { T.number result ≡ clamp T.SIGNED bits (T.number x *ℤ T.number y) }
    ensures result_in_range { InRange T.SIGNED bits (T.number result) }
{
    if T::WIDTH <= 16 {
        small::from_i64(small::clamped::<T>(small::product(x, y), bits))
    } else {
        match checked::mul(x, y, bits) {
            Some(product) => product,
            None => end(is_below_zero(&x) != is_below_zero(&y), bits),
        }
    }
}

/// The quotient, or the nearest end of the range. Requires a divisor other than zero.
pub fn div<T: Storage>(x: T, y: T, bits: usize) -> T
    requires width { 1 ≤ bits }
    requires storage { bits ≤ T.WIDTH }
    requires x_in_range { InRange T.SIGNED bits (T.number x) }
    requires y_in_range { InRange T.SIGNED bits (T.number y) }
    requires divisor { T.number y ≢ pos 0 }
    ensures value { T.number result ≡ clamp T.SIGNED bits (int_div (T.number x) (T.number y)) }
    ensures result_in_range { InRange T.SIGNED bits (T.number result) }
{
    match checked::div_by_nonzero(x, y, bits) {
        Some(quotient) => quotient,
        None => highest(bits),
    }
}

/// The negated number, or the nearest end of the range.
pub fn neg<T: Storage>(x: T, bits: usize) -> T
    requires width { 1 ≤ bits }
    requires storage { bits ≤ T.WIDTH }
    requires x_in_range { InRange T.SIGNED bits (T.number x) }
    ensures value { T.number result ≡ clamp T.SIGNED bits (neg_ℤ (T.number x)) }
    ensures result_in_range { InRange T.SIGNED bits (T.number result) }
{
    sub(zero(), x, bits)
}
