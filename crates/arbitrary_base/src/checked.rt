//! Arithmetic at `bits` bits that returns `None` if the exact result is out of range.

ghost use Rattle.std.specs.Prelude.{◌≢◌, ◌≡◌, ◌&&◌, ◌≤◌, ◌+ℤ◌, ◌-ℤ◌, ◌*ℤ◌, neg_ℤ, pos, int_div, int_lt, SomeIff, option_map};
ghost use Rattle.arbitrary_base.specs.Range.{InRange};

use crate::ends::{is_across_zero, is_below, is_below_zero, is_within, is_zero, zero};
use crate::storage::Storage;
use crate::truncation::is_in_range;
use crate::{raised, small, wrapping};

/// The sum, or `None` if it is out of range.
// A signed sum overflows exactly if its sign differs from the signs of both numbers. If the storage has a spare bit, its unsigned sum is in
// range exactly if the exact sum is. Without one, a sum that overflows is below `x`. The compiler uses vector instructions for these tests,
// and could not for the processor's flag.
pub fn add<T: Storage>(x: T, y: T, bits: usize) -> Option<T>
    requires width { 1 ≤ bits }
    requires storage { bits ≤ T.WIDTH }
    requires x_in_range { InRange T.SIGNED bits (T.number x) }
    requires y_in_range { InRange T.SIGNED bits (T.number y) }
    ensures { SomeIff (option_map T.number result)
        (InRange T.SIGNED bits (T.number x +ℤ T.number y)) (T.number x +ℤ T.number y) }
{
    if T::SIGNED {
        let sum = wrapping::add(x, y, bits);
        if is_across_zero(sum, x, y) {
            None
        } else {
            Some(sum)
        }
    } else if bits < T::WIDTH {
        let sum = x.wrapping_add(y);
        if is_within(&sum, bits) {
            Some(sum)
        } else {
            None
        }
    } else {
        let sum = wrapping::add(x, y, bits);
        if is_below(&sum, &x) == is_below_zero(&y) {
            Some(sum)
        } else {
            None
        }
    }
}

/// The difference, or `None` if it is out of range.
// As in `add`: a signed `x` is the sum of `y` and the difference.
pub fn sub<T: Storage>(x: T, y: T, bits: usize) -> Option<T>
    requires width { 1 ≤ bits }
    requires storage { bits ≤ T.WIDTH }
    requires x_in_range { InRange T.SIGNED bits (T.number x) }
    requires y_in_range { InRange T.SIGNED bits (T.number y) }
    ensures { SomeIff (option_map T.number result)
        (InRange T.SIGNED bits (T.number x -ℤ T.number y)) (T.number x -ℤ T.number y) }
{
    if T::SIGNED {
        let difference = wrapping::sub(x, y, bits);
        if is_across_zero(x, y, difference) {
            None
        } else {
            Some(difference)
        }
    } else if bits < T::WIDTH {
        let difference = x.wrapping_sub(y);
        if is_within(&difference, bits) {
            Some(difference)
        } else {
            None
        }
    } else {
        let difference = wrapping::sub(x, y, bits);
        if is_below(&x, &difference) == is_below_zero(&y) {
            Some(difference)
        } else {
            None
        }
    }
}

/// The product, or `None` if it is out of range.
// In 64 bits the product of two small numbers is exact, and the compiler uses vector instructions. Otherwise the storage
// multiplies once. A wide signed number with a spare bit is shifted up to the storage's end, so that the processor's flag is
// the only test.
pub fn mul<T: Storage>(x: T, y: T, bits: usize) -> Option<T>
    requires width { 1 ≤ bits }
    requires storage { bits ≤ T.WIDTH }
    ensures { SomeIff (option_map T.number result)
        (InRange T.SIGNED bits (T.number x *ℤ T.number y)) (T.number x *ℤ T.number y) }
{
    if T::WIDTH <= 16 {
        let product = small::product(x, y);
        if small::is_number_of::<T>(product, bits) {
            Some(small::from_i64(product))
        } else {
            None
        }
    } else if T::SIGNED && (bits < T::WIDTH && is_in_range(x, bits)) {
        let (product, overflow) = raised::mul(x, y, bits);
        if overflow { None } else { Some(product) }
    } else {
        let (product, overflow) = x.overflowing_mul(y);
        if overflow {
            None
        } else if is_within(&product, bits) {
            Some(product)
        } else {
            None
        }
    }
}

/// Whether two numbers and their wrapped quotient are all below 0.
fn is_turned<T: Storage>(x: &T, y: &T, quotient: &T) -> bool
    ensures { let number = T.number in
        result ≡ (int_lt (number x.now) (pos 0)
        && (int_lt (number y.now) (pos 0) && int_lt (number quotient.now) (pos 0))) }
{
    is_below_zero(x) && (is_below_zero(y) && is_below_zero(quotient))
}

/// The quotient, or `None` if it is out of range. Requires a divisor other than zero.
// Only the least number divided by -1 is out of range, and its wrapped quotient keeps the sign.
#[tactic(auto, using(crate::proofs::integers::Quotient::quotients))]
pub(crate) fn div_by_nonzero<T: Storage>(x: T, y: T, bits: usize) -> Option<T>
    requires width { 1 ≤ bits }
    requires storage { bits ≤ T.WIDTH }
    requires x_in_range { InRange T.SIGNED bits (T.number x) }
    requires y_in_range { InRange T.SIGNED bits (T.number y) }
    requires divisor { T.number y ≢ pos 0 }
    ensures { SomeIff (option_map T.number result)
        (InRange T.SIGNED bits (int_div (T.number x) (T.number y)))
        (int_div (T.number x) (T.number y)) }
{
    let quotient = wrapping::div(x, y, bits);
    if is_turned(&x, &y, &quotient) {
        None
    } else {
        Some(quotient)
    }
}

/// The quotient, or `None` if it is out of range or the divisor is zero.
pub fn div<T: Storage>(x: T, y: T, bits: usize) -> Option<T>
    requires width { 1 ≤ bits }
    requires storage { bits ≤ T.WIDTH }
    requires x_in_range { InRange T.SIGNED bits (T.number x) }
    requires y_in_range { InRange T.SIGNED bits (T.number y) }
    ensures { SomeIff (option_map T.number result)
        ((T.number y ≢ pos 0) × InRange T.SIGNED bits (int_div (T.number x) (T.number y)))
        (int_div (T.number x) (T.number y)) }
{
    if is_zero(&y) {
        None
    } else {
        div_by_nonzero(x, y, bits)
    }
}

/// The negated number, or `None` if it is out of range. For a signed type, only the negated least
/// number is.
pub fn neg<T: Storage>(x: T, bits: usize) -> Option<T>
    requires width { 1 ≤ bits }
    requires storage { bits ≤ T.WIDTH }
    requires x_in_range { InRange T.SIGNED bits (T.number x) }
    ensures { SomeIff (option_map T.number result)
        (InRange T.SIGNED bits (neg_ℤ (T.number x))) (neg_ℤ (T.number x)) }
{
    sub(zero(), x, bits)
}
