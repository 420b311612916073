//! Powers that clamp to the range.

ghost use Rattle.std.specs.Prelude.{◌≡◌, ◌≤◌, ◌<◌, ◌+◌, ◌*◌, ◌*ℤ◌, ◌<ℤ◌, length, pos, unsigned_abs, int_lt, MatchOption, SomeIff, option_map};
ghost use Rattle.std.specs.Int.{int_pow};
ghost use Rattle.std.specs.Int.Digits.{digits_of};
ghost use Rattle.arbitrary_base.specs.Range.{InRange, hi};
ghost use Rattle.arbitrary_base.specs.Saturating.{clamp};
ghost use Rattle.arbitrary_base.specs.Power.{PowersOfSums, PowersOfProducts};

use crate::checked;
use crate::ends::{end, is_below_zero};
use crate::storage::Storage;
use crate::truncation::is_in_range;

/// The laws of powers, for callers' proofs. It does nothing.
pub fn power_laws()
    ensures sums { PowersOfSums }
    ensures products { PowersOfProducts }
{}

/// The number 1.
#[tactic(auto, using(crate::proofs::integers::Squaring::one_laws))]
fn one<T: Storage>() -> T
    ensures { T.number result ≡ pos 1 }
{
    T::from_pattern(1)
}

/// The number of bits at which the products of a power are tested. The number 1 fits in them.
// Small signed numbers are tested at their own width, which costs no more than at the storage's.
fn tested_bits<T: Storage>(bits: usize) -> usize
    requires { bits ≤ T.WIDTH }
    ensures low { bits ≤ result }
    ensures some { 2 ≤ result }
    ensures high { result ≤ T.WIDTH }
{
    if T::SIGNED && (T::WIDTH <= 16 && 2 <= bits) {
        bits
    } else {
        T::WIDTH
    }
}

/// The product, or `None` if it is out of range of `bits` bits. No other function of this module
/// multiplies.
// In 128 bits the product of two numbers of 64 bits is exact, and multiplying without a test is cheaper.
fn multiply<T: Storage>(x: T, y: T, bits: usize, count: &mut u32) -> Option<T>
    requires width { 1 ≤ bits }
    requires storage { bits ≤ T.WIDTH }
    requires x_in_range { InRange T.SIGNED bits (T.number x) }
    requires room { count.old < 64 }
    ensures counted { count.new ≡ count.old + 1 }
    ensures product { SomeIff (option_map T.number result)
        (InRange T.SIGNED bits (T.number x *ℤ T.number y)) (T.number x *ℤ T.number y) }
{
    *count += 1;
    if bits < T::WIDTH {
        checked::mul(x, y, bits)
    } else if T::WIDTH == 128 && is_in_range(x, 64) && is_in_range(y, 64) {
        Some(x.wrapping_mul(y))
    } else {
        x.checked_mul(y)
    }
}

/// The power, by squaring. If the result is `None`, the power is farther from 0 than the greatest
/// number of `bits` bits.
fn exact_power<T: Storage>(x: T, exp: u32, bits: usize, count: &mut u32) -> Option<T>
    requires started { count.old ≡ 0 }
    requires some { 2 ≤ bits }
    requires storage { bits ≤ T.WIDTH }
    requires x_in_range { InRange T.SIGNED bits (T.number x) }
    ensures value { let power = int_pow (T.number x) exp in MatchOption result
        (hi T.SIGNED bits <ℤ pos (unsigned_abs power)) (λ y. T.number y ≡ power) }
    ensures counted { count.new ≤ 2 * length (digits_of 2 exp) }
{
    let mut product = one::<T>();
    if exp == 0 {
        return Some(product);
    }
    let mut base = x;
    let mut left = exp;
    if 1 < exp {
        // The first iteration of the loop, the only one whose square can be the base itself or 1.
        let square = multiply(x, x, bits, count)?;
        if square.equal(&x) {
            // Each power of 0 and of 1 is the base.
            return Some(x);
        }
        if square.equal(&product) {
            // The powers of -1 alternate between -1 and 1.
            return Some(if exp % 2 == 1 { x } else { square });
        }
        if exp % 2 == 1 {
            product = x;
        }
        base = square;
        left = exp / 2;
    }
    while 1 < left {
        let square = multiply(base, base, bits, count)?;
        if left % 2 == 1 {
            product = multiply(product, base, bits, count)?;
        }
        base = square;
        left /= 2;
    }
    multiply(product, base, bits, count)
}

/// Whether the power is below zero: an odd power has the sign of its base.
#[tactic(auto, using(crate::proofs::integers::Powers::signs))]
fn is_power_below_zero<T: Storage>(x: &T, exp: u32) -> bool
    ensures { result ≡ int_lt (int_pow (T.number x.now) exp) (pos 0) }
{
    exp % 2 == 1 && is_below_zero(x)
}

/// The number, or the nearest end of the range of `bits` bits.
fn clamped<T: Storage>(x: T, bits: usize) -> T
    requires width { 1 ≤ bits }
    requires storage { bits ≤ T.WIDTH }
    ensures { T.number result ≡ clamp T.SIGNED bits (T.number x) }
{
    if is_in_range(x, bits) {
        x
    } else {
        end(is_below_zero(&x), bits)
    }
}

/// `x` to the power `exp`, or the nearest end of the range of `bits` bits, and the number of
/// multiplications. 0 to the power 0 is 1.
///
/// Requires a valid width, and `x` in range. Only the exact power is clamped, and no product before
/// it, so powers of any size are right.
pub fn saturating_pow_counted<T: Storage>(x: T, exp: u32, bits: usize) -> (T, u32)
    requires width { 1 ≤ bits }
    requires storage { bits ≤ T.WIDTH }
    requires x_in_range { InRange T.SIGNED bits (T.number x) }
    ensures value { T.number result.0 ≡ clamp T.SIGNED bits (int_pow (T.number x) exp) }
    ensures result_in_range { InRange T.SIGNED bits (T.number result.0) }
    ensures count { result.1 ≤ 2 * length (digits_of 2 exp) }
    ensures bound { result.1 ≤ 64 }
{
    let mut count = 0;
    let power = match exact_power(x, exp, tested_bits::<T>(bits), &mut count) {
        Some(power) => clamped(power, bits),
        None => end(is_power_below_zero(&x, exp), bits),
    };
    (power, count)
}

/// `x` to the power `exp`, or the nearest end of the range of `bits` bits. 0 to the power 0 is 1.
/// Requires a valid width, and `x` in range.
pub fn saturating_pow<T: Storage>(x: T, exp: u32, bits: usize) -> T
    requires width { 1 ≤ bits }
    requires storage { bits ≤ T.WIDTH }
    requires x_in_range { InRange T.SIGNED bits (T.number x) }
    ensures value { T.number result ≡ clamp T.SIGNED bits (int_pow (T.number x) exp) }
    ensures result_in_range { InRange T.SIGNED bits (T.number result) }
{
    saturating_pow_counted(x, exp, bits).0
}
