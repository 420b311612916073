//! Numbers that are shifted up to the storage's end, which multiplies them by `2 ^ (WIDTH - bits)`. The range of
//! `bits` bits is then that of the storage, so the processor detects an overflow, or saturates.

ghost use Rattle.std.specs.Prelude.{◌≡◌, ◌↔◌, ◌≤◌, ◌<◌, ◌≢◌, ◌^◌, ◌-◌, ◌*ℤ◌, true, pos, negsuc, IsTrue};
ghost use Rattle.std.specs.Int.{int_shr};
ghost use Rattle.arbitrary_base.specs.Range.{InRange};
ghost use Rattle.arbitrary_base.specs.Residue.{wrap};
ghost use Rattle.arbitrary_base.specs.Saturating.{clamp};

use crate::ends::is_zero;
use crate::small;
use crate::storage::Storage;

/// The number, shifted up to the storage's end.
fn raise<T: Storage>(x: T, bits: usize) -> T
    requires width { 1 ≤ bits }
    requires storage { bits ≤ T.WIDTH }
    requires x_in_range { InRange T.SIGNED bits (T.number x) }
    ensures { T.number result ≡ T.number x *ℤ pos (2 ^ (T.WIDTH - bits)) }
{
    x.shl_by(T::WIDTH - bits)
}

/// The number, shifted down again. The shift copies the sign, so it undoes `raise`.
fn lower<T: Storage>(x: T, bits: usize) -> T
    requires width { 1 ≤ bits }
    requires storage { bits ≤ T.WIDTH }
    requires x_in_range { InRange T.SIGNED T.WIDTH (T.number x) }
    ensures { T.number result ≡ int_shr (T.number x) (T.WIDTH - bits) }
{
    x.shr_by(T::WIDTH - bits)
}

/// The number, shifted up, in 64 bits.
pub(crate) fn number<T: Storage>(x: T, bits: usize) -> i64
    requires small { T.WIDTH ≤ 16 }
    requires width { 1 ≤ bits }
    requires storage { bits ≤ T.WIDTH }
    requires x_in_range { InRange T.SIGNED bits (T.number x) }
    ensures value { result ≡ T.number x *ℤ pos (2 ^ (T.WIDTH - bits)) }
    ensures result_in_range { InRange T.SIGNED T.WIDTH result }
{
    small::number(raise(x, bits))
}

/// An exact result of numbers that are shifted up, clamped and shifted down again.
// An end of the storage's range, shifted down, is that end of the range of `bits` bits. The compiler turns a clamp at the storage's ends into
// the processor's saturating sum.
pub(crate) fn clamped<T: Storage>(exact: i64, bits: usize) -> T
    requires small { T.WIDTH ≤ 16 }
    requires width { 1 ≤ bits }
    requires storage { bits ≤ T.WIDTH }
    ensures { T.number result ≡ int_shr (clamp T.SIGNED T.WIDTH exact) (T.WIDTH - bits) }
{
    lower(small::from_i64(small::clamped::<T>(exact, T::WIDTH)), bits)
}

/// Whether the wrapped product is the exact product. Requires a first factor other than -1.
// Only the quotient of an exact product is the other factor. The compiler turns this test into the flag of the multiplication.
fn is_exact<T: Storage>(product: T, x: T, y: T) -> bool
    requires x_in_range { InRange T.SIGNED T.WIDTH (T.number x) }
    requires y_in_range { InRange T.SIGNED T.WIDTH (T.number y) }
    requires factor { T.number x ≢ negsuc 0 }
    requires product { T.number product ≡ wrap T.SIGNED T.WIDTH (T.number x *ℤ T.number y) }
    ensures { IsTrue result ↔ InRange T.SIGNED T.WIDTH (T.number x *ℤ T.number y) }
{
    is_zero(&x) || product.wrapping_div(x).equal(&y)
}

/// The product, wrapped, and whether the exact product is out of range.
// A number that is shifted up is even, so it is never -1.
pub(crate) fn mul<T: Storage>(x: T, y: T, bits: usize) -> (T, bool)
    requires width { 1 ≤ bits }
    requires storage { bits < T.WIDTH }
    requires x_in_range { InRange T.SIGNED bits (T.number x) }
    ensures value { T.number result.0 ≡ wrap T.SIGNED bits (T.number x *ℤ T.number y) }
    ensures result_in_range { InRange T.SIGNED bits (T.number result.0) }
    ensures overflow { IsTrue result.1 ↔ ¬ (InRange T.SIGNED bits (T.number x *ℤ T.number y)) }
{
    // The contract of `pattern` says that the number is in the storage's range; the pattern itself is not needed.
    let _pattern = y.pattern();
    let raised = raise(x, bits);
    let product = raised.wrapping_mul(y);
    (lower(product, bits), !is_exact(product, raised, y))
}
