//! The ends of a range, and tests by them.

ghost use Rattle.std.specs.Prelude.{◌≡◌, ◌↔◌, ◌≤◌, ◌&&◌, not, pos, int_lt, IsTrue};
ghost use Rattle.std.specs.Bool.{beq};
ghost use Rattle.std.specs.Ordering.{int_eq};
ghost use Rattle.arbitrary_base.specs.Range.{lo, hi, range_end, InRange};

use crate::storage::Storage;
use crate::truncation::{from_low_bits, reach_below_zero};
use std::cmp::Ordering;

/// The least number of the type of `bits` bits.
// The low end is congruent to its own magnitude: they differ by `2 ^ bits`, or both are 0.
pub fn lowest<T: Storage>(bits: usize) -> T
    requires width { 1 ≤ bits }
    requires storage { bits ≤ T.WIDTH }
    ensures value { T.number result ≡ lo T.SIGNED bits }
    ensures result_in_range { InRange T.SIGNED bits (T.number result) }
{
    from_low_bits(reach_below_zero(T::SIGNED, bits), bits)
}

/// The greatest number of the type of `bits` bits.
// Modulo `2 ^ bits`, this is the low end minus 1.
pub fn highest<T: Storage>(bits: usize) -> T
    requires width { 1 ≤ bits }
    requires storage { bits ≤ T.WIDTH }
    ensures value { T.number result ≡ hi T.SIGNED bits }
    ensures result_in_range { InRange T.SIGNED bits (T.number result) }
{
    from_low_bits(reach_below_zero(T::SIGNED, bits).wrapping_sub(1), bits)
}

/// The least number of `bits` bits if `low` is true, and otherwise the greatest.
pub(crate) fn end<T: Storage>(low: bool, bits: usize) -> T
    requires width { 1 ≤ bits }
    requires storage { bits ≤ T.WIDTH }
    ensures { T.number result ≡ range_end T.SIGNED bits low }
{
    if low { lowest(bits) } else { highest(bits) }
}

/// The number 0.
#[tactic(auto, using(crate::proofs::storages::CheckedSum::zeros))]
pub fn zero<T: Storage>() -> T
    ensures { T.number result ≡ pos 0 }
{
    T::from_pattern(0)
}

/// Whether the number is zero.
pub fn is_zero<T: Storage>(x: &T) -> bool
    ensures { result ≡ int_eq (T.number x.now) (pos 0) }
{
    x.equal(&zero())
}

/// Whether the first number is below the second.
pub(crate) fn is_below<T: Storage>(x: &T, y: &T) -> bool
    ensures { result ≡ int_lt (T.number x.now) (T.number y.now) }
{
    x.compare(y) == Ordering::Less
}

/// Whether the number is below zero.
pub fn is_below_zero<T: Storage>(x: &T) -> bool
    ensures { result ≡ int_lt (T.number x.now) (pos 0) }
{
    is_below(x, &zero())
}

/// Whether the first number is on the other side of 0 from both others.
// These bits compile to fewer instructions than comparisons.
pub(crate) fn is_across_zero<T: Storage>(x: T, left: T, right: T) -> bool
    ensures { let below = int_lt (T.number x) (pos 0) in
        let left_below = int_lt (T.number left) (pos 0) in
        let right_below = int_lt (T.number right) (pos 0) in
        result ≡ (not (beq below left_below) && not (beq below right_below)) }
{
    let sign = is_below_zero(&x) as u8;
    (sign ^ is_below_zero(&left) as u8) & (sign ^ is_below_zero(&right) as u8) == 1
}

/// Whether the number is in the range of `bits` bits, by comparison with both ends.
// `truncation::is_in_range` truncates and compares. This costs less if nothing else needs the truncated number.
pub(crate) fn is_within<T: Storage>(x: &T, bits: usize) -> bool
    requires width { 1 ≤ bits }
    requires storage { bits ≤ T.WIDTH }
    ensures { IsTrue result ↔ InRange T.SIGNED bits (T.number x.now) }
{
    !is_below(x, &lowest(bits)) && !is_below(&highest(bits), x)
}
