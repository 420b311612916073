//! The numbers of storages of at most 16 bits, in 64 bits, where each product is exact. `checked`, `saturating` and
//! `overflowing` compare such a product with the range.

ghost use Rattle.std.specs.Prelude.{◌≡◌, ◌↔◌, ◌≤◌, ◌*ℤ◌, IsTrue};
ghost use Rattle.arbitrary_base.specs.Range.{InRange};
ghost use Rattle.arbitrary_base.specs.Saturating.{clamp};

use crate::ends::{highest, lowest};
use crate::storage::Storage;
use crate::truncation::cast;

/// The number, in 64 bits.
pub(crate) fn number<T: Storage>(x: T) -> i64
    requires small { T.WIDTH ≤ 16 }
    ensures value { result ≡ T.number x }
    ensures x_in_range { InRange T.SIGNED T.WIDTH (T.number x) }
{
    // The contract of `pattern` says that the number is in range; the bits themselves are not needed.
    let _pattern = x.pattern();
    cast(x, 64)
}

/// The exact product.
#[tactic(auto, using(crate::proofs::storages::SixteenBits::products))]
pub(crate) fn product<T: Storage>(x: T, y: T) -> i64
    requires small { T.WIDTH ≤ 16 }
    ensures { result ≡ T.number x *ℤ T.number y }
{
    number(x) * number(y)
}

/// Whether the number is in the range of `bits` bits over the storage.
pub(crate) fn is_number_of<T: Storage>(x: i64, bits: usize) -> bool
    requires small { T.WIDTH ≤ 16 }
    requires width { 1 ≤ bits }
    requires storage { bits ≤ T.WIDTH }
    ensures { IsTrue result ↔ InRange T.SIGNED bits x }
{
    number(lowest::<T>(bits)) <= x && x <= number(highest::<T>(bits))
}

/// The storage's value of a number that fits in it.
pub(crate) fn from_i64<T: Storage>(x: i64) -> T
    requires x_in_range { InRange T.SIGNED T.WIDTH x }
    ensures { T.number result ≡ x }
{
    cast(x, T::WIDTH)
}

/// The number, or the nearest end of the range of `bits` bits over the storage.
pub(crate) fn clamped<T: Storage>(x: i64, bits: usize) -> i64
    requires small { T.WIDTH ≤ 16 }
    requires width { 1 ≤ bits }
    requires storage { bits ≤ T.WIDTH }
    ensures { result ≡ clamp T.SIGNED bits x }
{
    let low = number(lowest::<T>(bits));
    let high = number(highest::<T>(bits));
    if x < low {
        low
    } else if high < x {
        high
    } else {
        x
    }
}
