//! Sums and products of `UInt`. `signed` has those of `Int`.

ghost use Rattle.std.specs.Prelude.{◌≡◌, ◌+ℤ◌, ◌*ℤ◌, ◌*◌, ◌^◌, ◌<◌, pos, unsigned_abs};
ghost use Rattle.std.specs.List.{fold, sum_by};
ghost use Rattle.arbitrary_base.specs.Range.{InRange};

use crate::totals::{Total, product_from, sum_from};
use crate::unsigned::UInt;
use arbitrary_base::storage::UnsignedStorage;
use arbitrary_base::truncation::from_low_bits;
use arbitrary_widths::HasWidth;
use std::iter::{Product, Sum};

impl<T: UnsignedStorage, const BITS: usize> Total for UInt<T, BITS> {
    ghost sum = { λ a x. a +ℤ pos (unsigned_abs x) };

    ghost product = { λ a x. a *ℤ pos (unsigned_abs x) };

    ghost is_number = { λ a. InRange T.SIGNED BITS a };

    fn plus(self, item: UInt<T, BITS>) -> UInt<T, BITS> {
        self + item
    }

    fn times(self, item: UInt<T, BITS>) -> UInt<T, BITS> {
        self * item
    }
}

/// The number 1, with which a product begins.
fn one<T: UnsignedStorage + HasWidth<BITS>, const BITS: usize>() -> UInt<T, BITS>
    ensures { result ≡ pos 1 }
{
    UInt::<T, BITS>::new(from_low_bits(1, BITS))
}

impl<T: UnsignedStorage + HasWidth<BITS>, const BITS: usize> Sum<UInt<T, BITS>> for UInt<T, BITS> {
    ghost can_sum = { λ items. sum_by unsigned_abs items < 2 ^ BITS };

    ghost sum_gives = { λ items sum. sum ≡ pos (sum_by unsigned_abs items) };

    fn sum<I: Iterator<Item = UInt<T, BITS>>>(iter: I) -> UInt<T, BITS> {
        sum_from(UInt::<T, BITS>::default(), iter)
    }
}

impl<T: UnsignedStorage + HasWidth<BITS>, const BITS: usize> Product<UInt<T, BITS>>
    for UInt<T, BITS> {
    ghost can_product = { λ items. fold (λ a x. a * unsigned_abs x) 1 items < 2 ^ BITS };

    ghost product_gives = { λ items product.
        product ≡ pos (fold (λ a x. a * unsigned_abs x) 1 items) };

    fn product<I: Iterator<Item = UInt<T, BITS>>>(iter: I) -> UInt<T, BITS> {
        product_from(one::<T, BITS>(), iter)
    }
}
