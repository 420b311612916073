//! Sums and products of `Int`. `unsigned` has those of `UInt`.

ghost use Rattle.std.specs.Prelude.{◌≡◌, ◌+ℤ◌, ◌*ℤ◌, pos};
ghost use Rattle.std.specs.List.{fold};
ghost use Rattle.arbitrary_base.specs.Range.{InRange};
ghost use Rattle.arbitrary_base.specs.Residue.{wrap};

use crate::signed::Int;
use crate::totals::{Total, product_from, sum_from};
use arbitrary_base::storage::{SignedStorage, UnsignedOf};
use arbitrary_base::truncation::from_low_bits;
use arbitrary_widths::HasWidth;
use std::iter::{Product, Sum};

impl<T: SignedStorage, const BITS: usize, U: UnsignedOf<T>> Total for Int<T, BITS, U> {
    ghost sum = { ◌+ℤ◌ };

    ghost product = { ◌*ℤ◌ };

    ghost is_number = { λ a. InRange T.SIGNED BITS a };

    fn plus(self, item: Int<T, BITS, U>) -> Int<T, BITS, U> {
        self + item
    }

    fn times(self, item: Int<T, BITS, U>) -> Int<T, BITS, U> {
        self * item
    }
}

/// The number 1, truncated, with which a product begins. The type of one bit has no 1.
fn one<T: SignedStorage + HasWidth<BITS>, const BITS: usize, U: UnsignedOf<T>>() -> Int<T, BITS, U>
    ensures { result ≡ wrap T.SIGNED BITS (pos 1) }
{
    Int::<T, BITS, U>::new(from_low_bits(1, BITS))
}

impl<T: SignedStorage + HasWidth<BITS>, const BITS: usize, U: UnsignedOf<T>> Sum<Int<T, BITS, U>>
    for Int<T, BITS, U> {
    ghost can_sum = { λ items. InRange T.SIGNED BITS (fold ◌+ℤ◌ (pos 0) items) };

    ghost sum_gives = { λ items sum. sum ≡ fold ◌+ℤ◌ (pos 0) items };

    fn sum<I: Iterator<Item = Int<T, BITS, U>>>(iter: I) -> Int<T, BITS, U> {
        sum_from(Int::<T, BITS, U>::default(), iter)
    }
}

impl<T: SignedStorage + HasWidth<BITS>, const BITS: usize, U: UnsignedOf<T>> Product<
    Int<T, BITS, U>,
> for Int<T, BITS, U> {
    ghost can_product = { λ items. InRange T.SIGNED BITS (fold ◌*ℤ◌ (pos 1) items) };

    ghost product_gives = { λ items product. product ≡ fold ◌*ℤ◌ (pos 1) items };

    fn product<I: Iterator<Item = Int<T, BITS, U>>>(iter: I) -> Int<T, BITS, U> {
        product_from(one::<T, BITS, U>(), iter)
    }
}
