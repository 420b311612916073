//! The traits of `num_traits` that need the ends of the range, and std's `Default`, for `Int`.

ghost use Rattle.std.specs.Prelude.{◌≡◌, ◌<ℤ◌, ◌+ℤ◌, ◌-ℤ◌, pos, refl};
ghost use Rattle.arbitrary_base.specs.Range.{lo, hi, InRange};
ghost use Rattle.arbitrary_base.specs.Saturating.{clamp};
ghost use Rattle.arbitrary_base.proofs.storages.CheckedSum.{in_range-of_wrap, wrap-zero};
ghost use Rattle.arbitrary_base.proofs.storages.RangeEnds.{bounds, low_fits, high_fits, saturates};

use crate::signed::Int;
use arbitrary_base::ends::{highest, is_zero, lowest};
use arbitrary_base::saturating;
use arbitrary_base::storage::{SignedStorage, UnsignedOf};
use arbitrary_base::truncation::from_low_bits;
use arbitrary_widths::HasWidth;
use num_traits::{Bounded, SaturatingAdd, SaturatingSub, Zero};

impl<T: SignedStorage + HasWidth<BITS>, const BITS: usize, U: UnsignedOf<T>> Bounded
    for Int<T, BITS, U> {
    ghost low = { lo T.SIGNED BITS };

    ghost high = { hi T.SIGNED BITS };

    ghost lowest = { lo T.SIGNED BITS };

    ghost highest = { hi T.SIGNED BITS };

    fn min_value() -> Int<T, BITS, U> {
        Int::<T, BITS, U>::new(lowest(BITS))
    }

    fn max_value() -> Int<T, BITS, U> {
        Int::<T, BITS, U>::new(highest(BITS))
    }

    ghost bounds_law = { λ x _. bounds T.SIGNED BITS T.WIDTH x T.valid_law };

    ghost low_fits_law = { λ _. low_fits T.SIGNED BITS T.WIDTH T.valid_law };

    ghost high_fits_law = { λ _. high_fits T.SIGNED BITS T.WIDTH T.valid_law };
}

impl<T: SignedStorage + HasWidth<BITS>, const BITS: usize, U: UnsignedOf<T>> SaturatingAdd
    for Int<T, BITS, U> {
    ghost saturating_add_gives = { λ a b r. r ≡ clamp T.SIGNED BITS (a +ℤ b) };

    fn saturating_add(&self, v: &Int<T, BITS, U>) -> Int<T, BITS, U>
        ensures value { result ≡ clamp T.SIGNED BITS (self.now +ℤ v.now) }
        ensures exact { InRange T.SIGNED BITS (self.now +ℤ v.now) → result ≡ self.now +ℤ v.now }
        ensures above { hi T.SIGNED BITS <ℤ (self.now +ℤ v.now) → result ≡ hi T.SIGNED BITS }
        ensures below { (self.now +ℤ v.now) <ℤ lo T.SIGNED BITS → result ≡ lo T.SIGNED BITS }
        ensures result_in_range { InRange T.SIGNED BITS result }
        ensures self_in_range { InRange T.SIGNED BITS self.now }
        ensures v_in_range { InRange T.SIGNED BITS v.now }
    {
        Int::<T, BITS, U>::new(saturating::add(self.value(), v.value(), BITS))
    }

    ghost saturating_add_law = { λ a b r. saturates T.SIGNED BITS T.WIDTH (a +ℤ b) r T.valid_law };
}

impl<T: SignedStorage + HasWidth<BITS>, const BITS: usize, U: UnsignedOf<T>> SaturatingSub
    for Int<T, BITS, U> {
    ghost saturating_sub_gives = { λ a b r. r ≡ clamp T.SIGNED BITS (a -ℤ b) };

    fn saturating_sub(&self, v: &Int<T, BITS, U>) -> Int<T, BITS, U>
        ensures value { result ≡ clamp T.SIGNED BITS (self.now -ℤ v.now) }
        ensures exact { InRange T.SIGNED BITS (self.now -ℤ v.now) → result ≡ self.now -ℤ v.now }
        ensures above { hi T.SIGNED BITS <ℤ (self.now -ℤ v.now) → result ≡ hi T.SIGNED BITS }
        ensures below { (self.now -ℤ v.now) <ℤ lo T.SIGNED BITS → result ≡ lo T.SIGNED BITS }
        ensures result_in_range { InRange T.SIGNED BITS result }
        ensures self_in_range { InRange T.SIGNED BITS self.now }
        ensures v_in_range { InRange T.SIGNED BITS v.now }
    {
        Int::<T, BITS, U>::new(saturating::sub(self.value(), v.value(), BITS))
    }

    ghost saturating_sub_law = { λ a b r. saturates T.SIGNED BITS T.WIDTH (a -ℤ b) r T.valid_law };
}

impl<T: SignedStorage + HasWidth<BITS>, const BITS: usize, U: UnsignedOf<T>> Default
    for Int<T, BITS, U> {
    ghost is_default = { λ x. x ≡ pos 0 };

    fn default() -> Int<T, BITS, U> {
        Int::<T, BITS, U>::new(from_low_bits(0, BITS))
    }
}

impl<T: SignedStorage + HasWidth<BITS>, const BITS: usize, U: UnsignedOf<T>> Zero
    for Int<T, BITS, U> {
    ghost zero = { pos 0 };

    fn zero() -> Int<T, BITS, U> {
        Int::<T, BITS, U>::default()
    }

    fn is_zero(&self) -> bool {
        is_zero(&self.value())
    }

    ghost zero_law = { λ _. refl };

    ghost zero_fits_law = { λ _. wrap-zero T.SIGNED BITS (T.valid_law.0) };

    ghost can_add_law = { λ a b h _ _.
        in_range-of_wrap T.SIGNED BITS (a +ℤ b) (T.valid_law.0) (h tt) };

    ghost add_law = { λ a b r h _ _. h.0 };
}
