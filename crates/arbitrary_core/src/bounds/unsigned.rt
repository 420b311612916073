//! The traits of `num_traits` that need the ends of the range, and std's `Default`, for `UInt`.

ghost use Rattle.std.specs.Prelude.{◌≡◌, ◌<ℤ◌, ◌+ℤ◌, ◌-ℤ◌, pos, refl};
ghost use Rattle.arbitrary_base.specs.Range.{lo, hi, InRange};
ghost use Rattle.arbitrary_base.specs.Saturating.{clamp};
ghost use Rattle.arbitrary_base.proofs.storages.CheckedSum.{in_range-of_wrap, wrap-zero};
ghost use Rattle.arbitrary_base.proofs.storages.RangeEnds.{bounds, low_fits, high_fits, saturates};

use crate::unsigned::UInt;
use arbitrary_base::ends::{highest, is_zero, lowest};
use arbitrary_base::saturating;
use arbitrary_base::storage::UnsignedStorage;
use arbitrary_base::truncation::from_low_bits;
use arbitrary_widths::HasWidth;
use num_traits::{Bounded, SaturatingAdd, SaturatingSub, Zero};

impl<T: UnsignedStorage + HasWidth<BITS>, const BITS: usize> Bounded for UInt<T, BITS> {
    ghost low = { lo T.SIGNED BITS };

    ghost high = { hi T.SIGNED BITS };

    ghost lowest = { lo T.SIGNED BITS };

    ghost highest = { hi T.SIGNED BITS };

    fn min_value() -> UInt<T, BITS> {
        UInt::<T, BITS>::new(lowest(BITS))
    }

    fn max_value() -> UInt<T, BITS> {
        UInt::<T, BITS>::new(highest(BITS))
    }

    ghost bounds_law = { λ x _. bounds T.SIGNED BITS T.WIDTH x T.valid_law };

    ghost low_fits_law = { λ _. low_fits T.SIGNED BITS T.WIDTH T.valid_law };

    ghost high_fits_law = { λ _. high_fits T.SIGNED BITS T.WIDTH T.valid_law };
}

impl<T: UnsignedStorage + HasWidth<BITS>, const BITS: usize> SaturatingAdd for UInt<T, BITS> {
    ghost saturating_add_gives = { λ a b r. r ≡ clamp T.SIGNED BITS (a +ℤ b) };

    fn saturating_add(&self, v: &UInt<T, BITS>) -> UInt<T, BITS>
        ensures value { result ≡ clamp T.SIGNED BITS (self.now +ℤ v.now) }
        ensures exact { InRange T.SIGNED BITS (self.now +ℤ v.now) → result ≡ self.now +ℤ v.now }
        ensures above { hi T.SIGNED BITS <ℤ (self.now +ℤ v.now) → result ≡ hi T.SIGNED BITS }
        ensures below { (self.now +ℤ v.now) <ℤ lo T.SIGNED BITS → result ≡ lo T.SIGNED BITS }
        ensures result_in_range { InRange T.SIGNED BITS result }
        ensures self_in_range { InRange T.SIGNED BITS self.now }
        ensures v_in_range { InRange T.SIGNED BITS v.now }
    {
        UInt::<T, BITS>::new(saturating::add(self.value(), v.value(), BITS))
    }

    ghost saturating_add_law = { λ a b r. saturates T.SIGNED BITS T.WIDTH (a +ℤ b) r T.valid_law };
}

impl<T: UnsignedStorage + HasWidth<BITS>, const BITS: usize> SaturatingSub for UInt<T, BITS> {
    ghost saturating_sub_gives = { λ a b r. r ≡ clamp T.SIGNED BITS (a -ℤ b) };

    fn saturating_sub(&self, v: &UInt<T, BITS>) -> UInt<T, BITS>
        ensures value { result ≡ clamp T.SIGNED BITS (self.now -ℤ v.now) }
        ensures exact { InRange T.SIGNED BITS (self.now -ℤ v.now) → result ≡ self.now -ℤ v.now }
        ensures above { hi T.SIGNED BITS <ℤ (self.now -ℤ v.now) → result ≡ hi T.SIGNED BITS }
        ensures below { (self.now -ℤ v.now) <ℤ lo T.SIGNED BITS → result ≡ lo T.SIGNED BITS }
        ensures result_in_range { InRange T.SIGNED BITS result }
        ensures self_in_range { InRange T.SIGNED BITS self.now }
        ensures v_in_range { InRange T.SIGNED BITS v.now }
    {
        UInt::<T, BITS>::new(saturating::sub(self.value(), v.value(), BITS))
    }

    ghost saturating_sub_law = { λ a b r. saturates T.SIGNED BITS T.WIDTH (a -ℤ b) r T.valid_law };
}

impl<T: UnsignedStorage + HasWidth<BITS>, const BITS: usize> Default for UInt<T, BITS> {
    ghost is_default = { λ x. x ≡ pos 0 };

    fn default() -> UInt<T, BITS> {
        UInt::<T, BITS>::new(from_low_bits(0, BITS))
    }
}

impl<T: UnsignedStorage + HasWidth<BITS>, const BITS: usize> Zero for UInt<T, BITS> {
    ghost zero = { pos 0 };

    fn zero() -> UInt<T, BITS> {
        UInt::<T, BITS>::default()
    }

    fn is_zero(&self) -> bool {
        is_zero(&self.value())
    }

    ghost zero_law = { λ _. refl };

    ghost zero_fits_law = { λ _. wrap-zero T.SIGNED BITS (T.valid_law.0) };

    ghost can_add_law = { λ a b h _ _.
        in_range-of_wrap T.SIGNED BITS (a +ℤ b) (T.valid_law.0) (h tt) };

    ghost add_law = { λ a b r h _ _. h.0 };
}
