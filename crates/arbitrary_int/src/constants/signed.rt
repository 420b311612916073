//! The constants of `Int`, in each storage. `unsigned` has those of `UInt`.

ghost use Rattle.std.specs.Prelude.{◌≡◌, ◌+ℤ◌, ◌-ℤ◌, ◌≤ℤ◌, ◌-◌, ◌^◌, neg_ℤ, nat_eq, if◌then◌else◌, pos, true, refl};
ghost use Rattle.std.proofs.Common.{true≢false};
ghost use Rattle.std.specs.Int.{IsInRange};
ghost use Rattle.arbitrary_base.specs.Range.{lo, hi};

use crate::constants::Constants;
use arbitrary_base::storage::{SignedStorage, UnsignedOf};
use arbitrary_base::truncation::low_mask;
use arbitrary_core::signed::Int;
use arbitrary_widths::HasWidth;

/// The number with these bits: 0, the least or the greatest number.
const fn of_bits<T: SignedStorage, const BITS: usize, U: UnsignedOf<T>>(bits: U) -> Int<T, BITS, U>
    requires width { IsInRange 1 T.WIDTH BITS }
    requires low { pos 0 ≤ℤ U.number bits }
    requires high { U.number bits ≤ℤ pos (2 ^ (BITS - 1)) }
    ensures zero { U.number bits ≡ pos 0 → result ≡ pos 0 }
    ensures least { U.number bits ≡ pos (2 ^ (BITS - 1)) → result ≡ lo true BITS }
    ensures greatest { U.number bits +ℤ pos 1 ≡ pos (2 ^ (BITS - 1)) → result ≡ hi true BITS }
{
    Int::<T, BITS, U>::from_bits(bits)
}

impl<const BITS: usize> Constants for Int<i8, BITS>
where
    i8: HasWidth<BITS>,
{
    ghost ZERO = { pos 0 };

    ghost MIN = { lo true BITS };

    ghost MAX = { hi true BITS };

    ghost MASK = { if nat_eq BITS 8 then neg_ℤ (pos 1) else pos (2 ^ BITS) -ℤ pos 1 };

    const ZERO: Int<i8, BITS> = of_bits::<i8, BITS, u8>(0);

    const MIN: Int<i8, BITS> = of_bits::<i8, BITS, u8>(low_mask(BITS - 1) as u8 + 1);

    const MAX: Int<i8, BITS> = of_bits::<i8, BITS, u8>(low_mask(BITS - 1) as u8);

    const MASK: i8 = if BITS == 8 { -1 } else { low_mask(BITS) as i8 };

    ghost zero_law = { refl };

    ghost min_law = { refl };

    ghost max_law = { refl };

    ghost mask_law = { λ h. absurd (true≢false h) };
}

impl<const BITS: usize> Constants for Int<i16, BITS>
where
    i16: HasWidth<BITS>,
{
    ghost ZERO = { pos 0 };

    ghost MIN = { lo true BITS };

    ghost MAX = { hi true BITS };

    ghost MASK = { if nat_eq BITS 16 then neg_ℤ (pos 1) else pos (2 ^ BITS) -ℤ pos 1 };

    const ZERO: Int<i16, BITS> = of_bits::<i16, BITS, u16>(0);

    const MIN: Int<i16, BITS> = of_bits::<i16, BITS, u16>(low_mask(BITS - 1) as u16 + 1);

    const MAX: Int<i16, BITS> = of_bits::<i16, BITS, u16>(low_mask(BITS - 1) as u16);

    const MASK: i16 = if BITS == 16 {
        -1
    } else {
        low_mask(BITS) as i16
    };

    ghost zero_law = { refl };

    ghost min_law = { refl };

    ghost max_law = { refl };

    ghost mask_law = { λ h. absurd (true≢false h) };
}

impl<const BITS: usize> Constants for Int<i32, BITS>
where
    i32: HasWidth<BITS>,
{
    ghost ZERO = { pos 0 };

    ghost MIN = { lo true BITS };

    ghost MAX = { hi true BITS };

    ghost MASK = { if nat_eq BITS 32 then neg_ℤ (pos 1) else pos (2 ^ BITS) -ℤ pos 1 };

    const ZERO: Int<i32, BITS> = of_bits::<i32, BITS, u32>(0);

    const MIN: Int<i32, BITS> = of_bits::<i32, BITS, u32>(low_mask(BITS - 1) as u32 + 1);

    const MAX: Int<i32, BITS> = of_bits::<i32, BITS, u32>(low_mask(BITS - 1) as u32);

    const MASK: i32 = if BITS == 32 {
        -1
    } else {
        low_mask(BITS) as i32
    };

    ghost zero_law = { refl };

    ghost min_law = { refl };

    ghost max_law = { refl };

    ghost mask_law = { λ h. absurd (true≢false h) };
}

impl<const BITS: usize> Constants for Int<i64, BITS>
where
    i64: HasWidth<BITS>,
{
    ghost ZERO = { pos 0 };

    ghost MIN = { lo true BITS };

    ghost MAX = { hi true BITS };

    ghost MASK = { if nat_eq BITS 64 then neg_ℤ (pos 1) else pos (2 ^ BITS) -ℤ pos 1 };

    const ZERO: Int<i64, BITS> = of_bits::<i64, BITS, u64>(0);

    const MIN: Int<i64, BITS> = of_bits::<i64, BITS, u64>(low_mask(BITS - 1) as u64 + 1);

    const MAX: Int<i64, BITS> = of_bits::<i64, BITS, u64>(low_mask(BITS - 1) as u64);

    const MASK: i64 = if BITS == 64 {
        -1
    } else {
        low_mask(BITS) as i64
    };

    ghost zero_law = { refl };

    ghost min_law = { refl };

    ghost max_law = { refl };

    ghost mask_law = { λ h. absurd (true≢false h) };
}

impl<const BITS: usize> Constants for Int<i128, BITS>
where
    i128: HasWidth<BITS>,
{
    ghost ZERO = { pos 0 };

    ghost MIN = { lo true BITS };

    ghost MAX = { hi true BITS };

    ghost MASK = { if nat_eq BITS 128 then neg_ℤ (pos 1) else pos (2 ^ BITS) -ℤ pos 1 };

    const ZERO: Int<i128, BITS> = of_bits::<i128, BITS, u128>(0);

    const MIN: Int<i128, BITS> = of_bits::<i128, BITS, u128>(1 << (BITS - 1));

    const MAX: Int<i128, BITS> = of_bits::<i128, BITS, u128>(low_mask(BITS - 1));

    const MASK: i128 = if BITS == 128 {
        -1
    } else {
        low_mask(BITS) as i128
    };

    ghost zero_law = { refl };

    ghost min_law = { refl };

    ghost max_law = { refl };

    ghost mask_law = { λ h. absurd (true≢false h) };
}
