//! The constants of `UInt`, in each storage. `signed` has those of `Int`.

ghost use Rattle.std.specs.Prelude.{◌-◌, ◌^◌, pos, false, refl};
ghost use Rattle.std.proofs.Math.Nat.{sub-add_cancel};
ghost use Rattle.std.proofs.lemmas.Nat.{pow_pos};
ghost use Rattle.arbitrary_base.specs.Range.{lo, hi};
ghost use Rattle.arbitrary_base.proofs.modular.Truncation.{low_mask-number};

use crate::constants::Constants;
use arbitrary_base::truncation::low_mask;
use arbitrary_core::unsigned::UInt;
use arbitrary_widths::HasWidth;

impl<const BITS: usize> Constants for UInt<u8, BITS>
where
    u8: HasWidth<BITS>,
{
    ghost ZERO = { pos 0 };

    ghost MIN = { lo false BITS };

    ghost MAX = { hi false BITS };

    ghost MASK = { 2 ^ BITS - 1 };

    const ZERO: UInt<u8, BITS> = UInt::<u8, BITS>::new(0);

    const MIN: UInt<u8, BITS> = UInt::<u8, BITS>::new(0);

    const MAX: UInt<u8, BITS> = UInt::<u8, BITS>::new(low_mask(BITS) as u8);

    const MASK: u8 = low_mask(BITS) as u8;

    ghost zero_law = { refl };

    ghost min_law = { refl };

    ghost max_law = { refl };

    ghost mask_law = { λ _. low_mask-number BITS (2 ^ BITS - 1) (sub-add_cancel (pow_pos BITS)) };
}

impl<const BITS: usize> Constants for UInt<u16, BITS>
where
    u16: HasWidth<BITS>,
{
    ghost ZERO = { pos 0 };

    ghost MIN = { lo false BITS };

    ghost MAX = { hi false BITS };

    ghost MASK = { 2 ^ BITS - 1 };

    const ZERO: UInt<u16, BITS> = UInt::<u16, BITS>::new(0);

    const MIN: UInt<u16, BITS> = UInt::<u16, BITS>::new(0);

    const MAX: UInt<u16, BITS> = UInt::<u16, BITS>::new(low_mask(BITS) as u16);

    const MASK: u16 = low_mask(BITS) as u16;

    ghost zero_law = { refl };

    ghost min_law = { refl };

    ghost max_law = { refl };

    ghost mask_law = { λ _. low_mask-number BITS (2 ^ BITS - 1) (sub-add_cancel (pow_pos BITS)) };
}

impl<const BITS: usize> Constants for UInt<u32, BITS>
where
    u32: HasWidth<BITS>,
{
    ghost ZERO = { pos 0 };

    ghost MIN = { lo false BITS };

    ghost MAX = { hi false BITS };

    ghost MASK = { 2 ^ BITS - 1 };

    const ZERO: UInt<u32, BITS> = UInt::<u32, BITS>::new(0);

    const MIN: UInt<u32, BITS> = UInt::<u32, BITS>::new(0);

    const MAX: UInt<u32, BITS> = UInt::<u32, BITS>::new(low_mask(BITS) as u32);

    const MASK: u32 = low_mask(BITS) as u32;

    ghost zero_law = { refl };

    ghost min_law = { refl };

    ghost max_law = { refl };

    ghost mask_law = { λ _. low_mask-number BITS (2 ^ BITS - 1) (sub-add_cancel (pow_pos BITS)) };
}

impl<const BITS: usize> Constants for UInt<u64, BITS>
where
    u64: HasWidth<BITS>,
{
    ghost ZERO = { pos 0 };

    ghost MIN = { lo false BITS };

    ghost MAX = { hi false BITS };

    ghost MASK = { 2 ^ BITS - 1 };

    const ZERO: UInt<u64, BITS> = UInt::<u64, BITS>::new(0);

    const MIN: UInt<u64, BITS> = UInt::<u64, BITS>::new(0);

    const MAX: UInt<u64, BITS> = UInt::<u64, BITS>::new(low_mask(BITS) as u64);

    const MASK: u64 = low_mask(BITS) as u64;

    ghost zero_law = { refl };

    ghost min_law = { refl };

    ghost max_law = { refl };

    ghost mask_law = { λ _. low_mask-number BITS (2 ^ BITS - 1) (sub-add_cancel (pow_pos BITS)) };
}

impl<const BITS: usize> Constants for UInt<u128, BITS>
where
    u128: HasWidth<BITS>,
{
    ghost ZERO = { pos 0 };

    ghost MIN = { lo false BITS };

    ghost MAX = { hi false BITS };

    ghost MASK = { 2 ^ BITS - 1 };

    const ZERO: UInt<u128, BITS> = UInt::<u128, BITS>::new(0);

    const MIN: UInt<u128, BITS> = UInt::<u128, BITS>::new(0);

    const MAX: UInt<u128, BITS> = UInt::<u128, BITS>::new(low_mask(BITS));

    const MASK: u128 = low_mask(BITS);

    ghost zero_law = { refl };

    ghost min_law = { refl };

    ghost max_law = { refl };

    ghost mask_law = { λ _. low_mask-number BITS (2 ^ BITS - 1) (sub-add_cancel (pow_pos BITS)) };
}
