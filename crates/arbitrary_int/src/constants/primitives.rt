//! The constants of the primitives.

ghost use Rattle.std.specs.Prelude.{neg_ℤ, pos, true, refl};
ghost use Rattle.std.proofs.Common.{true≢false};
ghost use Rattle.arbitrary_base.specs.Range.{lo, hi};

use crate::constants::Constants;

impl Constants for u8 {
    ghost ZERO = { 0 };

    ghost MIN = { 0 };

    ghost MAX = { 255 };

    ghost MASK = { 255 };

    const ZERO: u8 = 0;

    const MIN: u8 = u8::MIN;

    const MAX: u8 = u8::MAX;

    const MASK: u8 = u8::MAX;

    ghost zero_law = { refl };

    ghost min_law = { refl };

    ghost max_law = { refl };

    ghost mask_law = { λ _. refl };
}

impl Constants for u16 {
    ghost ZERO = { 0 };

    ghost MIN = { 0 };

    ghost MAX = { 65535 };

    ghost MASK = { 65535 };

    const ZERO: u16 = 0;

    const MIN: u16 = u16::MIN;

    const MAX: u16 = u16::MAX;

    const MASK: u16 = u16::MAX;

    ghost zero_law = { refl };

    ghost min_law = { refl };

    ghost max_law = { refl };

    ghost mask_law = { λ _. refl };
}

impl Constants for u32 {
    ghost ZERO = { 0 };

    ghost MIN = { 0 };

    ghost MAX = { 4294967295 };

    ghost MASK = { 4294967295 };

    const ZERO: u32 = 0;

    const MIN: u32 = u32::MIN;

    const MAX: u32 = u32::MAX;

    const MASK: u32 = u32::MAX;

    ghost zero_law = { refl };

    ghost min_law = { refl };

    ghost max_law = { refl };

    ghost mask_law = { λ _. refl };
}

impl Constants for u64 {
    ghost ZERO = { 0 };

    ghost MIN = { 0 };

    ghost MAX = { 18446744073709551615 };

    ghost MASK = { 18446744073709551615 };

    const ZERO: u64 = 0;

    const MIN: u64 = u64::MIN;

    const MAX: u64 = u64::MAX;

    const MASK: u64 = u64::MAX;

    ghost zero_law = { refl };

    ghost min_law = { refl };

    ghost max_law = { refl };

    ghost mask_law = { λ _. refl };
}

impl Constants for u128 {
    ghost ZERO = { 0 };

    ghost MIN = { 0 };

    ghost MAX = { 340282366920938463463374607431768211455 };

    ghost MASK = { 340282366920938463463374607431768211455 };

    const ZERO: u128 = 0;

    const MIN: u128 = u128::MIN;

    const MAX: u128 = u128::MAX;

    const MASK: u128 = u128::MAX;

    ghost zero_law = { refl };

    ghost min_law = { refl };

    ghost max_law = { refl };

    ghost mask_law = { λ _. refl };
}

impl Constants for i8 {
    ghost ZERO = { pos 0 };

    ghost MIN = { lo true 8 };

    ghost MAX = { hi true 8 };

    ghost MASK = { neg_ℤ (pos 1) };

    const ZERO: i8 = 0;

    const MIN: i8 = i8::MIN;

    const MAX: i8 = i8::MAX;

    const MASK: i8 = -1;

    ghost zero_law = { refl };

    ghost min_law = { refl };

    ghost max_law = { refl };

    ghost mask_law = { λ h. absurd (true≢false h) };
}

impl Constants for i16 {
    ghost ZERO = { pos 0 };

    ghost MIN = { lo true 16 };

    ghost MAX = { hi true 16 };

    ghost MASK = { neg_ℤ (pos 1) };

    const ZERO: i16 = 0;

    const MIN: i16 = i16::MIN;

    const MAX: i16 = i16::MAX;

    const MASK: i16 = -1;

    ghost zero_law = { refl };

    ghost min_law = { refl };

    ghost max_law = { refl };

    ghost mask_law = { λ h. absurd (true≢false h) };
}

impl Constants for i32 {
    ghost ZERO = { pos 0 };

    ghost MIN = { lo true 32 };

    ghost MAX = { hi true 32 };

    ghost MASK = { neg_ℤ (pos 1) };

    const ZERO: i32 = 0;

    const MIN: i32 = i32::MIN;

    const MAX: i32 = i32::MAX;

    const MASK: i32 = -1;

    ghost zero_law = { refl };

    ghost min_law = { refl };

    ghost max_law = { refl };

    ghost mask_law = { λ h. absurd (true≢false h) };
}

impl Constants for i64 {
    ghost ZERO = { pos 0 };

    ghost MIN = { lo true 64 };

    ghost MAX = { hi true 64 };

    ghost MASK = { neg_ℤ (pos 1) };

    const ZERO: i64 = 0;

    const MIN: i64 = i64::MIN;

    const MAX: i64 = i64::MAX;

    const MASK: i64 = -1;

    ghost zero_law = { refl };

    ghost min_law = { refl };

    ghost max_law = { refl };

    ghost mask_law = { λ h. absurd (true≢false h) };
}

impl Constants for i128 {
    ghost ZERO = { pos 0 };

    ghost MIN = { lo true 128 };

    ghost MAX = { hi true 128 };

    ghost MASK = { neg_ℤ (pos 1) };

    const ZERO: i128 = 0;

    const MIN: i128 = i128::MIN;

    const MAX: i128 = i128::MAX;

    const MASK: i128 = -1;

    ghost zero_law = { refl };

    ghost min_law = { refl };

    ghost max_law = { refl };

    ghost mask_law = { λ h. absurd (true≢false h) };
}
