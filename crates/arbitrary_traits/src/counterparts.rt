//! The unsigned and the signed type of one width, and how their numbers relate.

ghost use Rattle.std.specs.Prelude.{◌≡◌};
ghost use Rattle.std.proofs.Common.{refl};

use crate::integer::{Integer, SignedInteger, UnsignedInteger};

/// The unsigned type of the same width as `S`, to which `to_unsigned` of `S` converts. Generic code
/// requires it by `S::UnsignedInteger: UnsignedCounterpart<S>`.
pub trait UnsignedCounterpart<S: Integer<UnsignedInteger = Self>>: UnsignedInteger {
    ghost width_law: { Self.BITS ≡ S.BITS };

    ghost number_law: { (x : Self) → S.unsigned_number x ≡ Self.number x };
}

/// The signed type of the same width as `S`. Generic code requires it by
/// `S::SignedInteger: SignedCounterpart<S>`.
pub trait SignedCounterpart<S: Integer<SignedInteger = Self>>: SignedInteger {
    ghost width_law: { Self.BITS ≡ S.BITS };
}

impl UnsignedCounterpart<u8> for u8 {
    ghost width_law = { refl };

    ghost number_law = { λ x. refl };
}

impl SignedCounterpart<u8> for i8 {
    ghost width_law = { refl };
}

impl UnsignedCounterpart<i8> for u8 {
    ghost width_law = { refl };

    ghost number_law = { λ x. refl };
}

impl SignedCounterpart<i8> for i8 {
    ghost width_law = { refl };
}

impl UnsignedCounterpart<u16> for u16 {
    ghost width_law = { refl };

    ghost number_law = { λ x. refl };
}

impl SignedCounterpart<u16> for i16 {
    ghost width_law = { refl };
}

impl UnsignedCounterpart<i16> for u16 {
    ghost width_law = { refl };

    ghost number_law = { λ x. refl };
}

impl SignedCounterpart<i16> for i16 {
    ghost width_law = { refl };
}

impl UnsignedCounterpart<u32> for u32 {
    ghost width_law = { refl };

    ghost number_law = { λ x. refl };
}

impl SignedCounterpart<u32> for i32 {
    ghost width_law = { refl };
}

impl UnsignedCounterpart<i32> for u32 {
    ghost width_law = { refl };

    ghost number_law = { λ x. refl };
}

impl SignedCounterpart<i32> for i32 {
    ghost width_law = { refl };
}

impl UnsignedCounterpart<u64> for u64 {
    ghost width_law = { refl };

    ghost number_law = { λ x. refl };
}

impl SignedCounterpart<u64> for i64 {
    ghost width_law = { refl };
}

impl UnsignedCounterpart<i64> for u64 {
    ghost width_law = { refl };

    ghost number_law = { λ x. refl };
}

impl SignedCounterpart<i64> for i64 {
    ghost width_law = { refl };
}

impl UnsignedCounterpart<u128> for u128 {
    ghost width_law = { refl };

    ghost number_law = { λ x. refl };
}

impl SignedCounterpart<u128> for i128 {
    ghost width_law = { refl };
}

impl UnsignedCounterpart<i128> for u128 {
    ghost width_law = { refl };

    ghost number_law = { λ x. refl };
}

impl SignedCounterpart<i128> for i128 {
    ghost width_law = { refl };
}
