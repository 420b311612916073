//! `UInt`: unsigned integers of any width. `signed` has `Int`.

ghost use Rattle.std.specs.Prelude.{◌≡◌, ◌↔◌, ◌<◌, ◌≤◌, ◌+◌, ◌/◌, ◌%◌, ◌-ℤ◌, ◌^◌, pos, unsigned_abs, IsTrue, MatchResult, ⊤, neg_ℤ, take, drop};
ghost use Rattle.std.specs.Int.{IsInRange};
ghost use Rattle.arbitrary_base.specs.Range.{InRange};
ghost use Rattle.arbitrary_base.specs.Residue.{wrap, Congruent};
ghost use Rattle.arbitrary_base.specs.Operation.{wrapped_difference};
ghost use Rattle.arbitrary_base.specs.BitList.{bits, val};

use arbitrary_base::error::TryNewError;
use arbitrary_base::storage::UnsignedStorage;
use arbitrary_base::truncation::{cast, is_in_range, low_mask};
use arbitrary_base::{extraction, wrapping};
use std::alloc::AllocError;
use std::marker::Model;

/// An unsigned integer of `BITS` bits, stored in the primitive `T`: a number from 0 to
/// `2 ^ BITS - 1`.
///
/// In contracts a value is its number. Every value has a valid width, from 1 to the width of `T`,
/// and a number in range.
pub struct UInt<T: UnsignedStorage, const BITS: usize> {
    value: T,
}

impl<T: UnsignedStorage, const BITS: usize> Model for UInt<T, BITS> {
    ghost use Rattle.std.specs.Prelude.{ℤ};
    ghost use Rattle.std.specs.Int.{IsInRange};
    ghost use Rattle.std.proofs.Common.{ap};
    ghost use Rattle.arbitrary_base.specs.Range.{InRange};

    ghost Value = { ℤ };

    ghost view = { λ a. T.number a.value };

    ghost invariant = { λ a. IsInRange 1 T.WIDTH BITS × InRange T.SIGNED BITS (T.number a.value) };

    ghost inverse = { λ x. record { value = T.of_number x } };

    ghost inverse_ok = { λ a h. ap (λ v. record { value = v }) (T.round_trip_law a.value) };
}

impl<T: UnsignedStorage, const BITS: usize> Copy for UInt<T, BITS> {}

impl<T: UnsignedStorage, const BITS: usize> Clone for UInt<T, BITS> {
    ghost is_clone = { λ x y. y ≡ x };

    ghost is_infallible = { λ _. ⊤ };

    fn clone(&self) -> Result<Self, AllocError> {
        Ok(*self)
    }
}

impl<T: UnsignedStorage, const BITS: usize> UInt<T, BITS> {
    /// Whether the width is valid: from 1 to the width of the storage.
    pub fn is_valid_width() -> bool
        ensures { IsTrue result ↔ IsInRange 1 T.WIDTH BITS }
    {
        1 <= BITS && BITS <= T::WIDTH
    }

    /// The value with this number, which must be in range: `try_new` tests it. Requires a valid
    /// width, which `is_valid_width` tests.
    pub const fn new(value: T) -> Self
        requires width { IsInRange 1 T.WIDTH BITS }
        requires value_in_range { InRange T.SIGNED BITS (T.number value) }
        ensures { result ≡ T.number value }
    {
        UInt { value }
    }

    /// The same as `new`. The call of this name in the Rust crate is unsafe; this one has the
    /// conditions of `new`.
    pub fn new_unchecked(value: T) -> Self
        requires width { IsInRange 1 T.WIDTH BITS }
        requires value_in_range { InRange T.SIGNED BITS (T.number value) }
        ensures { result ≡ T.number value }
    {
        UInt::new(value)
    }

    /// The value with this number, or an error exactly if it is out of range. Requires a valid
    /// width.
    pub fn try_new(value: T) -> Result<Self, TryNewError>
        requires width { IsInRange 1 T.WIDTH BITS }
        ensures { MatchResult result
            (λ x. InRange T.SIGNED BITS (T.number value) × (x ≡ T.number value))
            (λ _. ¬ (InRange T.SIGNED BITS (T.number value))) }
    {
        if is_in_range(value, BITS) {
            Ok(UInt::new(value))
        } else {
            Err(TryNewError)
        }
    }

    /// The storage's value whose low `BITS` bits are one and whose other bits are zero. Requires a
    /// valid width.
    pub fn mask() -> T
        requires width { IsInRange 1 T.WIDTH BITS }
        ensures value { T.number result ≡ wrap T.SIGNED T.WIDTH (pos (2 ^ BITS) -ℤ pos 1) }
        ensures plain { T.number result ≡ pos (2 ^ BITS) -ℤ pos 1 }
    {
        T::from_pattern(low_mask(BITS))
    }

    /// The number, in the storage.
    pub fn value(self) -> T
        ensures number { T.number result ≡ self }
        ensures width { IsInRange 1 T.WIDTH BITS }
        ensures self_in_range { InRange T.SIGNED BITS self }
    {
        self.value
    }

    /// The same number at more bits of the same storage. Requires that `R` is above `BITS` and at
    /// most the width of the storage.
    pub fn widen<const R: usize>(self) -> UInt<T, R>
        requires above { BITS < R }
        requires width { R ≤ T.WIDTH }
        ensures { result ≡ self }
    {
        UInt {
            value: self.value(),
        }
    }

    /// The value of the `BITS` bits of `value` from bit `start_bit` on. Requires a valid width, and
    /// that `value` has all of these bits. It is deprecated: `extract_u8` to `extract_u128` name
    /// the width of the source.
    pub fn extract(value: T, start_bit: usize) -> Self
        requires width { IsInRange 1 T.WIDTH BITS }
        requires within { start_bit + BITS ≤ T.WIDTH }
        ensures value { let list = bits T.WIDTH (T.number value) in
            result ≡ val T.SIGNED (take BITS (drop start_bit list)) }
        ensures plain { let number = T.number value in
            let quotient = unsigned_abs number / 2 ^ start_bit in
            InRange T.SIGNED T.WIDTH number → result ≡ pos (quotient % 2 ^ BITS) }
    {
        UInt::new(extraction::extract(value, start_bit, BITS))
    }

    /// The value with the number of this `u8`, which must be in range. Requires a valid width.
    pub fn from_u8(value: u8) -> Self
        requires width { IsInRange 1 T.WIDTH BITS }
        requires value_in_range { InRange T.SIGNED BITS (pos value) }
        ensures { result ≡ pos value }
    {
        UInt::new(cast(value, BITS))
    }

    /// The value with the number of this `u16`, which must be in range. Requires a valid width.
    pub fn from_u16(value: u16) -> Self
        requires width { IsInRange 1 T.WIDTH BITS }
        requires value_in_range { InRange T.SIGNED BITS (pos value) }
        ensures { result ≡ pos value }
    {
        UInt::new(cast(value, BITS))
    }

    /// The value with the number of this `u32`, which must be in range. Requires a valid width.
    pub fn from_u32(value: u32) -> Self
        requires width { IsInRange 1 T.WIDTH BITS }
        requires value_in_range { InRange T.SIGNED BITS (pos value) }
        ensures { result ≡ pos value }
    {
        UInt::new(cast(value, BITS))
    }

    /// The value with the number of this `u64`, which must be in range. Requires a valid width.
    pub fn from_u64(value: u64) -> Self
        requires width { IsInRange 1 T.WIDTH BITS }
        requires value_in_range { InRange T.SIGNED BITS (pos value) }
        ensures { result ≡ pos value }
    {
        UInt::new(cast(value, BITS))
    }

    /// The value with the number of this `u128`, which must be in range. Requires a valid width.
    pub fn from_u128(value: u128) -> Self
        requires width { IsInRange 1 T.WIDTH BITS }
        requires value_in_range { InRange T.SIGNED BITS (pos value) }
        ensures { result ≡ pos value }
    {
        UInt::new(cast(value, BITS))
    }

    /// The negated number, wrapped.
    pub fn wrapping_neg(self) -> Self
        ensures value { result ≡ wrap T.SIGNED BITS (neg_ℤ self) }
        ensures exact { InRange T.SIGNED BITS (neg_ℤ self) → result ≡ neg_ℤ self }
        ensures congruent { Congruent BITS result (neg_ℤ self) }
        ensures operation { result ≡ wrapped_difference T.SIGNED BITS (pos 0) self }
        ensures undo { wrapped_difference T.SIGNED BITS (pos 0) result ≡ self }
    {
        UInt::new(wrapping::neg(self.value(), BITS))
    }
}
