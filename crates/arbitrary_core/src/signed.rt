//! `Int`: signed integers of any width, in two's complement. `unsigned` has `UInt`.

ghost use Rattle.std.specs.Prelude.{not, ◌≡◌, ◌↔◌, ◌<◌, ◌≤◌, ◌-ℤ◌, ◌<ℤ◌, ◌^◌, ℤ, pos, neg_ℤ, IsTrue, IfOk, MatchResult, ⊤, SomeIff, option_map};
ghost use Rattle.std.specs.Int.{IsInRange};
ghost use Rattle.arbitrary_base.specs.Range.{InRange, hi, in_range};
ghost use Rattle.arbitrary_base.specs.Residue.{residue, wrap, Congruent};
ghost use Rattle.arbitrary_base.specs.Operation.{wrapped_difference};
ghost use Rattle.arbitrary_base.specs.Saturating.{clamp};

use arbitrary_base::ends::{is_below_zero, is_zero};
use arbitrary_base::error::TryNewError;
use arbitrary_base::storage::{BuiltinInteger, SignedStorage, Storage, UnsignedOf};
use arbitrary_base::truncation::{cast, is_in_range, low_mask};
use arbitrary_base::{checked, overflowing, saturating, wrapping};
use std::alloc::AllocError;
use std::marker::{Model, PhantomData};

/// A signed integer of `BITS` bits: a number from `-2 ^ (BITS - 1)` to `2 ^ (BITS - 1) - 1`, which
/// `value` returns in the primitive `T`. Write `Int<T, BITS>`: `U` is always the unsigned primitive
/// of the same width as `T`, which stores the bits. Only code for every storage names it.
///
/// In contracts a value is its number. Every value has a valid width, from 1 to the width of `T`,
/// and a number in range.
pub struct Int<
    T: SignedStorage,
    const BITS: usize,
    U: UnsignedOf<T> = <T as BuiltinInteger>::Unsigned,
> {
    bits: U,
    of: PhantomData<T>,
}

impl<T: SignedStorage, const BITS: usize, U: UnsignedOf<T>> Model for Int<T, BITS, U> {
    ghost use Rattle.std.specs.Prelude.{ℤ, ◌≡◌, pos};
    ghost use Rattle.std.specs.Int.{IsInRange};
    ghost use Rattle.std.proofs.Common.{ap, ◌∙◌};
    ghost use Rattle.arbitrary_base.specs.Range.{InRange};
    ghost use Rattle.arbitrary_base.specs.Residue.{residue, wrap};

    ghost Value = { ℤ };

    // The pattern, truncated to the width, in two's complement.
    ghost view = { λ a. wrap T.SIGNED BITS (U.number a.bits) };

    // The number is in range, and the bits are its pattern: the bits above the width are zero.
    ghost invariant = { λ a. let number = wrap T.SIGNED BITS (U.number a.bits) in
        IsInRange 1 T.WIDTH BITS × InRange T.SIGNED BITS number
        × (pos (residue BITS number) ≡ U.number a.bits) };

    ghost inverse = { λ x. record { bits = U.of_number (pos (residue BITS x)); of = record {} } };

    ghost inverse_ok = { λ a h. let same_bits = ap U.of_number h.2 ∙ U.round_trip_law a.bits in
        ap (λ v. record { bits = v; of = a.of }) same_bits };
}

impl<T: SignedStorage, const BITS: usize, U: UnsignedOf<T>> Copy for Int<T, BITS, U> {}

impl<T: SignedStorage, const BITS: usize, U: UnsignedOf<T>> Clone for Int<T, BITS, U> {
    ghost is_clone = { λ x y. y ≡ x };

    ghost is_infallible = { λ _. ⊤ };

    fn clone(&self) -> Result<Self, AllocError> {
        Ok(*self)
    }
}

impl<T: SignedStorage, const BITS: usize, U: UnsignedOf<T>> Int<T, BITS, U> {
    /// Whether the width is valid: from 1 to the width of the storage.
    pub fn is_valid_width() -> bool
        ensures { IsTrue result ↔ IsInRange 1 T.WIDTH BITS }
    {
        1 <= BITS && BITS <= T::WIDTH
    }

    /// The value with this number, which must be in range: `try_new` tests it. Requires a valid
    /// width, which `is_valid_width` tests.
    pub fn new(value: T) -> Self
        requires width { IsInRange 1 T.WIDTH BITS }
        requires value_in_range { InRange T.SIGNED BITS (T.number value) }
        ensures { result ≡ T.number value }
    {
        Int {
            bits: cast(value, BITS),
            of: PhantomData,
        }
    }

    /// The same as `new`. The call of this name in the Rust crate is unsafe; this one has the
    /// conditions of `new`.
    pub fn new_unchecked(value: T) -> Self
        requires width { IsInRange 1 T.WIDTH BITS }
        requires value_in_range { InRange T.SIGNED BITS (T.number value) }
        ensures { result ≡ T.number value }
    {
        Int::<T, BITS, U>::new(value)
    }

    /// The value with this number, or an error exactly if it is out of range. Requires a valid
    /// width.
    pub fn try_new(value: T) -> Result<Self, TryNewError>
        requires width { IsInRange 1 T.WIDTH BITS }
        ensures { MatchResult result
            (λ x. InRange T.SIGNED BITS (T.number value) × (x ≡ T.number value))
            (λ _. ¬ (InRange T.SIGNED BITS (T.number value))) }
    {
        if is_in_range(value, BITS) {
            Ok(Int::<T, BITS, U>::new(value))
        } else {
            Err(TryNewError)
        }
    }

    /// The storage's value whose low `BITS` bits are one and whose other bits are zero: -1 if
    /// `BITS` is the width of the storage. Requires a valid width.
    pub fn mask() -> T
        requires width { IsInRange 1 T.WIDTH BITS }
        ensures value { T.number result ≡ wrap T.SIGNED T.WIDTH (pos (2 ^ BITS) -ℤ pos 1) }
        ensures plain { BITS < T.WIDTH → T.number result ≡ pos (2 ^ BITS) -ℤ pos 1 }
    {
        T::from_pattern(low_mask(BITS))
    }

    /// The number, in the storage.
    pub fn value(self) -> T
        ensures number { T.number result ≡ self }
        ensures width { IsInRange 1 T.WIDTH BITS }
        ensures self_in_range { InRange T.SIGNED BITS self }
    {
        cast(self.bits, BITS)
    }

    /// The bits of the number: its residue modulo `2 ^ BITS`.
    pub fn to_bits(self) -> U
        ensures value { U.number result ≡ pos (residue BITS self) }
        ensures congruent { Congruent BITS (U.number result) self }
        ensures result_in_range { InRange U.SIGNED BITS (U.number result) }
        ensures self_in_range { InRange T.SIGNED BITS self }
        ensures width { IsInRange 1 T.WIDTH BITS }
    {
        self.bits
    }

    /// The value with these bits, which must be below `2 ^ BITS`: `try_from_bits` tests it.
    /// Requires a valid width.
    pub const fn from_bits(bits: U) -> Self
        requires width { IsInRange 1 T.WIDTH BITS }
        requires bits_in_range { InRange U.SIGNED BITS (U.number bits) }
        ensures bits { pos (residue BITS result) ≡ U.number bits }
        ensures number { result ≡ wrap T.SIGNED BITS (U.number bits) }
        ensures congruent { Congruent BITS result (U.number bits) }
    {
        Int {
            bits,
            of: PhantomData,
        }
    }

    /// The same as `from_bits`. The call of this name in the Rust crate is unsafe; this one has the
    /// conditions of `from_bits`.
    pub fn from_bits_unchecked(bits: U) -> Self
        requires width { IsInRange 1 T.WIDTH BITS }
        requires bits_in_range { InRange U.SIGNED BITS (U.number bits) }
        ensures bits { pos (residue BITS result) ≡ U.number bits }
        ensures number { result ≡ wrap T.SIGNED BITS (U.number bits) }
        ensures congruent { Congruent BITS result (U.number bits) }
    {
        Int::<T, BITS, U>::from_bits(bits)
    }

    /// The value with these bits, or an error exactly if they are `2 ^ BITS` or more. Requires a
    /// valid width.
    #[tactic(auto, using(arbitrary_base::proofs::modular::Truncation::patterns))]
    pub fn try_from_bits(bits: U) -> Result<Self, TryNewError>
        requires width { IsInRange 1 T.WIDTH BITS }
        ensures bits { let pattern = U.number bits in MatchResult result
            (λ x. InRange U.SIGNED BITS pattern × (pos (residue BITS x) ≡ pattern))
            (λ _. ¬ (InRange U.SIGNED BITS pattern)) }
        ensures number { IfOk result (λ x. x ≡ wrap T.SIGNED BITS (U.number bits)) }
        ensures congruent { IfOk result (λ x. Congruent BITS x (U.number bits)) }
    {
        if is_in_range(bits, BITS) {
            Ok(Int::<T, BITS, U>::from_bits(bits))
        } else {
            Err(TryNewError)
        }
    }

    /// Whether the number is above 0.
    pub fn is_positive(self) -> bool
        ensures { IsTrue result ↔ (pos 0 <ℤ self) }
    {
        let value = self.value();
        !is_below_zero(&value) && !is_zero(&value)
    }

    /// Whether the number is below 0.
    pub fn is_negative(self) -> bool
        ensures { IsTrue result ↔ (self <ℤ pos 0) }
    {
        is_below_zero(&self.value())
    }

    /// The negated number, wrapped.
    pub fn wrapping_neg(self) -> Self
        ensures value { result ≡ wrap T.SIGNED BITS (neg_ℤ self) }
        ensures exact { InRange T.SIGNED BITS (neg_ℤ self) → result ≡ neg_ℤ self }
        ensures congruent { Congruent BITS result (neg_ℤ self) }
        ensures operation { result ≡ wrapped_difference T.SIGNED BITS (pos 0) self }
        ensures undo { wrapped_difference T.SIGNED BITS (pos 0) result ≡ self }
    {
        Int::<T, BITS, U>::new(wrapping::neg(self.value(), BITS))
    }

    /// The negated number, or the greatest number if that is out of range.
    pub fn saturating_neg(self) -> Self
        ensures value { result ≡ clamp T.SIGNED BITS (neg_ℤ self) }
        ensures exact { InRange T.SIGNED BITS (neg_ℤ self) → result ≡ neg_ℤ self }
        ensures above { hi T.SIGNED BITS <ℤ neg_ℤ self → result ≡ hi T.SIGNED BITS }
    {
        Int::<T, BITS, U>::new(saturating::neg(self.value(), BITS))
    }

    /// The negated number, or `None` exactly for the least number.
    pub fn checked_neg(self) -> Option<Self>
        ensures { SomeIff result (InRange T.SIGNED BITS (neg_ℤ self)) (neg_ℤ self) }
    {
        match checked::neg(self.value(), BITS) {
            Some(negated) => Some(Int::<T, BITS, U>::new(negated)),
            None => None,
        }
    }

    /// The negated number, wrapped, and whether the exact number is out of range.
    pub fn overflowing_neg(self) -> (Self, bool)
        ensures operation { result.0 ≡ wrapped_difference T.SIGNED BITS (pos 0) self }
        ensures value { result.0 ≡ wrap T.SIGNED BITS (neg_ℤ self) }
        ensures overflow { IsTrue result.1 ↔ ¬ (InRange T.SIGNED BITS (neg_ℤ self)) }
        ensures flag { result.1 ≡ not (in_range T.SIGNED BITS (neg_ℤ self)) }
        ensures exact { InRange T.SIGNED BITS (neg_ℤ self) → result.0 ≡ neg_ℤ self }
        ensures congruent { Congruent BITS result.0 (neg_ℤ self) }
    {
        let (negated, overflow) = overflowing::neg(self.value(), BITS);
        (Int::<T, BITS, U>::new(negated), overflow)
    }

    /// The same number at more bits of the same storage. Requires that `R` is above `BITS` and at
    /// most the width of the storage.
    pub fn widen<const R: usize>(self) -> Int<T, R, U>
        requires above { BITS < R }
        requires width { R ≤ T.WIDTH }
        ensures { result ≡ self }
    {
        Int {
            bits: cast(self.value(), R),
            of: PhantomData,
        }
    }

    /// The value with the number of this `i8`, which must be in range. Requires a valid width.
    pub fn from_i8(value: i8) -> Self
        requires width { IsInRange 1 T.WIDTH BITS }
        requires value_in_range { InRange T.SIGNED BITS value }
        ensures { result ≡ value }
    {
        Int::<T, BITS, U>::new(cast(value, BITS))
    }

    /// The value with the number of this `i16`, which must be in range. Requires a valid width.
    pub fn from_i16(value: i16) -> Self
        requires width { IsInRange 1 T.WIDTH BITS }
        requires value_in_range { InRange T.SIGNED BITS value }
        ensures { result ≡ value }
    {
        Int::<T, BITS, U>::new(cast(value, BITS))
    }

    /// The value with the number of this `i32`, which must be in range. Requires a valid width.
    pub fn from_i32(value: i32) -> Self
        requires width { IsInRange 1 T.WIDTH BITS }
        requires value_in_range { InRange T.SIGNED BITS value }
        ensures { result ≡ value }
    {
        Int::<T, BITS, U>::new(cast(value, BITS))
    }

    /// The value with the number of this `i64`, which must be in range. Requires a valid width.
    pub fn from_i64(value: i64) -> Self
        requires width { IsInRange 1 T.WIDTH BITS }
        requires value_in_range { InRange T.SIGNED BITS value }
        ensures { result ≡ value }
    {
        Int::<T, BITS, U>::new(cast(value, BITS))
    }

    /// The value with the number of this `i128`, which must be in range. Requires a valid width.
    pub fn from_i128(value: i128) -> Self
        requires width { IsInRange 1 T.WIDTH BITS }
        requires value_in_range { InRange T.SIGNED BITS value }
        ensures { result ≡ value }
    {
        Int::<T, BITS, U>::new(cast(value, BITS))
    }
}
