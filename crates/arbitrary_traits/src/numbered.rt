//! The trait `Numbered`: the width, the sign and the number of a value, and conversions between any two such types,
//! each with one body. It has few parents, so the proof of a caller loads little. `Integer`, which has the
//! operators, requires it.

ghost use Rattle.std.specs.Prelude.{◌≡◌, ◌≤◌, ◌<◌, ◌%◌, ◌^◌, ◌||◌, ℕ, ℤ, Bool, true, false, pos, not, unsigned_abs};
ghost use Rattle.arbitrary_base.specs.Range.{InRange};
ghost use Rattle.arbitrary_base.specs.Residue.{residue, wrap, Congruent};

use arbitrary_base::storage::Sealed;

/// A type whose values are the numbers of a width: from 0 to `2 ^ BITS - 1`, or for a signed type
/// from `-2 ^ (BITS - 1)` to `2 ^ (BITS - 1) - 1`. A conversion keeps the number if it is in range,
/// and otherwise its low bits.
pub trait Numbered: Copy + Sealed {
    /// The width in bits.
    const BITS: usize;

    /// Whether the type has a sign.
    const IS_SIGNED: bool;

    ghost BITS: { ℕ };

    ghost IS_SIGNED: { Bool };

    // Whether the width is valid.
    ghost valid: { Type 0 };

    // The number of a value.
    ghost number: { Self → ℤ };

    /// The number's 128 bits: its residue modulo `2 ^ 128`.
    fn to_u128_bits(self) -> u128
        ensures value { result ≡ residue 128 (number self) }
        ensures plain { IS_SIGNED ≡ false → pos result ≡ number self }
        ensures self_in_range { InRange IS_SIGNED BITS (number self) }
        ensures width { valid };

    /// The number that is congruent to `pattern` modulo `2 ^ BITS`. Requires a valid width.
    fn from_u128_bits(pattern: u128) -> Self
        requires { valid }
        ensures value { number result ≡ wrap IS_SIGNED BITS (pos pattern) }
        ensures undo { (y : ℤ) → let low = residue 128 y in
            InRange IS_SIGNED BITS y → pattern ≡ low → number result ≡ y };

    /// The same number, of any other type, which must be in range of this one. Requires a valid
    /// width.
    final fn from_<T: Numbered>(value: T) -> Self
        requires width { valid }
        requires value_in_range { let given = T.number value in
            InRange T.IS_SIGNED T.BITS given → InRange IS_SIGNED BITS given }
        ensures value { number result ≡ T.number value }
        ensures value_in_range { InRange T.IS_SIGNED T.BITS (T.number value) }
    {
        Self::masked_new(value)
    }

    // Here and in `as_` to `as_isize`, premises on signs and widths select the equation. `congruent_to` is about each number to
    // which this one is congruent at its own width. In `as_u8` to `as_usize`, `congruent` is about every equal `y`, so that the
    // search does not use it where `low` is enough. In `as_u8` to `as_isize`, `congruent_to` requires an unsigned type:
    // otherwise the search would not compare a byte of a signed number.
    /// The number that is congruent to that of `value` modulo `2 ^ BITS`: high bits are dropped,
    /// and the sign is extended. Requires a valid width.
    final fn masked_new<T: Numbered>(value: T) -> Self
        requires { valid }
        ensures value { number result ≡ wrap IS_SIGNED BITS (T.number value) }
        ensures exact { InRange IS_SIGNED BITS (T.number value) → number result ≡ T.number value }
        ensures as_wide { T.IS_SIGNED ≡ IS_SIGNED → T.BITS ≤ BITS → number result ≡ T.number value }
        ensures wider { T.IS_SIGNED ≡ false → T.BITS < BITS → number result ≡ T.number value }
        ensures low { IS_SIGNED ≡ false → T.IS_SIGNED ≡ false → BITS ≤ T.BITS
            → number result ≡ pos (unsigned_abs (T.number value) % 2 ^ BITS) }
        ensures congruent { Congruent BITS (number result) (T.number value) }
        ensures congruent_to { (y : ℤ) → BITS ≤ T.BITS
            → Congruent T.BITS (T.number value) y → Congruent BITS (number result) y }
        ensures value_in_range { InRange T.IS_SIGNED T.BITS (T.number value) }
        ensures width { T.valid }
    {
        Self::from_u128_bits(value.to_u128_bits())
    }

    /// `T::masked_new` of the value. Requires a valid width of `T`.
    final fn as_<T: Numbered>(self) -> T
        requires { T.valid }
        ensures value { T.number result ≡ wrap T.IS_SIGNED T.BITS (number self) }
        ensures exact { InRange T.IS_SIGNED T.BITS (number self) → T.number result ≡ number self }
        ensures as_wide { IS_SIGNED ≡ T.IS_SIGNED → BITS ≤ T.BITS → T.number result ≡ number self }
        ensures wider { IS_SIGNED ≡ false → BITS < T.BITS → T.number result ≡ number self }
        ensures low { T.IS_SIGNED ≡ false → IS_SIGNED ≡ false → T.BITS ≤ BITS
            → T.number result ≡ pos (unsigned_abs (number self) % 2 ^ T.BITS) }
        ensures congruent { Congruent T.BITS (T.number result) (number self) }
        ensures congruent_to { (y : ℤ) → T.BITS ≤ BITS
            → Congruent BITS (number self) y → Congruent T.BITS (T.number result) y }
        ensures self_in_range { InRange IS_SIGNED BITS (number self) }
        ensures width { valid }
    {
        T::masked_new(self)
    }

    /// The low 8 bits, as an unsigned number.
    final fn as_u8(self) -> u8
        ensures value { pos result ≡ wrap false 8 (number self) }
        ensures exact { InRange false 8 (number self) → pos result ≡ number self }
        ensures wider { IS_SIGNED ≡ false → BITS ≤ 8 → pos result ≡ number self }
        ensures low { IS_SIGNED ≡ false → 8 < BITS → result ≡ unsigned_abs (number self) % 2 ^ 8 }
        ensures signed { IS_SIGNED ≡ true → Congruent 8 (pos result) (number self) }
        ensures congruent { (y : ℤ) → number self ≡ y → Congruent 8 (pos result) y }
        ensures congruent_to { (y : ℤ) → IS_SIGNED ≡ false → 8 ≤ BITS
            → Congruent BITS (number self) y → Congruent 8 (pos result) y }
        ensures self_in_range { InRange IS_SIGNED BITS (number self) }
        ensures width { valid }
    {
        self.as_::<u8>()
    }

    /// The low 16 bits, as an unsigned number.
    final fn as_u16(self) -> u16
        ensures value { pos result ≡ wrap false 16 (number self) }
        ensures exact { InRange false 16 (number self) → pos result ≡ number self }
        ensures wider { IS_SIGNED ≡ false → BITS ≤ 16 → pos result ≡ number self }
        ensures low { IS_SIGNED ≡ false → 16 < BITS → result ≡ unsigned_abs (number self) % 2 ^ 16 }
        ensures signed { IS_SIGNED ≡ true → Congruent 16 (pos result) (number self) }
        ensures congruent { (y : ℤ) → number self ≡ y → Congruent 16 (pos result) y }
        ensures congruent_to { (y : ℤ) → IS_SIGNED ≡ false → 16 ≤ BITS
            → Congruent BITS (number self) y → Congruent 16 (pos result) y }
        ensures self_in_range { InRange IS_SIGNED BITS (number self) }
        ensures width { valid }
    {
        self.as_::<u16>()
    }

    /// The low 32 bits, as an unsigned number.
    final fn as_u32(self) -> u32
        ensures value { pos result ≡ wrap false 32 (number self) }
        ensures exact { InRange false 32 (number self) → pos result ≡ number self }
        ensures wider { IS_SIGNED ≡ false → BITS ≤ 32 → pos result ≡ number self }
        ensures low { IS_SIGNED ≡ false → 32 < BITS → result ≡ unsigned_abs (number self) % 2 ^ 32 }
        ensures signed { IS_SIGNED ≡ true → Congruent 32 (pos result) (number self) }
        ensures congruent { (y : ℤ) → number self ≡ y → Congruent 32 (pos result) y }
        ensures congruent_to { (y : ℤ) → IS_SIGNED ≡ false → 32 ≤ BITS
            → Congruent BITS (number self) y → Congruent 32 (pos result) y }
        ensures self_in_range { InRange IS_SIGNED BITS (number self) }
        ensures width { valid }
    {
        self.as_::<u32>()
    }

    /// The low 64 bits, as an unsigned number.
    final fn as_u64(self) -> u64
        ensures value { pos result ≡ wrap false 64 (number self) }
        ensures exact { InRange false 64 (number self) → pos result ≡ number self }
        ensures wider { IS_SIGNED ≡ false → BITS ≤ 64 → pos result ≡ number self }
        ensures low { IS_SIGNED ≡ false → 64 < BITS → result ≡ unsigned_abs (number self) % 2 ^ 64 }
        ensures signed { IS_SIGNED ≡ true → Congruent 64 (pos result) (number self) }
        ensures congruent { (y : ℤ) → number self ≡ y → Congruent 64 (pos result) y }
        ensures congruent_to { (y : ℤ) → IS_SIGNED ≡ false → 64 ≤ BITS
            → Congruent BITS (number self) y → Congruent 64 (pos result) y }
        ensures self_in_range { InRange IS_SIGNED BITS (number self) }
        ensures width { valid }
    {
        self.as_::<u64>()
    }

    /// The low 128 bits, as an unsigned number.
    final fn as_u128(self) -> u128
        ensures value { pos result ≡ wrap false 128 (number self) }
        ensures exact { InRange false 128 (number self) → pos result ≡ number self }
        ensures wider { IS_SIGNED ≡ false → BITS ≤ 128 → pos result ≡ number self }
        ensures signed { IS_SIGNED ≡ true → Congruent 128 (pos result) (number self) }
        ensures congruent { (y : ℤ) → number self ≡ y → Congruent 128 (pos result) y }
        ensures congruent_to { (y : ℤ) → IS_SIGNED ≡ false → 128 ≤ BITS
            → Congruent BITS (number self) y → Congruent 128 (pos result) y }
        ensures self_in_range { InRange IS_SIGNED BITS (number self) }
        ensures width { valid }
    {
        self.as_::<u128>()
    }

    /// The low 64 bits, as an unsigned number.
    final fn as_usize(self) -> usize
        ensures value { pos result ≡ wrap false 64 (number self) }
        ensures exact { InRange false 64 (number self) → pos result ≡ number self }
        ensures wider { IS_SIGNED ≡ false → BITS ≤ 64 → pos result ≡ number self }
        ensures low { IS_SIGNED ≡ false → 64 < BITS → result ≡ unsigned_abs (number self) % 2 ^ 64 }
        ensures signed { IS_SIGNED ≡ true → Congruent 64 (pos result) (number self) }
        ensures congruent { (y : ℤ) → number self ≡ y → Congruent 64 (pos result) y }
        ensures congruent_to { (y : ℤ) → IS_SIGNED ≡ false → 64 ≤ BITS
            → Congruent BITS (number self) y → Congruent 64 (pos result) y }
        ensures self_in_range { InRange IS_SIGNED BITS (number self) }
        ensures width { valid }
    {
        self.as_u64() as usize
    }

    /// The low 8 bits, as a signed number.
    final fn as_i8(self) -> i8
        ensures value { result ≡ wrap true 8 (number self) }
        ensures exact { InRange true 8 (number self) → result ≡ number self }
        ensures wider { BITS < 8 → result ≡ number self }
        ensures as_wide { IS_SIGNED ≡ true → BITS ≤ 8 → result ≡ number self }
        ensures narrower { 8 ≤ BITS → Congruent 8 result (number self) }
        ensures congruent { Congruent 8 result (number self) }
        ensures congruent_to { (y : ℤ) → IS_SIGNED ≡ false → 8 ≤ BITS
            → Congruent BITS (number self) y → Congruent 8 result y }
        ensures self_in_range { InRange IS_SIGNED BITS (number self) }
        ensures width { valid }
    {
        self.as_::<i8>()
    }

    /// The low 16 bits, as a signed number.
    final fn as_i16(self) -> i16
        ensures value { result ≡ wrap true 16 (number self) }
        ensures exact { InRange true 16 (number self) → result ≡ number self }
        ensures wider { BITS < 16 → result ≡ number self }
        ensures as_wide { IS_SIGNED ≡ true → BITS ≤ 16 → result ≡ number self }
        ensures narrower { 16 ≤ BITS → Congruent 16 result (number self) }
        ensures congruent { Congruent 16 result (number self) }
        ensures congruent_to { (y : ℤ) → IS_SIGNED ≡ false → 16 ≤ BITS
            → Congruent BITS (number self) y → Congruent 16 result y }
        ensures self_in_range { InRange IS_SIGNED BITS (number self) }
        ensures width { valid }
    {
        self.as_::<i16>()
    }

    /// The low 32 bits, as a signed number.
    final fn as_i32(self) -> i32
        ensures value { result ≡ wrap true 32 (number self) }
        ensures exact { InRange true 32 (number self) → result ≡ number self }
        ensures wider { BITS < 32 → result ≡ number self }
        ensures as_wide { IS_SIGNED ≡ true → BITS ≤ 32 → result ≡ number self }
        ensures narrower { 32 ≤ BITS → Congruent 32 result (number self) }
        ensures congruent { Congruent 32 result (number self) }
        ensures congruent_to { (y : ℤ) → IS_SIGNED ≡ false → 32 ≤ BITS
            → Congruent BITS (number self) y → Congruent 32 result y }
        ensures self_in_range { InRange IS_SIGNED BITS (number self) }
        ensures width { valid }
    {
        self.as_::<i32>()
    }

    /// The low 64 bits, as a signed number.
    final fn as_i64(self) -> i64
        ensures value { result ≡ wrap true 64 (number self) }
        ensures exact { InRange true 64 (number self) → result ≡ number self }
        ensures wider { BITS < 64 → result ≡ number self }
        ensures as_wide { IS_SIGNED ≡ true → BITS ≤ 64 → result ≡ number self }
        ensures narrower { 64 ≤ BITS → Congruent 64 result (number self) }
        ensures congruent { Congruent 64 result (number self) }
        ensures congruent_to { (y : ℤ) → IS_SIGNED ≡ false → 64 ≤ BITS
            → Congruent BITS (number self) y → Congruent 64 result y }
        ensures self_in_range { InRange IS_SIGNED BITS (number self) }
        ensures width { valid }
    {
        self.as_::<i64>()
    }

    /// The low 128 bits, as a signed number.
    final fn as_i128(self) -> i128
        ensures value { result ≡ wrap true 128 (number self) }
        ensures exact { InRange true 128 (number self) → result ≡ number self }
        ensures wider { BITS < 128 → result ≡ number self }
        ensures as_wide { IS_SIGNED ≡ true → BITS ≤ 128 → result ≡ number self }
        ensures narrower { 128 ≤ BITS → Congruent 128 result (number self) }
        ensures congruent { Congruent 128 result (number self) }
        ensures congruent_to { (y : ℤ) → IS_SIGNED ≡ false → 128 ≤ BITS
            → Congruent BITS (number self) y → Congruent 128 result y }
        ensures self_in_range { InRange IS_SIGNED BITS (number self) }
        ensures width { valid }
    {
        self.as_::<i128>()
    }

    /// The low 64 bits, as a signed number.
    final fn as_isize(self) -> isize
        ensures value { result ≡ wrap true 64 (number self) }
        ensures exact { InRange true 64 (number self) → result ≡ number self }
        ensures wider { BITS < 64 → result ≡ number self }
        ensures as_wide { IS_SIGNED ≡ true → BITS ≤ 64 → result ≡ number self }
        ensures narrower { 64 ≤ BITS → Congruent 64 result (number self) }
        ensures congruent { Congruent 64 result (number self) }
        ensures congruent_to { (y : ℤ) → IS_SIGNED ≡ false → 64 ≤ BITS
            → Congruent BITS (number self) y → Congruent 64 result y }
        ensures self_in_range { InRange IS_SIGNED BITS (number self) }
        ensures width { valid }
    {
        self.as_i64() as isize
    }

    ghost width_law: { valid → (1 ≤ BITS) × (BITS ≤ 128) };
}
