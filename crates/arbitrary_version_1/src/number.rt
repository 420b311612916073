//! Unsigned integers, as the first version of the Rust crate had them. New code uses `Integer`, which has the same
//! calls, and signed integers.

ghost use Rattle.std.specs.Prelude.{◌≡◌, ◌≤◌, ◌<◌, ◌%◌, ◌^◌, ℕ, pos, false, refl, unsigned_abs, MatchResult};
ghost use Rattle.arbitrary_base.specs.Range.{lo, hi, InRange};
ghost use Rattle.arbitrary_base.specs.Residue.{wrap};

use arbitrary_base::error::TryNewError;
use arbitrary_base::storage::{BuiltinInteger, SignedOf, UnsignedOf, UnsignedStorage};
use arbitrary_core::unsigned::UInt;
use arbitrary_traits::integer::{Integer, UnsignedInteger};
use arbitrary_traits::numbered::Numbered;

/// An unsigned integer type. Each call does what the call of `Integer` of the same name does.
///
/// It is deprecated, and not in the prelude. If a file imports both traits, a call names one of
/// them: `Number::as_u8(&x)`.
pub trait Number: UnsignedInteger + Integer<UnderlyingType = <Self as Number>::UnderlyingType> {
    /// The storage of the number, as for `Integer`.
    type UnderlyingType;

    /// The width in bits.
    const BITS: usize;

    ghost BITS: { ℕ };

    ghost bits_law: { BITS ≡ Self.Numbered.BITS };

    /// The least number, which is 0. Requires a valid width.
    final fn min_value() -> Self
        requires { Self.valid }
        ensures { Self.number result ≡ lo Self.IS_SIGNED Self.Numbered.BITS }
    {
        <Self as Integer>::min_value()
    }

    /// The greatest number. Requires a valid width.
    final fn max_value() -> Self
        requires { Self.valid }
        ensures { Self.number result ≡ hi Self.IS_SIGNED Self.Numbered.BITS }
    {
        <Self as Integer>::max_value()
    }

    /// The value with this number, which must be in range: `try_new` tests it. Requires a valid
    /// width.
    final fn new(value: <Self as Number>::UnderlyingType) -> Self
        requires width { Self.valid }
        requires value_in_range { InRange Self.IS_SIGNED Self.Numbered.BITS
            (Self.underlying value) }
        ensures { Self.number result ≡ Self.underlying value }
    {
        <Self as Integer>::new(value)
    }

    /// The value with this number, or an error exactly if it is out of range. Requires a valid
    /// width.
    final fn try_new(value: <Self as Number>::UnderlyingType) -> Result<Self, TryNewError>
        requires { Self.valid }
        ensures { let given = Self.underlying value in MatchResult result
            (λ x. InRange Self.IS_SIGNED Self.Numbered.BITS given × (Self.number x ≡ given))
            (λ _. ¬ (InRange Self.IS_SIGNED Self.Numbered.BITS given)) }
    {
        <Self as Integer>::try_new(value)
    }

    /// The number, in the storage.
    final fn value(self) -> <Self as Number>::UnderlyingType
        ensures value { Self.underlying result ≡ Self.number self }
        ensures self_in_range { InRange Self.IS_SIGNED Self.Numbered.BITS (Self.number self) }
        ensures width { Self.valid }
    {
        <Self as Integer>::value(self)
    }

    /// The same number, of any other unsigned type, which must be in range of this one. Requires a
    /// valid width.
    final fn from_<T: Number>(value: T) -> Self
        requires width { Self.valid }
        requires value_in_range { InRange Self.IS_SIGNED Self.Numbered.BITS (T.number value) }
        ensures { Self.number result ≡ T.number value }
    {
        <Self as Numbered>::from_(value)
    }

    /// The number of `value` modulo `2 ^ BITS`: high bits are dropped. Requires a valid width.
    final fn masked_new<T: Number>(value: T) -> Self
        requires { Self.valid }
        ensures value { let given = T.number value in
            Self.number result ≡ wrap Self.IS_SIGNED Self.Numbered.BITS given }
        ensures wider { T.Numbered.BITS ≤ Self.Numbered.BITS → Self.number result ≡ T.number value }
        ensures low { Self.Numbered.BITS ≤ T.Numbered.BITS
            → Self.number result ≡ pos (unsigned_abs (T.number value) % 2 ^ Self.Numbered.BITS) }
    {
        <Self as Numbered>::masked_new(value)
    }

    /// The low 8 bits.
    final fn as_u8(&self) -> u8
        ensures value { pos result ≡ wrap false 8 (Self.number self.now) }
        ensures wider { Self.Numbered.BITS ≤ 8 → pos result ≡ Self.number self.now }
        ensures low { 8 < Self.Numbered.BITS
            → result ≡ unsigned_abs (Self.number self.now) % 2 ^ 8 }
    {
        Numbered::as_u8(*self)
    }

    /// The low 16 bits.
    final fn as_u16(&self) -> u16
        ensures value { pos result ≡ wrap false 16 (Self.number self.now) }
        ensures wider { Self.Numbered.BITS ≤ 16 → pos result ≡ Self.number self.now }
        ensures low { 16 < Self.Numbered.BITS
            → result ≡ unsigned_abs (Self.number self.now) % 2 ^ 16 }
    {
        Numbered::as_u16(*self)
    }

    /// The low 32 bits.
    final fn as_u32(&self) -> u32
        ensures value { pos result ≡ wrap false 32 (Self.number self.now) }
        ensures wider { Self.Numbered.BITS ≤ 32 → pos result ≡ Self.number self.now }
        ensures low { 32 < Self.Numbered.BITS
            → result ≡ unsigned_abs (Self.number self.now) % 2 ^ 32 }
    {
        Numbered::as_u32(*self)
    }

    /// The low 64 bits.
    final fn as_u64(&self) -> u64
        ensures value { pos result ≡ wrap false 64 (Self.number self.now) }
        ensures wider { Self.Numbered.BITS ≤ 64 → pos result ≡ Self.number self.now }
        ensures low { 64 < Self.Numbered.BITS
            → result ≡ unsigned_abs (Self.number self.now) % 2 ^ 64 }
    {
        Numbered::as_u64(*self)
    }

    /// The low 128 bits.
    final fn as_u128(&self) -> u128
        ensures value { pos result ≡ wrap false 128 (Self.number self.now) }
        ensures wider { Self.Numbered.BITS ≤ 128 → pos result ≡ Self.number self.now }
        ensures low { 128 < Self.Numbered.BITS
            → result ≡ unsigned_abs (Self.number self.now) % 2 ^ 128 }
    {
        Numbered::as_u128(*self)
    }

    /// The low 64 bits.
    final fn as_usize(&self) -> usize
        ensures value { pos result ≡ wrap false 64 (Self.number self.now) }
        ensures wider { Self.Numbered.BITS ≤ 64 → pos result ≡ Self.number self.now }
        ensures low { 64 < Self.Numbered.BITS
            → result ≡ unsigned_abs (Self.number self.now) % 2 ^ 64 }
    {
        Numbered::as_usize(*self)
    }

    /// `T::masked_new` of the value. Requires a valid width of `T`.
    final fn as_<T: Number>(self) -> T
        requires { T.valid }
        ensures value { T.number result ≡ wrap T.IS_SIGNED T.Numbered.BITS (Self.number self) }
        ensures wider { Self.Numbered.BITS ≤ T.Numbered.BITS → T.number result ≡ Self.number self }
        ensures low { T.Numbered.BITS ≤ Self.Numbered.BITS
            → T.number result ≡ pos (unsigned_abs (Self.number self) % 2 ^ T.Numbered.BITS) }
    {
        <T as Numbered>::masked_new(self)
    }
}

impl Number for u8 {
    type UnderlyingType = u8;

    const BITS: usize = 8;

    ghost BITS = { 8 };

    ghost bits_law = { refl };
}

impl Number for u16 {
    type UnderlyingType = u16;

    const BITS: usize = 16;

    ghost BITS = { 16 };

    ghost bits_law = { refl };
}

impl Number for u32 {
    type UnderlyingType = u32;

    const BITS: usize = 32;

    ghost BITS = { 32 };

    ghost bits_law = { refl };
}

impl Number for u64 {
    type UnderlyingType = u64;

    const BITS: usize = 64;

    ghost BITS = { 64 };

    ghost bits_law = { refl };
}

impl Number for u128 {
    type UnderlyingType = u128;

    const BITS: usize = 128;

    ghost BITS = { 128 };

    ghost bits_law = { refl };
}

impl<T: BuiltinInteger + UnsignedStorage, const BITS: usize> Number for UInt<T, BITS>
where
    T: UnsignedOf<T::Signed>,
    T::Signed: SignedOf<T>,
{
    type UnderlyingType = T;

    const BITS: usize = BITS;

    ghost BITS = { BITS };

    ghost bits_law = { refl };
}
