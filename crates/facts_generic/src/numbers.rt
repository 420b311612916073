//! Facts about numbers in code that is generic over the type.

ghost use Rattle.std.specs.Prelude.{◌≡◌, ◌↔◌, ◌≤◌, ◌+ℤ◌, ◌≤ℤ◌, ◌<ℤ◌, pos, true, IfSome, IsTrue};
ghost use Rattle.arbitrary_int.specs.Range.{InRange, hi};
ghost use Rattle.arbitrary_int.specs.Residue.{Congruent};

use arbitrary_int::prelude::*;
use arbitrary_int::traits::{SignedCounterpart, UnsignedCounterpart};

pub fn narrowed<A: Integer, B: Integer>(x: A) -> B
    requires width { B.valid }
    requires fits { InRange B.IS_SIGNED B.BITS (A.number x) }
    ensures { B.number result ≡ A.number x }
{
    x.as_::<B>()
}

pub fn added<V: SumCalls>(a: V, b: V) -> V
    requires { InRange V.IS_SIGNED V.BITS (V.number a +ℤ V.number b) }
    ensures { V.number result ≡ V.number a +ℤ V.number b }
{
    a.wrapping_add(b)
}

pub fn saturated<V: SumCalls>(a: V, b: V) -> V
    requires { hi V.IS_SIGNED V.BITS <ℤ (V.number a +ℤ V.number b) }
    ensures { V.number result ≡ hi V.IS_SIGNED V.BITS }
{
    a.saturating_add(b)
}

pub fn there_and_back<V: SumCalls>(a: V, b: V) -> V
    ensures { V.number result ≡ V.number a }
{
    a.wrapping_add(b).wrapping_sub(b)
}

pub fn rotated_back<V: ShiftCalls>(a: V, amount: u32) -> V
    ensures { V.number result ≡ V.number a }
{
    a.rotate_left(amount).rotate_right(amount)
}

pub fn smaller<V: Integer>(a: V, b: V) -> bool
    ensures { IsTrue result ↔ (V.number a <ℤ V.number b) }
{
    a < b
}

pub fn cloned<V: Integer>(a: &V) -> Option<V>
    ensures { IfSome result (λ b. V.number b ≡ V.number a.now) }
{
    match a.clone() {
        Ok(b) => Some(b),
        Err(_) => None,
    }
}

pub fn unsigned_and_back<V: Integer>(a: V) -> V
    ensures { V.number result ≡ V.number a }
{
    V::from_unsigned(a.to_unsigned())
}

/// The unsigned type of the same width, by its own number.
pub fn to_counterpart<V: Integer>(a: V) -> V::UnsignedInteger
where
    V::UnsignedInteger: UnsignedCounterpart<V>,
    ensures { Congruent V.BITS (V.UnsignedInteger.number result) (V.number a) }
{
    a.to_unsigned()
}

pub fn counterpart_of_a_number(x: i12) -> u12
    requires { pos 0 ≤ℤ x }
    ensures { result ≡ x }
{
    to_counterpart(x)
}

/// The signed type of the same width has every number that both have.
pub fn with_a_sign<V: UnsignedInteger>(a: V) -> V::SignedInteger
where
    V::SignedInteger: SignedCounterpart<V>,
    requires width { V.SignedInteger.valid }
    requires small { InRange true V.BITS (V.number a) }
    ensures { V.SignedInteger.number result ≡ V.number a }
{
    a.as_::<V::SignedInteger>()
}

pub fn low_byte<V: UnsignedInteger>(a: V) -> u8
    requires { V.number a <ℤ pos 256 }
    ensures { pos result ≡ V.number a }
{
    a.as_u8()
}

/// Each value is in range, at a valid width.
pub fn known<V: Integer>(a: V) -> u8
    ensures range { InRange V.IS_SIGNED V.BITS (V.number a) }
    ensures width { V.valid }
{
    a.as_u8()
}

pub fn counted<V: CountCalls>(a: V) -> u32
    ensures { result ≤ V.BITS }
{
    a.leading_zeros()
}

/// 128 bits have every number with a sign.
pub fn at_128_bits<V: SignedInteger>(a: V) -> i128
    ensures { result ≡ V.number a }
{
    a.as_i128()
}

/// A number comes back from its 128 bits.
pub fn back_from_128_bits<V: Integer>(a: V) -> V
    ensures { V.number result ≡ V.number a }
{
    V::from_u128_bits(a.to_u128_bits())
}
