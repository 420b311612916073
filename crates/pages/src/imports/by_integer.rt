//! Generic code with the bound `Integer`, which is the only import.

ghost use Rattle.std.specs.Prelude.{◌≡◌, false, pos};
ghost use Rattle.arbitrary_int.specs.Range.{InRange, lo};
ghost use Rattle.arbitrary_int.specs.Residue.{wrap};

use arbitrary_int::traits::Integer;

/// The width.
pub fn width<V: Integer>() -> usize
    ensures { result ≡ V.BITS }
{
    V::BITS
}

/// Whether the type has a sign.
pub fn has_sign<V: Integer>() -> bool
    ensures { result ≡ V.IS_SIGNED }
{
    V::IS_SIGNED
}

/// The low bits of the number, in `V`.
pub fn truncated<T: Integer, V: Integer>(x: T) -> V
    requires { V.valid }
    ensures { V.number result ≡ wrap V.IS_SIGNED V.BITS (T.number x) }
{
    V::masked_new(x)
}

/// The same, by the call on the value.
pub fn truncated_as<T: Integer, V: Integer>(x: T) -> V
    requires { V.valid }
    ensures { V.number result ≡ wrap V.IS_SIGNED V.BITS (T.number x) }
{
    x.as_::<V>()
}

/// The same number in `V`, which has it.
pub fn moved<T: Integer, V: Integer>(x: T) -> V
    requires width { V.valid }
    requires range { InRange V.IS_SIGNED V.BITS (T.number x) }
    ensures { V.number result ≡ T.number x }
{
    V::from_(x)
}

/// The low 8 bits.
pub fn low_byte<V: Integer>(x: V) -> u8
    ensures { pos result ≡ wrap false 8 (V.number x) }
{
    x.as_u8()
}

/// The low 64 bits.
pub fn low_bits<V: Integer>(x: V) -> usize
    ensures { pos result ≡ wrap false 64 (V.number x) }
{
    x.as_usize()
}

/// The least number.
pub fn least<V: Integer>() -> V
    requires { V.valid }
    ensures { V.number result ≡ lo V.IS_SIGNED V.BITS }
{
    V::min_value()
}
