//! Generic code with the bound `BuiltinInteger`, which is the only import.

ghost use Rattle.std.specs.Prelude.{◌≡◌, ◌<◌, ◌+ℤ◌, ◌*ℤ◌, pos};
ghost use Rattle.arbitrary_int.specs.Residue.{residue, wrap};

use arbitrary_int::traits::BuiltinInteger;

/// How many bits the storage has.
pub fn width<T: BuiltinInteger>() -> usize
    ensures { result ≡ T.WIDTH }
{
    T::WIDTH
}

/// Whether the storage has a sign.
pub fn has_sign<T: BuiltinInteger>() -> bool
    ensures { result ≡ T.SIGNED }
{
    T::SIGNED
}

/// The bits of the number.
pub fn pattern<T: BuiltinInteger>(x: T) -> u128
    ensures { result ≡ residue T.WIDTH (T.number x) }
{
    x.pattern()
}

/// The number of these bits.
pub fn number<T: BuiltinInteger>(pattern: u128) -> T
    ensures { T.number result ≡ wrap T.SIGNED T.WIDTH (pos pattern) }
{
    T::from_pattern(pattern)
}

/// The sum, wrapped.
pub fn sum<T: BuiltinInteger>(x: T, y: T) -> T
    ensures { T.number result ≡ wrap T.SIGNED T.WIDTH (T.number x +ℤ T.number y) }
{
    x.wrapping_add(y)
}

/// Whether the storage has the product.
pub fn has_product<T: BuiltinInteger>(x: T, y: T) -> bool {
    x.checked_mul(y).is_some()
}

/// The bits moved up and down again.
pub fn without_high_bits<T: BuiltinInteger>(x: T, n: usize) -> T
    requires { n < T.WIDTH }
{
    x.shl_by(n).shr_by(n)
}
