//! Code for every width: a bound replaces the type, and clauses use `T.number` and `V.BITS`. `sums` is generic over the traits of
//! `num_traits` instead.

ghost use Rattle.std.specs.Prelude.{◌≡◌, ◌↔◌, ◌+ℤ◌, ◌%◌, pos, int_div, IsTrue};
ghost use Rattle.std.specs.List.{count_by};
ghost use Rattle.arbitrary_int.specs.BitList.{bits};

use arbitrary_int::prelude::*;

/// The mean of two numbers, rounded down. Their sum may be out of range.
// The numbers are read as `u128`, which holds those of every width.
pub fn mean<T: UnsignedInteger>(a: T, b: T) -> T
    ensures { T.number result ≡ int_div (T.number a +ℤ T.number b) (pos 2) }
{
    let (a, b) = (a.to_u128_bits(), b.to_u128_bits());
    T::from_(a / 2 + b / 2 + (a % 2 + b % 2) / 2)
}

/// Whether an odd number of the bits are one.
pub fn parity<V: FixedWidth>(value: V) -> bool
    ensures { IsTrue result ↔ (count_by (λ b. b) (bits V.BITS (V.number value)) % 2 ≡ 1) }
{
    value.count_ones() % 2 == 1
}
