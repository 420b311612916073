//! `&`, `|`, `^` and `!` of numbers of `bits` bits, as functions over a storage. `patterns` has them over patterns,
//! and `bitwise` of `arbitrary_core` calls them for the operators of the types.

ghost use Rattle.std.specs.Prelude.{◌≡◌, ◌≤◌, map, not};
ghost use Rattle.arbitrary_base.specs.Range.{InRange};
ghost use Rattle.arbitrary_base.specs.BitList.{bits as bit_list, val, bits_and, bits_or, bits_xor};

use crate::patterns;
use crate::storage::Storage;
use crate::truncation::{from_low_bits, low_bits};

/// The bits that are one in both numbers.
pub fn and<T: Storage>(x: T, y: T, bits: usize) -> T
    requires width { 1 ≤ bits }
    requires storage { bits ≤ T.WIDTH }
    ensures value { let list = bit_list bits in
        T.number result ≡ val T.SIGNED (bits_and (list (T.number x)) (list (T.number y))) }
    ensures result_in_range { InRange T.SIGNED bits (T.number result) }
{
    from_low_bits(
        patterns::and(low_bits(x, bits), low_bits(y, bits), bits),
        bits,
    )
}

/// The bits that are one in at least one of the numbers.
pub fn or<T: Storage>(x: T, y: T, bits: usize) -> T
    requires width { 1 ≤ bits }
    requires storage { bits ≤ T.WIDTH }
    ensures value { let list = bit_list bits in
        T.number result ≡ val T.SIGNED (bits_or (list (T.number x)) (list (T.number y))) }
    ensures result_in_range { InRange T.SIGNED bits (T.number result) }
{
    from_low_bits(
        patterns::or(low_bits(x, bits), low_bits(y, bits), bits),
        bits,
    )
}

/// The bits in which the numbers differ.
pub fn xor<T: Storage>(x: T, y: T, bits: usize) -> T
    requires width { 1 ≤ bits }
    requires storage { bits ≤ T.WIDTH }
    ensures value { let list = bit_list bits in
        T.number result ≡ val T.SIGNED (bits_xor (list (T.number x)) (list (T.number y))) }
    ensures result_in_range { InRange T.SIGNED bits (T.number result) }
{
    from_low_bits(
        patterns::xor(low_bits(x, bits), low_bits(y, bits), bits),
        bits,
    )
}

/// The complement: each of the `bits` bits is inverted.
pub fn not<T: Storage>(x: T, bits: usize) -> T
    requires width { 1 ≤ bits }
    requires storage { bits ≤ T.WIDTH }
    ensures value { T.number result ≡ val T.SIGNED (map not (bit_list bits (T.number x))) }
    ensures result_in_range { InRange T.SIGNED bits (T.number result) }
{
    from_low_bits(patterns::not(low_bits(x, bits), bits), bits)
}
