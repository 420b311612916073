//! Some bits of a wider word as a value, by `extraction` of `arbitrary_base`.

ghost use Rattle.std.specs.Prelude.{◌≡◌, ◌≤◌, ◌+◌, ◌/◌, ◌%◌, ◌^◌, pos, false, take, drop};
ghost use Rattle.arbitrary_base.specs.Residue.{Congruent, wrap};
ghost use Rattle.arbitrary_base.specs.Field.{field, IsField};
ghost use Rattle.arbitrary_base.specs.BitList.{bits, val};

use crate::stored::Stored;
use arbitrary_base::extraction;
use arbitrary_base::storage::Storage;

/// The value of the `BITS` bits of `source` from place `start_bit` on. The width is valid.
fn extracted<S: Storage, N: Stored>(source: S, start_bit: usize) -> N
    requires width { N.valid }
    requires within { start_bit + N.BITS ≤ S.WIDTH }
    ensures value { let list = bits S.WIDTH (S.number source) in
        N.number result ≡ val N.IS_SIGNED (take N.BITS (drop start_bit list)) }
    ensures some { 1 ≤ N.BITS }
{
    N::from_storage(extraction::extract(source, start_bit, N::BITS))
}

/// Every integer of fixed width is read out of the words of the ten primitives.
pub trait Extraction: Stored {
    /// The value of the `BITS` bits of `value` from place `start_bit` on, all among its 8. The width is valid.
    final fn extract_u8(value: u8, start_bit: usize) -> Self
        requires width { Self.valid }
        requires within { start_bit + Self.BITS ≤ 8 }
        ensures value { Self.number result
            ≡ val Self.IS_SIGNED (take Self.BITS (drop start_bit (bits 8 (pos value)))) }
        ensures plain { let quotient = value / 2 ^ start_bit in
            Self.IS_SIGNED ≡ false → Self.number result ≡ pos (quotient % 2 ^ Self.BITS) }
        ensures congruent { Congruent Self.BITS (Self.number result) (pos (value / 2 ^ start_bit)) }
        ensures wrapped { let taken = field value start_bit Self.BITS in
            Self.number result ≡ wrap Self.IS_SIGNED Self.BITS taken }
    {
        extracted(value, start_bit)
    }

    /// The value of the `BITS` bits of `value` from place `start_bit` on, all among its 16. The width is valid.
    final fn extract_u16(value: u16, start_bit: usize) -> Self
        requires width { Self.valid }
        requires within { start_bit + Self.BITS ≤ 16 }
        ensures value { Self.number result
            ≡ val Self.IS_SIGNED (take Self.BITS (drop start_bit (bits 16 (pos value)))) }
        ensures plain { let quotient = value / 2 ^ start_bit in
            Self.IS_SIGNED ≡ false → Self.number result ≡ pos (quotient % 2 ^ Self.BITS) }
        ensures congruent { Congruent Self.BITS (Self.number result) (pos (value / 2 ^ start_bit)) }
        ensures wrapped { let taken = field value start_bit Self.BITS in
            Self.number result ≡ wrap Self.IS_SIGNED Self.BITS taken }
    {
        extracted(value, start_bit)
    }

    /// The value of the `BITS` bits of `value` from place `start_bit` on, all among its 32. The width is valid.
    final fn extract_u32(value: u32, start_bit: usize) -> Self
        requires width { Self.valid }
        requires within { start_bit + Self.BITS ≤ 32 }
        ensures value { Self.number result
            ≡ val Self.IS_SIGNED (take Self.BITS (drop start_bit (bits 32 (pos value)))) }
        ensures plain { let quotient = value / 2 ^ start_bit in
            Self.IS_SIGNED ≡ false → Self.number result ≡ pos (quotient % 2 ^ Self.BITS) }
        ensures congruent { Congruent Self.BITS (Self.number result) (pos (value / 2 ^ start_bit)) }
        ensures wrapped { let taken = field value start_bit Self.BITS in
            Self.number result ≡ wrap Self.IS_SIGNED Self.BITS taken }
    {
        extracted(value, start_bit)
    }

    /// The value of the `BITS` bits of `value` from place `start_bit` on, all among its 64. The width is valid.
    final fn extract_u64(value: u64, start_bit: usize) -> Self
        requires width { Self.valid }
        requires within { start_bit + Self.BITS ≤ 64 }
        ensures value { Self.number result
            ≡ val Self.IS_SIGNED (take Self.BITS (drop start_bit (bits 64 (pos value)))) }
        ensures plain { let quotient = value / 2 ^ start_bit in
            Self.IS_SIGNED ≡ false → Self.number result ≡ pos (quotient % 2 ^ Self.BITS) }
        ensures congruent { Congruent Self.BITS (Self.number result) (pos (value / 2 ^ start_bit)) }
        ensures wrapped { let taken = field value start_bit Self.BITS in
            Self.number result ≡ wrap Self.IS_SIGNED Self.BITS taken }
    {
        extracted(value, start_bit)
    }

    /// The value of the `BITS` bits of `value` from place `start_bit` on, all among its 128. The width is valid.
    final fn extract_u128(value: u128, start_bit: usize) -> Self
        requires width { Self.valid }
        requires within { start_bit + Self.BITS ≤ 128 }
        ensures value { Self.number result
            ≡ val Self.IS_SIGNED (take Self.BITS (drop start_bit (bits 128 (pos value)))) }
        ensures plain { let quotient = value / 2 ^ start_bit in
            Self.IS_SIGNED ≡ false → Self.number result ≡ pos (quotient % 2 ^ Self.BITS) }
        ensures congruent { Congruent Self.BITS (Self.number result) (pos (value / 2 ^ start_bit)) }
        ensures wrapped { let taken = field value start_bit Self.BITS in
            Self.number result ≡ wrap Self.IS_SIGNED Self.BITS taken }
    {
        extracted(value, start_bit)
    }

    /// The value of the `BITS` bits of `value` from place `start_bit` on, all among its 8. The width is valid.
    final fn extract_i8(value: i8, start_bit: usize) -> Self
        requires width { Self.valid }
        requires within { start_bit + Self.BITS ≤ 8 }
        ensures value { Self.number result
            ≡ val Self.IS_SIGNED (take Self.BITS (drop start_bit (bits 8 value))) }
        ensures field { IsField start_bit Self.BITS value (Self.number result) }
    {
        extracted(value, start_bit)
    }

    /// The value of the `BITS` bits of `value` from place `start_bit` on, all among its 16. The width is valid.
    final fn extract_i16(value: i16, start_bit: usize) -> Self
        requires width { Self.valid }
        requires within { start_bit + Self.BITS ≤ 16 }
        ensures value { Self.number result
            ≡ val Self.IS_SIGNED (take Self.BITS (drop start_bit (bits 16 value))) }
        ensures field { IsField start_bit Self.BITS value (Self.number result) }
    {
        extracted(value, start_bit)
    }

    /// The value of the `BITS` bits of `value` from place `start_bit` on, all among its 32. The width is valid.
    final fn extract_i32(value: i32, start_bit: usize) -> Self
        requires width { Self.valid }
        requires within { start_bit + Self.BITS ≤ 32 }
        ensures value { Self.number result
            ≡ val Self.IS_SIGNED (take Self.BITS (drop start_bit (bits 32 value))) }
        ensures field { IsField start_bit Self.BITS value (Self.number result) }
    {
        extracted(value, start_bit)
    }

    /// The value of the `BITS` bits of `value` from place `start_bit` on, all among its 64. The width is valid.
    final fn extract_i64(value: i64, start_bit: usize) -> Self
        requires width { Self.valid }
        requires within { start_bit + Self.BITS ≤ 64 }
        ensures value { Self.number result
            ≡ val Self.IS_SIGNED (take Self.BITS (drop start_bit (bits 64 value))) }
        ensures field { IsField start_bit Self.BITS value (Self.number result) }
    {
        extracted(value, start_bit)
    }

    /// The value of the `BITS` bits of `value` from place `start_bit` on, all among its 128. The width is valid.
    final fn extract_i128(value: i128, start_bit: usize) -> Self
        requires width { Self.valid }
        requires within { start_bit + Self.BITS ≤ 128 }
        ensures value { Self.number result
            ≡ val Self.IS_SIGNED (take Self.BITS (drop start_bit (bits 128 value))) }
        ensures field { IsField start_bit Self.BITS value (Self.number result) }
    {
        extracted(value, start_bit)
    }
}

impl<N: Stored> Extraction for N {}
