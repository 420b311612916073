//! std's `From` from `UInt` into a narrower storage at the same width. tools/twins.py compares this file with
//! `narrower_signed`.

ghost use Rattle.std.specs.Prelude.{◌≡◌, false};
ghost use Rattle.arbitrary_base.specs.Range.{InRange};

use crate::conversions::unsigned::stored;
use crate::unsigned::UInt;
use arbitrary_base::storage::UnsignedStorage;
use arbitrary_widths::HasWidth;

/// The number, in another storage that has room for its width.
fn stored_in<S: UnsignedStorage, T: UnsignedStorage + HasWidth<BITS>, const BITS: usize>(
    value: UInt<S, BITS>,
) -> UInt<T, BITS>
    ensures value { result ≡ value }
    ensures value_in_range { InRange false BITS value }
{
    UInt::<T, BITS>::new(stored(value))
}

impl<const BITS: usize> From<UInt<u16, BITS>> for UInt<u8, BITS>
where
    u8: HasWidth<BITS>,
{
    ghost from_gives = { λ x r. r ≡ x };

    fn from(value: UInt<u16, BITS>) -> UInt<u8, BITS>
        ensures value { result ≡ value.entry }
        ensures value_in_range { InRange false BITS value.entry }
    {
        stored_in(value)
    }
}

impl<const BITS: usize> From<UInt<u32, BITS>> for UInt<u8, BITS>
where
    u8: HasWidth<BITS>,
{
    ghost from_gives = { λ x r. r ≡ x };

    fn from(value: UInt<u32, BITS>) -> UInt<u8, BITS>
        ensures value { result ≡ value.entry }
        ensures value_in_range { InRange false BITS value.entry }
    {
        stored_in(value)
    }
}

impl<const BITS: usize> From<UInt<u64, BITS>> for UInt<u8, BITS>
where
    u8: HasWidth<BITS>,
{
    ghost from_gives = { λ x r. r ≡ x };

    fn from(value: UInt<u64, BITS>) -> UInt<u8, BITS>
        ensures value { result ≡ value.entry }
        ensures value_in_range { InRange false BITS value.entry }
    {
        stored_in(value)
    }
}

impl<const BITS: usize> From<UInt<u128, BITS>> for UInt<u8, BITS>
where
    u8: HasWidth<BITS>,
{
    ghost from_gives = { λ x r. r ≡ x };

    fn from(value: UInt<u128, BITS>) -> UInt<u8, BITS>
        ensures value { result ≡ value.entry }
        ensures value_in_range { InRange false BITS value.entry }
    {
        stored_in(value)
    }
}

impl<const BITS: usize> From<UInt<u32, BITS>> for UInt<u16, BITS>
where
    u16: HasWidth<BITS>,
{
    ghost from_gives = { λ x r. r ≡ x };

    fn from(value: UInt<u32, BITS>) -> UInt<u16, BITS>
        ensures value { result ≡ value.entry }
        ensures value_in_range { InRange false BITS value.entry }
    {
        stored_in(value)
    }
}

impl<const BITS: usize> From<UInt<u64, BITS>> for UInt<u16, BITS>
where
    u16: HasWidth<BITS>,
{
    ghost from_gives = { λ x r. r ≡ x };

    fn from(value: UInt<u64, BITS>) -> UInt<u16, BITS>
        ensures value { result ≡ value.entry }
        ensures value_in_range { InRange false BITS value.entry }
    {
        stored_in(value)
    }
}

impl<const BITS: usize> From<UInt<u128, BITS>> for UInt<u16, BITS>
where
    u16: HasWidth<BITS>,
{
    ghost from_gives = { λ x r. r ≡ x };

    fn from(value: UInt<u128, BITS>) -> UInt<u16, BITS>
        ensures value { result ≡ value.entry }
        ensures value_in_range { InRange false BITS value.entry }
    {
        stored_in(value)
    }
}

impl<const BITS: usize> From<UInt<u64, BITS>> for UInt<u32, BITS>
where
    u32: HasWidth<BITS>,
{
    ghost from_gives = { λ x r. r ≡ x };

    fn from(value: UInt<u64, BITS>) -> UInt<u32, BITS>
        ensures value { result ≡ value.entry }
        ensures value_in_range { InRange false BITS value.entry }
    {
        stored_in(value)
    }
}

impl<const BITS: usize> From<UInt<u128, BITS>> for UInt<u32, BITS>
where
    u32: HasWidth<BITS>,
{
    ghost from_gives = { λ x r. r ≡ x };

    fn from(value: UInt<u128, BITS>) -> UInt<u32, BITS>
        ensures value { result ≡ value.entry }
        ensures value_in_range { InRange false BITS value.entry }
    {
        stored_in(value)
    }
}

impl<const BITS: usize> From<UInt<u128, BITS>> for UInt<u64, BITS>
where
    u64: HasWidth<BITS>,
{
    ghost from_gives = { λ x r. r ≡ x };

    fn from(value: UInt<u128, BITS>) -> UInt<u64, BITS>
        ensures value { result ≡ value.entry }
        ensures value_in_range { InRange false BITS value.entry }
    {
        stored_in(value)
    }
}
