//! std's `From` between `UInt` and other unsigned integers, if the target contains each number. tools/twins.py
//! compares this file with `signed`. For a target that does not, `from_` has a condition, and `try_new` tests it.

ghost use Rattle.std.specs.Prelude.{◌≡◌, pos, false};
ghost use Rattle.arbitrary_base.specs.Range.{InRange};

use crate::unsigned::UInt;
use arbitrary_base::storage::UnsignedStorage;
use arbitrary_base::truncation::cast;
use arbitrary_widths::{FitsIn, HasWidth};

/// The number, in a storage that has room for it.
pub(super) fn stored<S: UnsignedStorage, T: UnsignedStorage + HasWidth<BITS>, const BITS: usize>(
    value: UInt<S, BITS>,
) -> T
    ensures value { T.number result ≡ value }
    ensures value_in_range { InRange false BITS value }
    ensures result_in_range { InRange T.SIGNED BITS (T.number result) }
{
    cast(value.value(), T::WIDTH)
}

/// The number of a storage, at a width that contains each number of the storage.
fn fitted<
    S: UnsignedStorage + FitsIn<BITS>,
    T: UnsignedStorage + HasWidth<BITS>,
    const BITS: usize,
>(value: S) -> UInt<T, BITS>
    requires { InRange S.SIGNED S.WIDTH (S.number value) }
    ensures { result ≡ S.number value }
{
    UInt::<T, BITS>::new(cast(value, BITS))
}

/// The number, at a width that contains each number of its storage.
fn widened<
    S: UnsignedStorage + FitsIn<BITS>,
    T: UnsignedStorage + HasWidth<BITS>,
    const FROM: usize,
    const BITS: usize,
>(value: UInt<S, FROM>) -> UInt<T, BITS>
    ensures value { result ≡ value }
    ensures value_in_range { InRange false FROM value }
{
    UInt::<T, BITS>::new(cast(value.value(), BITS))
}

impl<T: UnsignedStorage, const BITS: usize> From<UInt<T, BITS>> for u8
where
    u8: HasWidth<BITS>,
{
    ghost from_gives = { λ x r. pos r ≡ x };

    fn from(value: UInt<T, BITS>) -> u8
        ensures value { pos result ≡ value }
        ensures value_in_range { InRange false BITS value }
    {
        stored(value)
    }
}

impl<T: UnsignedStorage, const BITS: usize> From<UInt<T, BITS>> for u16
where
    u16: HasWidth<BITS>,
{
    ghost from_gives = { λ x r. pos r ≡ x };

    fn from(value: UInt<T, BITS>) -> u16
        ensures value { pos result ≡ value }
        ensures value_in_range { InRange false BITS value }
    {
        stored(value)
    }
}

impl<T: UnsignedStorage, const BITS: usize> From<UInt<T, BITS>> for u32
where
    u32: HasWidth<BITS>,
{
    ghost from_gives = { λ x r. pos r ≡ x };

    fn from(value: UInt<T, BITS>) -> u32
        ensures value { pos result ≡ value }
        ensures value_in_range { InRange false BITS value }
    {
        stored(value)
    }
}

impl<T: UnsignedStorage, const BITS: usize> From<UInt<T, BITS>> for u64
where
    u64: HasWidth<BITS>,
{
    ghost from_gives = { λ x r. pos r ≡ x };

    fn from(value: UInt<T, BITS>) -> u64
        ensures value { pos result ≡ value }
        ensures value_in_range { InRange false BITS value }
    {
        stored(value)
    }
}

impl<T: UnsignedStorage, const BITS: usize> From<UInt<T, BITS>> for u128
where
    u128: HasWidth<BITS>,
{
    ghost from_gives = { λ x r. pos r ≡ x };

    fn from(value: UInt<T, BITS>) -> u128
        ensures value { pos result ≡ value }
        ensures value_in_range { InRange false BITS value }
    {
        stored(value)
    }
}

impl<T: UnsignedStorage + HasWidth<BITS>, const BITS: usize> From<u8> for UInt<T, BITS>
where
    u8: FitsIn<BITS>,
{
    ghost from_gives = { λ x r. r ≡ pos x };

    #[tactic(auto, using(arbitrary_base::proofs::storages::Primitive::unsigned_laws))]
    fn from(value: u8) -> UInt<T, BITS> {
        fitted(value)
    }
}

impl<T: UnsignedStorage + HasWidth<BITS>, const BITS: usize> From<u16> for UInt<T, BITS>
where
    u16: FitsIn<BITS>,
{
    ghost from_gives = { λ x r. r ≡ pos x };

    #[tactic(auto, using(arbitrary_base::proofs::storages::Primitive::unsigned_laws))]
    fn from(value: u16) -> UInt<T, BITS> {
        fitted(value)
    }
}

impl<T: UnsignedStorage + HasWidth<BITS>, const BITS: usize> From<u32> for UInt<T, BITS>
where
    u32: FitsIn<BITS>,
{
    ghost from_gives = { λ x r. r ≡ pos x };

    #[tactic(auto, using(arbitrary_base::proofs::storages::Primitive::unsigned_laws))]
    fn from(value: u32) -> UInt<T, BITS> {
        fitted(value)
    }
}

impl<T: UnsignedStorage + HasWidth<BITS>, const BITS: usize> From<u64> for UInt<T, BITS>
where
    u64: FitsIn<BITS>,
{
    ghost from_gives = { λ x r. r ≡ pos x };

    #[tactic(auto, using(arbitrary_base::proofs::storages::Primitive::unsigned_laws))]
    fn from(value: u64) -> UInt<T, BITS> {
        fitted(value)
    }
}

impl<T: UnsignedStorage + HasWidth<BITS>, const BITS: usize> From<u128> for UInt<T, BITS>
where
    u128: FitsIn<BITS>,
{
    ghost from_gives = { λ x r. r ≡ pos x };

    #[tactic(auto, using(arbitrary_base::proofs::storages::Primitive::unsigned_laws))]
    fn from(value: u128) -> UInt<T, BITS> {
        fitted(value)
    }
}

impl<const FROM: usize, const BITS: usize> From<UInt<u8, FROM>> for UInt<u16, BITS>
where
    u8: FitsIn<BITS>,
    u16: HasWidth<BITS>,
{
    ghost from_gives = { λ x r. r ≡ x };

    fn from(value: UInt<u8, FROM>) -> UInt<u16, BITS>
        ensures value { result ≡ value.entry }
        ensures value_in_range { InRange false FROM value.entry }
    {
        widened(value)
    }
}

impl<const FROM: usize, const BITS: usize> From<UInt<u8, FROM>> for UInt<u32, BITS>
where
    u8: FitsIn<BITS>,
    u32: HasWidth<BITS>,
{
    ghost from_gives = { λ x r. r ≡ x };

    fn from(value: UInt<u8, FROM>) -> UInt<u32, BITS>
        ensures value { result ≡ value.entry }
        ensures value_in_range { InRange false FROM value.entry }
    {
        widened(value)
    }
}

impl<const FROM: usize, const BITS: usize> From<UInt<u16, FROM>> for UInt<u32, BITS>
where
    u16: FitsIn<BITS>,
    u32: HasWidth<BITS>,
{
    ghost from_gives = { λ x r. r ≡ x };

    fn from(value: UInt<u16, FROM>) -> UInt<u32, BITS>
        ensures value { result ≡ value.entry }
        ensures value_in_range { InRange false FROM value.entry }
    {
        widened(value)
    }
}

impl<const FROM: usize, const BITS: usize> From<UInt<u8, FROM>> for UInt<u64, BITS>
where
    u8: FitsIn<BITS>,
    u64: HasWidth<BITS>,
{
    ghost from_gives = { λ x r. r ≡ x };

    fn from(value: UInt<u8, FROM>) -> UInt<u64, BITS>
        ensures value { result ≡ value.entry }
        ensures value_in_range { InRange false FROM value.entry }
    {
        widened(value)
    }
}

impl<const FROM: usize, const BITS: usize> From<UInt<u16, FROM>> for UInt<u64, BITS>
where
    u16: FitsIn<BITS>,
    u64: HasWidth<BITS>,
{
    ghost from_gives = { λ x r. r ≡ x };

    fn from(value: UInt<u16, FROM>) -> UInt<u64, BITS>
        ensures value { result ≡ value.entry }
        ensures value_in_range { InRange false FROM value.entry }
    {
        widened(value)
    }
}

impl<const FROM: usize, const BITS: usize> From<UInt<u32, FROM>> for UInt<u64, BITS>
where
    u32: FitsIn<BITS>,
    u64: HasWidth<BITS>,
{
    ghost from_gives = { λ x r. r ≡ x };

    fn from(value: UInt<u32, FROM>) -> UInt<u64, BITS>
        ensures value { result ≡ value.entry }
        ensures value_in_range { InRange false FROM value.entry }
    {
        widened(value)
    }
}

impl<const FROM: usize, const BITS: usize> From<UInt<u8, FROM>> for UInt<u128, BITS>
where
    u8: FitsIn<BITS>,
    u128: HasWidth<BITS>,
{
    ghost from_gives = { λ x r. r ≡ x };

    fn from(value: UInt<u8, FROM>) -> UInt<u128, BITS>
        ensures value { result ≡ value.entry }
        ensures value_in_range { InRange false FROM value.entry }
    {
        widened(value)
    }
}

impl<const FROM: usize, const BITS: usize> From<UInt<u16, FROM>> for UInt<u128, BITS>
where
    u16: FitsIn<BITS>,
    u128: HasWidth<BITS>,
{
    ghost from_gives = { λ x r. r ≡ x };

    fn from(value: UInt<u16, FROM>) -> UInt<u128, BITS>
        ensures value { result ≡ value.entry }
        ensures value_in_range { InRange false FROM value.entry }
    {
        widened(value)
    }
}

impl<const FROM: usize, const BITS: usize> From<UInt<u32, FROM>> for UInt<u128, BITS>
where
    u32: FitsIn<BITS>,
    u128: HasWidth<BITS>,
{
    ghost from_gives = { λ x r. r ≡ x };

    fn from(value: UInt<u32, FROM>) -> UInt<u128, BITS>
        ensures value { result ≡ value.entry }
        ensures value_in_range { InRange false FROM value.entry }
    {
        widened(value)
    }
}

impl<const FROM: usize, const BITS: usize> From<UInt<u64, FROM>> for UInt<u128, BITS>
where
    u64: FitsIn<BITS>,
    u128: HasWidth<BITS>,
{
    ghost from_gives = { λ x r. r ≡ x };

    fn from(value: UInt<u64, FROM>) -> UInt<u128, BITS>
        ensures value { result ≡ value.entry }
        ensures value_in_range { InRange false FROM value.entry }
    {
        widened(value)
    }
}
