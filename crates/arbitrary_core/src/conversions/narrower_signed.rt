//! std's `From` from `Int` into a narrower storage at the same width. tools/twins.py compares this file with
//! `narrower_unsigned`.

ghost use Rattle.std.specs.Prelude.{◌≡◌, true};
ghost use Rattle.arbitrary_base.specs.Range.{InRange};

use crate::conversions::signed::stored;
use crate::signed::Int;
use arbitrary_base::storage::{SignedStorage, UnsignedOf};
use arbitrary_widths::HasWidth;

/// The number, in another storage that has room for its width.
fn stored_in<
    S: SignedStorage,
    P: UnsignedOf<S>,
    T: SignedStorage + HasWidth<BITS>,
    U: UnsignedOf<T>,
    const BITS: usize,
>(value: Int<S, BITS, P>) -> Int<T, BITS, U>
    ensures value { result ≡ value }
    ensures value_in_range { InRange true BITS value }
{
    Int::<T, BITS, U>::new(stored(value))
}

impl<const BITS: usize> From<Int<i16, BITS>> for Int<i8, BITS>
where
    i8: HasWidth<BITS>,
{
    ghost from_gives = { λ x r. r ≡ x };

    fn from(value: Int<i16, BITS>) -> Int<i8, BITS>
        ensures value { result ≡ value.entry }
        ensures value_in_range { InRange true BITS value.entry }
    {
        stored_in(value)
    }
}

impl<const BITS: usize> From<Int<i32, BITS>> for Int<i8, BITS>
where
    i8: HasWidth<BITS>,
{
    ghost from_gives = { λ x r. r ≡ x };

    fn from(value: Int<i32, BITS>) -> Int<i8, BITS>
        ensures value { result ≡ value.entry }
        ensures value_in_range { InRange true BITS value.entry }
    {
        stored_in(value)
    }
}

impl<const BITS: usize> From<Int<i64, BITS>> for Int<i8, BITS>
where
    i8: HasWidth<BITS>,
{
    ghost from_gives = { λ x r. r ≡ x };

    fn from(value: Int<i64, BITS>) -> Int<i8, BITS>
        ensures value { result ≡ value.entry }
        ensures value_in_range { InRange true BITS value.entry }
    {
        stored_in(value)
    }
}

impl<const BITS: usize> From<Int<i128, BITS>> for Int<i8, BITS>
where
    i8: HasWidth<BITS>,
{
    ghost from_gives = { λ x r. r ≡ x };

    fn from(value: Int<i128, BITS>) -> Int<i8, BITS>
        ensures value { result ≡ value.entry }
        ensures value_in_range { InRange true BITS value.entry }
    {
        stored_in(value)
    }
}

impl<const BITS: usize> From<Int<i32, BITS>> for Int<i16, BITS>
where
    i16: HasWidth<BITS>,
{
    ghost from_gives = { λ x r. r ≡ x };

    fn from(value: Int<i32, BITS>) -> Int<i16, BITS>
        ensures value { result ≡ value.entry }
        ensures value_in_range { InRange true BITS value.entry }
    {
        stored_in(value)
    }
}

impl<const BITS: usize> From<Int<i64, BITS>> for Int<i16, BITS>
where
    i16: HasWidth<BITS>,
{
    ghost from_gives = { λ x r. r ≡ x };

    fn from(value: Int<i64, BITS>) -> Int<i16, BITS>
        ensures value { result ≡ value.entry }
        ensures value_in_range { InRange true BITS value.entry }
    {
        stored_in(value)
    }
}

impl<const BITS: usize> From<Int<i128, BITS>> for Int<i16, BITS>
where
    i16: HasWidth<BITS>,
{
    ghost from_gives = { λ x r. r ≡ x };

    fn from(value: Int<i128, BITS>) -> Int<i16, BITS>
        ensures value { result ≡ value.entry }
        ensures value_in_range { InRange true BITS value.entry }
    {
        stored_in(value)
    }
}

impl<const BITS: usize> From<Int<i64, BITS>> for Int<i32, BITS>
where
    i32: HasWidth<BITS>,
{
    ghost from_gives = { λ x r. r ≡ x };

    fn from(value: Int<i64, BITS>) -> Int<i32, BITS>
        ensures value { result ≡ value.entry }
        ensures value_in_range { InRange true BITS value.entry }
    {
        stored_in(value)
    }
}

impl<const BITS: usize> From<Int<i128, BITS>> for Int<i32, BITS>
where
    i32: HasWidth<BITS>,
{
    ghost from_gives = { λ x r. r ≡ x };

    fn from(value: Int<i128, BITS>) -> Int<i32, BITS>
        ensures value { result ≡ value.entry }
        ensures value_in_range { InRange true BITS value.entry }
    {
        stored_in(value)
    }
}

impl<const BITS: usize> From<Int<i128, BITS>> for Int<i64, BITS>
where
    i64: HasWidth<BITS>,
{
    ghost from_gives = { λ x r. r ≡ x };

    fn from(value: Int<i128, BITS>) -> Int<i64, BITS>
        ensures value { result ≡ value.entry }
        ensures value_in_range { InRange true BITS value.entry }
    {
        stored_in(value)
    }
}
