//! std's `From` between `Int` and other signed integers, if the target contains each number. tools/twins.py
//! compares this file with `unsigned`. For a target that does not, `from_` has a condition, and `try_new` tests it.

ghost use Rattle.std.specs.Prelude.{◌≡◌, true};
ghost use Rattle.arbitrary_base.specs.Range.{InRange};

use crate::signed::Int;
use arbitrary_base::storage::{SignedStorage, UnsignedOf};
use arbitrary_base::truncation::cast;
use arbitrary_widths::{FitsIn, HasWidth};

/// The number, in a storage that has room for it.
pub(super) fn stored<
    S: SignedStorage,
    P: UnsignedOf<S>,
    T: SignedStorage + HasWidth<BITS>,
    const BITS: usize,
>(value: Int<S, BITS, P>) -> T
    ensures value { T.number result ≡ value }
    ensures value_in_range { InRange true BITS value }
    ensures result_in_range { InRange T.SIGNED BITS (T.number result) }
{
    cast(value.value(), T::WIDTH)
}

/// The number of a storage, at a width that contains each number of the storage.
fn fitted<
    S: SignedStorage + FitsIn<BITS>,
    T: SignedStorage + HasWidth<BITS>,
    U: UnsignedOf<T>,
    const BITS: usize,
>(value: S) -> Int<T, BITS, U>
    requires { InRange S.SIGNED S.WIDTH (S.number value) }
    ensures { result ≡ S.number value }
{
    Int::<T, BITS, U>::new(cast(value, BITS))
}

/// The number, at a width that contains each number of its storage.
fn widened<
    S: SignedStorage + FitsIn<BITS>,
    P: UnsignedOf<S>,
    T: SignedStorage + HasWidth<BITS>,
    U: UnsignedOf<T>,
    const FROM: usize,
    const BITS: usize,
>(value: Int<S, FROM, P>) -> Int<T, BITS, U>
    ensures value { result ≡ value }
    ensures value_in_range { InRange true FROM value }
{
    Int::<T, BITS, U>::new(cast(value.value(), BITS))
}

impl<T: SignedStorage, const BITS: usize, U: UnsignedOf<T>> From<Int<T, BITS, U>> for i8
where
    i8: HasWidth<BITS>,
{
    ghost from_gives = { λ x r. r ≡ x };

    fn from(value: Int<T, BITS, U>) -> i8
        ensures value { result ≡ value }
        ensures value_in_range { InRange true BITS value }
    {
        stored(value)
    }
}

impl<T: SignedStorage, const BITS: usize, U: UnsignedOf<T>> From<Int<T, BITS, U>> for i16
where
    i16: HasWidth<BITS>,
{
    ghost from_gives = { λ x r. r ≡ x };

    fn from(value: Int<T, BITS, U>) -> i16
        ensures value { result ≡ value }
        ensures value_in_range { InRange true BITS value }
    {
        stored(value)
    }
}

impl<T: SignedStorage, const BITS: usize, U: UnsignedOf<T>> From<Int<T, BITS, U>> for i32
where
    i32: HasWidth<BITS>,
{
    ghost from_gives = { λ x r. r ≡ x };

    fn from(value: Int<T, BITS, U>) -> i32
        ensures value { result ≡ value }
        ensures value_in_range { InRange true BITS value }
    {
        stored(value)
    }
}

impl<T: SignedStorage, const BITS: usize, U: UnsignedOf<T>> From<Int<T, BITS, U>> for i64
where
    i64: HasWidth<BITS>,
{
    ghost from_gives = { λ x r. r ≡ x };

    fn from(value: Int<T, BITS, U>) -> i64
        ensures value { result ≡ value }
        ensures value_in_range { InRange true BITS value }
    {
        stored(value)
    }
}

impl<T: SignedStorage, const BITS: usize, U: UnsignedOf<T>> From<Int<T, BITS, U>> for i128
where
    i128: HasWidth<BITS>,
{
    ghost from_gives = { λ x r. r ≡ x };

    fn from(value: Int<T, BITS, U>) -> i128
        ensures value { result ≡ value }
        ensures value_in_range { InRange true BITS value }
    {
        stored(value)
    }
}

impl<T: SignedStorage + HasWidth<BITS>, const BITS: usize, U: UnsignedOf<T>> From<i8>
    for Int<T, BITS, U>
where
    i8: FitsIn<BITS>,
{
    ghost from_gives = { λ x r. r ≡ x };

    #[tactic(auto, using(arbitrary_base::proofs::storages::Primitive::signed_laws))]
    fn from(value: i8) -> Int<T, BITS, U> {
        fitted(value)
    }
}

impl<T: SignedStorage + HasWidth<BITS>, const BITS: usize, U: UnsignedOf<T>> From<i16>
    for Int<T, BITS, U>
where
    i16: FitsIn<BITS>,
{
    ghost from_gives = { λ x r. r ≡ x };

    #[tactic(auto, using(arbitrary_base::proofs::storages::Primitive::signed_laws))]
    fn from(value: i16) -> Int<T, BITS, U> {
        fitted(value)
    }
}

impl<T: SignedStorage + HasWidth<BITS>, const BITS: usize, U: UnsignedOf<T>> From<i32>
    for Int<T, BITS, U>
where
    i32: FitsIn<BITS>,
{
    ghost from_gives = { λ x r. r ≡ x };

    #[tactic(auto, using(arbitrary_base::proofs::storages::Primitive::signed_laws))]
    fn from(value: i32) -> Int<T, BITS, U> {
        fitted(value)
    }
}

impl<T: SignedStorage + HasWidth<BITS>, const BITS: usize, U: UnsignedOf<T>> From<i64>
    for Int<T, BITS, U>
where
    i64: FitsIn<BITS>,
{
    ghost from_gives = { λ x r. r ≡ x };

    #[tactic(auto, using(arbitrary_base::proofs::storages::Primitive::signed_laws))]
    fn from(value: i64) -> Int<T, BITS, U> {
        fitted(value)
    }
}

impl<T: SignedStorage + HasWidth<BITS>, const BITS: usize, U: UnsignedOf<T>> From<i128>
    for Int<T, BITS, U>
where
    i128: FitsIn<BITS>,
{
    ghost from_gives = { λ x r. r ≡ x };

    #[tactic(auto, using(arbitrary_base::proofs::storages::Primitive::signed_laws))]
    fn from(value: i128) -> Int<T, BITS, U> {
        fitted(value)
    }
}

impl<const FROM: usize, const BITS: usize> From<Int<i8, FROM>> for Int<i16, BITS>
where
    i8: FitsIn<BITS>,
    i16: HasWidth<BITS>,
{
    ghost from_gives = { λ x r. r ≡ x };

    fn from(value: Int<i8, FROM>) -> Int<i16, BITS>
        ensures value { result ≡ value.entry }
        ensures value_in_range { InRange true FROM value.entry }
    {
        widened(value)
    }
}

impl<const FROM: usize, const BITS: usize> From<Int<i8, FROM>> for Int<i32, BITS>
where
    i8: FitsIn<BITS>,
    i32: HasWidth<BITS>,
{
    ghost from_gives = { λ x r. r ≡ x };

    fn from(value: Int<i8, FROM>) -> Int<i32, BITS>
        ensures value { result ≡ value.entry }
        ensures value_in_range { InRange true FROM value.entry }
    {
        widened(value)
    }
}

impl<const FROM: usize, const BITS: usize> From<Int<i16, FROM>> for Int<i32, BITS>
where
    i16: FitsIn<BITS>,
    i32: HasWidth<BITS>,
{
    ghost from_gives = { λ x r. r ≡ x };

    fn from(value: Int<i16, FROM>) -> Int<i32, BITS>
        ensures value { result ≡ value.entry }
        ensures value_in_range { InRange true FROM value.entry }
    {
        widened(value)
    }
}

impl<const FROM: usize, const BITS: usize> From<Int<i8, FROM>> for Int<i64, BITS>
where
    i8: FitsIn<BITS>,
    i64: HasWidth<BITS>,
{
    ghost from_gives = { λ x r. r ≡ x };

    fn from(value: Int<i8, FROM>) -> Int<i64, BITS>
        ensures value { result ≡ value.entry }
        ensures value_in_range { InRange true FROM value.entry }
    {
        widened(value)
    }
}

impl<const FROM: usize, const BITS: usize> From<Int<i16, FROM>> for Int<i64, BITS>
where
    i16: FitsIn<BITS>,
    i64: HasWidth<BITS>,
{
    ghost from_gives = { λ x r. r ≡ x };

    fn from(value: Int<i16, FROM>) -> Int<i64, BITS>
        ensures value { result ≡ value.entry }
        ensures value_in_range { InRange true FROM value.entry }
    {
        widened(value)
    }
}

impl<const FROM: usize, const BITS: usize> From<Int<i32, FROM>> for Int<i64, BITS>
where
    i32: FitsIn<BITS>,
    i64: HasWidth<BITS>,
{
    ghost from_gives = { λ x r. r ≡ x };

    fn from(value: Int<i32, FROM>) -> Int<i64, BITS>
        ensures value { result ≡ value.entry }
        ensures value_in_range { InRange true FROM value.entry }
    {
        widened(value)
    }
}

impl<const FROM: usize, const BITS: usize> From<Int<i8, FROM>> for Int<i128, BITS>
where
    i8: FitsIn<BITS>,
    i128: HasWidth<BITS>,
{
    ghost from_gives = { λ x r. r ≡ x };

    fn from(value: Int<i8, FROM>) -> Int<i128, BITS>
        ensures value { result ≡ value.entry }
        ensures value_in_range { InRange true FROM value.entry }
    {
        widened(value)
    }
}

impl<const FROM: usize, const BITS: usize> From<Int<i16, FROM>> for Int<i128, BITS>
where
    i16: FitsIn<BITS>,
    i128: HasWidth<BITS>,
{
    ghost from_gives = { λ x r. r ≡ x };

    fn from(value: Int<i16, FROM>) -> Int<i128, BITS>
        ensures value { result ≡ value.entry }
        ensures value_in_range { InRange true FROM value.entry }
    {
        widened(value)
    }
}

impl<const FROM: usize, const BITS: usize> From<Int<i32, FROM>> for Int<i128, BITS>
where
    i32: FitsIn<BITS>,
    i128: HasWidth<BITS>,
{
    ghost from_gives = { λ x r. r ≡ x };

    fn from(value: Int<i32, FROM>) -> Int<i128, BITS>
        ensures value { result ≡ value.entry }
        ensures value_in_range { InRange true FROM value.entry }
    {
        widened(value)
    }
}

impl<const FROM: usize, const BITS: usize> From<Int<i64, FROM>> for Int<i128, BITS>
where
    i64: FitsIn<BITS>,
    i128: HasWidth<BITS>,
{
    ghost from_gives = { λ x r. r ≡ x };

    fn from(value: Int<i64, FROM>) -> Int<i128, BITS>
        ensures value { result ≡ value.entry }
        ensures value_in_range { InRange true FROM value.entry }
    {
        widened(value)
    }
}
