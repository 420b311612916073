//! Facts about `From` into another storage than that of the short name.

ghost use Rattle.std.specs.Prelude.{◌≡◌, IsTrue};

use arbitrary_int::prelude::*;

pub fn into_the_narrowest(x: UInt<u32, 5>) -> u5
    ensures { result ≡ x }
{
    u5::from(x)
}

pub fn at_full_width(x: UInt<u128, 8>) -> UInt<u8, 8>
    ensures { result ≡ x }
{
    x.into()
}

pub fn with_a_sign(x: Int<i64, 12>) -> i12
    ensures { result ≡ x }
{
    i12::from(x)
}

pub fn there_and_back(x: u15) -> bool
    ensures { IsTrue result }
{
    u15::from(UInt::<u64, 15>::from_(x)) == x
}

pub fn order_stays(x: Int<i32, 7>, y: Int<i32, 7>) -> bool
    ensures { IsTrue result }
{
    (i7::from(x) < i7::from(y)) == (x < y)
}

/// A field that is read in the word's own storage.
pub fn field_of_a_word(word: u32) -> u5 {
    UInt::<u32, 5>::extract(word, 3).into()
}

/// One of the calls at any width that both storages have.
pub fn at_any_width<const BITS: usize>(x: UInt<u32, BITS>) -> UInt<u8, BITS>
where
    u8: HasWidth<BITS>,
    ensures { result ≡ x.entry }
{
    x.into()
}
