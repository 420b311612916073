//! Lines as a user of the Rust crate writes them: with constants, with conversions, and with a type of their
//! own.

ghost use Rattle.std.specs.Prelude.{◌≡◌, ◌≢◌, ◌<◌, ◌≤◌, ◌+ℤ◌, ◌-ℤ◌, ◌*ℤ◌, ◌≤ℤ◌, pos, neg_ℤ, true};
ghost use Rattle.arbitrary_int.specs.Range.{lo, hi};

use arbitrary_int::prelude::*;
use num_traits::Zero;

pub fn greatest() -> u4
    ensures { result ≡ pos 15 }
{
    u4::MAX
}

pub fn least_signed() -> i14
    ensures { result ≡ neg_ℤ (pos 8192) }
{
    i14::MIN
}

pub fn greatest_of_full_width() -> u8
    ensures { result ≡ 255 }
{
    UInt::<u8, 8>::MAX.value()
}

pub fn greatest_of_any<V: Constants>() -> V
    ensures { V.number result ≡ hi V.IS_SIGNED V.BITS }
{
    V::MAX
}

pub fn mask() -> u8
    ensures { result ≡ 15 }
{
    u4::MASK
}

pub fn mask_of_full_signed() -> i8
    ensures { result ≡ neg_ℤ (pos 1) }
{
    Int::<i8, 8>::MASK
}

pub fn masked(byte: u8) -> u4 {
    u4::new(byte & u4::MASK)
}

pub fn up_to_greatest(x: u12) -> u12
    ensures { result ≡ pos 4095 -ℤ x }
{
    u12::MAX - x
}

pub fn magnitude(x: i12) -> i12
    requires { x ≢ lo true 12 }
    ensures { pos 0 ≤ℤ result }
{
    if x < i12::ZERO { -x } else { x }
}

pub fn into_own_storage(x: u7) -> u8
    ensures { pos result ≡ x }
{
    u8::from(x)
}

pub fn into_wider_storage(x: u7) -> u14
    ensures { result ≡ x }
{
    x.into()
}

pub fn out_of_primitive(x: u8) -> u14
    ensures { result ≡ pos x }
{
    u14::from(x)
}

pub fn out_of_signed_primitive(x: i16) -> i17
    ensures { result ≡ x }
{
    i17::from(x)
}

pub fn signed_into_wider(x: i7) -> i64
    ensures { result ≡ x }
{
    x.into()
}

pub fn sum_in_a_primitive(x: u4, y: u9) -> u16
    ensures { pos result ≡ x +ℤ y }
{
    u16::from(x) + u16::from(y)
}

pub fn there_and_back(x: u7) -> u7
    ensures { result ≡ x }
{
    u7::new(u8::from(x))
}

pub fn at_any_width<const B: usize>(x: UInt<u8, B>) -> u8
where
    u8: HasWidth<B>,
    ensures { pos result ≡ x.entry }
{
    u8::from(x)
}

pub fn into_any_width<const B: usize>(x: u8) -> UInt<u16, B>
where
    u8: FitsIn<B>,
    u16: HasWidth<B>,
    ensures { result ≡ pos x }
{
    UInt::<u16, B>::from(x)
}

pub fn is_zero(x: i12) -> bool
    ensures { x ≡ pos 0 → result ≡ true }
{
    Zero::is_zero(&x)
}

#[derive(Clone, Copy, Debug, PartialEq, Eq, PartialOrd, Ord, Hash, Default)]
pub struct Header {
    pub version: u4,
    pub length: u12,
    pub offset: i7,
}

pub fn version(header: Header) -> u8
    ensures { pos result ≡ header.version }
{
    header.version.into()
}

// Behind a reference: the conversion ensures that the number is in range.

pub struct Reading {
    pub degrees: i14,
    pub level: u7,
}

pub fn hundredths(reading: &Reading) -> i32
    ensures { result ≡ reading.now.degrees *ℤ pos 25 }
{
    i32::from(reading.degrees) * 25
}

pub fn two_levels(first: &u7, second: &u7) -> u16
    ensures { pos result ≡ first.now *ℤ pos 128 +ℤ second.now }
{
    (u16::from(*first) << 7) | u16::from(*second)
}

pub fn next_level(reading: &Reading) -> u14
    ensures { result ≡ reading.now.level +ℤ pos 1 }
{
    u14::from(reading.level) + u14::new(1)
}
