//! Facts about indices, masks and casts.

ghost use Rattle.std.specs.Prelude.{◌≡◌, ◌/◌, ◌%◌, ◌^◌, ◌<◌, ◌+ℤ◌, ◌-ℤ◌, ◌*ℤ◌, ◌≤ℤ◌, ◌<ℤ◌, pos, neg_ℤ, int_div, IsTrue};
ghost use Rattle.arbitrary_int.specs.Residue.{Congruent};

use arbitrary_int::prelude::*;

pub fn index_as_usize(t: &[u8; 16], i: u4) -> u8 {
    t[i.as_usize()]
}

pub fn index_usize_from(t: &[u8; 4096], i: u12) -> u8 {
    t[usize::from(i.value())]
}

pub fn new_of_mask(x: u8) -> u4
    ensures { result ≡ pos (x % 16) }
{
    u4::new(x & 15)
}

pub fn new_of_shift(x: u8) -> u4
    ensures { result ≡ pos (x / 16) }
{
    u4::new(x >> 4)
}

pub fn new_of_odd_mask(x: u32) -> u29
    ensures { result ≡ pos (x % 2 ^ 29) }
{
    u29::new(x & 0x1FFF_FFFF)
}

pub fn masked(x: u8) -> u4
    ensures { result ≡ pos (x % 16) }
{
    u4::masked_new(x)
}

pub fn as_u8_keeps(x: u4) -> u8
    ensures { pos result ≡ x }
{
    x.as_u8()
}

pub fn from_keeps(x: u4) -> u8
    ensures { pos result ≡ x }
{
    u8::from_(x)
}

pub fn from_adds(x: u4) -> u8
    ensures { pos result ≡ x +ℤ pos 240 }
{
    u8::from_(x) + 240
}

pub fn as_wider(x: u4) -> u7
    ensures { result ≡ x }
{
    x.as_::<u7>()
}

pub fn as_narrower(x: u8) -> u4
    ensures { result ≡ pos (x % 16) }
{
    x.as_::<u4>()
}

pub fn tried(x: u8) -> bool
    requires { x < 16 }
    ensures { IsTrue result }
{
    u4::try_new(x).is_ok()
}

pub fn millivolts_as(x: i12) -> i32
    ensures { result ≡ int_div (x *ℤ pos 2500) (pos 2048) }
{
    x.as_i32() * 2500 / 2048
}

pub fn millivolts_value(x: i12) -> i32
    ensures { result ≡ int_div (x *ℤ pos 2500) (pos 2048) }
{
    i32::from(x.value()) * 2500 / 2048
}

pub fn left_justified(x: i16) -> i12
    ensures { (pos 16 *ℤ result) ≤ℤ x }
{
    i12::new(x >> 4)
}

pub fn left_justified_extract(x: i16) -> i12
    ensures { (pos 16 *ℤ result) ≤ℤ x }
{
    i12::extract_i16(x, 4)
}

pub fn from_bits_of_mask(x: u16) -> i12
    ensures { Congruent 12 result (pos (x % 4096)) }
{
    i12::from_bits(x & 0xFFF)
}

pub fn bits_and_back(x: i12) -> i12
    ensures { result ≡ x }
{
    i12::from_bits(x.to_bits())
}

pub fn unsigned_and_back(x: i12) -> i12
    ensures { result ≡ x }
{
    i12::from_unsigned(x.to_unsigned())
}

pub fn in_loop() -> u8 {
    let mut last = u4::new(0);
    for i in 0..16u8 {
        last = u4::new(i);
    }
    last.value()
}

/// The mask of a field's own type fits that type.
pub fn new_of_own_mask(x: u8) -> u7
    ensures { result ≡ pos (x % 128) }
{
    u7::new(x & u7::mask())
}

pub fn read_as_signed(x: u12) -> i12
    requires { x <ℤ pos 2048 }
    ensures { result ≡ x }
{
    x.as_::<i12>()
}

pub fn read_as_negative(x: u12) -> i12
    requires { pos 2048 ≤ℤ x }
    ensures { result ≡ x -ℤ pos 4096 }
{
    i12::from_unsigned(x)
}

pub fn sign_extended(x: i12) -> i32
    ensures { result ≡ x }
{
    x.as_i32()
}

pub fn low_byte_of_a_negative_number(x: i4) -> u8
    requires { x <ℤ pos 0 }
    ensures { pos result ≡ x +ℤ pos 256 }
{
    x.as_u8()
}

pub fn widened(x: u5) -> u7
    ensures { result ≡ x }
{
    x.widen()
}

pub fn tried_bits(bits: u8, other: i4) -> i4
    requires small { bits < 8 }
    ensures { result ≡ pos bits }
{
    match i4::try_from_bits(bits) {
        Ok(x) => x,
        Err(_) => other,
    }
}

pub fn narrowed_after_a_test(x: u32) -> u12
    ensures { x < 4096 → result ≡ pos x }
{
    if x < 4096 {
        u12::new(x as u16)
    } else {
        u12::max_value()
    }
}

pub fn narrowed_after_two_tests(x: i32) -> u12
    ensures { pos 0 ≤ℤ x → x ≤ℤ pos 4095 → result ≡ x }
{
    if x >= 0 && x <= 4095 {
        u12::new(x as u16)
    } else {
        u12::zero()
    }
}

pub fn clamped_then_new(x: u16) -> u12
    ensures { result ≤ℤ pos x }
{
    u12::new(x.min(4095))
}

pub fn clamped_on_both_sides(x: i32) -> i12
    ensures { neg_ℤ (pos 2048) ≤ℤ x → x ≤ℤ pos 2047 → result ≡ x }
{
    i12::new(x.max(-2048).min(2047) as i16)
}

pub fn clamped_by_clamp(x: i16) -> i12
    ensures { neg_ℤ (pos 2048) ≤ℤ x → x ≤ℤ pos 2047 → result ≡ x }
{
    i12::new(x.clamp(-2048, 2047))
}

pub fn compared_as_wider(a: u12, b: u12) -> bool
    ensures { IsTrue result }
{
    (a.as_u16() > b.as_u16()) == (a > b)
}

pub fn compared_from_wider(a: i12, b: i12) -> bool
    ensures { IsTrue result }
{
    (i32::from_(a) < i32::from_(b)) == (a < b)
}

pub fn new_of_its_own_value(x: i48) -> i48
    ensures { result ≡ x }
{
    i48::new(x.as_i64())
}

pub fn tried_of_its_own_value(x: i12) -> bool
    ensures { IsTrue result }
{
    i12::try_new(x.as_i16()) == Ok(x)
}

pub fn narrow_in_a_wide_storage(x: UInt<u128, 3>) -> UInt<u8, 8>
    ensures { result ≡ x }
{
    UInt::<u8, 8>::new(x.value() as u8)
}
