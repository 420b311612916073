//! Registers, headers and instruction words.

ghost use Rattle.std.specs.Prelude.{◌≡◌, ◌↔◌, ◌/◌, ◌%◌, ◌*◌, ◌+ℤ◌, ◌*ℤ◌, ◌≤ℤ◌, ◌<ℤ◌, pos, IsTrue};
ghost use Rattle.arbitrary_int.specs.Residue.{Congruent};

use arbitrary_int::prelude::*;

pub fn sign_bit_of_wide(x: i48) -> bool
    ensures { IsTrue result ↔ (x <ℤ pos 0) }
{
    x.to_unsigned() >> 47 == u48::new(1)
}

pub fn high_bit(x: u12) -> bool
    ensures { IsTrue result ↔ (pos 2048 ≤ℤ x) }
{
    (x >> 11) & u12::new(1) == u12::new(1)
}

pub fn encode(operation: u6, source: u5, target: u5, immediate: u16) -> u32
    ensures { pos result ≡ pos 67108864 *ℤ operation +ℤ pos 2097152 *ℤ source +ℤ pos 65536 *ℤ target
        +ℤ pos immediate }
{
    (u32::from_(operation) << 26)
        + (u32::from_(source) << 21)
        + (u32::from_(target) << 16)
        + u32::from(immediate)
}

pub fn source_of_encoded(operation: u6, source: u5, target: u5, immediate: u16) -> u5
    ensures { result ≡ source }
{
    u5::extract_u32(encode(operation, source, target, immediate), 21)
}

pub fn immediate(word: u32) -> i16
    ensures { Congruent 16 result (pos word) }
{
    i16::from_(Int::<i16, 16>::extract_u32(word, 0))
}

pub fn header_length(first: u8) -> u8
    ensures { result ≡ first % 16 * 4 }
{
    u4::extract_u8(first, 0).value() * 4
}

pub fn do_not_fragment(word: u16) -> bool
    ensures { IsTrue result ↔ (word / 16384 % 2 ≡ 1) }
{
    u1::extract_u16(word, 14) == u1::new(1)
}

pub struct Pixel {
    pub red: u5,
    pub green: u6,
    pub blue: u5,
}

pub fn pixel_to_word(pixel: &Pixel) -> u16
    ensures { pos result ≡ pos 2048 *ℤ pixel.now.red +ℤ pos 32 *ℤ pixel.now.green
        +ℤ pixel.now.blue }
{
    (pixel.red.as_u16() << 11) + (pixel.green.as_u16() << 5) + pixel.blue.as_u16()
}
