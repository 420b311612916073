//! Words joined from fields, and split again: nibbles, colours, flags.

ghost use Rattle.std.specs.Prelude.{◌≡◌, ◌↔◌, ◌+ℤ◌, ◌-ℤ◌, ◌*ℤ◌, ◌<ℤ◌, pos, int_div, IsTrue};

use arbitrary_int::prelude::*;

pub fn nibbles(x: u8) -> (u4, u4)
    ensures { pos x ≡ pos 16 *ℤ result.0 +ℤ result.1 }
{
    (u4::extract_u8(x, 4), u4::extract_u8(x, 0))
}

pub fn nibbles_joined(high: u4, low: u4) -> (u4, u4)
    ensures high { result.0 ≡ high }
    ensures low { result.1 ≡ low }
{
    let x = (high.as_u8() << 4) | low.as_u8();
    (u4::new(x >> 4), u4::new(x & 0xF))
}

pub fn red_again(red: u5, green: u6, blue: u5) -> u5
    ensures { result ≡ red }
{
    u5::extract_u16(
        red.as_u16() * 2048 + green.as_u16() * 32 + blue.as_u16(),
        11,
    )
}

pub fn to_eight_bits(red: u5) -> u8
    ensures { pos result ≡ pos 8 *ℤ red +ℤ int_div red (pos 4) }
{
    (red.value() << 3) | (red.value() >> 2)
}

pub fn from_three_bytes_by_sum(high: u8, middle: u8, low: u8) -> u24
    ensures { result ≡ pos 65536 *ℤ pos high +ℤ pos 256 *ℤ pos middle +ℤ pos low }
{
    (u24::from_(high) << 16) + (u24::from_(middle) << 8) + u24::from_(low)
}

pub fn left_then_right(x: u24) -> u24
    requires { x <ℤ pos 65536 }
    ensures { result ≡ x }
{
    (x << 8) >> 8
}

pub fn masked_right_then_left(x: u24) -> bool
    ensures { IsTrue result }
{
    (x >> 8) << 8 == x & u24::new(0xFF_FF00)
}

pub fn is_power_of_two_or_zero(x: u12) -> bool
    ensures { x ≡ pos 64 → IsTrue result }
{
    x & x.wrapping_sub(u12::new(1)) == u12::new(0)
}

pub fn low_bit(x: u12) -> bool
    ensures { IsTrue result ↔ (x -ℤ pos 2 *ℤ int_div x (pos 2) ≡ pos 1) }
{
    x.as_::<u1>() == u1::new(1)
}

pub fn complement_and_sum(x: u12) -> u12
    ensures { result ≡ pos 4095 }
{
    x + !x
}

pub fn groups_of_seven(x: u14) -> bool
    ensures { IsTrue result }
{
    let low = x.as_u8() & 0x7F;
    let high = (x >> 7).as_u8();
    u14::from_(high) << 7 | u14::from_(low) == x
}

pub fn first_of_two_in_three_bytes(x: u12, y: u12) -> bool
    ensures { IsTrue result }
{
    let first = x.as_u8();
    let second = (x >> 8).as_u8() | (y.as_u8() & 15) << 4;
    u12::from_(first) | (u12::from_(second & 15) << 8) == x
}
