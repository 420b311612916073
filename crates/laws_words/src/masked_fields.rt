//! The bits of a byte under a constant mask, shifted and joined: colours of fewer bits, instructions, text.
#![tactic(auto, using(arbitrary_laws::proofs::Sets::words))]

ghost use Rattle.std.specs.Prelude.{◌≡◌, ◌+◌, ◌*◌, ◌/◌, pos, ◌+ℤ◌, ◌*ℤ◌};

use arbitrary_int::prelude::*;

pub fn colour_of_16_bits(red: u8, green: u8, blue: u8) -> u16
    ensures { result ≡ red / 8 * 2048 + green / 4 * 32 + blue / 8 }
{
    (u16::from(red & 0xF8) << 8) | (u16::from(green & 0xFC) << 3) | u16::from(blue >> 3)
}

pub fn below_a_field(high: u4, byte: u8, low: u3) -> u16
    ensures { pos result ≡ high *ℤ pos 4096 +ℤ pos (byte / 16 * 128) +ℤ low }
{
    (u16::from_(high) << 12) | (u16::from(byte & 0xF0) << 3) | u16::from_(low)
}
