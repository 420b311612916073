//! Fields that are written in place into a word. The other bits do not change.
#![tactic(auto, using(arbitrary_laws::proofs::Sets::words))]

ghost use Rattle.std.specs.Prelude.{◌≡◌, ◌/◌, ◌%◌, ◌*◌, ◌+◌, ◌+ℤ◌, ◌*ℤ◌, pos, if◌then◌else◌};
ghost use Rattle.arbitrary_int.specs.Field.{field};

use arbitrary_int::prelude::*;

// ---- in a primitive

pub fn green_replaced(colour: u16, green: u6) -> u16
    ensures { pos result ≡ pos (colour / 2048 * 2048) +ℤ pos 32 *ℤ green +ℤ pos (colour % 32) }
{
    (colour & !0x07E0) | (u16::from_(green) << 5)
}

pub fn mode_written(register: u8, mode: u2) -> u8
    ensures above { result / 16 ≡ register / 16 }
    ensures below { result % 4 ≡ register % 4 }
    ensures mode { pos (result / 4 % 4) ≡ mode }
{
    (register & !0b1100) | (mode.value() << 2)
}

pub fn read_back(register: u32, level: u4) -> u4
    ensures { result ≡ level }
{
    let written = (register & !0xF000) | (u32::from_(level) << 12);
    u4::extract_u32(written, 12)
}

pub fn neighbour(register: u32, level: u4) -> u4
    ensures { result ≡ field register 16 4 }
{
    let written = (register & !0xF000) | (u32::from_(level) << 12);
    u4::extract_u32(written, 16)
}

pub fn flag_written(register: u32, on: bool) -> u32
    ensures { result ≡ register / 256 * 256 + (if on then 128 else 0) + register % 128 }
{
    (register & !(1 << 7)) | (u32::from(on) << 7)
}
