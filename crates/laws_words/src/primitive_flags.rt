//! Flags of a primitive under a constant mask: set, cleared, toggled and tested. The other fields do not change.
#![tactic(auto, using(arbitrary_laws::proofs::Sets::words))]

ghost use Rattle.std.specs.Prelude.{◌≡◌, ◌↔◌, ◌/◌, ◌%◌, ◌+◌, IsTrue};

use arbitrary_int::prelude::*;

const ENABLE: u32 = 1 << 5;

pub fn enabled(control: u32) -> u32
    ensures below { result % 32 ≡ control % 32 }
    ensures flag { result / 32 % 2 ≡ 1 }
    ensures above { result / 64 ≡ control / 64 }
{
    control | ENABLE
}

pub fn disabled(control: u32) -> u32
    ensures below { result % 32 ≡ control % 32 }
    ensures flag { result / 32 % 2 ≡ 0 }
    ensures above { result / 64 ≡ control / 64 }
{
    control & !ENABLE
}

pub fn turned_over(control: u16) -> u16
    ensures below { result % 16 ≡ control % 16 }
    ensures flags { result / 16 % 16 + control / 16 % 16 ≡ 15 }
    ensures above { result / 256 ≡ control / 256 }
{
    control ^ 0xF0
}

pub fn is_in_mode_one(control: u16) -> bool
    ensures { IsTrue result ↔ (control / 16 % 4 ≡ 1) }
{
    control & 0x30 == 0x10
}

pub fn switched(control: u32, on: bool) -> bool
    ensures { IsTrue result }
{
    let written = if on {
        control | ENABLE
    } else {
        control & !ENABLE
    };
    (written & ENABLE != 0) == on
}

pub fn other_field(control: u32) -> bool
    ensures { IsTrue result }
{
    u4::extract_u32(control | ENABLE, 8) == u4::extract_u32(control, 8)
}
