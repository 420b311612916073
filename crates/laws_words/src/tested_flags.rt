//! Flags that tests set in a word, one after another, above a field and below it.
#![tactic(auto, using(arbitrary_laws::proofs::Sets::fields))]

ghost use Rattle.std.specs.Prelude.{◌≡◌, ◌+ℤ◌, ◌*ℤ◌, ◌/◌, pos, if◌then◌else◌};
ghost use Rattle.arbitrary_int.specs.Residue.{Congruent};

use arbitrary_int::prelude::*;

pub fn desired_reply(response: bool, opcode: u4, desired: bool, code: u4) -> u16
    ensures { pos result ≡ pos (if response then 32768 else 0) +ℤ opcode *ℤ pos 2048
        +ℤ pos (if desired then 256 else 0) +ℤ code }
{
    let mut word = u16::from(opcode.value()) << 11;
    if response {
        word |= 0x8000;
    }
    if desired {
        word |= 0x0100;
    }
    word | u16::from(code.value())
}

pub fn frame(urgent: bool, level: u3, last: bool) -> u8
    ensures { pos result ≡ pos (if urgent then 128 else 0) +ℤ level *ℤ pos 16
        +ℤ pos (if last then 1 else 0) }
{
    let mut word = u8::from(level) << 4;
    if urgent {
        word |= 0x80;
    }
    if last {
        word |= 0x01;
    }
    word
}

pub fn with_source(register: u32, source: u2) -> u32
    ensures source { Congruent 2 (pos result) source }
    ensures above { result / 4 ≡ register / 4 }
{
    (register & 0xFFFF_FFFC) | u32::from(source.value())
}
