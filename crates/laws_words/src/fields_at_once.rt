//! Several fields that are written into a primitive at once, also with a constant. Each is read back, and the
//! other bits do not change.
#![tactic(auto, using(arbitrary_laws::proofs::fields::FieldReads::field_reads))]

ghost use Rattle.std.specs.Prelude.{◌≡◌, ◌/◌, ◌%◌, pos};

use arbitrary_int::prelude::*;

pub fn started(control: u32, mode: u3, channel: u5) -> u32
    ensures mode { pos (result / 16 % 8) ≡ mode }
    ensures channel { pos (result / 2048 % 32) ≡ channel }
    ensures start { result / 512 % 2 ≡ 1 }
    ensures between { result / 128 % 4 ≡ control / 128 % 4 }
    ensures below { result % 16 ≡ control % 16 }
{
    (control & !0xF870) | 0x200 | (mode.as_u32() << 4) | (channel.as_u32() << 11)
}

/// Bits 4 to 6 are the mode.
pub struct Status {
    pub word: u16,
}

impl Status {
    pub fn set_mode(&mut self, mode: u3)
        ensures mode { pos (self.new.word / 16 % 8) ≡ mode }
        ensures below { self.new.word % 16 ≡ self.old.word % 16 }
        ensures above { self.new.word / 128 % 512 ≡ self.old.word / 128 % 512 }
    {
        self.word &= !(0x7 << 4);
        self.word |= u16::from(mode.value()) << 4;
    }
}
