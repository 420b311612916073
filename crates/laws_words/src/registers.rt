//! Words of registers: fields that are joined, written in place, shifted and read back, and flags among them.
#![tactic(auto, using(arbitrary_laws::proofs::fields::Rulesets::registers))]

ghost use Rattle.std.specs.Prelude.{◌≡◌, ◌/◌, ◌%◌, pos, IsTrue};

use arbitrary_int::prelude::*;

/// The divider of a clock is in bits 0 to 9, its source in bits 10 to 12, and bit 15 enables it.
pub struct Clock {
    pub word: u32,
}

impl Clock {
    pub fn set_source(&mut self, source: u3)
        ensures written { pos (self.new.word / 1024 % 8) ≡ source }
        ensures below { self.new.word % 1024 ≡ self.old.word % 1024 }
        ensures above { self.new.word / 8192 ≡ self.old.word / 8192 }
    {
        self.word = (self.word & !0x1C00) | (source.as_u32() << 10);
    }
}

// ---- flags

pub fn flag_between_fields(high: u3, flag: bool, low: u4) -> bool
    ensures { IsTrue result }
{
    let word = (high.value() << 5) | (u8::from(flag) << 4) | low.value();
    ((word >> 4) & 1 == 1) == flag
}

pub fn one_set_and_one_cleared(word: u32) -> bool
    ensures { IsTrue result }
{
    let written = (word | (1 << 5)) & !(1 << 9);
    written & (1 << 5) != 0 && written & (1 << 9) == 0
}

pub fn set_where_it_is_so(zero: bool, carry: bool) -> bool
    ensures { IsTrue result }
{
    let mut flags = 0u8;
    if zero {
        flags |= 0x80;
    }
    if carry {
        flags |= 0x10;
    }
    (flags & 0x80 != 0) == zero
}

pub fn switched(control: u24, on: bool) -> bool
    ensures { IsTrue result }
{
    let written = (control & !u24::new(0x80)) | (u24::from_(u1::from(on)) << 7);
    (written & u24::new(0x80) != u24::zero()) == on
}

// ---- fields that move

pub fn nibbles_swapped_twice(x: u8) -> bool
    ensures { IsTrue result }
{
    let swapped = (x << 4) | (x >> 4);
    (swapped << 4) | (swapped >> 4) == x
}

// ---- the other bits of a field's word

pub fn low_byte_below_a_field(control: u32, field: u6) -> bool
    ensures { IsTrue result }
{
    let written = (control & !0x3F00) | (field.as_u32() << 8);
    written.as_u8() == control.as_u8()
}

pub fn sign_of_a_field(word: u16) -> bool
    ensures { IsTrue result }
{
    (i12::extract_u16(word, 0) < i12::zero()) == (word & 0x800 != 0)
}
