//! Signed numbers in words of a primitive: samples under a mask, jumps by an offset, and signed fields.
#![tactic(auto, using(arbitrary_laws::proofs::Sets::fields))]

ghost use Rattle.std.specs.Prelude.{◌≡◌, ◌+ℤ◌, ◌-ℤ◌, ◌*ℤ◌, pos, false};
ghost use Rattle.arbitrary_int.specs.Residue.{Congruent, wrap};

use arbitrary_int::prelude::*;

// ---- in the low bits of a word

pub fn sample(word: u16) -> i12
    ensures { Congruent 12 result (pos word) }
{
    i12::from_bits(word & 0xFFF)
}

// ---- jumps, whose sums wrap

pub fn relative_jump(counter: u16, offset: i12) -> u16
    ensures { Congruent 16 (pos result) (pos counter +ℤ offset +ℤ pos 1) }
{
    counter.wrapping_add(offset.as_u16()).wrapping_add(1)
}

pub fn from_offset(counter: u16, offset: i9) -> u16
    ensures { Congruent 16 (pos result) (offset +ℤ pos counter) }
{
    offset.as_u16().wrapping_add(counter)
}

pub fn jump_back(counter: u16, offset: i9) -> u16
    ensures { Congruent 16 (pos result) (pos counter -ℤ offset) }
{
    counter.wrapping_sub(offset.as_u16())
}

// ---- fields

pub fn add_immediate(target: u5, source: u5, immediate: i12) -> u32
    ensures { pos result ≡ wrap false 12 immediate *ℤ pos 1048576 +ℤ source *ℤ pos 32768
        +ℤ target *ℤ pos 128 +ℤ pos 19 }
{
    (u32::from(immediate.to_bits()) << 20)
        | (u32::from_(source) << 15)
        | (u32::from_(target) << 7)
        | 0x13
}
