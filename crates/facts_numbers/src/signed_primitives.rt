//! Signed primitives with numbers that wrap: the distance of two moments, and steps by an `i8` or an `i16`.

ghost use Rattle.std.specs.Prelude.{◌+ℤ◌, ◌-ℤ◌, pos};
ghost use Rattle.arbitrary_int.specs.Residue.{Congruent};

use arbitrary_int::prelude::*;

// ---- steps by a primitive with a sign

pub fn branch(counter: u13, offset: i8) -> u13
    ensures { Congruent 13 result (counter +ℤ offset) }
{
    counter.wrapping_add(u13::masked_new(offset))
}

pub fn branch_past_the_offset(counter: u16, offset: i8) -> u16
    ensures { Congruent 16 (pos result) (pos counter +ℤ offset) }
{
    counter.wrapping_add(offset.as_u16())
}

pub fn std_branch(counter: u32, offset: i13) -> u32
    ensures { Congruent 32 (pos result) (pos counter +ℤ offset) }
{
    counter.wrapping_add_signed(i32::from(offset))
}

pub fn low_part(number: i32) -> i12
    ensures { Congruent 12 result number }
{
    i12::masked_new(number)
}

// ---- differences of two moments, read with a sign

pub fn ticks_apart(now: u16, then: u16) -> i16
    ensures { Congruent 16 result (pos now -ℤ pos then) }
{
    now.wrapping_sub(then).as_i16()
}

pub fn milliseconds_apart(after: u32, before: u32) -> i32
    ensures { Congruent 32 result (pos after -ℤ pos before) }
{
    after.wrapping_sub(before).as_i32()
}

pub fn sequence_apart(after: u12, before: u12) -> i16
    ensures { Congruent 12 result (after -ℤ before) }
{
    after.wrapping_sub(before).as_i16()
}
