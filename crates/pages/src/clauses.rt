//! Clauses about these integers. In a clause a value is its number.

ghost use Rattle.std.specs.Prelude.{◌≡◌, ◌+ℤ◌, ◌<ℤ◌, ◌%◌, pos, unsigned_abs, slice_get, slice_set, Some};
ghost use Rattle.arbitrary_int.specs.Residue.{Congruent};

use arbitrary_int::prelude::*;

/// The low half of a byte.
pub fn low_half(byte: u8) -> u4
    ensures number { result ≡ pos (byte % 16) }
    ensures small { result <ℤ pos 16 }
{
    u4::new(byte % 16)
}

/// The sum of two halves, in a byte.
pub fn sum(a: u4, b: u4) -> u8
    ensures { pos result ≡ a +ℤ b }
{
    a.value() + b.value()
}

/// The register of that number.
pub fn register(registers: &[u12; 8], place: u3) -> u12
    ensures { slice_get registers.now (unsigned_abs place) ≡ Some result }
{
    registers[place.as_usize()]
}

/// Writes one register. The others do not change.
pub fn write(registers: &mut [u12; 8], place: u3, value: u12)
    ensures { registers.new ≡ slice_set registers.old (unsigned_abs place) value }
{
    registers[place.as_usize()] = value;
}

/// Two steps of a counter that wraps.
pub fn two_steps(count: u12) -> u12
    ensures { Congruent 12 result (count +ℤ pos 2) }
{
    count.wrapping_add(u12::new(1)).wrapping_add(u12::new(1))
}

/// The low 12 bits of a sum.
pub fn low_sum(a: u24, b: u24) -> u12
    ensures { Congruent 12 result (a +ℤ b) }
{
    a.wrapping_add(b).as_::<u12>()
}

/// The shorter turn from one direction to another, in steps of which a full turn has 16,384.
pub fn turn(from: u14, to: u14) -> i14
    ensures { Congruent 14 (from +ℤ result) to }
{
    to.wrapping_sub(from).as_::<i14>()
}
