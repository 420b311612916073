//! Laws about bits that shifts, rotations, constant masks and conversions move, each with the set `moved_bits`
//! alone, at several widths.
#![tactic(auto, using(arbitrary_laws::proofs::places::MovedBits::moved_bits))]

ghost use Rattle.std.specs.Prelude.{IsTrue};

use arbitrary_int::prelude::*;

pub fn complement_moved(x: u12) -> bool
    ensures { IsTrue result }
{
    (!x) << 2 == !(x << 2) ^ u12::new(3)
}

pub fn left_and_less_right(x: u24) -> bool
    ensures { IsTrue result }
{
    (x << 8) >> 4 == (x << 4) & u24::new(0xFFFFF)
}

pub fn right_and_left(x: i24) -> bool
    ensures { IsTrue result }
{
    (x >> 4) << 4 == x & i24::new(-16)
}

pub fn mask_rotated(x: u12) -> bool
    ensures { IsTrue result }
{
    (x & u12::new(0xF)).rotate_left(4) == x.rotate_left(4) & u12::new(0xF0)
}

pub fn complement_of_two_fields(high: u12, low: u12) -> bool
    ensures { IsTrue result }
{
    !((u24::from_(high) << 12) | u24::from_(low)) == (u24::from_(!high) << 12) | u24::from_(!low)
}

pub fn fields_side_by_side(a: u12, b: u12, c: u12, d: u12) -> bool
    ensures { IsTrue result }
{
    ((u24::from_(a) << 12) | u24::from_(b)) & ((u24::from_(c) << 12) | u24::from_(d))
        == (u24::from_(a & c) << 12) | u24::from_(b & d)
}
