//! Laws about an operand that occurs on both sides of a test and can be left out, each with the set
//! `cancellations` alone. `order` has the laws of the comparisons.
#![tactic(auto, using(arbitrary_laws::proofs::orders::Rulesets::cancellations))]

ghost use Rattle.std.specs.Prelude.{IsTrue};

use arbitrary_int::prelude::*;

pub fn sums(x: i12, y: i12, z: i12) -> bool
    ensures { IsTrue result }
{
    (z.wrapping_add(x) == z.wrapping_add(y)) == (x == y)
}

pub fn xors(x: i48, y: i48, z: i48) -> bool
    ensures { IsTrue result }
{
    (z ^ x == z ^ y) == (x == y)
}

pub fn reversals(x: u24, y: u24) -> bool
    ensures { IsTrue result }
{
    (x.reverse_bits() == y.reverse_bits()) == (x == y)
}

pub fn right_rotations(x: i5, y: i5) -> bool
    ensures { IsTrue result }
{
    (x.rotate_right(2) == y.rotate_right(2)) == (x == y)
}
