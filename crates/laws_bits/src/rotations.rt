//! Laws about rotations.
#![tactic(auto, using(arbitrary_laws::proofs::rotations::Rulesets::rotations))]

ghost use Rattle.std.specs.Prelude.{IsTrue};

use arbitrary_int::prelude::*;

pub fn rotl_rotl(x: u12) -> bool
    ensures { IsTrue result }
{
    x.rotate_left(1).rotate_left(2) == x.rotate_left(3)
}

pub fn rotl_is_rotr(x: u12) -> bool
    ensures { IsTrue result }
{
    x.rotate_left(12 - 3) == x.rotate_right(3)
}

pub fn rotl_and(x: u12, y: u12) -> bool
    ensures { IsTrue result }
{
    ((x & y).rotate_left(3)) == (x.rotate_left(3) & y.rotate_left(3))
}

pub fn rotl_ones_value() -> bool
    ensures { IsTrue result }
{
    u12::max_value().rotate_left(3) == u12::max_value()
}
