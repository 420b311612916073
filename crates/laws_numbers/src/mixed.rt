//! Laws about bits and sums.
#![tactic(auto, using(arbitrary_laws::proofs::sums::Rulesets::mixed))]

ghost use Rattle.std.specs.Prelude.{IsTrue};

use arbitrary_int::prelude::*;

pub fn add_is_or_plus_and(x: u12, y: u12) -> bool
    ensures { IsTrue result }
{
    x.wrapping_add(y) == ((x | y).wrapping_add(x & y))
}

pub fn add_of_disjoint(x: i12, y: i12) -> bool
    ensures { IsTrue result }
{
    x & y != i12::zero() || x.wrapping_add(y) == x | y
}
