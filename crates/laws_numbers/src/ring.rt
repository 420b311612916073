//! Laws about sums and differences that wrap.
#![tactic(auto, using(arbitrary_laws::proofs::sums::Rulesets::ring))]

ghost use Rattle.std.specs.Prelude.{IsTrue};

use arbitrary_int::prelude::*;

pub fn add_assoc(x: u12, y: u12, z: u12) -> bool
    ensures { IsTrue result }
{
    x.wrapping_add(y).wrapping_add(z) == x.wrapping_add(y.wrapping_add(z))
}

pub fn sub_sub_self_signed(x: i12, y: i12) -> bool
    ensures { IsTrue result }
{
    x.wrapping_sub(x.wrapping_sub(y)) == y
}

pub fn difference_of_sums(x: u24, y: u24, z: u24) -> bool
    ensures { IsTrue result }
{
    x.wrapping_add(z).wrapping_sub(y.wrapping_add(z)) == x.wrapping_sub(y)
}

pub fn negated_twice_beside_the_flag(x: i12) -> bool
    ensures { IsTrue result }
{
    x.overflowing_neg().0.overflowing_neg().0 == x
}
