//! Laws about nested `& | ^ !`.
#![tactic(auto, using(arbitrary_laws::proofs::bits::Rulesets::distribution))]

ghost use Rattle.std.specs.Prelude.{IsTrue};

use arbitrary_int::prelude::*;

pub fn absorb_and(x: u12, y: u12) -> bool
    ensures { IsTrue result }
{
    (x & (x | y)) == x
}

pub fn and_or_distributes(x: u12, y: u12, z: u12) -> bool
    ensures { IsTrue result }
{
    (x & (y | z)) == ((x & y) | (x & z))
}

pub fn de_morgan_and(x: u12, y: u12) -> bool
    ensures { IsTrue result }
{
    (!(x & y)) == (!x | !y)
}

pub fn xor_is_or_minus_and(x: u12, y: u12) -> bool
    ensures { IsTrue result }
{
    (x ^ y) == ((x | y) & !(x & y))
}
