//! Laws about numbers under a mask, in types of both signs.
#![tactic(auto, using(arbitrary_laws::proofs::bits::Rulesets::masks))]

ghost use Rattle.std.specs.Prelude.{IsTrue};

use arbitrary_int::prelude::*;

pub fn or_of_parts(x: i48, m: i48) -> bool
    ensures { IsTrue result }
{
    ((x & m) | (x & !m)) == x
}

pub fn sum_of_parts(x: u24, m: u24) -> bool
    ensures { IsTrue result }
{
    (x & m).wrapping_add(x & !m) == x
}

pub fn choice(x: i5, y: i5, m: i5) -> bool
    ensures { IsTrue result }
{
    ((x & m) | (y & !m)) == (y ^ ((x ^ y) & m))
}

pub fn or_and_not(x: i48, y: i48) -> bool
    ensures { IsTrue result }
{
    (x | (!x & y)) == (x | y)
}
