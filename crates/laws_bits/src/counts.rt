//! Laws about counts of bits.
#![tactic(auto, using(arbitrary_laws::proofs::counts::Rulesets::counts))]

ghost use Rattle.std.specs.Prelude.{IsTrue};

use arbitrary_int::prelude::*;

pub fn ones_of_not(x: u12) -> bool
    ensures { IsTrue result }
{
    (!x).count_ones() == x.count_zeros()
}

pub fn ones_of_rev(x: u12) -> bool
    ensures { IsTrue result }
{
    x.reverse_bits().count_ones() == x.count_ones()
}

pub fn leading_ones_of_not(x: u12) -> bool
    ensures { IsTrue result }
{
    (!x).leading_ones() == x.leading_zeros()
}

pub fn ones_of_and_and_or(x: u24, y: u24) -> bool
    ensures { IsTrue result }
{
    (x & y).count_ones() + (x | y).count_ones() == x.count_ones() + y.count_ones()
}

pub fn ones_of_and(x: i48, y: i48) -> bool
    ensures { IsTrue result }
{
    (x & y).count_ones() <= x.count_ones()
}
