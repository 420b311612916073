//! Laws about the complement in sums and differences.
#![tactic(auto, using(arbitrary_laws::proofs::sums::Rulesets::complements))]

ghost use Rattle.std.specs.Prelude.{IsTrue};

use arbitrary_int::prelude::*;

pub fn not_is_negated_less_one(x: u24) -> bool
    ensures { IsTrue result }
{
    !x == u24::zero().wrapping_sub(x).wrapping_sub(u24::new(1))
}

pub fn with_its_complement(x: i48) -> bool
    ensures { IsTrue result }
{
    x.wrapping_add(!x) == !i48::zero()
}

pub fn not_of_sum(x: i12, y: i12) -> bool
    ensures { IsTrue result }
{
    !(x.wrapping_add(y)) == (!x).wrapping_sub(y)
}

pub fn difference_by_not(x: u24, y: u24) -> bool
    ensures { IsTrue result }
{
    x.wrapping_sub(y) == x.wrapping_add(!y).wrapping_add(u24::new(1))
}

pub fn difference_of_nots(x: i5, y: i5) -> bool
    ensures { IsTrue result }
{
    (!x).wrapping_sub(!y) == y.wrapping_sub(x)
}
