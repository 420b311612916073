//! Laws about carries and borrows.
#![tactic(auto, using(arbitrary_laws::proofs::sums::Rulesets::carries))]

ghost use Rattle.std.specs.Prelude.{IsTrue};

use arbitrary_int::prelude::*;

pub fn sum_by_carries(x: i12, y: i12) -> bool
    ensures { IsTrue result }
{
    x.wrapping_add(y) == (x ^ y).wrapping_add((x & y).wrapping_shl(1))
}

pub fn difference_by_borrows(x: u12, y: u12) -> bool
    ensures { IsTrue result }
{
    x.wrapping_sub(y) == (x ^ y).wrapping_sub((!x & y).wrapping_shl(1))
}

pub fn and_by_sum(x: i12, y: i12) -> bool
    ensures { IsTrue result }
{
    x & y == x.wrapping_add(y).wrapping_sub(x | y)
}

pub fn highest_bit_added(x: u4) -> bool
    ensures { IsTrue result }
{
    x.wrapping_add(u4::new(8)) == x ^ u4::new(8)
}

pub fn highest_bit_taken_away(x: i12) -> bool
    ensures { IsTrue result }
{
    x.wrapping_sub(i12::min_value()) == x ^ i12::min_value()
}
