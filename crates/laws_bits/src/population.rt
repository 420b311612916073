//! Laws about the number of ones in `&`, `|`, `^` and `!` of two numbers, and in a sum of numbers that share no
//! bit.
#![tactic(auto, using(arbitrary_laws::proofs::counts::Population::population))]

ghost use Rattle.std.specs.Prelude.{IsTrue};

use arbitrary_int::prelude::*;

pub fn ones_of_two_parts(x: u24, y: u24) -> bool
    ensures { IsTrue result }
{
    (x & !y).count_ones() + (x & y).count_ones() == x.count_ones()
}

pub fn none_differ_where_equal(x: i12, y: i12) -> bool
    ensures { IsTrue result }
{
    ((x ^ y).count_ones() == 0) == (x == y)
}

pub fn ones_of_a_sum_that_shares_none(x: u24, y: u24) -> bool
    ensures { IsTrue result }
{
    x & y != u24::zero() || x.wrapping_add(y).count_ones() == x.count_ones() + y.count_ones()
}
