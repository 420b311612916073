//! Laws about the lowest bit of a sum, a difference and a product.
#![tactic(auto, using(arbitrary_laws::proofs::places::LowestPlace::lowest_place))]

ghost use Rattle.std.specs.Prelude.{IsTrue};

use arbitrary_int::prelude::*;

pub fn of_a_sum(x: u12, y: u12) -> bool
    ensures { IsTrue result }
{
    x.wrapping_add(y) & u12::new(1) == (x ^ y) & u12::new(1)
}

pub fn of_a_product(x: u12, y: u12) -> bool
    ensures { IsTrue result }
{
    x.wrapping_mul(y) & u12::new(1) == x & y & u12::new(1)
}
