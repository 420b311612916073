//! Laws about the parity of the number of ones.
#![tactic(auto, using(arbitrary_laws::proofs::counts::Population::parities))]

ghost use Rattle.std.specs.Prelude.{◌<◌, IsTrue};

use arbitrary_int::prelude::*;

pub fn of_xor(x: u12, y: u12) -> bool
    ensures { IsTrue result }
{
    (x ^ y).count_ones() % 2 == (x.count_ones() + y.count_ones()) % 2
}

pub fn one_bit_turned_over(x: u24, place: u32) -> bool
    requires { place < 24 }
    ensures { IsTrue result }
{
    (x ^ (u24::new(1) << place)).count_ones() % 2 != x.count_ones() % 2
}
