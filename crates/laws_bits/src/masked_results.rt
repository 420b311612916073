//! Laws about sums, differences and products that wrap, under a mask of low bits, each with the set
//! `masked_results` alone.
#![tactic(auto, using(arbitrary_laws::proofs::masks::MaskedResults::masked_results))]

ghost use Rattle.std.specs.Prelude.{IsTrue};

use arbitrary_int::prelude::*;

pub fn low_bits_of_difference(x: u12, y: u12) -> bool
    ensures { IsTrue result }
{
    x.wrapping_sub(y) & u12::new(15)
        == (x & u12::new(15)).wrapping_sub(y & u12::new(15)) & u12::new(15)
}

pub fn low_bits_beside_shifted(x: u24, y: u24) -> bool
    ensures { IsTrue result }
{
    (x << 8).wrapping_add(y) & u24::new(255) == y & u24::new(255)
}
