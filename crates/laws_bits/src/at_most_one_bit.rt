//! A law about a number with a single bit that is one, by the bit that is cleared and by the count.
#![tactic(auto, using(arbitrary_laws::proofs::bits::AtMostOneBit::at_most_one_bit))]

ghost use Rattle.std.specs.Prelude.{IsTrue};

use arbitrary_int::prelude::*;

pub fn one_bit_exactly(x: u24) -> bool
    ensures { IsTrue result }
{
    (x != u24::zero() && x & (x - u24::new(1)) == u24::zero()) == (x.count_ones() == 1)
}
