//! Laws about a number with its bytes in reverse order: its bits, its counts and its reversal.
#![tactic(auto, using(arbitrary_laws::proofs::bytes::SwappedBytes::swapped_words))]

ghost use Rattle.std.specs.Prelude.{IsTrue};

use arbitrary_int::prelude::*;

pub fn swapped_and(x: u24, y: u24) -> bool
    ensures { IsTrue result }
{
    (x & y).swap_bytes() == x.swap_bytes() & y.swap_bytes()
}

pub fn ones_of_swapped(x: i40) -> bool
    ensures { IsTrue result }
{
    x.swap_bytes().count_ones() == x.count_ones()
}

pub fn swapped_reversal(x: u24) -> bool
    ensures { IsTrue result }
{
    x.reverse_bits().swap_bytes() == x.swap_bytes().reverse_bits()
}

pub fn swapped_equal(x: i24, y: i24) -> bool
    ensures { IsTrue result }
{
    (x.swap_bytes() == y.swap_bytes()) == (x == y)
}
