//! Laws about the sign mask `x >> (BITS - 1)`, and about a number under it.
#![tactic(auto, using(arbitrary_laws::proofs::signs::SignWord::signs))]

ghost use Rattle.std.specs.Prelude.{IsTrue};

use arbitrary_int::prelude::*;

pub fn turned_by_the_sign(x: i48) -> bool
    ensures { IsTrue result }
{
    x ^ (x >> 47) == if x < i48::new(0) { !x } else { x }
}

pub fn least_of_zero(x: i12) -> bool
    ensures { IsTrue result }
{
    x & (x >> 11) == x.min(i12::new(0))
}
