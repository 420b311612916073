//! Laws about differences of `&`, `|` and `^` whose result is negated.
#![tactic(auto, using(arbitrary_laws::proofs::bits::NegatedParts::negated_parts))]

ghost use Rattle.std.specs.Prelude.{IsTrue};

use arbitrary_int::prelude::*;

pub fn xor_less_or(x: u12, y: u12) -> bool
    ensures { IsTrue result }
{
    (x ^ y).wrapping_sub(x | y) == (x & y).wrapping_neg()
}

pub fn and_less_or(x: i12, y: i12) -> bool
    ensures { IsTrue result }
{
    (x & y).wrapping_sub(x | y) == (x ^ y).wrapping_neg()
}
