//! Laws about the complements of `^` and `|` in sums, and about `^` without carries.
#![tactic(auto, using(arbitrary_laws::proofs::bits::ComplementParts::complement_parts))]

ghost use Rattle.std.specs.Prelude.{IsTrue};

use arbitrary_int::prelude::*;

pub fn not_of_xor_by_parts(x: u12, y: u12) -> bool
    ensures { IsTrue result }
{
    !(x ^ y) == (x & y).wrapping_add(!(x | y))
}

pub fn and_by_complement(x: u24, y: u24) -> bool
    ensures { IsTrue result }
{
    x & y == (!x | y).wrapping_sub(!x)
}

#[tactic(auto, using(arbitrary_laws::proofs::bits::ComplementParts::carried))]
pub fn xor_without_carries(x: u12, y: u12) -> bool
    ensures { IsTrue result }
{
    x ^ y == x.wrapping_add(y).wrapping_sub((x & y) << 1)
}
