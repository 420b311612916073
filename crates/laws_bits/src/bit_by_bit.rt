//! Laws about `& | ^ !` at several widths, each with the set `bit_by_bit` alone, which compares the two sides
//! bit by bit.
#![tactic(auto, using(arbitrary_laws::proofs::bits::Rulesets::bit_by_bit))]

ghost use Rattle.std.specs.Prelude.{IsTrue};

use arbitrary_int::prelude::*;

pub fn and_by_xor(x: u24, y: u24) -> bool
    ensures { IsTrue result }
{
    x & y == x ^ (x & !y)
}

pub fn both_ors(x: i12, y: i12) -> bool
    ensures { IsTrue result }
{
    (x | y) & (x | !y) == x
}

pub fn majority<const BITS: usize>(
    x: UInt<u16, BITS>,
    y: UInt<u16, BITS>,
    z: UInt<u16, BITS>,
) -> bool
    ensures { IsTrue result }
{
    ((x ^ y) & z) | (x & y) == (x & y) | (x & z) | (y & z)
}

pub fn result_on_the_right(x: u48, y: u48) -> bool
    ensures { IsTrue result }
{
    x == (x & !y) | (x & y)
}

pub fn turned_over(x: i12, y: i12) -> bool
    ensures { IsTrue result }
{
    (x ^ i12::new(-1)) & y == y & !x
}
