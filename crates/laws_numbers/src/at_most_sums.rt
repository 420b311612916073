//! Laws that `|` and `^` are at most the sum.
#![tactic(auto, using(arbitrary_laws::proofs::bits::BitSums::at_most_sums))]

ghost use Rattle.std.specs.Prelude.{◌+ℤ◌, ◌≤ℤ◌};

use arbitrary_int::prelude::*;

pub fn or_is_at_most_the_sum(x: u24, y: u24) -> u24
    ensures { result ≤ℤ (x +ℤ y) }
{
    x | y
}

pub fn xor_is_at_most_the_sum(x: u48, y: u48) -> u48
    ensures { result ≤ℤ (x +ℤ y) }
{
    x ^ y
}
