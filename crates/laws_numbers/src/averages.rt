//! Laws about the mean of two numbers by their bits, where no sum overflows: rounded down and up, signed and
//! unsigned.
#![tactic(auto, using(arbitrary_laws::proofs::sums::Averages::averages))]

ghost use Rattle.std.specs.Prelude.{◌*ℤ◌, ◌+ℤ◌, ◌≡◌, ◌≤ℤ◌, IsTrue, int_div, pos};

use arbitrary_int::prelude::*;

pub fn down(x: u31, y: u31) -> u31
    ensures { result ≡ int_div (x +ℤ y) (pos 2) }
{
    (x & y) + ((x ^ y) >> 1)
}

pub fn down_with_a_sign(x: i24, y: i24) -> i24
    ensures low { (pos 2 *ℤ result) ≤ℤ (x +ℤ y) }
    ensures high { (x +ℤ y) ≤ℤ (pos 2 *ℤ result +ℤ pos 1) }
{
    (x & y) + ((x ^ y) >> 1)
}

pub fn up(x: u24, y: u24) -> u24
    ensures { result ≡ int_div (x +ℤ y +ℤ pos 1) (pos 2) }
{
    (x | y) - ((x ^ y) >> 1)
}

pub fn between_both(x: u12, y: u12) -> bool
    ensures { IsTrue result }
{
    (x & y).wrapping_add((x ^ y) >> 1) >= x.min(y) && (x & y).wrapping_add((x ^ y) >> 1) <= x.max(y)
}
