//! Laws about a shifted number and one below its lowest place: `|` and `^` of both are their sum, exact and
//! wrapped.
#![tactic(auto, using(arbitrary_laws::proofs::sums::LowSums::low_sums))]

ghost use Rattle.std.specs.Prelude.{◌<ℤ◌, ◌≤ℤ◌, IsTrue, pos};

use arbitrary_int::prelude::*;

pub fn or_is_a_wrapped_sum(x: u24, y: u24) -> bool
    requires { y <ℤ pos 16 }
    ensures { IsTrue result }
{
    (x << 4) | y == (x << 4).wrapping_add(y)
}

pub fn or_is_a_sum(x: u48, y: u48) -> bool
    requires { y <ℤ pos 256 }
    ensures { IsTrue result }
{
    (x << 8) | y == (x << 8) + y
}

pub fn xor_is_a_wrapped_sum_with_a_sign(x: i12, y: i12) -> bool
    requires low { pos 0 ≤ℤ y }
    requires high { y <ℤ pos 8 }
    ensures { IsTrue result }
{
    (x << 3) ^ y == (x << 3).wrapping_add(y)
}
