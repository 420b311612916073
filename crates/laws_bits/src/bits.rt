//! Laws about one of `& | ^` with `!`, once or nested, each with the set `bits` alone. `distribution` nests two
//! of them.
#![tactic(auto, using(arbitrary_laws::proofs::bits::Rulesets::bits))]

ghost use Rattle.std.specs.Prelude.{IsTrue};

use arbitrary_int::prelude::*;

pub fn and_comm(x: u12, y: u12) -> bool
    ensures { IsTrue result }
{
    (x & y) == (y & x)
}

pub fn and_assoc(x: u12, y: u12, z: u12) -> bool
    ensures { IsTrue result }
{
    ((x & y) & z) == (x & (y & z))
}

pub fn or_zero(x: u12) -> bool
    ensures { IsTrue result }
{
    (x | u12::zero()) == x
}

pub fn and_not_self(x: u12) -> bool
    ensures { IsTrue result }
{
    (x & !x) == u12::zero()
}

pub fn or_not_self(x: u12) -> bool
    ensures { IsTrue result }
{
    (x | !x) == u12::max_value()
}

pub fn xor_zero_is_equal_signed(x: i12, y: i12) -> bool
    ensures { IsTrue result }
{
    ((x ^ y) == i12::zero()) == (x == y)
}
