//! Laws that two tests of bits are equal, each with the set `mask_tests` alone.
#![tactic(auto, using(arbitrary_laws::proofs::bits::Rulesets::mask_tests))]

ghost use Rattle.std.specs.Prelude.{◌≡◌, ◌↔◌, pos, IsTrue};

use arbitrary_int::prelude::*;

pub fn within_mask(x: u24, y: u24) -> bool
    ensures { IsTrue result }
{
    (x & y == x) == (x & !y == u24::zero())
}

pub fn changes_nothing(x: u12, y: u12) -> bool
    ensures { IsTrue result }
{
    (x ^ y == x) == (y == u12::zero())
}

pub fn no_bit_in_common(a: i12, b: i12) -> bool
    ensures { IsTrue result }
{
    a & b != i12::zero() || a ^ b == a | b
}

pub fn no_bit_in_either(x: i24, y: i24) -> bool
    ensures { IsTrue result }
{
    (x | y == i24::zero()) == (x == i24::zero() && y == i24::zero())
}

pub fn nothing_joined(x: i33, y: i33) -> bool
    ensures { IsTrue result ↔ ((x ≡ pos 0) × (y ≡ pos 0)) }
{
    x | y == i33::zero()
}

pub fn greatest_in_both(x: u48, y: u48) -> bool
    ensures { IsTrue result }
{
    (x & y == u48::max_value()) == (x == u48::max_value() && y == u48::max_value())
}
