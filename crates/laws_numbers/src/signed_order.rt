//! Laws about the order of a signed number and its `&` or `|` with another.
#![tactic(auto, using(arbitrary_laws::proofs::orders::Rulesets::signed_order))]

ghost use Rattle.std.specs.Prelude.{IsTrue};

use arbitrary_int::prelude::*;

pub fn negative_mask_lowers(x: i12) -> bool
    ensures { IsTrue result }
{
    x & i12::new(-16) <= x
}

pub fn bits_set_from_a_natural_number_raise(x: i48, y: i48) -> bool
    ensures { IsTrue result }
{
    y < i48::zero() || x <= x | y
}
