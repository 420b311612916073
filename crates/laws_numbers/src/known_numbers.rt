//! Laws about the results of calls on constants.
#![tactic(auto, using(arbitrary_laws::proofs::written::Rulesets::known_numbers))]

ghost use Rattle.std.specs.Prelude.{IsTrue};

use arbitrary_int::prelude::*;

pub fn bits_of_negative_numbers() -> bool
    ensures { IsTrue result }
{
    i12::new(-5) & i12::new(12) == i12::new(8) && i12::new(-1) ^ i12::new(15) == i12::new(-16)
}

pub fn rotated_right() -> bool
    ensures { IsTrue result }
{
    i7::new(-2).rotate_right(3) == i7::new(-17)
}

pub fn reversed_to_one() -> bool
    ensures { IsTrue result }
{
    i24::new(-0x80_0000).reverse_bits() == i24::new(1)
}
