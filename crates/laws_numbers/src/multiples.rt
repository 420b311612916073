//! Laws about multiples of one number by shifts, sums and constant factors, which wrap.
#![tactic(auto, using(arbitrary_laws::proofs::sums::Rulesets::multiples))]

ghost use Rattle.std.specs.Prelude.{IsTrue};

use arbitrary_int::prelude::*;

pub fn ten_times(x: u24) -> bool
    ensures { IsTrue result }
{
    (x << 3).wrapping_add(x << 1) == x.wrapping_mul(u24::new(10))
}

pub fn seven_times(x: i24) -> bool
    ensures { IsTrue result }
{
    (x << 3).wrapping_sub(x) == x.wrapping_mul(i24::new(7))
}
