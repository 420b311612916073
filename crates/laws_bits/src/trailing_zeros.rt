//! Laws about the trailing zeros of a multiple of a power of two.
#![tactic(auto, using(arbitrary_laws::proofs::counts::TrailingZeros::trailing_zeros))]

ghost use Rattle.std.specs.Prelude.{◌≢◌, pos, IsTrue};

use arbitrary_int::prelude::*;

pub fn of_a_multiple(x: u24) -> bool
    requires { x ≢ pos 0 }
    ensures { IsTrue result }
{
    (x.trailing_zeros() >= 3) == (x.value() % 8 == 0)
}
