//! Laws about a rotation to the right by a variable amount, as a rotation to the left by the width minus the
//! amount.
#![tactic(auto, using(arbitrary_laws::proofs::rotations::BackRotations::back_rotations))]

ghost use Rattle.std.specs.Prelude.{◌≤◌, IsTrue};

use arbitrary_int::prelude::*;

pub fn right_is_left_by_the_rest(x: u12, n: u32) -> bool
    requires { n ≤ 12 }
    ensures { IsTrue result }
{
    x.rotate_right(n) == x.rotate_left(12 - n)
}

pub fn left_is_right_by_the_rest(x: i31, n: u32) -> bool
    requires { n ≤ 31 }
    ensures { IsTrue result }
{
    x.rotate_left(n) == x.rotate_right(31 - n)
}
