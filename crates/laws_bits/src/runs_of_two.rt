//! Laws about the leading and trailing zeros and ones of `&`, `|` and `^` of two numbers and of a shifted
//! number, and about both ends of one number.
#![tactic(auto, using(arbitrary_laws::proofs::counts::RunsOfTwo::runs_of_two))]

ghost use Rattle.std.specs.Prelude.{◌≢◌, pos, IsTrue};

use arbitrary_int::prelude::*;

pub fn leading_zeros_of_or(x: u12, y: u12) -> bool
    ensures { IsTrue result }
{
    (x | y).leading_zeros() == x.leading_zeros().min(y.leading_zeros())
}

pub fn leading_zeros_of_right_shift(x: u24) -> bool
    ensures { IsTrue result }
{
    (x >> 3).leading_zeros() == (x.leading_zeros() + 3).min(24)
}

#[tactic(auto, using(arbitrary_laws::proofs::counts::RunsOfTwo::both_ends))]
pub fn zeros_at_both_ends(x: u12) -> bool
    requires { x ≢ pos 0 }
    ensures { IsTrue result }
{
    x.leading_zeros() + x.trailing_zeros() < 12
}

#[tactic(auto, using(arbitrary_laws::proofs::counts::RunsOfTwo::highest_one))]
pub fn moved_up_to_the_highest_place(x: u12) -> bool
    requires { x ≢ pos 0 }
    ensures { IsTrue result }
{
    (x << x.leading_zeros()).leading_zeros() == 0
}
