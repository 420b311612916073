//! Laws about a number shifted right by its trailing zeros: the result is odd, and shifting it back returns the
//! number.
#![tactic(auto, using(arbitrary_laws::proofs::counts::NormalShifts::normal_shifts))]

ghost use Rattle.std.specs.Prelude.{◌≡◌, ◌≢◌, ◌%◌, pos, unsigned_abs, IsTrue};

use arbitrary_int::prelude::*;

pub fn odd_part(x: i40) -> i40
    requires { x ≢ pos 0 }
    ensures { unsigned_abs result % 2 ≡ 1 }
{
    x >> x.trailing_zeros()
}

pub fn shifted_back(x: i12) -> bool
    requires { x ≢ pos 0 }
    ensures { IsTrue result }
{
    let zeros = x.trailing_zeros();
    (x >> zeros) << zeros == x
}
