//! Laws about serial numbers, which wrap: the difference decides which of two is ahead, and never are both ahead
//! of each other.
#![tactic(auto, using(arbitrary_laws::proofs::sums::SerialNumbers::serial_numbers))]

ghost use Rattle.std.specs.Prelude.{◌<ℤ◌, pos, IsTrue};

use arbitrary_int::prelude::*;

pub fn never_both_ahead(a: u12, b: u12) -> bool
    ensures { IsTrue result }
{
    let ahead = a.wrapping_sub(b).as_::<i12>() > i12::new(0);
    let behind = b.wrapping_sub(a).as_::<i12>() > i12::new(0);
    !(ahead && behind)
}

pub fn never_both_below_half(a: u33, b: u33) -> bool
    ensures { IsTrue result }
{
    let half = u33::new(1 << 32);
    !(a.wrapping_sub(b) < half && b.wrapping_sub(a) < half) || a == b
}

pub fn ahead_after_a_step(number: u12, step: u12) -> bool
    requires some { pos 0 <ℤ step }
    requires small { step <ℤ pos 2048 }
    ensures { IsTrue result }
{
    let next = number.wrapping_add(step);
    next.wrapping_sub(number) < u12::new(2048)
}
