//! Laws about the leading zeros of a constant, of a number below a power of two or at least 1, of the greater of
//! two numbers, and of a primitive.
#![tactic(auto, using(arbitrary_laws::proofs::counts::LeadingZeros::leading_zeros))]

ghost use Rattle.std.specs.Prelude.{◌≤◌, ◌≤ℤ◌, ◌<ℤ◌, pos, IsTrue};

use arbitrary_int::prelude::*;

pub fn of_a_number() -> bool
    ensures { IsTrue result }
{
    u24::new(17).leading_zeros() == 19
}

pub fn of_the_greater(x: u24, y: u24) -> bool
    requires { x ≤ℤ y }
    ensures { IsTrue result }
{
    y.leading_zeros() <= x.leading_zeros()
}

pub fn of_a_byte(x: u24) -> bool
    ensures { IsTrue result }
{
    (x.leading_zeros() >= 16) == (x < u24::new(256))
}

pub fn bit_length(x: u24) -> u32
    ensures short { x <ℤ pos 4096 → result ≤ 12 }
    ensures long { pos 128 ≤ℤ x → 8 ≤ result }
{
    24 - x.leading_zeros()
}

pub fn of_a_small_number_with_a_sign(x: i24) -> u32
    requires low { pos 0 ≤ℤ x }
    requires high { x <ℤ pos 100 }
    ensures { 17 ≤ result }
{
    x.leading_zeros()
}

pub fn as_in_the_storage(x: u12) -> bool
    ensures { IsTrue result }
{
    x.leading_zeros() + 4 == x.value().leading_zeros()
}
