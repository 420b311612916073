//! Laws about the distance of two signed numbers as an unsigned number: it is exact even if the signed
//! difference is out of range.
#![tactic(auto, using(arbitrary_laws::proofs::sums::Distances::distances))]

ghost use Rattle.std.specs.Prelude.{◌≡◌, ◌-ℤ◌, ◌≤ℤ◌};

use arbitrary_int::prelude::*;

pub fn up_to(low: i48, high: i48) -> u48
    requires { low ≤ℤ high }
    ensures { result ≡ high -ℤ low }
{
    high.wrapping_sub(low).to_unsigned()
}

pub fn apart(x: i33, y: i33) -> u33
    ensures up { x ≤ℤ y → result ≡ y -ℤ x }
    ensures down { y ≤ℤ x → result ≡ x -ℤ y }
{
    if x < y {
        y.wrapping_sub(x).to_unsigned()
    } else {
        x.wrapping_sub(y).to_unsigned()
    }
}
