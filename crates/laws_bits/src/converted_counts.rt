//! Laws about the counts of a converted number: to the other sign, and to a primitive.
#![tactic(auto, using(arbitrary_laws::proofs::counts::ConvertedCounts::converted_counts))]

ghost use Rattle.std.specs.Prelude.{◌≢◌, pos, IsTrue};

use arbitrary_int::prelude::*;

pub fn ones_with_no_sign(x: i24) -> bool
    ensures { IsTrue result }
{
    x.to_unsigned().count_ones() == x.count_ones()
}

pub fn leading_zeros_of_a_primitive(x: UInt<u64, 64>) -> bool
    ensures { IsTrue result }
{
    x.leading_zeros() == x.value().leading_zeros()
}

pub fn ones_of_a_signed_primitive(x: Int<i16, 16>) -> bool
    ensures { IsTrue result }
{
    x.count_ones() == x.value().count_ones()
}

pub fn trailing_zeros_in_the_storage(x: u12) -> bool
    requires { x ≢ pos 0 }
    ensures { IsTrue result }
{
    x.trailing_zeros() == x.value().trailing_zeros()
}
