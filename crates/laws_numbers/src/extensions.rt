//! Laws that operations on the bits of an extended number have the same result at the wider type, at the storage
//! and at wider primitives.
#![tactic(auto, using(arbitrary_laws::proofs::signs::Extensions::extensions))]

ghost use Rattle.std.specs.Prelude.{◌<◌, IsTrue};

use arbitrary_int::prelude::*;

pub fn and(x: i12, y: i12) -> bool
    ensures { IsTrue result }
{
    i24::from_(x & y) == i24::from_(x) & i24::from_(y)
}

pub fn right_shift(x: i12) -> bool
    ensures { IsTrue result }
{
    i24::from_(x >> 3) == i24::from_(x) >> 3
}

pub fn right_shift_of_the_primitive(x: i12, k: u32) -> bool
    requires { k < 12 }
    ensures { IsTrue result }
{
    (x >> k).value() == x.value() >> k
}

pub fn or_of_the_storage(x: Int<i16, 16>, y: Int<i16, 16>) -> bool
    ensures { IsTrue result }
{
    (x | y).value() == x.value() | y.value()
}

pub fn xor_of_a_wider_primitive(x: i24, y: i24) -> bool
    ensures { IsTrue result }
{
    (x ^ y).as_i64() == x.as_i64() ^ y.as_i64()
}
