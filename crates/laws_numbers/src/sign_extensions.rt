//! Laws that a number shifted left and back equals its conversion to a narrower type and back.
#![tactic(auto, using(arbitrary_laws::proofs::signs::SignExtensions::sign_extensions))]

ghost use Rattle.std.specs.Prelude.{IsTrue};

use arbitrary_int::prelude::*;

pub fn by_a_primitive(x: i24) -> bool
    ensures { IsTrue result }
{
    i24::from_(x.as_i8()) == (x << 16) >> 16
}

pub fn without_a_sign(x: u24) -> bool
    ensures { IsTrue result }
{
    (x << 16) >> 16 == u24::from_(x.as_u8())
}
