//! Laws about nested constants under `&`, `|` and `^`, and about the parts of a number under constant masks.
#![tactic(auto, using(arbitrary_laws::proofs::masks::Rulesets::written_masks))]

ghost use Rattle.std.specs.Prelude.{IsTrue};

use arbitrary_int::prelude::*;

pub fn set_twice(x: u12) -> bool
    ensures { IsTrue result }
{
    (x | u12::new(0x0F)) | u12::new(0xF0) == x | u12::new(0xFF)
}

pub fn turned_twice(x: i12) -> bool
    ensures { IsTrue result }
{
    x ^ i12::new(0x0F) ^ i12::new(0xF0) == x ^ i12::new(0xFF)
}

pub fn three_parts(x: u24) -> bool
    ensures { IsTrue result }
{
    (x & u24::new(0xFF0000)) | (x & u24::new(0x00FF00)) | (x & u24::new(0x0000FF)) == x
}

/// Bits that were set, under a mask that shares none of them.
pub fn set_beside(x: u12) -> bool
    ensures { IsTrue result }
{
    (x | u12::new(0x0F0)) & u12::new(0xF0F) == x & u12::new(0xF0F)
}
