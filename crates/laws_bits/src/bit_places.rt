//! Laws about bits by their places, in signed and unsigned types: one bit is set, cleared or toggled and then
//! tested, and several flags are tested at once.
#![tactic(auto, using(arbitrary_laws::proofs::masks::FlagTests::flag_tests))]

ghost use Rattle.std.specs.Prelude.{◌<◌, IsTrue};

use arbitrary_int::prelude::*;

#[tactic(auto, using(arbitrary_laws::proofs::places::BitPlaces::bit_places))]
pub fn turned_then_tested(x: u12, place: u32) -> bool
    requires { place < 12 }
    ensures { IsTrue result }
{
    let one = u12::new(1) << place;
    ((x ^ one) & one == u12::new(0)) == (x & one != u12::new(0))
}

#[tactic(auto, using(arbitrary_laws::proofs::places::BitPlaces::bit_places))]
pub fn set_then_tested_with_a_sign(x: i12, place: u32) -> bool
    requires { place < 12 }
    ensures { IsTrue result }
{
    ((x | (i12::new(1) << place)) >> place) & i12::new(1) == i12::new(1)
}

pub fn both_flags(x: u12) -> bool
    ensures { IsTrue result }
{
    (x & u12::new(0x12) == u12::new(0x12))
        == (x & u12::new(2) != u12::new(0) && x & u12::new(0x10) != u12::new(0))
}

pub fn any_flag_with_a_sign(x: i12) -> bool
    ensures { IsTrue result }
{
    (x & i12::new(0x12) != i12::new(0))
        == (x & i12::new(2) != i12::new(0) || x & i12::new(0x10) != i12::new(0))
}
