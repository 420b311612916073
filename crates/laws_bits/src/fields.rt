//! Laws about fields joined by `|`, about fields written in place, and about one bit and the others.
#![tactic(auto, using(arbitrary_laws::proofs::fields::Rulesets::written_fields))]

ghost use Rattle.std.specs.Prelude.{◌≡◌, ◌≢◌, ◌/◌, ◌%◌, ◌^◌, ◌<◌, ◌<ℤ◌, ℕ, pos, unsigned_abs, IsTrue};

use arbitrary_int::prelude::*;

pub fn written_is_under_the_mask(register: u24, mode: u2) -> bool
    ensures { IsTrue result }
{
    let written = (register & !u24::new(0x30)) | (u24::from_(mode) << 4);
    written & u24::new(0x30) == u24::from_(mode) << 4
}

pub fn others_are_outside_the_mask(register: u24, mode: u2) -> bool
    ensures { IsTrue result }
{
    let written = (register & !u24::new(0x30)) | (u24::from_(mode) << 4);
    written & !u24::new(0x30) == register & !u24::new(0x30)
}

#[tactic(auto, using(arbitrary_laws::proofs::places::Rulesets::other_bits))]
pub fn other_bits_stay(map: u24, place: u5) -> u24
    requires { place <ℤ pos 24 }
    ensures { (k : ℕ) → k ≢ unsigned_abs place
        → unsigned_abs result / 2 ^ k % 2 ≡ unsigned_abs map / 2 ^ k % 2 }
{
    map | (u24::new(1) << place.value())
}

#[tactic(auto, using(arbitrary_laws::proofs::places::Rulesets::bit_tests))]
pub fn another_bit_is_tested_as_before(map: u24, place: u8, other: u8) -> bool
    requires place { place < 24 }
    requires other { other < 24 }
    requires apart { place ≢ other }
    ensures { IsTrue result }
{
    let set = map | (u24::new(1) << other);
    ((set >> place) & u24::new(1) == u24::new(1)) == ((map >> place) & u24::new(1) == u24::new(1))
}

#[tactic(auto, using(arbitrary_laws::proofs::places::Rulesets::bit_tests))]
pub fn complement_is_tested(map: u24, place: u8) -> bool
    requires { place < 24 }
    ensures { IsTrue result }
{
    ((!map >> place) & u24::new(1) == u24::new(1)) == ((map >> place) & u24::new(1) == u24::zero())
}
