//! Facts about writing one bit by its place: the other bits do not change.
#![tactic(auto, using(arbitrary_laws::proofs::places::Rulesets::other_bits))]

ghost use Rattle.std.specs.Prelude.{◌≡◌, ◌≢◌, ◌/◌, ◌%◌, ◌^◌, ◌-◌, ◌<ℤ◌, ℕ, pos, unsigned_abs};

use arbitrary_int::prelude::*;

pub fn set(map: u24, place: u5) -> u24
    requires { place <ℤ pos 24 }
    ensures there { unsigned_abs result / 2 ^ unsigned_abs place % 2 ≡ 1 }
    ensures others { (k : ℕ) → k ≢ unsigned_abs place
        → unsigned_abs result / 2 ^ k % 2 ≡ unsigned_abs map / 2 ^ k % 2 }
{
    map | (u24::new(1) << place.value())
}

pub fn cleared(map: u24, place: u5) -> u24
    requires { place <ℤ pos 24 }
    ensures gone { unsigned_abs result / 2 ^ unsigned_abs place % 2 ≡ 0 }
    ensures others { (k : ℕ) → k ≢ unsigned_abs place
        → unsigned_abs result / 2 ^ k % 2 ≡ unsigned_abs map / 2 ^ k % 2 }
{
    map & !(u24::new(1) << place.value())
}

pub fn turned(map: u24, place: u5) -> u24
    requires { place <ℤ pos 24 }
    ensures turned { unsigned_abs result / 2 ^ unsigned_abs place % 2
        ≡ 1 - unsigned_abs map / 2 ^ unsigned_abs place % 2 }
    ensures others { (k : ℕ) → k ≢ unsigned_abs place
        → unsigned_abs result / 2 ^ k % 2 ≡ unsigned_abs map / 2 ^ k % 2 }
{
    map ^ (u24::new(1) << place.value())
}
