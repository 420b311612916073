//! One bit of a primitive by its place: the pins of a port, the bits of a word.
#![tactic(auto, using(arbitrary_laws::proofs::places::Rulesets::primitive_bits))]

ghost use Rattle.std.specs.Prelude.{◌≡◌, ◌≢◌, ◌↔◌, ◌/◌, ◌%◌, ◌^◌, ◌-◌, ◌<◌, ℕ, unsigned_abs, IsTrue};

use arbitrary_int::prelude::*;

pub struct Port {
    pub out: u16,
    pub direction: u16,
}

impl Port {
    pub fn set(&mut self, pin: u4)
        ensures there { self.new.out / 2 ^ unsigned_abs pin % 2 ≡ 1 }
        ensures others { (i : ℕ) → i ≢ unsigned_abs pin
            → self.new.out / 2 ^ i % 2 ≡ self.old.out / 2 ^ i % 2 }
        ensures direction { self.new.direction ≡ self.old.direction }
    {
        self.out |= 1 << pin.value();
    }

    pub fn is_set(&self, pin: u4) -> bool
        ensures { IsTrue result ↔ (self.now.out / 2 ^ unsigned_abs pin % 2 ≡ 1) }
    {
        self.out & (1 << pin.value()) != 0
    }
}

pub fn cleared(word: u32, place: u32) -> u32
    requires { place < 32 }
    ensures gone { result / 2 ^ place % 2 ≡ 0 }
    ensures others { (i : ℕ) → i ≢ place → i < 32 → result / 2 ^ i % 2 ≡ word / 2 ^ i % 2 }
{
    word & !(1 << place)
}

pub fn turned(word: u16, place: u4) -> u16
    ensures { result / 2 ^ unsigned_abs place % 2 ≡ 1 - word / 2 ^ unsigned_abs place % 2 }
{
    word ^ 1 << place.value()
}

#[tactic(auto, using(arbitrary_laws::proofs::places::Rulesets::several_bits))]
pub fn two_set(word: u16, first: u4, second: u4) -> bool
    ensures { IsTrue result }
{
    let written = word | (1 << first.value()) | (1 << second.value());
    (written >> first.value()) & 1 == 1 && (written >> second.value()) & 1 == 1
}
