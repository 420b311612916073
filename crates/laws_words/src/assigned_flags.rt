//! Flags of a word of 24 bits that `|=` and `&=` set and clear behind `&mut self`, with a constant mask and by
//! their place.
#![tactic(auto, using(arbitrary_laws::proofs::masks::Rulesets::flags))]

ghost use Rattle.std.specs.Prelude.{◌≡◌, ◌/◌, ◌%◌, ◌^◌, ◌<ℤ◌, pos, unsigned_abs};

use arbitrary_int::prelude::*;

/// The control word of a converter. Its lowest bit starts it.
pub struct Control {
    pub word: u24,
}

impl Control {
    pub fn start(&mut self)
        ensures started { unsigned_abs self.new.word % 2 ≡ 1 }
        ensures others { unsigned_abs self.new.word / 2 ≡ unsigned_abs self.old.word / 2 }
    {
        self.word |= u24::new(1);
    }

    pub fn stop(&mut self)
        ensures stopped { unsigned_abs self.new.word % 2 ≡ 0 }
        ensures others { unsigned_abs self.new.word / 2 ≡ unsigned_abs self.old.word / 2 }
    {
        self.word &= !u24::new(1);
    }
}

/// The lines of a controller of interrupts.
pub struct Lines {
    pub enabled: u24,
}

impl Lines {
    #[tactic(auto, using(arbitrary_laws::proofs::places::Rulesets::other_bits))]
    pub fn insert(&mut self, line: u5)
        requires { line <ℤ pos 24 }
        ensures { unsigned_abs self.new.enabled / 2 ^ unsigned_abs line % 2 ≡ 1 }
    {
        self.enabled |= u24::new(1) << line.value();
    }
}
