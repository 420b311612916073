//! Values in fields behind `&mut self`, whose range the check learns from calls and shifts.

ghost use Rattle.std.specs.Prelude.{◌≡◌, ◌-ℤ◌, ◌<ℤ◌, ◌≤ℤ◌, int_div, pos, IsTrue};

use arbitrary_int::prelude::*;

/// The bits of a word, the highest first.
pub struct BitReader {
    pub word: u24,
    pub left: u5,
}

impl BitReader {
    pub fn bit(&mut self) -> Option<bool>
        ensures none { self.old.left ≡ pos 0 → self.new.left ≡ pos 0 }
        ensures some { pos 0 <ℤ self.old.left → self.new.left ≡ self.old.left -ℤ pos 1 }
    {
        self.left = self.left.checked_sub(u5::new(1))?;
        let bit = self.word >= u24::new(0x80_0000);
        self.word = self.word.wrapping_shl(1);
        Some(bit)
    }

    pub fn nibble(&mut self) -> u4
        requires enough { pos 4 ≤ℤ self.old.left }
        ensures left { self.new.left ≡ self.old.left -ℤ pos 4 }
        ensures value { result ≡ int_div self.old.word (pos 1048576) }
    {
        let nibble = (self.word >> 20).as_::<u4>();
        self.word = self.word << 4;
        self.left -= u5::new(4);
        nibble
    }
}

pub fn quarter(x: &u24) -> u22
    ensures { result ≡ int_div x.now (pos 4) }
{
    (*x >> 2).as_::<u22>()
}

pub fn product_by_one(x: &u12) -> u12
    ensures { result ≡ x.now }
{
    x.wrapping_mul(u12::new(1))
}

pub fn sum_that_clamps(x: &u12, y: &u12) -> bool
    ensures { IsTrue result }
{
    x.saturating_add(*y).value() <= x.value() + y.value()
}
