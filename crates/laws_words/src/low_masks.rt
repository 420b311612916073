//! The low bits of a primitive under a mask of variable length, as a reader of fields of any width takes them.
#![tactic(auto, using(arbitrary_laws::proofs::masks::LowMask::low_masks))]

ghost use Rattle.std.specs.Prelude.{◌≡◌, ◌/◌, ◌%◌, ◌^◌, ◌<◌, unsigned_abs, IsTrue};

use arbitrary_int::prelude::*;

pub fn low_bits(word: u32, count: u5) -> u32
    ensures { result ≡ word % 2 ^ unsigned_abs count }
{
    word & ((1 << count.value()) - 1)
}

pub fn field(word: u64, start: u32, width: u32) -> u64
    requires start { start < 64 }
    requires width { width < 64 }
    ensures { result ≡ word / 2 ^ start % 2 ^ width }
{
    (word >> start) & ((1 << width) - 1)
}

pub fn written_below(word: u32, field: u32, width: u32) -> u32
    requires { width < 32 }
    ensures below { result % 2 ^ width ≡ field % 2 ^ width }
    ensures above { result / 2 ^ width ≡ word / 2 ^ width }
{
    let mask = (1 << width) - 1;
    (word & !mask) | (field & mask)
}

pub fn is_aligned(address: u64, places: u32) -> bool
    requires { places < 64 }
    ensures { IsTrue result }
{
    (address & ((1 << places) - 1) == 0) == ((address >> places) << places == address)
}

pub fn by_the_greatest_number(word: u32, places: u32) -> bool
    requires { places < 32 }
    ensures { IsTrue result }
{
    word & (u32::MAX << places) == (word >> places) << places
        && word & !(u32::MAX << places) == word & ((1 << places) - 1)
}

pub fn remainder(word: u16, places: u4) -> bool
    ensures { IsTrue result }
{
    word % (1 << places.value()) == word & ((1 << places.value()) - 1)
}
