//! Numbers that are shifted left, also past the end of their type, with new bits at the low end: shift
//! registers, writers of bits.
#![tactic(auto, using(arbitrary_laws::proofs::Sets::uint_words))]

ghost use Rattle.std.specs.Prelude.{◌≡◌, ◌/◌, ◌%◌, ◌+ℤ◌, ◌*ℤ◌, pos, unsigned_abs, IsTrue, if◌then◌else◌};

use arbitrary_int::prelude::*;

pub fn last_samples(history: u8, sample: bool) -> u8
    ensures { result % 2 ≡ (if sample then 1 else 0) }
{
    history << 1 | u8::from(sample)
}

pub fn nibble_read_back(word: u24, nibble: u4) -> u4
    ensures { result ≡ nibble }
{
    let longer = (word << 4) | u24::from_(nibble);
    longer.as_::<u4>()
}

#[tactic(auto, using(arbitrary_laws::proofs::Sets::words))]
pub fn rotated_through_carry(x: u12, carry: u1) -> (u12, u1)
    ensures { pos 2 *ℤ x +ℤ carry ≡ result.0 +ℤ pos 4096 *ℤ result.1 }
{
    ((x << 1) | u12::from_(carry), (x >> 11).as_::<u1>())
}

pub fn older_bits(word: u24, bit: u1) -> bool
    ensures { IsTrue result }
{
    let longer = (word << 1) | u24::from_(bit);
    longer >> 1 == word & u24::new(0x7F_FFFF)
}

pub fn two_nibbles(word: u24, high: u4, low: u4) -> u24
    ensures low { unsigned_abs result % 16 ≡ unsigned_abs low }
    ensures high { unsigned_abs result / 16 % 16 ≡ unsigned_abs high }
    ensures older { unsigned_abs result / 256 ≡ unsigned_abs word % 65536 }
{
    (word << 8) | (u24::from_(high) << 4) | u24::from_(low)
}
