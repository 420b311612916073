//! Facts about numbers under a known mask.
#![tactic(auto, using(arbitrary_laws::proofs::masks::Rulesets::known_masks))]

ghost use Rattle.std.specs.Prelude.{◌≡◌, ◌↔◌, ◌/◌, ◌%◌, ◌*◌, ◌+ℤ◌, ◌-ℤ◌, ◌*ℤ◌, ◌≤ℤ◌, ◌<ℤ◌, pos, int_div, unsigned_abs, IsTrue};
ghost use Rattle.std.specs.Int.{int_rem_euclid};
ghost use Rattle.arbitrary_int.specs.Residue.{Congruent};

use arbitrary_int::prelude::*;

// ---- rounding to a multiple

/// The address rounded down to a multiple of 16.
pub fn aligned(address: u24) -> u24
    ensures below { result ≤ℤ address }
    ensures near { address <ℤ (result +ℤ pos 16) }
    ensures multiple { unsigned_abs result % 16 ≡ 0 }
{
    address & !u24::new(15)
}

pub fn aligned_by_quotient(address: u24) -> u24
    ensures { result ≡ pos 16 *ℤ int_div address (pos 16) }
{
    address & !u24::new(15)
}

/// The address rounded up to a multiple of 4.
pub fn aligned_up(address: u24) -> u24
    requires { address ≤ℤ pos 16777212 }
    ensures above { address ≤ℤ result }
    ensures near { result <ℤ (address +ℤ pos 4) }
    ensures multiple { unsigned_abs result % 4 ≡ 0 }
{
    (address + u24::new(3)) & !u24::new(3)
}

// ---- what stays

pub fn remainder(x: u12) -> u12
    ensures { result ≡ pos (unsigned_abs x % 16) }
{
    x & u12::new(15)
}

#[tactic(auto, using(arbitrary_laws::proofs::masks::Rulesets::remainders))]
pub fn signed_remainder(x: i12) -> i12
    ensures { result ≡ int_rem_euclid x (pos 16) }
{
    x & i12::new(15)
}

pub fn low_bits(x: i12) -> i12
    ensures { Congruent 4 result x }
{
    x & i12::new(0xF)
}

/// The mask's low four bits are one, and others above them.
pub fn low_bits_under_others(x: u24) -> u24
    ensures { Congruent 4 result x }
{
    x & u24::new(0xF0F)
}

pub fn field_in_place(x: u24) -> u24
    ensures { unsigned_abs result ≡ unsigned_abs x / 256 % 16 * 256 }
{
    x & u24::new(0xF00)
}

pub fn field(x: u24) -> u24
    ensures { unsigned_abs result ≡ unsigned_abs x / 256 % 16 }
{
    (x & u24::new(0xF00)) >> 8
}

pub fn field_from_zero_on(x: i24) -> i24
    requires { pos 0 ≤ℤ x }
    ensures { result ≡ pos (unsigned_abs x / 16 % 16 * 16) }
{
    x & i24::new(0xF0)
}

pub fn small(x: i48) -> i48
    ensures low { pos 0 ≤ℤ result }
    ensures high { result ≤ℤ pos 0xA5 }
{
    x & i48::new(0xA5)
}

// ---- one bit

pub fn bit(x: u12) -> bool
    ensures { IsTrue result ↔ (unsigned_abs x / 64 % 2 ≡ 1) }
{
    x & u12::new(0x40) == u12::new(0x40)
}

pub fn odd(x: i12) -> bool
    ensures { IsTrue result ↔ (int_rem_euclid x (pos 2) ≡ pos 1) }
{
    x & i12::new(1) == i12::new(1)
}

pub fn odd_from_zero_on(x: i12) -> bool
    requires { pos 0 ≤ℤ x }
    ensures { IsTrue result ↔ (x -ℤ pos 2 *ℤ int_div x (pos 2) ≡ pos 1) }
{
    x & i12::new(1) == i12::new(1)
}

pub fn even(x: u5) -> bool
    ensures { IsTrue result ↔ (unsigned_abs x % 2 ≡ 0) }
{
    x & u5::new(1) == u5::new(0)
}

pub fn sign_bit(x: u12) -> bool
    ensures { IsTrue result ↔ (pos 2048 ≤ℤ x) }
{
    x & u12::new(0x800) != u12::new(0)
}

// ---- set, cleared and turned over

pub fn bit_set(x: u12) -> u12
    requires { unsigned_abs x / 64 % 2 ≡ 0 }
    ensures { result ≡ x +ℤ pos 64 }
{
    x | u12::new(64)
}

pub fn cleared_is_not_there(flags: u12) -> bool
    ensures { IsTrue result }
{
    flags & !u12::new(0xA5) & u12::new(0xA5) == u12::new(0)
}

pub fn set_is_there(flags: i12) -> bool
    ensures { IsTrue result }
{
    (flags | i12::new(0xA5)) & i12::new(0xA5) == i12::new(0xA5)
}

pub fn cleared_by_any(flags: u48, mask: u48) -> bool
    ensures { IsTrue result }
{
    (flags & !mask) & mask == u48::new(0)
}
