//! Laws about the k lowest bits of a number and the bits above them, where k is variable: as exact sums and
//! differences, in order, and as multiples of `2 ^ k`.
#![tactic(auto, using(arbitrary_laws::proofs::masks::VariableMasks::variable_parts))]

ghost use Rattle.std.specs.Int.{int_rem_euclid};
ghost use Rattle.std.specs.Prelude.{◌≡◌, ◌<◌, ◌^◌, ◌+ℤ◌, ◌≤ℤ◌, ◌<ℤ◌, pos, IsTrue};

use arbitrary_int::prelude::*;

pub fn low_bits_by_a_difference(x: u24, k: u32) -> bool
    requires { k < 24 }
    ensures { IsTrue result }
{
    x & ((u24::new(1) << k).wrapping_sub(u24::new(1))) == x - ((x >> k) << k)
}

pub fn parts_added(x: u24, k: u32) -> bool
    requires { k < 24 }
    ensures { IsTrue result }
{
    ((x >> k) << k) + (x & ((u24::new(1) << k) - u24::new(1))) == x
}

pub fn less_than_one_bit_more(x: u12, k: u32) -> bool
    requires { k < 12 }
    ensures { IsTrue result }
{
    x & ((u12::new(1) << k) - u12::new(1)) < u12::new(1) << k
}

pub fn rounded_down(x: i24, k: u32) -> bool
    requires { k < 24 }
    ensures { IsTrue result }
{
    (x >> k) << k <= x
}

/// The greatest multiple of a power of two that is at most the address.
pub fn aligned_down(address: u24, log: u8) -> u24
    requires { log < 24 }
    ensures multiple { int_rem_euclid result (pos (2 ^ log)) ≡ pos 0 }
    ensures at_most { result ≤ℤ address }
    ensures near { address <ℤ (result +ℤ pos (2 ^ log)) }
{
    address & !((u24::new(1) << log) - u24::new(1))
}

/// The same for a signed number, by shifts.
pub fn aligned_down_by_shifts(address: i24, log: u8) -> i24
    requires { log < 24 }
    ensures multiple { int_rem_euclid result (pos (2 ^ log)) ≡ pos 0 }
    ensures at_most { result ≤ℤ address }
    ensures near { address <ℤ (result +ℤ pos (2 ^ log)) }
{
    (address >> log) << log
}
