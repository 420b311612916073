//! Laws about constants at any width of one storage that has room for them.
#![tactic(auto, using(arbitrary_laws::proofs::written::AnyWidth::any_width))]

ghost use Rattle.std.specs.Prelude.{◌≡◌, ◌≤◌, ◌<◌, ◌+ℤ◌, ◌<ℤ◌, false, pos, IsTrue};
ghost use Rattle.arbitrary_int.specs.Range.{hi};

use arbitrary_int::prelude::*;

pub fn next<const BITS: usize>(x: UInt<u16, BITS>) -> UInt<u16, BITS>
    requires { x <ℤ hi false BITS }
    ensures { result ≡ x.entry +ℤ pos 1 }
{
    x + UInt::<u16, BITS>::new(1)
}

pub fn past_the_greatest<const BITS: usize>() -> bool
    requires some { 1 ≤ BITS }
    requires fits { BITS ≤ 16 }
    ensures { IsTrue result }
{
    let one = UInt::<u16, BITS>::new(1);
    UInt::<u16, BITS>::max_value().wrapping_add(one) == UInt::<u16, BITS>::zero()
}

pub fn below_the_least<const BITS: usize>() -> bool
    requires some { 2 ≤ BITS }
    requires fits { BITS ≤ 32 }
    ensures { IsTrue result }
{
    Int::<i32, BITS>::min_value()
        .checked_add(Int::<i32, BITS>::new(-1))
        .is_none()
}

pub fn product_with_one<const BITS: usize>(x: Int<i32, BITS>) -> bool
    requires some { 1 < BITS }
    requires fits { BITS ≤ 32 }
    ensures { IsTrue result }
{
    x.checked_mul(Int::<i32, BITS>::new(1)) == Some(x)
}

pub fn mask_of_a_nibble<const BITS: usize>(x: UInt<u32, BITS>) -> UInt<u32, BITS>
    requires some { 4 ≤ BITS }
    requires fits { BITS ≤ 32 }
    ensures { result <ℤ pos 16 }
{
    x & UInt::<u32, BITS>::new(15)
}
