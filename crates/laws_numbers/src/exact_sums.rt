//! Laws about sums and differences that wrap, of numbers that were converted or wrapped before. In range they
//! are exact.
#![tactic(auto, using(arbitrary_laws::proofs::sums::ExactSums::exact_sums))]

ghost use Rattle.std.specs.Prelude.{◌≡◌, ◌+ℤ◌, ◌-ℤ◌, ◌≤ℤ◌, pos, IsTrue};

use arbitrary_int::prelude::*;

pub fn moved_by_a_signed_offset(base: u12, offset: i12) -> u12
    requires low { pos 0 ≤ℤ (base +ℤ offset) }
    requires high { (base +ℤ offset) ≤ℤ pos 4095 }
    ensures { result ≡ base +ℤ offset }
{
    base.wrapping_add(offset.to_unsigned())
}

pub fn centred(sample: u14) -> i14
    ensures { result ≡ sample -ℤ pos 8192 }
{
    sample.wrapping_sub(u14::new(8192)).as_::<i14>()
}

pub fn two_steps(count: u12) -> u12
    requires { count ≤ℤ pos 4000 }
    ensures { result ≡ count +ℤ pos 2 }
{
    count.wrapping_add(u12::new(1)).wrapping_add(u12::new(1))
}

pub fn negated_then_converted(x: i12) -> bool
    ensures { IsTrue result }
{
    x.wrapping_neg().to_unsigned() == x.to_unsigned().wrapping_neg()
}

pub fn sum_of_the_bits(a: i12, b: i12) -> bool
    ensures { IsTrue result }
{
    i12::from_unsigned(a.to_unsigned().wrapping_add(b.to_unsigned())) == a.wrapping_add(b)
}

pub fn sum_of_low_bits(a: u24, b: u24) -> u12
    requires { (a +ℤ b) ≤ℤ pos 4095 }
    ensures { result ≡ a +ℤ b }
{
    a.as_::<u12>().wrapping_add(b.as_::<u12>())
}
