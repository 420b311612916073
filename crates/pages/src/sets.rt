//! Facts that the public sets prove, as docs/SETS.md lists them.

ghost use Rattle.std.specs.Prelude.{◌≡◌, ◌<◌, ◌≤ℤ◌, pos, IsTrue, Some};
ghost use Rattle.arbitrary_int.specs.Residue.{Congruent};

use arbitrary_int::prelude::*;

#[tactic(auto, using(arbitrary_laws::proofs::Sets::bits))]
pub fn unions(x: u24, y: u24) -> bool
    ensures { IsTrue result }
{
    (x | y) & (x | !y) == x
}

#[tactic(auto, using(arbitrary_laws::proofs::Sets::bits))]
pub fn turned_twice(x: i24) -> bool
    ensures { IsTrue result }
{
    x.rotate_left(3).rotate_left(4) == x.rotate_left(7)
}

#[tactic(auto, using(arbitrary_laws::proofs::Sets::masks))]
pub fn set_twice(x: u12) -> bool
    ensures { IsTrue result }
{
    (x | u12::new(0x0F)) | u12::new(0xF0) == x | u12::new(0xFF)
}

#[tactic(auto, using(arbitrary_laws::proofs::Sets::masks))]
pub fn turned_then_tested(x: u12, place: u32) -> bool
    requires { place < 12 }
    ensures { IsTrue result }
{
    let one = u12::new(1) << place;
    ((x ^ one) & one == u12::new(0)) == (x & one != u12::new(0))
}

#[tactic(auto, using(arbitrary_laws::proofs::Sets::shifts))]
pub fn low_bits_cleared(x: u24, k: u32) -> bool
    requires { k < 24 }
    ensures { IsTrue result }
{
    x & !((u24::new(1) << k) - u24::new(1)) == (x >> k) << k
}

#[tactic(auto, using(arbitrary_laws::proofs::Sets::shifts))]
pub fn in_either_order(x: u24, j: u32, k: u32) -> bool
    ensures { IsTrue result }
{
    x.rotate_right(j).rotate_right(k) == x.rotate_right(k).rotate_right(j)
}

#[tactic(auto, using(arbitrary_laws::proofs::Sets::signs))]
pub fn at_least_zero(x: i12) -> bool
    ensures { IsTrue result }
{
    x & !(x >> 11) == x.max(i12::zero())
}

#[tactic(auto, using(arbitrary_laws::proofs::Sets::signs))]
pub fn overflow(x: i12, y: i12) -> bool
    ensures { IsTrue result }
{
    let (sum, overflow) = x.overflowing_add(y);
    overflow == ((x ^ sum) & (y ^ sum) < i12::zero())
}

#[tactic(auto, using(arbitrary_laws::proofs::Sets::orders))]
pub fn apart_at_most(x: u12, y: u12) -> bool
    ensures { IsTrue result }
{
    x ^ y <= x | y
}

#[tactic(auto, using(arbitrary_laws::proofs::Sets::orders))]
pub fn reversed_equal(x: u24, y: u24) -> bool
    ensures { IsTrue result }
{
    (x.reverse_bits() == y.reverse_bits()) == (x == y)
}

#[tactic(auto, using(arbitrary_laws::proofs::Sets::numbers))]
pub fn low_sum(x: u24, y: u24) -> bool
    ensures { IsTrue result }
{
    x.wrapping_add(y).as_::<u9>() == x.as_::<u9>().wrapping_add(y.as_::<u9>())
}

#[tactic(auto, using(arbitrary_laws::proofs::Sets::numbers))]
pub fn part_of_a_whole(percent: u7, whole: u12) -> u12
    requires { percent ≤ℤ pos 100 }
    ensures { result ≤ℤ whole }
{
    u12::from_(u24::from_(percent) * u24::from_(whole) / u24::new(100))
}

#[tactic(auto, using(arbitrary_laws::proofs::Sets::fields))]
pub fn with_trim(register: u16, trim: i5) -> u16
    ensures { Congruent 5 (pos result) trim }
{
    (register & 0xFFE0) | u16::from(trim.to_bits())
}

#[tactic(auto, using(arbitrary_laws::proofs::Sets::fields))]
pub fn sample(word: u16) -> i12
    ensures { Congruent 12 result (pos word) }
{
    i12::from_bits(word & 0xFFF)
}

#[tactic(auto, using(arbitrary_laws::proofs::Sets::bytes))]
pub fn swapped_equal(x: u24, y: u24) -> bool
    ensures { IsTrue result }
{
    (x.swap_bytes() == y.swap_bytes()) == (x == y)
}

#[tactic(auto, using(arbitrary_laws::proofs::Sets::steps))]
pub fn last_of_range(low: u7, high: u7) -> Option<u7>
    requires { low ≤ℤ high }
    ensures { result ≡ Some high }
{
    range_inclusive(low, high).next_back()
}
