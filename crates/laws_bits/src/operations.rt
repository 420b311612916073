//! Laws about several kinds of operations, with one set for the file: rotations, counts, signs, flags, shifts,
//! and sums and products with constants.
#![tactic(auto, using(arbitrary_laws::proofs::Sets::bits))]

ghost use Rattle.std.specs.Prelude.{IsTrue};

use arbitrary_int::prelude::*;

pub fn right_rotation_of_xor(x: u100, y: u100, k: u32) -> bool
    ensures { IsTrue result }
{
    (x ^ y).rotate_right(k) == x.rotate_right(k) ^ y.rotate_right(k)
}

pub fn square_of_a_sum(x: u24, y: u24) -> bool
    ensures { IsTrue result }
{
    let both = x.wrapping_mul(y).wrapping_mul(u24::new(2));
    x.wrapping_add(y).wrapping_mul(x.wrapping_add(y))
        == x.wrapping_mul(x)
            .wrapping_add(both)
            .wrapping_add(y.wrapping_mul(y))
}

pub fn trailing_ones_of_and(x: u100, y: u100) -> bool
    ensures { IsTrue result }
{
    (x & y).trailing_ones() == x.trailing_ones().min(y.trailing_ones())
}

pub fn leading_zeros_of_half(x: u12) -> bool
    ensures { IsTrue result }
{
    if x != u12::zero() {
        (x >> 1).leading_zeros() == x.leading_zeros() + 1
    } else {
        true
    }
}

pub fn ones_of_xor(x: u12, y: u12) -> bool
    ensures { IsTrue result }
{
    (x ^ y).count_ones() + 2 * (x & y).count_ones() == x.count_ones() + y.count_ones()
}

pub fn ones_of_shifted_right(x: u12) -> bool
    ensures { IsTrue result }
{
    (x >> 5).count_ones() <= x.count_ones()
}

pub fn ones_beside_leading_zeros(x: u24) -> bool
    ensures { IsTrue result }
{
    x.count_ones() + x.leading_zeros() <= 24
}

pub fn order_with_signs(x: u12, y: u12) -> bool
    ensures { IsTrue result }
{
    (x.as_::<i12>() < y.as_::<i12>()) == (x ^ u12::new(2048) < y ^ u12::new(2048))
}

pub fn flag_in_two_tests(x: u12) -> bool
    ensures { IsTrue result }
{
    (x & u12::new(8) == u12::zero()) == !(x & u12::new(8) == u12::new(8))
}

pub fn multiples_in_sum(x: u24) -> bool
    ensures { IsTrue result }
{
    x.wrapping_mul(u24::new(3))
        .wrapping_add(x.wrapping_mul(u24::new(4)))
        == x.wrapping_mul(u24::new(7))
}

pub fn low_part_of_xor(x: u12) -> bool
    ensures { IsTrue result }
{
    (x ^ u12::new(0x55)) & u12::new(0x0F) == (x & u12::new(0x0F)) ^ u12::new(0x05)
}

pub fn lowest_bit(x: u12) -> bool
    ensures { IsTrue result }
{
    x & x.wrapping_neg() == x & !(x.wrapping_sub(u12::new(1)))
}

#[tactic(auto, using(arbitrary_laws::proofs::Sets::masks))]
pub fn mask_moved(x: u12) -> bool
    ensures { IsTrue result }
{
    (x & u12::new(0xF)) << 4 == (x << 4) & u12::new(0xF0)
}

#[tactic(auto, using(arbitrary_laws::proofs::Sets::orders))]
pub fn xor_of_min_and_max(x: i12, y: i12) -> bool
    ensures { IsTrue result }
{
    x.min(y) ^ x.max(y) == x ^ y
}
