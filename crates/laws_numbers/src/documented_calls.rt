//! Examples of the Rust crate's documentation on constants that the contracts alone do not prove, at least one for each such
//! call. The other examples need no set.
#![tactic(auto, using(arbitrary_laws::proofs::written::KnownCalls::known_calls))]

ghost use Rattle.std.specs.Prelude.{IsTrue};

use arbitrary_int::prelude::*;

pub fn shifted_right_below_zero() -> bool
    ensures { IsTrue result }
{
    i14::new(-128).wrapping_shr(7) == i14::new(-1)
}

pub fn shifted_by_more_than_the_width() -> bool
    ensures { IsTrue result }
{
    i14::new(-128).wrapping_shr(60) == i14::new(-8)
}

pub fn reversed() -> bool
    ensures { IsTrue result }
{
    u6::new(0b10_1010).reverse_bits() == u6::new(0b01_0101)
}

pub fn rotated_left() -> bool
    ensures { IsTrue result }
{
    u6::new(0b10_1010).rotate_left(1) == u6::new(0b01_0101)
}

pub fn zeros_of_the_greatest() -> bool
    ensures { IsTrue result }
{
    i6::MAX.count_zeros() == 1
}

pub fn leading_ones_of_a_complement() -> bool
    ensures { IsTrue result }
{
    (!(u7::MAX >> 2)).leading_ones() == 2
}

pub fn trailing_ones() -> bool
    ensures { IsTrue result }
{
    u7::new(0b1010111).trailing_ones() == 3
}

pub fn swapped_bytes_in_a_wider_storage() -> bool
    ensures { IsTrue result }
{
    UInt::<u64, 24>::new(1).swap_bytes() == UInt::<u64, 24>::new(0x01_00_00)
}

pub fn seven_swapped_bytes() -> bool
    ensures { IsTrue result }
{
    u56::new(0x12_34_56_78_9A_BC_DE).swap_bytes() == u56::new(0xDE_BC_9A_78_56_34_12)
}

pub fn from_network_order() -> bool
    ensures { IsTrue result }
{
    u24::from_be(u24::new(0x12_34_56)) == u24::new(0x56_34_12)
}

pub fn bytes_below_zero() -> bool
    ensures { IsTrue result }
{
    i24::new(-5).to_be_bytes() == [0xFF, 0xFF, 0xFB]
}
