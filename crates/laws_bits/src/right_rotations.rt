//! Laws about rotations to the right, and about two rotations in either order, by constant and variable amounts.
#![tactic(auto, using(arbitrary_laws::proofs::rotations::RightRotations::right_rotations))]

ghost use Rattle.std.specs.Prelude.{IsTrue};

use arbitrary_int::prelude::*;

pub fn and_turned(x: u12, y: u12, k: u32) -> bool
    ensures { IsTrue result }
{
    (x & y).rotate_right(k) == x.rotate_right(k) & y.rotate_right(k)
}

pub fn ones_turned(k: u32) -> bool
    ensures { IsTrue result }
{
    u24::max_value().rotate_right(k) == u24::max_value()
}

pub fn ones_counted(x: u24, k: u32) -> bool
    ensures { IsTrue result }
{
    x.rotate_right(k).count_ones() == x.count_ones()
}

pub fn equal_where_they_were(x: i12, y: i12, k: u32) -> bool
    ensures { IsTrue result }
{
    (x.rotate_right(k) == y.rotate_right(k)) == (x == y)
}

pub fn reversed(x: i24, k: u32) -> bool
    ensures { IsTrue result }
{
    x.rotate_right(k).reverse_bits() == x.reverse_bits().rotate_left(k)
}

pub fn three_and_four_are_seven(x: u12) -> bool
    ensures { IsTrue result }
{
    x.rotate_right(3).rotate_right(4) == x.rotate_right(7)
}

pub fn right_in_either_order(x: u24, j: u32, k: u32) -> bool
    ensures { IsTrue result }
{
    x.rotate_right(j).rotate_right(k) == x.rotate_right(k).rotate_right(j)
}

pub fn right_and_left_in_either_order(x: i12, j: u32, k: u32) -> bool
    ensures { IsTrue result }
{
    x.rotate_right(j).rotate_left(k) == x.rotate_left(k).rotate_right(j)
}
