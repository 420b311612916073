//! Facts about `& | ^ !` in code that is generic over the type. They need no set, because the laws of the bound
//! compare values bit by bit.
#![tactic(auto)]

ghost use Rattle.std.specs.Prelude.{IsTrue};

use arbitrary_int::prelude::*;

pub fn and_commutes<V: FixedWidth>(x: V, y: V) -> bool
    ensures { IsTrue result }
{
    x & y == y & x
}

pub fn and_associates<V: FixedWidth>(x: V, y: V, z: V) -> bool
    ensures { IsTrue result }
{
    (x & y) & z == x & (y & z)
}

pub fn and_distributes<V: FixedWidth>(x: V, y: V, z: V) -> bool
    ensures { IsTrue result }
{
    x & (y | z) == (x & y) | (x & z)
}

pub fn not_of_and<V: FixedWidth>(x: V, y: V) -> bool
    ensures { IsTrue result }
{
    !(x & y) == !x | !y
}

pub fn xor_same<V: FixedWidth>(x: V) -> bool
    requires { V.valid }
    ensures { IsTrue result }
{
    x ^ x == V::zero()
}

pub fn xor_ones<V: FixedWidth>(x: V) -> bool
    requires { V.valid }
    ensures { IsTrue result }
{
    x ^ !V::zero() == !x
}

pub fn and_complement<V: FixedWidth>(x: V) -> bool
    requires { V.valid }
    ensures { IsTrue result }
{
    x & !x == V::zero()
}

pub fn not_twice<V: FixedWidth>(x: V) -> bool
    ensures { IsTrue result }
{
    !!x == x
}

pub fn xor_undoes<V: FixedWidth>(x: V, y: V) -> bool
    ensures { IsTrue result }
{
    (x ^ y) ^ y == x
}

pub fn or_absorbs<V: FixedWidth>(x: V, y: V) -> bool
    ensures { IsTrue result }
{
    x | (x & y) == x
}

pub fn xor_parts<V: FixedWidth>(x: V, y: V) -> bool
    ensures { IsTrue result }
{
    x ^ y == (x | y) & !(x & y)
}

pub fn parts_under_a_mask<V: FixedWidth>(x: V, mask: V) -> bool
    ensures { IsTrue result }
{
    (x & mask) | (x & !mask) == x
}

pub fn written_field_is_read_back<V: FixedWidth>(x: V, field: V, mask: V) -> bool
    ensures { IsTrue result }
{
    ((x & !mask) | (field & mask)) & mask == field & mask
}

pub fn written_field_leaves_the_others<V: FixedWidth>(x: V, field: V, mask: V) -> bool
    ensures { IsTrue result }
{
    ((x & !mask) | (field & mask)) & !mask == x & !mask
}
