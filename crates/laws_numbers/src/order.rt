//! Laws about the order with bits, shifts and signs, each with the set `order` alone. `bits` and `shifts` of
//! other crates have laws of these without an order, and `cancellations` has those of `==`.
#![tactic(auto, using(arbitrary_laws::proofs::orders::Rulesets::order))]

ghost use Rattle.std.specs.Prelude.{IsTrue, ◌≤◌, ◌<◌};

use arbitrary_int::prelude::*;

pub fn xor_below_or(x: u12, y: u12) -> bool
    ensures { IsTrue result }
{
    x ^ y <= x | y
}

pub fn or_below_sum(x: u12, y: u12) -> bool
    ensures { IsTrue result }
{
    x | y <= x.saturating_add(y)
}

pub fn difference_below_xor(x: u12, y: u12) -> bool
    ensures { IsTrue result }
{
    y > x || x - y <= x ^ y
}

pub fn shr_keeps_order_signed(x: i12, y: i12) -> bool
    ensures { IsTrue result }
{
    !(x <= y) || x.wrapping_shr(3) <= y.wrapping_shr(3)
}

pub fn sign_of_and(x: i12, y: i12) -> bool
    ensures { IsTrue result }
{
    ((x & y) < i12::zero()) == (x < i12::zero() && y < i12::zero())
}

pub fn shr_by_more(x: u12, j: u8, k: u8) -> bool
    requires more { j ≤ k }
    requires place { k < 12 }
    ensures { IsTrue result }
{
    x >> k <= x >> j
}

/// A number with no bit outside another is at most that.
pub fn subset_is_at_most(x: u24, y: u24) -> bool
    ensures { IsTrue result }
{
    if x & !y == u24::zero() { x <= y } else { true }
}
