//! Laws about quotients of a sum, a product, a quotient or a negated number, about quotients that are 0, and
//! about two quotients in order.
#![tactic(auto, using(arbitrary_laws::proofs::numbers::QuotientParts::quotient_parts))]

ghost use Rattle.std.specs.Prelude.{◌+ℤ◌, ◌-ℤ◌, ◌<ℤ◌, ◌≤ℤ◌, IsTrue, pos};

use arbitrary_int::prelude::*;

pub fn none_where_less(x: u24, y: u24) -> bool
    requires { pos 0 <ℤ y }
    ensures { IsTrue result }
{
    (x / y == u24::zero()) == (x < y)
}

pub fn of_the_next(x: u12, y: u12) -> bool
    requires some { pos 0 <ℤ y }
    requires in_range { (x +ℤ y) <ℤ pos 4096 }
    ensures { IsTrue result }
{
    (x + y) / y == x / y + u12::new(1)
}

pub fn of_a_checked_product(x: u24, y: u24) -> bool
    ensures { IsTrue result }
{
    match x.checked_mul(y) {
        Some(product) => y == u24::zero() || product / y == x,
        None => true,
    }
}

pub fn by_two_in_either_order(x: u100, y: u100, z: u100) -> bool
    requires first { pos 0 <ℤ y }
    requires second { pos 0 <ℤ z }
    ensures { IsTrue result }
{
    x / y / z == x / z / y
}

pub fn of_a_negated_number(x: i12, y: i12) -> bool
    requires in_range { (pos 0 -ℤ pos 2048) <ℤ x }
    requires some { pos 0 <ℤ y }
    ensures { IsTrue result }
{
    (-x) / y == -(x / y)
}

#[tactic(auto, using(arbitrary_laws::proofs::numbers::QuotientParts::quotient_pairs))]
pub fn in_order_by_less(x: u63, y: u63, a: u63, b: u63) -> bool
    requires dividends { x ≤ℤ y }
    requires some { pos 0 <ℤ a }
    requires divisors { a ≤ℤ b }
    ensures { IsTrue result }
{
    x / b <= y / a
}
