//! Laws that compare quotients with their dividends and with other quotients, and laws about a product that is
//! divided.
#![tactic(auto, using(arbitrary_laws::proofs::numbers::QuotientOrder::quotient_order))]

ghost use Rattle.std.specs.Prelude.{◌≢◌, ◌<ℤ◌, ◌≤ℤ◌, ◌≡◌, pos, IsTrue};

use arbitrary_int::prelude::*;

pub fn at_most_the_dividend(x: u24, y: u24) -> u24
    requires { y ≢ pos 0 }
    ensures { result ≤ℤ x }
{
    x / y
}

pub fn less_than_the_divisor(x: u24, y: u24) -> u24
    requires { x <ℤ y }
    ensures { result ≡ pos 0 }
{
    x / y
}

pub fn keeps_order_with_a_sign(x: i48, y: i48) -> bool
    requires { x ≤ℤ y }
    ensures { IsTrue result }
{
    x / i48::new(7) <= y / i48::new(7)
}

pub fn greater_divisor_gives_less(x: u24, y: u24, z: u24) -> (u24, u24)
    requires some { pos 0 <ℤ y }
    requires above { y ≤ℤ z }
    ensures { result.0 ≤ℤ result.1 }
{
    (x / z, x / y)
}

pub fn of_a_product(x: u12, y: u12) -> u24
    requires { y ≢ pos 0 }
    ensures { result ≡ x }
{
    u24::from_(x) * u24::from_(y) / u24::from_(y)
}

pub fn of_a_quotient(x: u24, y: u5, z: u5) -> bool
    requires first { y ≢ pos 0 }
    requires second { z ≢ pos 0 }
    ensures { IsTrue result }
{
    let product = u24::from_(y) * u24::from_(z);
    x / u24::from_(y) / u24::from_(z) == x / product
}

pub fn between_nothing_and_the_dividend(x: i24, y: i24) -> i24
    requires some { pos 0 <ℤ y }
    requires above { pos 0 ≤ℤ x }
    ensures low { pos 0 ≤ℤ result }
    ensures high { result ≤ℤ x }
{
    x / y
}
