//! Laws about left shifts by a variable amount, with products and negation, and about bits at variable places.
#![tactic(auto, using(arbitrary_laws::proofs::shifts::MovedProducts::moved_products))]

ghost use Rattle.std.specs.Prelude.{◌<◌, ◌≢◌, IsTrue};

use arbitrary_int::prelude::*;

pub fn shifts_in_either_order(x: i24, j: u32, k: u32) -> bool
    requires one { j < 24 }
    requires other { k < 24 }
    ensures { IsTrue result }
{
    (x << j) << k == (x << k) << j
}

pub fn negated_then_shifted(x: i24, k: u32) -> bool
    requires { k < 24 }
    ensures { IsTrue result }
{
    x.wrapping_neg() << k == (x << k).wrapping_neg()
}

pub fn shift_is_a_product(x: i24, k: u32) -> bool
    requires { k < 24 }
    ensures { IsTrue result }
{
    x << k == x.wrapping_mul(i24::new(1) << k)
}

#[tactic(auto, using(arbitrary_laws::proofs::places::VariablePlaces::variable_places))]
pub fn set_beside_cleared(x: u24, i: u32, j: u32) -> bool
    requires one { i < 24 }
    requires other { j < 24 }
    requires apart { i ≢ j }
    ensures { IsTrue result }
{
    (x | u24::new(1) << i) & !(u24::new(1) << j) == (x & !(u24::new(1) << j)) | u24::new(1) << i
}

#[tactic(auto, using(arbitrary_laws::proofs::places::VariablePlaces::variable_places))]
pub fn lowest_bit_of_a_rotation(x: i24, place: u32) -> bool
    requires { place < 24 }
    ensures { IsTrue result }
{
    x.rotate_right(place) & i24::new(1) == (x >> place) & i24::new(1)
}

#[tactic(auto, using(arbitrary_laws::proofs::places::VariablePlaces::variable_places))]
pub fn shifted_then_reversed(x: i24, k: u32) -> bool
    requires { k < 24 }
    ensures { IsTrue result }
{
    (x << k).reverse_bits().to_unsigned() == x.reverse_bits().to_unsigned() >> k
}
