//! Facts about one bit by its place.
#![tactic(auto, using(arbitrary_laws::proofs::places::Rulesets::single_bits))]

ghost use Rattle.std.specs.Prelude.{◌≡◌, ◌≢◌, ◌↔◌, ◌/◌, ◌%◌, ◌^◌, ◌<◌, ◌+ℤ◌, ◌≤ℤ◌, ◌<ℤ◌, pos, unsigned_abs, IsTrue};

use arbitrary_int::prelude::*;

pub fn bit_by_mask(x: u12, place: u32) -> bool
    requires { place < 12 }
    ensures { IsTrue result ↔ (unsigned_abs x / 2 ^ place % 2 ≡ 1) }
{
    x & (u12::new(1) << place) != u12::new(0)
}

pub fn bit_by_equal(x: u24, place: u5) -> bool
    requires { place <ℤ pos 24 }
    ensures { IsTrue result ↔ (unsigned_abs x / 2 ^ unsigned_abs place % 2 ≡ 1) }
{
    let mask = u24::new(1) << place.value();
    x & mask == mask
}

pub fn bit_by_low(x: u24, place: u5) -> bool
    requires { place <ℤ pos 24 }
    ensures { IsTrue result ↔ (unsigned_abs x / 2 ^ unsigned_abs place % 2 ≡ 1) }
{
    (x >> place.value()) & u24::new(1) == u24::new(1)
}

pub fn set_then_test_by_mask(x: u24, place: u5) -> bool
    requires { place <ℤ pos 24 }
    ensures { IsTrue result }
{
    let mask = u24::new(1) << place.value();
    (x | mask) & mask != u24::new(0)
}

pub fn cleared_is_no_more(map: u24, place: u5) -> u24
    requires { place <ℤ pos 24 }
    ensures { result ≤ℤ map }
{
    map & !(u24::new(1) << place.value())
}

pub fn set_adds(map: u24, place: u5) -> u24
    requires place { place <ℤ pos 24 }
    requires free { unsigned_abs map / 2 ^ unsigned_abs place % 2 ≡ 0 }
    ensures { result ≡ map +ℤ pos (2 ^ unsigned_abs place) }
{
    map | (u24::new(1) << place.value())
}

#[tactic(auto, using(arbitrary_laws::proofs::places::Rulesets::bit_tests))]
pub fn set_then_test(x: u24, place: u5) -> bool
    requires { place <ℤ pos 24 }
    ensures { IsTrue result }
{
    let set = x | (u24::new(1) << place.value());
    (set >> place.value()) & u24::new(1) == u24::new(1)
}

#[tactic(auto, using(arbitrary_laws::proofs::places::Rulesets::bit_tests))]
pub fn clear_then_test(x: u24, place: u8) -> bool
    requires { place < 24 }
    ensures { IsTrue result }
{
    let cleared = x & !(u24::new(1) << place);
    (cleared >> place) & u24::new(1) == u24::new(0)
}

#[tactic(auto, using(arbitrary_laws::proofs::places::Rulesets::bit_tests))]
pub fn clear_then_test_another(x: u24, place: u8, other: u8) -> bool
    requires place { place < 24 }
    requires other { other < 24 }
    requires apart { place ≢ other }
    ensures { IsTrue result }
{
    let cleared = x & !(u24::new(1) << other);
    ((cleared >> place) & u24::new(1) == u24::new(1)) == ((x >> place) & u24::new(1) == u24::new(1))
}

#[tactic(auto, using(arbitrary_laws::proofs::places::Rulesets::bit_tests))]
pub fn set_then_test_another_by_mask(x: u24, place: u8, other: u8) -> bool
    requires place { place < 24 }
    requires other { other < 24 }
    requires apart { place ≢ other }
    ensures { IsTrue result }
{
    let mask = u24::new(1) << place;
    let set = x | (u24::new(1) << other);
    (set & mask == u24::new(0)) == (x & mask == u24::new(0))
}

#[tactic(auto, using(arbitrary_laws::proofs::places::Rulesets::bit_tests))]
pub fn clear_then_test_another_by_mask(x: u24, place: u8, other: u8) -> bool
    requires place { place < 24 }
    requires other { other < 24 }
    requires apart { place ≢ other }
    ensures { IsTrue result }
{
    let mask = u24::new(1) << place;
    let cleared = x & !(u24::new(1) << other);
    (cleared & mask == u24::new(0)) == (x & mask == u24::new(0))
}

#[tactic(auto, using(arbitrary_laws::proofs::orders::Rulesets::order))]
pub fn set_is_no_less(map: u24, place: u5) -> u24
    requires { place <ℤ pos 24 }
    ensures { map ≤ℤ result }
{
    map | (u24::new(1) << place.value())
}
