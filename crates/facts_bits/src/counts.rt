//! Facts about counts at their ends, and about the places that counts find.

ghost use Rattle.std.specs.Prelude.{◌≡◌, ◌<◌, ◌≤◌, ◌≤ℤ◌, ◌<ℤ◌, pos, neg_ℤ, IfSome, IsTrue};
ghost use Rattle.arbitrary_int.specs.Residue.{Congruent};

use arbitrary_int::prelude::*;

pub fn zeros_of_all() -> u32
    ensures { result ≡ 0 }
{
    u5::max_value().count_zeros()
}

pub fn zeros_of_none(x: u5) -> u32
    ensures none { x ≡ pos 0 → result ≡ 5 }
    ensures some { x ≡ pos 31 → result ≡ 0 }
    ensures found { x <ℤ pos 31 → 1 ≤ result }
{
    x.count_zeros()
}

pub fn ones_at_the_front(x: i48) -> u32
    ensures negative { x <ℤ pos 0 → 1 ≤ result }
    ensures others { pos 0 ≤ℤ x → result ≡ 0 }
    ensures all { x ≡ neg_ℤ (pos 1) → result ≡ 48 }
{
    x.leading_ones()
}

pub fn ones_at_the_end(x: u24) -> u32
    ensures even { Congruent 1 x (pos 0) → result ≡ 0 }
    ensures odd { Congruent 1 x (pos 1) → 1 ≤ result }
    ensures all { x ≡ pos 16777215 → result ≡ 24 }
    ensures found { x <ℤ pos 16777215 → result < 24 }
{
    x.trailing_ones()
}

pub fn zeros_at_the_end(x: u24) -> u32
    ensures odd { Congruent 1 x (pos 1) → result ≡ 0 }
    ensures even { Congruent 1 x (pos 0) → 1 ≤ result }
{
    x.trailing_zeros()
}

pub fn free_slot(bitmap: u24) -> Option<u5>
    ensures { IfSome result (λ place. place <ℤ pos 24) }
{
    if bitmap == u24::max_value() {
        None
    } else {
        Some(u5::new(bitmap.trailing_ones() as u8))
    }
}

pub fn ones_of_all() -> u32
    ensures { result ≡ 12 }
{
    u12::max_value().count_ones()
}

#[tactic(auto, using(arbitrary_laws::proofs::counts::Rulesets::known_counts))]
pub fn parity_of_one() -> bool
    ensures { IsTrue result }
{
    u12::new(1).count_ones() % 2 == 1
}

#[tactic(auto, using(arbitrary_laws::proofs::counts::Rulesets::known_counts))]
pub fn count_of_a_number() -> u32
    ensures { result ≡ 4 }
{
    u24::new(0xA5).count_ones()
}

pub fn leading_zeros_are_zeros(x: u5) -> bool
    ensures { IsTrue result }
{
    x.leading_zeros() <= x.count_zeros()
}

pub fn trailing_zeros_are_zeros(x: i5) -> bool
    ensures { IsTrue result }
{
    x.trailing_zeros() <= x.count_zeros()
}

pub fn leading_ones_are_ones(x: i5) -> bool
    ensures { IsTrue result }
{
    x.leading_ones() <= x.count_ones()
}

pub fn trailing_ones_are_ones(x: u5) -> bool
    ensures { IsTrue result }
{
    x.trailing_ones() <= x.count_ones()
}

pub fn ones_in_the_storage(x: u12) -> bool
    ensures { IsTrue result }
{
    x.value().count_ones() == x.count_ones()
}

pub fn ones_when_widened(x: u4) -> bool
    ensures { IsTrue result }
{
    x.as_::<u24>().count_ones() == x.count_ones() && x.as_u8().count_ones() == x.count_ones()
}

pub fn zeros_when_widened(x: u12) -> bool
    ensures { IsTrue result }
{
    x.as_::<u24>().count_zeros() == x.count_zeros() + 12
}

pub fn leading_zeros_when_widened(x: u12) -> bool
    ensures { IsTrue result }
{
    x.as_::<u24>().leading_zeros() == x.leading_zeros() + 12
}
