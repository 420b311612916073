//! The length of a number's text.
#![tactic(auto, using(arbitrary_laws::proofs::bytes::Rulesets::texts))]

ghost use Rattle.std.specs.Prelude.{◌≡◌, ◌≤◌, ◌≤ℤ◌, ◌<ℤ◌, pos, IfOk, length, string_bytes};

use arbitrary_int::prelude::*;
use std::alloc::{AllocError, Global};

pub fn text_of_a_digit(alloc: Global, x: u3) -> Result<String, AllocError>
    ensures { IfOk result (λ text. length (string_bytes text) ≡ 1) }
{
    format!(in alloc; "{x}")
}

pub fn text_of_twelve_bits(alloc: Global, x: u12) -> Result<String, AllocError>
    ensures { IfOk result (λ text. length (string_bytes text) ≤ 4) }
{
    format!(in alloc; "{x}")
}

pub fn text_of_two_digits(alloc: Global, x: u7) -> Result<String, AllocError>
    requires low { pos 10 ≤ℤ x }
    requires high { x <ℤ pos 100 }
    ensures { IfOk result (λ text. length (string_bytes text) ≡ 2) }
{
    format!(in alloc; "{x}")
}
