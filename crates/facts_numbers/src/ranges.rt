//! Facts about the values of `range_inclusive`. `lists` of `programs` has sums, and steps from value to value.
#![tactic(auto, using(arbitrary_laws::proofs::steps::Rulesets::ranges))]

ghost use Rattle.std.specs.Prelude.{◌≡◌, ◌≤ℤ◌, Some};

use arbitrary_int::prelude::*;
use arbitrary_int::range_inclusive;

pub fn first_of_range(low: u7, high: u7) -> Option<u7>
    requires { low ≤ℤ high }
    ensures { result ≡ Some low }
{
    range_inclusive(low, high).next()
}

pub fn last_of_range(low: u7, high: u7) -> Option<u7>
    requires { low ≤ℤ high }
    ensures { result ≡ Some high }
{
    range_inclusive(low, high).next_back()
}
