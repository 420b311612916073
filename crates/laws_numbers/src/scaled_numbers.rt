//! Laws about numbers that are multiplied, and then divided by at least as much, such as percentages.
#![tactic(auto, using(arbitrary_laws::proofs::numbers::QuotientOrder::scaled_numbers))]

ghost use Rattle.std.specs.Prelude.{◌<ℤ◌, ◌≤ℤ◌, pos};

use arbitrary_int::prelude::*;

pub fn percent_is_at_most_the_whole(percent: u7, whole: u12) -> u12
    requires { percent ≤ℤ pos 100 }
    ensures { result ≤ℤ whole }
{
    u12::from_(u24::from_(percent) * u24::from_(whole) / u24::new(100))
}

pub fn part_is_at_most_the_number(x: u24, part: u24, whole: u24) -> u24
    requires some { pos 0 <ℤ whole }
    requires part { part ≤ℤ whole }
    ensures { result ≤ℤ x }
{
    u24::from_(u48::from_(x) * u48::from_(part) / u48::from_(whole))
}

pub fn faded_sample_is_at_most_the_sample(sample: i12, level: u4) -> i24
    requires { pos 0 ≤ℤ sample }
    ensures { result ≤ℤ sample }
{
    i24::from_(sample) * i24::from_(level) / i24::new(15)
}
