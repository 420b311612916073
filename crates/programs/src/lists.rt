//! Lists, sums, steps from value to value, and tables.

ghost use Rattle.std.specs.Prelude.{◌≡◌, ◌↔◌, ◌+ℤ◌, ◌-ℤ◌, ◌*ℤ◌, ◌≤ℤ◌, ◌<ℤ◌, pos, IsTrue, IfSome};
ghost use Rattle.arbitrary_int.specs.Range.{InRange};

use arbitrary_int::prelude::*;
use arbitrary_int::try_sum;

pub fn sum_of_two(a: u12, b: u12) -> Option<u12>
    ensures { IfSome result (λ sum. sum ≡ a +ℤ b) }
{
    try_sum([a, b].iter().copied())
}

pub fn doubled(times: u4) -> u24 {
    let mut x = u24::new(1);
    for _ in 0..times.value() {
        x <<= 1;
    }
    x
}

pub fn steps_are_difference(low: u7, high: u7) -> usize
    requires { low ≤ℤ high }
    ensures { pos result ≡ high -ℤ low }
{
    u7::steps_between(&low, &high).0
}

pub fn forward(low: u7) -> Option<u7>
    ensures { IfSome result (λ x. x ≡ low +ℤ pos 3) }
{
    u7::forward_checked(low, 3)
}

pub fn steps_between(a: u12, b: u12) -> bool
    ensures { IsTrue result }
{
    match u12::forward_checked(a, 1) {
        Some(next) => a < next,
        None => a == u12::max_value(),
    }
}

pub fn tallied(tally: &mut [u32; 16], x: u4) {
    tally[x.as_usize()] = 1;
}

pub fn summed(list: &[u4; 8]) -> u12 {
    let mut sum = u12::zero();
    for x in list.iter() {
        sum = sum.wrapping_add(u12::from_(*x));
    }
    sum
}

pub fn greatest_of(list: &[u12]) -> Option<u12> {
    list.iter().copied().max()
}

pub fn twice<T: FixedWidth>(x: T) -> T
    requires { InRange T.IS_SIGNED T.BITS (T.number x +ℤ T.number x) }
    ensures { T.number result ≡ pos 2 *ℤ T.number x }
{
    x + x
}

pub fn generic_called(x: u12) -> u12
    requires { x <ℤ pos 2048 }
    ensures { result ≡ pos 2 *ℤ x }
{
    twice(x)
}

pub fn generic_sum<V: FixedWidth>(list: &[V]) -> V
    requires { V.valid }
{
    let mut sum = V::zero();
    for x in list.iter() {
        sum = sum.saturating_add(*x);
    }
    sum
}

#[tactic(auto, using(arbitrary_laws::proofs::steps::Rulesets::signed_lists))]
pub fn equal_lists(a: &[u12], b: &[u12]) -> bool
    ensures { IsTrue result ↔ (a.now ≡ b.now) }
{
    a == b
}

#[tactic(auto, using(arbitrary_laws::proofs::steps::Rulesets::signed_lists))]
pub fn equal_arrays(a: &[i5; 3], b: &[i5; 3]) -> bool
    ensures { IsTrue result ↔ (a.now ≡ b.now) }
{
    a == b
}
