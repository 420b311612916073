//! Values behind `&mut`, and in loops.

ghost use Rattle.std.specs.Prelude.{◌≡◌, ◌+ℤ◌, ◌-ℤ◌, ◌≤ℤ◌, pos};

use arbitrary_int::prelude::*;

/// Counts one more, if there is room.
pub fn count(counter: &mut u12) {
    if *counter < u12::max_value() {
        *counter += u12::new(1);
    }
}

/// The next count, which stays at the maximum.
pub fn next(count: u12) -> u12 {
    if count < u12::max_value() {
        count + u12::new(1)
    } else {
        count
    }
}

/// The same by a function of values.
pub fn count_by_value(counter: &mut u12) {
    *counter = next(*counter);
}

/// The sum of the samples, clamped to the maximum.
pub fn total(samples: &[u4]) -> u12 {
    let mut total = u12::new(0);
    for sample in samples {
        total = total.saturating_add(u12::from_(*sample));
    }
    total
}

/// How many steps there are, or the greatest number.
pub fn steps(count: u32) -> u12 {
    let mut total = u12::new(0);
    for _ in 0..count {
        if total < u12::max_value() {
            total += u12::new(1);
        }
    }
    total
}

/// Whether the number of ones is odd.
pub fn is_odd(number: u12) -> bool {
    let mut odd = u12::new(0);
    for place in 0..12u8 {
        odd ^= (number >> place) & u12::new(1);
    }
    odd == u12::new(1)
}

/// How many numbers there are from `low` to `high`.
pub fn numbers_between(low: u7, high: u7) -> usize
    requires { low ≤ℤ high }
    ensures { pos result ≡ high -ℤ low +ℤ pos 1 }
{
    range_inclusive(low, high).count()
}
