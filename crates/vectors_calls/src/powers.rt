//! Test vectors of powers, and of the number of their multiplications.

use crate::same::same;
use arbitrary_int::prelude::*;

#[test]
fn powers_end_at_the_range(rt: HostRuntime) {
    for (exponent, power) in [(3, -8192), (4294967294, 8191), (4294967295, -8192)] {
        let result = i14::min_value().saturating_pow(exponent);
        same(&rt, result.value(), power);
    }
    for (exponent, power) in [(0, 0), (1, -1), (2, 0), (3, -1)] {
        let result = Int::<i8, 1>::new(-1).saturating_pow(exponent);
        same(&rt, result.value(), power);
    }
}

#[test]
fn few_multiplications_serve_a_great_exponent(rt: HostRuntime) {
    for (exponent, power, most) in [
        (3, -8192, 4),
        (4294967294, 8191, 64),
        (4294967295, -8192, 64),
    ] {
        let (result, count) = i14::min_value().saturating_pow_counted(exponent);
        same(&rt, (result.value(), count <= most), (power, true));
    }
}
