//! Test vectors of powers.

use crate::same::same;
use arbitrary_base::power::{saturating_pow, saturating_pow_counted};

#[test]
fn powers_of_the_least_number_alternate(rt: HostRuntime) {
    for (exponent, power) in [(0, 0), (1, -1), (2, 0), (3, -1)] {
        same(&rt, saturating_pow(-1i8, exponent, 1), power);
    }
    for (exponent, power, most) in [
        (3, -8192, 4),
        (4294967294, 8191, 64),
        (4294967295, -8192, 64),
    ] {
        let (result, count) = saturating_pow_counted(-8192i16, exponent, 14);
        same(&rt, (result, count <= most), (power, true));
    }
}

#[test]
fn small_powers_are_exact(rt: HostRuntime) {
    same(&rt, saturating_pow(-4i16, 3, 14), -64);
    same(&rt, saturating_pow(0u8, 0, 7), 1);
}
