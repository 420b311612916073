//! The exact number of multiplications in a power, for which the contract has an upper bound.

use arbitrary_int::prelude::*;

/// Exponents, and the count of each for a base that is not 0, 1 or -1: one squaring for each binary digit but
/// the last, and one product for each digit that is one, but for the lowest of several digits: with it the
/// product begins.
fn counts() -> [(u32, u32); 15] {
    [
        (0, 0),
        (1, 1),
        (2, 2),
        (3, 2),
        (4, 3),
        (5, 3),
        (6, 4),
        (7, 4),
        (8, 4),
        (15, 6),
        (16, 5),
        (31, 8),
        (32, 6),
        (63, 10),
        (64, 7),
    ]
}

/// The first exponent that takes another count.
fn first_wrong<V: ProductCalls>(base: V, counts: &[(u32, u32)]) -> Option<u32> {
    for (exponent, count) in counts {
        let (_, counted) = base.saturating_pow_counted(*exponent);
        if counted != *count {
            return Some(*exponent);
        }
    }
    None
}

/// The first exponent whose power of two is not a one moved up so far.
fn first_wrong_power(counts: &[(u32, u32)]) -> Option<u32> {
    for (exponent, _) in counts {
        let (power, _) = u120::new(2).saturating_pow_counted(*exponent);
        if power.value() != 1u128.wrapping_shl(*exponent) {
            return Some(*exponent);
        }
    }
    None
}

#[test]
fn powers_take_the_multiplications_of_squaring(rt: HostRuntime) {
    let counts = counts();
    assert_eq!(rt;
        [
            first_wrong_power(&counts),
            first_wrong(u120::new(2), &counts),
            first_wrong(i120::new(-2), &counts),
        ],
        [None; 3]
    );
    // The first squaring shows whether the base is 0, 1 or -1, whose powers need no further product.
    let squared_once = [(2, 1), (3, 1), (4, 1), (1000, 1), (u32::MAX, 1)];
    assert_eq!(rt;
        [
            first_wrong(u7::new(0), &squared_once),
            first_wrong(u7::new(1), &squared_once),
            first_wrong(i7::new(-1), &squared_once),
        ],
        [None; 3]
    );
}
