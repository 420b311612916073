//! First calls: a field of a word, a sum that wraps, and a sum that stays in range.

use arbitrary_int::prelude::*;

/// The mode of a timer: bits 4 and 5 of its control register.
pub fn mode(register: u32) -> u2 {
    u2::extract_u32(register, 4)
}

/// The next count, which starts again at 0 after 16383.
pub fn next(count: u14) -> u14 {
    count.wrapping_add(u14::new(1))
}

/// The sum of two samples, or the nearest number that 12 bits can say.
pub fn mixed(a: i12, b: i12) -> i12 {
    a.saturating_add(b)
}
