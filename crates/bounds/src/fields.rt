//! Fields that end at bit 128.

use arbitrary_int::prelude::*;
use bit_fields::{Record, disjoint};

/// The high 5 bits of a record.
pub fn highest_field(record: &Record) -> u5 {
    record.get(123)
}

/// Puts 1 into the high 5 bits of a record.
pub fn put_into_the_highest(record: &mut Record) {
    record.put(123, u5::new(1));
}

/// All bits of a record, and none of them.
pub fn all_and_none() -> bool {
    disjoint(0, 128, 128, 0)
}
