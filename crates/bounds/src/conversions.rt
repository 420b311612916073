//! A conversion keeps the number: `from_` accepts the range of the target, and `widen` goes up to the width of the storage.

use arbitrary_core::aliases::unsigned::{u5, u20};
use arbitrary_traits::numbered::Numbered;

/// The greatest number that a byte has.
pub fn greatest_byte() -> u8 {
    u8::from_(u20::new(255))
}

/// To all bits of the storage.
pub fn to_the_storage() -> u8 {
    u5::new(1).widen::<8>().value()
}

/// To one bit more.
pub fn to_one_bit_more() -> u8 {
    u5::new(1).widen::<6>().value()
}
