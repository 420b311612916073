//! Laws of generic code that need a group of `GenericLaws`. There is one module for each group.

pub mod bit_sums;
pub mod complements;
pub mod counts;
pub mod moved_bits;
pub mod orders;
pub mod products;
pub mod sums;
