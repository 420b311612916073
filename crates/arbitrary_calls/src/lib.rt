//! The calls of integers of fixed width, for `UInt` and `Int`.
#![tactic(auto)]

pub mod calls;
pub mod extraction;
pub mod fixed_width;
mod low_bits;
pub mod stored;
