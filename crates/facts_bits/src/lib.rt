//! Facts about bits, masks, counts, shifts and rotations that users expect, one in each function. None has a
//! proof of its own: the contracts of the calls are enough, in some files with a set of laws.
#![tactic(auto)]

pub mod bits;
pub mod counts;
pub mod masks;
pub mod other_bits;
pub mod rotations;
pub mod sign_masks;
pub mod single_bits;
pub mod undone;
