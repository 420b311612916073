//! The hash of both types: a hasher gets the same input as for the number in the storage. `agreement` has the laws
//! that relate hash, equality and order. A change of one of these needs a change of the others.

pub mod agreement;
pub mod signed;
pub mod unsigned;
