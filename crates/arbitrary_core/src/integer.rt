//! `UInt` and `Int` as integer types: the impls of `Numbered` and `Integer`. `arbitrary_traits` has the contracts
//! of the calls, which the primitives also meet.

pub mod signed;
pub mod unsigned;
