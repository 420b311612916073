//! The last values that the conditions of the calls allow: for constructors, conversions, operators and amounts,
//! for the places of bits, fields and registers, and for divisors. With the next value, the check refuses the
//! function.
//!
//! No function here has a contract. The check proves the conditions of its calls, and nothing else.
#![tactic(auto)]

pub mod assignments;
pub mod constructors;
pub mod conversions;
pub mod division;
pub mod extraction;
pub mod fields;
pub mod operators;
pub mod runs;
pub mod shifts;
