//! Equality and order of both types: those of the numbers.

pub mod signed;
pub mod unsigned;
