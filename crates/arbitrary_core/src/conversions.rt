//! std's `From` between these integers, and between them and the primitives.

pub mod narrower_signed;
pub mod narrower_unsigned;
pub mod signed;
pub mod unsigned;
