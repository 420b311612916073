//! Decimal text of both types. `radix` has the other bases.

pub mod signed;
pub mod unsigned;
