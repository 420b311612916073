//! `<<` and `>>` of both types: `<<` shifts the bits of an `Int`, and `>>` its number. `arbitrary_base::shifts` has
//! the shifts, and `ShiftAmount` of `arbitrary_traits` converts the amount. The calls that take any amount are in
//! `arbitrary_calls`. tools/twins.py compares the two files.

pub mod signed;
pub mod unsigned;
