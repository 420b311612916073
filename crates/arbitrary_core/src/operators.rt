//! The arithmetic operators and their assigning forms, which require that the exact result is in range.
//! tools/twins.py compares the two files. The calls that wrap, clamp or refuse are in `arbitrary_calls`.

pub mod signed;
pub mod unsigned;
