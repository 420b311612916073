//! The bitwise operators of the types, by the functions of `bitwise` of `arbitrary_base`.

pub mod signed;
pub mod unsigned;
