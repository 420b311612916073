//! Test vectors of `arbitrary_base`.

mod bits;
mod powers;
mod watched;
