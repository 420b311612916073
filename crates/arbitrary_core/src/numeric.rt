//! The traits of `num_traits` that both types implement at every width, valid or not: `WrappingAdd`, `WrappingSub`,
//! and the parents that these require. To `num_traits`, a value's integer is its number, and truncation is `wrap`.
//! `bounds` has the traits that make a value, such as `Bounded`.

pub mod laws;
pub mod signed;
pub mod unsigned;
