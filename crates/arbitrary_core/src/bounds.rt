//! `Bounded`, `SaturatingAdd`, `SaturatingSub` and `Zero` of `num_traits`, and std's `Default`, for both types at
//! each valid width (`HasWidth`). `numeric` has the traits that both types implement at every width.

pub mod signed;
pub mod unsigned;
