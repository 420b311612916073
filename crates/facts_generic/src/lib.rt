//! Facts in code that is generic over the type or its width. None has a proof of its own. Most name no set, because
//! the bounds `Integer` and `FixedWidth` have laws. Each file of `groups` opens a group of the laws of `FixedWidth`, and
//! `congruent_chains`, `small_numbers` and `wider_ranges` name one set of laws each.
#![tactic(auto)]

pub mod any_width;
pub mod bits;
pub mod calls;
pub mod checked;
pub mod congruent_chains;
pub mod groups;
pub mod numbers;
pub mod operations;
pub mod operators;
pub mod orders;
pub mod places;
pub mod small_numbers;
pub mod wider_ranges;
pub mod widths;
