//! The traits of integers of any width, and their impls for the primitives. A contract knows only the sign and the
//! width of a type.
#![tactic(auto)]

pub mod counterparts;
pub mod integer;
pub mod numbered;
pub mod primitives;
pub mod shift_amount;
