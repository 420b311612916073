//! The base of the integer types: the primitive integers as storages, truncation to fewer bits, and arithmetic and
//! operations on bits at a width. Each function has one body for all storages.
#![tactic(auto)]

pub mod bitwise;
pub mod byte_lists;
pub mod checked;
pub mod ends;
pub mod error;
pub mod extraction;
pub mod laws;
pub mod overflowing;
pub mod patterns;
pub mod power;
mod raised;
pub mod saturating;
pub mod shifts;
mod small;
pub mod storage;
pub mod streams;
pub mod truncation;
pub mod watched;
pub mod wrapping;
