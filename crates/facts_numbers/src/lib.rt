//! Facts about sums, differences, products, quotients and orders, about conversions, ranges and defaults, and about lines of
//! Rust, one in each function. None has a proof of its own: the contracts of the calls are enough, in some files with a set
//! of laws.
#![tactic(auto)]

pub mod arithmetic;
pub mod congruent;
pub mod conversions;
pub mod counters;
pub mod defaults;
pub mod differences;
pub mod differences_or_zero;
pub mod ends;
pub mod forms;
pub mod numbers;
pub mod other_storages;
pub mod products;
pub mod quotients;
pub mod range_iterators;
pub mod ranges;
pub mod rust_lines;
pub mod signed_orders;
pub mod signed_primitives;
pub mod special_operands;
pub mod stream_bytes;
pub mod totals;
