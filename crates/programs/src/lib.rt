//! Parts of programs, one in each function: headers, sensors, lists, structs, streams and machines. None has a
//! proof of its own: the contracts of the calls are enough, with at most one set of laws.
#![tactic(auto)]

pub mod bytes;
pub mod headers;
pub mod indices;
pub mod lists;
pub mod machine;
pub mod readers;
pub mod records;
pub mod sensors;
pub mod steps;
pub mod streams;
pub mod structs;
pub mod texts;
