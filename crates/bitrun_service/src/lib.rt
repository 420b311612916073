//! Reads a text from a stream, runs its steps, and writes the output to another stream.
//!
//! The first line is `run` and the type of the registers, or `wide` and a pair of types. The second line has their
//! numbers, and each later line that is not blank is a step: an operation, the register that it writes, and its
//! operands. Registers are counted from 0. The output is their numbers after the steps, and how the run ended. If
//! the text does not have this form, nothing runs, and the first bad line is reported.
#![tactic(auto)]

mod decimal;
pub mod laws;
mod output;
mod printing;
mod running;
pub mod serving;
mod stream;
mod types;
