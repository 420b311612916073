//! Reads registers and steps from text.
//!
//! The first line is `run` and the type of the registers, or `wide` and a pair of types. The second line has the
//! numbers of the registers, and each later line that is not blank is a step. A `Cursor` reads the text once. If
//! the text does not have this form, the first bad line is reported.
#![tactic(auto)]

mod fast;
pub mod fault;
pub mod kind;
mod numeral;
mod operation;
pub mod parsing;
pub mod text;
