//! Examples: a device's register and settings, a packet header, a frame of bytes, a sensor, a filter, a log, a
//! decoder, the registers of a clock, lists of steps at one width and at two, code for every width, fields in a
//! record, numbers as text and as keys, a video chip's scroll registers, and a processor's flags. The program
//! `examples_tour` prints their results.
#![tactic(auto)]

pub mod can;
pub mod clock;
pub mod decoder;
pub mod filter;
pub mod first;
pub mod frame;
pub mod generic;
pub mod header;
pub mod journal;
pub mod keys;
pub mod register;
pub mod scroll;
pub mod sensor;
pub mod settings;
pub mod status;
pub mod steps;
pub mod sums;
pub mod texts;
pub mod timer;
pub mod widths;
