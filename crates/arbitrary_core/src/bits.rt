//! The constant `BITS` of each short name and each full width, such as `u7::BITS`. Generic code uses that of
//! `Numbered`.

pub mod signed_to_128;
pub mod signed_to_64;
pub mod unsigned_to_128;
pub mod unsigned_to_64;
