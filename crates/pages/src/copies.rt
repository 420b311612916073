//! `Copy` types that contain such integers.

use arbitrary_int::prelude::*;

/// A standard and an extended identifier of a frame.
#[derive(Clone, Copy, Debug, Default, PartialEq, Eq)]
pub struct Frame {
    pub standard: u11,
    pub extended: u29,
}

impl Frame {
    /// The standard identifier, by value.
    pub fn into_standard(self) -> u11 {
        self.standard
    }

    /// The standard identifier.
    pub fn standard(&self) -> u11 {
        self.standard
    }
}

/// The identifier, twice.
pub fn twice(frame: Frame) -> (u11, u11) {
    let again = frame;
    (frame.into_standard(), again.into_standard())
}

/// The same by reference, which may be done any number of times.
pub fn by_reference(frame: Frame) -> (u11, u11) {
    (frame.standard(), frame.standard())
}
