//! A frame of bytes in network order.

use arbitrary_int::prelude::*;
use examples::frame::Frame;
use std::io;

/// Prints a frame's fields, and the bytes of another.
pub fn show(rt: &impl Print) -> io::Result<()> {
    let frame = Frame::decode([0x5A, 0xC3, 0x7F, 0xF8, 0x01]);
    println!(rt;
        "{} {} {} {}",
        frame.identifier, frame.length, frame.first, frame.second
    )?;
    let other = Frame {
        first: i12::new(-1),
        ..frame
    };
    let bytes = other.encode();
    println!(rt; "{:x} {:x} {:x}", bytes[0], bytes[1], bytes[2])
}
