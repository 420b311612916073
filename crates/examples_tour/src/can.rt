//! The identifier of a CAN frame.

use arbitrary_int::prelude::*;
use bit_fields::Record;
use examples::can::Identifier;
use std::io;

/// Prints the fields of an identifier, and the identifier with the least priority and another source.
pub fn show(rt: &impl Print) -> io::Result<()> {
    let mut record = Record { bits: 0x18FE_F100 };
    let identifier = Identifier::read(&record);
    println!(rt;
        "{} {} {} {} {} {}",
        identifier.priority,
        identifier.extended_data_page,
        identifier.data_page,
        identifier.format,
        identifier.specific,
        identifier.source
    )?;
    record.put(26, u3::new(7));
    record.put::<u8>(0, 0x21);
    println!(rt; "{:x}", record.bits)
}
