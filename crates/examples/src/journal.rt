//! A log of readings: each record is written in the Borsh form, one field after the other.

ghost use Rattle.std.specs.Prelude.{◌≡◌, IsTrue, IfOk, OnOk, OnErr};
ghost use Rattle.std.specs.Io.KnownBytes.{Appends, Consumes};
ghost use Rattle.arbitrary_int.specs.Streams.{AppendsBeginning};
ghost use Rattle.arbitrary_int.specs.Watched.{inner_of, has_failed};
ghost use Rattle.examples.specs.Journal.{FailedOrNoRecord, record_bytes};

use arbitrary_int::Watched;
use arbitrary_int::prelude::*;
use std::alloc::Global;
use std::io;
use std::io::{Read, Write};

/// One reading of one device.
#[derive(Clone, Copy, Debug, PartialEq, Eq)]
pub struct Record {
    /// In milliseconds.
    pub time: u40,
    /// How urgent it is.
    pub level: u3,
    /// Which device measured.
    pub source: u9,
    pub reading: i12,
}

/// Writes the record, and nothing else. After a fault of the writer a beginning of the record was written.
pub fn write<W: Write>(line: Record, writer: &mut Watched<W>) -> io::Result<()>
    ensures all { OnOk result
        (Appends (W.contents (inner_of writer.old)) (W.contents (inner_of writer.new))
        (record_bytes line.time line.level line.source line.reading)) }
    ensures begun { OnErr result
        (AppendsBeginning (W.contents (inner_of writer.old)) (W.contents (inner_of writer.new))
        (record_bytes line.time line.level line.source line.reading)) }
    ensures failed { OnErr result (IsTrue (has_failed writer.new)) }
{
    line.time.serialize(writer)?;
    line.level.serialize(writer)?;
    line.source.serialize(writer)?;
    line.reading.serialize(writer)
}

/// Reads the bytes of one record, and leaves what follows. A record that is there is refused only where the
/// reader failed.
pub fn read<R: Read>(reader: &mut Watched<R>) -> io::Result<Record>
    ensures taken { IfOk result
        (λ x. Consumes (R.remaining (inner_of reader.old)) (R.remaining (inner_of reader.new))
        (record_bytes x.time x.level x.source x.reading)) }
    ensures why { OnErr result
        (FailedOrNoRecord (R.remaining (inner_of reader.old)) (has_failed reader.new)) }
{
    let time = u40::deserialize_reader(reader)?;
    let level = u3::deserialize_reader(reader)?;
    let source = u9::deserialize_reader(reader)?;
    let reading = i12::deserialize_reader(reader)?;
    Ok(Record {
        time,
        level,
        source,
        reading,
    })
}

/// What was written is read back.
pub fn written_and_read(alloc: Global, line: Record) -> io::Result<Record>
    ensures { IfOk result (λ x. x ≡ line) }
{
    let mut log = Watched::new(Vec::new(alloc));
    write(line, &mut log)?;
    let bytes = log.into_inner();
    let found = read(&mut Watched::new(bytes.as_slice()))?;
    Ok(found)
}
