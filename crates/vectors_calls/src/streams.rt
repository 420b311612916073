//! Values in streams that accept or yield one byte for each call, and that fail in the middle of a value.

ghost use Rattle.std.specs.Prelude.{◌<◌, IfOk, IfSome};

use crate::same::same;
use arbitrary_int::Watched;
use arbitrary_int::prelude::*;
use std::io;
use std::io::{ErrorKind, Read, Write};
use std::process::Abort;

/// Gives or takes one byte at each call, and counts the calls. After `lasts` calls, each call is a fault of
/// the kind, or gives or takes nothing.
#[derive(Drop)]
struct Drip {
    bytes: [u8; 16],
    calls: usize,
    lasts: usize,
    fault: Option<ErrorKind>,
}

impl Drip {
    fn new(bytes: [u8; 16], lasts: usize, fault: Option<ErrorKind>) -> Self {
        Drip {
            bytes,
            calls: 0,
            lasts,
            fault,
        }
    }

    /// The place of the next byte, if it gives or takes one.
    fn place(&mut self) -> io::Result<Option<usize>>
        ensures { IfOk result (λ place. IfSome place (λ n. n < 16)) }
    {
        let place = self.calls;
        self.calls = place.saturating_add(1);
        if place < self.lasts && place < 16 {
            return Ok(Some(place));
        }
        match self.fault {
            Some(kind) => Err(io::Error::from(kind)),
            None => Ok(None),
        }
    }
}

impl Read for Drip {
    fn read(&mut self, buf: &mut [u8]) -> io::Result<usize> {
        match self.place()? {
            Some(place) if !buf.is_empty() => {
                buf[0] = self.bytes[place];
                Ok(1)
            }
            _ => Ok(0),
        }
    }
}

impl Write for Drip {
    fn write(&mut self, buf: &[u8]) -> io::Result<usize> {
        match self.place()? {
            Some(place) if !buf.is_empty() => {
                self.bytes[place] = buf[0];
                Ok(1)
            }
            _ => Ok(0),
        }
    }

    fn flush(&mut self) -> io::Result<()> {
        Ok(())
    }
}

/// A stream whose first call is a fault of the kind. From then on it is the other stream.
#[derive(Drop)]
struct Stumbling {
    fault: Option<ErrorKind>,
    stream: Drip,
}

impl Stumbling {
    fn new(bytes: [u8; 16], kind: ErrorKind) -> Self {
        Stumbling {
            fault: Some(kind),
            stream: Drip::new(bytes, 16, None),
        }
    }
}

impl Read for Stumbling {
    fn read(&mut self, buf: &mut [u8]) -> io::Result<usize> {
        match self.fault.take() {
            Some(kind) => Err(io::Error::from(kind)),
            None => self.stream.read(buf),
        }
    }
}

impl Write for Stumbling {
    fn write(&mut self, buf: &[u8]) -> io::Result<usize> {
        match self.fault.take() {
            Some(kind) => Err(io::Error::from(kind)),
            None => self.stream.write(buf),
        }
    }

    fn flush(&mut self) -> io::Result<()> {
        Ok(())
    }
}

/// How many calls are made for `count` bytes. The last one finds no further byte.
fn calls(lasts: usize, count: usize) -> usize {
    if lasts == count {
        lasts
    } else {
        lasts.saturating_add(1)
    }
}

/// Reads the value from a stream that ends after `lasts` of its bytes.
fn is_read<V: Integer + Stored>(rt: &impl Abort, value: V, lasts: usize, fault: Option<ErrorKind>)
    requires { V.valid }
{
    let mut bytes = [0; 16];
    let count = value.to_borsh_bytes(&mut bytes);
    let mut reader = Watched::new(Drip::new(bytes, lasts, fault));
    let read = V::deserialize_reader(&mut reader).map_err(|error| error.kind());
    let wanted = if lasts == count {
        Ok(value)
    } else {
        Err(fault.unwrap_or(ErrorKind::UnexpectedEof))
    };
    same(rt, read, wanted);
    same(rt, reader.failed(), lasts != count && fault.is_some());
    same(rt, reader.into_inner().calls, calls(lasts, count));
}

/// Writes the value to a stream that takes `lasts` of its bytes.
fn is_written<V: Integer + Stored>(
    rt: &impl Abort,
    value: V,
    lasts: usize,
    fault: Option<ErrorKind>,
)
    requires { V.valid }
{
    let mut bytes = [0; 16];
    let count = value.to_borsh_bytes(&mut bytes);
    let mut writer = Watched::new(Drip::new([0x7E; 16], lasts, fault));
    let written = value.serialize(&mut writer).map_err(|error| error.kind());
    let wanted = if lasts == count {
        Ok(())
    } else {
        Err(fault.unwrap_or(ErrorKind::WriteZero))
    };
    same(rt, written, wanted);
    same(rt, writer.failed(), lasts != count);
    let taken = writer.into_inner();
    same(rt, taken.calls, calls(lasts, count));
    for (place, byte) in taken.bytes.iter().enumerate() {
        let wanted = if place < lasts {
            bytes.get(place).copied()
        } else {
            Some(0x7E)
        };
        same(rt, Some(*byte), wanted);
    }
}

/// Reads the value from its bytes, and writes it, where the stream ends or fails after each number of bytes up to all.
fn goes_through_streams<V: Integer + Stored>(rt: &impl Abort, value: V, bytes: &[u8])
    requires { V.valid }
{
    let mut all = [0; 16];
    let count = value.to_borsh_bytes(&mut all);
    same(rt, all.get(..count), Some(bytes));
    for fault in [None, Some(ErrorKind::Other), Some(ErrorKind::Interrupted)] {
        for lasts in 0..=count {
            is_read(rt, value, lasts, fault);
            is_written(rt, value, lasts, fault);
        }
    }
}

#[test]
fn values_a_byte_at_a_time(rt: HostRuntime) {
    goes_through_streams(&rt, u9::new(300), &[0x2C, 0x01]);
    goes_through_streams(&rt, i9::new(-1), &[0xFF, 0x01]);
    goes_through_streams(
        &rt,
        u120::new(0x0F0E_0D0C_0B0A_0908_0706_0504_0302_01),
        &[1, 2, 3, 4, 5, 6, 7, 8, 9, 10, 11, 12, 13, 14, 15],
    );
    goes_through_streams(
        &rt,
        UInt::<u128, 128>::new(0xFFEE_DDCC_BBAA_9988_7766_5544_3322_1100),
        &[
            0x00, 0x11, 0x22, 0x33, 0x44, 0x55, 0x66, 0x77, 0x88, 0x99, 0xAA, 0xBB, 0xCC, 0xDD,
            0xEE, 0xFF,
        ],
    );
}

/// One value read from a stream of which one call has failed by then.
fn reads<V: Integer + Stored>(
    rt: &impl Abort,
    reader: &mut Watched<Stumbling>,
    wanted: Result<V, ErrorKind>,
)
    requires { V.valid }
{
    let read = V::deserialize_reader(reader).map_err(|error| error.kind());
    same(rt, read, wanted);
    same(rt, (reader.failed(), reader.failures()), (true, 1));
}

/// One value written to a stream of which one call has failed by then.
fn writes<V: Integer + Stored>(
    rt: &impl Abort,
    writer: &mut Watched<Stumbling>,
    value: V,
    wanted: Result<(), ErrorKind>,
) {
    let written = value.serialize(writer).map_err(|error| error.kind());
    same(rt, written, wanted);
    same(rt, (writer.failed(), writer.failures()), (true, 1));
}

/// After a fault the same stream is read and written as if there had been none. The flag and the count stay.
fn goes_on_after_a_fault<V: Integer + Stored>(rt: &impl Abort, value: V)
    requires { V.valid }
{
    let mut bytes = [0; 16];
    let count = value.to_borsh_bytes(&mut bytes);
    for kind in [ErrorKind::Other, ErrorKind::Interrupted] {
        let mut reader = Watched::new(Stumbling::new(bytes, kind));
        reads::<V>(rt, &mut reader, Err(kind));
        reads(rt, &mut reader, Ok(value));
        same(rt, reader.into_inner().stream.calls, count);
        let mut writer = Watched::new(Stumbling::new([0x7E; 16], kind));
        writes(rt, &mut writer, value, Err(kind));
        writes(rt, &mut writer, value, Ok(()));
        let taken = writer.into_inner().stream;
        same(rt, taken.calls, count);
        same(rt, taken.bytes.get(..count), bytes.get(..count));
    }
}

#[test]
fn an_old_fault_is_no_new_one(rt: HostRuntime) {
    goes_on_after_a_fault(&rt, u9::new(300));
    goes_on_after_a_fault(&rt, i40::new(-1));
}

#[test]
fn bytes_that_are_refused_are_read_and_no_more(rt: HostRuntime) {
    let bytes: [u8; 3] = [0x2C, 0x03, 0x07];
    let mut reader = Watched::new(bytes.as_slice());
    let read = u9::deserialize_reader(&mut reader).map_err(|error| error.kind());
    same(&rt, read, Err(ErrorKind::InvalidData));
    same(&rt, reader.failed(), false);
    same(&rt, reader.into_inner(), [0x07].as_slice());
}
