//! Reads a known number of bytes, and writes all of some bytes, for the values of `borsh` in `arbitrary_int`. After
//! a failure they make no further call. They repeat no call, not even an interrupted one, because `Watched` counts
//! each failure.

ghost use Rattle.std.specs.Prelude.{◌<◌, ◌⊎◌, length, IfSome, OnOk, OnErr};
ghost use Rattle.std.specs.Io.KnownBytes.{Appends, Consumes};
ghost use Rattle.arbitrary_base.specs.Watched.{inner_of, NoFailure, Failure};
ghost use Rattle.arbitrary_base.specs.Streams.{AppendsBeginning};

use crate::watched::Watched;
use std::io;
use std::io::{ErrorKind, Read, Write};

/// Fills `buf`, with at most one call of the reader for each byte. If the input ends before, the
/// error is `UnexpectedEof`.
pub fn read_full<R: Read>(reader: &mut Watched<R>, buf: &mut [u8]) -> io::Result<()>
    ensures all { let before = R.remaining (inner_of reader.old) in
        let after = R.remaining (inner_of reader.new) in
        OnOk result (Consumes before after buf.new) }
    ensures no_failure { OnOk result (NoFailure reader.old reader.new) }
    ensures why { let before = R.remaining (inner_of reader.old) in OnErr result (IfSome before
        (λ held. Failure reader.old reader.new ⊎ (length held < length buf.old))) }
{
    let mut at = 0;
    while at < buf.len() {
        let count = reader.read(&mut buf[at..])?;
        if count == 0 {
            return Err(io::Error::from(ErrorKind::UnexpectedEof));
        }
        at += count;
    }
    Ok(())
}

/// Writes all of the bytes, with at most one call of the writer for each byte. If the writer
/// accepts no byte, the error is `WriteZero`.
pub fn write_full<W: Write>(writer: &mut Watched<W>, bytes: &[u8]) -> io::Result<()>
    ensures all { let before = W.contents (inner_of writer.old) in
        let after = W.contents (inner_of writer.new) in
        OnOk result (Appends before after bytes.now) }
    ensures no_failure { OnOk result (NoFailure writer.old writer.new) }
    ensures begun { let before = W.contents (inner_of writer.old) in
        let after = W.contents (inner_of writer.new) in
        OnErr result (AppendsBeginning before after bytes.now) }
    ensures failed { OnErr result (Failure writer.old writer.new) }
{
    let mut at = 0;
    while at < bytes.len() {
        let count = writer.write(&bytes[at..])?;
        if count == 0 {
            return Err(io::Error::from(ErrorKind::WriteZero));
        }
        at += count;
    }
    Ok(())
}
