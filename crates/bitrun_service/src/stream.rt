//! Reads the whole input, and writes the whole output, for `serving`. Only this module calls a reader or a writer.
//! An input has at most 65,536 bytes, and no call is repeated after a failure.

ghost use Rattle.std.specs.Prelude.{◌≡◌, ◌≤◌, vec_len, IfOk, IfErr, OnOk, OnErr, IfSome, IsTrue};
ghost use Rattle.std.specs.Io.KnownBytes.{Appends, IsAtEnd};
ghost use Rattle.arbitrary_int.specs.Watched.{inner_of, has_failed};
ghost use Rattle.arbitrary_int.specs.Streams.{AppendsBeginning};
ghost use Rattle.bitrun_service.specs.Stream.{ReadFault};

use arbitrary_base::streams::write_full;
use arbitrary_int::Watched;
use bitrun_text::fault::Fault;
use std::alloc::Allocator;
use std::io::{Read, Write};

/// The greatest number of bytes of an input.
const LONGEST_INPUT: usize = 65_536;

/// All bytes that the reader yields, with at most 65,537 calls of its `read`. It makes no call
/// after a failed one, or after it knows that the input is too long.
pub fn read_all<'a, A: Allocator, R: Read>(
    alloc: &'a A,
    reader: &mut Watched<R>,
) -> Result<Vec<u8, &'a A>, Fault>
    ensures all { IfOk result
        (λ input. IfSome (R.remaining (inner_of reader.old)) (λ held. input.items ≡ held)) }
    ensures nothing_left { OnOk result (IsAtEnd (R.remaining (inner_of reader.new))) }
    ensures short { IfOk result (λ input. vec_len input ≤ 65536) }
    ensures fault { IfErr result
        (ReadFault (R.remaining (inner_of reader.old)) (has_failed reader.new)) }
{
    let mut input = Vec::new(alloc);
    // The C library clears a longer array with an instruction for each byte, as callgrind counts.
    let mut chunk = [0u8; 2048];
    for _ in 0..LONGEST_INPUT + 1 {
        let Ok(count) = reader.read(&mut chunk) else {
            return Err(Fault::Read);
        };
        if count == 0 {
            return Ok(input);
        }
        if count > LONGEST_INPUT - input.len() {
            return Err(Fault::TooLong);
        }
        input.extend_from_slice(&chunk[..count])?;
    }
    unreachable!()
}

/// Writes all of the bytes, in as many calls as the writer needs. It makes no call after a failed
/// one.
pub fn write_all<W: Write>(writer: &mut Watched<W>, bytes: &[u8]) -> Result<(), Fault>
    ensures all { OnOk result
        (Appends (W.contents (inner_of writer.old)) (W.contents (inner_of writer.new)) bytes.now) }
    ensures begun { OnErr result
        (AppendsBeginning (W.contents (inner_of writer.old))
        (W.contents (inner_of writer.new)) bytes.now) }
    ensures failed { OnErr result (IsTrue (has_failed writer.new)) }
    ensures only { IfErr result (λ fault. fault ≡ Fault.Write) }
{
    match write_full(writer, bytes) {
        Ok(()) => Ok(()),
        Err(_) => Err(Fault::Write),
    }
}
