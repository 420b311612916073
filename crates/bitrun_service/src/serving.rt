//! `serve`: reads the input, and writes its output.

ghost use Rattle.arbitrary_int.specs.Watched.{inner_of, has_failed};
ghost use Rattle.bitrun_service.specs.Serving.{Serves};

use crate::output::output;
use crate::stream::{read_all, write_all};
use arbitrary_int::Watched;
use bitrun_text::fault::Fault;
use std::alloc::{Allocator, Global};
use std::io::{Read, Write};

/// Reads the input, and writes its output.
///
/// It reads the whole input, with at most 65,537 calls of `read`, and makes the whole output before
/// it writes the first byte. It repeats no call of the reader or the writer. The clauses about the
/// input apply to a reader whose bytes are known, and which returns 0 bytes only at its end.
pub fn serve<R: Read, W: Write>(
    alloc: Global,
    reader: &mut Watched<R>,
    writer: &mut Watched<W>,
) -> Result<(), Fault>
    ensures { Serves (R.remaining (inner_of reader.old)) (R.remaining (inner_of reader.new))
        (has_failed reader.new)
        (W.contents (inner_of writer.old)) (W.contents (inner_of writer.new))
        (has_failed writer.new) result }
{
    serve_in(&alloc, reader, writer)
}

/// `serve`, with memory from any allocator.
pub fn serve_in<A: Allocator, R: Read, W: Write>(
    alloc: &A,
    reader: &mut Watched<R>,
    writer: &mut Watched<W>,
) -> Result<(), Fault>
    ensures { Serves (R.remaining (inner_of reader.old)) (R.remaining (inner_of reader.new))
        (has_failed reader.new)
        (W.contents (inner_of writer.old)) (W.contents (inner_of writer.new))
        (has_failed writer.new) result }
{
    let input = read_all(alloc, reader)?;
    let text = output(alloc, input.as_slice())?;
    write_all(writer, text.as_slice())
}
