//! Readers and writers that accept or yield one byte for each call, and that fail.
use arbitrary_int::Watched;
use bitrun_service::serving::serve;
use bitrun_text::fault::Fault;
use std::io;
use std::io::{ErrorKind, Read, Write};
use std::test::Fail;

/// A reader that yields one byte for each call, and fails at one of its calls.
#[derive(Drop)]
struct Drip<'a> {
    rest: &'a [u8],
    calls: usize,
    fails_at: usize,
    kind: ErrorKind,
}

impl Read for Drip<'_> {
    fn read(&mut self, buf: &mut [u8]) -> io::Result<usize> {
        self.calls = self.calls.saturating_add(1);
        if self.calls == self.fails_at {
            return Err(io::Error::from(self.kind));
        }
        let text = self.rest;
        match text {
            [byte, rest @ ..] if !buf.is_empty() => {
                buf[0] = *byte;
                self.rest = rest;
                Ok(1)
            }
            _ => Ok(0),
        }
    }
}

/// A writer that accepts one byte for each call, and at one of its calls fails or accepts nothing.
#[derive(Drop)]
struct Nibble {
    taken: Vec<u8>,
    calls: usize,
    fails_at: usize,
    kind: Option<ErrorKind>,
}

impl Write for Nibble {
    fn write(&mut self, buf: &[u8]) -> io::Result<usize> {
        self.calls = self.calls.saturating_add(1);
        if self.calls == self.fails_at {
            return match self.kind {
                Some(kind) => Err(io::Error::from(kind)),
                None => Ok(0),
            };
        }
        match buf {
            [byte, ..] => {
                self.taken.push(*byte)?;
                Ok(1)
            }
            [] => Ok(0),
        }
    }

    fn flush(&mut self) -> io::Result<()> {
        Ok(())
    }
}

const INPUT: &[u8] = b"run i7\n5 -0 \t-64\r\n\nnot 0 0\n";

const OUTPUT: &[u8] = b"-6 0 -64\ndone\n";

#[test]
fn reader_fails(rt: HostRuntime) -> Result<(), Fail> {
    for kind in [ErrorKind::Other, ErrorKind::Interrupted] {
        for fails_at in 1..INPUT.len() + 3 {
            let mut reader = Watched::new(Drip {
                rest: INPUT,
                calls: 0,
                fails_at,
                kind,
            });
            let mut writer = Watched::new(Vec::new(rt.alloc()));
            let outcome = serve(rt.alloc(), &mut reader, &mut writer);
            let failed = fails_at < INPUT.len() + 2;
            assert_eq!(rt; outcome, if failed { Err(Fault::Read) } else { Ok(()) });
            assert_eq!(rt; reader.failed(), failed);
            let written = writer.into_inner();
            assert_eq!(rt; written.as_slice(), if failed { b"" } else { OUTPUT });
            let reader = reader.into_inner();
            assert_eq!(rt; reader.calls, fails_at.min(INPUT.len() + 1));
        }
    }
    Ok(())
}

#[test]
fn writer_fails(rt: HostRuntime) -> Result<(), Fail> {
    for kind in [Some(ErrorKind::Other), Some(ErrorKind::Interrupted), None] {
        for fails_at in 1..OUTPUT.len() + 2 {
            let mut reader = Watched::new(INPUT);
            let mut writer = Watched::new(Nibble {
                taken: Vec::new(rt.alloc()),
                calls: 0,
                fails_at,
                kind,
            });
            let outcome = serve(rt.alloc(), &mut reader, &mut writer);
            let failed = fails_at <= OUTPUT.len();
            assert_eq!(rt; outcome, if failed { Err(Fault::Write) } else { Ok(()) });
            assert_eq!(rt; writer.failed(), failed);
            let writer = writer.into_inner();
            assert_eq!(rt; writer.calls, fails_at.min(OUTPUT.len()));
            let begun = &OUTPUT[..(fails_at - 1).min(OUTPUT.len())];
            assert_eq!(rt; writer.taken.as_slice(), begun);
        }
    }
    Ok(())
}

#[test]
fn reader_has_too_much(rt: HostRuntime) -> Result<(), Fail> {
    let input = vec![in rt.alloc(); b'x'; 70_000]?;
    let mut reader = Watched::new(Drip {
        rest: input.as_slice(),
        calls: 0,
        fails_at: 0,
        kind: ErrorKind::Other,
    });
    let mut writer = Watched::new(Vec::new(rt.alloc()));
    let outcome = serve(rt.alloc(), &mut reader, &mut writer);
    assert_eq!(rt; outcome, Err(Fault::TooLong));
    let reader = reader.into_inner();
    assert_eq!(rt; reader.calls, 65_537);
    let written = writer.into_inner();
    assert!(rt; written.is_empty());
    Ok(())
}
