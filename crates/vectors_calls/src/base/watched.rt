//! What no clause of `Watched` states: it calls the inner stream once for each call, and returns an error with
//! its kind.

ghost use Rattle.std.specs.Prelude.{◌≤◌, IfOk};

use crate::same::same;
use arbitrary_base::watched::Watched;
use std::io;
use std::io::{ErrorKind, Read, Write};

/// Serves its first call and each later one with a limited number of bytes, or with an error, and counts its calls.
#[derive(Drop)]
struct Counting {
    first: Result<usize, ErrorKind>,
    later: Result<usize, ErrorKind>,
    calls: usize,
}

impl Counting {
    fn given(&mut self, asked: usize) -> io::Result<usize>
        ensures { IfOk result (λ n. n ≤ asked) }
    {
        let result = if self.calls == 0 {
            self.first
        } else {
            self.later
        };
        self.calls = self.calls.saturating_add(1);
        match result {
            Ok(most) => Ok(most.min(asked)),
            Err(kind) => Err(io::Error::from(kind)),
        }
    }
}

impl Read for Counting {
    fn read(&mut self, buf: &mut [u8]) -> io::Result<usize> {
        self.given(buf.len())
    }
}

impl Write for Counting {
    fn write(&mut self, buf: &[u8]) -> io::Result<usize> {
        self.given(buf.len())
    }

    fn flush(&mut self) -> io::Result<()> {
        Ok(())
    }
}

/// One that has not been called yet, and treats all calls alike.
fn watched(outcome: Result<usize, ErrorKind>) -> Watched<Counting> {
    Watched::new(Counting {
        first: outcome,
        later: outcome,
        calls: 0,
    })
}

const KINDS: [ErrorKind; 42] = [
    ErrorKind::NotFound,
    ErrorKind::PermissionDenied,
    ErrorKind::ConnectionRefused,
    ErrorKind::ConnectionReset,
    ErrorKind::HostUnreachable,
    ErrorKind::NetworkUnreachable,
    ErrorKind::ConnectionAborted,
    ErrorKind::NotConnected,
    ErrorKind::AddrInUse,
    ErrorKind::AddrNotAvailable,
    ErrorKind::NetworkDown,
    ErrorKind::BrokenPipe,
    ErrorKind::AlreadyExists,
    ErrorKind::WouldBlock,
    ErrorKind::NotADirectory,
    ErrorKind::IsADirectory,
    ErrorKind::DirectoryNotEmpty,
    ErrorKind::ReadOnlyFilesystem,
    ErrorKind::FilesystemLoop,
    ErrorKind::StaleNetworkFileHandle,
    ErrorKind::InvalidInput,
    ErrorKind::InvalidData,
    ErrorKind::TimedOut,
    ErrorKind::WriteZero,
    ErrorKind::StorageFull,
    ErrorKind::NotSeekable,
    ErrorKind::QuotaExceeded,
    ErrorKind::FileTooLarge,
    ErrorKind::ResourceBusy,
    ErrorKind::ExecutableFileBusy,
    ErrorKind::Deadlock,
    ErrorKind::CrossesDevices,
    ErrorKind::TooManyLinks,
    ErrorKind::InvalidFilename,
    ErrorKind::ArgumentListTooLong,
    ErrorKind::Interrupted,
    ErrorKind::Unsupported,
    ErrorKind::UnexpectedEof,
    ErrorKind::OutOfMemory,
    ErrorKind::InProgress,
    ErrorKind::Other,
    ErrorKind::Uncategorized,
];

/// The outcome of a call, with the kind of its error.
fn kind_of(outcome: io::Result<usize>) -> Result<usize, ErrorKind> {
    match outcome {
        Ok(count) => Ok(count),
        Err(error) => Err(error.kind()),
    }
}

#[test]
fn a_fault_of_any_kind_is_passed_on_and_recorded(rt: HostRuntime) {
    for kind in KINDS {
        let mut reader = watched(Err(kind));
        same(&rt, kind_of(reader.read(&mut [0])), Err(kind));
        same(&rt, reader.failed(), true);
        let mut writer = watched(Err(kind));
        same(&rt, kind_of(writer.write(&[0])), Err(kind));
        same(&rt, writer.failed(), true);
    }
}

#[test]
fn each_call_asks_the_inner_one_once(rt: HostRuntime) {
    for result in [Ok(0), Ok(1), Ok(9), Err(ErrorKind::Other)] {
        let (mut reader, mut writer) = (watched(result), watched(result));
        for calls in 1..4 {
            let mut room = [0; 2];
            let (read, written) = if calls == 2 {
                (reader.read(&mut []), writer.write(&[]))
            } else {
                (reader.read(&mut room), writer.write(&[7, 8]))
            };
            let wanted = match result {
                Ok(most) => Ok(if calls == 2 { 0 } else { most.min(2) }),
                Err(kind) => Err(kind),
            };
            same(&rt, kind_of(read), wanted);
            same(&rt, kind_of(written), wanted);
            same(&rt, reader.failed(), result.is_err());
            same(&rt, writer.failed(), !matches!(result, Ok(1 | 9)));
        }
        let (reader, writer) = (reader.into_inner(), writer.into_inner());
        same(&rt, (reader.calls, writer.calls), (3, 3));
    }
}

#[test]
fn the_flag_stays_up_when_later_calls_succeed(rt: HostRuntime) {
    let mut broken = Watched::new(Counting {
        first: Err(ErrorKind::Interrupted),
        later: Ok(1),
        calls: 0,
    });
    same(
        &rt,
        kind_of(broken.read(&mut [0])),
        Err(ErrorKind::Interrupted),
    );
    same(&rt, kind_of(broken.read(&mut [0])), Ok(1));
    same(&rt, kind_of(broken.write(&[0])), Ok(1));
    same(&rt, (broken.failed(), broken.failures()), (true, 1));
    same(&rt, broken.into_inner().calls, 3);
}
