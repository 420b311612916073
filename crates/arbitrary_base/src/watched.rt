//! A reader or a writer that counts its failed calls.

ghost use Rattle.std.specs.Prelude.{◌≡◌, ◌<◌, false, length, IfOk, OnOk, OnErr};
ghost use Rattle.std.specs.Io.{ReadsAtMost, WritesAtMost};
ghost use Rattle.std.specs.Io.KnownBytes.{ReadConsumes, WriteAppends};
ghost use Rattle.arbitrary_base.specs.Watched.{inner_of, has_failed, failures_of, NoFailure, Failure};

use std::io;
use std::io::{Read, Write};

/// A reader or a writer, with a flag that is set when a call of it fails, and a count of the failed
/// calls.
///
/// The flag lets a contract state that the stream caused a fault, and the count that the fault is a
/// new one.
#[derive(Drop)]
pub struct Watched<D> {
    inner: D,
    failed: bool,
    failures: u64,
}

impl<D> Watched<D> {
    /// Watches a reader or a writer, with no failures so far.
    pub fn new(inner: D) -> Self
        ensures inner { inner_of result ≡ inner }
        ensures flag { has_failed result ≡ false }
        ensures none { failures_of result ≡ 0 }
    {
        Watched {
            inner,
            failed: false,
            failures: 0,
        }
    }

    /// Whether a call has failed.
    pub fn failed(&self) -> bool
        ensures { result ≡ has_failed self.now }
    {
        self.failed
    }

    /// The number of failed calls, modulo `2 ^ 64`.
    pub fn failures(&self) -> u64
        ensures { result ≡ failures_of self.now }
    {
        self.failures
    }

    /// Counts one more failed call.
    fn fails(&mut self)
        ensures failure { Failure self.old self.new }
        ensures inner { inner_of self.new ≡ inner_of self.old }
    {
        self.failed = true;
        self.failures = self.failures.wrapping_add(1);
    }

    /// The reader or the writer.
    pub fn into_inner(self) -> D
        ensures { result ≡ inner_of self }
    {
        self.inner
    }
}

impl<D: Read> Watched<D> {
    /// Calls the reader's `read` once, and returns its result. Any `Err` is a failure.
    pub fn read(&mut self, buf: &mut [u8]) -> io::Result<usize>
        ensures bound { ReadsAtMost result buf.new }
        ensures bytes { let before = D.remaining (inner_of self.old) in
            let after = D.remaining (inner_of self.new) in
            ReadConsumes before after result buf.new }
        ensures no_failure { OnOk result (NoFailure self.old self.new) }
        ensures raised { OnErr result (Failure self.old self.new) }
    {
        let outcome = self.inner.read(buf);
        if outcome.is_err() {
            self.fails();
        }
        outcome
    }
}

impl<D: Write> Watched<D> {
    /// Calls the writer's `write` once, and returns its result. Any `Err` is a failure, and so is a
    /// writer that accepts none of at least one byte.
    pub fn write(&mut self, buf: &[u8]) -> io::Result<usize>
        ensures bound { WritesAtMost result buf.now }
        ensures bytes { let before = D.contents (inner_of self.old) in
            let after = D.contents (inner_of self.new) in
            WriteAppends before after result buf.now }
        ensures no_failure { let count = length buf.now in
            IfOk result (λ n. (n ≡ 0 → count ≡ 0) → NoFailure self.old self.new) }
        ensures took_nothing { let count = length buf.now in
            IfOk result (λ n. n ≡ 0 → 0 < count → Failure self.old self.new) }
        ensures raised { OnErr result (Failure self.old self.new) }
    {
        let outcome = self.inner.write(buf);
        let failed = match &outcome {
            Ok(n) => *n == 0 && !buf.is_empty(),
            Err(_) => true,
        };
        if failed {
            self.fails();
        }
        outcome
    }
}
