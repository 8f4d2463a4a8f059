//! Readers and writers whose failing calls are counted.

ghost use Rattle.std.specs.Prelude.{◌≡◌};

use std::io;
use std::io::{Read, Write};

/// A reader or a writer that counts its calls (reads, writes and flushes) and its failures: the calls that answered
/// an error, and the writes that took none of the bytes that they were given. Nothing else is counted. Each count
/// stops at 2^64 - 1.
#[derive(Drop)]
pub struct Counted<T> {
    inner: T,
    failures: u64,
    calls: u64,
}

impl<T> Counted<T> {
    ghost use Rattle.std.specs.Prelude.{◌≡◌, ◌≤◌};
    ghost use Rattle.ln_msgs.specs.Pings.CountedView.{inner_of, failures_of, calls_of};
    ghost use Rattle.ln_msgs.specs.Pings.Counted.{one_more};

    /// Wraps a reader or a writer that wasn't called yet. Takes no memory.
    pub fn new(inner: T) -> Counted<T>
        ensures wraps_the_inner { inner_of result ≡ inner }
        ensures has_no_failures { failures_of result ≡ 0 }
        ensures has_no_calls { calls_of result ≡ 0 }
    {
        Counted {
            inner,
            failures: 0,
            calls: 0,
        }
    }

    /// The reader or writer. Takes no memory.
    pub fn into_inner(self) -> T
        ensures { result ≡ inner_of self }
    {
        self.inner
    }

    /// The reader or writer.
    pub fn get_ref(&self) -> &T
        ensures { result.now ≡ inner_of self.now }
    {
        &self.inner
    }

    /// How many calls have failed, at most 2^64 - 1.
    pub fn failures(&self) -> u64
        ensures { result ≡ failures_of self.now }
    {
        self.failures
    }

    /// How many calls were made, at most 2^64 - 1.
    pub fn calls(&self) -> u64
        ensures { result ≡ calls_of self.now }
    {
        self.calls
    }

    /// Counts a call that failed.
    fn fail(&mut self)
        ensures keeps_the_inner { inner_of self.new ≡ inner_of self.old }
        ensures counts_a_failure { failures_of self.new ≡ one_more (failures_of self.old) }
        ensures no_fewer_failures { failures_of self.old ≤ failures_of self.new }
        ensures counts_no_call { calls_of self.new ≡ calls_of self.old }
    {
        self.failures = self.failures.saturating_add(1);
    }

    /// Counts a call.
    fn count(&mut self)
        ensures keeps_the_inner { inner_of self.new ≡ inner_of self.old }
        ensures counts_no_failure { failures_of self.new ≡ failures_of self.old }
        ensures counts_a_call { calls_of self.new ≡ one_more (calls_of self.old) }
        ensures no_fewer_calls { calls_of self.old ≤ calls_of self.new }
    {
        self.calls = self.calls.saturating_add(1);
    }
}

impl<R: Read> Read for Counted<R> {
    ghost use Rattle.std.specs.Prelude.{◌≡◌, ◌≤◌};
    ghost use Rattle.std.specs.Io.{ReadsAtMost};
    ghost use Rattle.std.specs.Io.KnownBytes.{ReadConsumes};
    ghost use Rattle.ln_msgs.specs.Pings.CountedView.{inner_of, failures_of, calls_of};
    ghost use Rattle.ln_msgs.specs.Pings.Counted.{one_more, counted, has_failed};

    ghost remaining = { λ c. R.remaining (inner_of c) };

    /// One read of the reader. Counts an error.
    fn read(&mut self, buffer: &mut [u8]) -> io::Result<usize>
        ensures bound { ReadsAtMost result buffer.new }
        ensures bytes { ReadConsumes (R.remaining (inner_of self.old))
            (R.remaining (inner_of self.new)) result buffer.new }
        ensures counts_a_failure { failures_of self.new ≡ counted (has_failed result) (failures_of self.old) }
        ensures no_fewer_failures { failures_of self.old ≤ failures_of self.new }
        ensures counts_a_call { calls_of self.new ≡ one_more (calls_of self.old) }
        ensures no_fewer_calls { calls_of self.old ≤ calls_of self.new }
    {
        self.count();
        let result = self.inner.read(buffer);
        if result.is_err() {
            self.fail();
        }
        result
    }
}

impl<W: Write> Write for Counted<W> {
    ghost use Rattle.std.specs.Prelude.{◌≡◌, ◌≤◌};
    ghost use Rattle.std.specs.Io.{WritesAtMost};
    ghost use Rattle.std.specs.Io.KnownBytes.{WriteAppends, Keeps};
    ghost use Rattle.ln_msgs.specs.Pings.CountedView.{inner_of, failures_of, calls_of};
    ghost use Rattle.ln_msgs.specs.Pings.Counted.{one_more, counted, has_failed, has_write_failed};

    ghost contents = { λ c. W.contents (inner_of c) };

    /// One write of the writer. Counts an error, and a write that takes nothing of some bytes.
    fn write(&mut self, bytes: &[u8]) -> io::Result<usize>
        ensures bound { WritesAtMost result bytes.now }
        ensures bytes { WriteAppends (W.contents (inner_of self.old))
            (W.contents (inner_of self.new)) result bytes.now }
        ensures counts_a_failure { failures_of self.new
            ≡ counted (has_write_failed result bytes.now) (failures_of self.old) }
        ensures no_fewer_failures { failures_of self.old ≤ failures_of self.new }
        ensures counts_a_call { calls_of self.new ≡ one_more (calls_of self.old) }
        ensures no_fewer_calls { calls_of self.old ≤ calls_of self.new }
    {
        self.count();
        let result = self.inner.write(bytes);
        match &result {
            Ok(0) if !bytes.is_empty() => self.fail(),
            Ok(_) => {}
            Err(_) => self.fail(),
        }
        result
    }

    /// One flush of the writer. Counts an error.
    fn flush(&mut self) -> io::Result<()>
        ensures bytes { Keeps (W.contents (inner_of self.old)) (W.contents (inner_of self.new)) }
        ensures counts_a_failure { failures_of self.new ≡ counted (has_failed result) (failures_of self.old) }
        ensures no_fewer_failures { failures_of self.old ≤ failures_of self.new }
        ensures counts_a_call { calls_of self.new ≡ one_more (calls_of self.old) }
        ensures no_fewer_calls { calls_of self.old ≤ calls_of self.new }
    {
        self.count();
        let result = self.inner.flush();
        if result.is_err() {
            self.fail();
        }
        result
    }
}
