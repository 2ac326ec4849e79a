//! Readers and writers of std as sources and sinks, which count their failures and how often they were read at their end.

ghost use Rattle.std.specs.Prelude.{◌≡◌, is_err};
ghost use Rattle.std.specs.Io.{ReadsAtMost, WritesAtMost};
ghost use Rattle.std.specs.Io.KnownBytes.{ReadConsumes, WriteAppends};
ghost use Rattle.ink_protocol.specs.Ends.{after_call, gives_nothing, takes_nothing};

use crate::input::{ReadFailed, Source};
use crate::output::{Sink, WriteFailed};
use std::io::{Read, Write};

/// A reader or a writer of one's own, and how often it has failed: reads that failed, or writes that failed or took no byte
/// though there was one; and how many reads have given no byte. The counts are of 64 bits and wrap around.
#[derive(Drop)]
pub struct Counting<X> {
    inner: X,
    pub failures: u64,
    pub ends: u64,
}

impl<X> Counting<X> {
    /// It has not failed yet, and was not read at its end.
    pub fn new(inner: X) -> Counting<X>
        ensures same { result.inner ≡ inner }
        ensures sound { result.failures ≡ 0 }
        ensures ends { result.ends ≡ 0 }
    {
        Counting {
            inner,
            failures: 0,
            ends: 0,
        }
    }

    /// The reader or the writer, as it is now.
    pub fn into_inner(self) -> X
        ensures { result ≡ self.inner }
    {
        self.inner
    }
}

impl<R: Read> Source for Counting<R> {
    ghost remaining = { λ s. R.remaining s.inner };

    ghost failures = { λ s. s.failures };

    ghost ends = { λ s. s.ends };

    ghost name = { λ s. 0 };

    fn read(&mut self, buffer: &mut [u8]) -> Result<usize, ReadFailed> {
        counted_read(&mut self.inner, &mut self.failures, &mut self.ends, buffer)
    }
}

impl<W: Write> Sink for Counting<W> {
    ghost contents = { λ s. W.contents s.inner };

    ghost failures = { λ s. s.failures };

    ghost name = { λ s. 0 };

    fn write(&mut self, bytes: &[u8]) -> Result<usize, WriteFailed> {
        counted_write(&mut self.inner, &mut self.failures, bytes)
    }
}

/// A reader or a writer that is lent, and how often it has failed and was read at its end meanwhile, counted as by `Counting`.
#[derive(Drop)]
pub struct Lent<'a, X> {
    inner: &'a mut X,
    failures: u64,
    ends: u64,
}

impl<'a, X> Lent<'a, X> {
    /// It has not failed yet, and was not read at its end.
    pub fn over(inner: &'a mut X) -> Lent<'a, X>
        ensures same_reference { result.inner.ghost_name ≡ inner.entry.ghost_name }
        ensures value { result.inner.now ≡ inner.old }
        ensures sound { result.failures ≡ 0 }
        ensures ends { result.ends ≡ 0 }
    {
        Lent {
            inner,
            failures: 0,
            ends: 0,
        }
    }
}

impl<R: Read> Source for Lent<'_, R> {
    ghost remaining = { λ s. R.remaining s.inner.now };

    ghost failures = { λ s. s.failures };

    ghost ends = { λ s. s.ends };

    ghost name = { λ s. s.inner.ghost_name };

    fn read(&mut self, buffer: &mut [u8]) -> Result<usize, ReadFailed> {
        counted_read(self.inner, &mut self.failures, &mut self.ends, buffer)
    }
}

impl<W: Write> Sink for Lent<'_, W> {
    ghost contents = { λ s. W.contents s.inner.now };

    ghost failures = { λ s. s.failures };

    ghost name = { λ s. s.inner.ghost_name };

    fn write(&mut self, bytes: &[u8]) -> Result<usize, WriteFailed> {
        counted_write(self.inner, &mut self.failures, bytes)
    }
}

// One read, which is counted where it fails or gives no byte.
fn counted_read<R: Read>(
    reader: &mut R,
    failures: &mut u64,
    ends: &mut u64,
    buffer: &mut [u8],
) -> Result<usize, ReadFailed>
    ensures bound { ReadsAtMost result buffer.new }
    ensures bytes { ReadConsumes (R.remaining reader.old) (R.remaining reader.new) result buffer.new }
    ensures count { failures.new ≡ after_call (is_err result) failures.old }
    ensures ends { ends.new ≡ after_call (gives_nothing result) ends.old }
{
    match reader.read(buffer) {
        Ok(count) => {
            if count == 0 {
                *ends = ends.wrapping_add(1);
            }
            Ok(count)
        }
        Err(_) => {
            *failures = failures.wrapping_add(1);
            Err(ReadFailed)
        }
    }
}

// One write, which is counted where it fails or takes no byte.
fn counted_write<W: Write>(
    writer: &mut W,
    failures: &mut u64,
    bytes: &[u8],
) -> Result<usize, WriteFailed>
    ensures bound { WritesAtMost result bytes.now }
    ensures bytes { WriteAppends (W.contents writer.old) (W.contents writer.new) result bytes.now }
    ensures count { failures.new ≡ after_call (takes_nothing result bytes.now) failures.old }
{
    match writer.write(bytes) {
        Ok(count) => {
            if count == 0 && !bytes.is_empty() {
                *failures = failures.wrapping_add(1);
            }
            Ok(count)
        }
        Err(_) => {
            *failures = failures.wrapping_add(1);
            Err(WriteFailed)
        }
    }
}
