//! The input and the output of a replay.
ghost use Rattle.std.specs.Prelude.{◌≡◌, ℕ, ◌+◌, ◌-◌, ◌^◌, ◌<◌, ◌≤◌, List, Option, length, IfOk};
ghost use Rattle.std.specs.Io.Buffered.{writer_contents};
ghost use Rattle.std.specs.Io.KnownBytes.{Keeps, ReadConsumes, WriteAppends};
ghost use Rattle.mds_script.specs.Ends.{read_failures, write_failures};

use std::alloc::{AllocError, Global};
use std::io::{BufWriter, Read, Write};

/// A read or a write that failed.
#[derive(Clone, Copy, Debug, PartialEq, Eq)]
pub struct Failed;

/// An input of bytes, in pieces of any size.
pub trait Source {
    /// The bytes that further reads will return, where they are known.
    ghost remaining: { Self → Option (List ℕ) };

    /// How many reads have failed so far.
    ghost failures: { Self → ℕ };

    /// Copies some of the next bytes to the beginning of the buffer, and returns how many. No bytes for a buffer that
    /// isn't empty is the end of the input. A failed read consumes nothing.
    fn read(&mut self, buffer: &mut [u8]) -> Result<usize, Failed>
        requires countable { failures self.old < 2 ^ 64 - 1 }
        ensures bound { IfOk result (λ n. n ≤ length buffer.new) }
        ensures bytes { ReadConsumes (remaining self.old) (remaining self.new) result buffer.new }
        ensures counted { failures self.new ≡ failures self.old + read_failures result };
}

/// An output of bytes, in pieces of any size.
pub trait Sink {
    /// The bytes written so far, where they are known.
    ghost contents: { Self → Option (List ℕ) };

    /// How many writes have failed so far; a write that took no bytes is one of them.
    ghost failures: { Self → ℕ };

    /// Writes some bytes from the beginning of these, and returns how many. A failed write takes none.
    fn write(&mut self, bytes: &[u8]) -> Result<usize, Failed>
        requires countable { failures self.old < 2 ^ 64 - 1 }
        ensures bound { IfOk result (λ n. n ≤ length bytes.now) }
        ensures bytes { WriteAppends (contents self.old) (contents self.new) result bytes.now }
        ensures counted { failures self.new ≡ failures self.old + write_failures result };
}

/// A reader of the standard library that may be let go.
pub trait InputStream: Read + Drop {}

impl<R: Read + Drop> InputStream for R {}

/// A writer of the standard library that may be let go.
pub trait OutputStream: Write + Drop {}

impl<W: Write + Drop> OutputStream for W {}

/// Any reader of the standard library, as a source.
#[derive(Drop)]
pub struct FromReader<R> {
    reader: R,
    failures: u64,
}

impl<R: Read> FromReader<R> {
    /// The source with this reader's bytes.
    pub fn new(reader: R) -> Self
        ensures bytes { ⟦<FromReader<R> as Source>⟧.remaining result ≡ R.remaining reader }
        ensures fresh { ⟦<FromReader<R> as Source>⟧.failures result ≡ 0 }
    {
        FromReader {
            reader,
            failures: 0,
        }
    }
}

impl<R: Read> Source for FromReader<R> {
    ghost remaining = { λ s. R.remaining s.reader };

    ghost failures = { λ s. s.failures };

    fn read(&mut self, buffer: &mut [u8]) -> Result<usize, Failed> {
        match self.reader.read(buffer) {
            Ok(n) => Ok(n),
            Err(_) => {
                self.failures += 1;
                Err(Failed)
            }
        }
    }
}

/// Any writer of the standard library, as a sink with a buffer of a few kilobytes.
#[derive(Drop)]
pub struct ToWriter<W: OutputStream> {
    writer: BufWriter<W>,
    failures: u64,
}

impl<W: OutputStream> ToWriter<W> {
    /// The sink that writes to this writer. The only error is out of memory.
    pub fn new(alloc: Global, writer: W) -> Result<Self, AllocError>
        ensures bytes { IfOk result (λ s. Keeps (W.contents writer) (⟦<ToWriter<W> as Sink>⟧.contents s)) }
        ensures fresh { IfOk result (λ s. ⟦<ToWriter<W> as Sink>⟧.failures s ≡ 0) }
    {
        match BufWriter::new(alloc, writer) {
            Ok(writer) => Ok(ToWriter {
                writer,
                failures: 0,
            }),
            Err(_) => Err(AllocError),
        }
    }

    /// Flushes the buffer, and returns the writer. The error is a failed write.
    pub fn finish(mut self) -> Result<W, Failed>
        ensures { IfOk result (λ writer. Keeps (⟦<ToWriter<W> as Sink>⟧.contents self) (W.contents writer)) }
    {
        if self.writer.flush().is_err() {
            return Err(Failed);
        }
        match self.writer.into_inner() {
            Ok(writer) => Ok(writer),
            Err(_) => Err(Failed),
        }
    }
}

impl<W: OutputStream> Sink for ToWriter<W> {
    ghost contents = { λ s. writer_contents W.contents s.writer };

    ghost failures = { λ s. s.failures };

    fn write(&mut self, bytes: &[u8]) -> Result<usize, Failed> {
        match self.writer.write(bytes) {
            Ok(n) => {
                if n == 0 {
                    self.failures += 1;
                }
                Ok(n)
            }
            Err(_) => {
                self.failures += 1;
                Err(Failed)
            }
        }
    }
}
