//! The readers and writers of std as sources and sinks. They tell nothing of their bytes.
ghost use Rattle.std.specs.Prelude.{◌≡◌, None};

use crate::{Failed, Sink, Source};
use std::io::{ErrorKind, Read, Write};

/// Gives what a reader gives, as the standard input. A read that a signal interrupts is tried again.
#[derive(Drop)]
pub struct StdSource<R> {
    reader: R,
    faults: u64,
}

impl<R: Read> StdSource<R> {
    ghost use Rattle.hy_io.specs.Streams.{reader_faults};

    /// A source over the reader, with no fault so far.
    pub fn new(reader: R) -> StdSource<R>
        ensures { reader_faults result ≡ 0 }
    {
        StdSource { reader, faults: 0 }
    }
}

impl<R: Read> Source for StdSource<R> {
    ghost use Rattle.hy_io.specs.Streams.{reader_faults};

    ghost left = { λ _. None };

    ghost faults = { λ source. reader_faults source };

    fn read(&mut self, into: &mut [u8]) -> Result<usize, Failed> {
        for _ in 0..u64::MAX {
            match self.reader.read(into) {
                Ok(count) => return Ok(count),
                Err(error) if error.kind() == ErrorKind::Interrupted => {}
                Err(_) => break,
            }
        }
        self.faults = self.faults.saturating_add(1);
        Err(Failed)
    }
}

/// Hands each piece to a writer, as the standard output, and flushes it, so that nothing of it stays in a buffer. A
/// write that a signal interrupts is tried again. A writer that takes nothing of a piece that isn't empty, or that
/// can't be flushed, is a fault. The standard output keeps nothing back. Of a writer that does, a failed flush leaves
/// open how much of the piece went out.
#[derive(Drop)]
pub struct StdSink<W> {
    writer: W,
    faults: u64,
}

impl<W: Write> StdSink<W> {
    ghost use Rattle.hy_io.specs.Streams.{writer_faults};

    /// A sink over the writer, with no fault so far.
    pub fn new(writer: W) -> StdSink<W>
        ensures { writer_faults result ≡ 0 }
    {
        StdSink { writer, faults: 0 }
    }
}

impl<W: Write> Sink for StdSink<W> {
    ghost use Rattle.hy_io.specs.Streams.{writer_faults};

    ghost taken = { λ _. None };

    ghost faults = { λ sink. writer_faults sink };

    fn write(&mut self, piece: &[u8]) -> Result<usize, Failed> {
        for _ in 0..u64::MAX {
            match self.writer.write(piece) {
                Ok(count) if count > 0 || piece.is_empty() => {
                    if self.writer.flush().is_ok() {
                        return Ok(count);
                    }
                    break;
                }
                Err(error) if error.kind() == ErrorKind::Interrupted => {}
                _ => break,
            }
        }
        self.faults = self.faults.saturating_add(1);
        Err(Failed)
    }
}
