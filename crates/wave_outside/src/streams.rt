// The adapters over std's readers and writers. They tell of their bytes what the reader or writer tells: standard input
// and output tell nothing.
ghost use Rattle.std.specs.Prelude.{◌≡◌};
ghost use Rattle.wave_outside.specs.Streams.{reader_of, writer_of, source_faults, sink_faults};

use crate::faults::Faults;
use crate::{Failed, Sink, Source};
use std::io::{Read, Write};

/// A source over a reader, which counts the reader's errors.
#[derive(Drop)]
pub struct ReaderSource<R: Read + Drop> {
    reader: R,
    faults: Faults,
}

impl<R: Read + Drop> ReaderSource<R> {
    pub fn new(reader: R) -> Self
        ensures reader { reader_of result ≡ reader }
        ensures faults { source_faults result ≡ 0 }
    {
        ReaderSource {
            reader,
            faults: Faults::none(),
        }
    }
}

impl<R: Read + Drop> Source for ReaderSource<R> {
    ghost left = { λ s. R.remaining s.reader };

    ghost faults = { λ s. s.faults.count };

    fn read(&mut self, into: &mut [u8]) -> Result<usize, Failed> {
        match self.reader.read(into) {
            Ok(count) => Ok(count),
            Err(_) => Err(self.faults.raise()),
        }
    }
}

/// A sink over a writer, which counts the writer's errors, and as one of them that it takes nothing of some bytes.
#[derive(Drop)]
pub struct WriterSink<W: Write + Drop> {
    writer: W,
    faults: Faults,
}

impl<W: Write + Drop> WriterSink<W> {
    pub fn new(writer: W) -> Self
        ensures writer { writer_of result ≡ writer }
        ensures faults { sink_faults result ≡ 0 }
    {
        WriterSink {
            writer,
            faults: Faults::none(),
        }
    }
}

impl<W: Write + Drop> Sink for WriterSink<W> {
    ghost written = { λ s. W.contents s.writer };

    ghost faults = { λ s. s.faults.count };

    fn write(&mut self, bytes: &[u8]) -> Result<usize, Failed> {
        match self.writer.write(bytes) {
            Ok(count) if count > 0 || bytes.is_empty() => Ok(count),
            _ => Err(self.faults.raise()),
        }
    }
}
