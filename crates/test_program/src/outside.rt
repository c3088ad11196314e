use std::io;
use std::io::Write;
use std::test::Fail;
use wave_outside::{Failed, MemorySink, MemorySource, ReaderSource, Sink, Source, WriterSink};

// A writer that is full.
#[derive(Drop)]
struct Full;

impl Write for Full {
    fn write(&mut self, _bytes: &[u8]) -> io::Result<usize> {
        Ok(0)
    }

    fn flush(&mut self) -> io::Result<()> {
        Ok(())
    }
}

#[test]
fn a_memory_source_fails_at_the_calls_named(rt: HostRuntime) -> Result<(), Fail> {
    let alloc = rt.alloc();
    let bytes = Vec::from_slice(alloc, b"abcdef")?;
    let mut source = MemorySource::new(bytes, Vec::from_slice(alloc, &[1])?);
    let mut into = [0u8; 4];
    let calls = [
        (Ok(4), b"abcd"),
        (Err(Failed), b"abcd"),
        (Ok(2), b"efcd"),
        (Ok(0), b"efcd"),
    ];
    for (answer, held) in calls {
        assert_eq!(rt; source.read(&mut into), answer);
        assert_eq!(rt; into.as_slice(), held.as_slice());
    }
    Ok(())
}

#[test]
fn a_memory_sink_fails_at_the_calls_named(rt: HostRuntime) -> Result<(), Fail> {
    let alloc = rt.alloc();
    let mut sink = MemorySink::new(alloc, Vec::from_slice(alloc, &[0, 2])?);
    for answer in [Err(Failed), Ok(2), Err(Failed), Ok(2)] {
        assert_eq!(rt; sink.write(b"ab"), answer);
    }
    assert_eq!(rt; sink.bytes(), b"abab".as_slice());
    Ok(())
}

#[test]
fn streams_are_read_and_written(rt: HostRuntime) -> Result<(), Fail> {
    let alloc = rt.alloc();
    let mut source = ReaderSource::new(b"abc".as_slice());
    let mut into = [0u8; 2];
    for answer in [Ok(2), Ok(1), Ok(0)] {
        assert_eq!(rt; source.read(&mut into), answer);
    }
    let mut sink = WriterSink::new(Vec::new(alloc));
    assert_eq!(rt; sink.write(b"abc"), Ok(3));
    let mut full = WriterSink::new(Full);
    assert_eq!(rt; full.write(b"abc"), Err(Failed));
    assert_eq!(rt; full.write(b""), Ok(0));
    Ok(())
}
