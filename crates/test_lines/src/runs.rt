// Runs of the loop over objects in memory, by a clock that reads 0, 1, 2 and so on. An echo is a line after its time.
use crate::echo::Echo;
use line_loop::{Stop, run_lines};
use std::alloc::{AllocError, Global};
use std::test::Fail;
use wave_outside::{MemorySink, MemorySource, TickClock};

// What stands at the end of a run.
#[derive(Drop)]
struct Ends {
    status: Result<(), Stop>,
    written: MemorySink,
}

// A run over these bytes of a machine that takes so many lines, where these calls of the source and of the sink fail.
fn run(
    alloc: Global,
    bytes: &[u8],
    lines: u64,
    reads: &[u64],
    writes: &[u64],
) -> Result<Ends, AllocError> {
    let mut machine = Echo {
        left: lines,
        faults: 0,
    };
    let bytes = Vec::from_slice(alloc, bytes)?;
    let mut source = MemorySource::new(bytes, Vec::from_slice(alloc, reads)?);
    let mut written = MemorySink::new(alloc, Vec::from_slice(alloc, writes)?);
    let mut clock = TickClock { next: 0, step: 1 };
    let status = run_lines(alloc, &mut machine, &mut source, &mut written, &mut clock);
    Ok(Ends { status, written })
}

#[test]
fn lines_are_echoed(rt: HostRuntime) -> Result<(), Fail> {
    let alloc = rt.alloc();
    let rows: [(&[u8], &[u8]); 6] = [
        (b"", b""),
        (b"\n\n", b""),
        (b"a", b"0a\n"),
        (b"a\n", b"0a\n"),
        (b"a\n\nb\r\nc", b"0a\n1b\r\n2c\n"),
        (b"\nab\n\n\ncd\n", b"0ab\n1cd\n"),
    ];
    for (bytes, expected) in rows {
        let ends = run(alloc, bytes, 9, &[], &[])?;
        assert_eq!(rt; ends.status, Ok(()));
        assert_eq!(rt; ends.written.bytes(), expected);
    }
    Ok(())
}

#[test]
fn each_end_has_its_status(rt: HostRuntime) -> Result<(), Fail> {
    let alloc = rt.alloc();
    let rows: [(u64, &[u64], &[u64], Result<(), Stop>, &[u8]); 5] = [
        (9, &[0], &[], Err(Stop::Source), b""),
        (9, &[1], &[], Err(Stop::Source), b"0a\n"),
        (9, &[], &[0], Err(Stop::Sink), b""),
        (9, &[], &[1], Err(Stop::Sink), b"0a\n"),
        (1, &[], &[], Err(Stop::Store), b"0a\n"),
    ];
    for (lines, reads, writes, status, expected) in rows {
        let ends = run(alloc, b"a\nb", lines, reads, writes)?;
        assert_eq!(rt; ends.status, status);
        assert_eq!(rt; ends.written.bytes(), expected);
    }
    Ok(())
}

// Three lines in one read: each answer is written before the next line is taken.
#[test]
fn answers_are_written_before_a_turn_that_fails(rt: HostRuntime) -> Result<(), Fail> {
    let alloc = rt.alloc();
    let rows: [(u64, &[u64], Result<(), Stop>, &[u8]); 4] = [
        (2, &[], Err(Stop::Store), b"0a\n1b\n"),
        (1, &[], Err(Stop::Store), b"0a\n"),
        (9, &[1], Err(Stop::Sink), b"0a\n"),
        (9, &[2], Err(Stop::Sink), b"0a\n1b\n"),
    ];
    for (lines, writes, status, expected) in rows {
        let ends = run(alloc, b"a\nb\nc\n", lines, &[], writes)?;
        assert_eq!(rt; ends.status, status);
        assert_eq!(rt; ends.written.bytes(), expected);
    }
    Ok(())
}

// Lines around the most that is given whole, in many chunks.
#[test]
fn a_long_line_is_cut(rt: HostRuntime) -> Result<(), Fail> {
    let alloc = rt.alloc();
    for (len, kept) in [
        (65535, 65535),
        (1048576, 1048576),
        (1048577, 1048577),
        (1200000, 1048577),
    ] {
        let mut bytes = Vec::new(alloc);
        for _ in 0..len {
            bytes.push(b'x')?;
        }
        bytes.push(b'\n')?;
        bytes.push(b'y')?;
        let ends = run(alloc, bytes.as_slice(), 9, &[], &[])?;
        assert_eq!(rt; ends.status, Ok(()));
        assert_eq!(rt; ends.written.bytes().len(), kept + 5);
        assert_eq!(rt; &ends.written.bytes()[kept + 2..], b"1y\n".as_slice());
    }
    Ok(())
}
