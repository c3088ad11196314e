// Commands from a source.
ghost use Rattle.std.specs.Prelude.{◌≡◌, ◌≤◌, ◌<◌, length, IfOk, IfErr, IsErrOf};
ghost use Rattle.wave_outside.specs.Counts.{Rose};
ghost use Rattle.wave_terminal.specs.Runs.{status_of, course_of, IsCommandStatus, IsObeyed, IsPumped, IsCut};

use crate::CommandMachine;
use crate::begun::Begun;
use crate::feed::feed;
use crate::stop::Stop;
use std::alloc::Global;
use wave_outside::{Sink, Source};

// The most bytes that one run reads.
const BYTE_LIMIT: u64 = 1 << 62;

// The most bytes that are read at once.
const CHUNK: usize = 1 << 16;

// Reads some bytes, at most as many as the buffer takes, and writes what they print; at the end of the input, what the line prints
// that is open.
fn pump<M: CommandMachine, S: Source, W: Sink>(
    alloc: Global,
    machine: &mut M,
    begun: &mut Begun,
    source: &mut S,
    sink: &mut W,
    buffer: &mut [u8],
) -> Result<usize, Stop>
    requires { 0 < length buffer.old }
    ensures ok { IfOk result (IsPumped M.machine (course_of (M.state machine.old) begun.old) (course_of (M.state machine.new) begun.new)
        (S.left source.old) (S.left source.new) (W.written sink.old) (W.written sink.new)) }
    ensures err { IfErr result
        (IsCut M.machine (course_of (M.state machine.old) begun.old) (length buffer.old) (S.left source.old) (S.left source.new)
        (W.written sink.old) (W.written sink.new)) }
    ensures small { IfOk result (λ count. count ≤ length buffer.old) }
    ensures source_later { S.faults source.old ≤ S.faults source.new }
    ensures sink_later { W.faults sink.old ≤ W.faults sink.new }
    ensures source_failed { IsErrOf result Stop.Source → Rose (S.faults source.old) (S.faults source.new) }
    ensures sink_failed { IsErrOf result Stop.Sink → Rose (W.faults sink.old) (W.faults sink.new) }
{
    let Ok(count) = source.read(buffer) else {
        return Err(Stop::Source);
    };
    match feed(alloc, machine, begun, sink, &buffer[..count]) {
        Ok(()) => Ok(count),
        Err(stop) => Err(stop),
    }
}

// Takes commands until the input ends, a line ends the run, or one of the reasons to stop comes.
fn run<M: CommandMachine, S: Source, W: Sink>(
    alloc: Global,
    machine: &mut M,
    source: &mut S,
    sink: &mut W,
) -> Result<(), Stop>
    ensures obeyed { IsObeyed M.machine (M.state machine.old) (S.left source.old) (S.left source.new) (W.written sink.old)
        (W.written sink.new) (status_of result) }
    ensures source_later { S.faults source.old ≤ S.faults source.new }
    ensures sink_later { W.faults sink.old ≤ W.faults sink.new }
    ensures source_failed { IsErrOf result Stop.Source → Rose (S.faults source.old) (S.faults source.new) }
    ensures sink_failed { IsErrOf result Stop.Sink → Rose (W.faults sink.old) (W.faults sink.new) }
{
    let mut begun = Begun::new(alloc);
    let mut taken: u64 = 0;
    let mut buffer = [0u8; CHUNK];
    while taken < BYTE_LIMIT {
        let room = (BYTE_LIMIT - taken).min(CHUNK as u64) as usize;
        let count = pump(
            alloc,
            machine,
            &mut begun,
            source,
            sink,
            &mut buffer[..room],
        )?;
        if count == 0 || begun.quit {
            return Ok(());
        }
        taken += count as u64;
    }
    Err(Stop::Limit)
}

/// Gives the machine the lines of the source, and writes on the sink what they print, until the input ends or a line ends the run. The
/// last line may lack its line feed. The status is 0 then; 3 where the source failed, 4 where the sink did, 8 out of memory, and 10
/// where 2^62 bytes were read.
pub fn run_commands<M: CommandMachine, S: Source, W: Sink>(
    alloc: Global,
    machine: &mut M,
    source: &mut S,
    sink: &mut W,
) -> u8
    ensures obeyed { IsObeyed M.machine (M.state machine.old) (S.left source.old) (S.left source.new) (W.written sink.old)
        (W.written sink.new) result }
    ensures source_failed { result ≡ 3 → Rose (S.faults source.old) (S.faults source.new) }
    ensures sink_failed { result ≡ 4 → Rose (W.faults sink.old) (W.faults sink.new) }
    ensures known { IsCommandStatus result }
{
    match run(alloc, machine, source, sink) {
        Ok(()) => 0,
        Err(Stop::Source) => 3,
        Err(Stop::Sink) => 4,
        Err(Stop::Memory) => 8,
        Err(Stop::Limit) => 10,
    }
}
