// The loop over the input, a chunk at a time.
ghost use Rattle.std.specs.Prelude.{◌≡◌, ◌≤◌, ◌<◌, length, IfOk, IfErr, IsErrOf};
ghost use Rattle.wave_outside.specs.Counts.{Rose};
ghost use Rattle.line_loop.specs.Run.{status_of, IsServed, IsPumped, IsCut};

use crate::LineMachine;
use crate::cut::OpenLine;
use crate::feed::{FeedFault, feed};
use std::alloc::Global;
use wave_outside::{Clock, Sink, Source};

// The most bytes that one run reads.
const BYTE_LIMIT: u64 = 1 << 62;

// The most bytes that are read at once.
const CHUNK: usize = 1 << 16;

/// Why a run stopped before the end of its input.
#[derive(Clone, Copy, Debug, PartialEq, Eq)]
pub enum Stop {
    /// The source failed.
    Source,
    /// The sink failed.
    Sink,
    /// What the machine stores things in failed.
    Store,
    /// Want of memory.
    Memory,
    /// So many bytes were read as one run reads at most.
    Limit,
}

/// Gives the machine the lines of the source until it ends, and writes its answers. A line that has no bytes is passed over, and takes
/// no reading of the clock; the last line may lack its line feed. What is read at once is answered before more is read; the answers
/// are written before a turn that may fail for another cause than want of memory, and once many bytes of them wait.
pub fn run_lines<M: LineMachine, S: Source, W: Sink, C: Clock>(
    alloc: Global,
    machine: &mut M,
    source: &mut S,
    sink: &mut W,
    clock: &mut C,
) -> Result<(), Stop>
    ensures served { IsServed M.LineMachine C.Clock machine.old machine.new clock.old (S.left source.old) (S.left source.new)
        (W.written sink.old) (W.written sink.new) (status_of result) }
    ensures source_later { S.faults source.old ≤ S.faults source.new }
    ensures sink_later { W.faults sink.old ≤ W.faults sink.new }
    ensures machine_later { M.faults machine.old ≤ M.faults machine.new }
    ensures source_failed { IsErrOf result Stop.Source → Rose (S.faults source.old) (S.faults source.new) }
    ensures sink_failed { IsErrOf result Stop.Sink → Rose (W.faults sink.old) (W.faults sink.new) }
    ensures store_failed { IsErrOf result Stop.Store → Rose (M.faults machine.old) (M.faults machine.new) }
{
    let mut begun = OpenLine::new(alloc);
    let mut taken: u64 = 0;
    let mut buffer = [0u8; CHUNK];
    while taken < BYTE_LIMIT {
        let room = (BYTE_LIMIT - taken).min(CHUNK as u64) as usize;
        let count = pump(
            alloc,
            &mut begun,
            machine,
            source,
            sink,
            clock,
            &mut buffer[..room],
        )?;
        if count == 0 {
            return Ok(());
        }
        taken += count as u64;
    }
    Err(Stop::Limit)
}

// Reads some bytes, at most as many as the buffer takes, and has the lines answered that end in them; at the end of the input, the
// line that is open.
fn pump<M: LineMachine, S: Source, W: Sink, C: Clock>(
    alloc: Global,
    begun: &mut OpenLine,
    machine: &mut M,
    source: &mut S,
    sink: &mut W,
    clock: &mut C,
    buffer: &mut [u8],
) -> Result<usize, Stop>
    requires { 0 < length buffer.old }
    ensures ok { IfOk result (λ count. IsPumped M.LineMachine C.Clock machine.old machine.new clock.old clock.new
        (S.left source.old) (S.left source.new) (W.written sink.old)
        (W.written sink.new) begun.old.bytes.items begun.new.bytes.items count) }
    ensures err { IfErr result (λ e. IsCut M.LineMachine C.Clock (length buffer.old) machine.old machine.new clock.old
        (S.left source.old) (S.left source.new) (W.written sink.old) (W.written sink.new) begun.old.bytes.items e) }
    ensures small { IfOk result (λ count. count ≤ length buffer.old) }
    ensures source_later { S.faults source.old ≤ S.faults source.new }
    ensures sink_later { W.faults sink.old ≤ W.faults sink.new }
    ensures machine_later { M.faults machine.old ≤ M.faults machine.new }
    ensures source_failed { IsErrOf result Stop.Source → Rose (S.faults source.old) (S.faults source.new) }
    ensures sink_failed { IsErrOf result Stop.Sink → Rose (W.faults sink.old) (W.faults sink.new) }
    ensures store_failed { IsErrOf result Stop.Store → Rose (M.faults machine.old) (M.faults machine.new) }
    ensures limit { IsErrOf result Stop.Limit → ⊥ }
{
    let Ok(count) = source.read(buffer) else {
        return Err(Stop::Source);
    };
    match feed(alloc, begun, machine, sink, clock, &buffer[..count]) {
        Ok(()) => Ok(count),
        Err(FeedFault::Sink) => Err(Stop::Sink),
        Err(FeedFault::Store) => Err(Stop::Store),
        Err(FeedFault::Memory) => Err(Stop::Memory),
    }
}
