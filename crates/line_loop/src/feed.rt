// Bytes given to the machine, and its answers written.
ghost use Rattle.std.specs.Prelude.{◌≡◌, ◌≤◌, ◌<◌, ◌++◌, ◌∷◌, [], true, length, take, IfOk, IfErr, OnOk, IsErrOf};
ghost use Rattle.wave_outside.specs.Counts.{Rose};
ghost use Rattle.line_loop.specs.Lines.{given, turned, Begins, IsPrefix};
ghost use Rattle.line_loop.specs.Feeding.{IsFed, IsFedLine, IsFedChunk, IsFedInPart};

use crate::cut::OpenLine;
use crate::output::write_all;
use crate::take::{give, take};
use crate::{LineMachine, TurnFault};
use std::alloc::Global;
use wave_outside::{Clock, Sink};

/// Why bytes weren't all given to the machine, or its answers not all written.
#[derive(Clone, Copy, Debug, PartialEq, Eq)]
pub(crate) enum FeedFault {
    /// The sink failed.
    Sink,
    /// What the machine stores things in failed.
    Store,
    /// Want of memory.
    Memory,
}

// Gives the machine lines that end in these bytes, and writes its answers. Gives how many of the bytes were used.
fn feed_some<M: LineMachine, W: Sink, C: Clock>(
    alloc: Global,
    begun: &mut OpenLine,
    machine: &mut M,
    sink: &mut W,
    clock: &mut C,
    bytes: &[u8],
) -> Result<usize, FeedFault>
    ensures ok { IfOk result (λ used. IsFed M.LineMachine C.Clock machine.old machine.new clock.old clock.new
        (W.written sink.old) (W.written sink.new) begun.old.bytes.items (take used bytes.now) begun.new.bytes.items) }
    ensures within { IfOk result (λ used. used ≤ length bytes.now) }
    ensures some { IfOk result (λ used. 0 < length bytes.now → 0 < used) }
    ensures err { IfErr result (IsFedInPart M.LineMachine C.Clock machine.old machine.new clock.old
        (W.written sink.old) (W.written sink.new) (Begins (begun.old.bytes.items ++ bytes.now))) }
    ensures sink_later { W.faults sink.old ≤ W.faults sink.new }
    ensures machine_later { M.faults machine.old ≤ M.faults machine.new }
    ensures sink_failed { IsErrOf result FeedFault.Sink → Rose (W.faults sink.old) (W.faults sink.new) }
    ensures store_failed { IsErrOf result FeedFault.Store → Rose (M.faults machine.old) (M.faults machine.new) }
{
    let mut out = Vec::new(alloc);
    match take(alloc, begun, machine, clock, bytes, &mut out) {
        Ok(used) => match write_all(sink, out.as_slice()) {
            Ok(()) => Ok(used),
            Err(_) => Err(FeedFault::Sink),
        },
        Err(TurnFault::Store) => Err(FeedFault::Store),
        Err(TurnFault::Memory) => Err(FeedFault::Memory),
    }
}

// Gives the machine the lines that end in these bytes, and writes its answers as they come.
fn feed_lines<M: LineMachine, W: Sink, C: Clock>(
    alloc: Global,
    begun: &mut OpenLine,
    machine: &mut M,
    sink: &mut W,
    clock: &mut C,
    bytes: &[u8],
) -> Result<(), FeedFault>
    ensures ok { OnOk result (IsFed M.LineMachine C.Clock machine.old machine.new clock.old clock.new
        (W.written sink.old) (W.written sink.new) begun.old.bytes.items bytes.now begun.new.bytes.items) }
    ensures err { IfErr result (IsFedInPart M.LineMachine C.Clock machine.old machine.new clock.old
        (W.written sink.old) (W.written sink.new) (Begins (begun.old.bytes.items ++ bytes.now))) }
    ensures sink_later { W.faults sink.old ≤ W.faults sink.new }
    ensures machine_later { M.faults machine.old ≤ M.faults machine.new }
    ensures sink_failed { IsErrOf result FeedFault.Sink → Rose (W.faults sink.old) (W.faults sink.new) }
    ensures store_failed { IsErrOf result FeedFault.Store → Rose (M.faults machine.old) (M.faults machine.new) }
{
    let mut from = 0;
    while from < bytes.len() {
        from += feed_some(alloc, begun, machine, sink, clock, &bytes[from..])?;
    }
    Ok(())
}

// Gives the machine the open line as the last, and writes its answer.
fn feed_last<M: LineMachine, W: Sink, C: Clock>(
    alloc: Global,
    line: &[u8],
    machine: &mut M,
    sink: &mut W,
    clock: &mut C,
) -> Result<(), FeedFault>
    ensures ok { OnOk result (IsFedLine M.LineMachine C.Clock machine.old machine.new clock.old clock.new
        (W.written sink.old) (W.written sink.new) line.now) }
    ensures err { IfErr result (IsFedInPart M.LineMachine C.Clock machine.old machine.new clock.old
        (W.written sink.old) (W.written sink.new) (λ ls. IsPrefix ls (given (line.now ∷ [])))) }
    ensures sink_later { W.faults sink.old ≤ W.faults sink.new }
    ensures machine_later { M.faults machine.old ≤ M.faults machine.new }
    ensures sink_failed { IsErrOf result FeedFault.Sink → Rose (W.faults sink.old) (W.faults sink.new) }
    ensures store_failed { IsErrOf result FeedFault.Store → Rose (M.faults machine.old) (M.faults machine.new) }
{
    let mut out = Vec::new(alloc);
    match give(alloc, machine, clock, line, &mut out) {
        Ok(()) => match write_all(sink, out.as_slice()) {
            Ok(()) => Ok(()),
            Err(_) => Err(FeedFault::Sink),
        },
        Err(TurnFault::Store) => Err(FeedFault::Store),
        Err(TurnFault::Memory) => Err(FeedFault::Memory),
    }
}

/// Gives the machine the lines that end in these bytes, and writes its answers; where there are no bytes the input has ended, and the
/// open line is the last. Before a turn that may fail, and once many bytes wait, the answers so far are written.
pub(crate) fn feed<M: LineMachine, W: Sink, C: Clock>(
    alloc: Global,
    begun: &mut OpenLine,
    machine: &mut M,
    sink: &mut W,
    clock: &mut C,
    bytes: &[u8],
) -> Result<(), FeedFault>
    ensures ok { OnOk result (IsFedChunk M.LineMachine C.Clock machine.old machine.new clock.old clock.new
        (W.written sink.old) (W.written sink.new) begun.old.bytes.items bytes.now begun.new.bytes.items) }
    ensures err { IfErr result (IsFedInPart M.LineMachine C.Clock machine.old machine.new clock.old
        (W.written sink.old) (W.written sink.new) (λ ls. IsPrefix ls (turned true (begun.old.bytes.items ++ bytes.now)))) }
    ensures sink_later { W.faults sink.old ≤ W.faults sink.new }
    ensures machine_later { M.faults machine.old ≤ M.faults machine.new }
    ensures sink_failed { IsErrOf result FeedFault.Sink → Rose (W.faults sink.old) (W.faults sink.new) }
    ensures store_failed { IsErrOf result FeedFault.Store → Rose (M.faults machine.old) (M.faults machine.new) }
{
    if bytes.is_empty() {
        return feed_last(alloc, begun.bytes.as_slice(), machine, sink, clock);
    }
    feed_lines(alloc, begun, machine, sink, clock, bytes)
}
