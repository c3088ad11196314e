// Bytes of commands, and what they print on the sink.
ghost use Rattle.std.specs.Prelude.{◌≡◌, ◌≤◌, ◌<◌, ℕ, length, take, IfErr, OnOk, OnErr, IsErrOf};
ghost use Rattle.std.specs.Io.KnownBytes.{Appends};
ghost use Rattle.wave_outside.specs.Counts.{HasCause, Rose};
ghost use Rattle.wave_terminal.specs.Runs.{course_of, IsMovedOn, IsFed, IsFedInPart};

use crate::CommandMachine;
use crate::begun::Begun;
use crate::stop::Stop;
use crate::take::{take_byte, take_last};
use line_loop::write_all;
use std::alloc::Global;
use wave_outside::{Failed, Sink};

// How many bytes of answers are gathered before they are written.
const GATHERED: usize = 1 << 16;

// Writes what waits, where that is much.
fn write_many<W: Sink>(sink: &mut W, out: &mut Vec<u8>) -> Result<(), Failed>
    ensures ok { OnOk result (IsMovedOn (W.written sink.old) (W.written sink.new) out.old.items out.new.items) }
    ensures err { OnErr result
        ((k : ℕ) × (k < length out.old.items) × Appends (W.written sink.old) (W.written sink.new) (take k out.old.items)) }
    ensures cause { HasCause (W.faults sink.old) (W.faults sink.new) result }
{
    if out.len() < GATHERED {
        return Ok(());
    }
    write_all(sink, out.as_slice())?;
    out.clear();
    Ok(())
}

// Takes bytes, and writes what the lines print that end in them.
fn feed_bytes<M: CommandMachine, W: Sink>(
    alloc: Global,
    machine: &mut M,
    begun: &mut Begun,
    sink: &mut W,
    bytes: &[u8],
) -> Result<(), Stop>
    requires { 0 < length bytes.now }
    ensures ok { OnOk result (IsFed M.machine (course_of (M.state machine.old) begun.old) (course_of (M.state machine.new) begun.new)
        (W.written sink.old) (W.written sink.new) bytes.now) }
    ensures err { IfErr result
        (IsFedInPart M.machine (course_of (M.state machine.old) begun.old) (W.written sink.old) (W.written sink.new) bytes.now) }
    ensures later { W.faults sink.old ≤ W.faults sink.new }
    ensures failed { IsErrOf result Stop.Sink → Rose (W.faults sink.old) (W.faults sink.new) }
{
    let mut out = Vec::new(alloc);
    for byte in bytes {
        take_byte(alloc, machine, begun, *byte, &mut out)?;
        write_many(sink, &mut out)?;
    }
    write_all(sink, out.as_slice())?;
    Ok(())
}

// Takes the end of the input, and writes what the open line prints.
fn feed_end<M: CommandMachine, W: Sink>(
    alloc: Global,
    machine: &mut M,
    begun: &mut Begun,
    sink: &mut W,
    bytes: &[u8],
) -> Result<(), Stop>
    requires { length bytes.now ≡ 0 }
    ensures ok { OnOk result (IsFed M.machine (course_of (M.state machine.old) begun.old) (course_of (M.state machine.new) begun.new)
        (W.written sink.old) (W.written sink.new) bytes.now) }
    ensures err { IfErr result
        (IsFedInPart M.machine (course_of (M.state machine.old) begun.old) (W.written sink.old) (W.written sink.new) bytes.now) }
    ensures later { W.faults sink.old ≤ W.faults sink.new }
    ensures failed { IsErrOf result Stop.Sink → Rose (W.faults sink.old) (W.faults sink.new) }
{
    let mut out = Vec::new(alloc);
    take_last(alloc, machine, begun, &mut out)?;
    write_all(sink, out.as_slice())?;
    Ok(())
}

/// Takes bytes that were read, and writes what the lines print that end in them; where there are none the input has ended, and the
/// open line is the last. Once many bytes wait they are written.
pub(crate) fn feed<M: CommandMachine, W: Sink>(
    alloc: Global,
    machine: &mut M,
    begun: &mut Begun,
    sink: &mut W,
    bytes: &[u8],
) -> Result<(), Stop>
    ensures ok { OnOk result (IsFed M.machine (course_of (M.state machine.old) begun.old) (course_of (M.state machine.new) begun.new)
        (W.written sink.old) (W.written sink.new) bytes.now) }
    ensures err { IfErr result
        (IsFedInPart M.machine (course_of (M.state machine.old) begun.old) (W.written sink.old) (W.written sink.new) bytes.now) }
    ensures later { W.faults sink.old ≤ W.faults sink.new }
    ensures failed { IsErrOf result Stop.Sink → Rose (W.faults sink.old) (W.faults sink.new) }
{
    if bytes.is_empty() {
        return feed_end(alloc, machine, begun, sink, bytes);
    }
    feed_bytes(alloc, machine, begun, sink, bytes)
}
