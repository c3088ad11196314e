// Lines given to the machine.
ghost use Rattle.std.specs.Prelude.{◌≡◌, ◌≤◌, ◌<◌, ◌++◌, ◌∷◌, [], false, length, take, IfOk, OnOk, OnErr, IsErrOf};
ghost use Rattle.wave_outside.specs.Counts.{Rose};
ghost use Rattle.line_loop.specs.Lines.{has_line_feed, Begins};
ghost use Rattle.line_loop.specs.Steps.{IsTaken, IsTakenInPart, IsTakenLine, IsTriedLine};

use crate::cut::{MAX_LINE, OpenLine, line_feed};
use crate::{LineMachine, TurnFault};
use std::alloc::Global;
use wave_outside::Clock;

// How many bytes of answers are gathered before they are written.
const GATHERED: usize = 1 << 16;

/// Gives the machine a line, unless it has no bytes, and appends the answer. Of a line that is too long, the machine sees as many
/// bytes as show it.
pub fn give<M: LineMachine, C: Clock>(
    alloc: Global,
    machine: &mut M,
    clock: &mut C,
    line: &[u8],
    out: &mut Vec<u8>,
) -> Result<(), TurnFault>
    ensures ok { OnOk result
        (IsTakenLine M.LineMachine C.Clock machine.old machine.new clock.old clock.new out.old.items out.new.items line.now) }
    ensures err { OnErr result (IsTriedLine M.LineMachine machine.old machine.new line.now) }
    ensures later { M.faults machine.old ≤ M.faults machine.new }
    ensures failed { IsErrOf result TurnFault.Store → Rose (M.faults machine.old) (M.faults machine.new) }
{
    if line.is_empty() {
        return Ok(());
    }
    let time = clock.now();
    let count = line.len().min(MAX_LINE + 1);
    machine.turn(alloc, &line[..count], time, out)
}

// Gives the machine the line that ends here with these bytes, and begins another.
fn end_line<M: LineMachine, C: Clock>(
    alloc: Global,
    begun: &mut OpenLine,
    machine: &mut M,
    clock: &mut C,
    last: &[u8],
    out: &mut Vec<u8>,
) -> Result<(), TurnFault>
    requires { has_line_feed last.now ≡ false }
    ensures ok { OnOk result (IsTaken M.LineMachine C.Clock machine.old machine.new clock.old clock.new out.old.items out.new.items
        begun.old.bytes.items (last.now ++ 10 ∷ []) begun.new.bytes.items) }
    ensures err { OnErr result
        (IsTakenInPart M.LineMachine C.Clock machine.old machine.new clock.old out.old.items
        (Begins (begun.old.bytes.items ++ (last.now ++ 10 ∷ [])))) }
    ensures later { M.faults machine.old ≤ M.faults machine.new }
    ensures failed { IsErrOf result TurnFault.Store → Rose (M.faults machine.old) (M.faults machine.new) }
{
    begun.keep(last)?;
    give(alloc, machine, clock, begun.bytes.as_slice(), out)?;
    begun.clear();
    Ok(())
}

// Whether answers wait to be written before the next line: those of a machine that may fail, and many bytes of any other.
fn is_full<M: LineMachine>(machine: &M, out: &Vec<u8>) -> bool {
    machine.may_fail() || out.len() >= GATHERED
}

/// Gives the machine lines that end in these bytes, and appends its answers, until these are to be written. Gives how many of the
/// bytes were used: all, where no further line ends in them.
pub fn take<M: LineMachine, C: Clock>(
    alloc: Global,
    begun: &mut OpenLine,
    machine: &mut M,
    clock: &mut C,
    bytes: &[u8],
    out: &mut Vec<u8>,
) -> Result<usize, TurnFault>
    ensures ok { IfOk result (λ used. IsTaken M.LineMachine C.Clock machine.old machine.new clock.old clock.new out.old.items out.new.items
        begun.old.bytes.items (take used bytes.now) begun.new.bytes.items) }
    ensures within { IfOk result (λ used. used ≤ length bytes.now) }
    ensures some { IfOk result (λ used. 0 < length bytes.now → 0 < used) }
    ensures err { OnErr result
        (IsTakenInPart M.LineMachine C.Clock machine.old machine.new clock.old out.old.items
        (Begins (begun.old.bytes.items ++ bytes.now))) }
    ensures later { M.faults machine.old ≤ M.faults machine.new }
    ensures failed { IsErrOf result TurnFault.Store → Rose (M.faults machine.old) (M.faults machine.new) }
{
    let mut from = 0;
    while let Some(len) = line_feed(&bytes[from..]) {
        end_line(alloc, begun, machine, clock, &bytes[from..from + len], out)?;
        from += len + 1;
        if is_full(machine, out) {
            return Ok(from);
        }
    }
    begun.keep(&bytes[from..])?;
    Ok(bytes.len())
}
