// Bytes of commands, one after the other.
ghost use Rattle.std.specs.Prelude.{◌≡◌, ◌++◌, [], OnOk};
ghost use Rattle.wave_terminal.specs.Machines.{step, said, line_told, last_text};
ghost use Rattle.wave_terminal.specs.Runs.{course_of};

use crate::CommandMachine;
use crate::begun::Begun;
use doc_items::Memory;
use std::alloc::Global;

// The line that has begun ends here.
fn end_line<M: CommandMachine>(
    alloc: Global,
    machine: &mut M,
    begun: &mut Begun,
    out: &mut Vec<u8>,
) -> Result<(), Memory>
    ensures text { OnOk result (out.new.items ≡ out.old.items ++ (line_told M.machine (course_of (M.state machine.old) begun.old)).text) }
    ensures state { OnOk result (M.state machine.new ≡ (line_told M.machine (course_of (M.state machine.old) begun.old)).state) }
    ensures quit { OnOk result (begun.new.quit ≡ (line_told M.machine (course_of (M.state machine.old) begun.old)).quit) }
    ensures line { OnOk result (begun.new.line.items ≡ []) }
{
    begun.quit = machine.obey(alloc, begun.line.as_slice(), out)?;
    begun.line.clear();
    Ok(())
}

/// Takes a byte, where the run hasn't ended, and appends what the line prints that ends with it.
pub(crate) fn take_byte<M: CommandMachine>(
    alloc: Global,
    machine: &mut M,
    begun: &mut Begun,
    byte: u8,
    out: &mut Vec<u8>,
) -> Result<(), Memory>
    ensures text { OnOk result (out.new.items ≡ out.old.items ++ said M.machine (course_of (M.state machine.old) begun.old) byte) }
    ensures goes { OnOk result
        (course_of (M.state machine.new) begun.new ≡ step M.machine (course_of (M.state machine.old) begun.old) byte) }
{
    if begun.quit {
        return Ok(());
    }
    if byte == b'\n' {
        return end_line(alloc, machine, begun, out);
    }
    begun.keep(machine, byte)
}

/// Appends what the line prints that has begun, at the end of the input.
pub(crate) fn take_last<M: CommandMachine>(
    alloc: Global,
    machine: &mut M,
    begun: &mut Begun,
    out: &mut Vec<u8>,
) -> Result<(), Memory>
    ensures text { OnOk result (out.new.items ≡ out.old.items ++ last_text M.machine (course_of (M.state machine.old) begun.old)) }
{
    if begun.quit || begun.line.is_empty() {
        return Ok(());
    }
    end_line(alloc, machine, begun, out)
}
