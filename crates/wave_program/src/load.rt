// A load, and its line.
ghost use Rattle.std.specs.Prelude.{◌≡◌, ◌≤◌, string_bytes, IfOk, OnOk, IsErrOf};
ghost use Rattle.std.specs.Io.KnownBytes.{Appends};
ghost use Rattle.wave_outside.specs.Counts.{Rose};
ghost use Rattle.wave_program.specs.Load.{load_line, IsFront};

use doc_items::Memory;
use line_loop::write_all;
use load_script::{run_load, summary_line};
use std::alloc::Global;
use wave_outside::Sink;

// Why a load didn't tell its line, or not all of it.
#[derive(Clone, Copy)]
pub enum LoadStop {
    Sink,
    Memory,
}

// The line that tells of the load of a number.
#[tactic(auto, unfolding(crate::specs::Load::load_line))]
fn told(alloc: Global, count: u64) -> Result<String, Memory>
    requires { count ≤ 100000 }
    ensures { IfOk result (λ t. string_bytes t ≡ load_line count) }
{
    let summary = run_load(alloc, count)?;
    summary_line(alloc, count, &summary)
}

// Runs the load of a number, and writes its line.
pub fn load<W: Sink>(alloc: Global, count: u64, sink: &mut W) -> Result<(), LoadStop>
    requires { count ≤ 100000 }
    ensures done { OnOk result (Appends (W.written sink.old) (W.written sink.new) (load_line count)) }
    ensures cut { IsErrOf result LoadStop.Sink → IsFront (load_line count) (W.written sink.old) (W.written sink.new) }
    ensures cause { IsErrOf result LoadStop.Sink → Rose (W.faults sink.old) (W.faults sink.new) }
    ensures memory { IsErrOf result LoadStop.Memory → sink.new ≡ sink.old }
{
    let Ok(line) = told(alloc, count) else {
        return Err(LoadStop::Memory);
    };
    match write_all(sink, line.as_bytes()) {
        Ok(()) => Ok(()),
        Err(_) => Err(LoadStop::Sink),
    }
}
