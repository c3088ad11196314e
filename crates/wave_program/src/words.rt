// What is printed where the words name no command.
ghost use Rattle.std.specs.Prelude.{◌≡◌, codes};
ghost use Rattle.line_loop.specs.Output.{IsWritten};
ghost use Rattle.wave_program.specs.Words.{usage};

use line_loop::write_all;
use wave_outside::Sink;

const USAGE: &str =
    "usage: wave pipe [--store DIR]\n       wave serve --domain D --listen A [--peer D=A[,D=A]...] [--sessions N] [--store DIR] [--echo]\n       wave edit --user U --client K --connect A\n       wave load N\n       wave play --store DIR --wavelet W\n       wave inbox --store DIR --user U\n";

/// Writes the usage text, as far as the sink takes it.
pub fn write_usage<W: Sink>(sink: &mut W)
    ensures { IsWritten (W.written sink.old) (W.written sink.new) (W.faults sink.old) (W.faults sink.new) usage }
{
    match write_all(sink, USAGE.as_bytes()) {
        Ok(()) => {}
        Err(_) => {}
    }
}
