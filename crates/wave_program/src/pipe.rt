// The lines of a source, answered over a shelf.
ghost use Rattle.std.specs.Prelude.{◌≡◌, ◌⊎◌, [], None};
ghost use Rattle.wave_outside.specs.Counts.{Rose};
ghost use Rattle.line_loop.specs.Run.{status_of};
ghost use Rattle.line_loop.specs.Told.{IsRun};
ghost use Rattle.wavelet_shelf.specs.Shelves.{in_folder, entries_of, hosted_of};
ghost use Rattle.pipe_machine.specs.Pipes.{store_faults};
ghost use Rattle.wave_program.specs.Pipe.{answers_over, IsOver};
ghost use Rattle.wave_program.specs.Run.{IsServing};

use line_loop::{Stop, run_lines};
use pipe_machine::PipeMachine;
use std::alloc::Global;
use wave_outside::{Clock, Folder, Sink, Source};
use wavelet_shelf::Shelf;

// The exit status of a run over lines.
fn status(ending: Result<(), Stop>) -> u8
    ensures { result ≡ status_of ending }
{
    match ending {
        Ok(()) => 0,
        Err(Stop::Source) => 3,
        Err(Stop::Sink) => 4,
        Err(Stop::Store) => 5,
        Err(Stop::Memory) => 8,
        Err(Stop::Limit) => 10,
    }
}

/// Answers the lines of the source on the sink, and gives the shelf as it then is, with the exit status.
pub fn serve_over<S: Source, W: Sink, F: Folder + Drop, C: Clock>(
    alloc: Global,
    shelf: Shelf<F>,
    source: &mut S,
    sink: &mut W,
    clock: &mut C,
) -> (Shelf<F>, u8)
    ensures over { IsOver C.Clock shelf result.0 clock.old (S.left source.old) (S.left source.new) (W.written sink.old)
        (W.written sink.new) result.1 }
    ensures source_failed { result.1 ≡ 3 → Rose (S.faults source.old) (S.faults source.new) }
    ensures sink_failed { result.1 ≡ 4 → Rose (W.faults sink.old) (W.faults sink.new) }
    ensures store_failed { result.1 ≡ 5 → Rose (store_faults shelf) (store_faults result.0) }
    ensures known { IsServing result.1 }
{
    let mut machine = PipeMachine::new(alloc, shelf);
    let ending = run_lines(alloc, &mut machine, source, sink, clock);
    (machine.into_shelf(), status(ending))
}

/// Answers the lines of the source on the sink, over histories that stand nowhere, and gives the exit status.
pub fn serve<S: Source, W: Sink, F: Folder + Drop, C: Clock>(
    alloc: Global,
    shelf: Shelf<F>,
    source: &mut S,
    sink: &mut W,
    clock: &mut C,
) -> u8
    requires plain { in_folder shelf ≡ None }
    requires empty { entries_of shelf ≡ [] }
    ensures served { IsRun C.Clock (answers_over []) clock.old (S.left source.old) (S.left source.new) (W.written sink.old)
        (W.written sink.new) result }
    ensures source_failed { result ≡ 3 → Rose (S.faults source.old) (S.faults source.new) }
    ensures sink_failed { result ≡ 4 → Rose (W.faults sink.old) (W.faults sink.new) }
    ensures known { (result ≡ 0) ⊎ ((result ≡ 3) ⊎ ((result ≡ 4) ⊎ ((result ≡ 8) ⊎ (result ≡ 10)))) }
{
    let (_shelf, status) = serve_over(alloc, shelf, source, sink, clock);
    status
}
