// What is asked of the histories of a shelf.
ghost use Rattle.std.specs.Prelude.{◌≡◌};
ghost use Rattle.wave_outside.specs.Counts.{Rose};
ghost use Rattle.wave_playback.specs.Playing.{at_version};
ghost use Rattle.wave_terminal.specs.Play.{player};
ghost use Rattle.wave_terminal.specs.Runs.{IsCommandStatus, IsObeyed};
ghost use Rattle.inbox_machine.specs.Inboxes.{inbox_of};
ghost use Rattle.inbox_machine.specs.Machine.{clerk};
ghost use Rattle.wavelet_shelf.specs.Shelves.{hosted_of};
ghost use Rattle.wave_program.specs.Asks.{IsPlayed, IsListed};

use delta_history::{Copies, History};
use inbox_machine::InboxMachine;
use std::alloc::Global;
use wave_base::{Address, WaveletName};
use wave_outside::{Folder, Sink, Source};
use wave_playback::Playback;
use wave_terminal::{play_run, run_commands};
use wavelet_shelf::Shelf;

// Plays a history from its start on.
fn play_history<S: Source, W: Sink>(
    alloc: Global,
    history: &History,
    source: &mut S,
    sink: &mut W,
) -> u8
    ensures played { IsObeyed player (at_version history.now 0) (S.left source.old) (S.left source.new) (W.written sink.old)
        (W.written sink.new) result }
    ensures source_failed { result ≡ 3 → Rose (S.faults source.old) (S.faults source.new) }
    ensures sink_failed { result ≡ 4 → Rose (W.faults sink.old) (W.faults sink.new) }
    ensures known { IsCommandStatus result }
{
    let mut playback = Playback::new(alloc, history);
    play_run(alloc, source, sink, &mut playback)
}

/// Plays the history of a wavelet, which is empty where the shelf has none, and gives the exit status.
pub fn play_over<S: Source, W: Sink, F: Folder>(
    alloc: Global,
    shelf: &Shelf<F>,
    wavelet: WaveletName,
    source: &mut S,
    sink: &mut W,
) -> u8
    ensures played { IsPlayed (hosted_of shelf.now) wavelet (S.left source.old) (S.left source.new) (W.written sink.old)
        (W.written sink.new) result }
    ensures source_failed { result ≡ 3 → Rose (S.faults source.old) (S.faults source.new) }
    ensures sink_failed { result ≡ 4 → Rose (W.faults sink.old) (W.faults sink.new) }
    ensures known { IsCommandStatus result }
{
    shelf.copies_are_hosted();
    match shelf.copy_of(&wavelet) {
        Some(history) => play_history(alloc, history, source, sink),
        None => play_history(alloc, &History::new(alloc, wavelet), source, sink),
    }
}

// Answers the commands of an inbox.
fn answer_inbox<S: Source, W: Sink>(
    alloc: Global,
    machine: InboxMachine,
    source: &mut S,
    sink: &mut W,
) -> u8
    ensures listed { IsObeyed clerk (inbox_of machine) (S.left source.old) (S.left source.new) (W.written sink.old)
        (W.written sink.new) result }
    ensures source_failed { result ≡ 3 → Rose (S.faults source.old) (S.faults source.new) }
    ensures sink_failed { result ≡ 4 → Rose (W.faults sink.old) (W.faults sink.new) }
    ensures known { IsCommandStatus result }
{
    let mut machine = machine;
    run_commands(alloc, &mut machine, source, sink)
}

/// Answers what a user has of the shelf's histories, and where a word stands in them, and gives the exit status.
pub fn inbox_over<S: Source, W: Sink, F: Folder>(
    alloc: Global,
    shelf: &Shelf<F>,
    user: Address,
    source: &mut S,
    sink: &mut W,
) -> u8
    ensures listed { IsListed (hosted_of shelf.now) user (S.left source.old) (S.left source.new) (W.written sink.old)
        (W.written sink.new) result }
    ensures source_failed { result ≡ 3 → Rose (S.faults source.old) (S.faults source.new) }
    ensures sink_failed { result ≡ 4 → Rose (W.faults sink.old) (W.faults sink.new) }
    ensures known { IsCommandStatus result }
{
    shelf.copies_are_hosted();
    match InboxMachine::over(alloc, shelf, user) {
        Ok(machine) => answer_inbox(alloc, machine, source, sink),
        Err(_) => 8,
    }
}
