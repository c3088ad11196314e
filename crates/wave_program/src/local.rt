// The commands that need no net.
ghost use Rattle.std.specs.Prelude.{◌≡◌, ◌⊎◌, ℕ, List, [], length, ◌++◌, ◌<◌, ◌≤◌, false, Some, None, IsTrue};
ghost use Rattle.wave_outside.specs.Counts.{Rose};
ghost use Rattle.command_words.specs.Commands.{needs_net, Pipe, Load};
ghost use Rattle.command_words.specs.Shown.{shown};
ghost use Rattle.line_loop.specs.Run.{byte_limit};
ghost use Rattle.line_loop.specs.Told.{WhereTold, IsRun};
ghost use Rattle.wavelet_shelf.specs.Loads.{IsSound};
ghost use Rattle.wave_program.specs.Load.{IsLoaded};
ghost use Rattle.wave_program.specs.Pipe.{answers_over};
ghost use Rattle.wave_program.specs.Run.{IsServing};
ghost use Rattle.wave_program.specs.Services.{service_of};
ghost use Rattle.wave_program.specs.Store.{entered_at, IsStoredAs, IsUnloaded};
ghost use Rattle.wave_program.specs.Words.{IsStoring};

use crate::load::{LoadStop, load};
use crate::pipe::serve;
use crate::service::Service;
use crate::store::serve_stored;
use command_words::Command;
use std::alloc::Global;
use wave_outside::{Clock, Folder, Sink, Source};
use wavelet_shelf::Shelf;

// Runs the load of a number, writes its line, and gives the exit status.
fn tell_load<W: Sink>(alloc: Global, count: u64, sink: &mut W) -> u8
    requires { count ≤ 100000 }
    ensures loaded { IsLoaded count result (W.written sink.old) (W.written sink.new) }
    ensures sink_failed { result ≡ 4 → Rose (W.faults sink.old) (W.faults sink.new) }
{
    match load(alloc, count, sink) {
        Ok(()) => 0,
        Err(LoadStop::Sink) => 4,
        Err(LoadStop::Memory) => 8,
    }
}

/// Runs a command that needs no net, and gives the exit status, as `run` does.
pub fn obey<S: Source, W: Sink, F: Folder + Drop, C: Clock>(
    alloc: Global,
    command: Command<'_>,
    source: &mut S,
    sink: &mut W,
    folder: &mut F,
    clock: &mut C,
) -> u8
    requires local { needs_net (shown command) ≡ false }
    requires small { (n : ℕ) → shown command ≡ Load n → n ≤ 100000 }
    // Lines: they are answered, over no history.
    ensures served { shown command.entry ≡ Pipe None
        → IsRun C.Clock (answers_over []) clock.old (S.left source.old) (S.left source.new) (W.written sink.old)
        (W.written sink.new) result }
    ensures complete { shown command.entry ≡ Pipe None
        → (Rose (S.faults source.old) (S.faults source.new) → ⊥)
        → (Rose (W.faults sink.old) (W.faults sink.new) → ⊥)
        → WhereTold (S.left source.old) (S.left source.new) (W.written sink.old) (W.written sink.new)
        (λ read left written. length (read ++ left) < byte_limit → (result ≡ 0) ⊎ (result ≡ 8)) }

    // A store: the folder of the words is entered, and no other, before any file is used. None of its files with a journal's name is
    // refused. Lines are answered over the histories for which they stand, and what is sent stands there; commands of a playback or of
    // an inbox are answered over these histories, and each file is as it was, but for what a sync settles. Or no line was read, and
    // each file is so.
    ensures stored { (path : List ℕ) (service : Service) → service_of (Some (shown command.entry)) ≡ Some (path, service)
        → IsTrue F.tells → IsTrue F.Disk.tells
        → IsStoredAs F.Folder F.Disk.Disk C.Clock service (entered_at F.Folder path folder.old) folder.old folder.new clock.old
        (S.left source.old) (S.left source.new) (W.written sink.old) (W.written sink.new) result
        ⊎ ((source.new ≡ source.old) × IsUnloaded F.Folder F.Disk.Disk (entered_at F.Folder path folder.old) folder.old folder.new
        (W.written sink.old) (W.written sink.new) (W.faults sink.old) (W.faults sink.new) result) }
    ensures stored_complete { (path : List ℕ) (service : Service) → service_of (Some (shown command.entry)) ≡ Some (path, service)
        → IsTrue F.tells → IsTrue F.Disk.tells
        → ((file : List ℕ) → IsSound F.Disk.view (F.files folder.old file) file)
        → (Rose (S.faults source.old) (S.faults source.new) → ⊥)
        → (Rose (W.faults sink.old) (W.faults sink.new) → ⊥)
        → (Rose (F.faults folder.old) (F.faults folder.new) → ⊥)
        → WhereTold (S.left source.old) (S.left source.new) (W.written sink.old) (W.written sink.new)
        (λ read left written. length (read ++ left) < byte_limit → (result ≡ 0) ⊎ (result ≡ 8)) }

    // Without a store the folder stays as it is.
    ensures alone { (IsStoring (Some (shown command.entry)) → ⊥) → folder.new ≡ folder.old }

    // A load: nothing is read, and the summary of the load is written.
    ensures loaded { (n : ℕ) → shown command.entry ≡ Load n
        → IsLoaded n result (W.written sink.old) (W.written sink.new) }
    ensures load_unread { (n : ℕ) → shown command.entry ≡ Load n → source.new ≡ source.old }
    ensures load_complete { (n : ℕ) → shown command.entry ≡ Load n
        → (Rose (W.faults sink.old) (W.faults sink.new) → ⊥) → (result ≡ 0) ⊎ (result ≡ 8) }

    // Each further status has its cause.
    ensures source_failed { result ≡ 3 → Rose (S.faults source.old) (S.faults source.new) }
    ensures sink_failed { result ≡ 4 → Rose (W.faults sink.old) (W.faults sink.new) }
    ensures store_failed { result ≡ 5 → Rose (F.faults folder.old) (F.faults folder.new) }
    ensures damaged { result ≡ 6 → IsStoring (Some (shown command.entry)) }
    ensures known { IsServing result ⊎ (result ≡ 6) }
{
    match command {
        Command::Pipe { store: None } => {
            serve(alloc, Shelf::<F>::new(alloc), source, sink, clock)
        }
        Command::Pipe { store: Some(path) } => {
            serve_stored(alloc, path, Service::Lines, source, sink, folder, clock)
        }
        Command::Play { store, wavelet } => {
            let service = Service::Play { wavelet };
            serve_stored(alloc, store, service, source, sink, folder, clock)
        }
        Command::Inbox { store, user } => {
            let service = Service::Inbox { user };
            serve_stored(alloc, store, service, source, sink, folder, clock)
        }
        Command::Load { count } => tell_load(alloc, count, sink),
        Command::Serve { .. } => unreachable!(),
        Command::Edit { .. } => unreachable!(),
    }
}
