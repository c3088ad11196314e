// The commands that play a history.
ghost use Rattle.std.specs.Prelude.{◌≡◌, ◌++◌, [], cond, IfOk, OnOk};
ghost use Rattle.wave_outside.specs.Counts.{Rose};
ghost use Rattle.wave_terminal.specs.Play.{obeyed, shown_text, player};
ghost use Rattle.wave_terminal.specs.Runs.{IsCommandStatus, IsObeyed};

use crate::CommandMachine;
use crate::command::{Command, command_of};
use crate::run::run_commands;
use doc_items::Memory;
use std::alloc::Global;
use wave_outside::{Sink, Source};
use wave_playback::Playback;
use wave_screen::write_screen;

// How many bytes of a line are kept before no more are: no command has so many.
const MAX_KEPT: usize = 64;

// Appends a text, where a playback didn't go.
fn tell_unless(went: bool, words: &str, out: &mut Vec<u8>) -> Result<(), Memory>
    ensures { OnOk result (out.new.items ≡ out.old.items ++ cond went [] words.now) }
{
    if went {
        return Ok(());
    }
    out.extend_from_slice(words.as_bytes())
}

// Appends the screen.
fn show(alloc: Global, playback: &Playback<'_>, out: &mut Vec<u8>) -> Result<(), Memory>
    ensures { OnOk result (out.new.items ≡ out.old.items ++ shown_text playback.now) }
{
    let mut screen = String::new(alloc);
    write_screen(
        alloc,
        playback.history().name(),
        playback.version(),
        false,
        playback.state(),
        &mut screen,
    )?;
    out.extend_from_slice(screen.as_bytes())?;
    Ok(())
}

// Does what a command says, appends what it prints, and tells whether it ends the run.
fn obey(
    alloc: Global,
    playback: &mut Playback<'_>,
    command: Option<Command>,
    out: &mut Vec<u8>,
) -> Result<bool, Memory>
    ensures state { OnOk result (playback.new ≡ (obeyed playback.old command).state) }
    ensures text { OnOk result (out.new.items ≡ out.old.items ++ (obeyed playback.old command).text) }
    ensures quit { IfOk result (λ quit. quit ≡ (obeyed playback.old command).quit) }
{
    match command {
        Some(Command::Next) => {
            let went = playback.forward(alloc)?;
            tell_unless(went, "! at the end\n", out)?;
            Ok(false)
        }
        Some(Command::Back) => {
            let went = playback.back(alloc)?;
            tell_unless(went, "! at the start\n", out)?;
            Ok(false)
        }
        Some(Command::Goto(version)) => {
            let went = playback.seek(alloc, version)?;
            tell_unless(went, "! no such version\n", out)?;
            Ok(false)
        }
        Some(Command::Show) => {
            show(alloc, playback, out)?;
            Ok(false)
        }
        Some(Command::Quit) => Ok(true),
        None => {
            tell_unless(false, "! unknown command\n", out)?;
            Ok(false)
        }
    }
}

impl<'a> CommandMachine for Playback<'a> {
    ghost use Rattle.wave_playback.specs.Playing.{PlaybackOf};
    ghost use Rattle.wave_terminal.specs.Play.{player};

    ghost State = { PlaybackOf };

    ghost state = { λ p. p };

    ghost machine = { player };

    fn keeps(&self, count: usize) -> bool {
        count <= MAX_KEPT
    }

    fn obey(&mut self, alloc: Global, line: &[u8], out: &mut Vec<u8>) -> Result<bool, Memory> {
        obey(alloc, self, command_of(line), out)
    }
}

/// Takes commands from the source, one a line, and prints on the sink, over a playback, until the input ends or the line `quit` comes.
/// `next`, `back` and `goto V` go through the history, and `show` prints the screen. The status is that of `run_commands`.
pub fn play_run<S: Source, W: Sink>(
    alloc: Global,
    source: &mut S,
    sink: &mut W,
    playback: &mut Playback<'_>,
) -> u8
    ensures played { IsObeyed player playback.old (S.left source.old) (S.left source.new) (W.written sink.old) (W.written sink.new) result }
    ensures source_failed { result ≡ 3 → Rose (S.faults source.old) (S.faults source.new) }
    ensures sink_failed { result ≡ 4 → Rose (W.faults sink.old) (W.faults sink.new) }
    ensures known { IsCommandStatus result }
{
    run_commands(alloc, playback, source, sink)
}
