// Commands of a playback.
ghost use Rattle.std.specs.Prelude.{◌≡◌};
ghost use Rattle.wave_terminal.specs.Commands.{is_word, goto_of, command_of};

use wave_screen::number;

/// A command of a playback.
#[derive(Clone, Copy, Debug, Drop, PartialEq, Eq)]
pub(crate) enum Command {
    /// A delta on.
    Next,
    /// A delta back.
    Back,
    /// To a version.
    Goto(u64),
    /// Prints the screen.
    Show,
    /// Ends the run.
    Quit,
}

fn is_word(line: &[u8], word: &str) -> bool
    ensures { result ≡ is_word line.now word.now }
{
    line == word.as_bytes()
}

fn goto_of(line: &[u8]) -> Option<Command>
    ensures { result ≡ goto_of line.now }
{
    if line.len() < 5 || !is_word(&line[..5], "goto ") {
        return None;
    }
    match number(&line[5..]) {
        Some(version) => Some(Command::Goto(version)),
        None => None,
    }
}

/// The command of a line; None where it is none.
pub(crate) fn command_of(line: &[u8]) -> Option<Command>
    ensures { result ≡ command_of line.now }
{
    if is_word(line, "next") {
        return Some(Command::Next);
    }
    if is_word(line, "back") {
        return Some(Command::Back);
    }
    if is_word(line, "show") {
        return Some(Command::Show);
    }
    if is_word(line, "quit") {
        return Some(Command::Quit);
    }
    goto_of(line)
}
