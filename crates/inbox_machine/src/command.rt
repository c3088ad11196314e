// The commands of an inbox.
ghost use Rattle.std.specs.Prelude.{◌≡◌, ◌<◌, ◌==◌, false, IfOk, MatchOption};
ghost use Rattle.std.specs.List.{list_any};
ghost use Rattle.wave_base.specs.Grammar.{is_wavelet_name, IsCut};
ghost use Rattle.inbox_machine.specs.Commands.{search_of, read_named, read_of, worded_of, only_of, text_of, command_of};

use doc_items::Memory;
use document_words::Word;
use std::alloc::{AllocError, Global};
use wave_base::{BaseFault, WaveletName};
use wave_terminal::number;

/// A command of an inbox.
#[derive(Debug, Drop)]
pub(crate) enum Command {
    /// What there is of each wavelet.
    Show,
    /// Where a word stands.
    Search { word: Word },
    /// A wavelet is read up to a version.
    Read { name: WaveletName, version: u64 },
    /// The end.
    Quit,
}

// What stands before and after the first `separator`, an ASCII character; None where there is none.
fn cut(text: &str, separator: char) -> Option<(&str, &str)>
    requires { separator < 128 }
    ensures { MatchOption result (list_any (λ b. b == separator) text.now ≡ false) (λ p. IsCut separator text.now p.0.now p.1.now) }
{
    text.split_once(separator)
}

// A search for a word.
fn search_of(alloc: Global, text: &str) -> Result<Option<Command>, Memory>
    ensures { IfOk result (λ o. o ≡ search_of text.now) }
{
    match cut(text, ' ') {
        Some(_) => Ok(None),
        None => {
            let word = Word::from_str(alloc, text)?;
            Ok(Some(Command::Search { word }))
        }
    }
}

// The version up to which the wavelet of a name is read.
fn read_named(alloc: Global, name: &str, version: &str) -> Result<Option<Command>, Memory>
    ensures { IfOk result (λ o. o ≡ read_named (is_wavelet_name name.now) name.now version.now) }
{
    match WaveletName::parse(alloc, name) {
        Ok(name) => match number(version.as_bytes()) {
            Some(version) => Ok(Some(Command::Read { name, version })),
            None => Ok(None),
        },
        Err(BaseFault::BadName) => Ok(None),
        Err(BaseFault::BadAddress) => unreachable!(),
        Err(BaseFault::Memory) => Err(AllocError),
    }
}

// The version up to which a wavelet is read.
fn read_of(alloc: Global, text: &str) -> Result<Option<Command>, Memory>
    ensures { IfOk result (λ o. o ≡ read_of text.now) }
{
    match cut(text, ' ') {
        Some((name, version)) => read_named(alloc, name, version),
        None => Ok(None),
    }
}

// The command of a first word with a text after it.
fn worded_of(alloc: Global, first: &str, rest: &str) -> Result<Option<Command>, Memory>
    ensures { IfOk result (λ o. o ≡ worded_of first.now rest.now) }
{
    if first == "search" {
        return search_of(alloc, rest);
    }
    if first == "read" {
        return read_of(alloc, rest);
    }
    Ok(None)
}

// The command of a text without a space.
fn only_of(text: &str) -> Option<Command>
    ensures { result ≡ only_of text.now }
{
    if text == "list" {
        return Some(Command::Show);
    }
    if text == "quit" {
        return Some(Command::Quit);
    }
    None
}

// The command of a text.
fn text_of(alloc: Global, text: &str) -> Result<Option<Command>, Memory>
    ensures { IfOk result (λ o. o ≡ text_of text.now) }
{
    match cut(text, ' ') {
        Some((first, rest)) => worded_of(alloc, first, rest),
        None => Ok(only_of(text)),
    }
}

/// The command of a line; None where it is none. The error is want of memory.
pub(crate) fn command_of(alloc: Global, line: &[u8]) -> Result<Option<Command>, Memory>
    ensures { IfOk result (λ o. o ≡ command_of line.now) }
{
    match str::from_utf8(line) {
        Ok(text) => text_of(alloc, text),
        Err(_) => Ok(None),
    }
}
