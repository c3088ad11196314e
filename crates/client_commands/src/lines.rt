// What a line says.
ghost use Rattle.std.specs.Prelude.{◌≡◌, IfOk};
ghost use Rattle.client_commands.specs.Lines.{lone_of, create_of, open_of, worded_of, text_of, command_of};

use crate::command::Command;
use crate::edits::edit_of;
use crate::words::{cut, wavelet_named};
use doc_items::Memory;
use std::alloc::Global;

// The command of a text without a space.
fn lone_of(text: &str) -> Option<Command>
    ensures { result ≡ lone_of text.now }
{
    if text == "undo" {
        return Some(Command::Undo);
    }
    if text == "show" {
        return Some(Command::Show);
    }
    if text == "sync" {
        return Some(Command::Sync);
    }
    if text == "drop" {
        return Some(Command::Drop);
    }
    if text == "quit" {
        return Some(Command::Quit);
    }
    None
}

fn create_of(alloc: Global, text: &str) -> Result<Option<Command>, Memory>
    ensures { IfOk result (λ o. o ≡ create_of text.now) }
{
    match wavelet_named(alloc, text)? {
        Some(name) => Ok(Some(Command::Create { name })),
        None => Ok(None),
    }
}

fn open_of(alloc: Global, text: &str) -> Result<Option<Command>, Memory>
    ensures { IfOk result (λ o. o ≡ open_of text.now) }
{
    match wavelet_named(alloc, text)? {
        Some(name) => Ok(Some(Command::Open { name })),
        None => Ok(None),
    }
}

// The command of a first word with a text after it.
fn worded_of(alloc: Global, word: &str, text: &str) -> Result<Option<Command>, Memory>
    ensures { IfOk result (λ o. o ≡ worded_of word.now text.now) }
{
    if word == "create" {
        return create_of(alloc, text);
    }
    if word == "open" {
        return open_of(alloc, text);
    }
    match edit_of(alloc, word, text)? {
        Some(edit) => Ok(Some(Command::Edit(edit))),
        None => Ok(None),
    }
}

// The command of a text.
fn text_of(alloc: Global, text: &str) -> Result<Option<Command>, Memory>
    ensures { IfOk result (λ o. o ≡ text_of text.now) }
{
    match cut(text) {
        Some((word, rest)) => worded_of(alloc, word, rest),
        None => Ok(lone_of(text)),
    }
}

/// The command of a line; None where it is none, as where the line isn't UTF-8. The error is want of memory.
pub fn command_of(alloc: Global, line: &[u8]) -> Result<Option<Command>, Memory>
    ensures { IfOk result (λ o. o ≡ command_of line.now) }
{
    match str::from_utf8(line) {
        Ok(text) => text_of(alloc, text),
        Err(_) => Ok(None),
    }
}
