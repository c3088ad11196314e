// Edits, by the words of a line.
ghost use Rattle.std.specs.Prelude.{◌≡◌, IfOk};
ghost use Rattle.client_commands.specs.Edits.{add_of, remove_of, role_of, type_of, element_of, erase_of, key_of, value_of, note_of, reply_of, inline_of, thread_named, next_of, delete_of, talk_of, document_of, edit_of};

use crate::command::Edit;
use crate::phrase::Phrase;
use crate::words::{address_named, cut, has_space, role_named, spot_at, stretch_at};
use doc_items::Memory;
use std::alloc::Global;

// ---- participants

fn add_of(alloc: Global, text: &str) -> Result<Option<Edit>, Memory>
    ensures { IfOk result (λ o. o ≡ add_of text.now) }
{
    match address_named(alloc, text)? {
        Some(address) => Ok(Some(Edit::Add { address })),
        None => Ok(None),
    }
}

fn remove_of(alloc: Global, text: &str) -> Result<Option<Edit>, Memory>
    ensures { IfOk result (λ o. o ≡ remove_of text.now) }
{
    match address_named(alloc, text)? {
        Some(address) => Ok(Some(Edit::Remove { address })),
        None => Ok(None),
    }
}

fn role_of(alloc: Global, text: &str) -> Result<Option<Edit>, Memory>
    ensures { IfOk result (λ o. o ≡ role_of text.now) }
{
    let Some((address, role)) = cut(text) else {
        return Ok(None);
    };
    let Some(address) = address_named(alloc, address)? else {
        return Ok(None);
    };
    match role_named(role) {
        Some(role) => Ok(Some(Edit::SetRole { address, role })),
        None => Ok(None),
    }
}

// ---- documents

fn type_of(alloc: Global, text: &str) -> Result<Option<Edit>, Memory>
    ensures { IfOk result (λ o. o ≡ type_of text.now) }
{
    let Some((document, more)) = cut(text) else {
        return Ok(None);
    };
    let Some((place, written)) = cut(more) else {
        return Ok(None);
    };
    let Some(spot) = spot_at(alloc, document, place)? else {
        return Ok(None);
    };
    let text = Phrase::from_str(alloc, written)?;
    Ok(Some(Edit::Write { spot, text }))
}

fn element_of(alloc: Global, text: &str) -> Result<Option<Edit>, Memory>
    ensures { IfOk result (λ o. o ≡ element_of text.now) }
{
    let Some((document, more)) = cut(text) else {
        return Ok(None);
    };
    let Some((place, kind)) = cut(more) else {
        return Ok(None);
    };
    if has_space(kind) {
        return Ok(None);
    }
    let Some(spot) = spot_at(alloc, document, place)? else {
        return Ok(None);
    };
    let kind = Phrase::from_str(alloc, kind)?;
    Ok(Some(Edit::Element { spot, kind }))
}

fn erase_of(alloc: Global, text: &str) -> Result<Option<Edit>, Memory>
    ensures { IfOk result (λ o. o ≡ erase_of text.now) }
{
    let Some((document, more)) = cut(text) else {
        return Ok(None);
    };
    let Some((from, count)) = cut(more) else {
        return Ok(None);
    };
    match stretch_at(alloc, document, from, count)? {
        Some(stretch) => Ok(Some(Edit::Erase { stretch })),
        None => Ok(None),
    }
}

fn key_of(alloc: Global, words: &str) -> Result<Phrase, Memory>
    ensures { IfOk result (λ p. p ≡ key_of words.now) }
{
    match cut(words) {
        Some((key, _)) => Phrase::from_str(alloc, key),
        None => Phrase::from_str(alloc, words),
    }
}

fn value_of(alloc: Global, words: &str) -> Result<Option<Phrase>, Memory>
    ensures { IfOk result (λ o. o ≡ value_of words.now) }
{
    match cut(words) {
        Some((_, value)) => Ok(Some(Phrase::from_str(alloc, value)?)),
        None => Ok(None),
    }
}

fn note_of(alloc: Global, text: &str) -> Result<Option<Edit>, Memory>
    ensures { IfOk result (λ o. o ≡ note_of text.now) }
{
    let Some((document, more)) = cut(text) else {
        return Ok(None);
    };
    let Some((from, rest)) = cut(more) else {
        return Ok(None);
    };
    let Some((count, words)) = cut(rest) else {
        return Ok(None);
    };
    let Some(stretch) = stretch_at(alloc, document, from, count)? else {
        return Ok(None);
    };
    let key = key_of(alloc, words)?;
    let value = value_of(alloc, words)?;
    Ok(Some(Edit::Note {
        stretch,
        key,
        value,
    }))
}

// ---- conversations

fn reply_of(alloc: Global, text: &str) -> Result<Option<Edit>, Memory>
    ensures { IfOk result (λ o. o ≡ reply_of text.now) }
{
    let Some((blip, more)) = cut(text) else {
        return Ok(None);
    };
    let Some((thread, new_blip)) = cut(more) else {
        return Ok(None);
    };
    if has_space(new_blip) {
        return Ok(None);
    }
    let blip = Phrase::from_str(alloc, blip)?;
    let thread = Phrase::from_str(alloc, thread)?;
    let new_blip = Phrase::from_str(alloc, new_blip)?;
    Ok(Some(Edit::Reply {
        blip,
        thread,
        new_blip,
    }))
}

fn inline_of(alloc: Global, text: &str) -> Result<Option<Edit>, Memory>
    ensures { IfOk result (λ o. o ≡ inline_of text.now) }
{
    let Some((document, more)) = cut(text) else {
        return Ok(None);
    };
    let Some((place, rest)) = cut(more) else {
        return Ok(None);
    };
    let Some((thread, new_blip)) = cut(rest) else {
        return Ok(None);
    };
    if has_space(new_blip) {
        return Ok(None);
    }
    let Some(spot) = spot_at(alloc, document, place)? else {
        return Ok(None);
    };
    let thread = Phrase::from_str(alloc, thread)?;
    let new_blip = Phrase::from_str(alloc, new_blip)?;
    Ok(Some(Edit::Inline {
        spot,
        thread,
        new_blip,
    }))
}

// The id of the thread; the root thread's is empty.
fn thread_named(word: &str) -> &str
    ensures { result.now ≡ thread_named word.now }
{
    if word == "-" { "" } else { word }
}

fn next_of(alloc: Global, text: &str) -> Result<Option<Edit>, Memory>
    ensures { IfOk result (λ o. o ≡ next_of text.now) }
{
    let Some((thread, new_blip)) = cut(text) else {
        return Ok(None);
    };
    if has_space(new_blip) {
        return Ok(None);
    }
    let thread = Phrase::from_str(alloc, thread_named(thread))?;
    let new_blip = Phrase::from_str(alloc, new_blip)?;
    Ok(Some(Edit::Next { thread, new_blip }))
}

fn delete_of(alloc: Global, text: &str) -> Result<Option<Edit>, Memory>
    ensures { IfOk result (λ o. o ≡ delete_of text.now) }
{
    if has_space(text) {
        return Ok(None);
    }
    let blip = Phrase::from_str(alloc, text)?;
    Ok(Some(Edit::Delete { blip }))
}

// ---- by the first word

fn talk_of(alloc: Global, word: &str, text: &str) -> Result<Option<Edit>, Memory>
    ensures { IfOk result (λ o. o ≡ talk_of word.now text.now) }
{
    if word == "reply" {
        return reply_of(alloc, text);
    }
    if word == "inline" {
        return inline_of(alloc, text);
    }
    if word == "next" {
        return next_of(alloc, text);
    }
    if word == "delete" {
        return delete_of(alloc, text);
    }
    Ok(None)
}

fn document_of(alloc: Global, word: &str, text: &str) -> Result<Option<Edit>, Memory>
    ensures { IfOk result (λ o. o ≡ document_of word.now text.now) }
{
    if word == "type" {
        return type_of(alloc, text);
    }
    if word == "erase" {
        return erase_of(alloc, text);
    }
    if word == "note" {
        return note_of(alloc, text);
    }
    if word == "element" {
        return element_of(alloc, text);
    }
    talk_of(alloc, word, text)
}

/// The edit of a first word with a text after it; None where the word is none of an edit. The error is want of memory.
pub(crate) fn edit_of(alloc: Global, word: &str, text: &str) -> Result<Option<Edit>, Memory>
    ensures { IfOk result (λ o. o ≡ edit_of word.now text.now) }
{
    if word == "add" {
        return add_of(alloc, text);
    }
    if word == "remove" {
        return remove_of(alloc, text);
    }
    if word == "role" {
        return role_of(alloc, text);
    }
    document_of(alloc, word, text)
}
