// The title of a document.
ghost use Rattle.std.specs.Prelude.{◌≡◌, ◌++◌, [], IfOk, OnOk};
ghost use Rattle.wave_index.specs.Titles.{is_line, ends_at, shown, title, is_whole};

use doc_items::{Content, Memory, Text};
use doc_rope::Rope;
use std::alloc::Global;

// How many characters a title has at most.
const MAX_TITLE: usize = 80;

// Whether an element of this type begins a line.
fn is_line(kind: &Text) -> bool
    ensures { result ≡ is_line kind.now }
{
    kind.as_str() == "line"
}

// Whether a line ends before this content, where it has a character already.
fn ends_at(begun: bool, content: &Content) -> bool
    ensures { result ≡ ends_at begun content.now }
{
    match content {
        Content::Character(_) => false,
        Content::Start { kind, .. } => begun && is_line(kind),
        Content::End => false,
    }
}

// Whether a title is whole before this content.
fn is_whole(text: &[char], content: &Content) -> bool
    ensures { result ≡ is_whole text.now content.now }
{
    text.len() == MAX_TITLE || ends_at(!text.is_empty(), content)
}

// Puts the character that the content is, if it is one, after the others.
fn put_shown(content: &Content, text: &mut Vec<char>) -> Result<(), Memory>
    ensures { OnOk result (text.new.items ≡ text.old.items ++ shown content.now) }
{
    match content {
        Content::Character(c) => {
            text.push(*c)?;
            Ok(())
        }
        Content::Start { .. } => Ok(()),
        Content::End => Ok(()),
    }
}

// The characters as a text.
fn text_of(alloc: Global, chars: &[char]) -> Result<Text, Memory>
    ensures { IfOk result (λ t. t ≡ chars.now) }
{
    let mut string = String::new(alloc);
    for c in chars {
        string.push(*c)?;
    }
    Text::from_str(alloc, string.as_str())
}

/// No text.
pub(crate) fn no_text(alloc: Global) -> Result<Text, Memory>
    ensures { IfOk result (λ t. t ≡ []) }
{
    Text::from_str(alloc, "")
}

/// The title of a document: the characters of its first line that has one, at most 80 of them.
pub(crate) fn title(alloc: Global, document: &Rope) -> Result<Text, Memory>
    ensures { IfOk result (λ t. t ≡ title document.now) }
{
    let mut text = Vec::new(alloc);
    for place in 0..document.len() {
        let Some(item) = document.item(place) else {
            return text_of(alloc, text.as_slice());
        };
        if is_whole(text.as_slice(), &item.content) {
            return text_of(alloc, text.as_slice());
        }
        put_shown(&item.content, &mut text)?;
    }
    text_of(alloc, text.as_slice())
}
