// Documents as they are shown.
ghost use Rattle.std.specs.Prelude.{◌≡◌, ◌++◌, [], cond, codes, string_bytes, IfOk, OnOk};
ghost use Rattle.std.specs.Option.{option_copied};
ghost use Rattle.wave_screen.specs.Escapes.{pair_text, notes_text, content_text, change_text, items_text, notes_after, document_text, rope_text};

use crate::escape::{push_char, push_text};
use doc_items::{Content, Item, Memory, Notes};
use doc_rope::Rope;
use std::alloc::Global;

// Appends what stands before a pair that isn't the first.
fn push_separator(out: &mut String, first: bool) -> Result<(), Memory>
    ensures { OnOk result (string_bytes out.new ≡ string_bytes out.old ++ cond first [] (codes ";")) }
{
    if first {
        return Ok(());
    }
    out.push_str(";")
}

// Appends a pair of a key and a value.
fn push_pair(out: &mut String, first: bool, key: &str, value: &str) -> Result<(), Memory>
    ensures { OnOk result (string_bytes out.new ≡ string_bytes out.old ++ cond first [] (codes ";") ++ pair_text (key.now, value.now)) }
{
    push_separator(out, first)?;
    push_text(out, key)?;
    out.push_str("=")?;
    push_text(out, value)
}

// Appends annotations.
fn push_notes(out: &mut String, notes: &Notes) -> Result<(), Memory>
    ensures { OnOk result (string_bytes out.new ≡ string_bytes out.old ++ notes_text notes.now) }
{
    out.push_str("{")?;
    let mut first = true;
    for (key, value) in notes.iter() {
        push_pair(out, first, key.as_str(), value.as_str())?;
        first = false;
    }
    out.push_str("}")
}

// Appends annotations where they differ from those before.
fn push_change(out: &mut String, before: &Notes, notes: &Notes) -> Result<(), Memory>
    ensures { OnOk result (string_bytes out.new ≡ string_bytes out.old ++ change_text before.now notes.now) }
{
    if before.same(notes) {
        return Ok(());
    }
    push_notes(out, notes)
}

// Appends a content.
fn push_content(out: &mut String, content: &Content) -> Result<(), Memory>
    ensures { OnOk result (string_bytes out.new ≡ string_bytes out.old ++ content_text content.now) }
{
    match content {
        Content::Character(c) => push_char(out, *c),
        Content::Start { kind, .. } => {
            out.push_str("<")?;
            push_text(out, kind.as_str())?;
            out.push_str(">")
        }
        Content::End => out.push_str("</>"),
    }
}

// Appends items that stand after these annotations, and gives those of the last.
fn push_items<'a>(
    out: &mut String,
    before: &'a Notes,
    items: &'a [Item],
) -> Result<&'a Notes, Memory>
    ensures text { OnOk result (string_bytes out.new ≡ string_bytes out.old ++ items_text before.entry.now items.entry.now) }
    ensures notes { IfOk result (λ n. n.now ≡ notes_after before.entry.now items.entry.now) }
{
    let mut before = before;
    for item in items {
        push_change(out, before, &item.notes)?;
        push_content(out, &item.content)?;
        before = &item.notes;
    }
    Ok(before)
}

/// Appends a document, which is read once. The error is want of memory, here and below.
pub(crate) fn push_document(alloc: Global, out: &mut String, rope: &Rope) -> Result<(), Memory>
    ensures { OnOk result (string_bytes out.new ≡ string_bytes out.old ++ document_text rope.now) }
{
    // What is read lies in the document, so its end is a place.
    let _whole = rope.len();
    let none = Notes::new(alloc);
    let mut before = &none;
    let mut place = 0;
    while let Some(run) = rope.run(place) {
        before = push_items(out, before, run)?;
        place += run.len() as u64;
    }
    Ok(())
}

/// Appends a document that may not be there.
pub(crate) fn push_rope(alloc: Global, out: &mut String, rope: Option<&Rope>) -> Result<(), Memory>
    ensures { OnOk result (string_bytes out.new ≡ string_bytes out.old ++ rope_text (option_copied rope.entry)) }
{
    match rope {
        Some(rope) => push_document(alloc, out, rope),
        None => Ok(()),
    }
}
