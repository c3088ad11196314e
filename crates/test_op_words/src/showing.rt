use doc_items::{Boundary, Changes, Content, Document, Memory, Text, TextMap};
use doc_op::{Component, DocOp};
use std::alloc::Global;

fn show_value(out: &mut String, value: &Option<Text>) -> Result<(), Memory> {
    match value {
        Some(text) => out.push_str(text.as_str()),
        None => out.push('_'),
    }
}

fn separate(out: &mut String, is_first: bool) -> Result<(), Memory> {
    if is_first { Ok(()) } else { out.push(',') }
}

fn show_map(out: &mut String, mut is_first: bool, map: &TextMap) -> Result<(), Memory> {
    for (key, value) in map.iter() {
        separate(out, is_first)?;
        out.push_str(key.as_str())?;
        out.push('=')?;
        out.push_str(value.as_str())?;
        is_first = false;
    }
    Ok(())
}

fn show_changes(out: &mut String, mut is_first: bool, changes: &Changes) -> Result<(), Memory> {
    for change in changes.as_slice() {
        separate(out, is_first)?;
        out.push_str(change.key.as_str())?;
        out.push('=')?;
        show_value(out, &change.old)?;
        out.push(':')?;
        show_value(out, &change.new)?;
        is_first = false;
    }
    Ok(())
}

fn show_boundary(out: &mut String, boundary: &Boundary) -> Result<(), Memory> {
    out.push('/')?;
    let mut is_first = true;
    for key in boundary.end.as_slice() {
        separate(out, is_first)?;
        out.push('!')?;
        out.push_str(key.as_str())?;
        is_first = false;
    }
    show_changes(out, is_first, &boundary.change)
}

fn show_text(out: &mut String, sign: &str, text: &Text) -> Result<(), Memory> {
    out.push_str(sign)?;
    out.push_str(text.as_str())
}

fn show_start(out: &mut String, sign: &str, kind: &Text, map: &TextMap) -> Result<(), Memory> {
    show_text(out, sign, kind)?;
    show_map(out, false, map)
}

fn show_replacement(out: &mut String, old: &TextMap, new: &TextMap) -> Result<(), Memory> {
    out.push('%')?;
    show_map(out, true, old)?;
    out.push('|')?;
    show_map(out, true, new)
}

fn show_update(out: &mut String, changes: &Changes) -> Result<(), Memory> {
    out.push('~')?;
    show_changes(out, true, changes)
}

fn show_count(out: &mut String, count: u64) -> Result<(), Memory> {
    write!(out, "{count}")
}

fn show(out: &mut String, component: &Component) -> Result<(), Memory> {
    match component {
        Component::Retain(count) => show_count(out, *count),
        Component::Characters(text) => show_text(out, "+", text),
        Component::DeleteCharacters(text) => show_text(out, "-", text),
        Component::ElementStart { kind, attributes } => show_start(out, "<", kind, attributes),
        Component::DeleteElementStart { kind, attributes } => show_start(
            out, "-<", kind, attributes,
        ),
        Component::ElementEnd => out.push('>'),
        Component::DeleteElementEnd => out.push_str("->"),
        Component::ReplaceAttributes { old, new } => show_replacement(out, old, new),
        Component::UpdateAttributes(changes) => show_update(out, changes),
        Component::AnnotationBoundary(boundary) => show_boundary(out, boundary),
    }
}

/// The operation as words, which stand apart by one space.
pub fn shown(alloc: Global, op: &DocOp) -> Result<String, Memory> {
    let mut out = String::new(alloc);
    let mut is_first = true;
    for component in op.as_slice() {
        if !is_first {
            out.push(' ')?;
        }
        show(&mut out, component)?;
        is_first = false;
    }
    Ok(out)
}

fn show_content(out: &mut String, content: &Content) -> Result<(), Memory> {
    match content {
        Content::Character(c) => out.push(*c),
        Content::Start { kind, attributes } => show_start(out, "<", kind, attributes),
        Content::End => out.push('>'),
    }
}

/// The document as a word.
pub fn shown_document(alloc: Global, document: &Document) -> Result<String, Memory> {
    let mut out = String::new(alloc);
    for item in document.as_slice() {
        show_content(&mut out, &item.content)?;
        show_map(&mut out, false, &item.notes)?;
    }
    Ok(out)
}
