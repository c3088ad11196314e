// What an index answers, computed anew from histories.
use crate::drawn::MANIFEST;
use conversation::{Node, Part, read_manifest};
use delta_history::History;
use doc_items::{Content, Document, Memory};
use doc_op::{Component, DocOp};
use std::alloc::Global;
use wave_base::{Address, DocumentName};
use wave_index::Marks;
use wavelet_op::{AppliedDelta, WaveletOp};
use wavelet_state::WaveletState;

fn letter(content: &Content) -> Option<char> {
    match content {
        Content::Character(c) => {
            if c.is_ascii_digit() || c.is_ascii_alphabetic() || *c as u32 >= 128 {
                Some(*c)
            } else {
                None
            }
        }
        Content::Start { .. } => None,
        Content::End => None,
    }
}

/// The words of a document, one after the other, the empty one among them.
pub fn words_of(alloc: Global, document: &Document) -> Result<Vec<String>, Memory> {
    let mut words = Vec::new(alloc);
    let mut word = String::new(alloc);
    for item in document.as_slice() {
        match letter(&item.content) {
            Some(c) => word.push(c)?,
            None => {
                words.push(word)?;
                word = String::new(alloc);
            }
        }
    }
    words.push(word)?;
    Ok(words)
}

fn has_word(alloc: Global, document: &Document, word: &str) -> Result<bool, Memory> {
    for other in words_of(alloc, document)?.as_slice() {
        if other.as_str() == word {
            return Ok(!word.is_empty());
        }
    }
    Ok(false)
}

fn is_line(content: &Content) -> bool {
    match content {
        Content::Character(_) => false,
        Content::Start { kind, .. } => kind.as_str() == "line",
        Content::End => false,
    }
}

fn title(alloc: Global, document: &Document) -> Result<String, Memory> {
    let mut title = String::new(alloc);
    let mut count = 0u64;
    for item in document.as_slice() {
        if count == 80 || count > 0 && is_line(&item.content) {
            return Ok(title);
        }
        if let Content::Character(c) = &item.content {
            title.push(*c)?;
            count = count.wrapping_add(1);
        }
    }
    Ok(title)
}

fn does_more_than_retain(op: &DocOp) -> bool {
    for component in op.as_slice() {
        match component {
            Component::Retain(_) => {}
            _ => return true,
        }
    }
    false
}

fn changes(delta: &AppliedDelta, name: &str) -> bool {
    for op in delta.ops.as_slice() {
        if let WaveletOp::Mutate { document, op } = op {
            if document.text() == name && does_more_than_retain(op) {
                return true;
            }
        }
    }
    false
}

fn changed_version(history: &History, name: &str) -> u64 {
    let mut version = 0u64;
    let mut end = 0u64;
    for delta in history.deltas() {
        end = end.wrapping_add(delta.ops.len());
        if changes(delta, name) {
            version = end;
        }
    }
    version
}

fn document_of(
    alloc: Global,
    state: &WaveletState,
    name: &str,
) -> Result<Option<Document>, Memory> {
    match DocumentName::parse(alloc, name) {
        Ok(name) => state.document(alloc, &name),
        Err(_) => Ok(None),
    }
}

fn title_in(alloc: Global, state: &WaveletState, name: &str) -> Result<String, Memory> {
    match document_of(alloc, state, name)? {
        Some(document) => title(alloc, &document),
        None => Ok(String::new(alloc)),
    }
}

fn is_live(node: &Node) -> bool {
    node.part == Part::Blip { deleted: false }
}

fn first_title(alloc: Global, state: &WaveletState, nodes: &[Node]) -> Result<String, Memory> {
    for node in nodes {
        if is_live(node) {
            return title_in(alloc, state, node.id.as_str());
        }
    }
    Ok(String::new(alloc))
}

fn unread(alloc: Global, history: &History, nodes: &[Node], mark: u64) -> u64 {
    let mut count = 0u64;
    for node in nodes {
        let id = node.id.as_str();
        let is_name = DocumentName::parse(alloc, id).is_ok();
        if is_live(node) && is_name && changed_version(history, id) > mark {
            count = count.wrapping_add(1);
        }
    }
    count
}

fn put_line(alloc: Global, history: &History, mark: u64, out: &mut String) -> Result<(), Memory> {
    let manifest = match document_of(alloc, history.state(), MANIFEST)? {
        Some(manifest) => manifest,
        None => Document::new(alloc),
    };
    let threads = read_manifest(alloc, &manifest)?;
    let unread = unread(alloc, history, threads.as_slice(), mark);
    let title = first_title(alloc, history.state(), threads.as_slice())?;
    let name = history.name().text();
    let version = history.head().version;
    Ok(write!(
        out,
        "{name} version {version} unread {unread} title {title}; "
    )?)
}

/// The lines of an inbox over histories that stand in byte order of their names.
pub fn inbox(
    alloc: Global,
    histories: &[History],
    user: &Address,
    marks: &Marks,
) -> Result<String, Memory> {
    let mut out = String::new(alloc);
    for history in histories {
        if history.state().has(user) {
            put_line(alloc, history, marks.get(history.name()), &mut out)?;
        }
    }
    Ok(out)
}

fn put_hit(
    alloc: Global,
    history: &History,
    name: &DocumentName,
    word: &str,
    out: &mut String,
) -> Result<(), Memory> {
    let Some(document) = history.state().document(alloc, name)? else {
        return Ok(());
    };
    if name.text() != MANIFEST && has_word(alloc, &document, word)? {
        let wavelet = history.name().text();
        let name = name.text();
        write!(out, "{wavelet} {name}; ")?;
    }
    Ok(())
}

/// Where a word stands, over histories that stand in byte order of their names.
pub fn search(
    alloc: Global,
    histories: &[History],
    user: &Address,
    word: &str,
) -> Result<String, Memory> {
    let mut out = String::new(alloc);
    for history in histories {
        if history.state().has(user) {
            for name in history.state().document_names(alloc)?.as_slice() {
                put_hit(alloc, history, name, word, &mut out)?;
            }
        }
    }
    Ok(out)
}
