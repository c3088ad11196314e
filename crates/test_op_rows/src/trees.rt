// Conversations: manifests as trees, and their edits.
ghost use Rattle.doc_items.specs.Balance.{Balanced};

use crate::documents::document;
use crate::fault::Fault;
use conversation::{
    ConversationFault, Part, Threads, continue_thread, delete_blip, inline_reply, read_manifest,
    reply_to,
};
use doc_items::{Attributes, Content, Document, Item, Notes, Text};
use doc_op::DocOp;
use op_validity::apply;
use std::alloc::Global;
use test_op_words::shown;
use test_row_words::{number, parts, put, put_number};

fn letter(part: Part) -> &'static str {
    match part {
        Part::Blip { deleted: false } => "b",
        Part::Blip { deleted: true } => "x",
        Part::Thread { inline: false } => "t",
        Part::Thread { inline: true } => "i",
    }
}

fn put_nodes(threads: &Threads, out: &mut String) -> Result<(), Fault> {
    out.push_str(" =>")?;
    for node in threads.as_slice() {
        let depth = node.depth;
        write!(out, " {depth}")?;
        out.push_str(letter(node.part))?;
        out.push(' ')?;
        out.push_str(node.id.as_str())?;
        out.push(';')?;
    }
    Ok(())
}

fn put_tree(alloc: Global, manifest: &Document, out: &mut String) -> Result<(), Fault> {
    let tree = read_manifest(alloc, manifest)?;
    put_nodes(&tree, out)
}

// `BLIP | THREAD | NEW`, of which some have fewer.
fn made(
    alloc: Global,
    manifest: &Document,
    verb: &str,
    ids: &str,
) -> Result<DocOp, ConversationFault>
    requires { Balanced manifest.now }
{
    let (first, more) = parts(ids);
    let (second, third) = parts(more);
    match verb {
        "reply" => reply_to(alloc, manifest, first, second, third),
        "inline" => inline_reply(alloc, manifest, first, second, third),
        "continue" => continue_thread(alloc, manifest, first, second),
        _ => delete_blip(alloc, manifest, first),
    }
}

fn put_refusal(fault: &ConversationFault, out: &mut String) -> Result<(), Fault> {
    match fault {
        ConversationFault::NoBlip(id) => {
            put(out, "NoBlip ")?;
            Ok(out.push_str(id.as_str())?)
        }
        ConversationFault::TakenId(id) => {
            put(out, "TakenId ")?;
            Ok(out.push_str(id.as_str())?)
        }
        ConversationFault::CountTooLarge => Ok(put(out, "CountTooLarge")?),
        ConversationFault::Memory => Ok(put(out, "Memory")?),
    }
}

// The operation, and the tree after it.
fn put_after(
    alloc: Global,
    op: &DocOp,
    manifest: &mut Document,
    out: &mut String,
) -> Result<(), Fault> {
    let words = shown(alloc, op)?;
    put(out, words.as_str())?;
    apply(alloc, op, manifest)?;
    put_tree(alloc, manifest, out)
}

fn put_edit_in(
    alloc: Global,
    verb: &str,
    ids: &str,
    manifest: &mut Document,
    out: &mut String,
) -> Result<(), Fault> {
    if !manifest.is_balanced() {
        return Err(Fault::Row);
    }
    match made(alloc, manifest, verb, ids) {
        Ok(op) => put_after(alloc, &op, manifest, out),
        Err(fault) => put_refusal(&fault, out),
    }
}

fn put_edit(alloc: Global, verb: &str, rest: &str, out: &mut String) -> Result<(), Fault> {
    let (manifest, ids) = parts(rest);
    let mut manifest = document(alloc, manifest)?;
    put_edit_in(alloc, verb, ids, &mut manifest, out)
}

fn start(alloc: Global, kind: &str) -> Result<Content, Fault> {
    let mut attributes = Attributes::new(alloc);
    attributes.set(alloc, "id", Some("i"))?;
    Ok(Content::Start {
        kind: Text::from_str(alloc, kind)?,
        attributes,
    })
}

fn push(alloc: Global, document: &mut Document, content: Content) -> Result<(), Fault> {
    if document.len() > 1_000_000 {
        return Err(Fault::Row);
    }
    let notes = Notes::new(alloc);
    Ok(document.push(Item { content, notes })?)
}

fn deepen(alloc: Global, document: &mut Document, depth: u64) -> Result<(), Fault> {
    push(alloc, document, start(alloc, "conversation")?)?;
    for level in 0..depth {
        let kind = if level % 2 == 0 { "blip" } else { "thread" };
        push(alloc, document, start(alloc, kind)?)?;
    }
    for _ in 0..depth {
        push(alloc, document, Content::End)?;
    }
    Ok(())
}

// The number of nodes of a manifest that is as deep as it is long.
fn put_deep(alloc: Global, rest: &str, out: &mut String) -> Result<(), Fault> {
    let mut document = Document::new(alloc);
    deepen(alloc, &mut document, number(rest))?;
    let tree = read_manifest(alloc, &document)?;
    Ok(put_number(out, tree.as_slice().len() as u64)?)
}

/// The answers to `deep`, `reply`, `inline`, `continue` and `delete`.
pub fn call(alloc: Global, verb: &str, rest: &str, out: &mut String) -> Result<bool, Fault> {
    match verb {
        "deep" => put_deep(alloc, rest, out)?,
        "reply" | "inline" | "continue" | "delete" => put_edit(alloc, verb, rest, out)?,
        _ => return Ok(false),
    }
    Ok(true)
}
