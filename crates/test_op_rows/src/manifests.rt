// Conversations as JSON: `manifest MANIFEST | CALL | ..`. The manifest is the operation that makes it. A call is an object whose member
// `call` has its name, beside the members that have its ids. The manifest is answered by its tree, and each call on it, after its name,
// by the operation and the tree after it, or by the number of the refusal and the id that it names.
ghost use Rattle.doc_items.specs.Balance.{Balanced};

use crate::fault::Fault;
use conversation::{
    ConversationFault, Id, Node, Part, continue_thread, delete_blip, inline_reply, read_manifest,
    reply_to,
};
use doc_items::{Document, Memory};
use doc_op::DocOp;
use op_json::{from_value, to_value};
use op_validity::apply;
use serde_json::Value;
use std::alloc::Global;
use test_row_words::{parts, put, put_command};

fn value_of(alloc: Global, text: &str) -> Result<Value, Fault> {
    match Value::from_str(alloc, text) {
        Ok(value) => Ok(value),
        Err(_) => Err(Fault::NotJson),
    }
}

fn operation_of(alloc: Global, text: &str) -> Result<DocOp, Fault> {
    let value = value_of(alloc, text)?;
    Ok(from_value(alloc, &value)?)
}

fn manifest_of(alloc: Global, text: &str) -> Result<Document, Fault> {
    let mut manifest = Document::new(alloc);
    apply(alloc, &operation_of(alloc, text)?, &mut manifest)?;
    Ok(manifest)
}

// The text in the member of this name; the empty one where none stands there.
fn text_at<'v>(call: &'v Value, name: &str) -> &'v str {
    match call.get(name) {
        Some(value) => value.as_str().unwrap_or(""),
        None => "",
    }
}

fn put_id(alloc: Global, id: &Id, out: &mut String) -> Result<(), Memory> {
    let text = Value::try_from_str(alloc, id.as_str())?.to_string(alloc)?;
    out.push_str(text.as_str())
}

// What a node has between its id and the nodes below it.
fn members(part: Part) -> &'static str {
    match part {
        Part::Blip { deleted: false } => ",\"deleted\":false,\"threads\":[",
        Part::Blip { deleted: true } => ",\"deleted\":true,\"threads\":[",
        Part::Thread { inline: false } => ",\"inline\":false,\"blips\":[",
        Part::Thread { inline: true } => ",\"inline\":true,\"blips\":[",
    }
}

fn put_start(alloc: Global, node: &Node, out: &mut String) -> Result<(), Memory> {
    out.push_str("{\"id\":")?;
    put_id(alloc, &node.id, out)?;
    out.push_str(members(node.part))
}

// Ends the nodes that are open from this depth on.
fn put_ends(depth: u64, open: u64, out: &mut String) -> Result<(), Memory> {
    for _ in depth..open {
        out.push_str("]}")?;
    }
    Ok(())
}

fn put_nodes(alloc: Global, nodes: &[Node], out: &mut String) -> Result<(), Memory> {
    let mut open = 0u64;
    for node in nodes {
        put_ends(node.depth, open, out)?;
        if node.depth < open {
            out.push(',')?;
        }
        put_start(alloc, node, out)?;
        open = node.depth.wrapping_add(1);
    }
    put_ends(0, open, out)
}

fn put_tree(alloc: Global, manifest: &Document, out: &mut String) -> Result<(), Memory> {
    let tree = read_manifest(alloc, manifest)?;
    out.push('[')?;
    put_nodes(alloc, tree.as_slice(), out)?;
    out.push(']')
}

fn made(alloc: Global, manifest: &Document, call: &Value) -> Result<DocOp, ConversationFault>
    requires { Balanced manifest.now }
{
    let blip = text_at(call, "blip");
    let thread = text_at(call, "thread");
    let new_blip = text_at(call, "new_blip");
    match text_at(call, "call") {
        "reply_to" => reply_to(alloc, manifest, blip, thread, new_blip),
        "inline_reply" => inline_reply(alloc, manifest, blip, thread, new_blip),
        "continue_thread" => continue_thread(alloc, manifest, thread, new_blip),
        _ => delete_blip(alloc, manifest, blip),
    }
}

fn put_refused(alloc: Global, number: u64, id: &Id, out: &mut String) -> Result<(), Fault> {
    out.push_str(" => {\"refused\":")?;
    write!(out, "{number}")?;
    out.push_str(",\"id\":")?;
    put_id(alloc, id, out)?;
    Ok(out.push('}')?)
}

fn put_refusal(alloc: Global, fault: &ConversationFault, out: &mut String) -> Result<(), Fault> {
    match fault {
        ConversationFault::NoBlip(id) => put_refused(alloc, 16, id, out),
        ConversationFault::TakenId(id) => put_refused(alloc, 20, id, out),
        ConversationFault::CountTooLarge => Ok(put(out, "CountTooLarge")?),
        ConversationFault::Memory => Err(Fault::Memory),
    }
}

fn put_operation(alloc: Global, op: &DocOp, out: &mut String) -> Result<(), Memory> {
    let text = to_value(alloc, op)?.to_string(alloc)?;
    out.push_str(text.as_str())
}

// The operation, and the tree after it.
fn put_edit(
    alloc: Global,
    op: &DocOp,
    manifest: &mut Document,
    out: &mut String,
) -> Result<(), Fault> {
    apply(alloc, op, manifest)?;
    out.push_str(" => {\"operation\":")?;
    put_operation(alloc, op, out)?;
    out.push_str(",\"tree\":")?;
    put_tree(alloc, manifest, out)?;
    Ok(out.push('}')?)
}

fn put_made(
    alloc: Global,
    call: &Value,
    manifest: &mut Document,
    out: &mut String,
) -> Result<(), Fault> {
    if !manifest.is_balanced() {
        return Err(Fault::Row);
    }
    match made(alloc, manifest, call) {
        Ok(op) => put_edit(alloc, &op, manifest, out),
        Err(fault) => put_refusal(alloc, &fault, out),
    }
}

fn put_call(
    alloc: Global,
    call: &Value,
    manifest: &Document,
    out: &mut String,
) -> Result<(), Fault> {
    put_command(out, text_at(call, "call"))?;
    put_made(alloc, call, &mut manifest.copy(alloc)?, out)
}

fn put_calls(
    alloc: Global,
    calls: &str,
    manifest: &Document,
    out: &mut String,
) -> Result<(), Fault> {
    for call in calls.split(" | ") {
        put_call(alloc, &value_of(alloc, call)?, manifest, out)?;
    }
    Ok(())
}

fn put_manifest(alloc: Global, rest: &str, out: &mut String) -> Result<(), Fault> {
    let (manifest, calls) = parts(rest);
    let manifest = manifest_of(alloc, manifest)?;
    out.push_str(" => ")?;
    put_tree(alloc, &manifest, out)?;
    put_calls(alloc, calls, &manifest, out)
}

/// The answer to `manifest`.
pub fn call(alloc: Global, verb: &str, rest: &str, out: &mut String) -> Result<bool, Fault> {
    if verb != "manifest" {
        return Ok(false);
    }
    put_manifest(alloc, rest, out)?;
    Ok(true)
}
