// The screen of a wavelet.
ghost use Rattle.std.specs.Prelude.{◌≡◌, ◌++◌, map, string_bytes, IfOk, OnOk};
ghost use Rattle.std.specs.FinMap.{keys};
ghost use Rattle.std.specs.List.{flat_map};
ghost use Rattle.std.specs.Option.{option_copied};
ghost use Rattle.wavelet_op.specs.States.{kept};
ghost use Rattle.conversation.specs.Edits.{is_blip, has};
ghost use Rattle.wave_screen.specs.Screen.{first_line, pending_mark, participant_text, participants_line, tree_of, named_items, blip_text, thread_mark, part_text, node_line, indent, is_apart, document_line, screen_text};

use crate::document::push_rope;
use crate::escape::push_text;
use conversation::{Node, Part, Threads, read_manifest};
use doc_items::Memory;
use doc_rope::Rope;
use itoa::Buffer;
use std::alloc::{AllocError, Global};
use wave_base::{Address, BaseFault, DocumentName, WaveletName};
use wavelet_op::Role;
use wavelet_state::WaveletState;

// The document of the manifest.
const MANIFEST: &str = "conversation";

fn pending_mark(pending: bool) -> &'static str
    ensures { result.now ≡ pending_mark pending }
{
    if pending { " pending" } else { " settled" }
}

// Appends the line with the name and the version.
fn push_first_line(
    out: &mut String,
    name: &WaveletName,
    version: u64,
    pending: bool,
) -> Result<(), Memory>
    ensures { OnOk result (string_bytes out.new ≡ string_bytes out.old ++ first_line name.now version pending) }
{
    let mut buffer = Buffer::new();
    out.push_str("wavelet ")?;
    out.push_str(name.text())?;
    out.push_str(" version ")?;
    out.push_str(buffer.format(version))?;
    out.push_str(pending_mark(pending))?;
    out.push_str("\n")
}

// ---- participants

fn push_participant(out: &mut String, state: &WaveletState, address: &Address) -> Result<(), Memory>
    ensures { OnOk result (string_bytes out.new ≡ string_bytes out.old ++ participant_text state.now address.now) }
{
    out.push_str(" ")?;
    out.push_str(address.text())?;
    match state.role(address) {
        Some(Role::ReadOnly) => out.push_str("=read"),
        Some(Role::Full) => Ok(()),
        None => Ok(()),
    }
}

fn push_addresses(
    out: &mut String,
    state: &WaveletState,
    addresses: &[&Address],
) -> Result<(), Memory>
    ensures { OnOk result (string_bytes out.new ≡ string_bytes out.old
        ++ flat_map (participant_text state.now) (map (λ a. a.now) addresses.now)) }
{
    for address in addresses {
        push_participant(out, state, address)?;
    }
    Ok(())
}

fn push_participants(alloc: Global, out: &mut String, state: &WaveletState) -> Result<(), Memory>
    ensures { OnOk result (string_bytes out.new ≡ string_bytes out.old ++ participants_line state.now) }
{
    let addresses = state.participants(alloc)?;
    out.push_str("participants")?;
    push_addresses(out, state, addresses.as_slice())?;
    out.push_str("\n")
}

// ---- documents

// The document of this name; None where the text is no name, and where the document is empty.
fn named_rope<'a>(
    alloc: Global,
    state: &'a WaveletState,
    id: &str,
) -> Result<Option<&'a Rope>, Memory>
    ensures { IfOk result (λ o. option_copied o ≡ kept (named_items state.entry.now id.now)) }
{
    match DocumentName::parse(alloc, id) {
        Ok(name) => Ok(state.rope(&name)),
        Err(BaseFault::Memory) => Err(AllocError),
        Err(_) => Ok(None),
    }
}

// The threads of the manifest.
fn threads_of(alloc: Global, state: &WaveletState) -> Result<Threads, Memory>
    ensures { IfOk result (λ t. t ≡ tree_of state.now) }
{
    match named_rope(alloc, state, MANIFEST)? {
        Some(manifest) => read_manifest(alloc, manifest),
        None => Ok(Threads::from_vec(Vec::new(alloc))),
    }
}

// ---- threads

fn push_indent(out: &mut String, depth: u64) -> Result<(), Memory>
    ensures { OnOk result (string_bytes out.new ≡ string_bytes out.old ++ indent depth) }
{
    for _ in 0..depth {
        out.push_str("  ")?;
    }
    Ok(())
}

fn push_blip(
    alloc: Global,
    out: &mut String,
    state: &WaveletState,
    id: &str,
    deleted: bool,
) -> Result<(), Memory>
    ensures { OnOk result (string_bytes out.new ≡ string_bytes out.old ++ blip_text state.now id.now deleted) }
{
    if deleted {
        return out.push_str("(deleted)");
    }
    let rope = named_rope(alloc, state, id)?;
    push_rope(alloc, out, rope)
}

fn thread_mark(inline: bool) -> &'static str
    ensures { result.now ≡ thread_mark inline }
{
    if inline { "inline " } else { "thread " }
}

fn push_part(
    alloc: Global,
    out: &mut String,
    state: &WaveletState,
    id: &str,
    part: Part,
) -> Result<(), Memory>
    ensures { OnOk result (string_bytes out.new ≡ string_bytes out.old ++ part_text state.now id.now part) }
{
    match part {
        Part::Blip { deleted } => {
            push_text(out, id)?;
            out.push_str(": ")?;
            push_blip(alloc, out, state, id, deleted)
        }
        Part::Thread { inline } => {
            out.push_str(thread_mark(inline))?;
            push_text(out, id)
        }
    }
}

fn push_node(
    alloc: Global,
    out: &mut String,
    state: &WaveletState,
    node: &Node,
) -> Result<(), Memory>
    ensures { OnOk result (string_bytes out.new ≡ string_bytes out.old ++ node_line state.now node.now) }
{
    push_indent(out, node.depth)?;
    push_part(alloc, out, state, node.id.as_str(), node.part)?;
    out.push_str("\n")
}

fn push_nodes(
    alloc: Global,
    out: &mut String,
    state: &WaveletState,
    nodes: &[Node],
) -> Result<(), Memory>
    ensures { OnOk result (string_bytes out.new ≡ string_bytes out.old ++ flat_map (node_line state.now) nodes.now) }
{
    for node in nodes {
        push_node(alloc, out, state, node)?;
    }
    Ok(())
}

// ---- the other documents

fn is_blip(node: &Node, name: &str) -> bool
    ensures { result ≡ is_blip name.now node.now }
{
    match node.part {
        Part::Blip { .. } => node.id.as_str() == name,
        Part::Thread { .. } => false,
    }
}

fn has_blip(nodes: &[Node], name: &str) -> bool
    ensures { result ≡ has (is_blip name.now) nodes.now }
{
    for node in nodes {
        if is_blip(node, name) {
            return true;
        }
    }
    false
}

fn push_other(
    alloc: Global,
    out: &mut String,
    state: &WaveletState,
    nodes: &[Node],
    name: &DocumentName,
) -> Result<(), Memory>
    ensures { OnOk result (string_bytes out.new ≡ string_bytes out.old ++ document_line state.now nodes.now name.now) }
{
    let text = name.text();
    if text == MANIFEST || has_blip(nodes, text) {
        return Ok(());
    }
    out.push_str("document ")?;
    out.push_str(text)?;
    out.push_str(": ")?;
    push_rope(alloc, out, state.rope(name))?;
    out.push_str("\n")
}

fn push_named(
    alloc: Global,
    out: &mut String,
    state: &WaveletState,
    nodes: &[Node],
    names: &[&DocumentName],
) -> Result<(), Memory>
    ensures { OnOk result (string_bytes out.new ≡ string_bytes out.old
        ++ flat_map (document_line state.now nodes.now) (map (λ n. n.now) names.now)) }
{
    for name in names {
        push_other(alloc, out, state, nodes, name)?;
    }
    Ok(())
}

fn push_others(
    alloc: Global,
    out: &mut String,
    state: &WaveletState,
    nodes: &[Node],
) -> Result<(), Memory>
    ensures { OnOk result (string_bytes out.new ≡ string_bytes out.old
        ++ flat_map (document_line state.now nodes.now) (keys state.now.documents)) }
{
    let names = state.document_names(alloc)?;
    push_named(alloc, out, state, nodes, names.as_slice())
}

/// Appends the screen of a wavelet at a state: its name with the version, and whether anything is pending; the participants; the
/// threads of the conversation, with the documents of their blips; and the documents that are no blip's. The error is want of memory.
pub fn write_screen(
    alloc: Global,
    name: &WaveletName,
    version: u64,
    pending: bool,
    state: &WaveletState,
    out: &mut String,
) -> Result<(), Memory>
    ensures { OnOk result (string_bytes out.new ≡ string_bytes out.old ++ screen_text name.now version pending state.now) }
{
    let threads = threads_of(alloc, state)?;
    push_first_line(out, name, version, pending)?;
    push_participants(alloc, out, state)?;
    push_nodes(alloc, out, state, threads.as_slice())?;
    push_others(alloc, out, state, threads.as_slice())
}
