// The tree of a manifest.
ghost use Rattle.std.specs.Prelude.{◌≡◌, ◌++◌, ◌<◌, IfOk, OnOk, unwrap_or, codes, []};
ghost use Rattle.std.specs.FinMap.{get};
ghost use Rattle.conversation.specs.Trees.{node_at, shown, thread_tree};

use crate::reading::{Reading, part_at};
use crate::{Id, Node, Threads};
use doc_items::{Attributes, Content, Item, Memory};
use op_build::Items;
use std::alloc::Global;

// The node of this depth whose start has these attributes.
fn node_at(alloc: Global, depth: u64, attributes: &Attributes) -> Result<Node, Memory>
    ensures { IfOk result (λ n. n ≡ node_at depth attributes.now) }
{
    let part = part_at(depth, attributes);
    let id = Id::from_str(alloc, attributes.get("id").unwrap_or(""))?;
    Ok(Node { depth, part, id })
}

// Adds the node that the item adds to the tree.
fn show(alloc: Global, reading: &Reading, item: &Item, nodes: &mut Vec<Node>) -> Result<(), Memory>
    ensures { OnOk result (nodes.new.items ≡ nodes.old.items ++ shown reading.now item.now) }
{
    let Content::Start { kind, attributes } = &item.content else {
        return Ok(());
    };
    if reading.inside == 0 || !reading.enters(kind, attributes) {
        return Ok(());
    }
    nodes.push(node_at(alloc, reading.inside - 1, attributes)?)?;
    Ok(())
}

/// The tree of the conversation of a manifest: the first `conversation` at the top, with the blips and threads in their places. All
/// else is passed over with what is in it, and without a `conversation` there are none. The error is want of memory.
pub fn read_manifest<D: Items>(alloc: Global, manifest: &D) -> Result<Threads, Memory>
    ensures { IfOk result (λ t. t ≡ thread_tree (D.items manifest.now)) }
{
    let mut nodes = Vec::new(alloc);
    let mut reading = Reading::new();
    for place in 0..manifest.len() {
        let Some(item) = manifest.item(place) else {
            return Ok(Threads::from_vec(nodes));
        };
        show(alloc, &reading, item, &mut nodes)?;
        reading.pass(item);
    }
    Ok(Threads::from_vec(nodes))
}
