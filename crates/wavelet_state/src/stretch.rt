// What puts a document back as it was before an edit.
ghost use Rattle.std.specs.Prelude.{◌≡◌, ◌≢◌, ◌+◌, ◌^◌, ◌<◌, ◌≤◌, length, take, Some, None, OnOk, OnErr, IfOk, IfErr};
ghost use Rattle.doc_items.specs.Balance.{Balanced};
ghost use Rattle.doc_items.specs.Limits.{max_count};
ghost use Rattle.doc_op.specs.Apply.{valid};
ghost use Rattle.op_validity.specs.declared.fault.CheckFault.TheVariants as of_check;
ghost use Rattle.wavelet_state.specs.Stretches.{first_from, last_end, stretch, Restores};

use doc_items::{Item, Memory};
use doc_op::DocOp;
use doc_rope::{Insertion, Reader, Replacement, Rope};
use op_validity::{CheckFault, edits_of};
use std::alloc::Global;

/// Applies the operation to the document in pieces, and gives what puts the document back. Nothing is copied but the stretch from
/// the first place that changes to the last one. Refusals, `Memory` included, leave the document as it was.
pub(crate) fn edit(alloc: Global, op: &DocOp, rope: &mut Rope) -> Result<Replacement, CheckFault>
    ensures ok { OnOk result (valid op.now rope.old ≡ Some rope.new) }
    ensures back { IfOk result (λ back. Restores back rope.new rope.old) }
    ensures bound { OnOk result (length rope.old ≤ max_count) }
    ensures invalid { IfErr result (λ e. e ≢ of_check.Memory → valid op.now rope.old ≡ None) }
    ensures kept { OnErr result (rope.new ≡ rope.old) }
    ensures balance { OnOk result (Balanced rope.old → Balanced rope.new) }
{
    let edits = edits_of(alloc, op, rope)?;
    let before = rope.len();
    let list = edits.as_slice();
    let from = start(list);
    let stretch = end(list) - from;
    let items = copied(alloc, rope, from, stretch)?;
    rope.put_all(edits);
    let count = rope.len() + stretch - before;
    Ok(Replacement { from, count, items })
}

// The place where the first replacement begins.
fn start(edits: &[Replacement]) -> u64
    ensures { result ≡ first_from edits.now }
{
    match edits.first() {
        Some(edit) => edit.from,
        None => 0,
    }
}

// The place where the last replacement ends.
fn end(edits: &[Replacement]) -> u64
    requires { last_end 0 edits.now < 2 ^ 64 }
    ensures { result ≡ last_end 0 edits.now }
{
    match edits.last() {
        Some(edit) => edit.from + edit.count,
        None => 0,
    }
}

// The `count` items from a place on, which lie in the document, ready to be put into a document.
fn copied(alloc: Global, rope: &Rope, from: u64, count: u64) -> Result<Insertion, Memory>
    requires { from + count ≤ length rope.now }
    ensures { IfOk result (λ i. i ≡ stretch from count rope.now) }
{
    let mut reader = rope.reader();
    reader.skip(from);
    let items = next_items(alloc, reader, count)?;
    Insertion::new(alloc, items)
}

// Copies of the next `count` items, of which there are so many.
fn next_items(alloc: Global, reader: Reader<'_>, count: u64) -> Result<Vec<Item>, Memory>
    requires { count ≤ length reader }
    ensures { IfOk result (λ v. v.items ≡ take count reader.entry) }
{
    let mut reader = reader;
    let mut items = Vec::with_capacity(alloc, count as usize)?;
    for _ in 0..count {
        let Some(item) = reader.first() else {
            return Ok(items);
        };
        items.push(item.copy(alloc)?)?;
        reader.skip(1);
    }
    Ok(items)
}
