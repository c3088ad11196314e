// A range that is erased.
ghost use Rattle.std.specs.Prelude.{◌≡◌, ◌+◌, ◌-◌, ◌<◌, ◌≤◌, ◌++◌, ◌∷◌, ◌↔◌, [], length, map, IfOk, IfErr, IfSome, IfNone, OnOk, IsTrue};
ghost use Rattle.std.specs.FinMap.{empty};
ghost use Rattle.doc_items.specs.Balance.{level, Closes, Balanced};
ghost use Rattle.doc_items.specs.Limits.{max_count};
ghost use Rattle.doc_op.specs.Actions.{Del, actions};
ghost use Rattle.doc_op.specs.Lengths.{input_len, output_len};
ghost use Rattle.doc_op.specs.Normal.{normal_form};
ghost use Rattle.op_build.specs.Edits.{range, erased};
ghost use Rattle.op_build.specs.Plans.{erase_one, erasing, IsEdit};
ghost use Rattle.op_build.specs.Refusals.{CanErase, IsErasingRefused};

use crate::passage::{begun, ended};
use crate::place::{check_range, first_of};
use crate::{BuildFault, Items};
use change_view::ChangeView;
use doc_items::{Content, Memory};
use doc_op::{ContentRun, DocOp, NormalBuilder};
use std::alloc::Global;

/// The operation that deletes `count` items from a place on. It names no annotations. Refusals, in this order: `ZeroCount` where
/// the count is 0, `OutOfRange` where the range isn't in the document, `CutsElement` where it isn't balanced by itself.
pub fn erase<D: Items>(
    alloc: Global,
    document: &D,
    from: u64,
    count: u64,
) -> Result<DocOp, BuildFault>
    ensures edit { IfOk result (λ op. IsEdit op (erasing (D.items document.now) from count)
        (D.items document.now) (erased (D.items document.now) from count)) }
    ensures can { OnOk result (CanErase (D.items document.now) from count) }
    ensures refused { IfErr result (λ e. IsErasingRefused e (D.items document.now) from count) }
{
    check_range(document, from, count)?;
    if !is_balanced(document, from, count) {
        return Err(BuildFault::CutsElement);
    }
    let op = without_range(alloc, document, from, count)?;
    Ok(op)
}

// Whether the range is balanced by itself.
fn is_balanced<D: Items>(document: &D, from: u64, count: u64) -> bool
    requires inside { from + count ≤ length (D.items document.now) }
    ensures { IsTrue result ↔ Balanced (range (D.items document.now) from count) }
{
    // A range lies in the document, so its places are below the greatest count.
    let _length = document.len();
    let mut depth: u64 = 0;
    let mut place = from;
    let mut left = count;
    while left > 0 {
        let item = first_of(document, place, left);
        let Some(behind) = depth_after(depth, &item.content) else {
            return false;
        };
        depth = behind;
        place += 1;
        left -= 1;
    }
    depth == 0
}

// The depth after a content; None where it ends an element and none is open.
fn depth_after(depth: u64, content: &Content) -> Option<u64>
    requires { depth < max_count }
    ensures some { IfSome result (λ behind. Closes content.now depth × (behind ≡ level content.now depth)) }
    ensures none { IfNone result (Closes content.now depth → ⊥) }
{
    match content {
        Content::Character(_) => Some(depth),
        Content::Start { .. } => Some(depth + 1),
        Content::End => depth.checked_sub(1),
    }
}

// The operation that deletes the range.
fn without_range<D: Items>(
    alloc: Global,
    document: &D,
    from: u64,
    count: u64,
) -> Result<DocOp, Memory>
    requires inside { from + count ≤ length (D.items document.now) }
    ensures acts { IfOk result (λ op. actions op ≡ erasing (D.items document.now) from count) }
    ensures normal { IfOk result (λ op. op ≡ normal_form (actions op)) }
{
    let length = document.len();
    let mut out = begun(alloc, from)?;
    erase_items(alloc, &mut out, document, from, count)?;
    ended(alloc, out, length - (from + count))
}

// Deletes the items of the range.
fn erase_items<D: Items>(
    alloc: Global,
    out: &mut NormalBuilder,
    document: &D,
    from: u64,
    count: u64,
) -> Result<(), Memory>
    requires inside { from + count ≤ length (D.items document.now) }
    requires room { input_len out.old + count ≤ max_count }
    ensures { OnOk result (out.new ≡ out.old ++ map erase_one (range (D.items document.now) from count)) }
{
    // For the proof: it has no more items than a document may.
    let _length = document.len();
    let mut place = from;
    let mut left = count;
    while left > 0 {
        let item = first_of(document, place, left);
        erase_content(alloc, out, &item.content)?;
        place += 1;
        left -= 1;
    }
    Ok(())
}

fn erase_content(alloc: Global, out: &mut NormalBuilder, content: &Content) -> Result<(), Memory>
    requires { input_len out.old + 1 ≤ max_count }
    ensures { OnOk result (out.new ≡ out.old ++ Del content.now empty ∷ []) }
{
    let none = ChangeView::empty(alloc);
    match content {
        Content::Character(c) => {
            let one = [*c];
            out.delete(alloc, ContentRun::Characters(&one), &none)
        }
        Content::Start { kind, attributes } => out.delete(
            alloc,
            ContentRun::Start { kind, attributes },
            &none,
        ),
        Content::End => out.delete(alloc, ContentRun::End, &none),
    }
}
