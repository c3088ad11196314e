// An annotation on a range.
ghost use Rattle.std.specs.Prelude.{◌≡◌, ◌+◌, ◌≤◌, ◌++◌, ◌∷◌, [], length, map, IfOk, IfErr, OnOk};
ghost use Rattle.std.specs.Option.{option_copied};
ghost use Rattle.doc_items.specs.Limits.{max_count};
ghost use Rattle.doc_op.specs.Actions.{actions};
ghost use Rattle.doc_op.specs.Lengths.{input_len, output_len};
ghost use Rattle.doc_op.specs.Normal.{normal_form};
ghost use Rattle.op_build.specs.Edits.{range, annotated};
ghost use Rattle.op_build.specs.Plans.{annotate_one, annotating, IsEdit};
ghost use Rattle.op_build.specs.Refusals.{CanAnnotate, IsAnnotatingRefused};

use crate::one_change::one_change;
use crate::passage::{begun, ended};
use crate::place::{check_range, first_of};
use crate::{BuildFault, Items};
use change_view::ChangeView;
use doc_items::{Item, Memory};
use doc_op::{DocOp, NormalBuilder};
use std::alloc::Global;

/// The operation that sets an annotation of `count` items from a place on, or takes it away. It names each item's old value, and
/// changes also those that have the value already. Refusals, in this order: `ZeroCount` where the count is 0, `OutOfRange` where
/// the range isn't in the document.
pub fn annotate<D: Items>(
    alloc: Global,
    document: &D,
    from: u64,
    count: u64,
    key: &str,
    value: Option<&str>,
) -> Result<DocOp, BuildFault>
    ensures edit { IfOk result (λ op. IsEdit op (annotating (D.items document.now) from count key.now (option_copied value.entry))
        (D.items document.now) (annotated (D.items document.now) from count key.now (option_copied value.entry))) }
    ensures can { OnOk result (CanAnnotate (D.items document.now) from count) }
    ensures refused { IfErr result (λ e. IsAnnotatingRefused e (D.items document.now) from count) }
{
    check_range(document, from, count)?;
    let op = annotated_range(alloc, document, from, count, key, value)?;
    Ok(op)
}

// The operation that annotates the range.
fn annotated_range<D: Items>(
    alloc: Global,
    document: &D,
    from: u64,
    count: u64,
    key: &str,
    value: Option<&str>,
) -> Result<DocOp, Memory>
    requires inside { from + count ≤ length (D.items document.now) }
    ensures acts { IfOk result (λ op. actions op ≡ annotating (D.items document.now) from count key.now (option_copied value.entry)) }
    ensures normal { IfOk result (λ op. op ≡ normal_form (actions op)) }
{
    let length = document.len();
    let mut out = begun(alloc, from)?;
    annotate_items(alloc, &mut out, document, from, count, key, value)?;
    ended(alloc, out, length - (from + count))
}

// Annotates the items of the range.
fn annotate_items<D: Items>(
    alloc: Global,
    out: &mut NormalBuilder,
    document: &D,
    from: u64,
    count: u64,
    key: &str,
    value: Option<&str>,
) -> Result<(), Memory>
    requires inside { from + count ≤ length (D.items document.now) }
    requires input { input_len out.old + count ≤ max_count }
    requires output { output_len out.old + count ≤ max_count }
    ensures { OnOk result (out.new ≡ out.old
        ++ map (annotate_one key.now (option_copied value.entry)) (range (D.items document.now) from count)) }
{
    // For the proof: it has no more items than a document may.
    let _length = document.len();
    let mut place = from;
    let mut left = count;
    while left > 0 {
        let item = first_of(document, place, left);
        annotate_item(alloc, out, item, key, value)?;
        place += 1;
        left -= 1;
    }
    Ok(())
}

fn annotate_item(
    alloc: Global,
    out: &mut NormalBuilder,
    item: &Item,
    key: &str,
    value: Option<&str>,
) -> Result<(), Memory>
    requires input { input_len out.old + 1 ≤ max_count }
    requires output { output_len out.old + 1 ≤ max_count }
    ensures { OnOk result (out.new ≡ out.old ++ annotate_one key.now (option_copied value.entry) item.now ∷ []) }
{
    let changes = one_change(alloc, key, item.notes.get(key), value)?;
    let view = ChangeView::of(alloc, &changes)?;
    out.keep(alloc, 1, &view)?;
    Ok(())
}
