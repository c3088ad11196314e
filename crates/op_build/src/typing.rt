// A text at a place.
ghost use Rattle.std.specs.Prelude.{◌≡◌, ◌+◌, ◌-◌, ◌≤◌, length, map, IfOk, IfErr, OnOk};
ghost use Rattle.std.specs.Str.{chars};
ghost use Rattle.doc_items.specs.Limits.{max_count};
ghost use Rattle.doc_items.specs.declared.item.Content.TheVariants.{Character};
ghost use Rattle.doc_op.specs.Actions.{insertion, actions};
ghost use Rattle.doc_op.specs.Normal.{normal_form};
ghost use Rattle.op_build.specs.Edits.{typed};
ghost use Rattle.op_build.specs.Plans.{around, typing, IsEdit};
ghost use Rattle.op_build.specs.Refusals.{CanInsert, IsInsertingRefused};

use crate::passage::{begun, ended};
use crate::place::{check_room, left_changes};
use crate::{BuildFault, Items};
use change_view::ChangeView;
use doc_items::{Memory, Text};
use doc_op::{ContentRun, DocOp};
use std::alloc::Global;

/// The operation that inserts the text's characters at a place, with the annotations of the item left of it, or none at place 0.
/// Refusals, in this order: `ZeroCount` where the text is empty, `OutOfRange` where the place is after the last item,
/// `CountTooLarge` where the items and the characters together exceed `MAX_COUNT`.
pub fn type_at<D: Items>(
    alloc: Global,
    document: &D,
    place: u64,
    text: &str,
) -> Result<DocOp, BuildFault>
    ensures edit { IfOk result (λ op. IsEdit op (typing (D.items document.now) place (chars text.now))
        (D.items document.now) (typed (D.items document.now) place (chars text.now))) }
    ensures can { OnOk result (CanInsert (D.items document.now) place (length (chars text.now))) }
    ensures refused { IfErr result (λ e. IsInsertingRefused e (D.items document.now) place (length (chars text.now))) }
{
    let text = characters(alloc, text)?;
    check_room(document, place, text.len() as u64)?;
    let notes = left_changes(alloc, document, place)?;
    let op = inserted_text(alloc, document.len(), place, text.as_slice(), &notes)?;
    Ok(op)
}

fn characters(alloc: Global, text: &str) -> Result<Vec<char>, Memory>
    ensures { IfOk result (λ v. v.items ≡ chars text.now) }
{
    let text = Text::from_str(alloc, text)?;
    text.to_chars(alloc)
}

// The operation that inserts the characters in a document of so many items.
fn inserted_text(
    alloc: Global,
    total: u64,
    place: u64,
    text: &[char],
    notes: &ChangeView<'_>,
) -> Result<DocOp, Memory>
    requires place { place ≤ total }
    requires room { total + length text.now ≤ max_count }
    ensures acts { IfOk result (λ op. actions op ≡ around place (map (insertion notes.now) (map Character text.now)) (total - place)) }
    ensures normal { IfOk result (λ op. op ≡ normal_form (actions op)) }
{
    let mut out = begun(alloc, place)?;
    out.insert(alloc, ContentRun::Characters(text), notes)?;
    ended(alloc, out, total - place)
}
