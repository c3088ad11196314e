ghost use Rattle.std.specs.Prelude.{◌≡◌, ◌≢◌, ◌≤◌, length, IsSome, None, OnOk, IfOk, IfErr};
ghost use Rattle.doc_items.specs.Limits.{max_count};
ghost use Rattle.doc_op.specs.Actions.{actions};
ghost use Rattle.doc_op.specs.Apply.{valid};
ghost use Rattle.doc_op.specs.Lengths.{input_len};
ghost use Rattle.doc_op.specs.Normal.{normal_form};
ghost use Rattle.op_validity.specs.Refused.{IsRefused};
ghost use Rattle.op_invert.specs.Inverse.{inverse, IsInverse};
ghost use Rattle.op_invert.specs.Walks.{items_of};

use crate::items::Items;
use crate::reversal::Reversal;
use change_table::Touched;
use doc_items::{Document, Memory};
use doc_op::{Cursor, DocOp};
use doc_rope::Rope;
use op_validity::{CheckFault, check, check_rope};
use std::alloc::Global;

/// The operation that undoes this one on what it makes of the document, in normal form: what is inserted is deleted, with all
/// its annotations named; what is kept is changed back; and what is deleted is inserted as it was. The refusals are those of
/// `check`.
pub fn invert(alloc: Global, op: &DocOp, document: &Document) -> Result<DocOp, CheckFault>
    ensures ok { IfOk result (λ undo. IsInverse op.now document.now undo) }
    ensures applies { OnOk result (IsSome (valid op.now document.now)) }
    ensures refused { IfErr result (λ e. IsRefused e op.now document.now) }
    ensures invalid { IfErr result (λ e. e ≢ CheckFault.Memory → valid op.now document.now ≡ None) }
{
    check(alloc, op, document)?;
    let undo = undo_over(alloc, op, Items::Plain(document.as_slice()))?;
    Ok(undo)
}

/// `invert` on a document in pieces, which is not copied: retained items aren't looked at, and those that are deleted are read
/// piece by piece.
pub fn invert_rope(alloc: Global, op: &DocOp, document: &Rope) -> Result<DocOp, CheckFault>
    ensures ok { IfOk result (λ undo. IsInverse op.now document.now undo) }
    ensures applies { OnOk result (IsSome (valid op.now document.now)) }
    ensures refused { IfErr result (λ e. IsRefused e op.now document.now) }
    ensures invalid { IfErr result (λ e. e ≢ CheckFault.Memory → valid op.now document.now ≡ None) }
{
    check_rope(alloc, op, document)?;
    let undo = undo_over(alloc, op, Items::Pieces(document))?;
    Ok(undo)
}

// The inverse of an operation that applies to the items.
fn undo_over(alloc: Global, op: &DocOp, items: Items<'_>) -> Result<DocOp, Memory>
    requires { input_len (actions op.now) ≡ length (items_of items) }
    ensures is { IfOk result (λ undo. actions undo ≡ inverse (actions op.now) (items_of items.entry)) }
    ensures normal { IfOk result (λ undo. undo ≡ normal_form (inverse (actions op.now) (items_of items.entry))) }
{
    // What an operation takes and gives, a document may have.
    let _input = op.input_len();
    let _output = op.output_len();
    let mut done = Reversal::new(alloc);
    let mut cursor = Cursor::new(alloc, op)?;
    'walk: loop {
        let count = done.undo(alloc, items, &cursor)?;
        if count == 0 {
            let undo = done.finish(alloc)?;
            return Ok(undo);
        }
        cursor.skip(alloc, count, &mut Touched::any())?;
    }
}
