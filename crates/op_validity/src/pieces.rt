ghost use Rattle.std.specs.Prelude.{◌≡◌, ◌≢◌, ◌≤◌, List, length, IsSome, None, Some, OnOk, OnErr, IfOk, IfErr};
ghost use Rattle.doc_items.specs.Balance.{Balanced};
ghost use Rattle.doc_items.specs.Limits.{max_count};
ghost use Rattle.doc_items.specs.declared.item.Item.{Item};
ghost use Rattle.doc_op.specs.Actions.{actions};
ghost use Rattle.doc_op.specs.Apply.{apply as applied, valid};
ghost use Rattle.doc_rope.specs.Replacements.{all_replaced, InOrder};
ghost use Rattle.op_validity.specs.Refused.{IsRefused};

use crate::CheckFault;
use crate::edits::Edits;
use crate::source::Source;
use crate::validity::{pass, walk_over};
use annotation_track::Track;
use doc_items::Memory;
use doc_op::DocOp;
use doc_rope::{Replacement, Rope};
use std::alloc::Global;

/// Whether the operation is structured and applies to the document in pieces. Refusals, in this order: `NotStructured`,
/// `Mismatch`, `WrongLength`. Retained items over which no changes run aren't looked at.
#[tactic(auto, using(crate::proofs::Refusals::refused_invalid))]
pub fn check_rope(alloc: Global, op: &DocOp, rope: &Rope) -> Result<(), CheckFault>
    ensures ok { OnOk result (IsSome (valid op.now rope.now)) }
    ensures refused { IfErr result (λ e. IsRefused e op.now rope.now) }
    ensures invalid { IfErr result (λ e. e ≢ CheckFault.Memory → valid op.now rope.now ≡ None) }
{
    // A rope has as many items as a document may have.
    let _length = rope.len();
    match walk_over(alloc, op, Source::Pieces(rope.reader())) {
        Ok(()) => Ok(()),
        Err(fault) => Err(fault),
    }
}

/// What has to be replaced in a document in pieces so that it becomes what the operation makes of it. The refusals are those of
/// `check_rope`. All the memory that this takes is taken here: `put_all` puts the replacements in and can't fail.
pub fn edits_of(alloc: Global, op: &DocOp, rope: &Rope) -> Result<Vec<Replacement>, CheckFault>
    ensures ok { IfOk result (λ rs. valid op.now rope.now ≡ Some (all_replaced rs.items rope.now)) }
    ensures order { IfOk result (λ rs. InOrder 0 rs.items (length rope.now)) }
    ensures bound { IfOk result (λ rs. length (all_replaced rs.items rope.now) ≤ max_count) }
    ensures refused { IfErr result (λ e. IsRefused e op.now rope.now) }
    ensures invalid { IfErr result (λ e. e ≢ CheckFault.Memory → valid op.now rope.now ≡ None) }
    ensures balance { IfOk result (λ rs. Balanced rope.now → Balanced (all_replaced rs.items rope.now)) }
{
    check_rope(alloc, op, rope)?;
    // There are as many items as the operation gives, which a document may have.
    let _length = op.output_len();
    let replacements = replacements(alloc, op, rope)?;
    Ok(replacements)
}

/// Applies the operation to the document in pieces. The refusals are those of `check_rope`, and leave the rope as it was. A
/// balanced document stays balanced. All memory is taken before a piece changes.
pub fn apply_rope(alloc: Global, op: &DocOp, rope: &mut Rope) -> Result<(), CheckFault>
    ensures ok { OnOk result (valid op.now rope.old ≡ Some rope.new) }
    ensures refused { IfErr result (λ e. IsRefused e op.now rope.old) }
    ensures invalid { IfErr result (λ e. e ≢ CheckFault.Memory → valid op.now rope.old ≡ None) }
    ensures kept { OnErr result (rope.new ≡ rope.old) }
    ensures balance { OnOk result (Balanced rope.old → Balanced rope.new) }
{
    let replacements = edits_of(alloc, op, rope)?;
    rope.put_all(replacements);
    Ok(())
}

// What has to be replaced in a document in pieces to which the operation applies.
fn replacements(alloc: Global, op: &DocOp, rope: &Rope) -> Result<Vec<Replacement>, Memory>
    ensures order { IfOk result (λ rs. InOrder 0 rs.items (length rope.now)) }
    ensures value { IfOk result
        (λ rs. (out : List Item) → applied (actions op.now) rope.now ≡ Some out → all_replaced rs.items rope.now ≡ out) }
{
    let mut edits = Edits::new(alloc, rope);
    let mut track = Track::new(alloc);
    for component in op.as_slice() {
        edits.step(alloc, track.running(), component)?;
        pass(alloc, &mut track, component)?;
    }
    edits.finish(alloc)
}
