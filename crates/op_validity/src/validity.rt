ghost use Rattle.std.specs.Prelude.{◌≡◌, ◌≢◌, ◌≤◌, List, length, IsSome, None, Some, OnOk, OnErr, IfOk, IfErr};
ghost use Rattle.doc_items.specs.Balance.{Balanced};
ghost use Rattle.doc_items.specs.Limits.{max_count};
ghost use Rattle.doc_items.specs.Changes.{change_set};
ghost use Rattle.doc_op.specs.Apply.{apply as applied, valid};
ghost use Rattle.doc_items.specs.declared.item.Item.{Item};
ghost use Rattle.doc_op.specs.Actions.{actions, running_after};
ghost use Rattle.op_validity.specs.Refused.{IsRefused};
ghost use Rattle.op_validity.specs.Sources.{ahead};
ghost use Rattle.op_validity.specs.Walks.{IsPassable};

use crate::CheckFault;
use crate::rebuild::Rebuild;
use crate::source::Source;
use crate::walk::Walk;
use annotation_track::Track;
use doc_items::{Document, Item, Memory};
use doc_op::{Component, DocOp};
use std::alloc::Global;

/// Whether the operation is structured and applies to the document. Refusals, in this order: `NotStructured`, `Mismatch`,
/// `WrongLength`.
#[tactic(auto, using(crate::proofs::Refusals::refused_invalid))]
pub fn check(alloc: Global, op: &DocOp, document: &Document) -> Result<(), CheckFault>
    ensures ok { OnOk result (IsSome (valid op.now document.now)) }
    ensures refused { IfErr result (λ e. IsRefused e op.now document.now) }
    ensures invalid { IfErr result (λ e. e ≢ CheckFault.Memory → valid op.now document.now ≡ None) }
{
    match walk_over(alloc, op, Source::Plain(document.as_slice())) {
        Ok(()) => Ok(()),
        Err(fault) => Err(fault),
    }
}

/// `check` on the items of a document, in pieces or not.
pub(crate) fn walk_over(alloc: Global, op: &DocOp, items: Source<'_>) -> Result<(), CheckFault>
    requires { length (ahead items) ≤ max_count }
    ensures ok { OnOk result (IsSome (valid op.now (ahead items.entry))) }
    ensures refused { IfErr result (λ e. IsRefused e op.now (ahead items.entry)) }
{
    if let Some(place) = op.first_break() {
        return Err(CheckFault::NotStructured(place));
    }
    let mut walk = Walk {
        rest: items,
        place: 0,
    };
    let mut track = Track::new(alloc);
    for component in op.as_slice() {
        walk.step(alloc, track.running(), component)?;
        pass(alloc, &mut track, component)?;
    }
    if walk.rest.len() == 0 {
        Ok(())
    } else {
        Err(CheckFault::WrongLength)
    }
}

/// Applies the operation to the document. The refusals are those of `check`, and leave the document as it was. A balanced
/// document stays balanced.
pub fn apply(alloc: Global, op: &DocOp, document: &mut Document) -> Result<(), CheckFault>
    ensures ok { OnOk result (valid op.now document.old ≡ Some document.new) }
    ensures refused { IfErr result (λ e. IsRefused e op.now document.old) }
    ensures invalid { IfErr result (λ e. e ≢ CheckFault.Memory → valid op.now document.old ≡ None) }
    ensures kept { OnErr result (document.new ≡ document.old) }
    ensures balance { OnOk result (Balanced document.old → Balanced document.new) }
{
    check(alloc, op, document)?;
    let items = rebuilt(alloc, op, document)?;
    // There are as many items as the operation gives, which a document may have.
    let _length = op.output_len();
    *document = Document::from_vec(items);
    Ok(())
}

// The items of a document to which the operation applies, afterwards.
fn rebuilt(alloc: Global, op: &DocOp, document: &Document) -> Result<Vec<Item>, Memory>
    ensures { IfOk result (λ items. (out : List Item) → applied (actions op.now) document.now ≡ Some out → items.items ≡ out) }
{
    let mut build = Rebuild {
        rest: Source::Plain(document.as_slice()),
        items: Vec::with_capacity(alloc, op.output_len() as usize)?,
    };
    let mut track = Track::new(alloc);
    for component in op.as_slice() {
        build.step(alloc, track.running(), component)?;
        pass(alloc, &mut track, component)?;
    }
    Ok(build.items)
}

/// Goes past a component: at a boundary its ends stop, and its changes run.
pub(crate) fn pass(alloc: Global, track: &mut Track, component: &Component) -> Result<(), Memory>
    requires { IsPassable (change_set track.old) component.now }
    ensures { OnOk result (change_set track.new ≡ running_after (change_set track.old) component.now) }
{
    match component {
        Component::AnnotationBoundary(boundary) => {
            track.step(alloc, boundary)?;
            Ok(())
        }
        Component::Retain(_) => Ok(()),
        Component::Characters(_) => Ok(()),
        Component::ElementStart { .. } => Ok(()),
        Component::ElementEnd => Ok(()),
        Component::DeleteCharacters(_) => Ok(()),
        Component::DeleteElementStart { .. } => Ok(()),
        Component::DeleteElementEnd => Ok(()),
        Component::ReplaceAttributes { .. } => Ok(()),
        Component::UpdateAttributes(_) => Ok(()),
    }
}
