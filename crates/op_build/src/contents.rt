// Contents at a place, without annotations.
ghost use Rattle.std.specs.Prelude.{◌≡◌, ◌+◌, ◌-◌, ◌≤◌, ◌∷◌, [], ◌++◌, length, map, IfOk, IfErr, OnOk};
ghost use Rattle.doc_items.specs.Balance.{Balanced};
ghost use Rattle.doc_items.specs.Changes.{none_running};
ghost use Rattle.doc_items.specs.Limits.{max_count};
ghost use Rattle.doc_op.specs.Actions.{insertion, actions};
ghost use Rattle.doc_op.specs.Lengths.{output_len};
ghost use Rattle.doc_op.specs.Normal.{normal_form};
ghost use Rattle.op_build.specs.Edits.{bare, with_contents};
ghost use Rattle.op_build.specs.Plans.{around, adding_contents, IsEdit};
ghost use Rattle.op_build.specs.Refusals.{CanInsert, IsInsertingRefused};

use crate::passage::{begun, ended};
use crate::place::check_room;
use crate::{BuildFault, Items};
use change_view::ChangeView;
use doc_items::{Content, Memory};
use doc_op::{ContentRun, DocOp, NormalBuilder};
use std::alloc::Global;

/// The operation that inserts items of these contents at a place, without annotations. Their elements must be whole. Refusals, in
/// this order: `ZeroCount` where there are none, `OutOfRange` where the place is after the last item, `CountTooLarge` where the items
/// and these together exceed `MAX_COUNT`.
pub fn insert_contents<D: Items>(
    alloc: Global,
    document: &D,
    place: u64,
    contents: &[Content],
) -> Result<DocOp, BuildFault>
    requires { Balanced (bare contents.now) }
    ensures edit { IfOk result (λ op. IsEdit op (adding_contents (D.items document.now) place contents.now)
        (D.items document.now) (with_contents (D.items document.now) place contents.now)) }
    ensures can { OnOk result (CanInsert (D.items document.now) place (length contents.now)) }
    ensures refused { IfErr result (λ e. IsInsertingRefused e (D.items document.now) place (length contents.now)) }
{
    check_room(document, place, contents.len() as u64)?;
    let op = inserted_contents(alloc, document.len(), place, contents)?;
    Ok(op)
}

// One content more is inserted.
fn insert_one(alloc: Global, out: &mut NormalBuilder, content: &Content) -> Result<(), Memory>
    requires { output_len out.old + 1 ≤ max_count }
    ensures { OnOk result (out.new ≡ out.old ++ map (insertion none_running) (content.now ∷ [])) }
{
    let none = ChangeView::empty(alloc);
    match content {
        Content::Character(character) => {
            let characters = [*character];
            out.insert(alloc, ContentRun::Characters(&characters), &none)
        }
        Content::Start { kind, attributes } => {
            out.insert(alloc, ContentRun::Start { kind, attributes }, &none)
        }
        Content::End => out.insert(alloc, ContentRun::End, &none),
    }
}

// The operation that inserts the contents in a document of so many items.
fn inserted_contents(
    alloc: Global,
    total: u64,
    place: u64,
    contents: &[Content],
) -> Result<DocOp, Memory>
    requires place { place ≤ total }
    requires room { total + length contents.now ≤ max_count }
    ensures acts { IfOk result (λ op. actions op ≡ around place (map (insertion none_running) contents.now) (total - place)) }
    ensures normal { IfOk result (λ op. op ≡ normal_form (actions op)) }
{
    let mut out = begun(alloc, place)?;
    for content in contents {
        insert_one(alloc, &mut out, content)?;
    }
    ended(alloc, out, total - place)
}
