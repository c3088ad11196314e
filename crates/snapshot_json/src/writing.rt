// A state, written.
ghost use Rattle.std.specs.Prelude.{◌≡◌, ◌≤◌, ◌+◌, ◌++◌, ◌∷◌, [], map, length, IfOk, OnOk, IsSome};
ghost use Rattle.std.specs.List.{All};
ghost use Rattle.std.specs.FinMap.{keys};
ghost use Rattle.serde_json.specs.View.{view};
ghost use Rattle.doc_items.specs.Limits.{max_count};
ghost use Rattle.doc_items.specs.Balance.{Balanced};
ghost use Rattle.doc_op.specs.Actions.{Ins, actions};
ghost use Rattle.doc_op.specs.Lengths.{output_len};
ghost use Rattle.wavelet_op.specs.States.{document_of, kept};
ghost use Rattle.snapshot_json.specs.Back.{IsMemberBack, IsDocumentBack, AreMembersBack, AreDocumentsBack};
ghost use Rattle.snapshot_json.specs.Write.{insertion_of, member_data, document_data, members_data, documents_data};

use change_view::ChangeView;
use doc_items::{Content, Item, Memory};
use doc_op::{ContentRun, DocOp, NormalBuilder};
use doc_rope::Rope;
use json_fields::string_value;
use op_json::to_value;
use serde_json::{Value, json};
use std::alloc::Global;
use wave_base::{Address, DocumentName};
use wavelet_json::role_value;
use wavelet_op::Role;
use wavelet_state::WaveletState;

// ---- operations that make documents

// Puts an item after what was inserted.
#[tactic(auto, using(crate::proofs::Insertions::item_added))]
fn insert_item(alloc: Global, out: &mut NormalBuilder, item: &Item) -> Result<(), Memory>
    requires { output_len out.old + 1 ≤ max_count }
    ensures { OnOk result (out.new ≡ out.old ++ Ins item.now ∷ []) }
{
    let notes = ChangeView::of_map(alloc, &item.notes)?;
    match &item.content {
        Content::Character(c) => {
            let one = [*c];
            out.insert(alloc, ContentRun::Characters(&one), &notes)?;
            Ok(())
        }
        Content::Start { kind, attributes } => {
            out.insert(alloc, ContentRun::Start { kind, attributes }, &notes)?;
            Ok(())
        }
        Content::End => {
            out.insert(alloc, ContentRun::End, &notes)?;
            Ok(())
        }
    }
}

// Puts the items of a document after what was inserted.
fn insert_all(alloc: Global, out: &mut NormalBuilder, rope: &Rope) -> Result<(), Memory>
    requires { out.old ≡ [] }
    ensures { OnOk result (out.new ≡ map Ins rope.now) }
{
    // For the proof: the rope has no more items than a document may.
    let _whole = rope.len();
    let mut reader = rope.reader();
    while reader.len() > 0 {
        let Some(item) = reader.first() else {
            return Ok(());
        };
        insert_item(alloc, out, item)?;
        reader.skip(1);
    }
    Ok(())
}

// The operation that makes the document of the empty one.
fn insertion_of(alloc: Global, rope: &Rope) -> Result<DocOp, Memory>
    ensures value { IfOk result (λ op. op ≡ insertion_of rope.now) }
    ensures actions { IfOk result (λ op. actions op ≡ map Ins rope.now) }
{
    let mut out = NormalBuilder::new(alloc);
    insert_all(alloc, &mut out, rope)?;
    out.finish(alloc)
}

// ---- participants

#[tactic(auto, using(crate::proofs::Back::member_back))]
fn member_value(alloc: Global, state: &WaveletState, address: &Address) -> Result<Value, Memory>
    ensures value { IfOk result (λ v. view v ≡ member_data state.now address.now) }
    ensures back { IfOk result (λ _. IsMemberBack state.now address.now) }
{
    let role = state.role(address).unwrap_or(Role::Full);
    let role = role_value(alloc, role)?;
    let address = string_value(alloc, address.text())?;
    json!(in alloc; {"address": address, "role": role})
}

fn member_list(alloc: Global, state: &WaveletState) -> Result<Vec<Value>, Memory>
    ensures value { IfOk result (λ list. map view list.items ≡ map (member_data state.now) (keys state.now.roles)) }
    ensures back { IfOk result (λ _. All (IsMemberBack state.now) (keys state.now.roles)) }
{
    let mut list = Vec::new(alloc);
    let members = state.participants(alloc)?;
    for address in members.as_slice() {
        list.push(member_value(alloc, state, address)?)?;
    }
    Ok(list)
}

/// The participants in byte order, each with its role; they are read back. The error is want of memory, here and below.
#[tactic(auto, using(crate::proofs::Back::members_back))]
pub fn members_value(alloc: Global, state: &WaveletState) -> Result<Value, Memory>
    ensures value { IfOk result (λ v. view v ≡ members_data state.now) }
    ensures back { IfOk result (λ _. AreMembersBack state.now) }
{
    Ok(Value::Array(member_list(alloc, state)?))
}

// ---- documents

// The operation that makes a document; one that isn't there is empty.
fn document_op(alloc: Global, state: &WaveletState, name: &DocumentName) -> Result<DocOp, Memory>
    ensures value { IfOk result (λ op. op ≡ insertion_of (document_of state.now name.now)) }
    ensures actions { IfOk result (λ op. actions op ≡ map Ins (document_of state.now name.now)) }
    ensures balanced { Balanced (document_of state.now name.now) }
{
    match state.rope(name) {
        Some(rope) => insertion_of(alloc, rope),
        None => NormalBuilder::new(alloc).finish(alloc),
    }
}

#[tactic(auto, using(crate::proofs::Back::document_back))]
fn document_value(alloc: Global, state: &WaveletState, name: &DocumentName) -> Result<Value, Memory>
    requires { IsSome (kept (document_of state.now name.now)) }
    ensures value { IfOk result (λ v. view v ≡ document_data state.now name.now) }
    ensures back { IfOk result (λ _. IsDocumentBack state.now name.now) }
{
    let operation = document_op(alloc, state, name)?;
    let operation = to_value(alloc, &operation)?;
    let name = string_value(alloc, name.text())?;
    json!(in alloc; {"name": name, "operation": operation})
}

fn document_list(alloc: Global, state: &WaveletState) -> Result<Vec<Value>, Memory>
    ensures value { IfOk result (λ list. map view list.items ≡ map (document_data state.now) (keys state.now.documents)) }
    ensures back { IfOk result (λ _. All (IsDocumentBack state.now) (keys state.now.documents)) }
{
    let mut list = Vec::new(alloc);
    let names = state.document_names(alloc)?;
    for name in names.as_slice() {
        list.push(document_value(alloc, state, name)?)?;
    }
    Ok(list)
}

/// The documents that aren't empty in byte order of their names, each with the operation in normal form that makes it; they are read
/// back.
#[tactic(auto, using(crate::proofs::Back::documents_back))]
pub fn documents_value(alloc: Global, state: &WaveletState) -> Result<Value, Memory>
    ensures value { IfOk result (λ v. view v ≡ documents_data state.now) }
    ensures back { IfOk result (λ _. AreDocumentsBack state.now) }
{
    Ok(Value::Array(document_list(alloc, state)?))
}
