// A state, read from a snapshot's participants and documents.
ghost use Rattle.std.specs.Prelude.{◌≡◌, None, IfOk, option_map, option_and_then};
ghost use Rattle.serde_json.specs.Find.{as_array};
ghost use Rattle.serde_json.specs.View.{view, items_view};
ghost use Rattle.doc_items.specs.Maps.{is_next};
ghost use Rattle.wavelet_op.specs.Acts.{meaning};
ghost use Rattle.wavelet_op.specs.States.{apply_act, empty_state};
ghost use Rattle.json_fields.specs.Read.{in_member};
ghost use Rattle.snapshot_json.specs.Read.{member_of, document_of, joined, not_empty, opened, states_from, with_members, with_documents, state_of};

use doc_items::{Memory, is_next};
use doc_op::DocOp;
use json_fields::{address_at, document_at, has_members};
use serde_json::Value;
use std::alloc::{AllocError, Global};
use wave_base::{Address, DocumentName};
use wavelet_json::{components_at, role_at};
use wavelet_op::{Role, WaveletFault, WaveletOp};
use wavelet_state::{WaveletState, apply_op};

// The state after an operation, where it applies.
#[tactic(auto, using(crate::proofs::Steps::none_applies))]
fn after(alloc: Global, state: WaveletState, op: &WaveletOp) -> Result<Option<WaveletState>, Memory>
    ensures { IfOk result (λ s. s ≡ apply_act state (meaning op.now)) }
{
    let mut state = state;
    match apply_op(alloc, &mut state, op) {
        Ok(()) => Ok(Some(state)),
        Err(WaveletFault::Memory) => Err(AllocError),
        Err(WaveletFault::OpInvalid(_)) => Ok(None),
        Err(WaveletFault::CountTooLarge) => Ok(None),
        Err(WaveletFault::Conflict(_)) => Ok(None),
        Err(WaveletFault::DontFit(_)) => Ok(None),
    }
}

// ---- participants

fn member_of(alloc: Global, value: &Value) -> Result<Option<(Address, Role)>, Memory>
    ensures { IfOk result (λ e. e ≡ member_of (view value.now)) }
{
    if !has_members(value, 2) {
        return Ok(None);
    }
    let Some(address) = address_at(alloc, value, "address")? else {
        return Ok(None);
    };
    let Some(role) = role_at(value, "role") else {
        return Ok(None);
    };
    Ok(Some((address, role)))
}

fn joined(
    alloc: Global,
    state: WaveletState,
    address: &Address,
    role: Role,
) -> Result<Option<WaveletState>, Memory>
    ensures { IfOk result (λ s. s ≡ joined state (address.now, role)) }
{
    let add = WaveletOp::Add(address.copy(alloc)?);
    let Some(state) = after(alloc, state, &add)? else {
        return Ok(None);
    };
    let address = address.copy(alloc)?;
    let set_role = WaveletOp::SetRole {
        address,
        old: Role::Full,
        new: role,
    };
    after(alloc, state, &set_role)
}

// Whether an address is the first of its list, or comes after the last one in byte order.
fn comes_next(last: &Option<Address>, address: &Address) -> bool
    ensures { result ≡ is_next last.now address.now }
{
    match last {
        Some(last) => is_next(Some(last.text()), address.text()),
        None => is_next(None, address.text()),
    }
}

fn members_in(alloc: Global, list: &[Value]) -> Result<Option<WaveletState>, Memory>
    ensures { IfOk result (λ s. s ≡ with_members (items_view list.now)) }
{
    let mut state = WaveletState::new(alloc);
    let mut last: Option<Address> = None;
    for value in list {
        let Some((address, role)) = member_of(alloc, value)? else {
            return Ok(None);
        };
        if !comes_next(&last, &address) {
            return Ok(None);
        }
        let Some(next) = joined(alloc, state, &address, role)? else {
            return Ok(None);
        };
        state = next;
        last = Some(address);
    }
    Ok(Some(state))
}

// ---- documents

fn document_of(alloc: Global, value: &Value) -> Result<Option<(DocumentName, DocOp)>, Memory>
    ensures { IfOk result (λ e. e ≡ document_of (view value.now)) }
{
    if !has_members(value, 2) {
        return Ok(None);
    }
    let Some(name) = document_at(alloc, value, "name")? else {
        return Ok(None);
    };
    let Some(op) = components_at(alloc, value, "operation")? else {
        return Ok(None);
    };
    Ok(Some((name, op)))
}

fn not_empty(state: WaveletState, name: &DocumentName) -> Option<WaveletState>
    ensures { result ≡ not_empty name.now state }
{
    if state.rope(name).is_some() {
        Some(state)
    } else {
        None
    }
}

fn opened(
    alloc: Global,
    state: WaveletState,
    name: &DocumentName,
    op: DocOp,
) -> Result<Option<WaveletState>, Memory>
    ensures { IfOk result (λ s. s ≡ opened state (name.now, op)) }
{
    let document = name.copy(alloc)?;
    let mutation = WaveletOp::Mutate { document, op };
    match after(alloc, state, &mutation)? {
        Some(state) => Ok(not_empty(state, name)),
        None => Ok(None),
    }
}

// Whether a name is the first of its list, or comes after the last one in byte order.
fn is_behind(last: &Option<DocumentName>, name: &DocumentName) -> bool
    ensures { result ≡ is_next last.now name.now }
{
    match last {
        Some(last) => is_next(Some(last.text()), name.text()),
        None => is_next(None, name.text()),
    }
}

fn documents_in(
    alloc: Global,
    state: WaveletState,
    list: &[Value],
) -> Result<Option<WaveletState>, Memory>
    ensures { IfOk result (λ s. s ≡ with_documents state (items_view list.now)) }
{
    let mut state = state;
    let mut last: Option<DocumentName> = None;
    for value in list {
        let Some((name, op)) = document_of(alloc, value)? else {
            return Ok(None);
        };
        if !is_behind(&last, &name) {
            return Ok(None);
        }
        let Some(next) = opened(alloc, state, &name, op)? else {
            return Ok(None);
        };
        state = next;
        last = Some(name);
    }
    Ok(Some(state))
}

// ---- both

fn both_in(
    alloc: Global,
    members: &[Value],
    documents: &[Value],
) -> Result<Option<WaveletState>, Memory>
    ensures { IfOk result (λ s. s
        ≡ option_and_then (λ t. with_documents t (items_view documents.now)) (with_members (items_view members.now))) }
{
    match members_in(alloc, members)? {
        Some(state) => documents_in(alloc, state, documents),
        None => Ok(None),
    }
}

fn array_at<'v>(value: &'v Value, name: &str) -> Option<&'v [Value]>
    ensures { option_map (λ list. items_view list.now) result ≡ in_member as_array name.now (view value.now) }
{
    let list = value.get(name)?.as_array()?;
    Some(list.as_slice())
}

/// The state in the members `participants` and `documents`: addresses with roles and names with operations, each list in strictly
/// ascending byte order, each operation applying to the empty document and giving one that isn't empty. None exactly where none
/// stands there. The error is want of memory.
pub fn state_in(alloc: Global, value: &Value) -> Result<Option<WaveletState>, Memory>
    ensures { IfOk result (λ s. s ≡ state_of (view value.now)) }
{
    let Some(members) = array_at(value, "participants") else {
        return Ok(None);
    };
    let Some(documents) = array_at(value, "documents") else {
        return Ok(None);
    };
    both_in(alloc, members, documents)
}
