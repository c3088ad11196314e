// Operations on wavelets, read.
ghost use Rattle.std.specs.Prelude.{◌≡◌, [], IfOk, IfSome, Some, option_map};
ghost use Rattle.serde_json.specs.View.{view, items_view};
ghost use Rattle.op_json.specs.Read.{list_from};
ghost use Rattle.wave_base.specs.Grammar.{is_id};
ghost use Rattle.wavelet_op.specs.Acts.{AreNormal};
ghost use Rattle.json_fields.specs.Read.{in_member, good_text};
ghost use Rattle.wavelet_json.specs.Operations.{role_named, role_of, component_list, participant_of, mutation_of, role_change_of, of_members, op_named, op_of, op_list, ops_of, normal_ops};

use doc_items::Memory;
use doc_op::DocOp;
use json_fields::{address_at, document_at, has_members, str_at};
use op_json::{JsonFault, from_value};
use serde_json::Value;
use std::alloc::{AllocError, Global};
use wave_base::Address;
use wavelet_op::{Ops, Role, WaveletOp};

fn role_named(name: &str) -> Option<Role>
    ensures { result ≡ role_named name.now }
{
    match name {
        "full" => Some(Role::Full),
        "read" => Some(Role::ReadOnly),
        _ => None,
    }
}

/// The role in the member of this name; None exactly where none stands there.
pub fn role_at(value: &Value, name: &str) -> Option<Role>
    ensures { result ≡ in_member role_of name.now (view value.now) }
{
    role_named(str_at(value, name)?)
}

// The operation on a document that a value is.
fn components_of(alloc: Global, value: &Value) -> Result<Option<DocOp>, Memory>
    ensures { IfOk result (λ op. op ≡ component_list (view value.now)) }
{
    match from_value(alloc, value) {
        Ok(op) => Ok(Some(op)),
        Err(JsonFault::BadField(_)) => Ok(None),
        Err(JsonFault::Memory) => Err(AllocError),
    }
}

/// The operation on a document in the member of this name; None exactly where none stands there. The error is want of memory, here
/// and below.
pub fn components_at(alloc: Global, value: &Value, name: &str) -> Result<Option<DocOp>, Memory>
    ensures { IfOk result (λ op. op ≡ in_member component_list name.now (view value.now)) }
{
    match value.get(name) {
        Some(inner) => components_of(alloc, inner),
        None => Ok(None),
    }
}

fn participant_of(alloc: Global, value: &Value) -> Result<Option<Address>, Memory>
    ensures { IfOk result (λ address. address ≡ participant_of (view value.now)) }
{
    address_at(alloc, value, "participant")
}

fn noop(value: &Value) -> Option<WaveletOp>
    ensures { result ≡ of_members 1 (view value.now) (Some WaveletOp.NoOp) }
{
    if has_members(value, 1) {
        Some(WaveletOp::NoOp)
    } else {
        None
    }
}

fn add(alloc: Global, value: &Value) -> Result<Option<WaveletOp>, Memory>
    ensures { IfOk result (λ op. op ≡ of_members 2 (view value.now) (option_map WaveletOp.Add (participant_of (view value.now)))) }
{
    if !has_members(value, 2) {
        return Ok(None);
    }
    let address = participant_of(alloc, value)?;
    Ok(address.map(WaveletOp::Add))
}

fn remove(alloc: Global, value: &Value) -> Result<Option<WaveletOp>, Memory>
    ensures { IfOk result (λ op. op ≡ of_members 2 (view value.now) (option_map WaveletOp.Remove (participant_of (view value.now)))) }
{
    if !has_members(value, 2) {
        return Ok(None);
    }
    let address = participant_of(alloc, value)?;
    Ok(address.map(WaveletOp::Remove))
}

fn mutate(alloc: Global, value: &Value) -> Result<Option<WaveletOp>, Memory>
    ensures { IfOk result (λ op. op ≡ of_members 3 (view value.now) (mutation_of (view value.now))) }
{
    if !has_members(value, 3) {
        return Ok(None);
    }
    let Some(document) = document_at(alloc, value, "document")? else {
        return Ok(None);
    };
    let Some(op) = components_at(alloc, value, "operation")? else {
        return Ok(None);
    };
    Ok(Some(WaveletOp::Mutate { document, op }))
}

fn set_role(alloc: Global, value: &Value) -> Result<Option<WaveletOp>, Memory>
    ensures { IfOk result (λ op. op ≡ of_members 4 (view value.now) (role_change_of (view value.now))) }
{
    if !has_members(value, 4) {
        return Ok(None);
    }
    let Some(address) = participant_of(alloc, value)? else {
        return Ok(None);
    };
    let Some(old) = role_at(value, "old") else {
        return Ok(None);
    };
    let Some(new) = role_at(value, "new") else {
        return Ok(None);
    };
    Ok(Some(WaveletOp::SetRole { address, old, new }))
}

fn op_named(alloc: Global, kind: &str, value: &Value) -> Result<Option<WaveletOp>, Memory>
    ensures { IfOk result (λ op. op ≡ op_named kind.now (view value.now)) }
{
    match kind {
        "noop" => Ok(noop(value)),
        "add" => add(alloc, value),
        "remove" => remove(alloc, value),
        "mutate" => mutate(alloc, value),
        "set_role" => set_role(alloc, value),
        _ => Ok(None),
    }
}

fn op_of(alloc: Global, value: &Value) -> Result<Option<WaveletOp>, Memory>
    ensures { IfOk result (λ op. op ≡ op_of (view value.now)) }
{
    match str_at(value, "type") {
        Some(kind) => op_named(alloc, kind, value),
        None => Ok(None),
    }
}

fn list_in(alloc: Global, list: &[Value]) -> Result<Option<Vec<WaveletOp>>, Memory>
    ensures { IfOk result (λ o. option_map (λ ops. ops.items) o ≡ list_from op_of [] (items_view list.now)) }
{
    let mut ops = Vec::with_capacity(alloc, list.len())?;
    for value in list {
        let Some(op) = op_of(alloc, value)? else {
            return Ok(None);
        };
        ops.push(op)?;
    }
    Ok(Some(ops))
}

fn op_list(alloc: Global, value: &Value) -> Result<Option<Vec<WaveletOp>>, Memory>
    ensures { IfOk result (λ o. option_map (λ ops. ops.items) o ≡ op_list (view value.now)) }
{
    match value.as_array() {
        Some(list) => list_in(alloc, list.as_slice()),
        None => Ok(None),
    }
}

fn ops_of(alloc: Global, value: &Value) -> Result<Option<Ops>, Memory>
    ensures { IfOk result (λ ops. ops ≡ ops_of (view value.now)) }
{
    match op_list(alloc, value)? {
        Some(list) => Ok(Ops::new(list)),
        None => Ok(None),
    }
}

/// The operations in the member of this name, an array of 1 to 1,000 of them; None exactly where they don't stand there.
pub fn ops_at(alloc: Global, value: &Value, name: &str) -> Result<Option<Ops>, Memory>
    ensures { IfOk result (λ ops. ops ≡ in_member ops_of name.now (view value.now)) }
{
    match value.get(name) {
        Some(inner) => ops_of(alloc, inner),
        None => Ok(None),
    }
}

/// The operations in the member of this name, each operation on a document in normal form; None exactly where they don't stand
/// there.
#[tactic(auto, using(crate::proofs::Normals::normal_is))]
pub fn normal_ops_at(alloc: Global, value: &Value, name: &str) -> Result<Option<Ops>, Memory>
    ensures value { IfOk result (λ ops. ops ≡ option_map normal_ops (in_member ops_of name.now (view value.now))) }
    ensures normal { IfOk result (λ o. IfSome o AreNormal) }
{
    match ops_at(alloc, value, name)? {
        Some(ops) => Ok(Some(ops.normal(alloc)?)),
        None => Ok(None),
    }
}
