// Operations on wavelets, written.
ghost use Rattle.std.specs.Prelude.{◌≡◌, Some, IfOk};
ghost use Rattle.serde_json.specs.View.{view};
ghost use Rattle.op_json.specs.Back.{IsReadBack, AreReadBack};
ghost use Rattle.wavelet_json.specs.Operations.{role_of, role_data, op_of, op_data, ops_of, ops_data};

use doc_items::Memory;
use doc_op::DocOp;
use json_fields::string_value;
use op_json::to_value;
use serde_json::{Value, json};
use std::alloc::Global;
use wave_base::{Address, DocumentName};
use wavelet_op::{Ops, Role, WaveletOp};

/// The role, as it is read. The error is want of memory, here and below.
pub fn role_value(alloc: Global, role: Role) -> Result<Value, Memory>
    ensures value { IfOk result (λ v. view v ≡ role_data role) }
    ensures back { IfOk result (λ v. IsReadBack role_of role_data role) }
{
    match role {
        Role::Full => string_value(alloc, "full"),
        Role::ReadOnly => string_value(alloc, "read"),
    }
}

#[tactic(auto, using(crate::proofs::Back::add_back))]
fn add_value(alloc: Global, address: &Address) -> Result<Value, Memory>
    ensures value { IfOk result (λ v. view v ≡ op_data (WaveletOp.Add address.now)) }
    ensures back { IfOk result (λ v. IsReadBack op_of op_data (WaveletOp.Add address.now)) }
{
    let participant = string_value(alloc, address.text())?;
    json!(in alloc; {"participant": participant, "type": "add"})
}

#[tactic(auto, using(crate::proofs::Back::remove_back))]
fn remove_value(alloc: Global, address: &Address) -> Result<Value, Memory>
    ensures value { IfOk result (λ v. view v ≡ op_data (WaveletOp.Remove address.now)) }
    ensures back { IfOk result (λ v. IsReadBack op_of op_data (WaveletOp.Remove address.now)) }
{
    let participant = string_value(alloc, address.text())?;
    json!(in alloc; {"participant": participant, "type": "remove"})
}

#[tactic(auto, using(crate::proofs::Back::mutate_back))]
fn mutate_value(alloc: Global, document: &DocumentName, op: &DocOp) -> Result<Value, Memory>
    ensures value { IfOk result (λ v. view v ≡ op_data (WaveletOp.Mutate document.now op.now)) }
    ensures back { IfOk result (λ v. IsReadBack op_of op_data (WaveletOp.Mutate document.now op.now)) }
{
    let document = string_value(alloc, document.text())?;
    let operation = to_value(alloc, op)?;
    json!(in alloc; {"document": document, "operation": operation, "type": "mutate"})
}

#[tactic(auto, using(crate::proofs::Back::role_change_back))]
fn role_change_value(
    alloc: Global,
    address: &Address,
    old: Role,
    new: Role,
) -> Result<Value, Memory>
    ensures value { IfOk result (λ v. view v ≡ op_data (WaveletOp.SetRole address.now old new)) }
    ensures back { IfOk result (λ v. IsReadBack op_of op_data (WaveletOp.SetRole address.now old new)) }
{
    let participant = string_value(alloc, address.text())?;
    let new = role_value(alloc, new)?;
    let old = role_value(alloc, old)?;
    json!(in alloc; {"new": new, "old": old, "participant": participant, "type": "set_role"})
}

fn op_value(alloc: Global, op: &WaveletOp) -> Result<Value, Memory>
    ensures value { IfOk result (λ v. view v ≡ op_data op.now) }
    ensures back { IfOk result (λ v. IsReadBack op_of op_data op.now) }
{
    match op {
        WaveletOp::NoOp => json!(in alloc; {"type": "noop"}),
        WaveletOp::Add(address) => add_value(alloc, address),
        WaveletOp::Remove(address) => remove_value(alloc, address),
        WaveletOp::Mutate { document, op } => mutate_value(alloc, document, op),
        WaveletOp::SetRole { address, old, new } => role_change_value(alloc, address, *old, *new),
    }
}

fn list_value(alloc: Global, ops: &[WaveletOp]) -> Result<Value, Memory>
    ensures value { IfOk result (λ v. view v ≡ ops_data ops.now) }
    ensures back { IfOk result (λ v. AreReadBack op_of op_data ops.now) }
{
    let mut list = Vec::with_capacity(alloc, ops.len())?;
    for op in ops {
        list.push(op_value(alloc, op)?)?;
    }
    Ok(Value::Array(list))
}

/// The operations, as they are read.
#[tactic(auto, using(crate::proofs::Back::ops_back))]
pub fn ops_value(alloc: Global, ops: &Ops) -> Result<Value, Memory>
    ensures value { IfOk result (λ v. view v ≡ ops_data ops.now) }
    ensures back { IfOk result (λ v. ops_of (ops_data ops.now) ≡ Some ops.now) }
{
    list_value(alloc, ops.as_slice())
}
