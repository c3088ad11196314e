ghost use Rattle.std.specs.Prelude.{◌≡◌, [], ℕ, Ok, Err, IfOk, IfErr};
ghost use Rattle.serde_json.specs.View.{view, items_view};
ghost use Rattle.op_json.specs.Read.{operation_from, operation_of};

use crate::JsonFault;
use crate::component::component_of;
use doc_op::{Builder, DocOp, OpFault};
use serde_json::Value;
use std::alloc::Global;

/// The operation that a value is: an array of components, each of which a builder takes in turn. `BadField` has the index
/// of the first element that is no component or that the builder refuses; 0 where the value is no array.
pub fn from_value(alloc: Global, value: &Value) -> Result<DocOp, JsonFault>
    ensures value { IfOk result (λ op. operation_of (view value.now) ≡ Ok op) }
    ensures refused { IfErr result (λ e. (index : ℕ) → e ≡ JsonFault.BadField index → operation_of (view value.now) ≡ Err index) }
{
    match value.as_array() {
        Some(list) => operation_in(alloc, list.as_slice()),
        None => Err(JsonFault::BadField(0)),
    }
}

fn operation_in(alloc: Global, list: &[Value]) -> Result<DocOp, JsonFault>
    ensures value { IfOk result (λ op. operation_from 0 [] (items_view list.now) ≡ Ok op) }
    ensures refused { IfErr result (λ e. (index : ℕ) → e ≡ JsonFault.BadField index
        → operation_from 0 [] (items_view list.now) ≡ Err index) }
{
    let mut builder = Builder::new(alloc);
    for (index, value) in list.iter().enumerate() {
        let Some(component) = component_of(alloc, value)? else {
            return Err(JsonFault::BadField(index as u64));
        };
        match builder.add(alloc, component) {
            Ok(()) => {}
            Err(OpFault::Memory) => return Err(JsonFault::Memory),
            Err(OpFault::ZeroCount) => return Err(JsonFault::BadField(index as u64)),
            Err(OpFault::BadBoundary(_)) => return Err(JsonFault::BadField(index as u64)),
            Err(OpFault::CountTooLarge) => return Err(JsonFault::BadField(index as u64)),
        }
    }
    Ok(builder.finish())
}
