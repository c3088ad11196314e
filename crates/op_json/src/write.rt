ghost use Rattle.std.specs.Prelude.{◌≡◌, IfOk, Ok, false};
ghost use Rattle.op_json.specs.Back.{IsReadBack, AreReadBack};
ghost use Rattle.op_json.specs.Read.{component_of, operation_of};
ghost use Rattle.serde_json.specs.View.{view};
ghost use Rattle.serde_json.specs.Written.{has_float};
ghost use Rattle.op_json.specs.Write.{one, component_data, op_data};

use crate::written::{boundary_value, changes_value, element_value, replaced_value, text_value};
use doc_items::Memory;
use doc_op::{Component, DocOp};
use serde_json::{Map, Value, put};
use std::alloc::Global;

/// The components of an operation, as they stand. What is written is read as the same operation.
#[tactic(auto, using(crate::proofs::Floats::op_clear, crate::proofs::Back::op_back))]
pub fn to_value(alloc: Global, op: &DocOp) -> Result<Value, Memory>
    ensures value { IfOk result (λ v. view v ≡ op_data op.now) }
    ensures no_float { IfOk result (λ v. has_float (view v) ≡ false) }
    ensures read_back { IfOk result (λ v. operation_of (view v) ≡ Ok op.now) }
{
    let components = components_value(alloc, op.as_slice())?;
    Ok(components)
}

fn components_value(alloc: Global, components: &[Component]) -> Result<Value, Memory>
    ensures value { IfOk result (λ v. view v ≡ op_data components.now) }
    ensures back { IfOk result (λ v. AreReadBack component_of component_data components.now) }
{
    let mut list = Vec::with_capacity(alloc, components.len())?;
    for component in components {
        list.push(component_value(alloc, component)?)?;
    }
    Ok(Value::Array(list))
}

#[tactic(auto, using(crate::proofs::Back::text_component, crate::proofs::Back::element_component, crate::proofs::Back::replaced_component, crate::proofs::Back::update_component, crate::proofs::Back::boundary_component))]
fn component_value(alloc: Global, component: &Component) -> Result<Value, Memory>
    ensures value { IfOk result (λ v. view v ≡ component_data component.now) }
    ensures back { IfOk result (λ v. IsReadBack component_of component_data component.now) }
{
    match component {
        Component::Retain(count) => one_value(alloc, "retain_item_count", Value::from(*count)),
        Component::Characters(text) => one_value(alloc, "characters", text_value(alloc, text)?),
        Component::ElementStart { kind, attributes } => {
            let element = element_value(alloc, kind, attributes)?;
            one_value(alloc, "element_start", element)
        }
        Component::ElementEnd => one_value(alloc, "element_end", Value::Bool(true)),
        Component::DeleteCharacters(text) => {
            one_value(alloc, "delete_characters", text_value(alloc, text)?)
        }
        Component::DeleteElementStart { kind, attributes } => {
            let element = element_value(alloc, kind, attributes)?;
            one_value(alloc, "delete_element_start", element)
        }
        Component::DeleteElementEnd => one_value(alloc, "delete_element_end", Value::Bool(true)),
        Component::ReplaceAttributes { old, new } => {
            let replaced = replaced_value(alloc, old, new)?;
            one_value(alloc, "replace_attributes", replaced)
        }
        Component::UpdateAttributes(changes) => {
            let changes = changes_value(alloc, changes.as_slice())?;
            one_value(alloc, "update_attributes", changes)
        }
        Component::AnnotationBoundary(boundary) => {
            let boundary = boundary_value(alloc, boundary)?;
            one_value(alloc, "annotation_boundary", boundary)
        }
    }
}

fn one_value(alloc: Global, name: &str, inner: Value) -> Result<Value, Memory>
    ensures { IfOk result (λ v. view v ≡ one name.now (view inner)) }
{
    let mut members = Map::new(alloc);
    put(&mut members, alloc, name, inner)?;
    Ok(Value::Object(members))
}
