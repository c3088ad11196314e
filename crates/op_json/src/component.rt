// A component, by the name of the one member.
ghost use Rattle.std.specs.Prelude.{◌≡◌, IfOk, option_map};
ghost use Rattle.serde_json.specs.View.{view};
ghost use Rattle.doc_op.specs.declared.component.Component.{Component};
ghost use Rattle.op_json.specs.Read.{component_at, component_of, element_of, replaced_of};

use crate::attributes::{element_of, replaced_of};
use crate::change::{boundary_of, changes_of};
use crate::members::only_member;
use crate::scalar::{is_true, text_of};
use doc_items::Memory;
use doc_op::Component;
use serde_json::Value;
use std::alloc::Global;

// The component that a value is.
pub fn component_of(alloc: Global, value: &Value) -> Result<Option<Component>, Memory>
    ensures { IfOk result (λ component. component ≡ component_of (view value.now)) }
{
    match only_member(value) {
        Some((name, inner)) => component_at(alloc, name, inner),
        None => Ok(None),
    }
}

fn component_at(alloc: Global, name: &str, value: &Value) -> Result<Option<Component>, Memory>
    ensures { IfOk result (λ component. component ≡ component_at name.now (view value.now)) }
{
    match name {
        "retain_item_count" => Ok(value.as_u64().map(Component::Retain)),
        "characters" => {
            let text = text_of(alloc, value)?;
            Ok(text.map(Component::Characters))
        }
        "element_start" => element_start(alloc, value),
        "element_end" => Ok(is_true(value).then_some(Component::ElementEnd)),
        "delete_characters" => {
            let text = text_of(alloc, value)?;
            Ok(text.map(Component::DeleteCharacters))
        }
        "delete_element_start" => delete_element_start(alloc, value),
        "delete_element_end" => Ok(is_true(value).then_some(Component::DeleteElementEnd)),
        "replace_attributes" => replace_attributes(alloc, value),
        "update_attributes" => {
            let changes = changes_of(alloc, value)?;
            Ok(changes.map(Component::UpdateAttributes))
        }
        "annotation_boundary" => {
            let boundary = boundary_of(alloc, value)?;
            Ok(boundary.map(Component::AnnotationBoundary))
        }
        _ => Ok(None),
    }
}

fn element_start(alloc: Global, value: &Value) -> Result<Option<Component>, Memory>
    ensures { IfOk result (λ component. component ≡ option_map (λ e. Component.ElementStart e.0 e.1) (element_of (view value.now))) }
{
    match element_of(alloc, value)? {
        Some((kind, attributes)) => Ok(Some(Component::ElementStart { kind, attributes })),
        None => Ok(None),
    }
}

fn delete_element_start(alloc: Global, value: &Value) -> Result<Option<Component>, Memory>
    ensures { IfOk result (λ component. component ≡ option_map (λ e. Component.DeleteElementStart e.0 e.1) (element_of (view value.now))) }
{
    match element_of(alloc, value)? {
        Some((kind, attributes)) => Ok(Some(Component::DeleteElementStart { kind, attributes })),
        None => Ok(None),
    }
}

fn replace_attributes(alloc: Global, value: &Value) -> Result<Option<Component>, Memory>
    ensures { IfOk result (λ component. component ≡ option_map (λ r. Component.ReplaceAttributes r.0 r.1) (replaced_of (view value.now))) }
{
    match replaced_of(alloc, value)? {
        Some((old, new)) => Ok(Some(Component::ReplaceAttributes { old, new })),
        None => Ok(None),
    }
}
