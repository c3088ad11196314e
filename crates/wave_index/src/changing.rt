// Which operations change a document.
ghost use Rattle.std.specs.Prelude.{◌≡◌};
ghost use Rattle.doc_op.specs.Actions.{actions};
ghost use Rattle.doc_op.specs.Normal.{normal_form};
ghost use Rattle.wave_index.specs.Changes.{changes_by};
ghost use Rattle.wave_index.specs.Versions.{is_retain};

use doc_op::{Component, DocOp};

// Whether the component lets items stay.
fn is_retain(component: &Component) -> bool
    ensures { result ≡ is_retain component.now }
{
    match component {
        Component::Retain(_) => true,
        Component::Characters(_) => false,
        Component::ElementStart { .. } => false,
        Component::ElementEnd => false,
        Component::DeleteCharacters(_) => false,
        Component::DeleteElementStart { .. } => false,
        Component::DeleteElementEnd => false,
        Component::ReplaceAttributes { .. } => false,
        Component::UpdateAttributes(_) => false,
        Component::AnnotationBoundary(_) => false,
    }
}

/// Whether an operation in normal form does more than to let items stay as they are.
pub(crate) fn is_changing(op: &DocOp) -> bool
    requires { op.now ≡ normal_form (actions op.now) }
    ensures { result ≡ changes_by (actions op.now) }
{
    for component in op.as_slice() {
        if !is_retain(component) {
            return true;
        }
    }
    false
}
