ghost use Rattle.std.specs.Prelude.{◌≡◌, ◌≤◌, ◌+◌, length, IfOk};
ghost use Rattle.doc_items.specs.Changes.{ChangeSet};
ghost use Rattle.doc_op.specs.Actions.{component_actions};
ghost use Rattle.doc_op.specs.Lengths.{input_len, output_len, inserted_len};
ghost use Rattle.doc_op.specs.Refusals.{component_len};

use doc_items::{Attributes, Boundary, Changes, Memory, Text};
use std::alloc::Global;

/// A part of an operation, in the terms of the Wave whitepapers. The changes of a boundary run over the components after
/// it, until their keys end or change again.
pub enum Component {
    /// So many items stay.
    Retain(u64),
    /// These characters are inserted.
    Characters(Text),
    /// An element's start is inserted.
    ElementStart { kind: Text, attributes: Attributes },
    /// An element's end is inserted.
    ElementEnd,
    /// These characters are deleted.
    DeleteCharacters(Text),
    /// This element's start is deleted.
    DeleteElementStart { kind: Text, attributes: Attributes },
    /// An element's end is deleted.
    DeleteElementEnd,
    /// An element's start stays, and its whole attributes, which are `old`, become `new`.
    ReplaceAttributes { old: Attributes, new: Attributes },
    /// An element's start stays, and some of its attributes change.
    UpdateAttributes(Changes),
    /// Changes of annotations end and begin.
    AnnotationBoundary(Boundary),
}

impl Drop for Component {
    fn drop(self) {
        match self {
            Component::Retain(_part0) => {}
            Component::Characters(_part0) => {}
            Component::ElementStart {
                kind: _kind,
                attributes: _attributes,
            } => {}
            Component::ElementEnd => {}
            Component::DeleteCharacters(_part0) => {}
            Component::DeleteElementStart {
                kind: _kind,
                attributes: _attributes,
            } => {}
            Component::DeleteElementEnd => {}
            Component::ReplaceAttributes {
                old: _old,
                new: _new,
            } => {}
            Component::UpdateAttributes(_part0) => {}
            Component::AnnotationBoundary(_part0) => {}
        }
    }
}

/// How many items a component takes, gives and inserts.
#[derive(Clone, Copy)]
pub(crate) struct Lengths {
    pub input: u64,
    pub output: u64,
    pub inserted: u64,
}

impl Lengths {
    fn kept(count: u64) -> Lengths
        ensures input { result.input ≡ count }
        ensures output { result.output ≡ count }
        ensures inserted { result.inserted ≡ 0 }
    {
        Lengths {
            input: count,
            output: count,
            inserted: 0,
        }
    }

    fn inserted(count: u64) -> Lengths
        ensures input { result.input ≡ 0 }
        ensures output { result.output ≡ count }
        ensures inserted { result.inserted ≡ count }
    {
        Lengths {
            input: 0,
            output: count,
            inserted: count,
        }
    }

    fn deleted(count: u64) -> Lengths
        ensures input { result.input ≡ count }
        ensures output { result.output ≡ 0 }
        ensures inserted { result.inserted ≡ 0 }
    {
        Lengths {
            input: count,
            output: 0,
            inserted: 0,
        }
    }
}

impl Component {
    /// The count, or the number of characters or of keys; 1 for a component that has none of these.
    pub fn len(&self) -> u64
        ensures { result ≡ component_len self.now }
    {
        match self {
            Component::Retain(count) => *count,
            Component::Characters(text) => text.len(),
            Component::DeleteCharacters(text) => text.len(),
            Component::UpdateAttributes(changes) => changes.as_slice().len() as u64,
            Component::AnnotationBoundary(boundary) => boundary_len(boundary),
            Component::ElementStart { .. } => 1,
            Component::ElementEnd => 1,
            Component::DeleteElementStart { .. } => 1,
            Component::DeleteElementEnd => 1,
            Component::ReplaceAttributes { .. } => 1,
        }
    }

    #[tactic(auto, using(crate::proofs::Lengths::component_lengths))]
    pub(crate) fn lengths(&self) -> Lengths
        ensures input { (u : ChangeSet) → input_len (component_actions u self.now) ≡ result.input }
        ensures output { (u : ChangeSet) → output_len (component_actions u self.now) ≡ result.output }
        ensures inserted { (u : ChangeSet) → inserted_len (component_actions u self.now) ≡ result.inserted }
        ensures fewer { result.inserted ≤ result.output }
    {
        match self {
            Component::Retain(count) => Lengths::kept(*count),
            Component::Characters(text) => Lengths::inserted(text.len()),
            Component::ElementStart { .. } => Lengths::inserted(1),
            Component::ElementEnd => Lengths::inserted(1),
            Component::DeleteCharacters(text) => Lengths::deleted(text.len()),
            Component::DeleteElementStart { .. } => Lengths::deleted(1),
            Component::DeleteElementEnd => Lengths::deleted(1),
            Component::ReplaceAttributes { .. } => Lengths::kept(1),
            Component::UpdateAttributes(_) => Lengths::kept(1),
            Component::AnnotationBoundary(_) => Lengths::kept(0),
        }
    }

    /// An equal component.
    pub fn copy(&self, alloc: Global) -> Result<Component, Memory>
        ensures { IfOk result (λ c. c ≡ self.now) }
    {
        match self {
            Component::Retain(count) => Ok(Component::Retain(*count)),
            Component::Characters(text) => Ok(Component::Characters(text.copy(alloc)?)),
            Component::ElementStart { kind, attributes } => {
                let (kind, attributes) = copy_element(alloc, kind, attributes)?;
                Ok(Component::ElementStart { kind, attributes })
            }
            Component::ElementEnd => Ok(Component::ElementEnd),
            Component::DeleteCharacters(text) => Ok(Component::DeleteCharacters(text.copy(alloc)?)),
            Component::DeleteElementStart { kind, attributes } => {
                let (kind, attributes) = copy_element(alloc, kind, attributes)?;
                Ok(Component::DeleteElementStart { kind, attributes })
            }
            Component::DeleteElementEnd => Ok(Component::DeleteElementEnd),
            Component::ReplaceAttributes { old, new } => {
                let old = old.copy()?;
                let new = new.copy()?;
                Ok(Component::ReplaceAttributes { old, new })
            }
            Component::UpdateAttributes(changes) => {
                Ok(Component::UpdateAttributes(changes.copy(alloc)?))
            }
            Component::AnnotationBoundary(boundary) => {
                Ok(Component::AnnotationBoundary(boundary.copy(alloc)?))
            }
        }
    }
}

fn copy_element(
    alloc: Global,
    kind: &Text,
    attributes: &Attributes,
) -> Result<(Text, Attributes), Memory>
    ensures { IfOk result (λ e. (e.0 ≡ kind.now) × (e.1 ≡ attributes.now)) }
{
    Ok((kind.copy(alloc)?, attributes.copy()?))
}

fn boundary_len(boundary: &Boundary) -> u64
    ensures { result ≡ length boundary.now.end + length boundary.now.change }
{
    let ends = boundary.end.as_slice().len() as u64;
    let changes = boundary.change.as_slice().len() as u64;
    ends + changes
}
