// The last component of an output, while it may grow.
ghost use Rattle.std.specs.Prelude.{◌≡◌, ◌<◌, ◌≤◌, ◌+◌, ◌++◌, ◌∷◌, [], true, Some, IfOk};
ghost use Rattle.doc_items.specs.Limits.{max_count};
ghost use Rattle.doc_op.specs.Outputs.{open_component, more_component, joins, grown, shut, open_len, IsFull};
ghost use Rattle.doc_op.specs.Refusals.{component_len};
ghost use Rattle.doc_op.specs.Actions.{actions, running, running_after};
ghost use Rattle.doc_op.specs.Cursors.{IsFitAt};
ghost use Rattle.doc_op.specs.Lengths.{input_len, output_len};

use crate::{Component, DocOp};
use doc_items::{Memory, Text};
use std::alloc::Global;

/// A component that goes on where more of its kind follows under the same changes.
#[derive(Drop)]
pub(crate) enum Open {
    Nothing,
    Retain(u64),
    Characters(Vec<char>),
    DeleteCharacters(Vec<char>),
}

/// What may go on with a component of its kind.
#[derive(Clone, Copy)]
pub(crate) enum More<'a> {
    Retain(u64),
    Characters(&'a [char]),
    DeleteCharacters(&'a [char]),
}

impl<'a> More<'a> {
    /// A component of its own.
    pub fn to_open(self, alloc: Global) -> Result<Open, Memory>
        ensures { IfOk result (λ o. open_component o ≡ Some (more_component self.entry)) }
    {
        match self {
            More::Retain(count) => Ok(Open::Retain(count)),
            More::Characters(text) => Ok(Open::Characters(text.to_vec(alloc)?)),
            More::DeleteCharacters(text) => Ok(Open::DeleteCharacters(text.to_vec(alloc)?)),
        }
    }
}

impl Open {
    /// Whether the component goes on with this one.
    pub fn is_joined_by(&self, more: More<'_>) -> bool
        ensures { result ≡ joins (open_component self.now) (more_component more.entry) }
    {
        match self {
            Open::Nothing => false,
            Open::Retain(_) => match more {
                More::Retain(_) => true,
                More::Characters(_) => false,
                More::DeleteCharacters(_) => false,
            },
            Open::Characters(_) => match more {
                More::Retain(_) => false,
                More::Characters(_) => true,
                More::DeleteCharacters(_) => false,
            },
            Open::DeleteCharacters(_) => match more {
                More::Retain(_) => false,
                More::Characters(_) => false,
                More::DeleteCharacters(_) => true,
            },
        }
    }

    /// Both as one component.
    pub fn joined(self, more: More<'_>) -> Result<Open, Memory>
        requires joins { joins (open_component self) (more_component more) ≡ true }
        requires room { open_len (open_component self) + component_len (more_component more) ≤ max_count }
        ensures { IfOk result (λ o. open_component o ≡ grown (open_component self) (more_component more.entry)) }
    {
        match self {
            Open::Nothing => unreachable!(),
            Open::Retain(count) => match more {
                More::Retain(others) => Ok(Open::Retain(count + others)),
                More::Characters(_) => unreachable!(),
                More::DeleteCharacters(_) => unreachable!(),
            },
            Open::Characters(text) => match more {
                More::Retain(_) => unreachable!(),
                More::Characters(others) => Ok(Open::Characters(extended(text, others)?)),
                More::DeleteCharacters(_) => unreachable!(),
            },
            Open::DeleteCharacters(text) => match more {
                More::Retain(_) => unreachable!(),
                More::Characters(_) => unreachable!(),
                More::DeleteCharacters(others) => {
                    Ok(Open::DeleteCharacters(extended(text, others)?))
                }
            },
        }
    }
}

fn extended(mut text: Vec<char>, more: &[char]) -> Result<Vec<char>, Memory>
    ensures { IfOk result (λ v. v.items ≡ text.items ++ more.now) }
{
    text.extend_from_slice(more)?;
    Ok(text)
}

/// The components with the last, which grows no more.
pub(crate) fn closed(alloc: Global, done: DocOp, last: Open) -> Result<DocOp, Memory>
    requires full { IsFull (open_component last) }
    requires input { input_len (actions (done ++ shut (open_component last))) ≤ max_count }
    requires output { output_len (actions (done ++ shut (open_component last))) ≤ max_count }
    ensures value { IfOk result (λ op. op ≡ done ++ shut (open_component last)) }
    ensures runs { IfOk result (λ op. running op ≡ running done) }
{
    match last {
        Open::Nothing => Ok(done),
        Open::Retain(count) => pushed(done, Component::Retain(count)),
        Open::Characters(text) => {
            let text = text_of(alloc, text.as_slice())?;
            pushed(done, Component::Characters(text))
        }
        Open::DeleteCharacters(text) => {
            let text = text_of(alloc, text.as_slice())?;
            pushed(done, Component::DeleteCharacters(text))
        }
    }
}

/// The operation with one component more.
pub(crate) fn pushed(mut done: DocOp, component: Component) -> Result<DocOp, Memory>
    requires some { 0 < component_len component }
    requires fit { IsFitAt (running done) component }
    requires input { input_len (actions (done ++ component ∷ [])) ≤ max_count }
    requires output { output_len (actions (done ++ component ∷ [])) ≤ max_count }
    ensures value { IfOk result (λ op. op ≡ done ++ component ∷ []) }
    ensures runs { IfOk result (λ op. running op ≡ running_after (running done) component) }
{
    done.push(component)?;
    Ok(done)
}

fn text_of(alloc: Global, chars: &[char]) -> Result<Text, Memory>
    ensures { IfOk result (λ t. t ≡ chars.now) }
{
    let mut string = String::new(alloc);
    for c in chars {
        string.push(*c)?;
    }
    Text::from_str(alloc, string.as_str())
}
