ghost use Rattle.std.specs.Prelude.{◌≡◌, IfOk};
ghost use Rattle.doc_items.specs.Changes.{IsAscending, change_set};
ghost use Rattle.doc_items.specs.Maps.{Key, Map};
ghost use Rattle.doc_items.specs.declared.item.Content.TheVariants.{Character, Start, End};
ghost use Rattle.doc_op.specs.Actions.{Update, Replace};
ghost use Rattle.doc_op.specs.Apply.{content_agrees, put_content, same_content};
ghost use Rattle.op_validity.specs.Walks.{takes, demand_action, content_meets, left_by, IsFitDemand, IsNoted};

use crate::noted::{Noted, changed, notes_after};
use doc_items::{Attributes, Changes, Content, Item, Memory, Text};
use std::alloc::Global;

/// What an operation demands of one item.
#[derive(Clone, Copy)]
pub(crate) enum Demand<'a> {
    /// The item is kept.
    Keep,
    /// An element's start is kept, and some of its attributes change.
    Update(&'a Changes),
    /// An element's start is kept, and its whole attributes change.
    Replace {
        old: &'a Attributes,
        new: &'a Attributes,
    },
    /// The character is deleted.
    Character(char),
    /// The element's start is deleted.
    Start {
        kind: &'a Text,
        attributes: &'a Attributes,
    },
    /// An element's end is deleted.
    End,
}

impl Demand<'_> {
    /// Whether the item meets the demand, under the running changes.
    pub fn is_met(self, running: &Changes, item: &Item) -> bool
        requires running { IsAscending running.now }
        requires fit { IsFitDemand self }
        ensures { result ≡ takes (demand_action (change_set running.now) self.entry) item.now }
    {
        running.agrees(&item.notes) && self.is_met_by(&item.content)
    }

    // Whether the content meets the demand.
    fn is_met_by(self, content: &Content) -> bool
        requires { IsFitDemand self }
        ensures { result ≡ content_meets self.entry content.now }
    {
        match self {
            Demand::Keep => true,
            Demand::Update(changes) => is_start_with(changes, content),
            Demand::Replace { old, new: _ } => is_start_of(old, content),
            Demand::Character(c) => is_character(c, content),
            Demand::Start { kind, attributes } => is_start(kind, attributes, content),
            Demand::End => is_end(content),
        }
    }
}

// An element's start whose attributes have the old values.
fn is_start_with(changes: &Changes, content: &Content) -> bool
    requires { IsAscending changes.now }
    ensures { result ≡ content_agrees (Update (change_set changes.now)) content.now }
{
    match content {
        Content::Start {
            kind: _,
            attributes,
        } => changes.agrees(attributes),
        Content::Character(_) => false,
        Content::End => false,
    }
}

// An element's start whose attributes are these.
fn is_start_of(old: &Attributes, content: &Content) -> bool
    ensures { (new : Map Key) → result ≡ content_agrees (Replace old.now new) content.now }
{
    match content {
        Content::Start {
            kind: _,
            attributes,
        } => old.same(attributes),
        Content::Character(_) => false,
        Content::End => false,
    }
}

fn is_character(c: char, content: &Content) -> bool
    ensures { result ≡ same_content (Character c) content.now }
{
    match content {
        Content::Character(other) => c == *other,
        Content::Start { .. } => false,
        Content::End => false,
    }
}

fn is_start(kind: &Text, attributes: &Attributes, content: &Content) -> bool
    ensures { result ≡ same_content (Start kind.now attributes.now) content.now }
{
    match content {
        Content::Start {
            kind: other_kind,
            attributes: other,
        } => kind.same(other_kind) && attributes.same(other),
        Content::Character(_) => false,
        Content::End => false,
    }
}

fn is_end(content: &Content) -> bool
    ensures { result ≡ same_content End content.now }
{
    match content {
        Content::End => true,
        Content::Character(_) => false,
        Content::Start { .. } => false,
    }
}

impl Demand<'_> {
    /// The item that is left of one that meets the demand, under the running changes; None where it is deleted. The last is the one kept
    /// before it.
    pub fn leaves(
        self,
        alloc: Global,
        running: &Changes,
        last: &mut Option<Noted>,
        item: &Item,
    ) -> Result<Option<Item>, Memory>
        requires { IsNoted (change_set running.now) last.old }
        ensures left { IfOk result (λ left. left ≡ left_by (demand_action (change_set running.now) self.entry) item.now) }
        ensures noted { IsNoted (change_set running.now) last.new }
    {
        match self {
            Demand::Keep => {
                let content = item.content.copy(alloc)?;
                let notes = notes_after(alloc, running, last, &item.notes)?;
                Ok(Some(Item { content, notes }))
            }
            Demand::Update(changes) => {
                let content = updated(alloc, changes, &item.content)?;
                let notes = notes_after(alloc, running, last, &item.notes)?;
                Ok(Some(Item { content, notes }))
            }
            Demand::Replace { old: _, new } => {
                let content = replaced(alloc, new, &item.content)?;
                let notes = notes_after(alloc, running, last, &item.notes)?;
                Ok(Some(Item { content, notes }))
            }
            Demand::Character(_) => Ok(None),
            Demand::Start { .. } => Ok(None),
            Demand::End => Ok(None),
        }
    }
}

fn updated(alloc: Global, changes: &Changes, content: &Content) -> Result<Content, Memory>
    ensures { IfOk result (λ c. c ≡ put_content (Update (change_set changes.now)) content.now) }
{
    match content {
        Content::Start { kind, attributes } => {
            let kind = kind.copy(alloc)?;
            let attributes = changed(alloc, changes, attributes)?;
            Ok(Content::Start { kind, attributes })
        }
        Content::Character(c) => Ok(Content::Character(*c)),
        Content::End => Ok(Content::End),
    }
}

fn replaced(alloc: Global, new: &Attributes, content: &Content) -> Result<Content, Memory>
    ensures { IfOk result (λ c. (old : Map Key) → c ≡ put_content (Replace old new.now) content.now) }
{
    match content {
        Content::Start {
            kind,
            attributes: _,
        } => {
            let kind = kind.copy(alloc)?;
            let attributes = new.copy()?;
            Ok(Content::Start { kind, attributes })
        }
        Content::Character(c) => Ok(Content::Character(*c)),
        Content::End => Ok(Content::End),
    }
}
