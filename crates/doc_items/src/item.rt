ghost use Rattle.std.specs.Prelude.{◌≡◌, IfOk};

use crate::{Attributes, Memory, Notes, Text};
use std::alloc::Global;

/// What stands at one place of a document.
pub enum Content {
    /// A Unicode scalar value.
    Character(char),
    /// An element's start, with the element's type and attributes.
    Start { kind: Text, attributes: Attributes },
    /// An element's end.
    End,
}

impl Drop for Content {
    fn drop(self) {
        match self {
            Content::Character(_part0) => {}
            Content::Start {
                kind: _kind,
                attributes: _attributes,
            } => {}
            Content::End => {}
        }
    }
}

impl Content {
    /// An equal content.
    pub fn copy(&self, alloc: Global) -> Result<Content, Memory>
        ensures { IfOk result (λ c. c ≡ self.now) }
    {
        match self {
            Content::Character(c) => Ok(Content::Character(*c)),
            Content::Start { kind, attributes } => {
                let kind = kind.copy(alloc)?;
                let attributes = attributes.copy()?;
                Ok(Content::Start { kind, attributes })
            }
            Content::End => Ok(Content::End),
        }
    }
}

/// A content with its annotations.
pub struct Item {
    pub content: Content,
    pub notes: Notes,
}

impl Drop for Item {
    fn drop(self) {
        let Item {
            content: _content,
            notes: _notes,
        } = self;
    }
}

impl Item {
    /// An equal item.
    pub fn copy(&self, alloc: Global) -> Result<Item, Memory>
        ensures { IfOk result (λ i. i ≡ self.now) }
    {
        let content = self.content.copy(alloc)?;
        let notes = self.notes.copy()?;
        Ok(Item { content, notes })
    }
}
