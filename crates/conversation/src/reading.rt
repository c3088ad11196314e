// How far a manifest is read.
ghost use Rattle.std.specs.Prelude.{◌≡◌, ◌+◌, ◌^◌, ◌<◌, ◌≤◌, Some, option_copied};
ghost use Rattle.std.specs.FinMap.{get};
ghost use Rattle.doc_items.specs.declared.item.Content.TheVariants.{Start, End};
ghost use Rattle.std.specs.Prelude.{true};
ghost use Rattle.conversation.specs.Trees.{start, enters, enters_at, is_named, kind_at, step, step_content, holds, part_at};

use crate::Part;
use doc_items::{Attributes, Content, Item, Text};

/// Whether the conversation was found, how many of its elements are open, itself included, and how many elements are open that are
/// passed over.
#[derive(Clone, Copy, Drop)]
pub(crate) struct Reading {
    pub found: bool,
    pub inside: u64,
    pub passed: u64,
}

// Whether the element's type is this one.
fn is_named(kind: &Text, name: &str) -> bool
    ensures { result ≡ is_named kind.now name.now }
{
    kind.as_str() == name
}

// Whether a start opens a node of this depth.
fn is_node(depth: u64, kind: &Text, attributes: &Attributes) -> bool
    ensures { result ≡ enters_at true (depth + 1) kind.now attributes.now }
{
    let is_kind = if depth % 2 == 0 {
        is_named(kind, "blip")
    } else {
        is_named(kind, "thread")
    };
    is_kind && attributes.get("id").is_some()
}

impl Reading {
    /// Before the first item.
    pub fn new() -> Reading
        ensures { result ≡ start }
    {
        Reading {
            found: false,
            inside: 0,
            passed: 0,
        }
    }

    /// Whether a start of this type, with these attributes, is of the tree.
    pub fn enters(&self, kind: &Text, attributes: &Attributes) -> bool
        ensures { result ≡ enters self.now kind.now attributes.now }
    {
        if self.passed > 0 {
            return false;
        }
        if self.inside == 0 {
            return !self.found && is_named(kind, "conversation");
        }
        is_node(self.inside - 1, kind, attributes)
    }

    // Goes past a start.
    fn pass_start(&mut self, kind: &Text, attributes: &Attributes)
        requires inside { self.old.inside + 1 < 2 ^ 64 }
        requires passed { self.old.passed + 1 < 2 ^ 64 }
        ensures { self.new ≡ step_content self.old (Start kind.now attributes.now) }
    {
        if self.enters(kind, attributes) {
            self.found = true;
            self.inside += 1;
        } else {
            self.passed += 1;
        }
    }

    // Goes past an end.
    fn pass_end(&mut self)
        ensures { self.new ≡ step_content self.old End }
    {
        if self.passed == 0 {
            self.inside = self.inside.saturating_sub(1);
        } else {
            self.passed -= 1;
        }
    }

    /// Goes past one more item.
    pub fn pass(&mut self, item: &Item)
        requires inside { self.old.inside + 1 < 2 ^ 64 }
        requires passed { self.old.passed + 1 < 2 ^ 64 }
        ensures { self.new ≡ step self.old item.now }
    {
        match &item.content {
            Content::Character(_) => {}
            Content::Start { kind, attributes } => self.pass_start(kind, attributes),
            Content::End => self.pass_end(),
        }
    }
}

// Whether the attribute is `true`.
fn holds(attributes: &Attributes, key: &str) -> bool
    ensures { result ≡ holds attributes.now key.now }
{
    match attributes.get(key) {
        Some(value) => value == "true",
        None => false,
    }
}

/// What stands at this depth.
pub(crate) fn part_at(depth: u64, attributes: &Attributes) -> Part
    ensures { result ≡ part_at depth attributes.now }
{
    if depth % 2 == 0 {
        Part::Blip {
            deleted: holds(attributes, "deleted"),
        }
    } else {
        Part::Thread {
            inline: holds(attributes, "inline"),
        }
    }
}
