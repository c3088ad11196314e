// Items in a row, in few bytes.
ghost use Rattle.std.specs.Prelude.{◌≡◌, ◌<◌, ◌≤◌, ◌++◌, ◌∷◌, true, length, take, IfOk, IfSome, OnOk};
ghost use Rattle.std.specs.Str.{chars};
ghost use Rattle.doc_items.specs.declared.item.Content.TheVariants.{Start};
ghost use Rattle.doc_pack.specs.Characters.{character_item, character_items};
ghost use Rattle.doc_pack.specs.Packed.{run_items, all_items};

use crate::characters::{character, characters};
use doc_items::{Attributes, Content, Item, Memory, Notes, Text};
use std::alloc::Global;

// Characters that have the same annotations, or one item.
pub(crate) enum Run {
    Characters { text: String, notes: Notes },
    One(Item),
}

impl Drop for Run {
    fn drop(self) {
        match self {
            Run::Characters {
                text: _text,
                notes: _notes,
            } => {}
            Run::One(_item) => {}
        }
    }
}

impl Run {
    // What comes after the run's items, where the items begin with them.
    pub fn after<'a>(&self, items: &'a [Item]) -> Option<&'a [Item]>
        ensures { IfSome result (λ rest. items.entry.now ≡ run_items self.now ++ rest.now) }
    {
        match self {
            Run::Characters { text, notes } => after_characters(text.as_str(), notes, items),
            Run::One(item) => after_item(item, items),
        }
    }

    // Puts copies of the items after those of `to`.
    pub fn copy_to(&self, alloc: Global, to: &mut Vec<Item>) -> Result<(), Memory>
        ensures { OnOk result (to.new.items ≡ to.old.items ++ run_items self.now) }
    {
        match self {
            Run::Characters { text, notes } => copy_characters(text.as_str(), notes, to),
            Run::One(item) => {
                to.push(item.copy(alloc)?)?;
                Ok(())
            }
        }
    }
}

// What comes after the characters of the text, with these annotations, where the items begin with them.
fn after_characters<'a>(text: &str, notes: &Notes, items: &'a [Item]) -> Option<&'a [Item]>
    ensures { IfSome result (λ rest. items.entry.now ≡ character_items notes.now (chars text.now) ++ rest.now) }
{
    let mut rest = items;
    for c in text.chars() {
        let (first, others) = rest.split_first()?;
        if !is_character(first, notes, c) {
            return None;
        }
        rest = others;
    }
    Some(rest)
}

// Whether the item is this character with these annotations.
fn is_character(item: &Item, notes: &Notes, c: char) -> bool
    ensures { result ≡ true → item.now ≡ character_item c notes.now }
{
    match character(item, notes) {
        Some(found) => found == c,
        None => false,
    }
}

// What comes after the item, where the items begin with it.
fn after_item<'a>(item: &Item, items: &'a [Item]) -> Option<&'a [Item]>
    ensures { IfSome result (λ rest. items.entry.now ≡ item.now ∷ rest.now) }
{
    let (first, others) = items.split_first()?;
    if is_same(item, first) {
        Some(others)
    } else {
        None
    }
}

// Whether both are starts or ends of elements, and the same. Two characters count as others.
fn is_same(item: &Item, other: &Item) -> bool
    ensures { result ≡ true → item.now ≡ other.now }
{
    is_same_content(&item.content, &other.content) && item.notes.same(&other.notes)
}

fn is_same_content(content: &Content, other: &Content) -> bool
    ensures { result ≡ true → content.now ≡ other.now }
{
    match content {
        Content::Character(_) => false,
        Content::Start { kind, attributes } => is_start(other, kind, attributes),
        Content::End => match other {
            Content::Character(_) => false,
            Content::Start { .. } => false,
            Content::End => true,
        },
    }
}

fn is_start(content: &Content, kind: &Text, attributes: &Attributes) -> bool
    ensures { result ≡ true → content.now ≡ Start kind.now attributes.now }
{
    match content {
        Content::Character(_) => false,
        Content::Start {
            kind: own,
            attributes: owned,
        } => own.same(kind) && owned.same(attributes),
        Content::End => false,
    }
}

// Puts an item for each character of the text after those of `to`, with these annotations.
fn copy_characters(text: &str, notes: &Notes, to: &mut Vec<Item>) -> Result<(), Memory>
    ensures { OnOk result (to.new.items ≡ to.old.items ++ character_items notes.now (chars text.now)) }
{
    for c in text.chars() {
        let content = Content::Character(c);
        let notes = notes.copy()?;
        to.push(Item { content, notes })?;
    }
    Ok(())
}

// Puts the items as runs after those of `runs`.
pub(crate) fn push_items(alloc: Global, items: &[Item], runs: &mut Vec<Run>) -> Result<(), Memory>
    ensures { OnOk result (all_items runs.new.items ≡ all_items runs.old.items ++ items.now) }
{
    let mut rest = items;
    while !rest.is_empty() {
        let count = push_front(alloc, rest, runs)?;
        rest = rest.split_at(count).1;
    }
    Ok(())
}

// Puts the first of the items, and the characters that go on with it, as one run, and answers how many these are.
fn push_front(alloc: Global, items: &[Item], runs: &mut Vec<Run>) -> Result<usize, Memory>
    requires { 0 < length items.now }
    ensures runs { IfOk result (λ count. all_items runs.new.items ≡ all_items runs.old.items ++ take count items.now) }
    ensures some { IfOk result (λ count. 0 < count) }
    ensures fits { IfOk result (λ count. count ≤ length items.now) }
{
    let first = &items[0];
    let front = characters(alloc, items, &first.notes)?;
    let count = front.count;
    if count == 0 {
        runs.push(Run::One(first.copy(alloc)?))?;
        Ok(1)
    } else {
        let text = front.text;
        let notes = first.notes.copy()?;
        runs.push(Run::Characters { text, notes })?;
        Ok(count)
    }
}
