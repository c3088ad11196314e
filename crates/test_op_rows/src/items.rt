// Texts, maps and sets of changes.
ghost use Rattle.std.specs.Prelude.{IfOk};
ghost use Rattle.doc_items.specs.Changes.{IsAscending};

use crate::fault::Fault;
use change_table::ChangeTable;
use change_view::{ChangeView, Rule, Test};
use doc_items::{Boundary, Change, Changes, Keys, Memory, Notes, Text, TextMap};
use std::alloc::Global;
use test_row_words::{parts, put, put_either, put_number};

fn put_characters(alloc: Global, text: &Text, out: &mut String) -> Result<(), Fault> {
    out.push_str(" =>")?;
    for character in text.to_chars(alloc)?.as_slice() {
        out.push(' ')?;
        out.push(*character)?;
    }
    Ok(())
}

// The number of characters, each of them, and whether the texts are the same.
fn put_text(alloc: Global, rest: &str, out: &mut String) -> Result<(), Fault> {
    let (text, other) = parts(rest);
    let text = Text::from_str(alloc, text)?.copy(alloc)?;
    let other = Text::from_str(alloc, other)?;
    put_number(out, text.len())?;
    put_characters(alloc, &text, out)?;
    put_either(out, text.is_empty(), "empty", "some")?;
    Ok(put_either(out, text.same(&other), "same", "other")?)
}

// Each `KEY=VALUE` sets a value, and each `KEY` takes it away.
fn set_all(alloc: Global, list: &str, map: &mut TextMap) -> Result<(), Fault> {
    for part in list.split(' ') {
        match part.split_once('=') {
            Some((key, value)) => map.set(alloc, key, Some(value))?,
            None => map.set(alloc, part, None)?,
        }
    }
    Ok(())
}

fn map_of(alloc: Global, list: &str) -> Result<TextMap, Fault> {
    let mut map = TextMap::new(alloc);
    if !list.is_empty() {
        set_all(alloc, list, &mut map)?;
    }
    Ok(map)
}

fn put_map(map: &TextMap, out: &mut String) -> Result<(), Fault> {
    out.push_str(" =>")?;
    for (key, value) in map.iter() {
        out.push(' ')?;
        out.push_str(key.as_str())?;
        out.push('=')?;
        out.push_str(value.as_str())?;
    }
    Ok(())
}

fn put_maps(map: &TextMap, copy: &TextMap, out: &mut String) -> Result<(), Fault> {
    put_map(copy, out)?;
    put_map(map, out)?;
    Ok(put_either(out, map.same(copy), "same", "other")?)
}

// A copy, what more makes of the map that was copied, and whether they are the same.
fn put_notes(alloc: Global, rest: &str, out: &mut String) -> Result<(), Fault> {
    let (first, more) = parts(rest);
    let mut map: Notes = map_of(alloc, first)?;
    let copy = map.copy()?;
    set_all(alloc, more, &mut map)?;
    put_maps(&map, &copy, out)
}

fn value_of(alloc: Global, word: &str) -> Result<Option<Text>, Memory> {
    if word == "_" {
        return Ok(None);
    }
    Ok(Some(Text::from_str(alloc, word)?))
}

// The change `KEY=OLD:NEW`, which ascends as it stands.
fn one(alloc: Global, word: &str) -> Result<Changes, Memory>
    ensures { IfOk result (λ cs. IsAscending cs) }
{
    let (key, values) = word.split_once('=').unwrap_or((word, "_:_"));
    let (old, new) = values.split_once(':').unwrap_or((values, values));
    let key = Text::from_str(alloc, key)?;
    let old = value_of(alloc, old)?;
    let new = value_of(alloc, new)?;
    let mut list = Vec::new(alloc);
    list.push(Change { key, old, new })?;
    Ok(Changes::from_vec(list))
}

fn push_value(value: &Option<Text>, out: &mut String) -> Result<(), Fault> {
    match value {
        Some(text) => Ok(out.push_str(text.as_str())?),
        None => Ok(out.push('_')?),
    }
}

fn push_changes(changes: &[Change], out: &mut String) -> Result<(), Fault> {
    for change in changes {
        out.push(' ')?;
        out.push_str(change.key.as_str())?;
        out.push('=')?;
        push_value(&change.old, out)?;
        out.push(':')?;
        push_value(&change.new, out)?;
    }
    Ok(())
}

fn put_changes(changes: &Changes, out: &mut String) -> Result<(), Fault> {
    out.push_str(" =>")?;
    push_changes(changes.as_slice(), out)
}

// Whether a change agrees with a map, the map with it, and whether it agrees again.
fn put_changed(
    alloc: Global,
    map: &mut TextMap,
    changes: &Changes,
    out: &mut String,
) -> Result<(), Fault>
    requires { IsAscending changes.now }
{
    put_either(out, changes.agrees(map), "agrees", "doesn't")?;
    changes.put(alloc, map)?;
    put_map(map, out)?;
    Ok(put_either(out, changes.agrees(map), "agrees", "doesn't")?)
}

fn put_change(alloc: Global, rest: &str, out: &mut String) -> Result<(), Fault> {
    let (map, change) = parts(rest);
    let changes = one(alloc, change)?;
    let mut map = map_of(alloc, map)?;
    put_changed(alloc, &mut map, &changes, out)
}

// Whether the second fits after the first, and both together.
fn put_both<'a>(
    alloc: Global,
    first: &'a Changes,
    second: &'a Changes,
    out: &mut String,
) -> Result<(), Fault>
    requires first { IsAscending first.now }
    requires second { IsAscending second.now }
{
    let before = ChangeView::of(alloc, first)?;
    let after = ChangeView::of(alloc, second)?;
    let both = before.merged(alloc, &after, Rule::Then)?;
    put_either(
        out,
        before.passes(&after, Test::NewIsOld),
        "fits",
        "doesn't",
    )?;
    put_changes(&both.to_changes(alloc)?, out)
}

fn put_then(alloc: Global, rest: &str, out: &mut String) -> Result<(), Fault> {
    let (first, second) = parts(rest);
    let first = one(alloc, first)?;
    let second = one(alloc, second)?;
    put_both(alloc, &first, &second, out)
}

fn put_boundary(boundary: &Boundary, out: &mut String) -> Result<(), Fault> {
    out.push_str(" =>")?;
    for key in boundary.end.as_slice() {
        out.push_str(" !")?;
        out.push_str(key.as_str())?;
    }
    push_changes(boundary.change.as_slice(), out)
}

fn put_step<'a>(
    alloc: Global,
    running: &Changes,
    next: &'a Changes,
    out: &mut String,
) -> Result<(), Fault>
    requires { IsAscending next.now }
{
    let end = Keys::from_vec(Vec::new(alloc));
    let change = running.copy(alloc)?;
    let mut table = ChangeTable::new(alloc);
    table.step(alloc, &Boundary { end, change })?;
    let turn = table.turn_to(alloc, &ChangeView::of(alloc, next)?)?;
    put_either(out, turn.is_none(), "same", "other")?;
    match turn {
        Some(boundary) => put_boundary(&boundary, out),
        None => Ok(out.push_str(" =>")?),
    }
}

// Whether the changes that run and the next ones are the same, and the boundary between them.
fn put_between(alloc: Global, rest: &str, out: &mut String) -> Result<(), Fault> {
    let (running, next) = parts(rest);
    let running = one(alloc, running)?;
    let next = one(alloc, next)?;
    put_step(alloc, &running, &next, out)
}

fn put_back<'a>(
    alloc: Global,
    changes: &'a Changes,
    map: &'a TextMap,
    out: &mut String,
) -> Result<(), Fault>
    requires { IsAscending changes.now }
{
    let view = ChangeView::of(alloc, changes)?;
    let after = view.put_on(alloc, map)?;
    let turned = view.turned(alloc)?;
    let started = view.start_at(alloc, map)?;
    put_either(out, view.fits(map), "fits", "doesn't")?;
    put_either(out, started.fits(map), "fits", "doesn't")?;
    put_map(&after, out)?;
    put_either(out, turned.fits(&after), "fits", "doesn't")?;
    put_map(&turned.put_on(alloc, &after)?, out)
}

// A map is changed there and back.
fn put_there(alloc: Global, rest: &str, out: &mut String) -> Result<(), Fault> {
    let (map, change) = parts(rest);
    let map = map_of(alloc, map)?;
    let changes = one(alloc, change)?;
    put_back(alloc, &changes, &map, out)
}

fn put_sides_of<'a>(alloc: Global, changes: &'a Changes, out: &mut String) -> Result<(), Fault>
    requires { IsAscending changes.now }
{
    let view = ChangeView::of(alloc, changes)?;
    put_changes(&view.inserted(alloc)?.to_changes(alloc)?, out)?;
    put_changes(&view.deleted(alloc)?.to_changes(alloc)?, out)
}

// What a change is of items that are inserted, and of items that are deleted.
fn put_sides(alloc: Global, rest: &str, out: &mut String) -> Result<(), Fault> {
    let changes = one(alloc, rest)?;
    put_sides_of(alloc, &changes, out)
}

/// The answers to `text`, `map`, `change`, `then`, `between`, `there` and `sides`.
pub fn call(alloc: Global, verb: &str, rest: &str, out: &mut String) -> Result<bool, Fault> {
    match verb {
        "text" => put_text(alloc, rest, out)?,
        "map" => put_notes(alloc, rest, out)?,
        "change" => put_change(alloc, rest, out)?,
        "then" => put_then(alloc, rest, out)?,
        "between" => put_between(alloc, rest, out)?,
        "there" => put_there(alloc, rest, out)?,
        "sides" => put_sides(alloc, rest, out)?,
        _ => return Ok(false),
    }
    Ok(true)
}
