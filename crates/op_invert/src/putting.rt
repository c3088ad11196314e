// Items that are inserted as they are.
ghost use Rattle.std.specs.Prelude.{◌≡◌, ◌<◌, ◌≤◌, ◌+◌, ◌++◌, ◌∷◌, [], length, map, take, IfOk, IfSome, OnOk};
ghost use Rattle.doc_items.specs.Limits.{max_count};
ghost use Rattle.doc_items.specs.declared.item.Content.TheVariants.{Character};
ghost use Rattle.change_view.specs.Sets.{from_absent};
ghost use Rattle.doc_op.specs.Actions.{Ins, insertion};
ghost use Rattle.doc_op.specs.Lengths.{output_len};
ghost use Rattle.doc_pack.specs.Characters.{AreCharacters};

use change_view::ChangeView;
use doc_items::{Content, Item, Memory, Notes};
use doc_op::{ContentRun, NormalBuilder};
use doc_pack::character;
use std::alloc::Global;

/// Inserts these items as they are; characters in a row with the same annotations at once.
pub(crate) fn put_items(
    alloc: Global,
    out: &mut NormalBuilder,
    items: &[Item],
) -> Result<(), Memory>
    requires { output_len out.old + length items.now ≤ max_count }
    ensures { OnOk result (out.new ≡ out.old ++ map Ins items.now) }
{
    let mut rest = items;
    while !rest.is_empty() {
        let count = put_front(alloc, out, rest)?;
        rest = rest.split_at(count).1;
    }
    Ok(())
}

// Inserts the first of the items and the characters that go on with it, and answers how many these are.
fn put_front(alloc: Global, out: &mut NormalBuilder, items: &[Item]) -> Result<usize, Memory>
    requires given { 0 < length items.now }
    requires room { output_len out.old + length items.now ≤ max_count }
    ensures out { IfOk result (λ count. out.new ≡ out.old ++ map Ins (take count items.now)) }
    ensures some { IfOk result (λ count. 0 < count) }
    ensures fits { IfOk result (λ count. count ≤ length items.now) }
{
    let first = &items[0];
    let text = characters(alloc, items, &first.notes)?;
    if text.is_empty() {
        put_item(alloc, out, first)?;
        Ok(1)
    } else {
        put_text(alloc, out, text.as_slice(), &first.notes)?;
        Ok(text.len())
    }
}

// The characters with which the items begin, as far as they have these annotations.
fn characters(alloc: Global, items: &[Item], notes: &Notes) -> Result<Vec<char>, Memory>
    ensures { IfOk result (λ text. AreCharacters items.now notes.now text.items) }
{
    let mut text = Vec::new(alloc);
    for item in items {
        match character(item, notes) {
            Some(c) => text.push(c)?,
            None => return Ok(text),
        }
    }
    Ok(text)
}

fn put_text(
    alloc: Global,
    out: &mut NormalBuilder,
    text: &[char],
    notes: &Notes,
) -> Result<(), Memory>
    requires { output_len out.old + length text.now ≤ max_count }
    ensures { OnOk result (out.new ≡ out.old ++ map (insertion (from_absent notes.now)) (map Character text.now)) }
{
    let shown = ChangeView::of_map(alloc, notes)?;
    out.insert(alloc, ContentRun::Characters(text), &shown)?;
    Ok(())
}

#[tactic(auto, using(crate::proofs::Inserted::item_put))]
fn put_item(alloc: Global, out: &mut NormalBuilder, item: &Item) -> Result<(), Memory>
    requires { output_len out.old + 1 ≤ max_count }
    ensures { OnOk result (out.new ≡ out.old ++ Ins item.now ∷ []) }
{
    let shown = ChangeView::of_map(alloc, &item.notes)?;
    match &item.content {
        Content::Character(c) => {
            let one = [*c];
            out.insert(alloc, ContentRun::Characters(&one), &shown)?;
            Ok(())
        }
        Content::Start { kind, attributes } => {
            out.insert(alloc, ContentRun::Start { kind, attributes }, &shown)?;
            Ok(())
        }
        Content::End => {
            out.insert(alloc, ContentRun::End, &shown)?;
            Ok(())
        }
    }
}
