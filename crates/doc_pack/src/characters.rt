// Characters in a row.
ghost use Rattle.std.specs.Prelude.{◌≡◌, length, string_bytes, IfOk, IfSome};
ghost use Rattle.std.specs.Str.{chars};
ghost use Rattle.doc_pack.specs.Characters.{character_item, AreCharacters};

use doc_items::{Content, Item, Memory, Notes};
use std::alloc::Global;

/// The character of an item that has these annotations; None for any other item.
pub fn character(item: &Item, notes: &Notes) -> Option<char>
    ensures { IfSome result (λ c. item.now ≡ character_item c notes.now) }
{
    match &item.content {
        Content::Character(c) => {
            if item.notes.same(notes) {
                Some(*c)
            } else {
                None
            }
        }
        Content::Start { .. } => None,
        Content::End => None,
    }
}

// Characters, and how many they are.
#[derive(Drop)]
pub(crate) struct Front {
    pub text: String,
    pub count: usize,
}

// The characters with which the items begin, as far as they have these annotations.
pub(crate) fn characters(alloc: Global, items: &[Item], notes: &Notes) -> Result<Front, Memory>
    ensures are { IfOk result (λ f. AreCharacters items.now notes.now (chars (string_bytes f.text))) }
    ensures count { IfOk result (λ f. f.count ≡ length (chars (string_bytes f.text))) }
{
    let mut text = String::new(alloc);
    let mut count = 0;
    for item in items {
        match character(item, notes) {
            Some(c) => {
                text.push(c)?;
                count += 1;
            }
            None => return Ok(Front { text, count }),
        }
    }
    Ok(Front { text, count })
}
