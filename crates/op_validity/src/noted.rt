// What changes make of maps of texts.
ghost use Rattle.std.specs.Prelude.{◌≡◌, IfOk};
ghost use Rattle.doc_items.specs.Changes.{change_set, put};
ghost use Rattle.op_validity.specs.Walks.{IsNoted};

use doc_items::{Changes, Memory, Notes, TextMap};
use std::alloc::Global;

/// The annotations of an item that was kept, and what the running changes made of them.
pub(crate) struct Noted {
    before: Notes,
    after: Notes,
}

impl Drop for Noted {
    fn drop(self) {
        let Noted {
            before: _before,
            after: _after,
        } = self;
    }
}

/// What the running changes make of an item's annotations. Items in a row whose annotations are equal share what is made of them.
pub(crate) fn notes_after(
    alloc: Global,
    running: &Changes,
    last: &mut Option<Noted>,
    notes: &Notes,
) -> Result<Notes, Memory>
    requires { IsNoted (change_set running.now) last.old }
    ensures value { IfOk result (λ m. m ≡ put (change_set running.now) notes.now) }
    ensures noted { IsNoted (change_set running.now) last.new }
{
    if running.as_slice().is_empty() {
        return notes.copy();
    }
    if let Some(noted) = last {
        if noted.before.same(notes) {
            return noted.after.copy();
        }
    }
    let after = changed(alloc, running, notes)?;
    let before = notes.copy()?;
    let shared = after.copy()?;
    *last = Some(Noted {
        before,
        after: shared,
    });
    Ok(after)
}

/// The map with the changes put.
pub(crate) fn changed(alloc: Global, changes: &Changes, map: &TextMap) -> Result<TextMap, Memory>
    ensures { IfOk result (λ m. m ≡ put (change_set changes.now) map.now) }
{
    let mut copy = map.copy()?;
    changes.put(alloc, &mut copy)?;
    Ok(copy)
}
