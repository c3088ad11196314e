// What is ahead in an operation.
ghost use Rattle.std.specs.Prelude.{◌≡◌};
ghost use Rattle.doc_op.specs.Cursors.{left};
ghost use Rattle.op_runs.specs.Ahead.{ahead_actions, IsFitAhead, IsLast};

use crate::Kept;
use doc_op::{ContentRun, Cursor, Head};

/// The run at which a cursor stands.
#[derive(Clone, Copy)]
pub enum Ahead<'a> {
    /// Nothing is left.
    Nothing,
    /// The run is inserted.
    Inserts(ContentRun<'a>),
    /// The run is deleted.
    Deletes(ContentRun<'a>),
    /// Items stay.
    Keeps(Kept<'a>),
}

/// What a cursor stands at; `Nothing` exactly where no action is left.
pub fn ahead_of<'a>(cursor: &'a Cursor<'_>) -> Ahead<'a>
    ensures actions { ahead_actions cursor.now.under result ≡ cursor.now.front }
    ensures fit { IsFitAhead result }
    ensures end { IsLast result (left cursor.now) }
{
    match cursor.head() {
        Head::Keep(count) => Ahead::Keeps(Kept { count, part: None }),
        Head::Change(part) => Ahead::Keeps(Kept {
            count: 1,
            part: Some(part),
        }),
        Head::Insert(run) => Ahead::Inserts(run),
        Head::Delete(run) => Ahead::Deletes(run),
        Head::Nothing => Ahead::Nothing,
    }
}
