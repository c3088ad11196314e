// The items of a document, read where they stand.
ghost use Rattle.std.specs.Prelude.{◌≡◌, ◌≤◌, length, take};
ghost use Rattle.doc_rope.specs.Runs.{IsRun};
ghost use Rattle.op_invert.specs.Walks.{items_of};

use doc_items::Item;
use doc_rope::Rope;

/// A document, in pieces or not.
#[derive(Clone, Copy)]
pub(crate) enum Items<'a> {
    /// A plain document.
    Plain(&'a [Item]),
    /// A document in pieces.
    Pieces(&'a Rope),
}

impl<'a> Items<'a> {
    /// The items from a place on that stand in a row; none only at the end.
    pub fn run(self, place: u64) -> &'a [Item]
        requires { place ≤ length (items_of self) }
        ensures { IsRun (items_of self.entry) place result.now }
    {
        match self {
            Items::Plain(items) => rest(items, place),
            Items::Pieces(rope) => piece(rope, place),
        }
    }
}

#[tactic(auto, using(crate::proofs::Reading::rest_is_run))]
fn rest(items: &[Item], place: u64) -> &[Item]
    requires { place ≤ length items.now }
    ensures { IsRun items.now place result.now }
{
    items.split_at(place as usize).1
}

// The items from a place on as far as their piece reaches.
fn piece(rope: &Rope, place: u64) -> &[Item]
    ensures { IsRun rope.now place result.now }
{
    match rope.run(place) {
        Some(run) => run,
        None => &[],
    }
}

/// The first items of a run, so many at most.
#[tactic(auto, using(crate::proofs::Reading::take_whole))]
pub(crate) fn at_most(run: &[Item], count: u64) -> &[Item]
    ensures { result.now ≡ take count run.now }
{
    if count < run.len() as u64 {
        run.split_at(count as usize).0
    } else {
        run
    }
}
