// A walk over the items of a rope.
ghost use Rattle.std.specs.Prelude.{◌≡◌, ◌+◌, ◌^◌, ◌<◌, ◌≤◌, length, drop, slice_get};
ghost use Rattle.std.specs.Option.{option_copied};
ghost use Rattle.doc_items.specs.Limits.{max_count};
ghost use Rattle.doc_rope.specs.Runs.{IsRun};

use crate::Rope;
use doc_items::Item;
use std::marker::Model;

/// A walk over the items of a rope, seen as the list of those that are left. It passes over any number of items without
/// looking at them.
#[derive(Drop)]
pub struct Reader<'a> {
    rope: &'a Rope,
    // The items from the place on as far as their piece reaches.
    run: &'a [Item],
    place: u64,
}

impl<'a> Model for Reader<'a> {
    ghost use Rattle.std.specs.Prelude.{List, drop, length, ◌≤◌};
    ghost use Rattle.std.specs.Coded.{coded_list};
    ghost use Rattle.doc_items.specs.declared.item.Item.{Item};
    ghost use Rattle.doc_items.specs.contracts.item.Item as item_row;
    ghost use Rattle.doc_rope.specs.Runs.{IsRun};

    ghost Value = { List Item };

    ghost coded = { coded_list item_row.the_row.coded };

    ghost view = { λ r. drop r.place r.rope.now };

    ghost invariant = { λ r. (r.place ≤ length r.rope.now) × IsRun r.rope.now r.place r.run.now };
}

impl<'a> Reader<'a> {
    /// A walk from the first item on.
    pub(crate) fn new(rope: &'a Rope) -> Reader<'a>
        ensures { result ≡ rope.now }
    {
        let run = run_from(rope, 0);
        Reader {
            rope,
            run,
            place: 0,
        }
    }

    /// The number of items that are left.
    pub fn len(&self) -> u64
        ensures value { result ≡ length self.now }
        ensures bound { result ≤ max_count }
    {
        self.rope.len() - self.place
    }

    /// The first item that is left; None exactly where none is.
    pub fn first(&self) -> Option<&Item>
        ensures { option_copied result ≡ slice_get self.now 0 }
    {
        self.run.first()
    }

    /// Passes over the next `count` items, of which there are so many.
    pub fn skip(&mut self, count: u64)
        requires { count ≤ length self.old }
        ensures { self.new ≡ drop count self.old }
    {
        // What is passed over lies in the rope, so its end is a place.
        let _whole = self.rope.len();
        self.run = run_after(self.rope, self.run, self.place, count);
        self.place += count;
    }
}

// The run from `count` items after a place on, where the place has this run.
#[tactic(auto, using(crate::proofs::Items::run_further))]
fn run_after<'a>(rope: &'a Rope, run: &'a [Item], place: u64, count: u64) -> &'a [Item]
    requires run { IsRun rope.now place run.now }
    requires fits { place + count < 2 ^ 64 }
    ensures { IsRun rope.entry.now (place + count) result.now }
{
    if count < run.len() as u64 {
        run.split_at(count as usize).1
    } else {
        run_from(rope, place + count)
    }
}

// The items from a place on as far as their piece reaches.
fn run_from<'a>(rope: &'a Rope, place: u64) -> &'a [Item]
    ensures { IsRun rope.now place result.now }
{
    match rope.run(place) {
        Some(run) => run,
        None => &[],
    }
}
