ghost use Rattle.doc_items.specs.Changes.{IsAscending};
ghost use Rattle.annotation_track.specs.Spots.{IsSpot};

use doc_items::{Change, Text};
use std::cmp::Ordering;

/// Where a key stands in a list of changes in byte order.
#[derive(Clone, Copy)]
pub(crate) enum Spot {
    /// The change at this index is the key's.
    Here(usize),
    /// No change is the key's, and its own would stand before the one at this index.
    Before(usize),
}

/// Where the key stands, or would stand: the list is halved until one place is left.
pub(crate) fn find(list: &[Change], key: &Text) -> Spot
    requires { IsAscending list.now }
    ensures { IsSpot list.now key.now result }
{
    let mut low = 0usize;
    let mut high = list.len();
    while low < high {
        let middle = low + (high - low) / 2;
        match key.as_str().cmp(list[middle].key.as_str()) {
            Ordering::Less => high = middle,
            Ordering::Equal => return Spot::Here(middle),
            Ordering::Greater => low = middle + 1,
        }
    }
    Spot::Before(low)
}
