// A document of more items than memory would hold.
ghost use Rattle.std.specs.Prelude.{min, replicate};
ghost use Rattle.doc_items.specs.Limits.{max_count};

use doc_items::{Item, MAX_COUNT};
use op_build::Items;

/// So many items, but at most `MAX_COUNT`, each of which is this one.
#[derive(Drop)]
pub struct Alike {
    pub count: u64,
    pub item: Item,
}

impl Items for Alike {
    ghost items = { λ a. replicate (min a.count max_count) a.item };

    fn len(&self) -> u64 {
        self.count.min(MAX_COUNT)
    }

    #[tactic(auto, using(crate::proofs::Same::item_there, crate::proofs::Same::item_past))]
    fn item(&self, place: u64) -> Option<&Item> {
        if place < self.count.min(MAX_COUNT) {
            Some(&self.item)
        } else {
            None
        }
    }
}
