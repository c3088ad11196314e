ghost use Rattle.std.specs.Prelude.{◌≡◌, ◌≤◌, List, length, slice_get};
ghost use Rattle.std.specs.Option.{option_copied};
ghost use Rattle.doc_items.specs.Limits.{max_count};
ghost use Rattle.doc_items.specs.declared.item.Item as item_spec;

use doc_items::{Document, Item};
use doc_rope::Rope;

/// Items by place, of which there are at most `MAX_COUNT`: a document, whole or in pieces.
pub trait Items {
    /// The items, in order.
    ghost items: { Self → List item_spec.Item };

    /// The number of items.
    fn len(&self) -> u64
        ensures value { result ≡ length (items self.now) }
        ensures bound { result ≤ max_count };

    /// The item at a place, counted from 0; None exactly where the place isn't below the length.
    fn item(&self, place: u64) -> Option<&Item>
        ensures { option_copied result ≡ slice_get (items self.now) place };
}

impl Items for Document {
    ghost items = { λ d. d };

    fn len(&self) -> u64 {
        Document::len(self)
    }

    fn item(&self, place: u64) -> Option<&Item> {
        Document::item(self, place)
    }
}

impl Items for Rope {
    ghost items = { λ r. r };

    fn len(&self) -> u64 {
        Rope::len(self)
    }

    fn item(&self, place: u64) -> Option<&Item> {
        Rope::item(self, place)
    }
}
