// Items in a row, which documents share.
ghost use Rattle.std.specs.Prelude.{◌≡◌, ◌++◌, true, IfOk, OnOk};

use crate::run::{Run, push_items};
use doc_items::{Item, Memory};
use std::alloc::Global;
use std::marker::Model;

// Seen as its items.
#[derive(Drop)]
pub(crate) struct PackedPiece {
    runs: Vec<Run>,
}

impl Model for PackedPiece {
    ghost use Rattle.std.specs.Prelude.{List};
    ghost use Rattle.std.specs.Coded.{coded_list};
    ghost use Rattle.doc_items.specs.declared.item.Item.{Item};
    ghost use Rattle.doc_items.specs.contracts.item.Item as item_row;
    ghost use Rattle.doc_pack.specs.Packed.{all_items};

    ghost Value = { List Item };

    ghost coded = { coded_list item_row.the_row.coded };

    ghost view = { λ p. all_items p.runs.items };
}

impl PackedPiece {
    // These items.
    pub fn pack(alloc: Global, items: &[Item]) -> Result<PackedPiece, Memory>
        ensures { IfOk result (λ p. p ≡ items.now) }
    {
        let mut runs = Vec::new(alloc);
        push_items(alloc, items, &mut runs)?;
        Ok(PackedPiece { runs })
    }

    // Whether it has these items, run by run. Those that are cut into other runs may count as others.
    pub fn is(&self, items: &[Item]) -> bool
        ensures { result ≡ true → self.now ≡ items.now }
    {
        let mut rest = items;
        for run in &self.runs {
            match run.after(rest) {
                Some(others) => rest = others,
                None => return false,
            }
        }
        rest.is_empty()
    }

    // Puts copies of the items after those of `to`.
    pub fn copy_to(&self, alloc: Global, to: &mut Vec<Item>) -> Result<(), Memory>
        ensures { OnOk result (to.new.items ≡ to.old.items ++ self.now) }
    {
        for run in &self.runs {
            run.copy_to(alloc, to)?;
        }
        Ok(())
    }
}
