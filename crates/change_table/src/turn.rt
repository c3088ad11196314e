// What leads from written changes to others.
ghost use Rattle.std.specs.Prelude.{◌≡◌, IfOk, IfSome, OnOk};
ghost use Rattle.std.specs.Option.{option_map};
ghost use Rattle.doc_items.specs.Changes.{none_running};
ghost use Rattle.change_view.specs.Rules.{one_under, one_unlike};
ghost use Rattle.change_view.specs.Lists.{value_of};
ghost use Rattle.change_table.specs.Turns.{with_change, IsBetween};

use crate::ChangeTable;
use change_view::{ChangeRef, ChangeView, Rule};
use doc_items::{Boundary, Memory};
use std::alloc::Global;

/// The written changes whose keys end, and the changes that aren't written so.
pub(crate) struct Turn {
    pub ended: ChangeTable,
    pub changed: ChangeTable,
}

impl Drop for Turn {
    fn drop(self) {
        let Turn {
            ended: _ended,
            changed: _changed,
        } = self;
    }
}

impl Turn {
    /// Nothing ends, and nothing changes.
    pub fn new(alloc: Global) -> Turn
        ensures ended { result.ended ≡ none_running }
        ensures changed { result.changed ≡ none_running }
    {
        Turn {
            ended: ChangeTable::new(alloc),
            changed: ChangeTable::new(alloc),
        }
    }

    /// What ends or changes at a key, from what is written there to what is to run.
    pub fn add(
        &mut self,
        alloc: Global,
        key: &str,
        written: Option<ChangeRef<'_>>,
        shown: Option<ChangeRef<'_>>,
    ) -> Result<(), Memory>
        ensures ended { OnOk result (self.new.ended
            ≡ with_change self.old.ended key.now (one_under (option_map value_of written.entry) (option_map value_of shown.entry))) }
        ensures changed { OnOk result (self.new.changed
            ≡ with_change self.old.changed key.now (one_unlike (option_map value_of shown.entry) (option_map value_of written.entry))) }
    {
        let ended = Rule::Under.combine(key, written, shown);
        let changed = Rule::Unlike.combine(key, shown, written);
        self.ended.add(alloc, ended)?;
        self.changed.add(alloc, changed)?;
        Ok(())
    }

    /// The boundary; None exactly where nothing ends and nothing changes.
    pub fn boundary(&self, alloc: Global) -> Result<Option<Boundary>, Memory>
        ensures { IfOk result (λ turn. IsBetween turn self.now.ended self.now.changed) }
    {
        let ended = self.ended.view(alloc)?;
        let changed = self.changed.view(alloc)?;
        between(alloc, &ended, &changed)
    }
}

/// The boundary at which these changes end and those begin; None where there are none of either.
pub(crate) fn between(
    alloc: Global,
    ended: &ChangeView<'_>,
    changed: &ChangeView<'_>,
) -> Result<Option<Boundary>, Memory>
    ensures { IfOk result (λ turn. IsBetween turn ended.now changed.now) }
{
    if ended.is_empty() && changed.is_empty() {
        return Ok(None);
    }
    // For the proof: both are texts.
    let _ended_texts = ended.as_slice();
    let _changed_texts = changed.as_slice();
    let end = ended.to_keys(alloc)?;
    let change = changed.to_changes(alloc)?;
    Ok(Some(Boundary { end, change }))
}
