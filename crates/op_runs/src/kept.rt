ghost use Rattle.std.specs.Prelude.{◌≡◌, ◌≤◌, ◌<◌, take};
ghost use Rattle.doc_items.specs.Changes.{ChangeSet};
ghost use Rattle.doc_op.specs.Apply.{is_unchanged};
ghost use Rattle.op_runs.specs.Kept.{kept_change, kept_actions, IsFitKept};

use doc_op::AttributePart;

/// So many items that stay; where one element's attributes change, it is one item.
#[derive(Clone, Copy)]
pub struct Kept<'a> {
    pub count: u64,
    pub part: Option<AttributePart<'a>>,
}

impl<'a> Kept<'a> {
    /// Whether no attributes change.
    pub fn is_plain(self) -> bool
        ensures { result ≡ is_unchanged (kept_change self.entry.part) }
    {
        match self.part {
            None => true,
            Some(_) => false,
        }
    }

    /// The first of its items.
    #[tactic(auto, using(crate::proofs::Runs::firsts))]
    pub fn first(self, count: u64) -> Kept<'a>
        requires fit { IsFitKept self }
        requires some { 0 < count }
        requires fewer { count ≤ self.count }
        ensures actions { (u : ChangeSet) → kept_actions u result ≡ take count (kept_actions u self.entry) }
        ensures count { result.count ≡ count }
        ensures fit { IsFitKept result }
    {
        Kept {
            count,
            part: self.part,
        }
    }
}
