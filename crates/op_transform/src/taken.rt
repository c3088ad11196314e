// Runs that take items.
ghost use Rattle.std.specs.Prelude.{◌≡◌, ◌≤◌, ◌<◌, take};
ghost use Rattle.doc_items.specs.Changes.{ChangeSet};
ghost use Rattle.op_transform.specs.Taken.{taken_actions, taken_len, IsFitTaken};

use doc_op::ContentRun;
use op_runs::Kept;

/// A run that takes items.
#[derive(Clone, Copy)]
pub(crate) enum Taken<'a> {
    /// They stay.
    Kept(Kept<'a>),
    /// They are deleted.
    Deleted(ContentRun<'a>),
}

impl<'a> Taken<'a> {
    /// How many items it takes.
    pub fn len(self) -> u64
        ensures { result ≡ taken_len self.entry }
    {
        match self {
            Taken::Kept(kept) => kept.count,
            Taken::Deleted(run) => run.len(),
        }
    }

    /// So much of it as takes the first items.
    #[tactic(auto, using(crate::proofs::Runs::firsts))]
    pub fn first(self, count: u64) -> Taken<'a>
        requires fit { IsFitTaken self }
        requires some { 0 < count }
        requires fewer { count ≤ taken_len self }
        ensures actions { (u : ChangeSet) → taken_actions u result ≡ take count (taken_actions u self.entry) }
        ensures length { taken_len result ≡ count }
        ensures fit { IsFitTaken result }
    {
        match self {
            Taken::Kept(kept) => Taken::Kept(Kept {
                count,
                part: kept.part,
            }),
            Taken::Deleted(run) => Taken::Deleted(run.first(count)),
        }
    }
}
