// What is done with no turn: passes split and joined, and looks at lengths.
ghost use Rattle.std.specs.Prelude.{◌≡◌, ◌<◌, ◌≤◌, ◌+◌, ℕ, length, IfOk};
ghost use Rattle.turn_cells.specs.Cells.{AreSame, AreOthersSame, Begins, BeginsAt, IsUnused, loads_at, added_at};
ghost use Rattle.shard_marks.specs.Passes.{marks_of};
ghost use Rattle.session_hub.specs.Hubs.{AreOfHub};
ghost use Rattle.shard_marks.specs.Looks.{Tells};

use crate::hub::{Hub, Passes};
use doc_items::Memory;
use shard_marks::News;
use std::alloc::Global;
use wave_outside::Folder;

impl<F: Folder + Drop> Hub<F> {
    /// Second passes, which have seen as much. The error is want of memory.
    pub fn split(&self, alloc: Global, passes: &mut Passes<F>) -> Result<Passes<F>, Memory>
        requires { AreOfHub self.now passes.old }
        ensures old { AreOfHub self.now passes.new × AreSame passes.old passes.new }
        ensures new { IfOk result (AreOfHub self.now) }
        ensures seen { IfOk result (λ made. (k : ℕ) → k < 16 → marks_of made k ≡ marks_of passes.old k) }
        ensures unused { IfOk result (λ made. (k : ℕ) → k < 16 → IsUnused made k) }
    {
        self.cells.split(alloc, passes)
    }

    /// Takes in what other passes have seen: of each shard the longer stays, and begins with both.
    pub fn join(&self, passes: &mut Passes<F>, other: Passes<F>)
        requires { AreOfHub self.now passes.old × AreOfHub self.now other }
        ensures own { AreOfHub self.now passes.new }
        ensures later { Begins passes.old passes.new × Begins other passes.new }
        ensures counts { (k : ℕ) → k < 16 → (loads_at passes.new k ≡ loads_at passes.old k)
            × (added_at passes.new k ≡ added_at passes.old k) }
    {
        self.cells.join(passes, other);
    }

    /// Whether a shard's history has another length than `sent`, with no turn and no waiting. The pass has then seen it up to that length.
    pub fn news(&self, passes: &mut Passes<F>, shard: u8, sent: u64) -> News
        requires own { AreOfHub self.now passes.old }
        requires shard { shard < 16 }
        ensures own { AreOfHub self.now passes.new }
        ensures others { AreOthersSame shard passes.old passes.new }
        ensures later { BeginsAt passes.old passes.new shard }
        ensures counts { (loads_at passes.new shard ≡ loads_at passes.old shard + 1)
            × (added_at passes.new shard ≡ added_at passes.old shard) }
        ensures tells { Tells sent (length (marks_of passes.new shard)) result }
    {
        let length = self.cells.head(passes, shard as usize);
        if length == sent {
            News::Nothing
        } else {
            News::Grown { length }
        }
    }
}
