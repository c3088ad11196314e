// Hubs that are closed.
ghost use Rattle.std.specs.Prelude.{◌≡◌, ℕ, length, slice_get, IfSome};
ghost use mathlib.Core.List.{IsPrefix};
ghost use Rattle.session_hub.specs.Entries.{entries_of};
ghost use Rattle.shard_marks.specs.Passes.{marks_of};
ghost use Rattle.session_hub.specs.Hubs.{AreOfHub};

use crate::hub::{Hub, Passes};
use crate::shard::Shard;
use wave_outside::Folder;

impl<F: Folder + Drop> Hub<F> {
    /// Ends the hub, and gives its sixteen shards, in order, whose marks begin with what the passes have seen. None where the `close` of a
    /// cell gave None, after which the shards are dropped.
    pub fn close(self, passes: Passes<F>) -> Option<Vec<Shard<F>>>
        requires { AreOfHub self passes }
        ensures sixteen { IfSome result (λ shards. length shards.items ≡ 16) }
        ensures seen { IfSome result
            (λ shards. (k : ℕ) → IfSome (slice_get shards.items k) (λ s. IsPrefix (marks_of passes k) (entries_of s))) }
    {
        self.into_cells().close(passes)
    }
}
