// What links with other domains ask the copies for.
ghost use Rattle.std.specs.Prelude.{◌≡◌, ◌<◌, ℕ, slice_get, IfOk, IfErr};
ghost use Rattle.turn_cells.specs.Cells.{Begins, loads_at, added_at};
ghost use Rattle.replica_store.specs.Listings.{IsSought};
ghost use Rattle.shard_marks.specs.Marks.{copied};
ghost use Rattle.shard_marks.specs.Passes.{HaveTurned, IsSpentAt, marks_of};
ghost use Rattle.session_hub.specs.Hubs.{AreOfHub};
ghost use Rattle.session_hub.specs.Items.{items_of, items_across};

use crate::fault::HubFault;
use crate::hub::{Hub, Passes};
use crate::seeking::{Item, Wanted};
use crate::turns;
use replica_store::Sought;
use std::alloc::Global;
use std::sync::Wait;
use turn_lock::Spent;
use wave_base::Domain;
use wave_outside::Folder;

impl<F: Folder + Drop> Hub<F> {
    // What is at a place of a shard's items for a domain.
    fn seek_at<R: Wait>(
        &self,
        rt: &R,
        alloc: Global,
        passes: &mut Passes<F>,
        wanted: Wanted,
        domain: &Domain,
        shard: u8,
        place: u64,
    ) -> Result<Sought<Item>, HubFault>
        requires own { AreOfHub self.now passes.old }
        requires shard { shard < 16 }
        ensures own { AreOfHub self.now passes.new }
        ensures turned { HaveTurned shard passes.old passes.new }
        ensures unadded { added_at passes.new shard ≡ added_at passes.old shard }
        ensures sought { IfOk result
            (IsSought (items_of wanted domain.now (copied self.now.domain shard (marks_of passes.new shard))) place) }
        ensures spent { IfErr result (λ e. (s : Spent) → e ≡ HubFault.Spent s → IsSpentAt passes.new shard s) }
    {
        let at = shard as usize;
        let sought = turns::seek(
            rt,
            alloc,
            &self.cells.list[at],
            &mut passes.list[at],
            wanted,
            domain,
            place,
        )?;
        Ok(sought)
    }

    /// What is at a place of what is wanted of all copies, for a domain: of one shard after the other, each in a turn. None exactly
    /// where there are no more. The errors are that no turn is left at a shard, and want of memory.
    pub(crate) fn seek<R: Wait>(
        &self,
        rt: &R,
        alloc: Global,
        passes: &mut Passes<F>,
        wanted: Wanted,
        domain: &Domain,
        place: u64,
    ) -> Result<Option<Item>, HubFault>
        requires own { AreOfHub self.now passes.old }
        ensures own { AreOfHub self.now passes.new }
        ensures later { Begins passes.old passes.new }
        ensures counts { (k : ℕ) → (loads_at passes.new k ≡ loads_at passes.old k) × (added_at passes.new k ≡ added_at passes.old k) }
        ensures item { IfOk result (λ o. o ≡ slice_get (items_across wanted self.now.domain domain.now (marks_of passes.new)) place) }
        ensures spent { IfErr result (λ e. (s : Spent) → e ≡ HubFault.Spent s → (k : ℕ) × IsSpentAt passes.new k s) }
    {
        let mut left = place;
        for shard in 0..16u8 {
            match self.seek_at(rt, alloc, passes, wanted, domain, shard, left)? {
                Sought::Found(item) => return Ok(Some(item)),
                Sought::Past(more) => left = more,
            }
        }
        Ok(None)
    }
}
