// What hosts give to copies.
ghost use Rattle.std.specs.Prelude.{◌≡◌, IfOk, IfErr, OnErr};
ghost use Rattle.turn_cells.specs.Cells.{added_at};
ghost use Rattle.wavelet_shelf.specs.FileNames.{shard_of};
ghost use Rattle.shard_marks.specs.Givings.{gift_mark, IsGivenBy};
ghost use Rattle.shard_marks.specs.Passes.{HaveTurned, IsSpentAt};
ghost use Rattle.session_hub.specs.Hubs.{AreOfHub};

use crate::fault::HubFault;
use crate::hub::{Hub, Passes};
use crate::turns;
use shard_marks::{Given, Giving};
use std::alloc::Global;
use std::sync::Wait;
use turn_lock::Spent;
use wave_base::WaveletName;
use wave_outside::Folder;
use wavelet_shelf::shard;

impl<F: Folder + Drop> Hub<F> {
    /// Gives the copy of the name what came from its host, in a turn of its shard. Where that changes the copy its mark is the last one
    /// then. Of a wavelet that the domain hosts itself there is no copy, and nothing changes. The errors are that no turn is left, and want
    /// of memory; no mark is added with them.
    pub fn give<R: Wait>(
        &self,
        rt: &R,
        alloc: Global,
        passes: &mut Passes<F>,
        name: &WaveletName,
        giving: &Giving,
    ) -> Result<Given, HubFault>
        requires own { AreOfHub self.now passes.old }
        ensures own { AreOfHub self.now passes.new }
        ensures turned { HaveTurned (shard_of name.now) passes.old passes.new }
        ensures given { IfOk result (IsGivenBy self.now.domain (shard_of name.now) passes.old passes.new (gift_mark name.now giving.now)) }
        ensures unadded { OnErr result (added_at passes.new (shard_of name.now) ≡ added_at passes.old (shard_of name.now)) }
        ensures spent { IfErr result (λ e. (s : Spent) → e ≡ HubFault.Spent s → IsSpentAt passes.new (shard_of name.now) s) }
    {
        let shard = shard(name);
        let place = shard as usize;
        let given = turns::give(
            rt,
            alloc,
            &self.cells.list[place],
            &mut passes.list[place],
            name,
            giving,
        )?;
        Ok(given)
    }
}
