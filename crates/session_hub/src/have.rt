// What peers have.
ghost use Rattle.std.specs.Prelude.{◌≡◌, true, IfOk, IfErr, OnOk, OnErr};
ghost use Rattle.session_core.specs.Answers.{had};
ghost use Rattle.session_core.specs.Rules.{has_peer};
ghost use Rattle.turn_cells.specs.Cells.{added_at};
ghost use Rattle.wavelet_shelf.specs.FileNames.{shard_of};
ghost use Rattle.shard_marks.specs.Passes.{HaveTurned, IsSpentAt, marks_of};
ghost use Rattle.session_hub.specs.Hubs.{AreOfHub};
ghost use Rattle.shard_marks.specs.Looks.{IsLook};
ghost use Rattle.shard_marks.specs.Marks.{shown_at};

use crate::fault::HubFault;
use crate::hub::{Hub, Passes};
use crate::turns;
use session_core::Session;
use shard_marks::Look;
use std::alloc::Global;
use std::sync::Wait;
use turn_lock::Spent;
use wave_base::{HashedVersion, WaveletName};
use wave_outside::Folder;
use wavelet_shelf::shard;

impl<F: Folder + Drop> Hub<F> {
    /// Notes up to where a peer has a wavelet, as `Session::answer_have` does at the moment of the look. After an error the session
    /// is as it was: no turn is left, or there is want of memory.
    pub fn have<R: Wait>(
        &self,
        rt: &R,
        alloc: Global,
        passes: &mut Passes<F>,
        session: &mut Session,
        name: &WaveletName,
        from: &HashedVersion,
    ) -> Result<Look, HubFault>
        requires own { AreOfHub self.now passes.old }
        requires peer { has_peer session.old ≡ true }
        ensures own { AreOfHub self.now passes.new }
        ensures turned { HaveTurned (shard_of name.now) passes.old passes.new }
        ensures unadded { added_at passes.new (shard_of name.now) ≡ added_at passes.old (shard_of name.now) }
        ensures look { IfOk result (IsLook (shard_of name.now) (marks_of passes.new (shard_of name.now))) }
        ensures after { OnOk result
            (session.new ≡ had (shown_at self.now.domain (shard_of name.now)
            (marks_of passes.new (shard_of name.now))) session.old name.now from.now) }
        ensures same { OnErr result (session.new ≡ session.old) }
        ensures spent { IfErr result (λ e. (s : Spent) → e ≡ HubFault.Spent s → IsSpentAt passes.new (shard_of name.now) s) }
    {
        let shard = shard(name);
        let place = shard as usize;
        let length = turns::have(
            rt,
            alloc,
            &self.cells.list[place],
            &mut passes.list[place],
            session,
            name,
            from,
        )?;
        Ok(Look { shard, length })
    }
}
