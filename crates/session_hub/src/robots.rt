// Robots.
ghost use Rattle.std.specs.Prelude.{◌≡◌, ◌<◌, None, IfOk, IfErr, OnErr};
ghost use Rattle.robot_host.specs.Hosts.{host_as};
ghost use Rattle.turn_cells.specs.Cells.{added_at};
ghost use Rattle.shard_marks.specs.Passes.{HaveTurned, IsSpentAt, marks_of};
ghost use Rattle.session_hub.specs.Hubs.{AreOfHub};
ghost use Rattle.session_hub.specs.Robots.{MayTurnAt, IsRoundAt, IsRoundCutAt, AreSettledAt, AreUntouchedAt};
ghost use Rattle.shard_marks.specs.Looks.{IsLook};

use crate::fault::HubFault;
use crate::hub::{Hub, Passes};
use crate::turns;
use robot_host::{Robot, RobotEdit, RobotHost};
use shard_marks::Look;
use std::alloc::Global;
use std::sync::Wait;
use turn_lock::Spent;
use wave_base::WaveletName;
use wave_outside::Folder;

/// What robots answered at a shard, and the moment of it.
pub struct RobotWork {
    pub look: Look,
    /// The wavelet that the edits are of. None where there are none.
    pub name: Option<WaveletName>,
    pub edits: Vec<RobotEdit>,
}

impl Drop for RobotWork {
    fn drop(self) {
        let RobotWork {
            look: _look,
            name: _name,
            edits: _edits,
        } = self;
    }
}

impl RobotWork {
    /// The name and the edits alone.
    pub fn into_parts(self) -> (Option<WaveletName>, Vec<RobotEdit>)
        ensures { result ≡ (self.name, self.edits) }
    {
        let RobotWork {
            look: _look,
            name,
            edits,
        } = self;
        (name, edits)
    }
}

impl<F: Folder + Drop> Hub<F> {
    /// Lets the robots take turns over the histories of a shard at the moment of the look, in byte order of names, until one gives edits:
    /// these and the wavelet's name, or none, where nothing is left for the robots. The errors are that no turn is left, and want of
    /// memory, after which the edits are kept for the next turn.
    pub fn robot_turn<R: Wait>(
        &self,
        rt: &R,
        alloc: Global,
        passes: &mut Passes<F>,
        host: &mut RobotHost,
        shard: u8,
    ) -> Result<RobotWork, HubFault>
        requires own { AreOfHub self.now passes.old }
        requires shard { shard < 16 }
        requires may { MayTurnAt self.now.domain shard (marks_of passes.old shard) (host_as ⟦<dyn Robot as Robot>⟧ host.old) }
        ensures own { AreOfHub self.now passes.new }
        ensures turned { HaveTurned shard passes.old passes.new }
        ensures unadded { added_at passes.new shard ≡ added_at passes.old shard }
        ensures look { IfOk result (λ w. IsLook shard (marks_of passes.new shard) w.look) }
        ensures round { IfOk result
            (λ w. IsRoundAt self.now.domain shard (marks_of passes.new shard) (host_as ⟦<dyn Robot as Robot>⟧ host.old)
            (host_as ⟦<dyn Robot as Robot>⟧ host.new) w.name w.edits.items) }
        ensures cut { OnErr result
            (IsRoundCutAt self.now.domain shard (marks_of passes.new shard) (host_as ⟦<dyn Robot as Robot>⟧ host.old)
            (host_as ⟦<dyn Robot as Robot>⟧ host.new)) }
        ensures settled { IfOk result
            (λ w. w.name ≡ None → AreSettledAt self.now.domain shard (marks_of passes.new shard)
            (host_as ⟦<dyn Robot as Robot>⟧ host.new)) }
        ensures others { AreUntouchedAt self.now.domain shard (marks_of passes.new shard) (host_as ⟦<dyn Robot as Robot>⟧ host.old)
            (host_as ⟦<dyn Robot as Robot>⟧ host.new) }
        ensures may { MayTurnAt self.now.domain shard (marks_of passes.new shard) (host_as ⟦<dyn Robot as Robot>⟧ host.new) }
        ensures spent { IfErr result (λ e. (s : Spent) → e ≡ HubFault.Spent s → IsSpentAt passes.new shard s) }
    {
        let place = shard as usize;
        let (length, round) = turns::robot_turn(
            rt,
            alloc,
            &self.cells.list[place],
            &mut passes.list[place],
            host,
        )?;
        Ok(round.placed(Look { shard, length }))
    }
}
