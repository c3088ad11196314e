// What is new to a session.
ghost use Rattle.std.specs.Prelude.{◌≡◌, ◌<◌, [], map, IfOk, IfErr, OnOk};
ghost use Rattle.session_core.specs.Deliveries.{delivered, after_delivery};
ghost use Rattle.turn_cells.specs.Cells.{added_at};
ghost use Rattle.shard_marks.specs.Frames.{frames_of};
ghost use Rattle.shard_marks.specs.Passes.{HaveTurned, IsSpentAt, marks_of};
ghost use Rattle.session_hub.specs.Hubs.{AreOfHub};
ghost use Rattle.shard_marks.specs.Looks.{IsLook};
ghost use Rattle.shard_marks.specs.Marks.{shown_at};
ghost use Rattle.shard_marks.specs.Told.{AreToldAt};

use crate::fault::HubFault;
use crate::hub::{Hub, Passes};
use crate::turns;
use session_core::Session;
use shard_marks::Look;
use std::alloc::Global;
use std::sync::Wait;
use turn_lock::Spent;
use wave_outside::Folder;

/// What is sent to a session of one shard, as texts, and the moment at which it was new.
pub struct Delivered {
    pub look: Look,
    pub frames: Vec<Vec<u8>>,
}

impl Drop for Delivered {
    fn drop(self) {
        let Delivered {
            look: _look,
            frames: _frames,
        } = self;
    }
}

impl<F: Folder + Drop> Hub<F> {
    /// What a shard's wavelets give a session at the moment of the look, and have not given it before: the messages that
    /// `Session::deliver` gives, written. Of a peer's session that was told all of the shard at the length `sent` of its history, only
    /// the wavelets that were published since may be looked at. All that is hosted is looked at where `sent` is 0, where the peer has
    /// just said what it has, and where too many were published. The errors are that no turn is left, and want of memory, after which
    /// the session may have been given what wasn't answered.
    pub fn deliver<R: Wait>(
        &self,
        rt: &R,
        alloc: Global,
        passes: &mut Passes<F>,
        session: &mut Session,
        shard: u8,
        sent: u64,
    ) -> Result<Delivered, HubFault>
        requires own { AreOfHub self.now passes.old }
        requires shard { shard < 16 }
        requires told { AreToldAt self.now.domain shard (marks_of passes.old shard) session.old sent }
        ensures own { AreOfHub self.now passes.new }
        ensures turned { HaveTurned shard passes.old passes.new }
        ensures unadded { added_at passes.new shard ≡ added_at passes.old shard }
        ensures look { IfOk result (λ d. IsLook shard (marks_of passes.new shard) d.look) }
        ensures frames { IfOk result
            (λ d. map (λ v. v.items) d.frames.items
            ≡ frames_of (delivered (shown_at self.now.domain shard (marks_of passes.new shard)) session.old)) }
        ensures after { OnOk result
            (session.new ≡ after_delivery (shown_at self.now.domain shard (marks_of passes.new shard)) session.old) }
        ensures told { OnOk result (delivered (shown_at self.now.domain shard (marks_of passes.new shard)) session.new ≡ []) }
        ensures spent { IfErr result (λ e. (s : Spent) → e ≡ HubFault.Spent s → IsSpentAt passes.new shard s) }
    {
        let place = shard as usize;
        let (length, frames) = turns::deliver(
            rt,
            alloc,
            &self.cells.list[place],
            &mut passes.list[place],
            session,
            sent,
        )?;
        Ok(Delivered {
            look: Look { shard, length },
            frames,
        })
    }
}
