// Submissions.
ghost use Rattle.std.specs.Prelude.{◌≡◌, ◌+◌, ℕ, IfOk, IfErr, OnErr};
ghost use Rattle.turn_cells.specs.Cells.{added_at};
ghost use Rattle.wavelet_shelf.specs.FileNames.{shard_of};
ghost use Rattle.shard_marks.specs.Answers.{IsAnswered};
ghost use Rattle.shard_marks.specs.Passes.{HaveTurned, IsSpentAt, marks_of};
ghost use Rattle.session_hub.specs.Hubs.{AreOfHub, server_of};
ghost use Rattle.shard_marks.specs.Looks.{IsLook};

use crate::fault::HubFault;
use crate::hub::{Hub, Passes};
use crate::turns;
use session_core::SubmitAnswer;
use shard_marks::Look;
use std::alloc::Global;
use std::sync::Wait;
use turn_lock::Spent;
use wave_base::WaveletName;
use wave_outside::Folder;
use wavelet_op::Submission;
use wavelet_shelf::shard;

/// An answer, and the moment at which it holds.
#[derive(Clone, Copy, Drop)]
pub struct Placed {
    pub look: Look,
    pub answer: SubmitAnswer,
}

impl<F: Folder + Drop> Hub<F> {
    /// The answer to a submission at the time, in milliseconds, in a turn of the wavelet's shard: the verdict on it at the moment of the
    /// look. A delta that is accepted is the last mark then. At the copy of a wavelet that a peer hosts it is the acknowledgement of a
    /// delta of the id there, or `Queued` where the submission waits, which the last mark tells where it waits from now on. `NoHost`
    /// exactly where the wavelet's host is neither the domain nor a peer; `Store` where the store failed, which the last mark then tells.
    /// The errors are that no turn is left, exactly where the ticket that the pass then has read is at the limit, and want of memory; no
    /// mark is added with them.
    pub fn submit<R: Wait>(
        &self,
        rt: &R,
        alloc: Global,
        passes: &mut Passes<F>,
        name: &WaveletName,
        submission: &Submission,
        time: u64,
    ) -> Result<Placed, HubFault>
        requires own { AreOfHub self.now passes.old }
        ensures own { AreOfHub self.now passes.new }
        ensures turned { HaveTurned (shard_of name.now) passes.old passes.new }
        ensures look { IfOk result (λ p. IsLook (shard_of name.now) (marks_of passes.new (shard_of name.now)) p.look) }
        ensures answer { IfOk result (λ p. IsAnswered (server_of self.now) (shard_of name.now) passes.old passes.new
            name.now submission.now time p.answer) }
        ensures unadded { OnErr result (added_at passes.new (shard_of name.now) ≡ added_at passes.old (shard_of name.now)) }
        ensures spent { IfErr result (λ e. (s : Spent) → e ≡ HubFault.Spent s → IsSpentAt passes.new (shard_of name.now) s) }
    {
        let shard = shard(name);
        let place = shard as usize;
        let (length, answer) = turns::submit(
            rt,
            alloc,
            &self.cells.list[place],
            &mut passes.list[place],
            self.peers.as_slice(),
            name,
            submission,
            time,
        )?;
        Ok(Placed {
            look: Look { shard, length },
            answer,
        })
    }
}
