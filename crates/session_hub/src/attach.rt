// Wavelets that are opened.
ghost use Rattle.std.specs.Prelude.{◌≡◌, true, IfOk, IfErr, OnErr, option_copied};
ghost use Rattle.message_json.specs.Write.{IsShort};
ghost use Rattle.session_core.specs.Answers.{attached};
ghost use Rattle.session_core.specs.News.{reply_message};
ghost use Rattle.session_core.specs.Rules.{has_user};
ghost use Rattle.turn_cells.specs.Cells.{added_at};
ghost use Rattle.wavelet_shelf.specs.FileNames.{shard_of};
ghost use Rattle.shard_marks.specs.Passes.{HaveTurned, IsSpentAt, marks_of};
ghost use Rattle.session_hub.specs.Hubs.{AreOfHub};
ghost use Rattle.shard_marks.specs.Looks.{IsLook};
ghost use Rattle.shard_marks.specs.Marks.{shown_at};

use crate::fault::HubFault;
use crate::hub::{Hub, Passes};
use crate::turns;
use session_core::{Reply, Session};
use shard_marks::Look;
use std::alloc::Global;
use std::sync::Wait;
use turn_lock::Spent;
use wave_base::{HashedVersion, WaveletName};
use wave_outside::Folder;
use wavelet_shelf::shard;

/// The reply to an `open`, and the moment at which it holds.
pub struct Attached {
    pub look: Look,
    pub reply: Reply,
}

impl Drop for Attached {
    fn drop(self) {
        let Attached {
            look: _look,
            reply: _reply,
        } = self;
    }
}

impl Attached {
    /// The reply alone.
    pub fn into_reply(self) -> Reply
        ensures { result ≡ self.reply }
    {
        let Attached { look: _look, reply } = self;
        reply
    }
}

impl<F: Folder + Drop> Hub<F> {
    /// The reply to an `open`, with a version or without one, at the moment of the look: that of `Session::answer_attach`. After an error
    /// the session is as it was: no turn is left, or there is want of memory.
    pub fn attach<R: Wait>(
        &self,
        rt: &R,
        alloc: Global,
        passes: &mut Passes<F>,
        session: &mut Session,
        name: &WaveletName,
        from: Option<&HashedVersion>,
    ) -> Result<Attached, HubFault>
        requires own { AreOfHub self.now passes.old }
        requires user { has_user session.old ≡ true }
        ensures own { AreOfHub self.now passes.new }
        ensures turned { HaveTurned (shard_of name.now) passes.old passes.new }
        ensures unadded { added_at passes.new (shard_of name.now) ≡ added_at passes.old (shard_of name.now) }
        ensures look { IfOk result (λ a. IsLook (shard_of name.now) (marks_of passes.new (shard_of name.now)) a.look) }
        ensures reply { IfOk result (λ a. (session.new, reply_message a.reply)
            ≡ attached (shown_at self.now.domain (shard_of name.now) (marks_of passes.new (shard_of name.now))) session.old name.now
            (option_copied from.entry)) }
        ensures short { IfOk result (λ a. IsShort (reply_message a.reply)) }
        ensures same { OnErr result (session.new ≡ session.old) }
        ensures spent { IfErr result (λ e. (s : Spent) → e ≡ HubFault.Spent s → IsSpentAt passes.new (shard_of name.now) s) }
    {
        let shard = shard(name);
        let place = shard as usize;
        let (length, reply) = turns::attach(
            rt,
            alloc,
            &self.cells.list[place],
            &mut passes.list[place],
            session,
            name,
            from,
        )?;
        Ok(Attached {
            look: Look { shard, length },
            reply,
        })
    }
}
