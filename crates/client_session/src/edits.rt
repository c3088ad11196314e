// What commands do to the current wavelet.
ghost use Rattle.std.specs.Prelude.{◌≡◌, ◌⊎◌, ◌∷◌, ◌++◌, [], string_bytes, IfOk, OnOk, OnErr};
ghost use Rattle.wavelet_op.specs.Acts.{meanings};
ghost use Rattle.client_control.specs.Parts.{follower_of};
ghost use Rattle.client_edits.specs.Asked.{IsBuilt};
ghost use Rattle.client_session.specs.Editing.{edit_seat, edit_built, IsEdited, undo_seat, drop_seat, screen_of, submit_message, handed, IsUnsent, submit_seat};
ghost use Rattle.client_session.specs.declared.said.Said.TheVariants.{Nothing};
ghost use Rattle.client_session.specs.Seats.{seat_of, shown};

use crate::acts::Handed;
use crate::chain::Note;
use crate::messages::Messages;
use crate::said::{Said, ShownText, fault_said};
use crate::seat::Seat;
use client_commands::Edit;
use client_control::FollowerFault;
use client_edits::{Built, build};
use doc_items::Memory;
use message_json::Message;
use std::alloc::Global;
use wave_base::WaveletName;
use wave_screen::write_screen;
use wavelet_op::{Ops, Submission};

/// The message that hands in a submission. The error is want of memory, here and below.
pub(crate) fn submit_message(
    alloc: Global,
    name: &WaveletName,
    submission: &Submission,
) -> Result<Message, Memory>
    ensures { IfOk result (λ m. m ≡ submit_message name.now submission.now) }
{
    let name = name.copy(alloc)?;
    let ops = submission.ops.copy(alloc)?;
    Ok(Message::Submit {
        name,
        client: submission.id.client,
        number: submission.id.number,
        at: submission.at,
        ops,
    })
}

// A submission that was taken is handed in.
fn handed(alloc: Global, name: &WaveletName, submission: &Submission) -> Result<Handed, Memory>
    ensures { IfOk result (λ h. h ≡ handed (submit_message name.now submission.now ∷ []) Nothing) }
{
    let message = submit_message(alloc, name, submission)?;
    let send = Messages::one(alloc, message)?;
    Ok(Handed::new(send, Said::Nothing))
}

// A submission that couldn't be taken.
fn unsent(alloc: Global, fault: FollowerFault) -> Result<Handed, Memory>
    ensures { IfOk result (IsUnsent fault) }
{
    let said = fault_said(fault)?;
    Ok(Handed::new(Messages::new(alloc), said))
}

impl Seat {
    // ---- edits

    /// An edit of these operations. After want of memory all is as it was, here and below.
    pub fn edit(&mut self, alloc: Global, ops: Ops) -> Result<Said, Memory>
        ensures ok { IfOk result (λ s. (seat_of self.new, s) ≡ edit_seat (seat_of self.old) (meanings ops)) }
        ensures same { OnErr result (seat_of self.new ≡ seat_of self.old) }
    {
        self.keep_chain(alloc)?;
        let copy = ops.copy(alloc)?;
        match self.follower.edit(alloc, ops) {
            Ok(()) => {
                self.note = Note::Edit(copy);
                Ok(Said::Nothing)
            }
            Err(fault) => fault_said(fault),
        }
    }

    // What an edit comes to at the screen.
    fn built(&self, alloc: Global, edit: &Edit) -> Result<Built, Memory>
        ensures { IfOk result (IsBuilt (shown (follower_of self.now.follower)) edit.now) }
    {
        match self.follower.shown() {
            Some(screen) => build(alloc, screen, edit),
            None => {
                let screen = self.follower.screen(alloc)?;
                build(alloc, &screen, edit)
            }
        }
    }

    // What an edit asks for.
    fn edit_built(&mut self, alloc: Global, built: Built) -> Result<Said, Memory>
        ensures ok { IfOk result (λ s. (seat_of self.new, s) ≡ edit_built (seat_of self.old) built) }
        ensures same { OnErr result (seat_of self.new ≡ seat_of self.old) }
    {
        match built {
            Built::Ops(ops) => self.edit(alloc, ops),
            Built::Refused(number) => Ok(Said::Refused(number)),
        }
    }

    /// An edit at the screen.
    pub fn obey(&mut self, alloc: Global, edit: &Edit) -> Result<Said, Memory>
        ensures ok { IfOk result (λ s. IsEdited (seat_of self.old) edit.now (seat_of self.new, s)) }
        ensures same { OnErr result (seat_of self.new ≡ seat_of self.old) }
    {
        let built = self.built(alloc, edit)?;
        self.edit_built(alloc, built)
    }

    // ---- submissions

    /// A submission of what waits, if one is taken. After want of memory all is as it was, or the submission was taken.
    pub fn submit(&mut self, alloc: Global) -> Result<Handed, Memory>
        ensures ok { IfOk result (λ h. (seat_of self.new, h) ≡ submit_seat (seat_of self.old)) }
        ensures err { OnErr result ((seat_of self.new ≡ seat_of self.old) ⊎ (seat_of self.new ≡ (submit_seat (seat_of self.old)).0)) }
    {
        self.keep_chain(alloc)?;
        match self.follower.take_submission(alloc) {
            Ok(Some(submission)) => handed(alloc, self.follower.name(), &submission),
            Ok(None) => Ok(Handed::new(Messages::new(alloc), Said::Nothing)),
            Err(fault) => unsent(alloc, fault),
        }
    }

    // ---- the others

    /// The newest edit is taken back.
    pub fn undo(&mut self, alloc: Global) -> Result<Said, Memory>
        ensures ok { IfOk result (λ s. (seat_of self.new, s) ≡ undo_seat (seat_of self.old)) }
        ensures same { OnErr result (seat_of self.new ≡ seat_of self.old) }
    {
        self.keep_chain(alloc)?;
        let Some(front) = self.chain.front() else {
            return Ok(Said::NothingToUndo);
        };
        let ops = front.copy(alloc)?;
        match self.follower.edit(alloc, ops) {
            Ok(()) => {
                self.note = Note::Undone;
                Ok(Said::Nothing)
            }
            Err(fault) => fault_said(fault),
        }
    }

    /// What is pending is dropped.
    pub fn drop_pending(&mut self)
        ensures { seat_of self.new ≡ drop_seat (seat_of self.old) }
    {
        self.follower.drop_pending();
        self.note = Note::Anew;
    }

    // Appends the screen.
    fn write_screen(&self, alloc: Global, out: &mut String) -> Result<(), Memory>
        ensures { OnOk result (string_bytes out.new ≡ string_bytes out.old ++ screen_of (seat_of self.now)) }
    {
        let name = self.follower.name();
        let version = self.follower.at().version;
        let pending = !self.follower.is_settled();
        match self.follower.shown() {
            Some(screen) => write_screen(alloc, name, version, pending, screen, out),
            None => {
                let screen = self.follower.screen(alloc)?;
                write_screen(alloc, name, version, pending, &screen, out)
            }
        }
    }

    /// The screen.
    pub fn show(&self, alloc: Global) -> Result<ShownText, Memory>
        ensures { IfOk result (λ t. t ≡ screen_of (seat_of self.now)) }
    {
        let mut out = String::new(alloc);
        self.write_screen(alloc, &mut out)?;
        Ok(ShownText::new(out))
    }
}
