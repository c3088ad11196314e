// Turns: a line, its reply, and what is new to each session.
ghost use Rattle.std.specs.Prelude.{◌≡◌, ◌++◌, cond, true, IfOk, OnOk};
ghost use Rattle.wave_messages.specs.declared.fault.Kind.{Kind};
ghost use Rattle.wavelet_shelf.specs.Shelves.{hosted_of};
ghost use Rattle.pipe_machine.specs.Due.{due_at, are_told, IsDueAlone};
ghost use Rattle.pipe_machine.specs.Keeping.{IsMoved, IsEnded, submits, submits_to};
ghost use Rattle.pipe_machine.specs.Lines.{lines_of};
ghost use Rattle.hosted_copies.specs.Shown.{shown_in};
ghost use Rattle.pipe_machine.specs.Machine.{start, served, refusal, answered, delivered, turn};
ghost use Rattle.pipe_machine.specs.Pipes.{pipe_of};
ghost use Rattle.pipe_machine.specs.Runs.{seats_in};

use crate::deliver::deliver;
use crate::due::{Due, changed_by, places_due};
use crate::lines::{push_line, push_reply, push_unnamed};
use crate::pipe::PipeMachine;
use crate::reply::reply_at;
use crate::runs::{Seats, seat_at};
use doc_items::Memory;
use line_loop::{LineMachine, TurnFault};
use session_core::reason_of;
use std::alloc::Global;
use wave_base::{SessionName, WaveletName};
use wave_messages::{Kind, LineFault, Message, read_line};
use wave_outside::Folder;
use wavelet_shelf::Shelf;

// Appends the line that tells a session, or none, why its line was none.
fn refuse(
    alloc: Global,
    session: Option<SessionName>,
    kind: Kind,
    out: &mut Vec<u8>,
) -> Result<(), Memory>
    ensures { OnOk result (out.new.items ≡ out.old.items ++ lines_of (refusal session kind)) }
{
    let message = Message::Bad(reason_of(kind));
    match &session {
        Some(name) => push_line(alloc, name, &message, out),
        None => push_unnamed(alloc, &message, out),
    }
}

// Whom there may be something for after the reply to a message that may change this wavelet.
fn due_at(place: usize, changed: Option<WaveletName>) -> Due
    ensures { result ≡ due_at place changed }
{
    match changed {
        Some(name) => Due::Openers { place, name },
        None => Due::Seat(place),
    }
}

// All are due where a turn failed before.
fn all_if(behind: bool, due: Due) -> Due
    ensures { result ≡ cond behind Due.Everybody due }
{
    if behind { Due::Everybody } else { due }
}

impl<F: Folder + Drop> PipeMachine<F> {
    /// No session yet, over the histories of this shelf.
    pub fn new(alloc: Global, shelf: Shelf<F>) -> PipeMachine<F>
        ensures pipe { pipe_of result ≡ start (hosted_of shelf) }
        ensures shelf { result.shelf ≡ shelf }
    {
        PipeMachine {
            shelf,
            seats: Seats::new(alloc),
            behind: false,
        }
    }

    // Replies to a message of a session, which is new where it wasn't there, and says whom there may be something for.
    fn serve(
        &mut self,
        alloc: Global,
        name: SessionName,
        message: Message,
        time: u64,
        out: &mut Vec<u8>,
    ) -> Result<Due, TurnFault>
        ensures pipe { OnOk result (pipe_of self.new ≡ (served (pipe_of self.old) time name message).pipe) }
        ensures sent { OnOk result (out.new.items ≡ out.old.items ++ lines_of (served (pipe_of self.old) time name message).sent) }
        ensures moved { IsMoved (submits message) self.old.shelf self.new.shelf }
        ensures ended { IsEnded self.old.shelf self.new.shelf (served (pipe_of self.old) time name message).pipe.hosted result }
        ensures due { IfOk result (λ due. are_told (shown_in (hosted_of self.old.shelf)) (seats_in self.old.seats.runs.items) ≡ true
            → IsDueAlone (shown_in (hosted_of self.new.shelf)) due (seats_in self.new.seats.runs.items)) }
    {
        let changed = changed_by(alloc, &message)?;
        self.behind = true;
        let place = self.seats.seat_of(alloc, name)?;
        let reply = reply_at(
            alloc,
            &mut self.shelf,
            &mut self.seats,
            place,
            message,
            time,
        )?;
        let seat = seat_at(self.seats.runs.as_slice(), place);
        push_reply(alloc, &seat.name, &reply, out)?;
        Ok(due_at(place, changed))
    }

    // Replies to a line, and says whom there may be something for.
    fn answer(
        &mut self,
        alloc: Global,
        line: &[u8],
        time: u64,
        out: &mut Vec<u8>,
    ) -> Result<Due, TurnFault>
        ensures pipe { OnOk result (pipe_of self.new ≡ (answered (pipe_of self.old) time line.now).pipe) }
        ensures sent { OnOk result (out.new.items ≡ out.old.items ++ lines_of (answered (pipe_of self.old) time line.now).sent) }
        ensures moved { IsMoved (submits_to line.now) self.old.shelf self.new.shelf }
        ensures ended { IsEnded self.old.shelf self.new.shelf (answered (pipe_of self.old) time line.now).pipe.hosted result }
        ensures due { IfOk result (λ due. are_told (shown_in (hosted_of self.old.shelf)) (seats_in self.old.seats.runs.items) ≡ true
            → IsDueAlone (shown_in (hosted_of self.new.shelf)) due (seats_in self.new.seats.runs.items)) }
    {
        match read_line(alloc, line) {
            Ok(line) => {
                let (session, message) = line.into_parts();
                self.serve(alloc, session, message, time, out)
            }
            Err(LineFault::Bad { session, kind }) => {
                refuse(alloc, session, kind, out)?;
                Ok(Due::Nobody)
            }
            Err(LineFault::Memory) => Err(TurnFault::Memory),
        }
    }

    // Appends what is new to each session. Only the due may lack something.
    fn deliver(&mut self, alloc: Global, due: &Due, out: &mut Vec<u8>) -> Result<(), Memory>
        requires { IsDueAlone (shown_in (hosted_of self.old.shelf)) due.now (seats_in self.old.seats.runs.items) }
        ensures pipe { OnOk result (pipe_of self.new ≡ (delivered (pipe_of self.old)).pipe) }
        ensures sent { OnOk result (out.new.items ≡ out.old.items ++ lines_of (delivered (pipe_of self.old)).sent) }
        ensures shelf { self.new.shelf ≡ self.old.shelf }
    {
        self.behind = true;
        let places = places_due(alloc, &self.seats, due)?;
        deliver(alloc, &self.shelf, &mut self.seats, places.as_slice(), out)?;
        self.behind = false;
        Ok(())
    }

    /// Takes a line that has bytes, at the time, in milliseconds, and appends the reply to it and what is new to each session, in byte
    /// order of their names. `Store` where the folder or a disk failed; after a refusal some of these lines may stand there.
    #[tactic(auto, using(crate::proofs::Gathering::lines_append))]
    pub fn take_line(
        &mut self,
        alloc: Global,
        line: &[u8],
        time: u64,
        out: &mut Vec<u8>,
    ) -> Result<(), TurnFault>
        ensures pipe { OnOk result (pipe_of self.new ≡ (turn (pipe_of self.old) time line.now).pipe) }
        ensures sent { OnOk result (out.new.items ≡ out.old.items ++ lines_of (turn (pipe_of self.old) time line.now).sent) }
        ensures moved { IsMoved (submits_to line.now) self.old.shelf self.new.shelf }
        ensures ended { IsEnded self.old.shelf self.new.shelf (turn (pipe_of self.old) time line.now).pipe.hosted result }
    {
        let behind = self.behind;
        let due = self.answer(alloc, line, time, out)?;
        self.deliver(alloc, &all_if(behind, due), out)?;
        Ok(())
    }
}

impl<F: Folder + Drop> LineMachine for PipeMachine<F> {
    ghost use Rattle.pipe_machine.specs.Lines.{lines_of};
    ghost use Rattle.pipe_machine.specs.Machine.{sent};
    ghost use Rattle.pipe_machine.specs.Pipes.{pipe_of, store_faults, IsReached, IsSince, IsTried, IsCalm};
    ghost use Rattle.pipe_machine.specs.Laws.{at_start, unmoved};
    ghost use Rattle.std.specs.Prelude.{refl};

    ghost answers = { λ m ts. lines_of (sent (pipe_of m) ts) };

    ghost reached = { λ a ts b. IsReached a ts b };

    ghost since = { λ a ts b. IsSince a ts b };

    ghost tried = { λ a t b. IsTried a t b };

    ghost calm = { λ m. IsCalm m };

    ghost faults = { λ m. store_faults m.shelf };

    ghost silent = { λ m. refl };

    ghost at_start = { λ m. at_start m };

    ghost unmoved = { λ m. unmoved m };

    fn may_fail(&self) -> bool {
        self.shelf.is_stored()
    }

    #[tactic(auto, using(crate::proofs::Turning::faults_later, crate::proofs::Turning::faults_rose))]
    fn turn(
        &mut self,
        alloc: Global,
        line: &[u8],
        time: u64,
        out: &mut Vec<u8>,
    ) -> Result<(), TurnFault> {
        self.take_line(alloc, line, time, out)
    }
}
