// The reply to a session's message.
ghost use Rattle.std.specs.Prelude.{◌≡◌, ◌<◌, length, true, IfOk, OnOk, OnErr, option_copied};
ghost use Rattle.message_json.specs.Write.{IsShort};
ghost use Rattle.session_core.specs.Answers.{attached, answered};
ghost use Rattle.session_core.specs.News.{reply_message};
ghost use Rattle.session_core.specs.Rules.{has_user};
ghost use Rattle.session_core.specs.declared.request.SubmitAnswer.TheVariants as answer;
ghost use Rattle.wavelet_shelf.specs.Hosting.{judged_in, after_submission};
ghost use Rattle.wavelet_shelf.specs.Shelves.{hosted_of};
ghost use Rattle.doc_items.specs.Maps.{same_text};
ghost use Rattle.pipe_machine.specs.Keeping.{IsMoved, IsEnded, submits, asks_for};
ghost use Rattle.hosted_copies.specs.Shown.{shown_in};
ghost use Rattle.pipe_machine.specs.Machine.{reply_of, asked, replied};
ghost use Rattle.pipe_machine.specs.Runs.{seats_in};
ghost use Rattle.pipe_machine.specs.Seats.{IsPlain, AsksAsUser, seat_in, with_session};

use crate::runs::{Run, Seats};
use doc_items::Memory;
use line_loop::TurnFault;
use session_core::{Reply, Request, Session, SubmitAnswer};
use std::alloc::Global;
use wave_base::{HashedVersion, WaveletName};
use wave_messages::{BadReason, Message};
use wave_outside::Folder;
use wavelet_container::SubmitFault;
use wavelet_op::Submission;
use wavelet_shelf::Shelf;

// The reply to an `open`. The error is want of memory.
fn attach<F: Folder>(
    alloc: Global,
    shelf: &Shelf<F>,
    session: &mut Session,
    name: &WaveletName,
    from: Option<&HashedVersion>,
) -> Result<Reply, Memory>
    requires { has_user session.old ≡ true }
    ensures reply { IfOk result
        (λ r. (session.new, reply_message r) ≡ attached (shown_in (hosted_of shelf.now)) session.old name.now (option_copied from.entry)) }
    ensures same { OnErr result (session.new ≡ session.old) }
{
    shelf.copies_are_hosted();
    session.answer_attach(alloc, shelf, name, from)
}

// The reply to a submission, which is judged at the time, in milliseconds. `Store` where the folder or a disk failed.
fn submit<F: Folder + Drop>(
    alloc: Global,
    shelf: &mut Shelf<F>,
    session: &mut Session,
    name: &WaveletName,
    submission: &Submission,
    time: u64,
) -> Result<Reply, TurnFault>
    ensures hosted { OnOk result (hosted_of shelf.new ≡ after_submission (hosted_of shelf.old) name.now submission.now time) }
    ensures reply { IfOk result
        (λ r. (session.new, reply_message r)
        ≡ answered session.old name.now submission.now.id
        (answer.Verdict (judged_in (hosted_of shelf.old) name.now submission.now time).0)) }
    ensures same { OnErr result (session.new ≡ session.old) }
    ensures moved { IsMoved (same_text name.now) shelf.old shelf.new }
    ensures ended { IsEnded shelf.old shelf.new (after_submission (hosted_of shelf.old) name.now submission.now time) result }
{
    shelf.copies_are_hosted();
    match shelf.submit(alloc, name, submission, time) {
        Ok(verdict) => {
            let answer = SubmitAnswer::Verdict(verdict);
            let message = session.answer_submit(alloc, name, &submission.id, &answer)?;
            Ok(Reply::Message(message))
        }
        Err(SubmitFault::DiskFault) => Err(TurnFault::Store),
        Err(SubmitFault::Memory) => Err(TurnFault::Memory),
    }
}

// The reply to what a session asks for. A session of a pipe has no peers, so it never asks for the last of these.
fn answer<F: Folder + Drop>(
    alloc: Global,
    shelf: &mut Shelf<F>,
    session: &mut Session,
    request: Request,
    time: u64,
) -> Result<Reply, TurnFault>
    requires user { AsksAsUser session.old request }
    ensures reply { IfOk result
        (λ r. reply_of (hosted_of shelf.new) (session.new, reply_message r) ≡ asked (hosted_of shelf.old) time session.old request) }
    ensures same { OnErr result (session.new ≡ session.old) }
    ensures moved { IsMoved (asks_for request) shelf.old shelf.new }
    ensures ended { IsEnded shelf.old shelf.new (asked (hosted_of shelf.old) time session.old request).hosted result }
{
    match request {
        Request::Reply(message) => Ok(Reply::Message(message)),
        Request::Attach { name, at } => Ok(attach(alloc, shelf, session, &name, at.as_ref())?),
        Request::Submit { name, submission } => {
            submit(alloc, shelf, session, &name, &submission, time)
        }
        Request::Have { .. } => Ok(Reply::Message(Message::Bad(BadReason::NotMessage))),
    }
}

// The reply to a message of a session, at the time, in milliseconds. `Store` where the folder or a disk failed.
fn reply<F: Folder + Drop>(
    alloc: Global,
    shelf: &mut Shelf<F>,
    session: &mut Session,
    message: Message,
    time: u64,
) -> Result<Reply, TurnFault>
    requires { IsPlain session.old }
    ensures reply { IfOk result
        (λ r. reply_of (hosted_of shelf.new) (session.new, reply_message r) ≡ replied (hosted_of shelf.old) session.old message time) }
    ensures plain { IsPlain session.new }
    ensures short { IfOk result (λ r. IsShort (reply_message r)) }
    ensures moved { IsMoved (submits message) shelf.old shelf.new }
    ensures ended { IsEnded shelf.old shelf.new (replied (hosted_of shelf.old) session.old message time).hosted result }
{
    let request = session.take(alloc, message)?;
    answer(alloc, shelf, session, request, time)
}

// The same for the session of the seat at a place of runs.
fn reply_among<F: Folder + Drop>(
    alloc: Global,
    shelf: &mut Shelf<F>,
    runs: &mut [Run],
    place: usize,
    message: Message,
    time: u64,
) -> Result<Reply, TurnFault>
    requires inside { place < length (seats_in runs.old) }
    requires plain { IsPlain (seat_in place (seats_in runs.old)).session }
    ensures reply { IfOk result
        (λ r. reply_of (hosted_of shelf.new) ((seat_in place (seats_in runs.new)).session, reply_message r)
        ≡ replied (hosted_of shelf.old) (seat_in place (seats_in runs.old)).session message time) }
    ensures changed { seats_in runs.new ≡ with_session place (seat_in place (seats_in runs.new)).session (seats_in runs.old) }
    ensures named { (seat_in place (seats_in runs.new)).name ≡ (seat_in place (seats_in runs.old)).name }
    ensures plain { IsPlain (seat_in place (seats_in runs.new)).session }
    ensures short { IfOk result (λ r. IsShort (reply_message r)) }
    ensures moved { IsMoved (submits message) shelf.old shelf.new }
    ensures ended { IsEnded shelf.old shelf.new
        (replied (hosted_of shelf.old) (seat_in place (seats_in runs.old)).session message time).hosted result }
{
    let Some((first, rest)) = runs.split_first_mut() else {
        unreachable!()
    };
    let count = first.seats.len();
    if place < count {
        reply(alloc, shelf, &mut first.seats[place].session, message, time)
    } else {
        reply_among(alloc, shelf, rest, place - count, message, time)
    }
}

/// The same for the session of the seat at a place.
pub fn reply_at<F: Folder + Drop>(
    alloc: Global,
    shelf: &mut Shelf<F>,
    seats: &mut Seats,
    place: usize,
    message: Message,
    time: u64,
) -> Result<Reply, TurnFault>
    requires inside { place < length (seats_in seats.old.runs.items) }
    requires plain { IsPlain (seat_in place (seats_in seats.old.runs.items)).session }
    ensures reply { IfOk result
        (λ r. reply_of (hosted_of shelf.new) ((seat_in place (seats_in seats.new.runs.items)).session, reply_message r)
        ≡ replied (hosted_of shelf.old) (seat_in place (seats_in seats.old.runs.items)).session message time) }
    ensures changed { seats_in seats.new.runs.items
        ≡ with_session place (seat_in place (seats_in seats.new.runs.items)).session (seats_in seats.old.runs.items) }
    ensures named { (seat_in place (seats_in seats.new.runs.items)).name ≡ (seat_in place (seats_in seats.old.runs.items)).name }
    ensures plain { IsPlain (seat_in place (seats_in seats.new.runs.items)).session }
    ensures short { IfOk result (λ r. IsShort (reply_message r)) }
    ensures moved { IsMoved (submits message) shelf.old shelf.new }
    ensures ended { IsEnded shelf.old shelf.new
        (replied (hosted_of shelf.old) (seat_in place (seats_in seats.old.runs.items)).session message time).hosted result }
{
    reply_among(
        alloc,
        shelf,
        seats.runs.as_mut_slice(),
        place,
        message,
        time,
    )
}
