// A robot that is shown one delta.
ghost use Rattle.std.specs.Prelude.{◌≡◌, ◌+◌, ◌<◌, ◌≤◌, ◌++◌, ◌∷◌, [], true, length, IfOk, OnOk, OnErr, MatchResult, slice_get};
ghost use Rattle.std.specs.Vec.{vec_len, vec_capacity};
ghost use Rattle.delta_history.specs.Histories.{head_of};
ghost use Rattle.delta_history.specs.Places.{from_or};
ghost use Rattle.robot_host.specs.Calls.{with_call};
ghost use Rattle.robot_host.specs.Reactions.{stays, id_at, edit_by};
ghost use Rattle.robot_host.specs.Robots.{robot_by, is_here};
ghost use Rattle.robot_host.specs.Showing.{asked, after_answer, HasReacted};
ghost use Rattle.robot_host.specs.Walks.{IsReached};

use crate::seat::{Seat, Seated};
use crate::walk::Walk;
use crate::{Reaction, Robot, RobotEdit};
use delta_history::History;
use doc_items::Memory;
use std::alloc::Global;
use wave_base::{Address, DeltaId, HashedVersion, WaveletName};
use wavelet_op::{AppliedDelta, Submission};
use wavelet_state::WaveletState;

// The hashed version at the end of the delta at a place.
fn end_of(history: &History, place: usize) -> HashedVersion
    requires { place < length history.now.deltas }
    ensures { result ≡ from_or (head_of history.now).at (slice_get history.now.deltas (place + 1)) }
{
    match history.deltas().get(place + 1) {
        Some(next) => next.from,
        None => history.head(),
    }
}

// The id of a robot's submission at a version.
fn made_id(alloc: Global, address: &Address, at: HashedVersion) -> Result<DeltaId, Memory>
    ensures { IfOk result (λ i. i ≡ id_at address.now at) }
{
    let author = address.copy(alloc)?;
    Ok(DeltaId {
        author,
        client: 1,
        number: at.version,
    })
}

// Shows the robot a delta with the state after it.
fn ask_robot(
    alloc: Global,
    robot: &mut Box<dyn Robot>,
    name: &WaveletName,
    delta: &AppliedDelta,
    state: &WaveletState,
) -> Result<Reaction, Memory>
    ensures { MatchResult result (λ r. calls robot.new ≡ with_call (calls robot.old) name.now delta.now state.now r)
        (λ _. calls robot.new ≡ calls robot.old) }
{
    robot.react(alloc, name, delta, state)
}

// The same for the robot of a seat, which is there.
fn ask(
    alloc: Global,
    seat: &mut Seat,
    name: &WaveletName,
    delta: &AppliedDelta,
    state: &WaveletState,
) -> Result<Reaction, Memory>
    requires { is_here seat.old.robot ≡ true }
    ensures { MatchResult result (λ r. robot_by calls seat.new ≡ asked name.now (robot_by calls seat.old) delta.now state.now r)
        (λ _. robot_by calls seat.new ≡ robot_by calls seat.old) }
{
    match &mut seat.robot {
        Seated::Here(robot) => ask_robot(alloc, robot, name, delta, state),
        Seated::Gone(_) => unreachable!(),
    }
}

// What follows from an answer: an edit is put after the others, and a robot that leaves is dropped. It says whether the robot stays.
fn follow(
    seat: &mut Seat,
    edits: &mut Vec<RobotEdit>,
    robot: u64,
    id: DeltaId,
    at: HashedVersion,
    reaction: Reaction,
) -> bool
    requires room { vec_len edits.old < vec_capacity edits.old }
    ensures stays { result ≡ stays reaction }
    ensures robot { robot_by calls seat.new ≡ after_answer (robot_by calls seat.old) reaction }
    ensures edits { edits.new.items ≡ edits.old.items ++ edit_by robot id at reaction }
{
    match reaction {
        Reaction::Quiet => true,
        Reaction::Edit(ops) => {
            let submission = Submission { id, at, ops };
            edits.push_reserved(RobotEdit { robot, submission });
            true
        }
        Reaction::Leave => {
            seat.leave();
            false
        }
    }
}

/// Shows the robot that is there the delta at a place of the history, and follows its answer: an edit is put after the others. Whether
/// the robot stays. The error is want of memory: then the robot and the edits are as they were.
pub(crate) fn show_at(
    alloc: Global,
    seat: &mut Seat,
    edits: &mut Vec<RobotEdit>,
    robot: u64,
    history: &History,
    place: usize,
    walk: &mut Walk,
) -> Result<bool, Memory>
    requires here { is_here seat.old.robot ≡ true }
    requires within { place < length history.now.deltas }
    requires reached { IsReached history.now.deltas walk.old }
    ensures reached { IsReached history.now.deltas walk.new }
    ensures shown { OnOk result (HasReacted history.now robot place (robot_by calls seat.old)
        (robot_by calls seat.new) edits.old.items edits.new.items) }
    ensures stays { IfOk result (λ stays. is_here seat.new.robot ≡ stays) }
    ensures same { OnErr result (robot_by calls seat.new ≡ robot_by calls seat.old) }
    ensures none { OnErr result (edits.new.items ≡ edits.old.items) }
{
    let delta = &history.deltas()[place];
    edits.reserve(1)?;
    walk.reach(alloc, history, place + 1)?;
    let at = end_of(history, place);
    let id = made_id(alloc, &seat.address, at)?;
    let state = walk.state(history, place + 1);
    let reaction = ask(alloc, seat, history.name(), delta, state)?;
    Ok(follow(seat, edits, robot, id, at, reaction))
}
