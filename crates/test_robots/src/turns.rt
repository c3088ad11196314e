// Turns of a host with one robot.
use crate::doorkeeper::Doorkeeper;
use crate::histories::{ROBOT, history};
use crate::planned::{Answer, Planned};
use delta_history::History;
use robot_host::{Robot, RobotEdit, RobotHost, new_hosts_may_turn};
use std::alloc::Global;
use std::test::Fail;
use wave_base::Address;
use wavelet_op::{Role, WaveletOp};

/// What three turns over one history gave: the edits of each, None where memory was wanting.
struct Outcome {
    first: Option<Vec<RobotEdit>>,
    second: Option<Vec<RobotEdit>>,
    third: Option<Vec<RobotEdit>>,
    // Whether the robot was there at the end.
    was_there: bool,
}

impl Drop for Outcome {
    fn drop(self) {
        let Outcome {
            first: _first,
            second: _second,
            third: _third,
            was_there: _was_there,
        } = self;
    }
}

// Three turns of a host with this robot.
fn three_turns(alloc: Global, history: &History, robot: Box<dyn Robot>) -> Result<Outcome, Fail> {
    let mut host = RobotHost::new(alloc);
    host.add(alloc, robot)?;
    new_hosts_may_turn();
    let first = host.turn(alloc, history).ok();
    let second = host.turn(alloc, history).ok();
    let third = host.turn(alloc, history).ok();
    Ok(Outcome {
        first,
        second,
        third,
        was_there: host.retire(0),
    })
}

// A robot of these answers.
fn planned(alloc: Global, answers: &[Answer]) -> Result<Box<Planned>, Fail> {
    Ok(Box::new(alloc, Planned::new(alloc, answers)?)?)
}

// How many edits there are.
fn count(edits: &Option<Vec<RobotEdit>>) -> usize {
    match edits {
        Some(edits) => edits.len(),
        None => 0,
    }
}

// Whether the edit of this place is the robot's, at this version.
fn is_at(edits: &Option<Vec<RobotEdit>>, place: usize, version: u64) -> bool {
    match edits {
        Some(edits) => match edits.get(place) {
            Some(edit) => {
                let id = &edit.submission.id;
                id.author.text() == ROBOT
                    && id.number == version
                    && edit.submission.at.version == version
            }
            None => false,
        },
        None => false,
    }
}

#[test]
fn an_edit_is_kept_over_want_of_memory(rt: HostRuntime) -> Result<(), Fail> {
    let alloc = rt.alloc();
    let history = history(alloc)?;
    let plan = [Answer::Edit, Answer::Memory, Answer::Edit];
    let turns = three_turns(alloc, &history, planned(alloc, &plan)?)?;
    assert!(rt; turns.first.is_none());
    assert!(rt; count(&turns.second) == 2);
    assert!(rt; is_at(&turns.second, 0, 3));
    assert!(rt; is_at(&turns.second, 1, 5));
    assert!(rt; turns.third.is_some());
    assert!(rt; count(&turns.third) == 0);
    assert!(rt; turns.was_there);
    Ok(())
}

#[test]
fn a_robot_that_leaves_takes_its_edits_along(rt: HostRuntime) -> Result<(), Fail> {
    let alloc = rt.alloc();
    let history = history(alloc)?;
    let plan = [Answer::Edit, Answer::Memory, Answer::Leave];
    let turns = three_turns(alloc, &history, planned(alloc, &plan)?)?;
    assert!(rt; turns.first.is_none());
    assert!(rt; turns.second.is_some());
    assert!(rt; count(&turns.second) == 0);
    assert!(rt; !turns.was_there);
    Ok(())
}

#[test]
fn each_delta_is_shown_once(rt: HostRuntime) -> Result<(), Fail> {
    let alloc = rt.alloc();
    let history = history(alloc)?;
    let plan = [Answer::Quiet, Answer::Edit, Answer::Edit];
    let turns = three_turns(alloc, &history, planned(alloc, &plan)?)?;
    assert!(rt; count(&turns.first) == 1);
    assert!(rt; is_at(&turns.first, 0, 5));
    assert!(rt; count(&turns.second) == 0);
    assert!(rt; count(&turns.third) == 0);
    Ok(())
}

// Whether the first edit takes bob's right to write, and does nothing else.
fn is_bob_lowered(edits: &Option<Vec<RobotEdit>>) -> bool {
    match edits {
        Some(edits) => match edits.first() {
            Some(edit) => match edit.submission.ops.as_slice() {
                [
                    WaveletOp::SetRole {
                        address,
                        old: Role::Full,
                        new: Role::ReadOnly,
                    },
                ] => address.text() == "bob@a.com",
                _ => false,
            },
            None => false,
        },
        None => false,
    }
}

#[test]
fn the_doorkeeper_lets_new_participants_read(rt: HostRuntime) -> Result<(), Fail> {
    let alloc = rt.alloc();
    let history = history(alloc)?;
    let address = Address::parse(alloc, ROBOT)?;
    let doorkeeper = Box::new(alloc, Doorkeeper { address })?;
    let turns = three_turns(alloc, &history, doorkeeper)?;
    assert!(rt; count(&turns.first) == 1);
    assert!(rt; is_at(&turns.first, 0, 5));
    assert!(rt; is_bob_lowered(&turns.first));
    assert!(rt; count(&turns.second) == 0);
    Ok(())
}
