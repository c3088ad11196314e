// A robot that is shown deltas in turn.
ghost use Rattle.std.specs.Prelude.{◌≡◌, true, length, reverse, OnOk, OnErr};
ghost use Rattle.robot_host.specs.Places.{AreWithin};
ghost use Rattle.robot_host.specs.Robots.{robot_by, is_here};
ghost use Rattle.robot_host.specs.Showing.{HasShown, HasShownAll, HasShownSome};
ghost use Rattle.robot_host.specs.Walks.{IsReached};

use crate::RobotEdit;
use crate::asking::show_at;
use crate::seat::Seat;
use crate::walk::Walk;
use delta_history::History;
use doc_items::Memory;
use std::alloc::Global;

/// Shows the robot that is there the deltas at these places, the last one first, until it leaves. `count` is how many deltas it went
/// through; all of them, where it stays. The error is want of memory: what the robot was shown before counts.
pub(crate) fn show_places(
    alloc: Global,
    seat: &mut Seat,
    edits: &mut Vec<RobotEdit>,
    count: &mut u64,
    robot: u64,
    history: &History,
    places: Vec<usize>,
    walk: &mut Walk,
) -> Result<(), Memory>
    requires here { is_here seat.old.robot ≡ true }
    requires within { AreWithin (length history.now.deltas) (reverse places.items) }
    requires reached { IsReached history.now.deltas walk.old }
    ensures reached { IsReached history.now.deltas walk.new }
    ensures all { OnOk result (HasShownAll history.now robot (reverse places.items) count.old (robot_by calls seat.old)
        (robot_by calls seat.new) count.new edits.old.items edits.new.items) }
    ensures some { OnErr result (HasShownSome history.now robot (reverse places.items) count.old (robot_by calls seat.old)
        (robot_by calls seat.new) count.new edits.old.items edits.new.items) }
{
    let most = history.deltas().len() as u64;
    let mut left = places;
    while let Some(place) = left.pop() {
        let stays = show_at(alloc, seat, edits, robot, history, place, walk)?;
        *count = place as u64 + 1;
        if !stays {
            return Ok(());
        }
    }
    *count = most;
    Ok(())
}
