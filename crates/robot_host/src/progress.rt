// How far the robots are with one wavelet.
ghost use Rattle.std.specs.Prelude.{◌≡◌, ◌<◌, ◌≤◌, ℕ, [], true, false, length, map, filter, IfOk, OnOk, OnErr};
ghost use Rattle.robot_host.specs.Tables.{robots_by, TurnsOne, TurnsAll, AnswersAll};
ghost use Rattle.robot_host.specs.Turns.{is_there, number_of, IsThrough, AreThrough, is_of_there};
ghost use Rattle.robot_host.specs.Walks.{IsReached};

use crate::RobotEdit;
use crate::places::places_from;
use crate::seat::Seat;
use crate::showing::show_places;
use crate::walk::Walk;
use delta_history::History;
use doc_items::Memory;
use std::alloc::Global;
use std::mem::replace;

/// How far the robots are with a wavelet.
pub(crate) struct Progress {
    /// How many deltas each robot went through, by its number.
    pub counts: Vec<u64>,
    /// The edits that are still to be given.
    pub edits: Vec<RobotEdit>,
}

impl Drop for Progress {
    fn drop(self) {
        let Progress {
            counts: _counts,
            edits: _edits,
        } = self;
    }
}

/// Whether the robot of a number is there.
pub(crate) fn is_there(seats: &[Seat], robot: u64) -> bool
    ensures { result ≡ is_there (robots_by calls seats.now) robot }
{
    match seats.get(robot as usize) {
        Some(seat) => seat.is_here(),
        None => false,
    }
}

/// Whether no robot is there.
pub(crate) fn are_gone(seats: &[Seat]) -> bool
    ensures { result ≡ true → (r : ℕ) → is_there (robots_by calls seats.now) r ≡ false }
{
    for robot in 0..seats.len() {
        if is_there(seats, robot as u64) {
            return false;
        }
    }
    true
}

// The number of deltas that a robot went through.
fn number_of(counts: &[u64], robot: usize) -> u64
    ensures { result ≡ number_of counts.now robot }
{
    match counts.get(robot) {
        Some(number) => *number,
        None => 0,
    }
}

// Whether the robot, if it is there, went through so many deltas.
fn is_through(seats: &[Seat], counts: &[u64], robot: usize, deltas: u64) -> bool
    ensures { result ≡ true → is_there (robots_by calls seats.now) robot ≡ true → number_of counts.now robot ≡ deltas }
{
    if is_there(seats, robot as u64) {
        return number_of(counts, robot) == deltas;
    }
    true
}

// Shows the robot that is there what of its view it wasn't shown yet.
fn show_robot(
    alloc: Global,
    seats: &mut [Seat],
    progress: &mut Progress,
    robot: usize,
    history: &History,
    walk: &mut Walk,
) -> Result<(), Memory>
    requires inside { robot < length seats.old }
    requires counted { robot < length progress.old.counts.items }
    requires here { is_there (robots_by calls seats.old) robot ≡ true }
    requires within { number_of progress.old.counts.items robot ≤ length history.now.deltas }
    requires reached { IsReached history.now.deltas walk.old }
    ensures reached { IsReached history.now.deltas walk.new }
    ensures turn { TurnsOne calls history.now robot seats.old progress.old seats.new progress.new }
    ensures through { OnOk result (IsThrough history.now robot (robots_by calls seats.new) progress.new.counts.items) }
{
    let from = progress.counts[robot] as usize;
    let all: &[Seat] = seats;
    let places = places_from(alloc, all, &all[robot].address, history, from)?;
    show_places(
        alloc,
        &mut seats[robot],
        &mut progress.edits,
        &mut progress.counts[robot],
        robot as u64,
        history,
        places,
        walk,
    )
}

// The same for a robot, if it is there; one that isn't is shown nothing.
fn turn_robot(
    alloc: Global,
    seats: &mut [Seat],
    progress: &mut Progress,
    robot: usize,
    history: &History,
    walk: &mut Walk,
) -> Result<(), Memory>
    requires inside { robot < length seats.old }
    requires counted { robot < length progress.old.counts.items }
    requires within { is_there (robots_by calls seats.old) robot ≡ true →
        number_of progress.old.counts.items robot ≤ length history.now.deltas }
    requires reached { IsReached history.now.deltas walk.old }
    ensures reached { IsReached history.now.deltas walk.new }
    ensures turn { TurnsOne calls history.now robot seats.old progress.old seats.new progress.new }
    ensures through { OnOk result (IsThrough history.now robot (robots_by calls seats.new) progress.new.counts.items) }
{
    if is_there(seats, robot as u64) {
        return show_robot(alloc, seats, progress, robot, history, walk);
    }
    Ok(())
}

// The same for all robots, one after the other.
fn turn_all(
    alloc: Global,
    seats: &mut [Seat],
    progress: &mut Progress,
    history: &History,
) -> Result<(), Memory>
    requires counted { length seats.old ≤ length progress.old.counts.items }
    requires within { (r : ℕ) → is_there (robots_by calls seats.old) r ≡ true →
        number_of progress.old.counts.items r ≤ length history.now.deltas }
    ensures turns { TurnsAll calls history.now seats.old progress.old seats.new progress.new }
    ensures through { OnOk result (AreThrough history.now (robots_by calls seats.new) progress.new.counts.items) }
{
    let mut walk = Walk::new(alloc);
    for robot in 0..seats.len() {
        turn_robot(alloc, seats, progress, robot, history, &mut walk)?;
    }
    Ok(())
}

// Drops the edits of robots that aren't there.
fn drop_gone(seats: &[Seat], edits: &mut Vec<RobotEdit>)
    ensures { edits.new.items ≡ filter (is_of_there (robots_by calls seats.now)) edits.old.items }
{
    edits.retain(
        |edit: &RobotEdit| -> bool
            ensures { result ≡ is_of_there (robots_by calls seats.entry.now) edit.now }
        { is_there(seats, edit.robot) },
    );
}

impl Progress {
    /// No robot went through a delta yet, and no edit is kept.
    pub fn new(alloc: Global) -> Progress
        ensures counts { result.counts.items ≡ [] }
        ensures edits { result.edits.items ≡ [] }
    {
        Progress {
            counts: Vec::new(alloc),
            edits: Vec::new(alloc),
        }
    }

    // Makes a number for each of so many robots, 0 where there was none. The error is want of memory.
    fn count(&mut self, robots: usize) -> Result<(), Memory>
        ensures counted { OnOk result (robots ≤ length self.new.counts.items) }
        ensures numbers { (r : ℕ) → number_of self.new.counts.items r ≡ number_of self.old.counts.items r }
        ensures edits { self.new.edits ≡ self.old.edits }
    {
        for _ in self.counts.len()..robots {
            self.counts.push(0)?;
        }
        Ok(())
    }

    /// Whether each robot that is there went through so many deltas, and no edit is kept.
    pub fn is_settled(&self, seats: &[Seat], deltas: u64) -> bool
        ensures through { result ≡ true → (r : ℕ) → is_there (robots_by calls seats.now) r ≡ true → number_of self.now.counts.items r
            ≡ deltas }
        ensures none_kept { result ≡ true → self.now.edits.items ≡ [] }
    {
        for robot in 0..seats.len() {
            if !is_through(seats, &self.counts, robot, deltas) {
                return false;
            }
        }
        self.edits.is_empty()
    }

    /// Shows the robots what of their views they weren't shown yet, and gives the edits that were kept and then those answered. The error
    /// is want of memory: then the edits are kept.
    pub fn turn(
        &mut self,
        alloc: Global,
        seats: &mut [Seat],
        history: &History,
    ) -> Result<Vec<RobotEdit>, Memory>
        requires within { (r : ℕ) → is_there (robots_by calls seats.old) r ≡ true →
            number_of self.old.counts.items r ≤ length history.now.deltas }
        ensures given { IfOk result (λ given. AnswersAll calls history.now seats.old self.old seats.new self.new given.items) }
        ensures none_kept { OnOk result (self.new.edits.items ≡ []) }
        ensures through { OnOk result (AreThrough history.now (robots_by calls seats.new) self.new.counts.items) }
        ensures kept { OnErr result (TurnsAll calls history.now seats.old self.old seats.new self.new) }
    {
        self.count(seats.len())?;
        turn_all(alloc, seats, self, history)?;
        let mut given = replace(&mut self.edits, Vec::new(alloc));
        drop_gone(seats, &mut given);
        Ok(given)
    }
}
