ghost use Rattle.std.specs.Prelude.{◌≡◌, ◌≤◌, ◌++◌, ◌∷◌, [], ℕ, true, false, length, IfSome, IsSome, IfOk, OnOk, OnErr};
ghost use Rattle.robot_host.specs.Hosts.{host_by, kept, added, progress_in, IsNew};
ghost use Rattle.robot_host.specs.Hosts.{IsWithout, AreSameWavelets, MayTurn, HasTurned, AreThroughAll, AreOthersKept, IsSettled};
ghost use Rattle.robot_host.specs.Turns.{is_there as is_robot_there};

use crate::progress::{Progress, are_gone, is_there};
use crate::seat::{Seat, Seated};
use crate::{Robot, RobotEdit};
use delta_history::History;
use doc_items::Memory;
use std::alloc::Global;
use std::collections::BTreeMap;
use std::snapshot::Snapshot;
use wave_base::{Address, WaveletName};

/// The robots of a server. Each has a number, which stays: robots are numbered from 0 as they are added.
pub struct RobotHost {
    seats: Vec<Seat>,
    wavelets: BTreeMap<WaveletName, Progress>,
}

impl Drop for RobotHost {
    fn drop(self) {
        let RobotHost {
            seats: _seats,
            wavelets: _wavelets,
        } = self;
    }
}

// The address of a robot, to keep.
fn address_of(alloc: Global, robot: &Box<dyn Robot>) -> Result<Address, Memory>
    ensures { IfOk result (λ a. a ≡ named robot.now) }
{
    robot.address().copy(alloc)
}

impl RobotHost {
    /// No robot.
    pub fn new(alloc: Global) -> RobotHost
        ensures none { (host_by calls result).robots ≡ [] }
        ensures new { IsNew (host_by calls result) }
    {
        RobotHost {
            seats: Vec::new(alloc),
            wavelets: BTreeMap::new(alloc),
        }
    }

    /// One robot more, with the next number. No turn was taken yet. The error is want of memory: then the robots are as they were, and
    /// the new one is dropped.
    pub fn add(&mut self, alloc: Global, robot: Box<dyn Robot>) -> Result<(), Memory>
        requires new { IsNew (host_by calls self.old) }
        ensures new { IsNew (host_by calls self.new) }
        ensures robots { OnOk result ((host_by calls self.new).robots ≡
            (host_by calls self.old).robots ++ added (named robot) (calls robot) ∷ []) }
        ensures same { OnErr result ((host_by calls self.new).robots ≡ (host_by calls self.old).robots) }
    {
        let address = address_of(alloc, &robot)?;
        let first = Snapshot::of(&robot);
        self.seats.push(Seat {
            address,
            first,
            robot: Seated::Here(robot),
        })?;
        Ok(())
    }

    // Has a place for what is kept of a wavelet. The error is want of memory. Numbers and edits stay.
    fn begin(&mut self, alloc: Global, name: &WaveletName) -> Result<(), Memory>
        ensures seats { self.new.seats ≡ self.old.seats }
        ensures there { OnOk result (IsSome (progress_in self.new.wavelets name.now)) }
        ensures same { AreSameWavelets self.old.wavelets self.new.wavelets }
    {
        if self.wavelets.contains_key(name) {
            return Ok(());
        }
        let name = name.copy(alloc)?;
        let _none = self.wavelets.insert(name, Progress::new(alloc))?;
        Ok(())
    }

    /// Shows each robot that is there what of its view of the history it wasn't shown yet, in order, and gives the edits that were kept
    /// for the wavelet and then those answered, of the robots that are there then. A robot that answers `Leave` is dropped. The error is
    /// want of memory: deltas that robots reacted to before count as shown, and the edits are kept for the next turn.
    pub fn turn(&mut self, alloc: Global, history: &History) -> Result<Vec<RobotEdit>, Memory>
        requires may { MayTurn (host_by calls self.old) history.now }
        ensures given { IfOk result (λ given. HasTurned (host_by calls self.old) history.now (host_by calls self.new) given.items) }
        ensures none_kept { OnOk result (kept (host_by calls self.new) history.now.name ≡ []) }
        ensures through { OnOk result (AreThroughAll (host_by calls self.new) history.now) }
        ensures kept { OnErr result (HasTurned (host_by calls self.old) history.now (host_by calls self.new) (kept
            (host_by calls self.new) history.now.name)) }
        ensures shown { MayTurn (host_by calls self.new) history.now }
        ensures others { AreOthersKept (host_by calls self.old) (host_by calls self.new) history.now.name }
    {
        self.begin(alloc, history.name())?;
        match self.wavelets.get_mut(history.name()) {
            Some(progress) => progress.turn(alloc, self.seats.as_mut_slice(), history),
            None => unreachable!(),
        }
    }

    /// Whether no robot is there.
    pub fn is_deserted(&self) -> bool
        ensures { result ≡ true → (r : ℕ) → is_robot_there (host_by calls self.now).robots r ≡ false }
    {
        are_gone(&self.seats)
    }

    /// Whether each robot that is there went through all deltas of the history, and no edit is kept for it. It costs no more than a look
    /// at a number for each robot; it may say no where it is so.
    pub fn is_settled(&self, history: &History) -> bool
        ensures { result ≡ true → IsSettled (host_by calls self.now) history.now }
    {
        match self.wavelets.get(history.name()) {
            Some(progress) => progress.is_settled(&self.seats, history.deltas().len() as u64),
            None => self.is_deserted(),
        }
    }

    /// The robot of a number is dropped, whose submission was invalid; with it go its kept edits. The other robots stay as they are.
    pub fn refused(&mut self, robot: u64)
        ensures { IsWithout (host_by calls self.old) robot (host_by calls self.new) }
    {
        let _was = self.retire(robot);
    }

    /// Drops the robot of a number, and with it its kept edits, and says whether it was there. The other robots stay as they are.
    pub fn retire(&mut self, robot: u64) -> bool
        ensures was { result ≡ is_robot_there (host_by calls self.old).robots robot }
        ensures without { IsWithout (host_by calls self.old) robot (host_by calls self.new) }
    {
        if !is_there(&self.seats, robot) {
            return false;
        }
        self.seats[robot as usize].leave();
        true
    }
}
