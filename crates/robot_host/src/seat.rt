ghost use Rattle.std.specs.Prelude.{◌≡◌};
ghost use Rattle.robot_host.specs.Robots.{is_here, robot_by};
ghost use Rattle.robot_host.specs.Showing.{dropped};

use crate::Robot;
use std::snapshot::Snapshot;
use wave_base::Address;

/// A robot of the host: one that is there, or what is known in proofs of one that isn't any more.
pub(crate) enum Seated {
    Here(Box<dyn Robot>),
    /// The robot as it was last.
    Gone(Snapshot<Box<dyn Robot>>),
}

impl Drop for Seated {
    fn drop(self) {
        match self {
            Seated::Here(_robot) => {}
            Seated::Gone(_last) => {}
        }
    }
}

/// The place of a robot in the host. It stays when the robot is dropped.
pub(crate) struct Seat {
    pub address: Address,
    /// The robot as it was added.
    pub first: Snapshot<Box<dyn Robot>>,
    pub robot: Seated,
}

impl Drop for Seat {
    fn drop(self) {
        let Seat {
            address: _address,
            first: _first,
            robot: _robot,
        } = self;
    }
}

impl Seat {
    /// Whether the robot is there.
    pub fn is_here(&self) -> bool
        ensures { result ≡ is_here self.now.robot }
    {
        match &self.robot {
            Seated::Here(_) => true,
            Seated::Gone(_) => false,
        }
    }

    /// The robot is dropped; one that isn't there stays so.
    pub fn leave(&mut self)
        ensures { robot_by calls self.new ≡ dropped (robot_by calls self.old) }
    {
        if let Seated::Here(robot) = &self.robot {
            let last = Snapshot::of(robot);
            self.robot = Seated::Gone(last);
        }
    }
}
