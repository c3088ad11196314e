ghost use Rattle.std.specs.Prelude.{◌≡◌, IfOk};

use doc_items::Memory;
use std::alloc::Global;
use wavelet_op::Submission;

/// A submission that a robot makes.
pub struct RobotEdit {
    /// The number of the robot.
    pub robot: u64,
    pub submission: Submission,
}

impl Drop for RobotEdit {
    fn drop(self) {
        let RobotEdit {
            robot: _robot,
            submission: _submission,
        } = self;
    }
}

impl RobotEdit {
    /// An equal edit. The error is want of memory.
    pub fn copy(&self, alloc: Global) -> Result<RobotEdit, Memory>
        ensures { IfOk result (λ e. e ≡ self.now) }
    {
        let submission = self.submission.copy(alloc)?;
        Ok(RobotEdit {
            robot: self.robot,
            submission,
        })
    }
}
