ghost use Rattle.std.specs.Prelude.{◌≡◌, ℕ, IfOk};
ghost use denote.Param.Send.{IsSend};
ghost use Rattle.wave_outside.specs.Counts.{HasCause};

use crate::faults::Faults;
use std::alloc::Global;
use std::sync::Wait;

/// A job could not be started.
#[derive(Clone, Copy, Debug, PartialEq, Eq)]
pub struct Refused;

/// Work that ends with a value.
pub trait Job: Drop {
    type End: Drop;

    /// What the work may end with.
    ghost may_give: { Self → Self.End → Type 0 };

    fn work<R: Wait>(self, rt: &R, alloc: Global) -> Self::End
        ensures { may_give self result };
}

/// What runs jobs, which wait by the handle `R`.
pub trait Spawner<J: Job, R: Wait> {
    /// A job that was started.
    type Running: Drop;

    /// Which job it is.
    ghost job_of: { Self.Running → J };

    /// How many starts were refused.
    ghost refused: { Self → ℕ };

    /// Starts a job. One that is refused is dropped.
    fn start(&mut self, rt: &R, alloc: Global, job: J) -> Result<Self::Running, Refused>
        requires { IsSend R.row }
        ensures cause { HasCause (refused self.old) (refused self.new) result }
        ensures job { IfOk result (λ r. job_of r ≡ job) };

    /// Whether the job has ended, as far as can be seen without waiting.
    fn done(&self, running: &Self::Running) -> bool;

    /// Waits for the job's end, and gives what it ended with.
    fn take(&mut self, rt: &R, alloc: Global, running: Self::Running) -> J::End
        ensures end { J.may_give (job_of running) result }
        ensures same { refused self.new ≡ refused self.old };
}

/// A spawner that does the work when its end is taken.
#[derive(Clone, Copy, Drop)]
pub struct InTurn;

impl<J: Job, R: Wait> Spawner<J, R> for InTurn {
    type Running = J;

    ghost job_of = { λ j. j };

    ghost refused = { λ _. 0 };

    fn start(&mut self, _rt: &R, _alloc: Global, job: J) -> Result<J, Refused> {
        Ok(job)
    }

    fn done(&self, _running: &J) -> bool {
        true
    }

    fn take(&mut self, rt: &R, alloc: Global, running: J) -> J::End {
        running.work(rt, alloc)
    }
}

/// A spawner that refuses each start.
#[derive(Clone, Copy, Drop)]
pub struct RefusingSpawner {
    faults: Faults,
}

impl RefusingSpawner {
    pub fn new() -> RefusingSpawner
        ensures { result.faults.count ≡ 0 }
    {
        RefusingSpawner {
            faults: Faults::none(),
        }
    }
}

impl<J: Job, R: Wait> Spawner<J, R> for RefusingSpawner {
    type Running = J;

    ghost job_of = { λ j. j };

    ghost refused = { λ s. s.faults.count };

    fn start(&mut self, _rt: &R, _alloc: Global, _job: J) -> Result<J, Refused> {
        let _failed = self.faults.raise();
        Err(Refused)
    }

    fn done(&self, _running: &J) -> bool {
        true
    }

    fn take(&mut self, rt: &R, alloc: Global, running: J) -> J::End {
        running.work(rt, alloc)
    }
}
