//! The threads of a talk's sessions.
ghost use denote.Param.Send.{IsSend, IsSync};
ghost use Rattle.std.specs.Prelude.{◌≡◌, true};
ghost use Rattle.std.specs.Arc.{arc_value};
ghost use Rattle.wave_outside.specs.Counts.{Rose};
ghost use Rattle.turn_cells.specs.Cells.{Begins};
ghost use Rattle.session_hub.specs.Hubs.{AreOfHub};
ghost use Rattle.session_steps.specs.declared.end.EndCause.TheVariants.{Closed, Failed};
ghost use Rattle.disk_model.specs.contracts.memory.MemoryDisk as disk;
ghost use Rattle.wave_outside.specs.contracts.memory_folder.MemoryFolder as folder;
ghost use Rattle.test_serve.specs.contracts.gate.StagedGate as gate;
ghost use Rattle.test_serve.specs.contracts.link.StagedLink as link;
ghost use Rattle.test_serve.specs.contracts.stage.StagedClock as clock;

use crate::gate::StagedGate;
use crate::link::StagedLink;
use crate::stage::StagedClock;
use disk_model::MemoryDisk;
use session_link::{LinkEnd, LinkJob};
use std::alloc::Global;
use std::sync::Wait;
use std::thread::Threads;
use wave_outside::{Job, MemoryFolder, Refused, Spawner};
use wave_threads::{Child, ThreadStarter, Work};

/// The sessions of a talk.
pub type StagedJob = LinkJob<StagedLink, MemoryFolder, StagedClock, StagedGate>;

/// What a session of a talk ends with.
type StagedEnd = LinkEnd<StagedLink, MemoryFolder>;

/// A session for a thread, with the handle that it waits by.
pub struct StagedThread<R: Drop> {
    rt: R,
    alloc: Global,
    job: StagedJob,
}

impl<R: Drop> Drop for StagedThread<R> {
    fn drop(self) {
        let StagedThread {
            rt: _rt,
            alloc: _alloc,
            job: _job,
        } = self;
    }
}

impl<R: Wait + Drop> Work for StagedThread<R> {
    type End = StagedEnd;

    ghost may_end = { λ w e. AreOfHub (arc_value w.job.hub) e.passes × Begins w.job.passes e.passes
        × (e.cause ≡ Closed → e.link.has_closed ≡ true) × (e.cause ≡ Failed → Rose w.job.link.faults.count e.link.faults.count) };

    fn run(self) -> StagedEnd {
        let StagedThread { rt, alloc, job } = self;
        job.work(&rt, alloc)
    }
}

// A value of this type may go to another thread.
fn sent<T: Send>()
    ensures { IsSend T.row }
{}

// A value of this type may be shared.
fn shared<T: Sync>()
    ensures { IsSync T.row }
{}

// What a session of a talk consists of may go to another thread, and its folder be shared. It does nothing.
fn parts_are_sent()
    ensures link { IsSend link.the_row }
    ensures folder { IsSend folder.the_row }
    ensures shared_folder { IsSync folder.the_row }
    ensures disk { IsSend disk.the_row }
    ensures shared_disk { IsSync disk.the_row }
    ensures clock { IsSend clock.the_row }
    ensures gate { IsSend gate.the_row }
{
    sent::<StagedLink>();
    sent::<MemoryFolder>();
    shared::<MemoryFolder>();
    sent::<MemoryDisk>();
    shared::<MemoryDisk>();
    sent::<StagedClock>();
    sent::<StagedGate>();
}

/// What starts a thread for each session, or refuses each start.
pub struct StagedSpawner {
    pub starter: ThreadStarter,
    pub refuses: bool,
}

impl Drop for StagedSpawner {
    fn drop(self) {
        let StagedSpawner {
            starter: _starter,
            refuses: _refuses,
        } = self;
    }
}

impl<R: Threads + Wait + Copy + Send + Sync + Drop + 'static> Spawner<StagedJob, R>
    for StagedSpawner {
    type Running = Child<StagedThread<R>>;

    ghost job_of = { λ child. child.handle.promise.0.value.job };

    ghost refused = { λ s. s.starter.refused.count };

    fn start(
        &mut self,
        rt: &R,
        alloc: Global,
        job: StagedJob,
    ) -> Result<Child<StagedThread<R>>, Refused> {
        if self.refuses {
            let _failed = self.starter.refused.raise();
            return Err(Refused);
        }
        // For the proof.
        parts_are_sent();
        let work = StagedThread {
            rt: *rt,
            alloc,
            job,
        };
        self.starter.start(rt, alloc, work)
    }

    fn done(&self, running: &Child<StagedThread<R>>) -> bool {
        running.is_done()
    }

    fn take(&mut self, rt: &R, _alloc: Global, running: Child<StagedThread<R>>) -> StagedEnd {
        running.join(rt)
    }
}
