//! The sessions' threads.
ghost use Rattle.std.specs.Prelude.{◌≡◌, true};
ghost use Rattle.std.specs.Arc.{arc_value};
ghost use denote.Param.Send.{IsSend};
ghost use Rattle.std.specs.contracts.rt.LibcRuntime as runtime;
ghost use Rattle.ws_link.specs.contracts.link.SocketLink as socket;
ghost use Rattle.wave_threads.specs.contracts.gate.RingingGate as gate;
ghost use Rattle.wave_outside.specs.Counts.{Rose};
ghost use Rattle.turn_cells.specs.Cells.{Begins};
ghost use Rattle.session_hub.specs.Hubs.{AreOfHub};
ghost use Rattle.session_steps.specs.declared.end.EndCause.TheVariants.{Closed, Failed};

use session_link::{LinkEnd, LinkJob};
use std::alloc::Global;
use std::sync::Wait;
use std::thread::Threads;
use wave_files::{FileFolder, SystemClock};
use wave_outside::{Job, Refused, Spawner};
use wave_threads::{Child, RingingGate, ThreadStarter, Work};
use ws_link::SocketLink;

/// The sessions of this program.
pub type RealJob = LinkJob<
    SocketLink<HostRuntime>,
    FileFolder<HostRuntime>,
    SystemClock<HostRuntime>,
    RingingGate,
>;

/// What a session ends with.
type RealEnd = LinkEnd<SocketLink<HostRuntime>, FileFolder<HostRuntime>>;

/// A session for a thread, with the handle that it waits by.
pub struct SessionThread<R: Drop> {
    rt: R,
    alloc: Global,
    job: RealJob,
}

impl<R: Drop> Drop for SessionThread<R> {
    fn drop(self) {
        let SessionThread {
            rt: _rt,
            alloc: _alloc,
            job: _job,
        } = self;
    }
}

impl<R: Wait + Drop> Work for SessionThread<R> {
    type End = RealEnd;

    ghost may_end = { λ w e. AreOfHub (arc_value w.job.hub) e.passes × Begins w.job.passes e.passes
        × (e.cause ≡ Closed → e.link.closed ≡ true) × (e.cause ≡ Failed → Rose w.job.link.faults.count e.link.faults.count) };

    fn run(self) -> RealEnd {
        let SessionThread { rt, alloc, job } = self;
        job.work(&rt, alloc)
    }
}

// A value of this type may go to another thread.
fn sent<T: Send>()
    ensures { IsSend T.row }
{}

// Sockets and gates may go to another thread. It does nothing.
fn links_are_sent()
    ensures link { IsSend (socket.the_row runtime.the_row) }
    ensures gate { IsSend gate.the_row }
{
    sent::<SocketLink<HostRuntime>>();
    sent::<RingingGate>();
}

/// What starts a thread for each session.
pub struct SessionSpawner {
    pub starter: ThreadStarter,
}

impl Drop for SessionSpawner {
    fn drop(self) {
        let SessionSpawner { starter: _starter } = self;
    }
}

impl<R: Threads + Wait + Copy + Send + Sync + Drop + 'static> Spawner<RealJob, R>
    for SessionSpawner {
    type Running = Child<SessionThread<R>>;

    ghost job_of = { λ child. child.handle.promise.0.value.job };

    ghost refused = { λ s. s.starter.refused.count };

    fn start(
        &mut self,
        rt: &R,
        alloc: Global,
        job: RealJob,
    ) -> Result<Child<SessionThread<R>>, Refused> {
        // For the proof.
        links_are_sent();
        let work = SessionThread {
            rt: *rt,
            alloc,
            job,
        };
        self.starter.start(rt, alloc, work)
    }

    fn done(&self, running: &Child<SessionThread<R>>) -> bool {
        running.is_done()
    }

    fn take(&mut self, rt: &R, _alloc: Global, running: Child<SessionThread<R>>) -> RealEnd {
        running.join(rt)
    }
}
