//! The sessions' threads.
ghost use Rattle.std.specs.Prelude.{◌≡◌};

use crate::talk::Talk;
use std::alloc::Global;
use std::sync::Wait;
use std::thread::Threads;
use wave_outside::{Refused, Spawner};
use wave_threads::{Child, Handed, RingingGate, ThreadStarter};
use ws_link::SocketLink;

/// The jobs of this program.
pub type RealTalk = Talk<SocketLink<HostRuntime>, RingingGate>;

/// A spawner of threads for sessions.
#[derive(Drop)]
pub struct TalkSpawner {
    pub starter: ThreadStarter,
}

impl<R: Threads + Wait + Copy + Send + Sync + Drop + 'static> Spawner<RealTalk, R> for TalkSpawner {
    type Running = Child<Handed<R, RealTalk>>;

    ghost job_of = { λ child. child.handle.promise.0.value.job };

    ghost refused = { λ s. s.starter.refused.count };

    fn start(
        &mut self,
        rt: &R,
        alloc: Global,
        job: RealTalk,
    ) -> Result<Child<Handed<R, RealTalk>>, Refused> {
        self.starter.start(rt, alloc, Handed::new(*rt, alloc, job))
    }

    fn done(&self, running: &Child<Handed<R, RealTalk>>) -> bool {
        running.is_done()
    }

    fn take(
        &mut self,
        rt: &R,
        _alloc: Global,
        running: Child<Handed<R, RealTalk>>,
    ) -> SocketLink<HostRuntime> {
        running.join(rt)
    }
}
