//! A job that ends with its number, and a spawner of threads for such jobs.
ghost use Rattle.std.specs.Prelude.{◌≡◌};

use std::alloc::Global;
use std::sync::Wait;
use std::thread::Threads;
use wave_outside::{Job, Refused, Spawner};
use wave_threads::{Child, Handed, ThreadStarter};

/// A job that ends with its number.
#[derive(Drop)]
pub struct Numbered {
    pub number: u64,
}

impl Job for Numbered {
    type End = u64;

    ghost may_give = { λ j e. e ≡ j.number };

    fn work<R: Wait>(self, _rt: &R, _alloc: Global) -> u64 {
        self.number
    }
}

/// A spawner of threads for such jobs.
#[derive(Drop)]
pub struct NumberedSpawner {
    pub starter: ThreadStarter,
}

impl<R: Threads + Wait + Copy + Send + Sync + Drop + 'static> Spawner<Numbered, R>
    for NumberedSpawner {
    type Running = Child<Handed<R, Numbered>>;

    ghost job_of = { λ child. child.handle.promise.0.value.job };

    ghost refused = { λ s. s.starter.refused.count };

    fn start(
        &mut self,
        rt: &R,
        alloc: Global,
        job: Numbered,
    ) -> Result<Child<Handed<R, Numbered>>, Refused> {
        self.starter.start(rt, alloc, Handed::new(*rt, alloc, job))
    }

    fn done(&self, running: &Child<Handed<R, Numbered>>) -> bool {
        running.is_done()
    }

    fn take(&mut self, rt: &R, _alloc: Global, running: Child<Handed<R, Numbered>>) -> u64 {
        running.join(rt)
    }
}
