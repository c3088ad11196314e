//! Work in threads, and how many starts were refused.
//!
//! A thread can't be started for a type that rests on a bound of the caller's trait. So a program that runs jobs of one type writes
//! its own `Spawner`, over the calls here: `start` hands the job on as `Handed`, `done` and `take` are those of `Child`.
ghost use Rattle.std.specs.Prelude.{◌≡◌, IfOk};
ghost use Rattle.wave_outside.specs.Counts.{HasCause};

use crate::work::{Child, Work, start_thread};
use std::alloc::Global;
use std::sync::Arc;
use std::thread::Threads;
use wave_outside::{Faults, Refused};
use ws_link::Bells;

/// What starts a thread for each piece of work. At its end the work rings the bell at the door.
pub struct ThreadStarter {
    bells: Arc<Bells, Global>,
    /// How many starts were refused.
    pub refused: Faults,
}

impl Drop for ThreadStarter {
    fn drop(self) {
        let ThreadStarter {
            bells: _bells,
            refused: _refused,
        } = self;
    }
}

impl ThreadStarter {
    pub fn new(bells: Arc<Bells, Global>) -> ThreadStarter
        ensures { result.refused.count ≡ 0 }
    {
        ThreadStarter {
            bells,
            refused: Faults::none(),
        }
    }

    /// Starts a thread for some work. Work that is refused is dropped.
    pub fn start<W: Work + Send + 'static, R: Threads>(
        &mut self,
        rt: &R,
        alloc: Global,
        work: W,
    ) -> Result<Child<W>, Refused>
    where
        W::End: Send + 'static,
        ensures cause { HasCause self.old.refused.count self.new.refused.count result }
        ensures work { IfOk result (λ child. child.handle.promise.0.value ≡ work) }
    {
        match start_thread(rt, alloc, &self.bells, work) {
            Some(child) => Ok(child),
            None => {
                let _failed = self.refused.raise();
                Err(Refused)
            }
        }
    }
}
