//! Work in a thread of its own.
ghost use Rattle.std.specs.Prelude.{◌≡◌, IfSome};

use std::alloc::Global;
use std::snapshot::Snapshot;
use std::sync::atomic::{AtomicBool, Ordering};
use std::sync::{Arc, Wait};
use std::thread;
use std::thread::{Promise, PromisedHandle, Threads};
use wave_outside::Job;
use ws_link::Bells;

/// Work for a thread, which carries all that it needs.
pub trait Work: Drop {
    type End: Drop;

    /// What the work may end with.
    ghost may_end: { Self → Self.End → Type 0 };

    fn run(self) -> Self::End
        ensures { may_end self result };
}

/// A job with the handle that it waits by.
pub struct Handed<R: Drop, J: Job> {
    rt: R,
    alloc: Global,
    pub job: J,
}

impl<R: Drop, J: Job> Drop for Handed<R, J> {
    fn drop(self) {
        let Handed {
            rt: _rt,
            alloc: _alloc,
            job: _job,
        } = self;
    }
}

impl<R: Drop, J: Job> Handed<R, J> {
    pub fn new(rt: R, alloc: Global, job: J) -> Handed<R, J>
        ensures { result.job ≡ job }
    {
        Handed { rt, alloc, job }
    }
}

impl<R: Wait + Drop, J: Job> Work for Handed<R, J> {
    type End = J::End;

    ghost may_end = { λ w end. J.may_give w.job end };

    fn run(self) -> J::End {
        let Handed { rt, alloc, job } = self;
        job.work(&rt, alloc)
    }
}

/// What a thread promises of its end.
#[derive(Drop)]
pub struct EndOf<W: Work>(pub Snapshot<W>);

impl<W: Work> Promise<W::End> for EndOf<W> {
    ghost kept_by = { λ p end. W.may_end p.0.value end };
}

/// Work that goes on in a thread.
pub struct Child<W: Work> {
    pub handle: PromisedHandle<W::End, EndOf<W>>,
    ended: Arc<AtomicBool, Global>,
}

impl<W: Work> Drop for Child<W> {
    fn drop(self) {
        let Child {
            handle: _handle,
            ended: _ended,
        } = self;
    }
}

/// Starts a thread for some work. At its end the thread says that it has ended, and rings the bell at the door.
pub(crate) fn start_thread<W: Work + Send + 'static, R: Threads>(
    rt: &R,
    alloc: Global,
    bells: &Arc<Bells, Global>,
    work: W,
) -> Option<Child<W>>
where
    W::End: Send + 'static,
    ensures { IfSome result (λ child. child.handle.promise.0.value ≡ work) }
{
    let door = Arc::try_clone(bells).ok()?;
    let ended = Arc::new(alloc, AtomicBool::new(false)).ok()?;
    let theirs = Arc::try_clone(&ended).ok()?;
    let started = thread::spawn_with(rt, EndOf(Snapshot::of(&work)), move || {
        let end = work.run();
        theirs.store(true, Ordering::SeqCst);
        door.ring_door();
        end
    });
    match started {
        Ok(handle) => Some(Child { handle, ended }),
        Err(_) => None,
    }
}

impl<W: Work> Child<W> {
    /// Whether the work has ended.
    pub fn is_done(&self) -> bool {
        self.ended.load(Ordering::SeqCst)
    }

    /// Waits for the end of the work.
    pub fn join<R: Threads>(self, rt: &R) -> W::End
        ensures { W.may_end self.handle.promise.0.value result }
    {
        let Child {
            handle,
            ended: _ended,
        } = self;
        handle.join(rt)
    }
}
