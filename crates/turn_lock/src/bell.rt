//! Where threads sleep until their ticket comes near.
//!
//! A bell is a hint: no clause says that it rings, and whoever it wakes looks again. That no
//! sleeper is missed rests on the one order of all atomic operations. A sleeper counts itself in
//! before its last look at the serving word, and the one who rings has changed that word before
//! it looks for sleepers. So either the sleeper finds its ticket served, or it is counted.
use std::sync::Wait;
use std::sync::atomic::{AtomicU64, Ordering};

#[derive(Drop)]
pub(crate) struct Bell {
    sleepers: AtomicU64,
    rings: AtomicU64,
}

impl Bell {
    pub(crate) fn new() -> Bell {
        Bell {
            sleepers: AtomicU64::new(0),
            rings: AtomicU64::new(0),
        }
    }

    /// Counts this thread among the sleepers, and answers how often the bell has rung.
    pub(crate) fn lie_down(&self) -> u64 {
        self.sleepers.fetch_add(1, Ordering::SeqCst);
        self.rings.load(Ordering::SeqCst)
    }

    /// Sleeps until the bell has rung more often than that. It may also return for no reason.
    pub(crate) fn sleep<R: Wait>(&self, rt: &R, rings: u64) {
        self.rings.park(rt, (rings % (1 << 32)) as u32);
    }

    pub(crate) fn get_up(&self) {
        self.sleepers.fetch_sub(1, Ordering::SeqCst);
    }

    /// Wakes every thread that sleeps here.
    pub(crate) fn ring(&self) {
        if self.sleepers.load(Ordering::SeqCst) > 0 {
            self.rings.fetch_add(1, Ordering::SeqCst);
            self.rings.wake_all();
        }
    }
}
