use std::alloc::{AllocError, Global};
use std::sync::Arc;
use std::sync::atomic::{AtomicU64, Ordering};
use std::thread;

/// What a session tells around its turns, and what it waits for there. It has no meaning: nothing that is promised rests on it.
pub trait Gate {
    /// Called before each turn of a shard.
    fn before(&mut self, session: u64, shard: u8);

    /// Called after each turn of a shard.
    fn after(&mut self, session: u64, shard: u8);

    /// Called after a turn that added to the shard's history, so that others are woken.
    fn news(&mut self, session: u64, shard: u8);

    /// A gate for another session.
    fn another(&self) -> Self
    where
        Self: Sized;
}

/// A gate at which nothing happens.
#[derive(Clone, Copy, Drop)]
pub struct OpenGate;

impl Gate for OpenGate {
    fn before(&mut self, _session: u64, _shard: u8) {}

    fn after(&mut self, _session: u64, _shard: u8) {}

    fn news(&mut self, _session: u64, _shard: u8) {}

    fn another(&self) -> OpenGate {
        OpenGate
    }
}

/// A gate of a test, which holds one session before its turns until the others have had some.
#[derive(Drop)]
pub struct HoldingGate {
    held: u64,
    turns: u64,
    // The turns of the others until now; None where no gate could share them.
    others: Option<Arc<AtomicU64, Global>>,
}

impl HoldingGate {
    /// Holds the session `held` until others have had so many turns.
    pub fn new(alloc: Global, held: u64, turns: u64) -> Result<HoldingGate, AllocError> {
        let others = Arc::new(alloc, AtomicU64::new(0))?;
        Ok(HoldingGate {
            held,
            turns,
            others: Some(others),
        })
    }

    // Whether the session held may go on.
    fn is_open(&self) -> bool {
        match &self.others {
            Some(others) => others.load(Ordering::SeqCst) >= self.turns,
            None => true,
        }
    }
}

impl Gate for HoldingGate {
    fn before(&mut self, session: u64, _shard: u8) {
        if session != self.held {
            return;
        }
        for _ in 0..u64::MAX {
            if self.is_open() {
                return;
            }
            thread::yield_now();
        }
    }

    fn after(&mut self, session: u64, _shard: u8) {
        if session == self.held {
            return;
        }
        if let Some(others) = &self.others {
            let _before = others.fetch_add(1, Ordering::SeqCst);
        }
    }

    fn news(&mut self, _session: u64, _shard: u8) {}

    fn another(&self) -> HoldingGate {
        let others = match &self.others {
            Some(others) => Arc::try_clone(others).ok(),
            None => None,
        };
        HoldingGate {
            held: self.held,
            turns: self.turns,
            others,
        }
    }
}
