//! What all sessions see.
use std::alloc::{AllocError, Global};
use std::sync::atomic::{AtomicUsize, Ordering};
use std::sync::{Arc, Mutex, Wait};

/// The messages that came, in order.
pub struct Log {
    length: AtomicUsize,
    entries: Mutex<Vec<Arc<Vec<u8>, Global>>>,
}

impl Drop for Log {
    fn drop(self) {
        let Log {
            length: _length,
            entries: _entries,
        } = self;
    }
}

impl Log {
    pub fn new(alloc: Global) -> Log {
        Log {
            length: AtomicUsize::new(0),
            entries: Mutex::new(Vec::new(alloc)),
        }
    }

    /// How many messages came.
    pub fn len(&self) -> usize {
        self.length.load(Ordering::SeqCst)
    }

    pub fn add<R: Wait>(&self, rt: &R, alloc: Global, message: Vec<u8>) -> Result<(), AllocError> {
        let shared = Arc::new(alloc, message)?;
        let mut guard = self.entries.lock(rt);
        let entries = &mut *guard;
        entries.push(shared)?;
        self.length.store(entries.len(), Ordering::SeqCst);
        Ok(())
    }

    /// The message at this place.
    pub fn get<R: Wait>(&self, rt: &R, place: usize) -> Option<Arc<Vec<u8>, Global>> {
        let guard = self.entries.lock(rt);
        match guard.get(place) {
            Some(entry) => Arc::try_clone(entry).ok(),
            None => None,
        }
    }
}
