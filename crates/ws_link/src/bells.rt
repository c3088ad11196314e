//! Bells, by which whoever has news wakes those who wait for it.
//!
//! A bell is a hint: no clause says that it rings, and whoever it wakes looks again. That nobody is missed rests on the one order of
//! all atomic operations. Who rings sets the flag `rung`, and then wakes the owner where the flag was clear and the owner lies down.
//! The owner notes that it lies down and then looks at the flag before it waits; it clears both when its wait has ended, and looks
//! for news after that. So either it finds the news there, or the bell was rung after it and ends the next wait.
//!
//! Nobody who rings waits for anybody: the wakers are only read then. They are written by their owners, when these come and go.
use mio::Waker;
use std::alloc::{AllocError, Global};
use std::sync::atomic::{AtomicBool, AtomicU64, AtomicUsize, Ordering};
use std::sync::{Arc, RwLock};
use std::thread;

/// The session of a bell that has none.
const NO_SESSION: u64 = u64::MAX;

/// The place of the bell at the door.
const DOOR: usize = 0;

/// Ends the wait of its owner.
struct Bell {
    taken: AtomicBool,
    session: AtomicU64,
    // A bit for each shard of which its owner wants the news.
    shards: AtomicU64,
    rung: AtomicBool,
    // Whether its owner waits, or is about to.
    asleep: AtomicBool,
    waker: RwLock<Option<Waker>>,
}

impl Drop for Bell {
    fn drop(self) {
        let Bell {
            taken: _taken,
            session: _session,
            shards: _shards,
            rung: _rung,
            asleep: _asleep,
            waker: _waker,
        } = self;
    }
}

impl Bell {
    fn new() -> Bell {
        Bell {
            taken: AtomicBool::new(false),
            session: AtomicU64::new(NO_SESSION),
            shards: AtomicU64::new(0),
            rung: AtomicBool::new(false),
            asleep: AtomicBool::new(false),
            waker: RwLock::new(None),
        }
    }

    // Makes the bell somebody's, if it is nobody's.
    fn take(&self) -> bool {
        !self.taken.swap(true, Ordering::SeqCst)
    }

    // Ends the wait that is under way, or else the next.
    fn ring(&self) {
        if self.rung.swap(true, Ordering::SeqCst) || !self.asleep.load(Ordering::SeqCst) {
            return;
        }
        if let Some(guard) = self.waker.try_read() {
            if let Some(waker) = &*guard {
                let _woken = waker.wake();
            }
        }
    }

    // Puts another waker in the place of this bell's. Only its owner does, and waits at most for those who are ringing it.
    fn hang(&self, waker: Option<Waker>) {
        for _ in 0..u64::MAX {
            if let Some(mut guard) = self.waker.try_write() {
                *guard = waker;
                return;
            }
            thread::yield_now();
        }
    }

    fn wants(&self, bit: u64) -> bool {
        self.shards.load(Ordering::SeqCst) & bit != 0
    }
}

/// The bells of all who wait for news, in a table of fixed size. The first is the one at the door, where links are accepted.
pub struct Bells {
    table: Vec<Bell>,
    // How many bells at the front of the table were ever somebody's.
    used: AtomicUsize,
}

impl Drop for Bells {
    fn drop(self) {
        let Bells {
            table: _table,
            used: _used,
        } = self;
    }
}

impl Bells {
    /// A bell for the door, and one for each of so many links. A link beyond them looks for news once a second.
    pub fn new(alloc: Global, links: usize) -> Result<Bells, AllocError> {
        let mut table = Vec::new(alloc);
        table.push(Bell::new())?;
        for _ in 0..links {
            table.push(Bell::new())?;
        }
        Ok(Bells {
            table,
            used: AtomicUsize::new(1),
        })
    }

    /// Ends the wait at the door.
    pub fn ring_door(&self) {
        if let Some(bell) = self.table.get(DOOR) {
            bell.ring();
        }
    }

    /// The place of the bell of a session. A session without a bell of its own is served at the door.
    pub fn place_of(&self, session: u64) -> usize {
        for place in 1..self.used.load(Ordering::SeqCst) {
            if let Some(bell) = self.table.get(place) {
                if bell.session.load(Ordering::SeqCst) == session {
                    return place;
                }
            }
        }
        DOOR
    }

    /// From now on the owner of the bell at this place is woken at news of the shard.
    pub fn want(&self, place: usize, shard: u8) {
        if let Some(bell) = self.table.get(place) {
            let _before = bell.shards.fetch_or(bit_of(shard), Ordering::SeqCst);
        }
    }

    /// Rings each bell whose owner wants the news of the shard, but the one at this place.
    pub fn ring_others(&self, place: usize, shard: u8) {
        let bit = bit_of(shard);
        for other in 0..self.used.load(Ordering::SeqCst) {
            if let Some(bell) = self.table.get(other) {
                if other != place && bell.wants(bit) {
                    bell.ring();
                }
            }
        }
    }

    // The place of a bell that was nobody's, if there is one.
    fn take_place(&self) -> Option<usize> {
        for place in 1..self.table.len() {
            if let Some(bell) = self.table.get(place) {
                if bell.take() {
                    let _before = self
                        .used
                        .fetch_max(place.saturating_add(1), Ordering::SeqCst);
                    return Some(place);
                }
            }
        }
        None
    }

    // Makes the bell at this place that of a session.
    fn begin(&self, place: usize, session: u64, waker: Waker) {
        if let Some(bell) = self.table.get(place) {
            bell.hang(Some(waker));
            bell.session.store(session, Ordering::SeqCst);
        }
    }

    // Makes the bell at this place nobody's.
    fn end(&self, place: usize) {
        if let Some(bell) = self.table.get(place) {
            bell.session.store(NO_SESSION, Ordering::SeqCst);
            bell.shards.store(0, Ordering::SeqCst);
            bell.hang(None);
            bell.taken.store(false, Ordering::SeqCst);
        }
    }
}

// Shards above 63 share the bits of those below.
fn bit_of(shard: u8) -> u64 {
    1u64.wrapping_shl(u32::from(shard))
}

/// A bell that is somebody's, until this is dropped.
pub(crate) struct Seat {
    bells: Arc<Bells, Global>,
    place: usize,
}

impl Drop for Seat {
    fn drop(self) {
        let Seat { bells, place } = self;
        bells.end(place);
    }
}

impl Seat {
    /// A bell for the link of a session, if one is left.
    pub(crate) fn of_link(bells: &Arc<Bells, Global>, session: u64, waker: Waker) -> Option<Seat> {
        let bells = Arc::try_clone(bells).ok()?;
        let place = bells.take_place()?;
        bells.begin(place, session, waker);
        Some(Seat { bells, place })
    }

    /// The bell at the door.
    pub(crate) fn at_door(bells: &Arc<Bells, Global>, waker: Waker) -> Option<Seat> {
        let bells = Arc::try_clone(bells).ok()?;
        bells.begin(DOOR, NO_SESSION, waker);
        Some(Seat { bells, place: DOOR })
    }

    /// The owner is about to wait. Whether the bell was rung since its last wait ended, so that it need not.
    pub(crate) fn lie_down(&self) -> bool {
        match self.bells.table.get(self.place) {
            Some(bell) => {
                bell.asleep.store(true, Ordering::SeqCst);
                bell.rung.load(Ordering::SeqCst)
            }
            None => false,
        }
    }

    /// The owner's wait has ended, and it is about to look for news.
    pub(crate) fn get_up(&self) {
        if let Some(bell) = self.bells.table.get(self.place) {
            bell.asleep.store(false, Ordering::SeqCst);
            bell.rung.store(false, Ordering::SeqCst);
        }
    }
}
