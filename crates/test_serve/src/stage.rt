//! The turns of a talk, which its links take one after the other.
use std::alloc::{AllocError, Global};
use std::sync::Arc;
use std::sync::atomic::{AtomicBool, AtomicU64, Ordering};
use std::thread;
use wave_outside::Clock;

/// How often a link looks whether its turn has come, before it goes on without it: so a talk that goes wrong ends, too.
const MOST_LOOKS: u64 = 20_000_000;

/// Which turn of a talk is on, and what the clock reads in it.
pub struct Stage {
    turn: AtomicU64,
    reading: AtomicU64,
    // The place of the link of each turn.
    owners: Vec<usize>,
    // How many edits of robots each turn waits for; 0 for a turn of a link.
    awaited: Vec<u64>,
    // How many edits of robots were accepted until now.
    edits: AtomicU64,
    // Of each link whether its session has ended. The turns that such a link still has are passed over.
    gone: Vec<AtomicBool>,
}

impl Drop for Stage {
    fn drop(self) {
        let Stage {
            turn: _turn,
            reading: _reading,
            owners: _owners,
            awaited: _awaited,
            edits: _edits,
            gone: _gone,
        } = self;
    }
}

/// One turn of a link: its number in the talk, and what the clock reads in it.
#[derive(Clone, Copy, Drop)]
pub struct Turn {
    pub number: u64,
    pub reading: u64,
}

fn none_gone(alloc: Global, links: usize) -> Result<Vec<AtomicBool>, AllocError> {
    let mut gone = Vec::new(alloc);
    for _ in 0..links {
        gone.push(AtomicBool::new(false))?;
    }
    Ok(gone)
}

impl Stage {
    /// A talk of so many links before its first turn, which has number 0. `owners` has the place of the link of each turn,
    /// `awaited` how many edits of robots it waits for, and `reading` is what the clock reads where no turn is on.
    pub fn new(
        alloc: Global,
        owners: &[usize],
        awaited: &[u64],
        links: usize,
        reading: u64,
    ) -> Result<Stage, AllocError> {
        Ok(Stage {
            turn: AtomicU64::new(0),
            reading: AtomicU64::new(reading),
            owners: Vec::from_slice(alloc, owners)?,
            awaited: Vec::from_slice(alloc, awaited)?,
            edits: AtomicU64::new(0),
            gone: none_gone(alloc, links)?,
        })
    }

    // Whether a turn needs no link to end it: enough edits of robots were accepted, or its link has gone.
    fn is_over(&self, number: u64) -> bool {
        match self.awaited.get(number as usize) {
            Some(0) => self.has_gone(number),
            Some(count) => self.edits.load(Ordering::SeqCst) >= *count,
            None => false,
        }
    }

    // Whether the link of a turn has gone.
    fn has_gone(&self, number: u64) -> bool {
        let Some(place) = self.owners.get(number as usize) else {
            return false;
        };
        match self.gone.get(*place) {
            Some(gone) => gone.load(Ordering::SeqCst),
            None => false,
        }
    }

    /// Waits for this turn.
    pub fn begin(&self, turn: Turn) {
        for _ in 0..MOST_LOOKS {
            let on = self.turn.load(Ordering::SeqCst);
            if on == turn.number {
                break;
            }
            if self.is_over(on) {
                self.end(on);
            }
            thread::yield_now();
        }
        self.reading.store(turn.reading, Ordering::SeqCst);
    }

    /// Whether this turn is on.
    pub fn is_on(&self, number: u64) -> bool {
        let on = self.turn.load(Ordering::SeqCst);
        if on != number && self.is_over(on) {
            self.end(on);
        }
        on == number
    }

    /// Ends this turn, if it is on.
    pub fn end(&self, number: u64) {
        let next = number.wrapping_add(1);
        let _before = self
            .turn
            .compare_exchange(number, next, Ordering::SeqCst, Ordering::SeqCst);
    }

    /// There is news by this session, or by the robots, which have no session's number.
    pub fn note_news(&self, session: u64) {
        if session as usize >= self.gone.len() {
            let _before = self.edits.fetch_add(1, Ordering::SeqCst);
        }
    }

    /// The session of the link at this place has ended.
    pub fn leave(&self, place: usize) {
        if let Some(gone) = self.gone.get(place) {
            gone.store(true, Ordering::SeqCst);
        }
    }
}

/// The clock of a talk: it reads what the turn that is on gives it; 0 where no clock could share the talk.
pub struct StagedClock {
    stage: Option<Arc<Stage, Global>>,
}

impl Drop for StagedClock {
    fn drop(self) {
        let StagedClock { stage: _stage } = self;
    }
}

impl StagedClock {
    pub fn new(stage: Arc<Stage, Global>) -> StagedClock {
        StagedClock { stage: Some(stage) }
    }
}

impl Clock for StagedClock {
    ghost use Rattle.std.specs.Prelude.{false};

    ghost tells = { false };

    ghost readings = { λ _ _. 0 };

    fn now(&mut self) -> u64 {
        match &self.stage {
            Some(stage) => stage.reading.load(Ordering::SeqCst),
            None => 0,
        }
    }

    fn another(&self) -> StagedClock {
        let stage = match &self.stage {
            Some(stage) => Arc::try_clone(stage).ok(),
            None => None,
        };
        StagedClock { stage }
    }
}
