ghost use Rattle.std.specs.Prelude.{◌≡◌, IfOk};

use doc_items::Memory;
use std::alloc::Global;
use wave_base::HashedVersion;
use wavelet_op::Ops;

/// What a follower answers to a delta. Only `Advanced` changes it.
pub enum Received {
    /// The delta starts below the follower's version.
    Old,
    /// The delta starts above the follower's version.
    Gap,
    /// The delta starts at the follower's version, where the follower is at `mine`, with another hash.
    Diverged {
        mine: HashedVersion,
        theirs: HashedVersion,
    },
    /// The delta has the id of the submission in flight, which the follower has as `mine`, and other operations.
    OtherFlight {
        mine: Ops,
        theirs: Ops,
    },
    /// The operation of this index isn't valid where the ones before it lead. With the number of operations as its index: they are
    /// valid, and after them the count of inserted items, the version or the delta's bytes are above their bound.
    NotNext {
        index: u32,
    },
    /// The follower is after the delta.
    Advanced,
}

impl Drop for Received {
    fn drop(self) {
        match self {
            Received::Old => {}
            Received::Gap => {}
            Received::Diverged {
                mine: _mine,
                theirs: _theirs,
            } => {}
            Received::OtherFlight {
                mine: _mine,
                theirs: _theirs,
            } => {}
            Received::NotNext { index: _index } => {}
            Received::Advanced => {}
        }
    }
}

impl Received {
    /// An equal answer.
    pub fn copy(&self, alloc: Global) -> Result<Received, Memory>
        ensures { IfOk result (λ r. r ≡ self.now) }
    {
        match self {
            Received::Old => Ok(Received::Old),
            Received::Gap => Ok(Received::Gap),
            Received::Diverged { mine, theirs } => Ok(Received::Diverged {
                mine: *mine,
                theirs: *theirs,
            }),
            Received::OtherFlight { mine, theirs } => {
                let mine = mine.copy(alloc)?;
                let theirs = theirs.copy(alloc)?;
                Ok(Received::OtherFlight { mine, theirs })
            }
            Received::NotNext { index } => Ok(Received::NotNext { index: *index }),
            Received::Advanced => Ok(Received::Advanced),
        }
    }
}
