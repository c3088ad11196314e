ghost use Rattle.std.specs.Prelude.{◌≡◌, IfOk};

use crate::{Absorbed, CopyAt, Relay};
use doc_items::Memory;
use std::alloc::Global;
use turn_lock::Spent;
use wave_base::{DeltaId, Domain, WaveletName};
use wavelet_op::{AppliedDelta, Verdict};

/// A call that was answered, with what it was given and its answer.
pub enum TurnCall {
    TakeApplied {
        name: WaveletName,
        delta: AppliedDelta,
        answer: Result<Absorbed, Spent>,
    },
    TakeAnswer {
        name: WaveletName,
        id: DeltaId,
        verdict: Verdict,
        answer: Result<bool, Spent>,
    },
    TakeDropped {
        name: WaveletName,
        answer: Result<(), Spent>,
    },
    NextRelay {
        domain: Domain,
        place: u64,
        answer: Result<Option<Relay>, Spent>,
    },
    NextCopy {
        domain: Domain,
        place: u64,
        answer: Result<Option<CopyAt>, Spent>,
    },
}

impl Drop for TurnCall {
    fn drop(self) {
        match self {
            TurnCall::TakeApplied {
                name: _name,
                delta: _delta,
                answer: _answer,
            } => {}
            TurnCall::TakeAnswer {
                name: _name,
                id: _id,
                verdict: _verdict,
                answer: _answer,
            } => {}
            TurnCall::TakeDropped {
                name: _name,
                answer: _answer,
            } => {}
            TurnCall::NextRelay {
                domain: _domain,
                place: _place,
                answer: _answer,
            } => {}
            TurnCall::NextCopy {
                domain: _domain,
                place: _place,
                answer: _answer,
            } => {}
        }
    }
}

// An equal answer of a submission.
fn copy_relay(
    alloc: Global,
    answer: &Result<Option<Relay>, Spent>,
) -> Result<Result<Option<Relay>, Spent>, Memory>
    ensures { IfOk result (λ r. r ≡ answer.now) }
{
    match answer {
        Ok(Some(relay)) => Ok(Ok(Some(relay.copy(alloc)?))),
        Ok(None) => Ok(Ok(None)),
        Err(spent) => Ok(Err(*spent)),
    }
}

// An equal answer of how far a copy reaches.
fn copy_reach(
    alloc: Global,
    answer: &Result<Option<CopyAt>, Spent>,
) -> Result<Result<Option<CopyAt>, Spent>, Memory>
    ensures { IfOk result (λ r. r ≡ answer.now) }
{
    match answer {
        Ok(Some(copy)) => Ok(Ok(Some(copy.copy(alloc)?))),
        Ok(None) => Ok(Ok(None)),
        Err(spent) => Ok(Err(*spent)),
    }
}

impl TurnCall {
    /// An equal call.
    pub fn copy(&self, alloc: Global) -> Result<TurnCall, Memory>
        ensures { IfOk result (λ c. c ≡ self.now) }
    {
        match self {
            TurnCall::TakeApplied {
                name,
                delta,
                answer,
            } => {
                let name = name.copy(alloc)?;
                let delta = delta.copy(alloc)?;
                Ok(TurnCall::TakeApplied {
                    name,
                    delta,
                    answer: *answer,
                })
            }
            TurnCall::TakeAnswer {
                name,
                id,
                verdict,
                answer,
            } => {
                let name = name.copy(alloc)?;
                let id = id.copy(alloc)?;
                Ok(TurnCall::TakeAnswer {
                    name,
                    id,
                    verdict: *verdict,
                    answer: *answer,
                })
            }
            TurnCall::TakeDropped { name, answer } => Ok(TurnCall::TakeDropped {
                name: name.copy(alloc)?,
                answer: *answer,
            }),
            TurnCall::NextRelay {
                domain,
                place,
                answer,
            } => {
                let answer = copy_relay(alloc, answer)?;
                Ok(TurnCall::NextRelay {
                    domain: domain.copy(alloc)?,
                    place: *place,
                    answer,
                })
            }
            TurnCall::NextCopy {
                domain,
                place,
                answer,
            } => {
                let answer = copy_reach(alloc, answer)?;
                Ok(TurnCall::NextCopy {
                    domain: domain.copy(alloc)?,
                    place: *place,
                    answer,
                })
            }
        }
    }
}
