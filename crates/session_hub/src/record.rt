use std::snapshot::Snapshot;
use wave_base::{DeltaId, WaveletName};
use wavelet_op::{AppliedDelta, Submission, Verdict};

// What a shard keeps of a mark but the first: which kind it is of, and which wavelet grew while the server ran.
pub(crate) enum Record {
    Loaded {
        name: Snapshot<WaveletName>,
        delta: Snapshot<AppliedDelta>,
    },
    Applied {
        name: WaveletName,
        delta: Snapshot<AppliedDelta>,
    },
    Fault {
        name: Snapshot<WaveletName>,
        id: Snapshot<DeltaId>,
    },
    Queued {
        name: Snapshot<WaveletName>,
        submission: Snapshot<Submission>,
    },
    Answered {
        name: Snapshot<WaveletName>,
        id: Snapshot<DeltaId>,
        verdict: Snapshot<Verdict>,
    },
    Dropped {
        name: Snapshot<WaveletName>,
    },
}

impl Drop for Record {
    fn drop(self) {
        match self {
            Record::Loaded {
                name: _name,
                delta: _delta,
            } => {}
            Record::Applied {
                name: _name,
                delta: _delta,
            } => {}
            Record::Fault {
                name: _name,
                id: _id,
            } => {}
            Record::Queued {
                name: _name,
                submission: _submission,
            } => {}
            Record::Answered {
                name: _name,
                id: _id,
                verdict: _verdict,
            } => {}
            Record::Dropped { name: _name } => {}
        }
    }
}
