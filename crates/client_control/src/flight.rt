ghost use Rattle.std.specs.Prelude.{◌≡◌, IfOk};

use doc_items::Memory;
use std::alloc::Global;
use wavelet_op::{Ops, Submission};

/// A submission on its way: as it was first taken, and its operations passed through what came since.
pub(crate) struct InFlight {
    pub sent: Submission,
    pub ops: Ops,
}

impl Drop for InFlight {
    fn drop(self) {
        let InFlight {
            sent: _sent,
            ops: _ops,
        } = self;
    }
}

impl InFlight {
    /// The submission as it was first taken, by value.
    pub fn into_sent(self) -> Submission
        ensures { result ≡ self.sent }
    {
        let InFlight { sent, ops: _ops } = self;
        sent
    }

    /// An equal flight.
    pub fn copy(&self, alloc: Global) -> Result<InFlight, Memory>
        ensures { IfOk result (λ g. g ≡ self.now) }
    {
        let sent = self.sent.copy(alloc)?;
        let ops = self.ops.copy(alloc)?;
        Ok(InFlight { sent, ops })
    }
}

/// An equal flight, if there is one.
pub(crate) fn copy_flight(
    alloc: Global,
    flight: &Option<InFlight>,
) -> Result<Option<InFlight>, Memory>
    ensures { IfOk result (λ g. g ≡ flight.now) }
{
    match flight {
        Some(flight) => Ok(Some(flight.copy(alloc)?)),
        None => Ok(None),
    }
}
