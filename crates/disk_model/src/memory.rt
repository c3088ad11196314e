// A file in memory, with each step that was taken on it.
ghost use Rattle.std.specs.Prelude.{◌≡◌};
ghost use Rattle.disk_model.specs.Steps.{file_after, file_before};

use std::alloc::Global;

#[derive(Drop)]
pub(crate) enum Step {
    /// These bytes were written at this offset.
    Wrote(u64, Vec<u8>),
    Synced,
}

/// A file in memory, of which each image can be had. Calls whose numbers are in a list fail, counted from 0, and
/// from one call on all fail.
pub struct MemoryDisk {
    pub(crate) alloc: Global,
    pub(crate) bytes: Vec<u8>,
    /// The file before the first step, once there is a step.
    pub(crate) first: Option<Vec<u8>>,
    pub(crate) steps: Vec<Step>,
    pub(crate) failing: Vec<u64>,
    pub(crate) stop: Option<u64>,
    pub(crate) calls: u64,
    pub(crate) faults: u64,
    ghost whole: { bytes.items ≡ file_after (file_before first bytes.items) steps.items },
}

impl Drop for MemoryDisk {
    fn drop(self) {
        let MemoryDisk {
            alloc: _alloc,
            bytes: _bytes,
            first: _first,
            steps: _steps,
            failing: _failing,
            stop: _stop,
            calls: _calls,
            faults: _faults,
        } = self;
    }
}
