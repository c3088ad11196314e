ghost use Rattle.std.specs.Prelude.{◌≡◌};

use disk_model::DiskFault;
use std::alloc::AllocError;

/// Why a submission wasn't answered.
#[derive(Clone, Copy, Debug, PartialEq, Eq)]
pub enum SubmitFault {
    /// The disk failed, and its count of faults tells so.
    DiskFault,
    /// Want of memory.
    Memory,
}

impl From<DiskFault> for SubmitFault {
    ghost use Rattle.std.specs.Prelude.{◌≡◌};
    ghost use Rattle.wavelet_container.specs.declared.fault.SubmitFault.TheVariants.{DiskFault};

    ghost from_gives = { λ _ e. e ≡ DiskFault };

    fn from(_: DiskFault) -> Self {
        SubmitFault::DiskFault
    }
}

impl From<AllocError> for SubmitFault {
    ghost use Rattle.std.specs.Prelude.{◌≡◌};
    ghost use Rattle.wavelet_container.specs.declared.fault.SubmitFault.TheVariants.{Memory};

    ghost from_gives = { λ _ e. e ≡ Memory };

    fn from(_: AllocError) -> Self {
        SubmitFault::Memory
    }
}

/// Why no history was loaded.
#[derive(Clone, Copy, Debug, PartialEq, Eq)]
pub enum LoadFault {
    /// The file isn't the journal of a legal history of this name: by its header, at offset 0, or by the record whose gate is at
    /// this offset, in bytes, which isn't whole or isn't the next delta.
    Damaged { offset: u64 },
    /// The disk failed, and its count of faults tells so.
    DiskFault,
    /// Want of memory.
    Memory,
}

/// Why a delta wasn't put after the others.
#[derive(Clone, Copy, Debug, PartialEq, Eq)]
pub(crate) enum AddFault {
    /// The history wouldn't be legal.
    NotLegal,
    /// The disk failed.
    DiskFault,
    /// Want of memory.
    Memory,
}
