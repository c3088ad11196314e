// Why a row has no answer.
use delta_history::HistoryFault;
use doc_items::Memory;
use std::alloc::AllocFailed;
use test_wavelet_words::WordsFault;
use wave_base::BaseFault;

/// Why a row has no answer.
#[derive(Clone, Copy, Debug, PartialEq, Eq)]
pub enum Fault {
    /// The row isn't what its verb takes.
    BadRow,
    /// A delta isn't taken into a history.
    NotTaken,
    Memory,
}

impl From<Memory> for Fault {
    fn from(_: Memory) -> Self {
        Fault::Memory
    }
}

impl<T: Drop> From<AllocFailed<T>> for Fault {
    fn from(_: AllocFailed<T>) -> Self {
        Fault::Memory
    }
}

impl From<test_disk_rows::Fault> for Fault {
    fn from(fault: test_disk_rows::Fault) -> Self {
        match fault {
            test_disk_rows::Fault::BadRow => Fault::BadRow,
            test_disk_rows::Fault::Memory => Fault::Memory,
        }
    }
}

impl From<BaseFault> for Fault {
    fn from(_: BaseFault) -> Self {
        Fault::BadRow
    }
}

impl From<WordsFault> for Fault {
    fn from(_: WordsFault) -> Self {
        Fault::BadRow
    }
}

impl From<HistoryFault> for Fault {
    fn from(_: HistoryFault) -> Self {
        Fault::NotTaken
    }
}
