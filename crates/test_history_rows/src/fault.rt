// Why a row has no answer.
use delta_history::HistoryFault;
use doc_items::Memory;
use doc_op::OpFault;
use std::alloc::AllocFailed;
use test_wavelet_words::WordsFault;
use wave_base::BaseFault;
use wavelet_op::WaveletFault;

/// Why a row has no answer.
#[derive(Clone, Copy, Debug)]
pub enum Fault {
    /// The words are no operations.
    Words,
    /// The row isn't made as the verb wants it.
    Row,
    /// The operations on a wavelet are refused.
    Wavelet(WaveletFault),
    /// The delta doesn't start at the head of the history.
    NotNext,
    /// The history wouldn't be legal with the delta.
    NotLegal,
    /// Want of memory.
    Memory,
}

impl From<Memory> for Fault {
    fn from(_: Memory) -> Self {
        Fault::Memory
    }
}

impl From<OpFault> for Fault {
    fn from(_: OpFault) -> Self {
        Fault::Words
    }
}

impl From<WordsFault> for Fault {
    fn from(_: WordsFault) -> Self {
        Fault::Words
    }
}

impl From<BaseFault> for Fault {
    fn from(_: BaseFault) -> Self {
        Fault::Words
    }
}

impl From<WaveletFault> for Fault {
    fn from(fault: WaveletFault) -> Self {
        Fault::Wavelet(fault)
    }
}

impl From<HistoryFault> for Fault {
    fn from(fault: HistoryFault) -> Self {
        match fault {
            HistoryFault::NotNext { .. } => Fault::NotNext,
            HistoryFault::NotLegal => Fault::NotLegal,
            HistoryFault::Memory => Fault::Memory,
        }
    }
}

impl<T: Drop> From<AllocFailed<T>> for Fault {
    fn from(_: AllocFailed<T>) -> Self {
        Fault::Memory
    }
}
