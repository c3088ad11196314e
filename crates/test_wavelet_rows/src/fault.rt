// Why a row has no answer.

use delta_history::HistoryFault;
use doc_items::Memory;
use follower_rules::FollowerFault;
use op_codec::CodecFault;
use test_wavelet_words::WordsFault;
use wave_base::BaseFault;
use wavelet_op::WaveletFault;

/// Why a row has no answer.
#[derive(Clone, Copy, Debug)]
pub enum Fault {
    /// The words are no operations on a wavelet.
    Words,
    /// The row isn't made as the verb wants it.
    Row,
    /// The operation breaks the rules of structure.
    NotStructured,
    /// The bytes spell nothing.
    Codec(CodecFault),
    /// The text is no name.
    Base(BaseFault),
    /// The operations on a wavelet are refused.
    Wavelet(WaveletFault),
    /// The delta doesn't start at the head of the history.
    NotNext,
    /// The history wouldn't be legal with the delta.
    NotLegal,
    /// The follower refuses the call.
    Follower(FollowerFault),
    /// Want of memory.
    Memory,
}

impl From<Memory> for Fault {
    fn from(_: Memory) -> Self {
        Fault::Memory
    }
}

impl From<WordsFault> for Fault {
    fn from(_: WordsFault) -> Self {
        Fault::Words
    }
}

impl From<CodecFault> for Fault {
    fn from(fault: CodecFault) -> Self {
        Fault::Codec(fault)
    }
}

impl From<BaseFault> for Fault {
    fn from(fault: BaseFault) -> Self {
        Fault::Base(fault)
    }
}

impl From<WaveletFault> for Fault {
    fn from(fault: WaveletFault) -> Self {
        Fault::Wavelet(fault)
    }
}

impl From<HistoryFault> for Fault {
    fn from(fault: HistoryFault) -> Self {
        match fault {
            HistoryFault::NotNext { .. } => Fault::NotNext,
            HistoryFault::NotLegal => Fault::NotLegal,
            HistoryFault::Memory => Fault::Memory,
        }
    }
}

impl From<FollowerFault> for Fault {
    fn from(fault: FollowerFault) -> Self {
        Fault::Follower(fault)
    }
}
