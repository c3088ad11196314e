use doc_items::Memory;
use doc_op::OpFault;
use thiserror::Error;
use wave_base::BaseFault;

/// Why words aren't read.
#[derive(Debug, Drop, Error)]
pub enum WordsFault {
    /// There are none, or more than 1,000 operations.
    #[error("not 1 to 1,000 operations")]
    Count,
    /// A component of an operation on a document was refused.
    #[error("an operation that can't be")]
    Op,
    /// A name was refused.
    #[error("a name that can't be")]
    Name,
    /// Want of memory.
    #[error("out of memory")]
    Memory,
}

impl From<Memory> for WordsFault {
    fn from(_: Memory) -> Self {
        WordsFault::Memory
    }
}

impl From<OpFault> for WordsFault {
    fn from(fault: OpFault) -> Self {
        match fault {
            OpFault::Memory => WordsFault::Memory,
            _ => WordsFault::Op,
        }
    }
}

impl From<BaseFault> for WordsFault {
    fn from(fault: BaseFault) -> Self {
        match fault {
            BaseFault::Memory => WordsFault::Memory,
            _ => WordsFault::Name,
        }
    }
}
