// Why a row has no answer.
use doc_items::Memory;
use doc_op::OpFault;
use op_validity::CheckFault;

/// Why a row has no answer.
#[derive(Clone, Copy, Debug)]
pub enum Fault {
    /// The words are no operation.
    Operation,
    /// The text is no JSON.
    NotJson,
    /// The row isn't made as the verb wants it.
    Row,
    /// The document has no such operation.
    Check(CheckFault),
    /// Want of memory.
    Memory,
}

impl From<Memory> for Fault {
    fn from(_: Memory) -> Self {
        Fault::Memory
    }
}

impl From<OpFault> for Fault {
    fn from(_: OpFault) -> Self {
        Fault::Operation
    }
}

impl From<CheckFault> for Fault {
    fn from(fault: CheckFault) -> Self {
        Fault::Check(fault)
    }
}
