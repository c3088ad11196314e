// Why a row has no answer.
use doc_items::Memory;
use doc_op::OpFault;
use op_build::BuildFault;
use op_codec::CodecFault;
use op_compose::ComposeFault;
use op_json::JsonFault;
use op_transform::TransformFault;
use op_validity::CheckFault;
use wave_base::BaseFault;

/// Why a row has no answer.
#[derive(Clone, Copy, Debug)]
pub enum Fault {
    /// The words are no operation on a document.
    Operation,
    /// The row isn't made as the verb wants it.
    Row,
    /// The operation breaks the rules of structure.
    NotStructured,
    /// The text is no JSON.
    NotJson,
    /// The document has no such operation.
    Check(CheckFault),
    /// The operations have no composition.
    Compose(ComposeFault),
    /// The operations have no transform.
    Transform(TransformFault),
    /// The bytes spell nothing.
    Codec(CodecFault),
    /// The value is no operation.
    Json(JsonFault),
    /// The edit can't be made.
    Build(BuildFault),
    /// The text is no name.
    Base(BaseFault),
    /// Want of memory.
    Memory,
}

impl From<Memory> for Fault {
    fn from(_: Memory) -> Self {
        Fault::Memory
    }
}

impl From<OpFault> for Fault {
    fn from(_: OpFault) -> Self {
        Fault::Operation
    }
}

impl From<CheckFault> for Fault {
    fn from(fault: CheckFault) -> Self {
        Fault::Check(fault)
    }
}

impl From<ComposeFault> for Fault {
    fn from(fault: ComposeFault) -> Self {
        Fault::Compose(fault)
    }
}

impl From<TransformFault> for Fault {
    fn from(fault: TransformFault) -> Self {
        Fault::Transform(fault)
    }
}

impl From<CodecFault> for Fault {
    fn from(fault: CodecFault) -> Self {
        Fault::Codec(fault)
    }
}

impl From<JsonFault> for Fault {
    fn from(fault: JsonFault) -> Self {
        Fault::Json(fault)
    }
}

impl From<BuildFault> for Fault {
    fn from(fault: BuildFault) -> Self {
        Fault::Build(fault)
    }
}

impl From<BaseFault> for Fault {
    fn from(fault: BaseFault) -> Self {
        Fault::Base(fault)
    }
}
